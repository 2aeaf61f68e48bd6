//! Opening files by their paths.
ghost use Rattle.std.specs.Prelude.{ℕ, List, IsFalse, IsTrue};

use crate::device::{Device, Failed, Pull};
use std::fs;
use std::io::{self, ErrorKind, Read};
use std::rt::Files;

/// What opens the files of a run, one after the other. Where it is a [`Pull`], it gives the bytes of the last one.
pub trait Open {
    // What an opened path makes of a state.
    ghost opens: { Self → List ℕ → Self → Type 0 };

    // What a path that can't be opened makes of it.
    ghost refuses: { Self → List ℕ → Self → Type 0 };

    /// Opens a path, and says whether it could.
    fn open(&mut self, path: &str) -> bool
        ensures opened { IsTrue result → opens self.old path.now self.new }
        ensures refused { IsFalse result → refuses self.old path.now self.new };
}

/// The files of the system. What is in them is not known, only that none was read or failed as it is opened. Before
/// one is opened, each read fails.
#[derive(Drop)]
pub struct SystemFiles<'r, R: Files> {
    rt: &'r R,
    opened: Device<Opened<R::File>>,
}

impl<'r, R: Files> SystemFiles<'r, R> {
    /// None opened yet.
    pub fn new(rt: &'r R) -> Self {
        SystemFiles {
            rt,
            opened: Device::new(Opened(None)),
        }
    }
}

impl<R: Files> Open for SystemFiles<'_, R> {
    ghost use Rattle.std.specs.Prelude.{◌≡◌, false, ⊤};
    ghost use Rattle.devices.specs.Device.{device_calls, device_has_failed};

    ghost opens = { λ _ _ after. (device_calls after.opened ≡ 0) × (device_has_failed after.opened ≡ false) };

    ghost refuses = { λ _ _ _. ⊤ };

    fn open(&mut self, path: &str) -> bool {
        match fs::open(self.rt, path) {
            Ok(file) => {
                self.opened = Device::new(Opened(Some(file)));
                true
            }
            Err(_) => false,
        }
    }
}

impl<R: Files> Pull for SystemFiles<'_, R> {
    ghost use Rattle.std.specs.Prelude.{None};
    ghost use Rattle.devices.specs.Device.{pull_state};

    ghost state = { λ files. pull_state (λ _. None) files.opened };

    fn pull(&mut self, slice: &mut [u8]) -> Result<usize, Failed> {
        self.opened.pull(slice)
    }
}

// The file that was opened last.
#[derive(Drop)]
struct Opened<F>(Option<F>);

impl<F: Read> Read for Opened<F> {
    fn read(&mut self, slice: &mut [u8]) -> io::Result<usize> {
        match &mut self.0 {
            Some(file) => file.read(slice),
            None => Err(ErrorKind::NotFound.into()),
        }
    }
}
