//! Where bytes come from and where they go: two small traits, and std's readers and writers as both.
ghost use Rattle.std.specs.Prelude.{◌≡◌, ◌+◌, ◌<◌, ◌≤◌, ◌↔◌, false, length, IfOk, OnOk, IsErr, IsFalse, IsTrue};
ghost use Rattle.std.specs.Io.KnownBytes.{Keeps, ReadConsumes, WriteAppends};
ghost use Rattle.devices.specs.Device.{PullState, PushState, end_count, failure_count, device_calls, device_ends, device_failures, device_has_failed, device_inner, device_is_flushed, pull_state, push_state};

use crate::ghost_count::GhostCount;
use std::io::{Read, Write};

/// A device failed. It says nothing of the cause, and a device that has failed fails from then on.
#[derive(Clone, Copy, Debug, PartialEq, Eq)]
pub struct Failed;

/// What bytes come from.
pub trait Pull {
    ghost state: { Self → PullState };

    /// Puts bytes at the front of the slice and says how many: 0 is the end of the input.
    fn pull(&mut self, slice: &mut [u8]) -> Result<usize, Failed>
        requires { 0 < length slice.old }
        ensures bound { IfOk result (λ n. n ≤ length slice.new) }
        ensures bytes { ReadConsumes (state self.old).left (state self.new).left result slice.new }
        ensures counted { (state self.new).calls ≡ (state self.old).calls + 1 }
        ensures ends { (state self.new).ends ≡ (state self.old).ends + end_count result }
        ensures failures { (state self.new).failures ≡ (state self.old).failures + failure_count result }
        ensures failed { IsErr result ↔ IsTrue (state self.new).has_failed }
        ensures stays { IsTrue (state self.old).has_failed → IsTrue (state self.new).has_failed };
}

/// What bytes go to.
pub trait Push {
    ghost state: { Self → PushState };

    /// Takes bytes off the front of the slice, at least one, and says how many.
    fn push(&mut self, slice: &[u8]) -> Result<usize, Failed>
        requires { 0 < length slice.now }
        ensures bound { IfOk result (λ n. (0 < n) × (n ≤ length slice.now)) }
        ensures bytes { WriteAppends (state self.old).gone (state self.new).gone result slice.now }
        ensures unflushed { OnOk result (IsFalse (state self.new).is_flushed) }
        ensures counted { (state self.new).calls ≡ (state self.old).calls + 1 }
        ensures failures { (state self.new).failures ≡ (state self.old).failures + failure_count result }
        ensures failed { IsErr result ↔ IsTrue (state self.new).has_failed }
        ensures stays { IsTrue (state self.old).has_failed → IsTrue (state self.new).has_failed };

    /// Sends on what the device still holds back.
    fn flush(&mut self) -> Result<(), Failed>
        ensures bytes { Keeps (state self.old).gone (state self.new).gone }
        ensures flushed { OnOk result (IsTrue (state self.new).is_flushed) }
        ensures counted { (state self.new).calls ≡ (state self.old).calls + 1 }
        ensures failures { (state self.new).failures ≡ (state self.old).failures + failure_count result }
        ensures failed { IsErr result ↔ IsTrue (state self.new).has_failed }
        ensures stays { IsTrue (state self.old).has_failed → IsTrue (state self.new).has_failed };
}

/// A reader or a writer of std as a device. Any error of it is a failure, an interruption too.
#[derive(Drop)]
pub struct Device<D> {
    inner: D,
    failed: bool,
    flushed: bool,
    calls: GhostCount,
    ends: GhostCount,
    failures: GhostCount,
}

impl<D> Device<D> {
    /// A device that has not been called.
    pub fn new(inner: D) -> Self
        ensures inner { device_inner result ≡ inner }
        ensures calls { device_calls result ≡ 0 }
        ensures ends { device_ends result ≡ 0 }
        ensures failures { device_failures result ≡ 0 }
        ensures failed { device_has_failed result ≡ false }
        ensures flushed { device_is_flushed result ≡ false }
    {
        Device {
            inner,
            failed: false,
            flushed: false,
            calls: GhostCount::new(),
            ends: GhostCount::new(),
            failures: GhostCount::new(),
        }
    }
}

impl<D: Read> Pull for Device<D> {
    ghost state = { pull_state D.remaining };

    fn pull(&mut self, slice: &mut [u8]) -> Result<usize, Failed> {
        self.calls.add();
        if self.failed {
            self.failures.add();
            return Err(Failed);
        }
        match self.inner.read(slice) {
            Ok(0) => {
                self.ends.add();
                Ok(0)
            }
            Ok(n) => Ok(n),
            Err(_) => {
                self.failed = true;
                self.failures.add();
                Err(Failed)
            }
        }
    }
}

impl<D: Write> Push for Device<D> {
    ghost state = { push_state D.contents };

    fn push(&mut self, slice: &[u8]) -> Result<usize, Failed> {
        self.calls.add();
        if self.failed {
            self.failures.add();
            return Err(Failed);
        }
        self.flushed = false;
        match self.inner.write(slice) {
            Ok(n) if n > 0 => Ok(n),
            _ => {
                self.failed = true;
                self.failures.add();
                Err(Failed)
            }
        }
    }

    fn flush(&mut self) -> Result<(), Failed> {
        self.calls.add();
        if self.failed {
            self.failures.add();
            return Err(Failed);
        }
        match self.inner.flush() {
            Ok(()) => {
                self.flushed = true;
                Ok(())
            }
            Err(_) => {
                self.failed = true;
                self.failures.add();
                Err(Failed)
            }
        }
    }
}
