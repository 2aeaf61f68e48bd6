//! A gate at which workers meet.

use query_pool::Gate;
use std::sync::atomic::{AtomicUsize, Ordering};
use std::thread::yield_now;

/// The first calls of `enter` wait until so many have been made.
#[derive(Drop)]
pub(crate) struct Meeting {
    first: u32,
    wanted: usize,
    begun: AtomicUsize,
    met: AtomicUsize,
}

impl Meeting {
    /// Of the places from `first` on.
    pub(crate) fn of(first: u32, wanted: usize) -> Meeting {
        Meeting {
            first,
            wanted,
            begun: AtomicUsize::new(0),
            met: AtomicUsize::new(0),
        }
    }

    /// Whether each of these calls saw all of them.
    pub(crate) fn all_met(&self) -> bool {
        self.met.load(Ordering::SeqCst) == self.wanted
    }

    // Whether all of them begin while this call looks.
    fn all_begin(&self) -> bool {
        for _ in 0..100_000_000u32 {
            if self.begun.load(Ordering::SeqCst) >= self.wanted {
                return true;
            }
            yield_now();
        }
        false
    }
}

impl Gate for Meeting {
    ghost use Rattle.std.specs.Prelude.{⊤};

    ghost watches = { λ _ _. ⊤ };

    fn enter(&self, place: u32) {
        if place >= self.first {
            let before = self.begun.fetch_add(1, Ordering::SeqCst);
            if before < self.wanted && self.all_begin() {
                self.met.fetch_add(1, Ordering::SeqCst);
            }
        }
    }

    fn leave(&self, _place: u32) {}
}
