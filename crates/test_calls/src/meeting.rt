//! Calls that wait for each other.

use std::sync::atomic::{AtomicUsize, Ordering};
use std::thread::yield_now;

/// Calls that wait until the first `wanted` of them have begun.
#[derive(Drop)]
pub struct Meeting {
    wanted: usize,
    most_looks: u32,
    begun: AtomicUsize,
    met: AtomicUsize,
}

impl Meeting {
    /// A meeting of so many calls, each of which looks so often for the others before it gives up.
    pub fn of(wanted: usize, most_looks: u32) -> Meeting {
        Meeting {
            wanted,
            most_looks,
            begun: AtomicUsize::new(0),
            met: AtomicUsize::new(0),
        }
    }

    /// Begins a call, which waits. Those that come after the first ones do not wait.
    pub fn attend(&self) {
        let before = self.begun.fetch_add(1, Ordering::SeqCst);
        if before < self.wanted {
            self.wait();
        }
    }

    /// Begins a call that does not wait.
    pub fn begin(&self) {
        self.begun.fetch_add(1, Ordering::SeqCst);
    }

    /// Waits until all have begun. A wait in vain is not counted.
    pub fn wait(&self) {
        if self.have_all_begun() {
            self.met.fetch_add(1, Ordering::SeqCst);
        }
    }

    /// Whether all of them begin while this call looks. It lets other threads run meanwhile.
    fn have_all_begun(&self) -> bool {
        for _ in 0..self.most_looks {
            if self.begun.load(Ordering::SeqCst) >= self.wanted {
                return true;
            }
            yield_now();
        }
        false
    }

    /// How many waits saw all begin.
    pub fn met(&self) -> usize {
        self.met.load(Ordering::SeqCst)
    }

    /// Whether as many saw all begin as were wanted.
    pub fn have_all_met(&self) -> bool {
        self.met() == self.wanted
    }
}
