//! Calls of which one fails.

use std::alloc::AllocError;
use std::sync::atomic::{AtomicUsize, Ordering};
use std::thread::yield_now;

/// Counts calls, and fails the one with this number, of which the first is 0.
#[derive(Drop)]
pub struct Calls {
    failing: usize,
    begun: AtomicUsize,
    ended: AtomicUsize,
}

impl Calls {
    /// Calls of which the one with this number fails.
    pub fn of(failing: usize) -> Calls {
        Calls {
            failing,
            begun: AtomicUsize::new(0),
            ended: AtomicUsize::new(0),
        }
    }

    /// One more call, which lets other threads run while it is at work.
    pub fn call(&self) -> Result<(), AllocError> {
        let number = self.begun.fetch_add(1, Ordering::SeqCst);
        yield_now();
        self.ended.fetch_add(1, Ordering::SeqCst);
        if number == self.failing {
            Err(AllocError)
        } else {
            Ok(())
        }
    }

    /// Whether no call is at work.
    pub fn have_ended(&self) -> bool {
        self.begun.load(Ordering::SeqCst) == self.ended.load(Ordering::SeqCst)
    }
}
