//! What makes the items of a scan.
ghost use Rattle.std.specs.Prelude.{ℕ, IfOk};

use crate::acts::Acts;
use std::alloc::AllocError;

/// What makes the items of a scan, each by its number. Threads share it by reference.
pub trait Make: Sync {
    type Item: Acts;

    // Which numbers there are.
    ghost has: { Self → ℕ → Type 0 };

    // Which items there may be of a number.
    ghost gives: { Self → ℕ → Self.Item → Type 0 };

    /// The item of a number.
    fn make(&self, i: usize) -> Result<Self::Item, AllocError>
        requires { has self.now i }
        ensures { IfOk result (gives self.now i) };
}
