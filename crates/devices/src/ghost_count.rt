//! A number that contracts alone see.
ghost use Rattle.std.specs.Prelude.{◌≡◌, ℕ, ◌+◌};

use std::marker::Model;
use std::snapshot::Snapshot;

/// How many calls of a device there were, or how many of a sort. A host whose own type is a [`Pull`](crate::Pull) or a
/// [`Push`](crate::Push) counts with it what their contracts speak of. Nothing is kept of it as the program runs: it is
/// a snapshot of the number before it, and none at 0.
#[derive(Drop)]
pub struct GhostCount {
    before: Option<Snapshot<GhostCount>>,
}

impl Model for GhostCount {
    ghost use Rattle.std.specs.Prelude.{ℕ};

    ghost Value = { ℕ };

    ghost use Rattle.devices.specs.GhostCount.{count_after};

    ghost view = { λ c. count_after c.before };

    ghost size = { λ n. n };

    ghost use Rattle.std.proofs.Common.{arith};

    ghost size_decreases = { λ a h. Prim.grind arith };
}

impl GhostCount {
    /// Zero.
    pub fn new() -> Self
        ensures { result ≡ 0 }
    {
        GhostCount { before: None }
    }

    /// Adds one.
    pub fn add(&mut self)
        ensures { self.new ≡ self.old + 1 }
    {
        *self = GhostCount {
            before: Some(Snapshot::of(self)),
        };
    }
}
