//! What workers do at each place.
ghost use Rattle.std.specs.Prelude.{ℕ, IfOk};

use std::alloc::AllocError;

/// Work that is numbered by places. Workers share the job by reference, and each has a state of its own.
pub trait Job: Sync {
    /// The result at one place.
    type Out: Send + Drop;

    /// What a worker keeps from one place to the next.
    type State: Send + Drop;

    // Which places there are.
    ghost has: { Self → ℕ → Type 0 };

    // Which states a worker may have.
    ghost lawful: { Self → Self.State → Type 0 };

    // Which results there may be at a place.
    ghost gives: { Self → ℕ → Self.Out → Type 0 };

    /// The state with which a worker begins.
    fn state(&self) -> Result<Self::State, AllocError>
        ensures { IfOk result (lawful self.now) };

    /// The result at a place.
    fn run(&self, place: u32, state: &mut Self::State) -> Result<Self::Out, AllocError>
        requires place { has self.now place }
        requires state { lawful self.now state.old }
        ensures gives { IfOk result (gives self.now place) }
        ensures state { lawful self.now state.new };
}
