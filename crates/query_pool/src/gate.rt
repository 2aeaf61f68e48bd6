//! Watching places being served.
ghost use Rattle.std.specs.Prelude.{ℕ};

/// What is called before and after each `Job::run`, with its place, in the thread that runs it.
///
/// A gate may make a worker wait. `serve` returns only if each call of its gate does.
pub trait Gate: Sync {
    // Which places it is called with.
    ghost watches: { Self → ℕ → Type 0 };

    fn enter(&self, place: u32)
        requires { watches self.now place };

    fn leave(&self, place: u32)
        requires { watches self.now place };
}

/// A gate that does nothing.
#[derive(Clone, Copy, Debug, Default, PartialEq, Eq)]
pub struct NoGate;

impl Gate for NoGate {
    ghost use Rattle.std.specs.Prelude.{⊤};

    ghost watches = { λ _ _. ⊤ };

    fn enter(&self, _place: u32) {}

    fn leave(&self, _place: u32) {}
}
