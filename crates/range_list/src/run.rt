//! Runs of neighbouring revision numbers.
ghost use Rattle.std.specs.Prelude.{◌≡◌, ◌+◌, ◌<◌, ◌↔◌, IsTrue};
ghost use Rattle.range_list.specs.Rangelist.{is_apart};

/// The revision numbers from `lo` to `hi`, all of them inheritable or none.
#[derive(Clone, Copy, Debug, PartialEq, Eq)]
pub struct Run {
    pub lo: u32,
    pub hi: u32,
    pub inheritable: bool,
}

impl Run {
    /// Whether a later run begins right after the end of this one, and both or neither are inheritable.
    pub(crate) fn continues_with(self, next: Run) -> bool
        requires { self.hi < next.lo }
        ensures { IsTrue result ↔ ((self.hi + 1 ≡ next.lo) × (self.inheritable ≡ next.inheritable)) }
    {
        self.hi + 1 == next.lo && self.inheritable == next.inheritable
    }

    /// Whether a run begins above the end of this one, and does not continue it.
    pub(crate) fn is_apart_from(self, next: Run) -> bool
        ensures { result ≡ is_apart self next }
    {
        self.hi < next.lo && !self.continues_with(next)
    }
}
