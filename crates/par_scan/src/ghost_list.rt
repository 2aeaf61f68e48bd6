//! Lists for contracts alone.
ghost use Rattle.std.specs.Prelude.{◌≡◌, ◌++◌, ◌∷◌, []};

use std::marker::Model;
use std::snapshot::Snapshot;

/// A list that only contracts read, and that takes no memory: the elements of two others, and one more.
#[derive(Drop)]
pub struct GhostList<T> {
    front: Option<Snapshot<GhostList<T>>>,
    back: Option<Snapshot<GhostList<T>>>,
    last: Option<Snapshot<T>>,
}

impl<T> Model for GhostList<T> {
    ghost use Rattle.par_scan.specs.GhostList.{NestedList, nested};

    ghost Value = { NestedList T };

    ghost view = { λ g. nested g.front g.back g.last };

    ghost size = { λ list. list.depth };

    ghost use Rattle.std.proofs.Common.{arith};

    ghost size_decreases = { λ a h. Prim.grind arith };
}

impl<T> GhostList<T> {
    /// No elements.
    pub fn new() -> Self
        ensures { result.items ≡ [] }
    {
        GhostList {
            front: None,
            back: None,
            last: None,
        }
    }

    /// Adds an element.
    pub fn push(&mut self, item: &T)
        ensures { self.new.items ≡ self.old.items ++ item.now ∷ [] }
    {
        *self = GhostList {
            front: Some(Snapshot::of(self)),
            back: None,
            last: Some(Snapshot::of(item)),
        };
    }

    /// A list of the same elements.
    pub fn dup(&self) -> Self
        ensures { result.items ≡ self.now.items }
    {
        GhostList {
            front: Some(Snapshot::of(self)),
            back: None,
            last: None,
        }
    }

    /// The elements of both.
    pub fn join(&self, later: &GhostList<T>) -> Self
        ensures { result.items ≡ self.now.items ++ later.now.items }
    {
        GhostList {
            front: Some(Snapshot::of(self)),
            back: Some(Snapshot::of(later)),
            last: None,
        }
    }
}
