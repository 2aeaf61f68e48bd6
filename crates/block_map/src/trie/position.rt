//! Where a path leads in a tree.
ghost use Rattle.std.specs.Prelude.{◌≡◌};
ghost use Rattle.block_map.specs.Trie.{base_of_path};

use crate::trie::location::LocationId;
use crate::trie::node::{Base, Node};

/// The base of a path: what the path has where no node says otherwise.
#[derive(Clone, Copy)]
pub(crate) enum PathBase {
    Nothing,
    /// What stood at a location, below which the path goes on from component `from`.
    At { location: LocationId, from: usize },
}

/// The node at the end of a path, if there is one, and the base that the path has without it.
#[derive(Clone, Copy)]
pub(crate) struct Position {
    pub(crate) node: Option<Node>,
    pub(crate) base: PathBase,
}

/// The base of a path of so many components whose node has this base, over that of its parent.
pub(crate) fn base_of_path(base: Base, parent: PathBase, depth: usize) -> PathBase
    ensures { result ≡ base_of_path base parent depth }
{
    match base {
        Base::OfParent => parent,
        Base::Nothing => PathBase::Nothing,
        Base::At(location) => PathBase::At {
            location,
            from: depth,
        },
    }
}
