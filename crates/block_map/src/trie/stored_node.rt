//! How a node is stored.
ghost use Rattle.std.specs.Prelude.{◌≡◌};
ghost use Rattle.block_map.specs.StoredNodes.{base_of, node_of, own_entry_of};

use crate::trie::child_map::ChildMapId;
use crate::trie::location::LocationId;
use crate::trie::node::{Base, Node, OwnEntry};
use svn_dump::{Kind, ValueId};

/// An own entry without its mergeinfo.
#[derive(Clone, Copy)]
enum StoredOwnEntry {
    AsBase,
    BaseWithMergeinfo,
    File,
    Dir,
    Absent,
}

/// A base without its location.
#[derive(Clone, Copy)]
enum StoredBase {
    OfParent,
    Nothing,
    At,
}

/// A node in sixteen bytes.
#[derive(Clone, Copy)]
pub(crate) struct StoredNode {
    /// The mergeinfo of the own entry, if `has_mergeinfo`.
    mergeinfo: ValueId,
    /// The location of the base, if that is one.
    location: LocationId,
    children: ChildMapId,
    own: StoredOwnEntry,
    base: StoredBase,
    has_mergeinfo: bool,
    may_give_mergeinfo_below: bool,
}

const _: () = prove!(size_of::<StoredNode>() == 16);

impl StoredNode {
    /// The node as it is stored.
    pub(crate) fn of(node: Node) -> Self
        ensures { node_of result ≡ node }
    {
        let (own, mergeinfo) = stored_own_entry(node.own);
        let (base, location) = stored_base(node.base);
        StoredNode {
            mergeinfo: mergeinfo.unwrap_or(ValueId(0)),
            location,
            children: node.children,
            own,
            base,
            has_mergeinfo: mergeinfo.is_some(),
            may_give_mergeinfo_below: node.may_give_mergeinfo_below,
        }
    }

    /// The node that is stored.
    pub(crate) fn node(self) -> Node
        ensures { result ≡ node_of self }
    {
        let mergeinfo = if self.has_mergeinfo {
            Some(self.mergeinfo)
        } else {
            None
        };
        Node {
            own: own_entry(self.own, mergeinfo),
            base: base(self.base, self.location),
            children: self.children,
            may_give_mergeinfo_below: self.may_give_mergeinfo_below,
        }
    }
}

/// An own entry as it is stored, and its mergeinfo.
fn stored_own_entry(own: OwnEntry) -> (StoredOwnEntry, Option<ValueId>)
    ensures { own_entry_of result.0 result.1 ≡ own }
{
    match own {
        OwnEntry::AsBase => (StoredOwnEntry::AsBase, None),
        OwnEntry::BaseWithMergeinfo(mi) => (StoredOwnEntry::BaseWithMergeinfo, mi),
        OwnEntry::Is {
            kind: Kind::File,
            mi,
        } => (StoredOwnEntry::File, mi),
        OwnEntry::Is {
            kind: Kind::Dir,
            mi,
        } => (StoredOwnEntry::Dir, mi),
        OwnEntry::Absent => (StoredOwnEntry::Absent, None),
    }
}

/// The own entry that is stored with this mergeinfo.
fn own_entry(stored: StoredOwnEntry, mi: Option<ValueId>) -> OwnEntry
    ensures { result ≡ own_entry_of stored mi }
{
    match stored {
        StoredOwnEntry::AsBase => OwnEntry::AsBase,
        StoredOwnEntry::BaseWithMergeinfo => OwnEntry::BaseWithMergeinfo(mi),
        StoredOwnEntry::File => OwnEntry::Is {
            kind: Kind::File,
            mi,
        },
        StoredOwnEntry::Dir => OwnEntry::Is {
            kind: Kind::Dir,
            mi,
        },
        StoredOwnEntry::Absent => OwnEntry::Absent,
    }
}

/// A base as it is stored, and its location.
fn stored_base(base: Base) -> (StoredBase, LocationId)
    ensures { base_of result.0 result.1 ≡ base }
{
    match base {
        Base::OfParent => (StoredBase::OfParent, LocationId(0)),
        Base::Nothing => (StoredBase::Nothing, LocationId(0)),
        Base::At(location) => (StoredBase::At, location),
    }
}

/// The base that is stored with this location.
fn base(stored: StoredBase, location: LocationId) -> Base
    ensures { result ≡ base_of stored location }
{
    match stored {
        StoredBase::OfParent => Base::OfParent,
        StoredBase::Nothing => Base::Nothing,
        StoredBase::At => Base::At(location),
    }
}
