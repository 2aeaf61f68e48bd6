//! What trees have at a path and below it, in nodes that they share.
ghost use Rattle.std.specs.Prelude.{◌≡◌, unwrap_or};
ghost use Rattle.svn_dump.specs.Dump.{setting_view};
ghost use Rattle.block_map.specs.Node.{absent_node, gives_mergeinfo, may_give_mergeinfo, node_at_location, node_of_kind, node_with_mergeinfo, node_with_setting, untouched};

use crate::trie::child_map::ChildMapId;
use crate::trie::location::LocationId;
use svn_dump::{Kind, Mi, ValueId};

/// The number of a node.
#[derive(Clone, Copy, Debug, PartialEq, Eq)]
pub(crate) struct NodeId(pub(crate) u32);

/// What a node says of its own path.
#[derive(Clone, Copy)]
pub(crate) enum OwnEntry {
    /// What its base has there.
    AsBase,
    /// What its base has there, with this mergeinfo.
    BaseWithMergeinfo(Option<ValueId>),
    Is { kind: Kind, mi: Option<ValueId> },
    Absent,
}

impl OwnEntry {
    /// Whether it gives mergeinfo to its path, other than what its base has there.
    fn gives_mergeinfo(self) -> bool
        ensures { result ≡ gives_mergeinfo self }
    {
        match self {
            OwnEntry::AsBase | OwnEntry::Absent => false,
            OwnEntry::BaseWithMergeinfo(mi) | OwnEntry::Is { mi, .. } => mi.is_some(),
        }
    }
}

/// What a path and those below it have where neither the node of the path nor its children say otherwise.
#[derive(Clone, Copy)]
pub(crate) enum Base {
    /// What the base of the parent has there.
    OfParent,
    Nothing,
    /// What stood at a location and below it.
    At(LocationId),
}

/// What is known of a path and of the paths below it, over a base. All trees that have the same there share the node.
#[derive(Clone, Copy)]
pub(crate) struct Node {
    pub(crate) own: OwnEntry,
    pub(crate) base: Base,
    pub(crate) children: ChildMapId,
    /// Whether a node below it may give mergeinfo to a path, other than what its base has there.
    pub(crate) may_give_mergeinfo_below: bool,
}

impl Node {
    /// This node, or one that says nothing over the base of its parent.
    pub(crate) fn or_untouched(node: Option<Node>) -> Node
        ensures { result ≡ unwrap_or node untouched }
    {
        node.unwrap_or(Node {
            own: OwnEntry::AsBase,
            base: Base::OfParent,
            children: ChildMapId(0),
            may_give_mergeinfo_below: false,
        })
    }

    /// Nothing, and nothing below it.
    pub(crate) fn absent() -> Node
        ensures { result ≡ absent_node }
    {
        Node {
            own: OwnEntry::Absent,
            base: Base::Nothing,
            children: ChildMapId(0),
            may_give_mergeinfo_below: false,
        }
    }

    /// A file or a directory, and nothing below it.
    pub(crate) fn is(kind: Kind, mi: Option<ValueId>) -> Node
        ensures { result ≡ node_of_kind kind mi }
    {
        Node {
            own: OwnEntry::Is { kind, mi },
            base: Base::Nothing,
            children: ChildMapId(0),
            may_give_mergeinfo_below: false,
        }
    }

    /// What stood at a location and below it.
    pub(crate) fn at(location: LocationId) -> Node
        ensures { result ≡ node_at_location location }
    {
        Node {
            own: OwnEntry::AsBase,
            base: Base::At(location),
            children: ChildMapId(0),
            may_give_mergeinfo_below: false,
        }
    }

    /// Whether it may give mergeinfo to its path or one below it, other than what the base of its parent has there.
    pub(crate) fn may_give_mergeinfo(self) -> bool
        ensures { result ≡ may_give_mergeinfo self }
    {
        self.may_give_mergeinfo_below
            || self.own.gives_mergeinfo()
            || matches!(self.base, Base::At(_))
    }

    /// The node with this mergeinfo, if anything stands there.
    pub(crate) fn with_mergeinfo(self, mi: Option<ValueId>) -> Node
        ensures { result ≡ node_with_mergeinfo mi self }
    {
        let own = match self.own {
            OwnEntry::AsBase | OwnEntry::BaseWithMergeinfo(_) => OwnEntry::BaseWithMergeinfo(mi),
            OwnEntry::Is { kind, .. } => OwnEntry::Is { kind, mi },
            OwnEntry::Absent => OwnEntry::Absent,
        };
        Node { own, ..self }
    }

    /// The node with the mergeinfo that a record leaves.
    pub(crate) fn with_setting(self, mi: Mi) -> Node
        ensures { result ≡ node_with_setting (setting_view mi) self }
    {
        match mi {
            Mi::Keep => self,
            Mi::Put(mi) => self.with_mergeinfo(mi),
        }
    }
}
