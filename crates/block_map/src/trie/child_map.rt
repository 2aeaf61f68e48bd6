//! The children of a node by their names.

use crate::trie::node::NodeId;

/// The number of a map; 0 is the empty one.
#[derive(Clone, Copy, Debug, PartialEq, Eq)]
pub(crate) struct ChildMapId(pub(crate) u32);

/// The children of a node by their names. The maps that it is made of have smaller numbers.
#[derive(Clone, Copy)]
pub(crate) enum ChildMap {
    /// One name, of whose number these bits are left, and its node.
    Leaf { bits: u32, node: NodeId },
    /// The names whose lowest bit is 0, and those whose lowest bit is 1, each without that bit.
    Branch { even: ChildMapId, odd: ChildMapId },
}
