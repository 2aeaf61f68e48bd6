//! The nodes of trees.
ghost use Rattle.std.specs.Prelude.{◌≡◌, ◌<◌, ◌++◌, ◌∷◌, [], Some, OnErr, OnOk, length, slice_get};

use crate::trie::node::{Node, NodeId};
use crate::trie::stored_node::StoredNode;
use std::alloc::{AllocError, Global};
use std::marker::Model;

/// A list of nodes, to which others are added.
#[derive(Drop)]
pub(crate) struct Nodes {
    items: Vec<StoredNode>,
}

impl Model for Nodes {
    ghost use Rattle.std.specs.Prelude.{List, map};
    ghost use Rattle.block_map.specs.StoredNodes.{node_of};
    ghost use Rattle.block_map.specs.declared.trie.node.Node.{Node};

    ghost Value = { List Node };

    ghost view = { λ n. map node_of n.items.items };
}

impl Nodes {
    /// No nodes. It takes no memory.
    pub(crate) fn new(alloc: Global) -> Self
        ensures { result ≡ [] }
    {
        Nodes {
            items: Vec::new(alloc),
        }
    }

    /// How many nodes there are.
    pub(crate) fn len(&self) -> usize
        ensures { result ≡ length self.now }
    {
        self.items.len()
    }

    /// The node of a number.
    pub(crate) fn node(&self, id: NodeId) -> Node
        requires { id.0 < length self.now }
        ensures { slice_get self.now id.0 ≡ Some result }
    {
        self.items[id.0 as usize].node()
    }

    /// The node of a number, if there is one.
    pub(crate) fn get(&self, id: NodeId) -> Option<Node>
        ensures { result ≡ slice_get self.now id.0 }
    {
        self.items.get(id.0 as usize).map(|stored| stored.node())
    }

    /// Adds a node.
    pub(crate) fn push(&mut self, node: Node) -> Result<(), AllocError>
        ensures added { OnOk result (self.new ≡ self.old ++ node ∷ []) }
        ensures failed { OnErr result (self.new ≡ self.old) }
    {
        self.items.push(StoredNode::of(node))?;
        Ok(())
    }

    /// The allocator of the list.
    pub(crate) fn allocator(&self) -> Global {
        *self.items.allocator()
    }
}
