//! The paths of records, each once, as a tree of components.
ghost use Rattle.std.specs.Prelude.{◌≡◌, ◌≤◌, ◌↔◌, List, [], Some, length, IfOk, IsOk, IsSome, IsTrue, OnOk};
ghost use Rattle.path_index.specs.Nodes.{child_of, node_of, AreNodesOf, ExtendsNodes};

use indexmap::IndexSet;
use std::alloc::{AllocError, Global};
use std::hash::{Hash, Hasher};
use std::marker::Model;
use svn_path::{NameId, Path};
use svn_text::Seed;

/// A node, by the node above it and its last component.
#[derive(Clone, Copy, PartialEq, Eq)]
struct Child {
    parent: u32,
    name: NameId,
}

/// Both numbers are hashed as one word, which takes half the time of two.
impl Hash for Child {
    ghost use Rattle.path_index.specs.Nodes.{writes_of, writes_of-same};

    ghost hash_input = { writes_of };

    ghost respects_eq = { writes_of-same };

    fn hash<H: Hasher>(&self, state: &mut H) {
        state.write_u64(u64::from(self.parent) << 32 | u64::from(self.name.0));
    }
}

/// The nodes of some paths and of all paths above them. The root is node 0, and the others are numbered from 1.
#[derive(Drop)]
pub(crate) struct Nodes {
    children: IndexSet<Child, Seed>,
}

impl Model for Nodes {
    ghost use Rattle.std.specs.Prelude.{List, length, ◌<◌, ◌^◌};
    ghost use Rattle.path_index.specs.Nodes.{HaveParentsBefore};
    ghost use Rattle.path_index.specs.declared.nodes.Child.{Child};

    ghost Value = { List Child };

    ghost view = { λ n. n.children.keys };

    ghost invariant = { λ n. (length n.children.keys < 2 ^ 32) × HaveParentsBefore n.children.keys };
}

impl Nodes {
    /// The root alone. Others are found by the hashes of a seed. It takes no memory.
    pub(crate) fn new(alloc: Global, seed: Seed) -> Self
        ensures { result ≡ [] }
    {
        Nodes {
            children: IndexSet::with_hasher(alloc, seed),
        }
    }

    /// The seed by which nodes are found.
    pub(crate) fn seed(&self) -> Seed {
        *self.children.hasher()
    }

    pub(crate) fn allocator(&self) -> Global {
        *self.children.allocator()
    }

    /// An equal tree.
    pub(crate) fn dup(&self) -> Result<Self, AllocError>
        ensures { IfOk result (λ nodes. nodes ≡ self.now) }
    {
        Ok(Nodes {
            children: self.children.clone()?,
        })
    }

    /// Gives back the memory that is kept for more nodes.
    pub(crate) fn shrink_to_fit(&mut self)
        ensures { self.new ≡ self.old }
    {
        self.children.shrink_to_fit();
    }

    /// The node of a component below another node, which is added where it is new. A tree of 4,294,967,295 nodes below
    /// the root takes no new one: that is reported as want of memory.
    pub(crate) fn add(&mut self, parent: u32, name: NameId) -> Result<u32, AllocError>
        requires { parent ≤ length self.old }
        ensures node { IfOk result (λ node. child_of self.new parent name ≡ Some node) }
        ensures grown { OnOk result (ExtendsNodes self.old self.new) }
        ensures known { IsSome (child_of self.old parent name) → IsOk result × (self.new ≡ self.old) }
    {
        if self.children.len() == u32::MAX as usize {
            return self.child(parent, name).ok_or(AllocError);
        }
        let (index, _) = self.children.insert_full(Child { parent, name })?;
        Ok(index as u32 + 1)
    }

    /// The same, given a node that it may be. Whether that is the one is seen without a look-up.
    pub(crate) fn add_likely(
        &mut self,
        parent: u32,
        name: NameId,
        likely: Option<u32>,
    ) -> Result<u32, AllocError>
        requires { parent ≤ length self.old }
        ensures node { IfOk result (λ node. child_of self.new parent name ≡ Some node) }
        ensures grown { OnOk result (ExtendsNodes self.old self.new) }
        ensures known { IsSome (child_of self.old parent name) → IsOk result × (self.new ≡ self.old) }
    {
        match likely {
            Some(node) if self.is_child(node, parent, name) => Ok(node),
            _ => self.add(parent, name),
        }
    }

    /// Whether a node is that of a component below another node.
    fn is_child(&self, node: u32, parent: u32, name: NameId) -> bool
        ensures { IsTrue result ↔ (child_of self.now parent name ≡ Some node) }
    {
        let Some(index) = node.checked_sub(1) else {
            return false;
        };
        match self.children.as_slice().get(index as usize) {
            Some(child) => *child == Child { parent, name },
            None => false,
        }
    }

    /// Adds the nodes of another tree. Returns the node of each, from the root on.
    pub(crate) fn add_all(&mut self, later: Nodes) -> Result<Vec<u32>, AllocError>
        ensures nodes { IfOk result (λ nodes. AreNodesOf later self.new nodes.items) }
        ensures grown { OnOk result (ExtendsNodes self.old self.new) }
    {
        let mut nodes = Vec::with_capacity(self.allocator(), later.children.len() + 1)?;
        nodes.push(0)?;
        for child in later.children.as_slice() {
            let node = self.add(nodes[child.parent as usize], child.name)?;
            nodes.push(node)?;
        }
        self.children.shrink_to_fit();
        Ok(nodes)
    }

    /// The node of a component below another node.
    pub(crate) fn child(&self, parent: u32, name: NameId) -> Option<u32>
        ensures { result ≡ child_of self.now parent name }
    {
        self.children
            .get_index_of(&Child { parent, name })
            .map(|index| index as u32 + 1)
    }

    /// The node of a path.
    pub(crate) fn find(&self, path: &Path) -> Option<u32>
        ensures { result ≡ node_of self.now path.now }
    {
        let mut node = 0;
        for name in path.parts() {
            node = match self.child(node, *name) {
                Some(child) => child,
                None => return None,
            };
        }
        Some(node)
    }
}
