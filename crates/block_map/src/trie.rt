//! A persistent trie of paths.
ghost use Rattle.std.specs.Prelude.{◌≡◌, ◌+◌, ◌<◌, ◌++◌, ◌∷◌, [], Some, IfOk, IfSome, OnOk, length, option_map, slice_get};
ghost use Rattle.std.specs.List.Sorted.{IsStrictlyIncreasing};
ghost use Rattle.block_map.specs.Children.{AreChildren, AreKept, AreOthersAt, HaveAllNames};
ghost use Rattle.block_map.specs.Look.{with_mergeinfo as changed};
ghost use Rattle.block_map.specs.Looked.{looked_view};
ghost use Rattle.block_map.specs.Map.{AreEntryAndNearest, found_view, nearest_view};
ghost use Rattle.block_map.specs.MergeinfoBelow.{IsMergeinfoBelow};
ghost use Rattle.block_map.specs.Standing.{entry_view, mergeinfo_of, standing_of};
ghost use Rattle.block_map.specs.Trie.{ExtendsTrie, HasLocation, IsBaseOfPath, IsCopiedNode, IsLocationOfPath, IsNodeOf, IsPathBaseOf, IsPositionOf, IsSound, PutsNode};
ghost use Rattle.block_map.specs.Trie.{as_at, child_at, child_of, found_at, own_found, found_below, path_base_view, position_view, standing_below, at_root};

mod child_map;
mod child_maps;
mod location;
mod locations;
mod node;
mod nodes;
mod numbers;
mod position;
mod stored_child_map;
mod stored_node;

use crate::entry::{Child, Entry, Nearest, push_child};
use crate::found::Found;
use crate::looked::Looked;
use crate::mergeinfo_below::MergeinfoBelow;
use child_maps::ChildMaps;
pub(crate) use location::Location;
use location::LocationId;
use locations::Locations;
pub(crate) use node::{Node, NodeId};
use node::{Base, OwnEntry};
use nodes::Nodes;
use numbers::next_number;
use position::{PathBase, Position, base_of_path};
use std::alloc::{AllocError, Global};
use std::marker::Model;
use svn_dump::ValueId;
use svn_path::{NameId, Path};

/// The nodes of trees, the maps of their children, and the locations that they name. Nothing in it ever changes.
#[derive(Drop)]
pub(crate) struct Trie {
    nodes: Nodes,
    child_maps: ChildMaps,
    locations: Locations,
}

impl Model for Trie {
    ghost use Rattle.block_map.specs.Trie.{IsSound, TrieValue};

    ghost Value = { TrieValue };

    ghost view = { λ t. record { nodes = t.nodes; child_maps = t.child_maps; locations = t.locations } };

    ghost invariant = { λ t.
        IsSound (record { nodes = t.nodes; child_maps = t.child_maps; locations = t.locations }) };
}

impl Trie {
    /// No nodes. It takes no memory.
    pub(crate) fn new(alloc: Global) -> Self
        ensures empty { result ≡ record { nodes = []; child_maps = []; locations = [] } }
        ensures sound { IsSound result }
    {
        Trie {
            nodes: Nodes::new(alloc),
            child_maps: ChildMaps::new(alloc),
            locations: Locations::new(alloc),
        }
    }

    /// How many nodes there are.
    pub(crate) fn len(&self) -> usize
        ensures { result ≡ length self.now.nodes }
    {
        self.nodes.len()
    }

    /// The node of a number.
    pub(crate) fn node(&self, id: NodeId) -> Node
        requires { id.0 < length self.now.nodes }
        ensures is { slice_get self.now.nodes id.0 ≡ Some result }
        ensures sound { IsNodeOf self.now result }
    {
        self.nodes.node(id)
    }

    /// Adds a node.
    pub(crate) fn push(&mut self, node: Node) -> Result<NodeId, AllocError>
        requires { IsNodeOf self.old node }
        ensures id { IfOk result (λ id. id.0 ≡ length self.old.nodes) }
        ensures added { OnOk result (self.new ≡ record self.old { nodes = self.old.nodes ++ node ∷ [] }) }
        ensures trie { IsSound self.old }
        ensures after { IsSound self.new }
    {
        let id = NodeId(next_number(self.nodes.len())?);
        self.nodes.push(node)?;
        Ok(id)
    }

    /// Adds a location.
    pub(crate) fn push_location(&mut self, path: Path, tick: u32) -> Result<LocationId, AllocError>
        ensures id { IfOk result (λ id. id.0 ≡ length self.old.locations) }
        ensures added { OnOk result (self.new
            ≡ record self.old { locations = self.old.locations ++ record { path = path; tick = tick } ∷ [] }) }
        ensures after { IsSound self.new }
    {
        self.locations.push(path, tick)
    }

    /// The child of a node.
    fn child(&self, node: Node, name: NameId) -> Option<Node>
        ensures is { result ≡ child_of self.now node name }
        ensures sound { IfSome result (IsNodeOf self.now) }
        ensures trie { IsSound self.now }
    {
        match self.child_maps.get(node.children, name) {
            Some(id) => self.nodes.get(id),
            None => None,
        }
    }

    /// The node that a node becomes where another one is put at a path below it. It adds a node for each component.
    #[cycle(put)]
    pub(crate) fn put(
        &mut self,
        before: Option<Node>,
        path: &[NameId],
        node: Node,
    ) -> Result<Node, AllocError>
        requires before { IfSome before (IsNodeOf self.old) }
        requires node { IsNodeOf self.old node }
        ensures grown { OnOk result (ExtendsTrie self.old self.new) }
        ensures sound { IfOk result (IsNodeOf self.new) }
        ensures count { OnOk result (length self.new.nodes ≡ length self.old.nodes + length path.now) }
        ensures exact { IfOk result (PutsNode self.old self.new before path.now node) }
    {
        let Some((name, rest)) = path.split_first() else {
            return Ok(node);
        };
        let above = Node::or_untouched(before);
        let child = self.child(above, *name);
        let below = self.put(child, rest, node)?;
        self.with_child(above, *name, below)
    }

    /// The node with another child of a name. It adds the child.
    fn with_child(&mut self, node: Node, name: NameId, child: Node) -> Result<Node, AllocError>
        requires node { IsNodeOf self.old node }
        requires child { IsNodeOf self.old child }
        ensures grown { OnOk result (ExtendsTrie self.old self.new) }
        ensures sound { IfOk result (IsNodeOf self.new) }
        ensures count { OnOk result (length self.new.nodes ≡ length self.old.nodes + 1) }
        ensures exact { IfOk result (PutsNode self.old self.new (Some node) (name ∷ []) child) }
        ensures trie { IsSound self.old }
    {
        let id = self.push(child)?;
        let children = self.child_maps.set(node.children, name, id)?;
        Ok(Node {
            children,
            may_give_mergeinfo_below: node.may_give_mergeinfo_below || child.may_give_mergeinfo(),
            ..node
        })
    }

    /// The position one component further down, where the path goes on.
    fn step(&self, position: Position, name: NameId, depth: usize) -> Position
        requires node { IfSome position.node (IsNodeOf self.now) }
        ensures node { IfSome result.node (IsNodeOf self.now) }
        ensures base { (path : _) → length path ≡ depth → IsPathBaseOf self.now path position.base
            → IsPathBaseOf self.now (path ++ name ∷ []) result.base }
        ensures is { (path : _) → length path ≡ depth → IsPathBaseOf self.now path position.base
            → position_view self.now (path ++ name ∷ []) result
            ≡ child_at self.now (position_view self.now path position) name }
    {
        let Some(node) = position.node else {
            return position;
        };
        Position {
            node: self.child(node, name),
            base: base_of_path(node.base, position.base, depth),
        }
    }

    /// The position of a path below a root.
    pub(crate) fn find(&self, root: Node, path: &[NameId]) -> Position
        requires { IsNodeOf self.now root }
        ensures { IsPositionOf self.now root path.now result }
    {
        let mut position = Position {
            node: Some(root),
            base: PathBase::Nothing,
        };
        for (depth, name) in path.iter().enumerate() {
            position = self.step(position, *name, depth);
        }
        position
    }

    /// The location of a path in its base, if there is one.
    fn location(&self, base: PathBase, path: &[NameId]) -> Result<Option<Location>, AllocError>
        requires { IsPathBaseOf self.now path.now base }
        ensures location { IfOk result (IsLocationOfPath self.now path.now base) }
        ensures sound { IsSound self.now }
    {
        let locations = &self.locations;
        let PathBase::At { location, from } = base else {
            return Ok(None);
        };
        let (_, rest) = path.split_at(from);
        Ok(Some(locations.below(location, rest)?))
    }

    /// What is found at a position.
    pub(crate) fn found(&self, position: Position, path: &[NameId]) -> Result<Looked, AllocError>
        requires node { IfSome position.node (IsNodeOf self.now) }
        requires base { IsPathBaseOf self.now path.now position.base }
        ensures { IfOk result (λ looked.
            looked_view path.now looked ≡ found_at self.now (position_view self.now path.now position)) }
    {
        let Some(node) = position.node else {
            return self.found_in_base(position.base, path);
        };
        let base = base_of_path(node.base, position.base, path.len());
        self.found_with(node.own, base, path)
    }

    /// What is found at a path whose node says this over the base of the path.
    fn found_with(
        &self,
        own: OwnEntry,
        base: PathBase,
        path: &[NameId],
    ) -> Result<Looked, AllocError>
        requires { IsPathBaseOf self.now path.now base }
        ensures { IfOk result (λ looked.
            looked_view path.now looked ≡ own_found own (path_base_view self.now path.now base [])) }
    {
        let found = match own {
            OwnEntry::AsBase => return self.found_in_base(base, path),
            OwnEntry::BaseWithMergeinfo(mi) => with_mergeinfo(self.location(base, path)?, mi),
            OwnEntry::Is { kind, mi } => Found::Is { kind, mi },
            OwnEntry::Absent => Found::Absent,
        };
        Ok(Looked::Other(found))
    }

    /// What the base of a path has there. Where that is what stood at the path itself, as it is from the root on, no path
    /// is made.
    fn found_in_base(&self, base: PathBase, path: &[NameId]) -> Result<Looked, AllocError>
        requires { IsPathBaseOf self.now path.now base }
        ensures { IfOk result (λ looked. looked_view path.now looked ≡ path_base_view self.now path.now base []) }
    {
        let locations = &self.locations;
        if let PathBase::At { location, from: 0 } = base {
            if let Some(tick) = locations.tick_at_root(location) {
                return Ok(Looked::SamePath(tick));
            }
        }
        Ok(Looked::Other(found_at_location(self.location(base, path)?)))
    }

    /// A base that does not depend on the node above, for what the base of a path has. It may add a location.
    fn node_base(&mut self, base: PathBase, path: &[NameId]) -> Result<Base, AllocError>
        requires { IsPathBaseOf self.old path.now base }
        ensures grown { OnOk result (ExtendsTrie self.old self.new) }
        ensures nodes { OnOk result (self.new.nodes ≡ self.old.nodes) }
        ensures location { IfOk result (HasLocation self.new) }
        ensures exact { IfOk result (IsBaseOfPath self.old self.new path.now base) }
        ensures before { IsSound self.old }
        ensures after { IsSound self.new }
    {
        let locations = &mut self.locations;
        let PathBase::At { location, from } = base else {
            return Ok(Base::Nothing);
        };
        let (_, rest) = path.split_at(from);
        if rest.is_empty() {
            return Ok(Base::At(location));
        }
        Ok(Base::At(locations.push_below(location, rest)?))
    }

    /// A node that says what is found at a position and below it, wherever the node is put. It may add a location.
    pub(crate) fn copied(&mut self, position: Position, path: &[NameId]) -> Result<Node, AllocError>
        requires node { IfSome position.node (IsNodeOf self.old) }
        requires base { IsPathBaseOf self.old path.now position.base }
        ensures grown { OnOk result (ExtendsTrie self.old self.new) }
        ensures nodes { OnOk result (self.new.nodes ≡ self.old.nodes) }
        ensures sound { IfOk result (IsNodeOf self.new) }
        ensures exact { IfOk result (IsCopiedNode self.old self.new (position_view self.old path.now position)) }
        ensures after { OnOk result (IsSound self.new) }
    {
        let node = Node::or_untouched(position.node);
        let base = base_of_path(node.base, position.base, path.len());
        let base = self.node_base(base, path)?;
        Ok(Node { base, ..node })
    }

    /// What stands at a position, if it is known.
    pub(crate) fn entry(&self, position: Position) -> Option<Entry>
        ensures { (path : _) → option_map entry_view result
            ≡ standing_of (found_at self.now (position_view self.now path position)) }
    {
        match position.node {
            Some(
                Node {
                    own: OwnEntry::Is { kind, mi },
                    ..
                },
            ) => Some(Entry { kind, mi }),
            _ => None,
        }
    }

    /// What is known to stand at a path below a root.
    pub(crate) fn standing(&self, root: Node, path: &[NameId]) -> Option<Entry>
        requires { IsNodeOf self.now root }
        ensures { option_map entry_view result ≡ standing_below self.now root path.now }
    {
        self.entry(self.find(root, path))
    }

    /// What is known to stand at a path below a root, and at the path that goes on from it with a name.
    pub(crate) fn standing_with_child(
        &self,
        root: Node,
        path: &[NameId],
        name: NameId,
    ) -> (Option<Entry>, Option<Entry>)
        requires { IsNodeOf self.now root }
        ensures path { option_map entry_view result.0 ≡ standing_below self.now root path.now }
        ensures child { option_map entry_view result.1 ≡ standing_below self.now root (path.now ++ name ∷ []) }
    {
        let position = self.find(root, path);
        let child = self.step(position, name, path.len());
        (self.entry(position), self.entry(child))
    }

    /// What is known to stand at a path below a root, and the mergeinfo of the path, or of the nearest path above it that
    /// is known to have some.
    pub(crate) fn entry_and_nearest(
        &self,
        root: Node,
        path: &[NameId],
    ) -> (Option<Entry>, Option<Nearest>)
        requires { IsNodeOf self.now root }
        ensures { AreEntryAndNearest (standing_below self.now root) path.now result }
    {
        let mut position = Position {
            node: Some(root),
            base: PathBase::Nothing,
        };
        let mut nearest = self.mergeinfo(position, 0);
        for (depth, name) in path.iter().enumerate() {
            position = self.step(position, *name, depth);
            nearest = self.mergeinfo(position, depth + 1).or(nearest);
        }
        (self.entry(position), nearest)
    }

    /// Appends the numbers of the names that a node of a path below a root has children of. What is found directly below
    /// the path at any other name is what its base has there: what stood below a location, if there is one.
    pub(crate) fn push_names(
        &self,
        root: Node,
        path: &[NameId],
        names: &mut Vec<u32>,
    ) -> Result<Option<Location>, AllocError>
        requires { IsNodeOf self.now root }
        ensures kept { OnOk result (AreKept names.old.items names.new.items) }
        ensures others { IfOk result (AreOthersAt
            (λ name found. found_below self.now (at_root root) (path.now ++ name ∷ []) ≡ found) names.new.items) }
    {
        let position = self.find(root, path);
        let Some(node) = position.node else {
            return self.location(position.base, path);
        };
        self.child_maps.push_names(node.children, names)?;
        let base = base_of_path(node.base, position.base, path.len());
        self.location(base, path)
    }

    /// What is known of the mergeinfo below a path below a root.
    pub(crate) fn mergeinfo_below(
        &self,
        root: Node,
        path: &[NameId],
    ) -> Result<MergeinfoBelow, AllocError>
        requires { IsNodeOf self.now root }
        ensures { IfOk result (IsMergeinfoBelow (λ rest. found_below self.now (at_root root) (path.now ++ rest))) }
    {
        let position = self.find(root, path);
        let node = Node::or_untouched(position.node);
        if node.may_give_mergeinfo_below {
            return Ok(MergeinfoBelow::Maybe);
        }
        let base = base_of_path(node.base, position.base, path.len());
        Ok(MergeinfoBelow::AsAt(self.location(base, path)?))
    }

    /// What is known to stand at these names directly below a path below a root.
    pub(crate) fn children_of(
        &self,
        root: Node,
        path: &[NameId],
        names: &[u32],
    ) -> Result<Vec<Child>, AllocError>
        requires sound { IsNodeOf self.now root }
        requires once { IsStrictlyIncreasing names.now }
        requires all { HaveAllNames (standing_below self.now root) path.now names.now }
        ensures { IfOk result (λ children. AreChildren (standing_below self.now root) path.now children.items) }
    {
        let position = self.find(root, path);
        let mut children = Vec::new(self.nodes.allocator());
        for name in names {
            let name = NameId(*name);
            let child = self.step(position, name, path.len());
            push_child(name, self.entry(child), &mut children)?;
        }
        Ok(children)
    }

    /// The mergeinfo at a position of so many components, if it is known that there is some.
    fn mergeinfo(&self, position: Position, depth: usize) -> Option<Nearest>
        ensures { (path : _) → length path ≡ depth → option_map nearest_view result
            ≡ option_map (λ mi. (mi, depth)) (mergeinfo_of (found_at self.now (position_view self.now path position))) }
    {
        match self.entry(position) {
            Some(Entry { mi: Some(mi), .. }) => Some(Nearest { mi, depth }),
            _ => None,
        }
    }
}

/// What is found at a location.
fn found_at_location(location: Option<Location>) -> Found
    ensures { found_view result ≡ as_at location [] }
{
    match location {
        None => Found::Absent,
        Some(Location { path, tick }) => Found::At { path, tick },
    }
}

/// What is found at a location, with other mergeinfo.
fn with_mergeinfo(location: Option<Location>, mi: Option<ValueId>) -> Found
    ensures { found_view result ≡ changed mi (as_at location []) }
{
    match location {
        None => Found::Absent,
        Some(Location { path, tick }) => Found::AtWith { path, tick, mi },
    }
}
