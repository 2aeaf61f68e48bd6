//! The trees of a block, one after each of its records.
ghost use Rattle.std.specs.Prelude.{◌≡◌, ◌+◌, ◌^◌, ◌<◌, ◌≤◌, ◌++◌, ◌∷◌, [], length, option_map, IfOk, OnOk};
ghost use Rattle.std.specs.Prelude.{None, Some, IfSome};
ghost use Rattle.std.specs.List.Sorted.{IsStrictlyIncreasing};
ghost use Rattle.block_map.specs.Children.{AreChildren, AreKept, AreOthersAt, HaveAllNames};
ghost use Rattle.svn_dump.specs.Dump.{record_view, setting_view};
ghost use Rattle.svn_dump.specs.Tree.{mergeinfo_after};
ghost use Rattle.block_map.specs.Trees.{AreMapTrees, AreTrees, IsNodeAfter, IsRootAfter, IsRootAt, SameTrees, ShowsPath, ShowsTick, action_in, end_of_trees, look_in_trees, look_through_trees};
ghost use Rattle.block_map.specs.Look.{resolved};
ghost use Rattle.block_map.specs.LookThrough.{IsFoundUpTo};
ghost use Rattle.block_map.specs.Ends.{HasSourceBefore, record_at_tick};
ghost use Rattle.block_map.specs.Looked.{looked_view};
ghost use Rattle.block_map.specs.Map.{AreEntryAndNearest, found_view};
ghost use Rattle.block_map.specs.MergeinfoBelow.{IsBelowUpTo, IsMergeinfoBelow};
ghost use Rattle.block_map.specs.Standing.{entry_view, standing_of};
ghost use Rattle.block_map.specs.Trie.{IsNodeOf, IsSound, as_at};

use crate::ends::Ends;
use crate::entry::{Child, Entry, Nearest};
use crate::found::Found;
use crate::ghost_record::GhostRecord;
use crate::looked::Looked;
use crate::mergeinfo_below::MergeinfoBelow;
use crate::trie::{Location, Node, NodeId, Trie};
use par_scan::GhostList;
use std::alloc::{AllocError, Global};
use svn_dump::{Act, Kind, Mi, NodeRecord, ValueId};
use svn_path::{NameId, Path};

/// The roots of the trees after each of some records, which follow the first `start` of their history.
#[derive(Drop)]
pub(crate) struct Trees {
    pub(crate) start: u32,
    pub(crate) roots: Vec<NodeId>,
    pub(crate) trie: Trie,
    pub(crate) records: GhostList<GhostRecord>,
}

impl Trees {
    /// The trees of no records, which take no memory.
    pub(crate) fn new(alloc: Global, start: u32) -> Self
        ensures trees { AreMapTrees result }
        ensures start { result.start ≡ start }
        ensures records { result.records.items ≡ [] }
        ensures nodes { result.trie.nodes ≡ [] }
    {
        Trees {
            start,
            roots: Vec::new(alloc),
            trie: Trie::new(alloc),
            records: GhostList::new(),
        }
    }

    /// Adds a record.
    pub(crate) fn add(&mut self, each: &NodeRecord, ends: &Ends) -> Result<(), AllocError>
        requires trees { AreTrees self.old }
        requires few { end_of_trees self.old + 1 < 2 ^ 32 }
        requires source { HasSourceBefore ends.now (end_of_trees self.old + 1) each.now.act }
        ensures trees { OnOk result (AreTrees self.new) }
        ensures start { OnOk result (self.new.start ≡ self.old.start) }
        ensures records { OnOk result (self.new.records.items
            ≡ self.old.records.items ++ record_at_tick ends.now (record_view each.now) ∷ []) }
        ensures nodes { OnOk result
            (length self.new.trie.nodes ≤ length self.old.trie.nodes + length each.now.path + 1) }
    {
        let id = self.next_root(each, ends)?;
        self.roots.push(id)?;
        self.records.push(&GhostRecord::of(each, ends));
        Ok(())
    }

    /// The root of the tree after a record.
    fn next_root(&mut self, each: &NodeRecord, ends: &Ends) -> Result<NodeId, AllocError>
        requires trees { AreTrees self.old }
        requires source { HasSourceBefore ends.now (end_of_trees self.old + 1) each.now.act }
        ensures same { OnOk result (SameTrees self.old self.new) }
        ensures shows { IfOk result (IsRootAfter self.new (record_at_tick ends.now (record_view each.now))) }
        ensures nodes { OnOk result
            (length self.new.trie.nodes ≤ length self.old.trie.nodes + length each.now.path + 1) }
        ensures sound { OnOk result (IsSound self.new.trie) }
    {
        let root = self.newest()?;
        match self.node_after(root, each, ends)? {
            Some(node) => {
                let node = self.trie.put(Some(root), each.path.parts(), node)?;
                self.trie.push(node)
            }
            None => self.same_root(root),
        }
    }

    /// The root of the newest tree again.
    fn same_root(&mut self, root: Node) -> Result<NodeId, AllocError>
        requires trees { AreTrees self.old }
        requires sound { IsNodeOf self.old.trie root }
        requires shows { ShowsTick self.old (end_of_trees self.old) root }
        ensures same { OnOk result (SameTrees self.old self.new) }
        ensures shows { IfOk result (IsRootAt self.new (end_of_trees self.new)) }
        ensures nodes { OnOk result (length self.new.trie.nodes ≤ length self.old.trie.nodes + 1) }
        ensures sound { OnOk result (IsSound self.new.trie) }
    {
        match self.roots.last() {
            Some(id) => Ok(*id),
            None => self.trie.push(root),
        }
    }

    /// The root of the newest tree.
    fn newest(&mut self) -> Result<Node, AllocError>
        requires { AreTrees self.old }
        ensures same { OnOk result (SameTrees self.old self.new) }
        ensures nodes { OnOk result (self.new.trie.nodes ≡ self.old.trie.nodes) }
        ensures sound { IfOk result (IsNodeOf self.new.trie) }
        ensures shows { IfOk result (ShowsTick self.new (end_of_trees self.new)) }
    {
        if self.roots.is_empty() {
            return self.node_before(&[], self.start);
        }
        Ok(self.root(self.start + self.roots.len() as u32))
    }

    /// The node of what stood at a path before the records, at a tick that is not after `start`.
    fn node_before(&mut self, path: &[NameId], tick: u32) -> Result<Node, AllocError>
        requires trees { AreTrees self.old }
        requires before { tick ≤ self.old.start }
        ensures same { OnOk result (SameTrees self.old self.new) }
        ensures nodes { OnOk result (self.new.trie.nodes ≡ self.old.trie.nodes) }
        ensures sound { IfOk result (IsNodeOf self.new.trie) }
        ensures shows { IfOk result (ShowsPath self.new tick path.now) }
    {
        if self.start == 0 {
            return Ok(if path.is_empty() {
                Node::is(Kind::Dir, None)
            } else {
                Node::absent()
            });
        }
        let path = Path::of(*self.roots.allocator(), path)?;
        let location = self.trie.push_location(path, tick)?;
        Ok(Node::at(location))
    }

    /// The node of what stood at a path at a tick.
    fn node_at(&mut self, tick: u32, path: &[NameId]) -> Result<Node, AllocError>
        requires trees { AreTrees self.old }
        requires within { tick ≤ end_of_trees self.old }
        ensures same { OnOk result (SameTrees self.old self.new) }
        ensures nodes { OnOk result (self.new.trie.nodes ≡ self.old.trie.nodes) }
        ensures sound { IfOk result (IsNodeOf self.new.trie) }
        ensures shows { IfOk result (ShowsPath self.new tick path.now) }
    {
        if tick <= self.start {
            return self.node_before(path, tick);
        }
        let root = self.root(tick);
        let position = self.trie.find(root, path);
        self.trie.copied(position, path)
    }

    /// The root of the tree at a tick after `start`.
    pub(crate) fn root(&self, tick: u32) -> Node
        requires trees { AreTrees self.now }
        requires after { self.now.start < tick }
        requires within { tick ≤ end_of_trees self.now }
        ensures sound { IsNodeOf self.now.trie result }
        ensures shows { ShowsTick self.now tick result }
    {
        self.trie.node(self.roots[(tick - self.start) as usize - 1])
    }

    /// The node that a record puts at its path, unless it leaves what is there.
    fn node_after(
        &mut self,
        root: Node,
        each: &NodeRecord,
        ends: &Ends,
    ) -> Result<Option<Node>, AllocError>
        requires trees { AreTrees self.old }
        requires sound { IsNodeOf self.old.trie root }
        requires shows { ShowsTick self.old (end_of_trees self.old) root }
        requires source { HasSourceBefore ends.now (end_of_trees self.old + 1) each.now.act }
        ensures same { OnOk result (SameTrees self.old self.new) }
        ensures nodes { OnOk result (self.new.trie.nodes ≡ self.old.trie.nodes) }
        ensures after { IfOk result (IsNodeAfter self.new root each.now.path (action_in ends.now each.now)) }
    {
        match &each.act {
            Act::Delete => Ok(Some(Node::absent())),
            Act::Add { kind, mi, .. } => Ok(Some(Node::is(*kind, mergeinfo_of_addition(*mi)))),
            Act::Change { mi } => match mi {
                Mi::Keep => Ok(None),
                Mi::Put(mi) => {
                    let position = self.trie.find(root, each.path.parts());
                    Ok(Some(Node::or_untouched(position.node).with_mergeinfo(*mi)))
                }
            },
            Act::Copy {
                from,
                from_rev,
                mi,
                ..
            } => {
                let node = self.node_at(ends.at(*from_rev), from.parts())?;
                Ok(Some(node.with_setting(*mi)))
            }
        }
    }

    /// The tick after the last record.
    pub(crate) fn end(&self) -> u32
        requires { AreTrees self.now }
        ensures { result ≡ end_of_trees self.now }
    {
        self.start + self.roots.len() as u32
    }

    /// What the records say of a path of these components at a tick. At one that is not after `start` they leave it as
    /// it was.
    pub(crate) fn look(&self, tick: u32, path: &[NameId]) -> Result<Looked, AllocError>
        requires trees { AreTrees self.now }
        requires within { tick ≤ end_of_trees self.now }
        ensures exact { IfOk result (λ looked.
            resolved self.now.start (looked_view path.now looked) ≡ look_in_trees self.now tick path.now) }
        ensures earlier { IfOk result (λ looked. IsFoundUpTo self.now.start (looked_view path.now looked)) }
    {
        if tick <= self.start {
            return Ok(Looked::SamePath(tick));
        }
        let root = self.root(tick);
        let position = self.trie.find(root, path);
        self.trie.found(position, path)
    }

    /// What the records say of what later records said of a path.
    pub(crate) fn look_through(&self, looked: Looked, path: &[NameId]) -> Result<Looked, AllocError>
        requires trees { AreTrees self.now }
        requires within { IsFoundUpTo (end_of_trees self.now) (looked_view path.now looked) }
        ensures exact { IfOk result (λ after. resolved self.now.start (looked_view path.now after)
            ≡ resolved self.now.start (look_through_trees self.now (looked_view path.now looked))) }
        ensures earlier { IfOk result (λ after. IsFoundUpTo self.now.start (looked_view path.now after)) }
    {
        match looked {
            Looked::SamePath(tick) => self.look(tick, path),
            Looked::Other(found) => Ok(Looked::Other(self.look_through_found(found)?)),
        }
    }

    /// What the records say of what later records found.
    fn look_through_found(&self, found: Found) -> Result<Found, AllocError>
        requires trees { AreTrees self.now }
        requires within { IsFoundUpTo (end_of_trees self.now) (found_view found) }
        ensures exact { IfOk result (λ after. resolved self.now.start (found_view after)
            ≡ resolved self.now.start (look_through_trees self.now (found_view found))) }
        ensures earlier { IfOk result (λ after. IsFoundUpTo self.now.start (found_view after)) }
    {
        match found {
            Found::At { path, tick } => Ok(self.look(tick, path.parts())?.into_found(path)),
            Found::AtWith { path, tick, mi } => {
                let looked = self.look(tick, path.parts())?;
                Ok(looked.into_found(path).with_mergeinfo(mi))
            }
            known => Ok(known),
        }
    }

    /// Appends the numbers of the names directly below what later records found that these records say something of.
    /// Directly below it at any other name is what was there at a location before the records, if there is one.
    pub(crate) fn push_names(
        &self,
        found: Option<Location>,
        names: &mut Vec<u32>,
    ) -> Result<Option<Location>, AllocError>
        requires trees { AreTrees self.now }
        requires within { IfSome found (λ at. at.tick ≤ end_of_trees self.now) }
        ensures kept { OnOk result (AreKept names.old.items names.new.items) }
        ensures earlier { IfOk result (λ base. IfSome base (λ at. at.tick ≤ self.now.start)) }
        ensures others { IfOk result (AreOthersAt (λ name says. resolved self.now.start says
            ≡ resolved self.now.start (look_through_trees self.now (as_at found (name ∷ [])))) names.new.items) }
    {
        match found {
            None => Ok(None),
            Some(location) => self.push_names_below(location, names),
        }
    }

    /// Appends the numbers of the names directly below a location that these records say something of.
    fn push_names_below(
        &self,
        location: Location,
        names: &mut Vec<u32>,
    ) -> Result<Option<Location>, AllocError>
        requires trees { AreTrees self.now }
        requires within { location.tick ≤ end_of_trees self.now }
        ensures kept { OnOk result (AreKept names.old.items names.new.items) }
        ensures earlier { IfOk result (λ base. IfSome base (λ at. at.tick ≤ self.now.start)) }
        ensures others { IfOk result (AreOthersAt (λ name says. resolved self.now.start says
            ≡ resolved self.now.start (look_through_trees self.now (as_at (Some location) (name ∷ [])))) names.new.items) }
    {
        if location.tick <= self.start {
            return Ok(Some(location));
        }
        let root = self.root(location.tick);
        let base = self.trie.push_names(root, location.path.parts(), names)?;
        Ok(up_to(base, self.start))
    }

    /// What these records say of the mergeinfo below a location that later records found.
    pub(crate) fn mergeinfo_below(&self, found: Location) -> Result<MergeinfoBelow, AllocError>
        requires trees { AreTrees self.now }
        requires within { found.tick ≤ end_of_trees self.now }
        ensures earlier { IfOk result (IsBelowUpTo self.now.start) }
        ensures says { IfOk result (IsMergeinfoBelow (λ rest.
            resolved self.now.start (look_through_trees self.now (as_at (Some found) rest)))) }
    {
        if found.tick <= self.start {
            return Ok(MergeinfoBelow::AsAt(Some(found)));
        }
        let root = self.root(found.tick);
        match self.trie.mergeinfo_below(root, found.path.parts())? {
            MergeinfoBelow::Maybe => Ok(MergeinfoBelow::Maybe),
            MergeinfoBelow::AsAt(base) => Ok(MergeinfoBelow::AsAt(up_to(base, self.start))),
        }
    }

    /// What stands at these names directly below a path at a tick after `start`, as far as these records say it.
    pub(crate) fn children_of(
        &self,
        tick: u32,
        path: &[NameId],
        names: &[u32],
    ) -> Result<Vec<Child>, AllocError>
        requires trees { AreTrees self.now }
        requires after { self.now.start < tick }
        requires within { tick ≤ end_of_trees self.now }
        requires once { IsStrictlyIncreasing names.now }
        requires all { HaveAllNames (λ below. standing_of (look_in_trees self.now tick below)) path.now names.now }
        ensures { IfOk result (λ children.
            AreChildren (λ below. standing_of (look_in_trees self.now tick below)) path.now children.items) }
    {
        self.trie.children_of(self.root(tick), path, names)
    }

    /// What stands at a path at a tick after `start`, as far as these records say it.
    pub(crate) fn standing(&self, tick: u32, path: &[NameId]) -> Option<Entry>
        requires trees { AreTrees self.now }
        requires after { self.now.start < tick }
        requires within { tick ≤ end_of_trees self.now }
        ensures { option_map entry_view result ≡ standing_of (look_in_trees self.now tick path.now) }
    {
        self.trie.standing(self.root(tick), path)
    }

    /// What stands at a path at a tick after `start`, and at the path that goes on from it with a name, as far as these
    /// records say it.
    pub(crate) fn standing_with_child(
        &self,
        tick: u32,
        path: &[NameId],
        name: NameId,
    ) -> (Option<Entry>, Option<Entry>)
        requires trees { AreTrees self.now }
        requires after { self.now.start < tick }
        requires within { tick ≤ end_of_trees self.now }
        ensures path { option_map entry_view result.0 ≡ standing_of (look_in_trees self.now tick path.now) }
        ensures child { option_map entry_view result.1
            ≡ standing_of (look_in_trees self.now tick (path.now ++ name ∷ [])) }
    {
        self.trie.standing_with_child(self.root(tick), path, name)
    }

    /// What stands at a path at a tick after `start`, and its nearest mergeinfo, as far as these records say it.
    pub(crate) fn entry_and_nearest(
        &self,
        tick: u32,
        path: &[NameId],
    ) -> (Option<Entry>, Option<Nearest>)
        requires trees { AreTrees self.now }
        requires after { self.now.start < tick }
        requires within { tick ≤ end_of_trees self.now }
        ensures { AreEntryAndNearest (λ above. standing_of (look_in_trees self.now tick above)) path.now result }
    {
        self.trie.entry_and_nearest(self.root(tick), path)
    }
}

/// The mergeinfo that an addition leaves.
fn mergeinfo_of_addition(mi: Mi) -> Option<ValueId>
    ensures { result ≡ mergeinfo_after (setting_view mi) None }
{
    match mi {
        Mi::Keep => None,
        Mi::Put(mi) => mi,
    }
}

/// A location, if it is not past a tick.
fn up_to(location: Option<Location>, tick: u32) -> Option<Location>
    ensures up_to { IfSome result (λ at. at.tick ≤ tick) }
    ensures same { (rest : _) → IsFoundUpTo tick (as_at location rest) → as_at result rest ≡ as_at location rest }
{
    match location {
        Some(location) if location.tick <= tick => Some(location),
        _ => None,
    }
}
