//! The records of an index by their paths.
ghost use Rattle.std.specs.Prelude.{◌≡◌, ◌+◌, ◌^◌, ◌<◌, ◌++◌, [], List, Some, length, slice_get, IfOk, OnOk};
ghost use Rattle.svn_dump.specs.declared.record.NodeRecord.{NodeRecord as Record};
ghost use Rattle.path_index.specs.NamedRevisions.{AddsNamed};
ghost use Rattle.path_index.specs.Nodes.{node_of, ExtendsNodes};
ghost use Rattle.path_index.specs.Numbers.{IsNewestBelow};
ghost use Rattle.path_index.specs.RecordsByPath.{AddsEntries, AreByPath, AreListed, AreNeighbours, IsFrontAt};
ghost use Rattle.path_index.specs.RecordsByPath.{IsOfBoth, IsOfSameRecords, SetsAt};

use crate::nodes::Nodes;
use crate::numbers::{Numbers, newer};
use crate::segment::Hit;
use crate::sparse_numbers::SparseNumbers;
use std::alloc::{AllocError, Global};
use svn_dump::{Act, NodeRecord};
use svn_path::Path;
use svn_text::Seed;

/// The records of a history by the paths that they name.
#[derive(Drop)]
pub(crate) struct RecordsByPath {
    /// The paths that records name, and all paths above them.
    nodes: Nodes,
    /// For each path the indices of the records that add it without a copy.
    added: SparseNumbers,
    /// For each path the indices of the records that copy to it.
    copied: SparseNumbers,
    /// For each path the revisions that name it or a path below it.
    named: Numbers,
}

impl RecordsByPath {
    /// The records of a list by the paths that they name. Paths are found by the hashes of a seed.
    pub(crate) fn of(alloc: Global, seed: Seed, records: &[NodeRecord]) -> Result<Self, AllocError>
        requires { length records.now < 2 ^ 32 }
        ensures { IfOk result (AreByPath records.now) }
    {
        let mut by_path = RecordsByPath::new(alloc, seed);
        by_path.add_all(records, 0)?;
        by_path.shrink_to_fit();
        Ok(by_path)
    }

    /// No records. It takes no memory.
    fn new(alloc: Global, seed: Seed) -> Self
        ensures { AreByPath [] result }
    {
        RecordsByPath {
            nodes: Nodes::new(alloc, seed),
            added: SparseNumbers::new(alloc),
            copied: SparseNumbers::new(alloc),
            named: Numbers::new(alloc),
        }
    }

    /// Adds records, before which `count` others stand.
    pub(crate) fn add_all(&mut self, records: &[NodeRecord], count: u32) -> Result<(), AllocError>
        requires { count + length records.now < 2 ^ 32 }
        ensures { OnOk result ((before : List Record) → length before ≡ count → AreByPath before self.old
            → AreByPath (before ++ records.now) self.new) }
    {
        let mut last = Vec::new(self.nodes.allocator());
        for (index, each) in records.iter().enumerate() {
            self.add(count + index as u32, each, &mut last)?;
        }
        Ok(())
    }

    /// Gives back the memory that is kept for more records.
    fn shrink_to_fit(&mut self)
        ensures { IsOfSameRecords self.old self.new }
    {
        self.nodes.shrink_to_fit();
        self.added.shrink_to_fit();
        self.copied.shrink_to_fit();
        self.named.shrink_to_fit();
    }

    /// The seed by which paths are found.
    pub(crate) fn seed(&self) -> Seed {
        self.nodes.seed()
    }

    /// Adds the record of this index. `last` has the nodes of the record before it.
    fn add(&mut self, index: u32, each: &NodeRecord, last: &mut Vec<u32>) -> Result<(), AllocError>
        ensures { OnOk result ((records : List Record) → slice_get records index ≡ Some each.now
            → AreListed records index self.old.nodes self.old.added self.old.copied self.old.named
            → AreListed records (index + 1) self.new.nodes self.new.added self.new.copied self.new.named) }
    {
        let node = self.name(&each.path, each.rev, last)?;
        match &each.act {
            Act::Add { .. } => self.added.insert(node, index)?,
            Act::Copy { .. } => self.copied.insert(node, index)?,
            _ => {}
        }
        Ok(())
    }

    /// Adds the path and all paths above it, with the revision. Returns the path's node.
    ///
    /// Most paths begin as the one before them did. So `last`, which has the nodes of that path without the root's, and
    /// then those of this one, is asked first. Only time depends on it.
    fn name(&mut self, path: &Path, rev: u32, last: &mut Vec<u32>) -> Result<u32, AllocError>
        ensures node { IfOk result (λ node. node_of self.new.nodes path.now ≡ Some node) }
        ensures grown { OnOk result (ExtendsNodes self.old.nodes self.new.nodes) }
        ensures named { OnOk result (AddsEntries self.new.nodes (IsFrontAt path.now (length path.now) rev)
            self.old.named self.new.named) }
        ensures added { self.new.added ≡ self.old.added }
        ensures copied { self.new.copied ≡ self.old.copied }
    {
        let mut node = 0;
        let mut depth: usize = 0;
        self.named.insert(0, rev)?;
        for name in path.parts() {
            node = self
                .nodes
                .add_likely(node, *name, last.get(depth).copied())?;
            replace_from(last, depth, node)?;
            depth = depth.saturating_add(1);
            self.named.insert(node, rev)?;
        }
        Ok(node)
    }

    /// A copy that has the same records.
    pub(crate) fn dup(&self) -> Result<Self, AllocError>
        ensures { IfOk result (IsOfSameRecords self.now) }
    {
        Ok(RecordsByPath {
            nodes: self.nodes.dup()?,
            added: self.added.dup()?,
            copied: self.copied.dup()?,
            named: self.named.dup()?,
        })
    }

    /// The records of both, where `count` records are before those of `later`. Those of `self` stay where they are.
    pub(crate) fn append(mut self, later: RecordsByPath, count: u32) -> Result<Self, AllocError>
        requires { AreNeighbours self later count }
        ensures { IfOk result (IsOfBoth self later count) }
    {
        let nodes = self.nodes.add_all(later.nodes)?;
        self.added.insert_all(later.added, nodes.as_slice(), count)?;
        self.copied
            .insert_all(later.copied, nodes.as_slice(), count)?;
        self.named.insert_all(later.named, nodes.as_slice(), 0)?;
        Ok(self)
    }

    /// The index of the newest of the first `count` records that add the path without a copy, or copy to it or to a
    /// path above it.
    pub(crate) fn newest(&self, path: &Path, count: u32) -> Option<u32>
        ensures { IsNewestBelow count (SetsAt self.now path.now) result }
    {
        let mut node = 0;
        let mut newest = self.copied.newest_below(node, count);
        for name in path.parts() {
            node = match self.nodes.child(node, *name) {
                Some(child) => child,
                None => return newest,
            };
            newest = newer(newest, self.copied.newest_below(node, count));
        }
        newer(newest, self.added.newest_below(node, count))
    }

    /// Appends the revisions after `lo` and up to `hi` whose records name the path or a path below it as hits of a
    /// segment, the newest first.
    pub(crate) fn push_named(
        &self,
        hits: &mut Vec<Hit>,
        segment: usize,
        path: &Path,
        lo: u32,
        hi: u32,
    ) -> Result<(), AllocError>
        ensures { OnOk result ((records : List Record) → AreByPath records self.now
            → AddsNamed hits.old.items hits.new.items segment path.now lo hi records) }
    {
        match self.nodes.find(path) {
            Some(node) => self.named.push_hits(hits, segment, node, lo, hi),
            None => Ok(()),
        }
    }
}

/// Puts a node at a place, without what is at this place and after it, unless it is there already.
fn replace_from(nodes: &mut Vec<u32>, place: usize, node: u32) -> Result<(), AllocError> {
    if nodes.get(place) != Some(&node) {
        nodes.truncate(place);
        nodes.push(node)?;
    }
    Ok(())
}
