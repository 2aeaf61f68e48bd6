//! What runs of records do to trees.
ghost use Rattle.std.specs.Prelude.{◌≡◌, ℕ, ◌+◌, ◌^◌, ◌<◌, ◌≤◌, ◌++◌, ◌∷◌, [], All, List, length, option_and_then, option_map, IfOk, IfSome};
ghost use Rattle.svn_dump.specs.Dump.{DumpValue, IsDump};
ghost use Rattle.svn_dump.specs.Record.{most_components};
ghost use Rattle.svn_dump.specs.declared.record.NodeRecord.{NodeRecord};
ghost use Rattle.svn_path.specs.Path.{same_name};
ghost use Rattle.block_map.specs.Blocks.{AreBlocksBefore, AreBlocksFrom, block_nodes, block_records, block_trees};
ghost use Rattle.block_map.specs.Children.{AreChildren};
ghost use Rattle.block_map.specs.Ends.{HaveSources, ends_of};
ghost use Rattle.block_map.specs.Look.{IsFoundAtOrBefore, at, from_beginning, look, resolved};
ghost use Rattle.block_map.specs.LookThrough.{IsFoundUpTo, look_through as looked_through};
ghost use Rattle.block_map.specs.Looked.{looked_view};
ghost use Rattle.block_map.specs.Map.{AreEntryAndNearest, IsEndIn, IsMapOfFirstRecords, IsNearestOrNone, found_view, hi_of, look_in, most_nodes, nodes_for, records_at_ticks, revision_in, state_in};
ghost use Rattle.block_map.specs.Standing.{entry_view, mergeinfo_of, own_mergeinfo_at, standing_at, standing_of};
ghost use Rattle.block_map.specs.Trees.{AreMapTrees, AreTrees, end_of_trees, look_in_trees};
ghost use Rattle.svn_path.specs.declared.names.NameId.{NameId};

use crate::ends::Ends;
use crate::entry::{Child, Entry, Nearest};
use crate::found::Found;
use crate::looked::Looked;
use crate::trees::Trees;
use std::alloc::{AllocError, Global};
use std::marker::Model;
use std::sync::Arc;
use svn_dump::{Kind, NodeRecord, ValueId};
use svn_path::{NameId, Path};

/// What stands at each path after each of some records. The records are in blocks, which maps share.
#[derive(Drop)]
pub struct Map {
    pub(crate) lo: u32,
    pub(crate) blocks: Vec<Arc<Trees>>,
}

impl Model for Map {
    ghost use Rattle.block_map.specs.Blocks.{AreBlocksFrom, block_nodes, block_records, block_trees};
    ghost use Rattle.block_map.specs.Map.{MapValue};

    ghost Value = { MapValue };

    ghost view = { λ m. record {
      lo = m.lo;
      records = block_records (block_trees m.blocks.items);
      nodes = block_nodes (block_trees m.blocks.items);
    } };

    ghost invariant = { λ m. AreBlocksFrom m.lo (block_trees m.blocks.items) };
}

impl Map {
    /// The map of these records, which follow the first `start` of their history.
    pub fn build(
        alloc: Global,
        records: &[NodeRecord],
        start: u32,
        ends: &Ends,
    ) -> Result<Self, AllocError>
        requires few { start + length records.now < 2 ^ 32 }
        requires short { All (λ each. length each.path ≤ most_components) records.now }
        requires sources { HaveSources start ends.now records.now }
        ensures lo { IfOk result (λ map. map.lo ≡ start) }
        ensures records { IfOk result (λ map. map.records ≡ records_at_ticks ends.now records.now) }
        ensures few_nodes { IfOk result (λ map. map.nodes ≤ most_nodes (length records.now)) }
        ensures nodes { IfOk result (λ map. map.nodes ≤ nodes_for map.records) }

        // Of the first records of a dump it is a map that shows what the records of the dump say.
        ensures of_first { (dump : DumpValue) (more : List NodeRecord) → start ≡ 0
            → ends.now ≡ ends_of dump.counts → dump.records ≡ records.now ++ more → IfOk result (IsMapOfFirstRecords dump) }
    {
        let trees = extended(Trees::new(alloc, start), records, ends)?;
        let blocks = Vec::new(alloc);
        Map { lo: start, blocks }.with_block(trees)
    }

    /// This map with further records of its history. Its last block takes them; where another map shares that block, or
    /// there is none, they make a block of their own.
    pub fn grow(self, records: &[NodeRecord], ends: &Ends) -> Result<Self, AllocError>
        requires few { hi_of self + length records.now < 2 ^ 32 }
        requires short { All (λ each. length each.path ≤ most_components) records.now }
        requires sources { HaveSources (hi_of self) ends.now records.now }
        ensures lo { IfOk result (λ map. map.lo ≡ self.lo) }
        ensures records { IfOk result (λ map. map.records ≡ self.records ++ records_at_ticks ends.now records.now) }

        // Of the first records of a dump it stays a map that shows what the records of the dump say.
        ensures of_first { (dump : DumpValue) (before more : List NodeRecord) → ends.now ≡ ends_of dump.counts
            → dump.records ≡ before ++ (records.now ++ more) → length before ≡ hi_of self
            → IsMapOfFirstRecords dump self → IfOk result (IsMapOfFirstRecords dump) }
    {
        let (front, last) = self.split_off_last()?;
        let trees = extended(last, records, ends)?;
        front.with_block(trees)
    }

    /// The map of the other blocks, and the trees of the last one. Where another map shares that block, or there is
    /// none, it is the whole map, and trees of no records after it.
    fn split_off_last(self) -> Result<(Self, Trees), AllocError>
        ensures lo { IfOk result (λ both. both.0.lo ≡ self.lo) }
        ensures start { IfOk result (λ both. both.1.start ≡ hi_of both.0) }
        ensures trees { IfOk result (λ both. AreMapTrees both.1) }
        ensures records { IfOk result (λ both. both.0.records ++ both.1.records.items ≡ self.records) }
    {
        let hi = self.hi();
        let Map { lo, mut blocks } = self;
        let alloc = *blocks.allocator();
        let Some(last) = blocks.pop() else {
            return Ok((Map { lo, blocks }, Trees::new(alloc, hi)));
        };
        match Arc::try_unwrap(last) {
            Ok(trees) => Ok((Map { lo, blocks }, trees)),
            Err(shared) => {
                blocks.push(shared)?;
                Ok((Map { lo, blocks }, Trees::new(alloc, hi)))
            }
        }
    }

    /// This map with these trees as one more block, unless they have no records.
    fn with_block(self, trees: Trees) -> Result<Self, AllocError>
        requires trees { AreMapTrees trees }
        requires start { trees.start ≡ hi_of self }
        ensures lo { IfOk result (λ map. map.lo ≡ self.lo) }
        ensures records { IfOk result (λ map. map.records ≡ self.records ++ trees.records.items) }
        ensures nodes { IfOk result (λ map. map.nodes ≤ self.nodes + length trees.trie.nodes) }
    {
        if trees.roots.is_empty() {
            return Ok(self);
        }
        let Map { lo, mut blocks } = self;
        let block = Arc::new(*blocks.allocator(), trees)?;
        blocks.push(block)?;
        Ok(Map { lo, blocks })
    }

    /// The tick before the first record.
    pub fn lo(&self) -> u32
        ensures { result ≡ self.now.lo }
    {
        self.lo
    }

    /// The tick after the last record.
    pub fn hi(&self) -> u32
        ensures { result ≡ hi_of self.now }
    {
        match self.blocks.as_slice().split_last() {
            Some((last, _)) => last.end(),
            None => self.lo,
        }
    }

    /// The allocator of its blocks.
    pub fn allocator(&self) -> Global {
        *self.blocks.allocator()
    }

    /// How many nodes the map keeps.
    pub fn nodes(&self) -> u64
        ensures exact { result ≡ self.now.nodes }
        ensures few { result ≤ most_nodes (length self.now.records) }
        ensures for_records { result ≤ nodes_for self.now.records }
    {
        count_nodes(self.blocks.as_slice())
    }

    /// What the records say of a path at a tick.
    pub fn look(&self, tick: u32, path: &Path) -> Result<Found, AllocError>
        requires after { self.now.lo ≤ tick }
        requires within { tick ≤ hi_of self.now }
        ensures exact { IfOk result (λ found. found_view found ≡ look_in self.now tick path.now) }
        ensures earlier { IfOk result (λ found. IsFoundAtOrBefore self.now.lo (found_view found)) }
    {
        self.found(tick, path.parts())
    }

    /// What the records say of a path of these components at a tick.
    fn found(&self, tick: u32, path: &[NameId]) -> Result<Found, AllocError>
        requires { tick ≤ hi_of self.now }
        ensures { IfOk result (λ found. found_view found ≡ look_in self.now tick path.now) }
    {
        let found = match look_in_blocks(self.blocks.as_slice(), self.lo, tick, path)? {
            Looked::SamePath(tick) => {
                let path = Path::of(*self.blocks.allocator(), path)?;
                Found::At { path, tick }
            }
            Looked::Other(found) => found,
        };
        Ok(resolve(found, self.lo))
    }

    /// What stands at a path at a tick, in a map from the beginning of a history.
    pub fn entry(&self, tick: u32, path: &Path) -> Result<Option<Entry>, AllocError>
        requires begins { self.now.lo ≡ 0 }
        requires within { tick ≤ hi_of self.now }
        ensures found { IfOk result (λ entry.
            option_map entry_view entry ≡ standing_of (look_in self.now tick path.now)) }

        // In a map of the first records of a dump it is what the tree has after so many records, and at the end of a
        // revision what the tree of that revision has.
        ensures of_dump { (dump : _) → IsDump dump → IsMapOfFirstRecords dump self.now
            → IfOk result (λ entry.
            option_map entry_view entry ≡ standing_at same_name (state_in dump tick) path.now) }
        ensures of_revision { (dump : _) (rev : _) → IsMapOfFirstRecords dump self.now → IsEndIn dump rev tick
            → IfOk result (λ entry.
            option_map entry_view entry ≡ standing_at same_name (revision_in dump rev) path.now) }
    {
        self.standing(tick, path.parts())
    }

    /// The mergeinfo of a path at a tick, or of the nearest path above it that has some, in a map from the beginning of
    /// a history.
    pub fn nearest(&self, tick: u32, path: &Path) -> Result<Option<Nearest>, AllocError>
        requires begins { self.now.lo ≡ 0 }
        requires within { tick ≤ hi_of self.now }
        ensures found { IfOk result (IsNearestOrNone (λ above. mergeinfo_of (look_in self.now tick above)) path.now) }

        // In a map of the first records of a dump, at the end of a revision, it is that of the tree of the revision.
        ensures of_revision { (dump : _) (rev : _) → IsMapOfFirstRecords dump self.now → IsEndIn dump rev tick
            → IfOk result (IsNearestOrNone (own_mergeinfo_at same_name (revision_in dump rev)) path.now) }
    {
        let (_, nearest) = self.standing_and_nearest(tick, path.parts())?;
        Ok(nearest)
    }

    /// What `entry` and `nearest` find, for the cost of `nearest` alone.
    pub fn entry_and_nearest(
        &self,
        tick: u32,
        path: &Path,
    ) -> Result<(Option<Entry>, Option<Nearest>), AllocError>
        requires begins { self.now.lo ≡ 0 }
        requires within { tick ≤ hi_of self.now }
        ensures found { IfOk result
            (AreEntryAndNearest (λ above. standing_of (look_in self.now tick above)) path.now) }

        // In a map of the first records of a dump, at the end of a revision, it is that of the tree of the revision.
        ensures of_revision { (dump : _) (rev : _) → IsMapOfFirstRecords dump self.now → IsEndIn dump rev tick
            → IfOk result (AreEntryAndNearest (standing_at same_name (revision_in dump rev)) path.now) }
    {
        self.standing_and_nearest(tick, path.parts())
    }

    /// What stands directly below a path at a tick, in a map from the beginning of a history: each name once, in no
    /// particular order.
    pub fn children(&self, tick: u32, path: &Path) -> Result<Vec<Child>, AllocError>
        requires begins { self.now.lo ≡ 0 }
        requires within { tick ≤ hi_of self.now }
        ensures found { IfOk result (λ children.
            AreChildren (λ below. standing_of (look_in self.now tick below)) path.now children.items) }

        // In a map of the first records of a dump, at the end of a revision, they are those of the tree of the revision.
        ensures of_revision { (dump : _) (rev : _) → IsMapOfFirstRecords dump self.now → IsEndIn dump rev tick
            → IfOk result (λ children.
            AreChildren (standing_at same_name (revision_in dump rev)) path.now children.items) }
    {
        let names = self.names_below(tick, path.parts())?;
        self.children_of(tick, path.parts(), &names)
    }

    /// What stands at a path of these components, and the nearest mergeinfo of it.
    fn standing_and_nearest(
        &self,
        tick: u32,
        path: &[NameId],
    ) -> Result<(Option<Entry>, Option<Nearest>), AllocError>
        requires begins { self.now.lo ≡ 0 }
        requires within { tick ≤ hi_of self.now }
        ensures { IfOk result (AreEntryAndNearest (λ above. standing_of (look_in self.now tick above)) path.now) }
    {
        if let Some(only) = self.only_block(tick) {
            return Ok(only.entry_and_nearest(tick, path));
        }
        let entry = self.standing(tick, path)?;
        Ok((entry, self.nearest_above(tick, path, entry)?))
    }

    /// The nearest mergeinfo of a path at which this stands. It is looked for at the path, then at the one above it, and
    /// so on up to the root.
    fn nearest_above(
        &self,
        tick: u32,
        path: &[NameId],
        entry: Option<Entry>,
    ) -> Result<Option<Nearest>, AllocError>
        requires begins { self.now.lo ≡ 0 }
        requires within { tick ≤ hi_of self.now }
        requires entry { option_map entry_view entry ≡ standing_of (look_in self.now tick path.now) }
        ensures { IfOk result (IsNearestOrNone (λ above. mergeinfo_of (look_in self.now tick above)) path.now) }
    {
        let mut above = path;
        let mut entry = entry;
        loop {
            if let Some(mi) = mergeinfo(entry) {
                let depth = above.len();
                return Ok(Some(Nearest { mi, depth }));
            }
            let Some((_, parent)) = above.split_last() else {
                return Ok(None);
            };
            above = parent;
            entry = self.standing(tick, above)?;
        }
    }

    /// What stands at a path of these components at a tick.
    pub(crate) fn standing(&self, tick: u32, path: &[NameId]) -> Result<Option<Entry>, AllocError>
        requires begins { self.now.lo ≡ 0 }
        requires within { tick ≤ hi_of self.now }
        ensures { IfOk result (λ entry.
            option_map entry_view entry ≡ standing_of (look_in self.now tick path.now)) }
    {
        if let Some(only) = self.only_block(tick) {
            return Ok(only.standing(tick, path));
        }
        let looked = look_in_blocks(self.blocks.as_slice(), 0, tick, path)?;
        Ok(standing_from_beginning(looked, path))
    }

    /// The block of all records before a tick, if they are in one.
    pub(crate) fn only_block(&self, tick: u32) -> Option<&Trees>
        requires begins { self.now.lo ≡ 0 }
        requires within { tick ≤ hi_of self.now }
        ensures trees { IfSome result (λ only. AreTrees only.now) }
        ensures after { IfSome result (λ only. only.now.start < tick) }
        ensures within { IfSome result (λ only. tick ≤ end_of_trees only.now) }
        ensures look { IfSome result
            (λ only. (path : List NameId) → look_in_trees only.now tick path ≡ look_in self.now tick path) }
    {
        match blocks_before(self.blocks.as_slice(), tick) {
            [only] => Some(only.as_ref()),
            _ => None,
        }
    }
}

/// These trees with further records.
fn extended(trees: Trees, records: &[NodeRecord], ends: &Ends) -> Result<Trees, AllocError>
    requires trees { AreMapTrees trees }
    requires few { end_of_trees trees + length records.now < 2 ^ 32 }
    requires short { All (λ each. length each.path ≤ most_components) records.now }
    requires sources { HaveSources (end_of_trees trees) ends.now records.now }
    ensures trees { IfOk result AreMapTrees }
    ensures start { IfOk result (λ grown. grown.start ≡ trees.start) }
    ensures records { IfOk result (λ grown.
        grown.records.items ≡ trees.records.items ++ records_at_ticks ends.now records.now) }
{
    let mut grown = trees;
    for record in records {
        grown.add(record, ends)?;
    }
    Ok(grown)
}

/// How many nodes these blocks keep.
fn count_nodes(blocks: &[Arc<Trees>]) -> u64
    requires { (lo : ℕ) × AreBlocksFrom lo (block_trees blocks.now) }
    ensures { result ≡ block_nodes (block_trees blocks.now) }
{
    let mut nodes = 0;
    for block in blocks {
        nodes += block.trie.len() as u64;
    }
    nodes
}

/// Those of these blocks that begin before a tick.
pub(crate) fn blocks_before(blocks: &[Arc<Trees>], tick: u32) -> &[Arc<Trees>]
    requires { (lo : ℕ) × AreBlocksFrom lo (block_trees blocks.now) }
    ensures { AreBlocksBefore tick (block_trees blocks.now) (block_trees result.now) }
{
    let count = blocks.partition_point(|block| block.start < tick);
    &blocks[..count]
}

/// The mergeinfo of what stands at a path.
fn mergeinfo(entry: Option<Entry>) -> Option<ValueId>
    ensures { result ≡ option_and_then (λ each. each.mergeinfo) (option_map entry_view entry) }
{
    match entry {
        Some(Entry { mi, .. }) => mi,
        None => None,
    }
}

/// What stands at a path where a history begins: a directory at the root, and nothing else.
fn at_beginning(path: &[NameId]) -> Option<Entry>
    ensures { (tick : _) → option_map entry_view result ≡ standing_of (from_beginning (at path.now tick)) }
{
    if !path.is_empty() {
        return None;
    }
    Some(Entry {
        kind: Kind::Dir,
        mi: None,
    })
}

/// What stands at a path by what is said of it, where a history begins.
fn standing_from_beginning(looked: Looked, path: &[NameId]) -> Option<Entry>
    ensures { option_map entry_view result ≡ standing_of (from_beginning (looked_view path.now looked)) }
{
    match looked {
        Looked::SamePath(_) => at_beginning(path),
        Looked::Other(found) => found.from_beginning().entry(),
    }
}

/// What the records of these blocks, which follow the first `lo` of their history, say of a path at a tick.
fn look_in_blocks(
    blocks: &[Arc<Trees>],
    lo: u32,
    tick: u32,
    path: &[NameId],
) -> Result<Looked, AllocError>
    requires in_order { AreBlocksFrom lo (block_trees blocks.now) }
    requires within { tick ≤ lo + length (block_records (block_trees blocks.now)) }
    ensures { IfOk result (λ looked. resolved lo (looked_view path.now looked)
        ≡ resolved lo (look same_name lo (block_records (block_trees blocks.now)) tick path.now)) }
{
    look_through(
        blocks_before(blocks, tick),
        lo,
        Looked::SamePath(tick),
        path,
    )
}

/// What the records of these blocks, which follow the first `lo` of their history, say of what later records said of a
/// path.
fn look_through(
    blocks: &[Arc<Trees>],
    lo: u32,
    looked: Looked,
    path: &[NameId],
) -> Result<Looked, AllocError>
    requires in_order { AreBlocksFrom lo (block_trees blocks.now) }
    requires within { IsFoundUpTo (lo + length (block_records (block_trees blocks.now))) (looked_view path.now looked) }
    ensures { IfOk result (λ after. resolved lo (looked_view path.now after)
        ≡ resolved lo (looked_through same_name lo (block_records (block_trees blocks.now))
        (looked_view path.now looked))) }
{
    let mut looked = looked;
    let mut left = blocks;
    while let Some((last, earlier)) = left.split_last() {
        looked = last.look_through(looked, path)?;
        left = earlier;
    }
    Ok(looked)
}

/// What was found by records that follow the first `lo` of their history. At its beginning there is the root alone, so
/// that where `lo` is 0 no location is left.
fn resolve(found: Found, lo: u32) -> Found
    ensures { found_view result ≡ resolved lo (found_view found) }
{
    if lo == 0 {
        found.from_beginning()
    } else {
        found
    }
}
