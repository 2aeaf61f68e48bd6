//! Whether paths below a path may have mergeinfo.
ghost use Rattle.std.specs.Prelude.{◌≡◌, ◌≤◌, ◌∷◌, Some, IfOk, IsFalse, length};
ghost use Rattle.svn_path.specs.Path.{same_name};
ghost use Rattle.block_map.specs.Blocks.{AreBlocksFrom, block_records, block_trees};
ghost use Rattle.block_map.specs.Look.{look, resolved};
ghost use Rattle.block_map.specs.LookThrough.{look_through as looked_through};
ghost use Rattle.block_map.specs.Map.{IsEndIn, IsMapOfFirstRecords, hi_of, look_in, revision_in};
ghost use Rattle.block_map.specs.MergeinfoBelow.{LackMergeinfoBelow};
ghost use Rattle.block_map.specs.Standing.{mergeinfo_of, own_mergeinfo_at};
ghost use Rattle.block_map.specs.Trie.{as_at};

use crate::map::{Map, blocks_before};
use crate::trees::Trees;
use crate::trie::Location;
use std::alloc::AllocError;
use std::sync::Arc;
use svn_path::Path;

/// What some records say of the mergeinfo below a path.
#[derive(Drop)]
pub(crate) enum MergeinfoBelow {
    /// They may give some.
    Maybe,
    /// They give none: there is what stood below a location, if there is one, or what has no mergeinfo.
    AsAt(Option<Location>),
}

impl Map {
    /// Whether a path below this one may have mergeinfo of its own at a tick, in a map from the beginning of a history.
    /// Where this is false, none has; it may be true where none has.
    pub fn may_have_mergeinfo_below(&self, tick: u32, path: &Path) -> Result<bool, AllocError>
        requires begins { self.now.lo ≡ 0 }
        requires within { tick ≤ hi_of self.now }
        ensures found { IfOk result (λ may. IsFalse may
            → LackMergeinfoBelow (λ below. mergeinfo_of (look_in self.now tick below)) path.now) }

        // In a map of the first records of a dump, at the end of a revision, it is that of the tree of the revision.
        ensures of_revision { (dump : _) (rev : _) → IsMapOfFirstRecords dump self.now → IsEndIn dump rev tick
            → IfOk result (λ may. IsFalse may
            → LackMergeinfoBelow (own_mergeinfo_at same_name (revision_in dump rev)) path.now) }
    {
        let path = Path::of(*self.blocks.allocator(), path.parts())?;
        may_be_in_blocks(self.blocks.as_slice(), Location { path, tick })
    }
}

/// Whether there may be mergeinfo below a location, by blocks from the beginning of a history.
fn may_be_in_blocks(blocks: &[Arc<Trees>], location: Location) -> Result<bool, AllocError>
    requires in_order { AreBlocksFrom 0 (block_trees blocks.now) }
    requires within { location.tick ≤ length (block_records (block_trees blocks.now)) }
    ensures { IfOk result (λ may. IsFalse may → LackMergeinfoBelow (λ below. mergeinfo_of (resolved 0
        (look same_name 0 (block_records (block_trees blocks.now)) location.tick below))) location.path) }
{
    may_be_through(blocks_before(blocks, location.tick), location)
}

/// Whether there may be mergeinfo below a location that later blocks found, by blocks from the beginning of a history.
fn may_be_through(blocks: &[Arc<Trees>], found: Location) -> Result<bool, AllocError>
    requires in_order { AreBlocksFrom 0 (block_trees blocks.now) }
    requires within { found.tick ≤ length (block_records (block_trees blocks.now)) }
    ensures { IfOk result (λ may. IsFalse may → (name : _) (rest : _)
        → mergeinfo_of (resolved 0 (looked_through same_name 0 (block_records (block_trees blocks.now))
        (as_at (Some found) (name ∷ rest)))) ≡ None) }
{
    let mut found = found;
    let mut left = blocks;
    while let Some((last, earlier)) = left.split_last() {
        let MergeinfoBelow::AsAt(below) = last.mergeinfo_below(found)? else {
            return Ok(true);
        };
        let Some(location) = below else {
            return Ok(false);
        };
        found = location;
        left = earlier;
    }
    Ok(false)
}
