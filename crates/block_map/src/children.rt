//! What stands directly below paths.
ghost use Rattle.std.specs.List.Sorted.{IsStrictlyIncreasing};
ghost use Rattle.std.specs.Prelude.{◌≡◌, ◌≤◌, ◌∷◌, [], IfOk, IfSome, OnOk, length};
ghost use Rattle.svn_path.specs.Path.{same_name};
ghost use Rattle.block_map.specs.Blocks.{AreBlocksFrom, block_records, block_trees};
ghost use Rattle.block_map.specs.Children.{AreChildren, AreKept, AreOthersAt, HaveAllNames};
ghost use Rattle.block_map.specs.Look.{absent, look, resolved};
ghost use Rattle.block_map.specs.LookThrough.{look_through as looked_through};
ghost use Rattle.block_map.specs.Map.{hi_of, look_in};
ghost use Rattle.block_map.specs.Standing.{standing_of};
ghost use Rattle.block_map.specs.Trie.{as_at};

use crate::entry::{Child, push_child};
use crate::map::{Map, blocks_before};
use crate::trees::Trees;
use crate::trie::Location;
use std::alloc::AllocError;
use std::sync::Arc;
use svn_path::{NameId, Path};

impl Map {
    /// The numbers of all names at which something stands directly below a path at a tick, and maybe of others.
    pub(crate) fn names_below(&self, tick: u32, path: &[NameId]) -> Result<Vec<u32>, AllocError>
        requires begins { self.now.lo ≡ 0 }
        requires within { tick ≤ hi_of self.now }
        ensures once { IfOk result (λ names. IsStrictlyIncreasing names.items) }
        ensures all { IfOk result (λ names.
            HaveAllNames (λ below. standing_of (look_in self.now tick below)) path.now names.items) }
    {
        let mut names = Vec::new(*self.blocks.allocator());
        push_names_in_blocks(self.blocks.as_slice(), tick, path, &mut names)?;
        Ok(each_once(names))
    }

    /// What stands at these names directly below a path at a tick.
    pub(crate) fn children_of(
        &self,
        tick: u32,
        path: &[NameId],
        names: &[u32],
    ) -> Result<Vec<Child>, AllocError>
        requires begins { self.now.lo ≡ 0 }
        requires within { tick ≤ hi_of self.now }
        requires once { IsStrictlyIncreasing names.now }
        requires all { HaveAllNames (λ below. standing_of (look_in self.now tick below)) path.now names.now }
        ensures { IfOk result (λ children.
            AreChildren (λ below. standing_of (look_in self.now tick below)) path.now children.items) }
    {
        if let Some(only) = self.only_block(tick) {
            return only.children_of(tick, path, names);
        }
        self.those_standing(tick, path, names)
    }

    /// What stands at these names, by whatever blocks there are.
    fn those_standing(
        &self,
        tick: u32,
        path: &[NameId],
        names: &[u32],
    ) -> Result<Vec<Child>, AllocError>
        requires begins { self.now.lo ≡ 0 }
        requires within { tick ≤ hi_of self.now }
        requires once { IsStrictlyIncreasing names.now }
        requires all { HaveAllNames (λ below. standing_of (look_in self.now tick below)) path.now names.now }
        ensures { IfOk result (λ children.
            AreChildren (λ below. standing_of (look_in self.now tick below)) path.now children.items) }
    {
        let alloc = *self.blocks.allocator();
        let mut children = Vec::new(alloc);
        let mut below = Vec::from_slice(alloc, path)?;
        for name in names {
            let name = NameId(*name);
            below.push(name)?;
            let entry = self.standing(tick, &below)?;
            push_child(name, entry, &mut children)?;
            below.truncate(path.len());
        }
        Ok(children)
    }
}

/// These numbers in their order, without repeats.
fn each_once(names: Vec<u32>) -> Vec<u32>
    ensures once { IsStrictlyIncreasing result.items }
    ensures kept { AreKept names.items result.items }
{
    let mut names = names;
    names.sort_unstable();
    names.dedup();
    names
}

/// Appends the numbers of all names at which something stands directly below a path at a tick, and maybe of others, by
/// blocks from the beginning of a history.
fn push_names_in_blocks(
    blocks: &[Arc<Trees>],
    tick: u32,
    path: &[NameId],
    names: &mut Vec<u32>,
) -> Result<(), AllocError>
    requires in_order { AreBlocksFrom 0 (block_trees blocks.now) }
    requires within { tick ≤ length (block_records (block_trees blocks.now)) }
    ensures { OnOk result (HaveAllNames (λ below. standing_of
        (resolved 0 (look same_name 0 (block_records (block_trees blocks.now)) tick below))) path.now names.new.items) }
{
    let path = Path::of(*names.allocator(), path)?;
    let location = Some(Location { path, tick });
    push_names_through(blocks_before(blocks, tick), location, names)
}

/// Appends the numbers of all names at which something stands directly below what later blocks found, by blocks from the
/// beginning of a history.
fn push_names_through(
    blocks: &[Arc<Trees>],
    found: Option<Location>,
    names: &mut Vec<u32>,
) -> Result<(), AllocError>
    requires in_order { AreBlocksFrom 0 (block_trees blocks.now) }
    requires within { IfSome found (λ at. at.tick ≤ length (block_records (block_trees blocks.now))) }
    ensures { OnOk result (AreOthersAt (λ name _. resolved 0 (looked_through same_name 0
        (block_records (block_trees blocks.now)) (as_at found (name ∷ []))) ≡ absent) names.new.items None) }
{
    let mut found = found;
    let mut left = blocks;
    while let Some((last, earlier)) = left.split_last() {
        found = last.push_names(found, names)?;
        left = earlier;
    }
    Ok(())
}
