//! The locations that nodes name.
ghost use Rattle.std.specs.Prelude.{◌≡◌, ◌<◌, ◌++◌, ◌∷◌, [], Some, IfOk, IfSome, OnErr, OnOk, length, reverse, slice_get};
ghost use Rattle.block_map.specs.Locations.{AddsBelow, IsLocationBelow, path_of, whole_location};

use crate::trie::location::{Location, LocationId, StoredLocation};
use crate::trie::numbers::next_number;
use std::alloc::{AllocError, Global};
use std::marker::Model;
use svn_path::{NameId, Path};

/// A list of locations, to which others are added. One that is below another takes memory only for the components below
/// that.
#[derive(Drop)]
pub(crate) struct Locations {
    items: Vec<StoredLocation>,
}

impl Model for Locations {
    ghost use Rattle.std.specs.Prelude.{List};
    ghost use Rattle.block_map.specs.Locations.{AreAfterThoseAbove, locations_of};
    ghost use Rattle.block_map.specs.declared.trie.location.Location.{Location};

    ghost Value = { List Location };

    ghost view = { λ l. locations_of l.items.items };

    ghost invariant = { λ l. AreAfterThoseAbove l.items.items };
}

impl Locations {
    /// No locations. It takes no memory.
    pub(crate) fn new(alloc: Global) -> Self
        ensures { result ≡ [] }
    {
        Locations {
            items: Vec::new(alloc),
        }
    }

    /// Adds a location.
    pub(crate) fn push(&mut self, path: Path, tick: u32) -> Result<LocationId, AllocError>
        ensures id { IfOk result (λ id. id.0 ≡ length self.old) }
        ensures added { OnOk result (self.new ≡ self.old ++ record { path = path; tick = tick } ∷ []) }
        ensures failed { OnErr result (self.new ≡ self.old) }
    {
        self.push_stored(StoredLocation {
            above: None,
            rest: path,
            tick,
        })
    }

    /// Adds the location at these components below another one.
    pub(crate) fn push_below(
        &mut self,
        above: LocationId,
        rest: &[NameId],
    ) -> Result<LocationId, AllocError>
        requires { above.0 < length self.old }
        ensures id { IfOk result (λ id. id.0 ≡ length self.old) }
        ensures added { OnOk result (AddsBelow self.old self.new above rest.now) }
        ensures failed { OnErr result (self.new ≡ self.old) }
    {
        let rest = Path::of(*self.items.allocator(), rest)?;
        let tick = self.items[above.0 as usize].tick;
        self.push_stored(StoredLocation {
            above: Some(above),
            rest,
            tick,
        })
    }

    /// Adds a location that is below another one or has its whole path.
    fn push_stored(&mut self, stored: StoredLocation) -> Result<LocationId, AllocError>
        requires { IfSome stored.above (λ above. above.0 < length self.old) }
        ensures id { IfOk result (λ id. id.0 ≡ length self.old) }
        ensures added { OnOk result (self.new ≡ self.old ++ whole_location self.old stored ∷ []) }
        ensures failed { OnErr result (self.new ≡ self.old) }
    {
        let id = LocationId(next_number(self.items.len())?);
        self.items.push(stored)?;
        Ok(id)
    }

    /// The location at these components below another one.
    pub(crate) fn below(&self, id: LocationId, rest: &[NameId]) -> Result<Location, AllocError>
        requires { id.0 < length self.now }
        ensures { IfOk result (IsLocationBelow self.now id rest.now) }
    {
        let path = self.path_below(id, rest)?;
        let tick = self.items[id.0 as usize].tick;
        Ok(Location { path, tick })
    }

    /// The tick of a location at the root, if it is kept with its whole path.
    pub(crate) fn tick_at_root(&self, id: LocationId) -> Option<u32>
        requires { id.0 < length self.now }
        ensures { IfSome result (λ tick. slice_get self.now id.0 ≡ Some (record { path = []; tick = tick })) }
    {
        let stored = &self.items[id.0 as usize];
        if stored.above.is_none() && stored.rest.is_empty() {
            Some(stored.tick)
        } else {
            None
        }
    }

    /// The path of these components below a location. Where other locations are above that, the components below the
    /// topmost one are collected first, from the last one on.
    fn path_below(&self, id: LocationId, rest: &[NameId]) -> Result<Path, AllocError>
        requires { id.0 < length self.now }
        ensures { IfOk result (λ path. path ≡ path_of self.now id ++ rest.now) }
    {
        let mut top = &self.items[id.0 as usize];
        if top.above.is_none() {
            return top.rest.join(rest);
        }
        let mut parts = Vec::new(*self.items.allocator());
        push_reversed(&mut parts, rest)?;
        while let Some(above) = top.above {
            push_reversed(&mut parts, top.rest.parts())?;
            top = &self.items[above.0 as usize];
        }
        parts.reverse();
        top.rest.join(&parts)
    }
}

/// Appends components, the last one first.
fn push_reversed(parts: &mut Vec<NameId>, more: &[NameId]) -> Result<(), AllocError>
    ensures { OnOk result (parts.new.items ≡ parts.old.items ++ reverse more.now) }
{
    parts.extend(more.iter().rev().copied())
}
