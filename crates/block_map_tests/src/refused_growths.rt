//! Maps that are built and joined while growths are refused: each call answers as it should, or that memory is wanting,
//! and afterwards what was there before it answers as before.
ghost use Rattle.std.specs.Prelude.{◌≡◌, ◌≤◌, length};
ghost use Rattle.block_map.specs.Ends.{ends_of};

use crate::forms::{Form, form_at};
use crate::joins::joined;
use crate::maps::{BEFORE_COPIES, COPIES, Part, build, map_of};
use block_map::{Ends, Map};
use par_scan::Acts;
use revision_ends::revision_ends;
use sample_dumps::NESTED;
use std::alloc::{AllocError, Global};
use std::test::Fail;
use svn_dump::{Dump, Kind, read};

// By what a map of records of `NESTED` is known: what it says of `p/q/s` and of `m/q/s` at its end, and its nodes.
#[derive(Clone, Copy, PartialEq, Eq)]
struct Signs {
    copied: Form,
    earlier: Form,
    nodes: u64,
}

const OF_FIRST: Signs = Signs {
    copied: Form::Is(Kind::File, None),
    earlier: Form::Absent,
    nodes: 14,
};

const OF_COPIES: Signs = Signs {
    copied: Form::At(5),
    earlier: Form::At(4),
    nodes: 4,
};

const OF_ALL: Signs = Signs {
    copied: Form::Is(Kind::File, None),
    earlier: Form::Absent,
    nodes: 18,
};

fn signs_of(alloc: Global, dump: &Dump, map: &Map) -> Result<Signs, Fail> {
    let copied = form_at(alloc, dump, map, map.hi(), b"/p/q/s")?;
    let earlier = form_at(alloc, dump, map, map.hi(), b"/m/q/s")?;
    let nodes = map.nodes();
    Ok(Signs {
        copied,
        earlier,
        nodes,
    })
}

fn is_of(alloc: Global, dump: &Dump, map: &Map, wanted: Signs) -> Result<bool, Fail> {
    Ok(signs_of(alloc, dump, map)? == wanted)
}

// Whether a map is known by that, unless memory was wanting for it.
fn is_of_or_wanting(
    alloc: Global,
    dump: &Dump,
    map: Result<Map, AllocError>,
    wanted: Signs,
) -> Result<bool, Fail> {
    let Ok(map) = map else {
        return Ok(true);
    };
    let is_of = is_of(alloc, dump, &map, wanted);
    drop(map);
    is_of
}

// Builds the map of these records while growths are refused.
fn built(alloc: Global, dump: &Dump, ends: &Ends, part: Part) -> Result<Map, AllocError>
    requires ends { ends.now ≡ ends_of dump.now.counts }
    requires order { part.start ≤ part.end }
    requires within { part.end ≤ length dump.now.records }
{
    growth_marks::begin(alloc);
    let map = build(alloc, dump, ends, part);
    growth_marks::end(alloc);
    map
}

// Whether that map is right, or memory was wanting for it; and it is right when it is built afterwards.
fn is_built(alloc: Global, dump: &Dump, part: Part, wanted: Signs) -> Result<bool, Fail> {
    if part.end < part.start || dump.records().len() < part.end {
        return Err("there are not so many records")?;
    }
    let ends = revision_ends(alloc, dump)?;
    let map = built(alloc, dump, &ends, part);
    drop(ends);
    Ok(is_of_or_wanting(alloc, dump, map, wanted)? && is_built_again(alloc, dump, part, wanted)?)
}

fn is_built_again(alloc: Global, dump: &Dump, part: Part, wanted: Signs) -> Result<bool, Fail> {
    let map = map_of(alloc, dump, part)?;
    let is_of = is_of(alloc, dump, &map, wanted);
    drop(map);
    is_of
}

#[test]
fn refused_growths_in_build(rt: HostRuntime) -> Result<(), Fail> {
    let dump = read(rt.alloc(), NESTED)?;
    let is_built = is_built(rt.alloc(), &dump, BEFORE_COPIES, OF_FIRST);
    drop(dump);
    assert!(rt; is_built?);
    Ok(())
}

#[test]
fn refused_growths_in_build_after_a_tick(rt: HostRuntime) -> Result<(), Fail> {
    let dump = read(rt.alloc(), NESTED)?;
    let is_built = is_built(rt.alloc(), &dump, COPIES, OF_COPIES);
    drop(dump);
    assert!(rt; is_built?);
    Ok(())
}

// Whether two maps joined while growths are refused are the map of all records, or memory was wanting.
fn are_joined(alloc: Global, dump: &Dump, earlier: &Map, later: &Map) -> Result<bool, Fail> {
    if !earlier.fits(later) {
        return Err("the maps do not meet")?;
    }
    growth_marks::begin(alloc);
    let map = earlier.join(later);
    growth_marks::end(alloc);
    is_of_or_wanting(alloc, dump, map, OF_ALL)
}

fn are_joined_again(alloc: Global, dump: &Dump, earlier: &Map, later: &Map) -> Result<bool, Fail> {
    let map = joined(earlier, later)?;
    let is_of = is_of(alloc, dump, &map, OF_ALL);
    drop(map);
    is_of
}

// Whether they are so, answer afterwards as before, and are that map when they are joined again.
fn stand_after_join(alloc: Global, dump: &Dump, earlier: &Map, later: &Map) -> Result<bool, Fail> {
    let are_joined = are_joined(alloc, dump, earlier, later)?;
    let stand = is_of(alloc, dump, earlier, OF_FIRST)? && is_of(alloc, dump, later, OF_COPIES)?;
    Ok(are_joined && stand && are_joined_again(alloc, dump, earlier, later)?)
}

fn copies_are_joined(alloc: Global, dump: &Dump, earlier: &Map) -> Result<bool, Fail> {
    let later = map_of(alloc, dump, COPIES)?;
    let stand = stand_after_join(alloc, dump, earlier, &later);
    drop(later);
    stand
}

fn parts_are_joined(alloc: Global, dump: &Dump) -> Result<bool, Fail> {
    let earlier = map_of(alloc, dump, BEFORE_COPIES)?;
    let stand = copies_are_joined(alloc, dump, &earlier);
    drop(earlier);
    stand
}

#[test]
fn refused_growths_in_join(rt: HostRuntime) -> Result<(), Fail> {
    let dump = read(rt.alloc(), NESTED)?;
    let stand = parts_are_joined(rt.alloc(), &dump);
    drop(dump);
    assert!(rt; stand?);
    Ok(())
}
