//! Maps of neighbouring parts of a history, joined, and one that takes the records of the next part.
ghost use Rattle.std.specs.Prelude.{◌≡◌, ◌++◌, IfOk};
ghost use Rattle.std.specs.List.{slice_range};
ghost use Rattle.block_map.specs.Ends.{ends_of};
ghost use Rattle.block_map.specs.Map.{IsMapOf, records_at_ticks};

use crate::maps::{COPIES, Part, build, finds_sources, is_lawful_in, look, map_of, map_of_part};
use crate::totals::total_of;
use block_map::{Ends, Entry, Found, Map};
use par_scan::Acts;
use revision_ends::revision_ends;
use sample_dumps::{NESTED, copies_of_the_root};
use std::alloc::{AllocError, Global};
use std::test::Fail;
use std::thread::Threads;
use svn_dump::{Dump, Kind, read};
use svn_text::push_number;

// Two maps as one, if they meet.
pub(crate) fn joined(earlier: &Map, later: &Map) -> Result<Map, Fail>
    ensures lo { IfOk result (λ both. both.lo ≡ earlier.now.lo) }
    ensures records { IfOk result (λ both. both.records ≡ earlier.now.records ++ later.now.records) }
{
    if !earlier.fits(later) {
        return Err("the maps do not meet")?;
    }
    Ok(earlier.join(later)?)
}

// A map and that of the next records, as one.
fn with_part(
    alloc: Global,
    dump: &Dump,
    ends: &Ends,
    earlier: &Map,
    part: Part,
) -> Result<Map, Fail>
    requires { ends.now ≡ ends_of dump.now.counts }
    ensures lo { IfOk result (λ both. both.lo ≡ earlier.now.lo) }
    ensures records { IfOk result (λ both. both.records
        ≡ earlier.now.records ++ records_at_ticks ends.now (slice_range dump.now.records part.start part.end)) }
{
    let later = map_of_part(alloc, dump, ends, part)?;
    let both = joined(earlier, &later);
    drop(later);
    both
}

// The map of the records up to `end`, joined of maps of so many records each.
fn map_of_parts(
    alloc: Global,
    dump: &Dump,
    ends: &Ends,
    size: usize,
    end: usize,
) -> Result<Map, Fail>
    requires { ends.now ≡ ends_of dump.now.counts }
{
    let mut map = map_of_part(alloc, dump, ends, Part { start: 0, end: 0 })?;
    let mut start: usize = 0;
    for _ in 0..end {
        let next = end.min(start.saturating_add(size));
        let both = with_part(alloc, dump, ends, &map, Part { start, end: next });
        drop(map);
        map = both?;
        start = next;
    }
    Ok(map)
}

// The map of all records, joined of maps of so many.
fn joined_map(alloc: Global, dump: &Dump, size: usize) -> Result<Map, Fail> {
    let ends = revision_ends(alloc, dump)?;
    let map = map_of_parts(alloc, dump, &ends, size, dump.records().len());
    drop(ends);
    map
}

// What stands at a path after so many records, as a map from the beginning of the history finds it.
fn standing(
    alloc: Global,
    dump: &Dump,
    map: &Map,
    tick: u32,
    path: &[u8],
) -> Result<Option<Entry>, Fail> {
    let found = look(alloc, dump, map, tick, path)?;
    let entry = match found {
        Found::Is { kind, mi } => Some(Entry { kind, mi }),
        _ => None,
    };
    drop(found);
    Ok(entry)
}

// Whether two maps say the same of a path after each of the records of `NESTED`.
fn say_the_same(
    alloc: Global,
    dump: &Dump,
    one: &Map,
    other: &Map,
    path: &[u8],
) -> Result<bool, Fail> {
    for tick in 0..8 {
        if standing(alloc, dump, one, tick, path)? != standing(alloc, dump, other, tick, path)? {
            return Ok(false);
        }
    }
    Ok(true)
}

// Whether they do so of each of some paths.
fn agree(alloc: Global, dump: &Dump, one: &Map, other: &Map) -> Result<bool, Fail> {
    for path in [
        b"/n/q/s".as_slice(),
        b"/m/q/s",
        b"/m/q",
        b"/p/q/s",
        b"/z/s",
        b"/",
    ] {
        if !say_the_same(alloc, dump, one, other, path)? {
            return Ok(false);
        }
    }
    Ok(true)
}

// Whether a map of `NESTED` says what the one says that is joined of maps of so many records.
fn agrees_with_parts(alloc: Global, dump: &Dump, whole: &Map, size: usize) -> Result<bool, Fail> {
    let parts = joined_map(alloc, dump, size)?;
    let agrees = agree(alloc, dump, whole, &parts);
    drop(parts);
    agrees
}

// Whether the map of all records of `NESTED` says what the one says that is joined of maps of so many records.
fn nested_agrees(alloc: Global, dump: &Dump, size: usize) -> Result<bool, Fail> {
    let whole = joined_map(alloc, dump, 7)?;
    let agrees = agrees_with_parts(alloc, dump, &whole, size);
    drop(whole);
    agrees
}

// Whether it does so for each number of records.
fn nested_agrees_always(alloc: Global, dump: &Dump) -> Result<bool, Fail> {
    for size in 1..7 {
        if !nested_agrees(alloc, dump, size)? {
            return Ok(false);
        }
    }
    Ok(true)
}

#[test]
fn a_joined_map_says_what_the_map_of_all_records_says(rt: HostRuntime) -> Result<(), Fail> {
    let dump = read(rt.alloc(), NESTED)?;
    let agrees = nested_agrees_always(rt.alloc(), &dump);
    drop(dump);
    assert!(rt; agrees?);
    Ok(())
}

// The map of the first records of a history, which takes the others.
fn grown_map(alloc: Global, dump: &Dump, ends: &Ends) -> Result<Map, AllocError>
    requires { ends.now ≡ ends_of dump.now.counts }
{
    let all = dump.records().len();
    let end = all.min(COPIES.start);
    let first = build(alloc, dump, ends, Part { start: 0, end })?;
    first.grow(&dump.records()[end..all], ends)
}

// Whether it says what the map of all records of `NESTED` says.
fn grown_agrees(alloc: Global, dump: &Dump) -> Result<bool, Fail> {
    let ends = revision_ends(alloc, dump)?;
    let grown = grown_map(alloc, dump, &ends);
    drop(ends);
    let grown = grown?;
    let agrees = agrees_with_parts(alloc, dump, &grown, 7);
    drop(grown);
    agrees
}

#[test]
fn a_grown_map_says_what_the_map_of_all_records_says(rt: HostRuntime) -> Result<(), Fail> {
    let dump = read(rt.alloc(), NESTED)?;
    let agrees = grown_agrees(rt.alloc(), &dump);
    drop(dump);
    assert!(rt; agrees?);
    Ok(())
}

// The path `/xN/../x1`, at which the root of the beginning is after so many copies of the root.
fn path_of_copies(alloc: Global, count: u32) -> Result<Vec<u8>, Fail> {
    let mut path = Vec::new(alloc);
    for number in (1..=count).rev() {
        path.extend_from_slice(b"/x")?;
        push_number(&mut path, u64::from(number))?;
    }
    Ok(path)
}

// Whether the map finds that.
fn finds_copies(alloc: Global, dump: &Dump, map: &Map, count: u32) -> Result<bool, Fail> {
    let path = path_of_copies(alloc, count)?;
    let entry = standing(alloc, dump, map, count, path.as_slice());
    drop(path);
    Ok(entry?.is_some())
}

// How records are cut: so many are the records of a map, and so many threads join these at once.
#[derive(Clone, Copy)]
struct Cut {
    size: usize,
    parts: usize,
}

// A map for each record.
const SINGLE: Cut = Cut { size: 1, parts: 3 };

// The maps of all records, of so many each.
fn part_maps(alloc: Global, dump: &Dump, ends: &Ends, size: usize) -> Result<Vec<Map>, Fail>
    requires { ends.now ≡ ends_of dump.now.counts }
{
    let mut maps = Vec::new(alloc);
    let len = dump.records().len();
    for number in 0..len {
        let start = number.saturating_mul(size);
        if start < len {
            let end = len.min(start.saturating_add(size));
            maps.push(map_of_part(alloc, dump, ends, Part { start, end })?)?;
        }
    }
    Ok(maps)
}

// All of these as one.
fn total_map<R: Threads + Sync>(rt: &R, alloc: Global, dump: &Dump, cut: Cut) -> Result<Map, Fail> {
    let ends = revision_ends(alloc, dump)?;
    let maps = part_maps(alloc, dump, &ends, cut.size);
    drop(ends);
    total_of(rt, alloc, maps?, cut.parts)
}

// How many nodes the map of so many copies of the root keeps that is joined of these maps, and whether it finds them.
fn joined_copies<R: Threads + Sync>(
    rt: &R,
    alloc: Global,
    dump: &Dump,
    count: u32,
    cut: Cut,
) -> Result<(u64, bool), Fail> {
    let map = total_map(rt, alloc, dump, cut)?;
    let found = finds_copies(alloc, dump, &map, count);
    let nodes = map.nodes();
    drop(map);
    Ok((nodes, found?))
}

// How many nodes a map of so many copies of the root keeps, and whether it finds them.
fn copies_of_dump<R: Threads + Sync>(
    rt: &R,
    alloc: Global,
    count: u32,
    cut: Cut,
) -> Result<(u64, bool), Fail> {
    let text = copies_of_the_root(alloc, count)?;
    let dump = read(alloc, text.as_slice());
    drop(text);
    let dump = dump?;
    let found = joined_copies(rt, alloc, &dump, count, cut);
    drop(dump);
    found
}

#[test]
fn maps_of_many_single_records_share_their_nodes(rt: HostRuntime) -> Result<(), Fail> {
    for (count, most) in [(40, 120), (1100, 3300)] {
        let (nodes, is_found) = copies_of_dump(&rt, rt.alloc(), count, SINGLE)?;
        assert!(rt; nodes <= most && is_found, "{count}: {nodes}");
    }
    Ok(())
}

#[test]
fn maps_of_seven_records_share_their_nodes(rt: HostRuntime) -> Result<(), Fail> {
    let cut = Cut { size: 7, parts: 8 };
    let (nodes, is_found) = copies_of_dump(&rt, rt.alloc(), 40, cut)?;
    assert!(rt; nodes <= 86 && is_found, "{nodes}");
    Ok(())
}

// The copy of a map after its unit, whose ticks and number of nodes come beside it.
pub(crate) fn copy_after_unit(map: &Map) -> Result<(Map, (u32, u32, u64)), Fail> {
    let unit = map.unit()?;
    let copy = map.dup()?;
    let extent = (unit.lo(), unit.hi(), unit.nodes());
    let both = joined(&unit, &copy);
    drop(unit);
    drop(copy);
    Ok((both?, extent))
}

// Whether the copy of the map of the last two records of `NESTED` after its unit says of each path what the map should,
// and the ticks and nodes of the unit.
fn copy_finds_sources(alloc: Global, dump: &Dump) -> Result<(bool, (u32, u32, u64)), Fail> {
    let map = map_of(alloc, dump, COPIES)?;
    let copied = copy_after_unit(&map);
    drop(map);
    let (both, extent) = copied?;
    let found = finds_sources(alloc, dump, &both);
    drop(both);
    Ok((found?, extent))
}

#[test]
fn a_unit_has_no_nodes_and_changes_nothing(rt: HostRuntime) -> Result<(), Fail> {
    let dump = read(rt.alloc(), NESTED)?;
    let found = copy_finds_sources(rt.alloc(), &dump);
    drop(dump);
    assert_eq!(rt; found?, (true, (5, 5, 0)));
    Ok(())
}

// What stands at some paths after all records of `NESTED`.
fn nested_standings(alloc: Global, dump: &Dump, map: &Map) -> Result<[Option<Entry>; 3], Fail> {
    Ok([
        standing(alloc, dump, map, 7, b"/n/q/s")?,
        standing(alloc, dump, map, 7, b"/n/q")?,
        standing(alloc, dump, map, 7, b"/m/q/s")?,
    ])
}

// What stands at these paths in the map that is joined of a map for each record.
fn total_standings<R: Threads + Sync>(
    rt: &R,
    alloc: Global,
    dump: &Dump,
) -> Result<[Option<Entry>; 3], Fail> {
    let map = total_map(rt, alloc, dump, SINGLE)?;
    let standings = nested_standings(alloc, dump, &map);
    drop(map);
    standings
}

#[test]
fn copies_of_an_earlier_map_are_those_of_their_own_record(rt: HostRuntime) -> Result<(), Fail> {
    let dump = read(rt.alloc(), NESTED)?;
    let found = total_standings(&rt, rt.alloc(), &dump);
    drop(dump);
    let [file, dir] = [Kind::File, Kind::Dir].map(|kind| Some(Entry { kind, mi: None }));
    assert!(rt; found? == [file, dir, None]);
    Ok(())
}

// The map of all records, joined of that of the first ones and that of the others.
pub(crate) fn map_of_both(
    alloc: Global,
    dump: &Dump,
    ends: &Ends,
    count: usize,
) -> Result<Map, Fail>
    requires { ends.now ≡ ends_of dump.now.counts }
    ensures { IfOk result (λ map. IsMapOf dump.now map) }
{
    let front = Part {
        start: 0,
        end: count,
    };
    let back = Part {
        start: count,
        end: dump.records().len(),
    };
    let earlier = map_of_part(alloc, dump, ends, front)?;
    let both = with_part(alloc, dump, ends, &earlier, back);
    drop(earlier);
    both
}

// Whether the map that is joined of those of both parts of `NESTED` finds no faulty record, and no fault of record 6.
fn both_are_lawful<R: Threads + Sync>(
    rt: &R,
    alloc: Global,
    dump: &Dump,
    ends: &Ends,
) -> Result<bool, Fail>
    requires { ends.now ≡ ends_of dump.now.counts }
{
    let map = map_of_both(alloc, dump, ends, COPIES.start)?;
    let is_lawful = is_lawful_in(rt, dump, ends, &map, 6);
    drop(map);
    is_lawful
}

fn joined_is_lawful<R: Threads + Sync>(rt: &R, alloc: Global, dump: &Dump) -> Result<bool, Fail> {
    let ends = revision_ends(alloc, dump)?;
    let is_lawful = both_are_lawful(rt, alloc, dump, &ends);
    drop(ends);
    is_lawful
}

#[test]
fn a_joined_map_of_a_lawful_history_finds_no_faulty_record(rt: HostRuntime) -> Result<(), Fail> {
    let dump = read(rt.alloc(), NESTED)?;
    let is_lawful = joined_is_lawful(&rt, rt.alloc(), &dump);
    drop(dump);
    assert!(rt; is_lawful?);
    Ok(())
}
