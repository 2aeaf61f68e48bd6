//! Maps of the records of small histories, and of parts of them.
ghost use Rattle.std.specs.Prelude.{◌≡◌, ◌≤◌, IfOk, length};
ghost use Rattle.std.specs.List.{slice_range};
ghost use Rattle.block_map.specs.Ends.{ends_of};
ghost use Rattle.block_map.specs.Map.{IsMapOf, records_at_ticks};

use block_map::{Ends, Entry, Found, Map, Nearest, check, fault_at};
use revision_ends::revision_ends;
use sample_dumps::{DEEPER, MERGED, NESTED, TWO_TEXTS, copies_of_the_root};
use std::alloc::{AllocError, Global};
use std::test::Fail;
use std::thread::Threads;
use svn_dump::{Dump, Kind, ValueId, read};
use svn_path::{Lookup, Path};

// The records of a dump from one place up to another.
#[derive(Clone, Copy)]
pub(crate) struct Part {
    pub(crate) start: usize,
    pub(crate) end: usize,
}

// The records 6 and 7 of `NESTED`, which copy `p` of two revisions, and those before them.
pub(crate) const COPIES: Part = Part { start: 5, end: 7 };

pub(crate) const BEFORE_COPIES: Part = Part { start: 0, end: 5 };

// The records 6 to 9 of `DEEPER`, which copy.
const COPIES_OF_COPIES: Part = Part { start: 5, end: 9 };

// The map of these records.
pub(crate) fn map_of_part(alloc: Global, dump: &Dump, ends: &Ends, part: Part) -> Result<Map, Fail>
    requires { ends.now ≡ ends_of dump.now.counts }
    ensures lo { IfOk result (λ map. map.lo ≡ part.start) }
    ensures records { IfOk result (λ map.
        map.records ≡ records_at_ticks ends.now (slice_range dump.now.records part.start part.end)) }
{
    if part.end < part.start || dump.records().len() < part.end {
        return Err("there are not so many records")?;
    }
    Ok(build(alloc, dump, ends, part)?)
}

// The map of these records, which are there.
pub(crate) fn build(alloc: Global, dump: &Dump, ends: &Ends, part: Part) -> Result<Map, AllocError>
    requires ends { ends.now ≡ ends_of dump.now.counts }
    requires order { part.start ≤ part.end }
    requires within { part.end ≤ length dump.now.records }
    ensures lo { IfOk result (λ map. map.lo ≡ part.start) }
    ensures records { IfOk result (λ map.
        map.records ≡ records_at_ticks ends.now (slice_range dump.now.records part.start part.end)) }
{
    let records = dump.records();
    let records = &records[part.start..part.end];
    Map::build(alloc, records, part.start as u32, ends)
}

// The map of all records.
fn whole_map(alloc: Global, dump: &Dump, ends: &Ends) -> Result<Map, AllocError>
    requires { ends.now ≡ ends_of dump.now.counts }
    ensures { IfOk result (λ map. IsMapOf dump.now map) }
{
    Map::build(alloc, dump.records(), 0, ends)
}

pub(crate) fn map_of(alloc: Global, dump: &Dump, part: Part) -> Result<Map, Fail> {
    let ends = revision_ends(alloc, dump)?;
    let map = map_of_part(alloc, dump, &ends, part);
    drop(ends);
    map
}

pub(crate) fn path_of(alloc: Global, dump: &Dump, text: &[u8]) -> Result<Path, Fail> {
    match Path::find(alloc, dump.names(), text)? {
        Lookup::Known(path) => Ok(path),
        Lookup::Unknown => Err("no such path")?,
    }
}

// What a map says of a path after so many records of the history.
pub(crate) fn look(
    alloc: Global,
    dump: &Dump,
    map: &Map,
    tick: u32,
    path: &[u8],
) -> Result<Found, Fail> {
    if tick < map.lo() || map.hi() < tick {
        return Err("no tick of the map")?;
    }
    let path = path_of(alloc, dump, path)?;
    let found = map.look(tick, &path);
    drop(path);
    Ok(found?)
}

// What the map of these records says of a path after so many records.
fn look_in_part(
    alloc: Global,
    dump: &Dump,
    part: Part,
    tick: u32,
    path: &[u8],
) -> Result<Found, Fail> {
    let map = map_of(alloc, dump, part)?;
    let found = look(alloc, dump, &map, tick, path);
    drop(map);
    found
}

// Whether it is what stood at this path after so many records, with this mergeinfo if any is given.
fn is_at(found: &Found, wanted: &Path, at: u32, mergeinfo: Option<ValueId>) -> bool {
    match found {
        Found::At { path, tick } => *tick == at && mergeinfo.is_none() && *path == *wanted,
        Found::AtWith { path, tick, mi } => {
            *tick == at && mergeinfo.is_some() && *mi == mergeinfo && *path == *wanted
        }
        _ => false,
    }
}

// Whether a map says of a path that it has what stood at another one after so many records.
fn finds(
    found: &Found,
    alloc: Global,
    dump: &Dump,
    from: &[u8],
    at: u32,
    mergeinfo: Option<ValueId>,
) -> Result<bool, Fail> {
    let wanted = path_of(alloc, dump, from)?;
    let is_found = is_at(found, &wanted, at, mergeinfo);
    drop(wanted);
    Ok(is_found)
}

// The ticks before and after the records of a part, and how many nodes its map keeps.
fn extent(alloc: Global, dump: &Dump, part: Part) -> Result<(u32, u32, u64), Fail> {
    let map = map_of(alloc, dump, part)?;
    let found = (map.lo(), map.hi(), map.nodes());
    drop(map);
    Ok(found)
}

// The end of a revision.
fn end_of(alloc: Global, dump: &Dump, rev: u32) -> Result<Option<u32>, AllocError> {
    if dump.counts().len() <= rev as usize {
        return Ok(None);
    }
    let ends = revision_ends(alloc, dump)?;
    let end = ends.at(rev);
    drop(ends);
    Ok(Some(end))
}

// What stands at a path after all records of a dump.
fn newest_entry(alloc: Global, dump: &Dump, path: &Path) -> Result<Option<Entry>, AllocError> {
    let ends = revision_ends(alloc, dump)?;
    let map = Map::build(alloc, dump.records(), 0, &ends)?;
    let entry = map.entry(map.hi(), path)?;
    Ok(entry)
}

fn newest_entry_at(alloc: Global, dump: &Dump, path: &[u8]) -> Result<Option<Entry>, Fail> {
    let path = path_of(alloc, dump, path)?;
    let entry = newest_entry(alloc, dump, &path);
    drop(path);
    Ok(entry?)
}

#[test]
fn a_map_of_all_records_has_what_they_leave(rt: HostRuntime) -> Result<(), Fail> {
    let dump = read(rt.alloc(), NESTED)?;
    let entry = newest_entry_at(rt.alloc(), &dump, b"/p/q/s");
    drop(dump);
    let kind = Kind::File;
    assert_eq!(rt; entry?, Some(Entry { kind, mi: None }));
    Ok(())
}

// Whether a map finds no faulty record, and no fault of the record of this number.
pub(crate) fn is_lawful_in<R: Threads + Sync>(
    rt: &R,
    dump: &Dump,
    ends: &Ends,
    map: &Map,
    number: u32,
) -> Result<bool, Fail>
    requires ends { ends.now ≡ ends_of dump.now.counts }
    requires map { IsMapOf dump.now map.now }
{
    if number == 0 || dump.records().len() < number as usize {
        return Err("there are not so many records")?;
    }
    let fault = fault_at(map, dump, ends, number)?;
    Ok(fault.is_none() && check(rt, map, dump, ends)?.is_none())
}

// Whether the map of all records finds none faulty, and no fault of the record of this number.
fn is_lawful_with<R: Threads + Sync>(
    rt: &R,
    alloc: Global,
    dump: &Dump,
    ends: &Ends,
    number: u32,
) -> Result<bool, Fail>
    requires { ends.now ≡ ends_of dump.now.counts }
{
    let map = whole_map(alloc, dump, ends)?;
    let is_lawful = is_lawful_in(rt, dump, ends, &map, number);
    drop(map);
    is_lawful
}

// What stands at a path after so many records, and the nearest mergeinfo of it.
fn standing_in(
    alloc: Global,
    dump: &Dump,
    map: &Map,
    tick: u32,
    path: &[u8],
) -> Result<(Option<Entry>, Option<Nearest>), Fail>
    requires { IsMapOf dump.now map.now }
{
    if map.hi() < tick {
        return Err("no tick of the map")?;
    }
    let path = path_of(alloc, dump, path)?;
    let entry = map.entry(tick, &path);
    let nearest = map.nearest(tick, &path);
    let both = map.entry_and_nearest(tick, &path);
    drop(path);
    let found = (entry?, nearest?);
    if both? != found {
        return Err("entry_and_nearest differs")?;
    }
    Ok(found)
}

// What stands at a path after so many records, and the nearest mergeinfo of it, by the map of all records.
fn standing_at(
    alloc: Global,
    dump: &Dump,
    tick: u32,
    path: &[u8],
) -> Result<(Option<Entry>, Option<Nearest>), Fail> {
    let ends = revision_ends(alloc, dump)?;
    let map = whole_map(alloc, dump, &ends);
    drop(ends);
    let map = map?;
    let found = standing_in(alloc, dump, &map, tick, path);
    drop(map);
    found
}

#[test]
fn ends_count_the_records_up_to_a_revision(rt: HostRuntime) -> Result<(), Fail> {
    let dump = read(rt.alloc(), NESTED)?;
    for (rev, end) in [(0, 0), (1, 4), (2, 5), (3, 7)] {
        assert!(rt; end_of(rt.alloc(), &dump, rev) == Ok(Some(end)), "{rev}");
    }
    drop(dump);
    Ok(())
}

// The ticks before and after the records of a part of a dump, and how many nodes its map keeps.
fn extent_of(alloc: Global, bytes: &[u8], part: Part) -> Result<(u32, u32, u64), Fail> {
    let dump = read(alloc, bytes)?;
    let found = extent(alloc, &dump, part);
    drop(dump);
    found
}

#[test]
fn a_part_has_the_ticks_of_its_records_and_few_nodes(rt: HostRuntime) -> Result<(), Fail> {
    for (part, first, last, most) in [(BEFORE_COPIES, 0, 5, 15), (COPIES, 5, 7, 5)] {
        let (lo, hi, nodes) = extent_of(rt.alloc(), NESTED, part)?;
        assert!(rt; (lo, hi) == (first, last) && nodes <= most, "{first}");
    }
    Ok(())
}

// Each record of these puts a node at its path, with a node for each component.
#[test]
fn a_part_keeps_a_node_for_each_component_and_one_more(rt: HostRuntime) -> Result<(), Fail> {
    let second = Part { start: 1, end: 2 };
    for (part, wanted) in [(second, 3), (COPIES, 4), (BEFORE_COPIES, 14)] {
        let (_, _, nodes) = extent_of(rt.alloc(), NESTED, part)?;
        assert!(rt; nodes == wanted, "{wanted}: {nodes}");
    }
    Ok(())
}

// The fourth record of `MERGED` changes a file.
#[test]
fn a_change_without_mergeinfo_adds_no_node(rt: HostRuntime) -> Result<(), Fail> {
    for (start, end, wanted) in [(0, 3, 7), (0, 4, 7), (3, 4, 1)] {
        let (_, _, nodes) = extent_of(rt.alloc(), MERGED, Part { start, end })?;
        assert!(rt; nodes == wanted, "{end}: {nodes}");
    }
    Ok(())
}

// Whether a map says that after all records of `NESTED` a path has what stood at another one after so many.
fn finds_source(
    alloc: Global,
    dump: &Dump,
    map: &Map,
    path: &[u8],
    from: &[u8],
    at: u32,
) -> Result<bool, Fail> {
    let found = look(alloc, dump, map, 7, path)?;
    let is_found = finds(&found, alloc, dump, from, at, None);
    drop(found);
    is_found
}

// Whether it says of each path what the map of the records 6 and 7 should.
pub(crate) fn finds_sources(alloc: Global, dump: &Dump, map: &Map) -> Result<bool, Fail> {
    for (path, from, at) in [
        (b"/n/q/s".as_slice(), b"/p/q/s".as_slice(), 5),
        (b"/m/q/s", b"/p/q/s", 4),
        (b"/z", b"/z", 5),
    ] {
        if !finds_source(alloc, dump, map, path, from, at)? {
            return Ok(false);
        }
    }
    Ok(true)
}

// Whether that map does so.
fn copies_find_their_sources(alloc: Global, dump: &Dump) -> Result<bool, Fail> {
    let map = map_of(alloc, dump, COPIES)?;
    let found = finds_sources(alloc, dump, &map);
    drop(map);
    found
}

#[test]
fn a_part_names_where_its_paths_were_before_it(rt: HostRuntime) -> Result<(), Fail> {
    let dump = read(rt.alloc(), NESTED)?;
    let found = copies_find_their_sources(rt.alloc(), &dump);
    drop(dump);
    assert!(rt; found?);
    Ok(())
}

// Whether the records 6 to 9 of `DEEPER` leave at a path what stood at another one before them.
fn copies_of_copies_find(
    alloc: Global,
    dump: &Dump,
    path: &[u8],
    from: &[u8],
) -> Result<bool, Fail> {
    let found = look_in_part(alloc, dump, COPIES_OF_COPIES, 9, path)?;
    let is_found = finds(&found, alloc, dump, from, 5, None);
    drop(found);
    is_found
}

// Whether they do so at each path.
fn copies_of_copies_find_their_sources(alloc: Global, dump: &Dump) -> Result<bool, Fail> {
    for (path, from) in [
        (b"/q/d".as_slice(), b"/p/a/b/c/d".as_slice()),
        (b"/n", b"/p/a/b/c"),
        (b"/m/c/d", b"/p/a/b/c/d"),
    ] {
        if !copies_of_copies_find(alloc, dump, path, from)? {
            return Ok(false);
        }
    }
    Ok(true)
}

#[test]
fn a_part_names_where_copies_of_copies_were_before_it(rt: HostRuntime) -> Result<(), Fail> {
    let dump = read(rt.alloc(), DEEPER)?;
    let found = copies_of_copies_find_their_sources(rt.alloc(), &dump);
    drop(dump);
    assert!(rt; found?);
    Ok(())
}

#[test]
fn a_part_from_the_beginning_knows_its_paths(rt: HostRuntime) -> Result<(), Fail> {
    let dump = read(rt.alloc(), NESTED)?;
    let found = look_in_part(rt.alloc(), &dump, BEFORE_COPIES, 5, b"/p/q/s");
    drop(dump);
    let found = found?;
    let is_file = matches!(
        found,
        Found::Is {
            kind: Kind::File,
            mi: None
        }
    );
    drop(found);
    assert!(rt; is_file);
    Ok(())
}

// Whether the second record of `TWO_TEXTS` leaves at `a` what stood there, with the second text.
fn change_finds_the_second_text(alloc: Global, dump: &Dump) -> Result<bool, Fail> {
    let second = Part { start: 1, end: 2 };
    let found = look_in_part(alloc, dump, second, 2, b"/a")?;
    let is_found = finds(&found, alloc, dump, b"/a", 1, Some(ValueId(1)));
    drop(found);
    is_found
}

#[test]
fn a_part_names_mergeinfo_that_it_changes(rt: HostRuntime) -> Result<(), Fail> {
    let dump = read(rt.alloc(), TWO_TEXTS)?;
    let found = change_finds_the_second_text(rt.alloc(), &dump);
    drop(dump);
    assert!(rt; found?);
    Ok(())
}

// How many nodes the map of so many copies of the root keeps.
fn nodes_of_copies(alloc: Global, count: u32) -> Result<u64, Fail> {
    let text = copies_of_the_root(alloc, count)?;
    let dump = read(alloc, text.as_slice());
    drop(text);
    let dump = dump?;
    let end = count as usize;
    let found = extent(alloc, &dump, Part { start: 0, end });
    drop(dump);
    let (_, _, nodes) = found?;
    Ok(nodes)
}

#[test]
fn copies_of_the_root_share_their_nodes(rt: HostRuntime) -> Result<(), Fail> {
    for (count, most) in [(40, 81), (1000, 2001), (1100, 2201)] {
        assert!(rt; nodes_of_copies(rt.alloc(), count)? <= most, "{count}");
    }
    Ok(())
}

// Whether a lawful history has no faulty record, and no fault of record 6.
fn is_lawful<R: Threads + Sync>(rt: &R, alloc: Global, dump: &Dump) -> Result<bool, Fail> {
    let ends = revision_ends(alloc, dump)?;
    let is_lawful = is_lawful_with(rt, alloc, dump, &ends, 6);
    drop(ends);
    is_lawful
}

#[test]
fn a_lawful_history_has_no_faulty_record(rt: HostRuntime) -> Result<(), Fail> {
    let dump = read(rt.alloc(), NESTED)?;
    let is_lawful = is_lawful(&rt, rt.alloc(), &dump);
    drop(dump);
    assert!(rt; is_lawful?);
    Ok(())
}

// What stands at a path after record 8 of `MERGED`, and the nearest mergeinfo of it.
fn standing_in_merged(
    alloc: Global,
    path: &[u8],
) -> Result<(Option<Entry>, Option<Nearest>), Fail> {
    let dump = read(alloc, MERGED)?;
    let found = standing_at(alloc, &dump, 8, path);
    drop(dump);
    found
}

#[test]
fn a_map_from_the_beginning_has_entries_and_their_mergeinfo(rt: HostRuntime) -> Result<(), Fail> {
    let (entry, _) = standing_in_merged(rt.alloc(), b"/trunk")?;
    let (_, nearest) = standing_in_merged(rt.alloc(), b"/trunk/f")?;
    let mi = ValueId(0);
    let kind = Kind::Dir;
    assert_eq!(rt; entry, Some(Entry { kind, mi: Some(mi) }));
    assert_eq!(rt; nearest, Some(Nearest { mi, depth: 1 }));
    Ok(())
}
