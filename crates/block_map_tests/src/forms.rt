//! What maps say, told apart by its form, and what the map of the first five records of `NESTED` says that is joined
//! with the map of the last two.

use crate::joins::{copy_after_unit, joined};
use crate::maps::{BEFORE_COPIES, COPIES, Part, look, map_of, path_of};
use block_map::{Entry, Found, Map};
use sample_dumps::{NESTED, TWO_TEXTS};
use std::alloc::Global;
use std::test::Fail;
use svn_dump::{Dump, Kind, ValueId, read};

// What a map says of a path, but for the path of a location.
#[derive(Clone, Copy, Debug, PartialEq, Eq)]
pub(crate) enum Form {
    At(u32),
    AtWith(u32, Option<ValueId>),
    Is(Kind, Option<ValueId>),
    Absent,
}

fn form_of(found: &Found) -> Form {
    match found {
        Found::At { tick, .. } => Form::At(*tick),
        Found::AtWith { tick, mi, .. } => Form::AtWith(*tick, *mi),
        Found::Is { kind, mi } => Form::Is(*kind, *mi),
        Found::Absent => Form::Absent,
    }
}

// The form of what a map says of a path after so many records.
pub(crate) fn form_at(
    alloc: Global,
    dump: &Dump,
    map: &Map,
    tick: u32,
    path: &[u8],
) -> Result<Form, Fail> {
    let found = look(alloc, dump, map, tick, path)?;
    let form = form_of(&found);
    drop(found);
    Ok(form)
}

// The forms of what a map says of some paths of `NESTED` after all records.
fn nested_forms(alloc: Global, dump: &Dump, map: &Map) -> Result<[Form; 3], Fail> {
    Ok([
        form_at(alloc, dump, map, 7, b"/n/q")?,
        form_at(alloc, dump, map, 7, b"/n/q/s")?,
        form_at(alloc, dump, map, 7, b"/m/q/s")?,
    ])
}

// What the map of the last two records says of them.
fn forms_of_copies(alloc: Global, dump: &Dump) -> Result<[Form; 3], Fail> {
    let map = map_of(alloc, dump, COPIES)?;
    let forms = nested_forms(alloc, dump, &map);
    drop(map);
    forms
}

#[test]
fn a_part_says_at_of_what_its_records_leave(rt: HostRuntime) -> Result<(), Fail> {
    let dump = read(rt.alloc(), NESTED)?;
    let forms = forms_of_copies(rt.alloc(), &dump);
    drop(dump);
    assert!(rt; forms? == [Form::At(5), Form::At(5), Form::At(4)]);
    Ok(())
}

// Whether the copy of a map after its unit says the same of these paths.
fn copy_says_the_same(alloc: Global, dump: &Dump, map: &Map) -> Result<bool, Fail> {
    let (copy, _) = copy_after_unit(map)?;
    let forms = nested_forms(alloc, dump, &copy);
    drop(copy);
    Ok(forms? == nested_forms(alloc, dump, map)?)
}

fn copy_of_copies_says_the_same(alloc: Global, dump: &Dump) -> Result<bool, Fail> {
    let map = map_of(alloc, dump, COPIES)?;
    let says_the_same = copy_says_the_same(alloc, dump, &map);
    drop(map);
    says_the_same
}

#[test]
fn a_copy_after_its_unit_says_what_the_map_says(rt: HostRuntime) -> Result<(), Fail> {
    let dump = read(rt.alloc(), NESTED)?;
    let says_the_same = copy_of_copies_says_the_same(rt.alloc(), &dump);
    drop(dump);
    assert!(rt; says_the_same?);
    Ok(())
}

// The form of what the second record of `TWO_TEXTS` leaves at `a`.
fn form_of_change(alloc: Global, dump: &Dump) -> Result<Form, Fail> {
    let map = map_of(alloc, dump, Part { start: 1, end: 2 })?;
    let form = form_at(alloc, dump, &map, 2, b"/a");
    drop(map);
    form
}

#[test]
fn a_part_says_at_with_of_mergeinfo_that_it_changes(rt: HostRuntime) -> Result<(), Fail> {
    let dump = read(rt.alloc(), TWO_TEXTS)?;
    let form = form_of_change(rt.alloc(), &dump);
    drop(dump);
    assert!(rt; form? == Form::AtWith(1, Some(ValueId(1))));
    Ok(())
}

// The map of the last two records after this one, as one, and how many nodes it has alone.
fn with_copies(alloc: Global, dump: &Dump, earlier: &Map) -> Result<(Map, u64), Fail> {
    let later = map_of(alloc, dump, COPIES)?;
    let nodes = later.nodes();
    let both = joined(earlier, &later);
    drop(later);
    Ok((both?, nodes))
}

// The map of the first five records joined with that of the last two, and how many nodes these have.
fn nested_map(alloc: Global, dump: &Dump) -> Result<(Map, [u64; 2]), Fail> {
    let earlier = map_of(alloc, dump, BEFORE_COPIES)?;
    let nodes = earlier.nodes();
    let both = with_copies(alloc, dump, &earlier);
    drop(earlier);
    let (both, more) = both?;
    Ok((both, [nodes, more]))
}

// How many nodes they have, and how many the joined map has.
fn nodes_of_nested(alloc: Global, dump: &Dump) -> Result<([u64; 2], u64), Fail> {
    let (map, apart) = nested_map(alloc, dump)?;
    let nodes = map.nodes();
    drop(map);
    Ok((apart, nodes))
}

#[test]
fn a_joined_map_keeps_the_nodes_of_both(rt: HostRuntime) -> Result<(), Fail> {
    let dump = read(rt.alloc(), NESTED)?;
    let nodes = nodes_of_nested(rt.alloc(), &dump);
    drop(dump);
    assert!(rt; nodes? == ([14, 4], 18));
    Ok(())
}

fn forms_of_nested(alloc: Global, dump: &Dump) -> Result<[Form; 3], Fail> {
    let (map, _) = nested_map(alloc, dump)?;
    let forms = nested_forms(alloc, dump, &map);
    drop(map);
    forms
}

#[test]
fn a_joined_map_knows_what_its_later_part_leaves(rt: HostRuntime) -> Result<(), Fail> {
    let dump = read(rt.alloc(), NESTED)?;
    let forms = forms_of_nested(rt.alloc(), &dump);
    drop(dump);
    let [dir, file] = [Kind::Dir, Kind::File].map(|kind| Form::Is(kind, None));
    assert!(rt; forms? == [dir, file, Form::Absent]);
    Ok(())
}

// What stands at a path at the end of a map from the beginning.
fn last_entry(alloc: Global, dump: &Dump, map: &Map, path: &[u8]) -> Result<Option<Entry>, Fail> {
    if map.lo() != 0 {
        return Err("the map is not from the beginning")?;
    }
    let path = path_of(alloc, dump, path)?;
    let entry = map.entry(map.hi(), &path);
    drop(path);
    Ok(entry?)
}

fn entry_of_nested(alloc: Global, dump: &Dump) -> Result<Option<Entry>, Fail> {
    let (map, _) = nested_map(alloc, dump)?;
    let entry = last_entry(alloc, dump, &map, b"/n/q");
    drop(map);
    entry
}

#[test]
fn a_directory_of_a_copy_stands_in_a_joined_map(rt: HostRuntime) -> Result<(), Fail> {
    let dump = read(rt.alloc(), NESTED)?;
    let entry = entry_of_nested(rt.alloc(), &dump);
    drop(dump);
    let kind = Kind::Dir;
    assert!(rt; entry? == Some(Entry { kind, mi: None }));
    Ok(())
}
