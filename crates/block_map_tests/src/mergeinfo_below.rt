//! Whether paths below a path may have mergeinfo, by a map of two parts of a history.
ghost use Rattle.block_map.specs.Map.{IsMapOf};

use crate::joins::map_of_both;
use crate::maps::path_of;
use block_map::Map;
use revision_ends::revision_ends;
use sample_dumps::MERGED;
use std::alloc::Global;
use std::test::Fail;
use svn_dump::{Dump, read};

// Whether a path may have mergeinfo below it after all records.
fn may_have(alloc: Global, dump: &Dump, map: &Map, path: &[u8]) -> Result<bool, Fail>
    requires { IsMapOf dump.now map.now }
{
    let path = path_of(alloc, dump, path)?;
    let may = map.may_have_mergeinfo_below(map.hi(), &path);
    drop(path);
    Ok(may?)
}

// That by the map that is joined of that of the first five records and that of the others.
fn may_have_in_both(alloc: Global, dump: &Dump, path: &[u8]) -> Result<bool, Fail> {
    let ends = revision_ends(alloc, dump)?;
    let map = map_of_both(alloc, dump, &ends, 5);
    drop(ends);
    let map = map?;
    let may = may_have(alloc, dump, &map, path);
    drop(map);
    may
}

#[test]
fn a_path_above_mergeinfo_may_have_some_and_one_with_its_own_alone_has_none(
    rt: HostRuntime,
) -> Result<(), Fail> {
    let dump = read(rt.alloc(), MERGED)?;
    for (path, wanted) in [(b"/".as_slice(), true), (b"/trunk", false)] {
        let may = may_have_in_both(rt.alloc(), &dump, path)?;
        assert!(rt; may == wanted);
    }
    drop(dump);
    Ok(())
}
