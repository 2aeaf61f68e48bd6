//! The repository of a small dump.
ghost use Rattle.std.specs.Prelude.{◌≡◌, None, IfOk, OnOk};
ghost use Rattle.svn_path.specs.Path.{same_name};
ghost use Rattle.svn_dump.specs.Dump.{history_view};
ghost use Rattle.svn_dump.specs.Fault.{first_fault};
ghost use Rattle.block_map.specs.Ends.{ends_of};
ghost use Rattle.block_map.specs.Map.{IsMapOf};

use block_map::{Ends, Map, check};
use path_index::Index;
use query_answer::Repo;
use revision_ends::revision_ends;
use std::alloc::Global;
use std::test::Fail;
use std::thread::Threads;
use svn_dump::{Dump, read};

/// The map of a dump of a lawful history.
fn map_of<R: Threads + Sync>(rt: &R, alloc: Global, dump: &Dump, ends: &Ends) -> Result<Map, Fail>
    requires { ends.now ≡ ends_of dump.now.counts }
    ensures map { IfOk result (λ map. IsMapOf dump.now map) }
    ensures lawful { OnOk result (first_fault same_name (history_view dump.now) ≡ None) }
{
    let map = Map::build(alloc, dump.records(), 0, ends)?;
    match check(rt, &map, dump, ends) {
        Ok(None) => Ok(map),
        _ => {
            drop(map);
            Err("no lawful history")?
        }
    }
}

fn with_ends<R: Threads + Sync>(
    rt: &R,
    alloc: Global,
    dump: Dump,
    index: Index,
    ends: Ends,
) -> Result<Repo, Fail>
    requires records { index.records ≡ dump.records }
    requires first { index.first ≡ 0 }
    requires ends { ends ≡ ends_of dump.counts }
{
    match map_of(rt, alloc, &dump, &ends) {
        Ok(map) => Ok(Repo::new(dump, index, map, ends)),
        Err(e) => {
            drop(dump);
            drop(index);
            drop(ends);
            Err(e)
        }
    }
}

/// The repository of a dump with an index of its records.
pub(crate) fn with_index<R: Threads + Sync>(
    rt: &R,
    alloc: Global,
    dump: Dump,
    index: Index,
) -> Result<Repo, Fail>
    requires records { index.records ≡ dump.records }
    requires first { index.first ≡ 0 }
{
    match revision_ends(alloc, &dump) {
        Ok(ends) => with_ends(rt, alloc, dump, index, ends),
        Err(e) => {
            drop(dump);
            drop(index);
            Err(e)?
        }
    }
}

/// The repository of the dump that the bytes are.
pub(crate) fn repo_of<R: Threads + Sync>(
    rt: &R,
    alloc: Global,
    bytes: &[u8],
) -> Result<Repo, Fail> {
    let dump = read(alloc, bytes)?;
    match Index::build(alloc, dump.records(), 0) {
        Ok(index) => with_index(rt, alloc, dump, index),
        Err(e) => {
            drop(dump);
            Err(e)?
        }
    }
}
