//! All items of a list joined, one for each record of a history.
ghost use Rattle.std.specs.Prelude.{◌^◌, ◌<◌, IsTrue, length};
ghost use Rattle.std.specs.List.{sum_by};
ghost use Rattle.par_scan.specs.Chain.{Meet};

use par_scan::{Acts, total};
use path_index::Index;
use sample_dumps::copies_of_the_root;
use std::alloc::Global;
use std::test::Fail;
use std::thread::Threads;
use svn_dump::{Dump, NodeRecord, read};

// The most threads that may join at once.
const MOST_PARTS: usize = 64;

// Whether each item fits before the next one.
fn all_fit<M: Acts>(items: &[M]) -> bool
    ensures { IsTrue result → Meet M.begin M.end items.now }
{
    match items {
        [earlier, later, ..] => earlier.fits(later) && all_fit(&items[1..]),
        _ => true,
    }
}

// All items as one, if they fit and there are any. At most so many threads join at once.
pub(crate) fn total_of<R: Threads + Sync, M: Acts>(
    rt: &R,
    alloc: Global,
    items: Vec<M>,
    parts: usize,
) -> Result<M, Fail>
    requires light { sum_by M.weight items.items < 2 ^ 64 }
{
    if !all_fit(items.as_slice()) {
        return Err("the items do not fit")?;
    }
    match total(rt, alloc, items, parts.clamp(1, MOST_PARTS))? {
        Some(joined) => Ok(joined),
        None => Err("there are no items")?,
    }
}

// The index of each record.
fn single_indexes(alloc: Global, records: &[NodeRecord]) -> Result<Vec<Index>, Fail>
    requires { length records.now < 2 ^ 32 }
{
    let mut indexes = Vec::new(alloc);
    for first in 0..records.len() {
        let one = &records[first..first + 1];
        indexes.push(Index::build(alloc, one, first as u32)?)?;
    }
    Ok(indexes)
}

// Whether the index that is joined of these ends after all records.
fn ends_after_all<R: Threads + Sync>(rt: &R, alloc: Global, dump: &Dump) -> Result<bool, Fail> {
    let records = dump.records();
    let index = total_of(rt, alloc, single_indexes(alloc, records)?, 3)?;
    let next = Index::build(alloc, &[], records.len() as u32);
    let ends = match next {
        Ok(next) => Ok(index.fits(&next)),
        Err(e) => Err(e)?,
    };
    drop(index);
    ends
}

// Whether the index that is joined of those of the single records of so many copies ends after all of them.
fn indexes_are_joined<R: Threads + Sync>(rt: &R, alloc: Global, count: u32) -> Result<bool, Fail> {
    let text = copies_of_the_root(alloc, count)?;
    let dump = read(alloc, text.as_slice());
    drop(text);
    let dump = dump?;
    let found = ends_after_all(rt, alloc, &dump);
    drop(dump);
    found
}

#[test]
fn indexes_of_many_single_records_are_joined(rt: HostRuntime) -> Result<(), Fail> {
    for count in [40, 1100] {
        assert!(rt; indexes_are_joined(&rt, rt.alloc(), count)?, "{count}");
    }
    Ok(())
}
