//! The repository of a dump.
ghost use Rattle.std.specs.Prelude.{◌≡◌, ℕ, ◌<◌, ◌≤◌, All, IfErr, IfOk, None, OnOk, bytes_eq, length};
ghost use Rattle.svn_path.specs.Path.{same_name};
ghost use Rattle.svn_dump.specs.Dump.{IsDump, history_in_bytes, history_view};
ghost use Rattle.svn_dump.specs.Fault.{first_fault};
ghost use Rattle.svn_dump.specs.State.{fault_of_next_record};
ghost use Rattle.path_index.specs.Index.{IndexValue};
ghost use Rattle.block_map.specs.Ends.{ends_of};
ghost use Rattle.block_map.specs.Map.{IsMapOf};
ghost use denote.Param.Send.{IsSync};
ghost use Rattle.svn_report.specs.Blocks.{AreBorders, IsIndexOf};
ghost use Rattle.svn_report.specs.LoadRepo.{AreOfDumpBefore, IsLoadError};
ghost use Rattle.query_pool.specs.Serving.{most_workers};

use crate::block_indexes::index_of;
use crate::block_maps::map_of;
use crate::record_borders::{record_borders, record_ends};
use block_map::{Ends, Fault, Map, check_from};
use path_index::Index;
use query_answer::Repo;
use query_pool::Workers;
use std::alloc::{AllocError, Global};
use std::thread::{self, Threads};
use svn_dump::Dump;
use thiserror::Error;

/// Why a dump has no repository.
#[derive(Debug, Drop, Error)]
pub enum LoadError {
    #[error("dump refused: {number} {name} at record {record}", number = .0.kind.number(), name = .0.kind.name(), record = .0.number)]
    Fault(Fault),
    #[error("out of memory")]
    Memory,
}

impl From<AllocError> for LoadError {
    ghost use Rattle.std.specs.Prelude.{◌≡◌};
    ghost use Rattle.svn_report.specs.declared.repository.LoadError.TheVariants.{Memory};

    ghost from_gives = { λ _ e. e ≡ Memory };

    fn from(_e: AllocError) -> LoadError {
        LoadError::Memory
    }
}

/// The repository of a dump, or its first faulty record.
///
/// The maps of blocks are made and joined by `workers` threads and, if these are several, the indexes at the same time
/// by as many others. Blocks take whole revisions from 1 on by the lengths `cuts` in turn; the last length is repeated,
/// and no lengths mean one block. Neighbouring blocks are taken together so that there are at most as many as workers.
pub fn load_repo<R: Threads + Sync>(
    rt: &R,
    alloc: Global,
    dump: Dump,
    cuts: &[u32],
    workers: usize,
) -> Result<Repo, LoadError>
    requires cuts { All (λ length. 0 < length) cuts.now }
    requires some_worker { 0 < workers }
    requires few_workers { workers ≤ most_workers }
    ensures repo { IfOk result (λ repo. repo ≡ dump) }
    ensures lawful { OnOk result (first_fault bytes_eq (history_in_bytes dump) ≡ None) }
    ensures faulty { IfErr result (IsLoadError dump) }
{
    let workers = Workers { count: workers };
    let sums = record_ends(rt, alloc, &dump, workers)?;
    let borders = record_borders(alloc, &dump, sums.as_slice(), cuts, workers)?;
    let ends = Ends::new(sums);
    let (map, index) = map_and_index(rt, alloc, &dump, &ends, borders.as_slice(), workers)?;
    Ok(Repo::new(dump, index, map, ends))
}

/// The repository of a dump that has grown, or its first faulty record. The index and the map are those of the dump
/// before: they take the records that came since, and only these are checked, by `workers` threads.
pub fn grow_repo<R: Threads + Sync>(
    rt: &R,
    alloc: Global,
    dump: Dump,
    index: Index,
    map: Map,
    workers: usize,
) -> Result<Repo, LoadError>
    requires before { AreOfDumpBefore dump index map }
    requires some_worker { 0 < workers }
    requires few_workers { workers ≤ most_workers }
    ensures repo { IfOk result (λ repo. repo ≡ dump) }
    ensures lawful { OnOk result (first_fault bytes_eq (history_in_bytes dump) ≡ None) }
    ensures faulty { IfErr result (IsLoadError dump) }
{
    let workers = Workers { count: workers };
    let (ends, map, index) = grown_parts(rt, alloc, &dump, index, map, workers)?;
    Ok(Repo::new(dump, index, map, ends))
}

/// The ends of the revisions, the map and the index of a dump that has grown, or its first faulty record.
fn grown_parts<R: Threads + Sync>(
    rt: &R,
    alloc: Global,
    dump: &Dump,
    index: Index,
    map: Map,
    workers: Workers,
) -> Result<(Ends, Map, Index), LoadError>
    requires before { AreOfDumpBefore dump.now index map }
    ensures ends { IfOk result (λ parts. parts.0 ≡ ends_of dump.now.counts) }
    ensures map { IfOk result (λ parts. IsMapOf dump.now parts.1) }
    ensures index { IfOk result (λ parts. IsIndexOf dump.now.records parts.2) }
    ensures lawful { OnOk result (first_fault same_name (history_view dump.now) ≡ None) }
    ensures faulty { IfErr result (IsLoadError dump.now) }
    ensures kept { IsDump dump.now }
{
    let ends = Ends::new(record_ends(rt, alloc, dump, workers)?);
    let known = map.hi();
    let map = grown_map(rt, dump, &ends, map)?;
    let (_, records) = dump.records().split_at(known as usize);
    let index = index.grow(records)?;
    Ok((ends, map, index))
}

/// The map of all records of a dump that has grown, or its first faulty record. The map is that of the dump before, and
/// the revisions of the dump end as these say.
fn grown_map<R: Threads + Sync>(
    rt: &R,
    dump: &Dump,
    ends: &Ends,
    map: Map,
) -> Result<Map, LoadError>
    requires before { (index : IndexValue) × AreOfDumpBefore dump.now index map }
    requires ends { ends.now ≡ ends_of dump.now.counts }
    ensures map { IfOk result (IsMapOf dump.now) }
    ensures lawful { OnOk result (first_fault same_name (history_view dump.now) ≡ None) }
    ensures faulty { IfErr result (IsLoadError dump.now) }
{
    let known = map.hi();
    let (_, records) = dump.records().split_at(known as usize);
    let map = map.grow(records, ends)?;
    refuse_fault(rt, &map, dump, ends, known)?;
    Ok(map)
}

/// The map and the index of all records of a dump, or its first faulty record. If there are several workers, so many
/// threads make the one, and as many make the other at the same time. The revisions of the dump end as these say.
fn map_and_index<R: Threads + Sync>(
    rt: &R,
    alloc: Global,
    dump: &Dump,
    ends: &Ends,
    borders: &[usize],
    workers: Workers,
) -> Result<(Map, Index), LoadError>
    requires ends { ends.now ≡ ends_of dump.now.counts }
    requires borders { AreBorders 0 (length dump.now.records) borders.now }
    ensures map { IfOk result (λ both. IsMapOf dump.now both.0) }
    ensures index { IfOk result (λ both. IsIndexOf dump.now.records both.1) }
    ensures lawful { OnOk result (first_fault same_name (history_view dump.now) ≡ None) }
    ensures faulty { IfErr result (IsLoadError dump.now) }
{
    if workers.count == 1 {
        let map = lawful_map(rt, alloc, dump, ends, borders, workers)?;
        let index = index_of(rt, alloc, dump, borders, workers)?;
        return Ok((map, index));
    }
    let indexing = move || -> Result<Index, AllocError>
        requires { IsSync R.row × AreBorders 0 (length dump.now.records) borders.now }
        ensures { IfOk result (IsIndexOf dump.entry.now.records) }
    { index_of(rt, alloc, dump, borders, workers) };
    let mapping = move || -> Result<Map, LoadError>
        requires { IsSync R.row × (ends.now ≡ ends_of dump.now.counts)
            × AreBorders 0 (length dump.now.records) borders.now }
        ensures { IfOk result (IsMapOf dump.entry.now)
            × OnOk result (first_fault same_name (history_view dump.entry.now) ≡ None)
            × IfErr result (IsLoadError dump.entry.now) }
    { lawful_map(rt, alloc, dump, ends, borders, workers) };
    let (index, map) = thread::join(rt, indexing, mapping);
    let map = map?;
    Ok((map, index?))
}

/// The map of all records of a dump, or its first faulty record. The revisions of the dump end as these say.
fn lawful_map<R: Threads + Sync>(
    rt: &R,
    alloc: Global,
    dump: &Dump,
    ends: &Ends,
    borders: &[usize],
    workers: Workers,
) -> Result<Map, LoadError>
    requires ends { ends.now ≡ ends_of dump.now.counts }
    requires borders { AreBorders 0 (length dump.now.records) borders.now }
    ensures map { IfOk result (λ map. IsMapOf dump.now map) }
    ensures lawful { OnOk result (first_fault same_name (history_view dump.now) ≡ None) }
    ensures faulty { IfErr result (IsLoadError dump.now) }
{
    let map = map_of(rt, alloc, dump, ends, borders, workers)?;
    refuse_fault(rt, &map, dump, ends, 0)?;
    Ok(map)
}

/// The first faulty record of a dump, if there is one, as an error. The first `checked` records have no fault.
fn refuse_fault<R: Threads + Sync>(
    rt: &R,
    map: &Map,
    dump: &Dump,
    ends: &Ends,
    checked: u32,
) -> Result<(), LoadError>
    requires dump { IsDump dump.now }
    requires map { IsMapOf dump.now map.now }
    requires ends { ends.now ≡ ends_of dump.now.counts }
    requires checked { (index : ℕ) → index < checked
        → fault_of_next_record same_name (history_view dump.now) index ≡ None }
    ensures lawful { OnOk result (first_fault same_name (history_view dump.now) ≡ None) }
    ensures faulty { IfErr result (IsLoadError dump.now) }
{
    match check_from(rt, map, dump, ends, checked)? {
        Some(fault) => Err(LoadError::Fault(fault)),
        None => Ok(()),
    }
}
