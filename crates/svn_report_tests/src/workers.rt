//! Reports by several workers.
ghost use Rattle.std.specs.Prelude.{◌<◌, ◌≤◌};
ghost use Rattle.query_pool.specs.Serving.{most_workers};

use crate::meetings::Meeting;
use crate::reports::report_of;
use query_pool::NoGate;
use sample_dumps::MERGED;
use std::alloc::{AllocError, Global};
use std::random::RandomSource;
use std::sync::Wait;
use std::test::Fail;
use std::thread::Threads;
use svn_report::{RunError, report};

/// Queries of all verbs, about the merged history.
pub const QUERIES: &[u8] =
    b"segments\t/branches/b@8\nlog\t/branches/b@8\nlog\t/@10\nlocate\t/branches/b@8\t3\nlocate\t/branches/b@8\t2\nlocate\t/branches/b@8\t0\nlocate\t/branches/b@8\t9\nlocate\t/branches/b@8\t8\neligible\t/branches/b@8\t/trunk@6\neligible\t/branches/b@8\t/trunk@8\nmerged\t/branches/b@8\t/trunk@8\neligible\t/trunk@8\t/branches/b@8\neligible\t/trunk@8\t/trunk@8\nmergeinfo\t/branches@9\nmergeinfo\t/branches/b@9\nmergeinfo\t/branches/b@10\nmergeinfo\t/trunk@6\nmerged\t/trunk@9\t/branches@9\neligible\t/trunk@9\t/branches@9\n";

/// These queries ten times.
pub(crate) fn ten_times(alloc: Global) -> Result<Vec<u8>, AllocError> {
    let mut all = Vec::new(alloc);
    for _ in 0..10 {
        all.extend_from_slice(QUERIES)?;
    }
    Ok(all)
}

// Whether so many workers give this report, however the history is cut into blocks.
fn is_report_of_workers<R: RandomSource + Threads + Wait + Sync>(
    rt: &R,
    alloc: Global,
    queries: &[u8],
    workers: usize,
    wanted: &[u8],
) -> Result<bool, RunError>
    requires some_worker { 0 < workers }
    requires few_workers { workers ≤ most_workers }
{
    for cuts in [[].as_slice(), &[1], &[2, 1], &[3]] {
        let found = report(rt, alloc, MERGED, queries, cuts, workers, &NoGate)?;
        if found.as_slice() != wanted {
            return Ok(false);
        }
    }
    Ok(true)
}

#[test]
fn all_workers_and_blocks_give_the_same_report(rt: HostRuntime) -> Result<(), Fail> {
    let queries = ten_times(rt.alloc())?;
    let wanted = report_of(&rt, rt.alloc(), MERGED, queries.as_slice())?;
    assert_eq!(rt; wanted.len(), 3662);
    for workers in [1, 2, 3, 8, 64] {
        assert!(rt;
            is_report_of_workers(
                &rt,
                rt.alloc(),
                queries.as_slice(),
                workers,
                wanted.as_slice()
            )?,
            "{workers}"
        );
    }
    Ok(())
}

// Whether so many workers, which all meet at the gate from a place on, give the report of one.
fn answer_at_once<R: RandomSource + Threads + Wait + Sync>(
    rt: &R,
    alloc: Global,
    queries: &[u8],
    workers: usize,
    first: u32,
) -> Result<bool, RunError>
    requires some_worker { 0 < workers }
    requires few_workers { workers ≤ most_workers }
{
    let wanted = report_of(rt, alloc, MERGED, queries)?;
    let gate = Meeting::of(first, workers);
    Ok(reports_through(rt, alloc, queries, workers, &gate, wanted.as_slice())? && gate.all_met())
}

// Whether the report is this one, with so many workers and a gate.
fn reports_through<R: RandomSource + Threads + Wait + Sync>(
    rt: &R,
    alloc: Global,
    queries: &[u8],
    workers: usize,
    gate: &Meeting,
    wanted: &[u8],
) -> Result<bool, RunError>
    requires some_worker { 0 < workers }
    requires few_workers { workers ≤ most_workers }
{
    let found = report(rt, alloc, MERGED, queries, &[], workers, gate)?;
    Ok(found.as_slice() == wanted)
}

// A lock that is held while a query is answered, or a single thread, makes these fail.
#[test]
fn two_workers_answer_at_once(rt: HostRuntime) -> Result<(), Fail> {
    let queries = b"segments\t/trunk@8\nsegments\t/trunk@8\nsegments\t/trunk@8\n";
    assert!(rt; answer_at_once(&rt, rt.alloc(), queries, 2, 1)?);
    Ok(())
}

#[test]
fn all_workers_answer_at_once(rt: HostRuntime) -> Result<(), Fail> {
    let queries = ten_times(rt.alloc())?;
    for workers in [2, 3, 8] {
        assert!(rt;
            answer_at_once(&rt, rt.alloc(), queries.as_slice(), workers, 0)?,
            "{workers}"
        );
    }
    Ok(())
}

// The places from the second batch on.
#[test]
fn workers_answer_later_batches_at_once(rt: HostRuntime) -> Result<(), Fail> {
    let queries = ten_times(rt.alloc())?;
    assert!(rt; answer_at_once(&rt, rt.alloc(), queries.as_slice(), 2, 40)?);
    assert!(rt; answer_at_once(&rt, rt.alloc(), queries.as_slice(), 8, 130)?);
    Ok(())
}
