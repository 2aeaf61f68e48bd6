//! Reports with different seeds.

use crate::workers::QUERIES;
use query_pool::NoGate;
use sample_dumps::MERGED;
use std::alloc::Global;
use std::random::RandomSource;
use std::sync::Wait;
use std::test::Fail;
use std::thread::Threads;
use svn_report::{RunError, report};

// Whether the report is this one. Each report has a random seed of its own.
fn is_report<R: RandomSource + Threads + Wait + Sync>(
    rt: &R,
    alloc: Global,
    wanted: &[u8],
) -> Result<bool, RunError> {
    let report = report(rt, alloc, MERGED, QUERIES, &[2], 2, &NoGate)?;
    Ok(report.as_slice() == wanted)
}

#[test]
fn the_seed_does_not_show_in_the_report(rt: HostRuntime) -> Result<(), Fail> {
    let wanted = report(&rt, rt.alloc(), MERGED, QUERIES, &[2], 2, &NoGate)?;
    for _ in 0..100 {
        assert!(rt; is_report(&rt, rt.alloc(), wanted.as_slice())?);
    }
    Ok(())
}
