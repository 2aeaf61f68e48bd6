//! Histories with a faulty record.
ghost use Rattle.std.specs.Prelude.{◌<◌, ◌≤◌, All};
ghost use Rattle.query_pool.specs.Serving.{most_workers};

use block_map::{Fault, FaultKind};
use query_pool::NoGate;
use sample_dumps::{
    EXISTS, MISSING, NO_PARENT, NO_PARENT_OF_COPY, NO_SOURCE, REPLACED_BY_NOTHING, REPLACES_NOTHING,
};
use std::alloc::Global;
use std::random::RandomSource;
use std::sync::Wait;
use std::thread::Threads;
use svn_report::{RunError, report};

fn fault_of<R: RandomSource + Threads + Wait + Sync>(
    rt: &R,
    alloc: Global,
    dump: &[u8],
    cuts: &[u32],
    workers: usize,
) -> Option<Fault>
    requires cuts { All (λ length. 0 < length) cuts.now }
    requires some_worker { 0 < workers }
    requires few_workers { workers ≤ most_workers }
{
    match report(rt, alloc, dump, b"", cuts, workers, &NoGate) {
        Err(RunError::Fault(fault)) => Some(fault),
        _ => None,
    }
}

// Dumps with a faulty record, its number and its first fault.
const FAULTY: [(&[u8], u32, FaultKind); 7] = [
    (NO_PARENT, 2, FaultKind::NoParent),
    (EXISTS, 2, FaultKind::Exists),
    (MISSING, 1, FaultKind::Missing),
    (NO_SOURCE, 1, FaultKind::NoSource),
    (NO_PARENT_OF_COPY, 1, FaultKind::NoParent),
    (REPLACES_NOTHING, 1, FaultKind::Missing),
    (REPLACED_BY_NOTHING, 2, FaultKind::NoSource),
];

// Whether each dump is refused for its first faulty record.
fn all_are_named<R: RandomSource + Threads + Wait + Sync>(
    rt: &R,
    alloc: Global,
    cuts: &[u32],
    workers: usize,
) -> bool
    requires cuts { All (λ length. 0 < length) cuts.now }
    requires some_worker { 0 < workers }
    requires few_workers { workers ≤ most_workers }
{
    for (dump, number, kind) in FAULTY {
        if fault_of(rt, alloc, dump, cuts, workers) != Some(Fault { number, kind }) {
            return false;
        }
    }
    true
}

#[test]
fn every_cutting_names_the_first_faulty_record(rt: HostRuntime) {
    for workers in [1, 2, 3, 8, 64] {
        for cuts in [[].as_slice(), &[1], &[2, 1], &[3]] {
            assert!(rt; all_are_named(&rt, rt.alloc(), cuts, workers), "{workers}");
        }
    }
}
