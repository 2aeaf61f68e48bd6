//! Gates that watch the queries.
ghost use Rattle.std.specs.Prelude.{◌<◌, ◌≤◌};
ghost use Rattle.query_pool.specs.Serving.{most_workers};

use crate::workers::ten_times;
use query_pool::Gate;
use sample_dumps::{FIRST, MERGED};
use std::alloc::{AllocError, Global};
use std::random::RandomSource;
use std::sync::Wait;
use std::sync::atomic::{AtomicUsize, Ordering};
use std::test::Fail;
use std::thread::Threads;
use svn_report::{RunError, report};

// A gate that counts its calls, and those that came out of turn.
#[derive(Drop)]
struct Counting {
    entered: AtomicUsize,
    left: AtomicUsize,
    out_of_turn: AtomicUsize,
}

impl Gate for Counting {
    ghost use Rattle.std.specs.Prelude.{⊤};

    ghost watches = { λ _ _. ⊤ };

    fn enter(&self, place: u32) {
        let before = self.entered.fetch_add(1, Ordering::SeqCst);
        if before != place as usize || self.left.load(Ordering::SeqCst) != place as usize {
            self.out_of_turn.fetch_add(1, Ordering::SeqCst);
        }
    }

    fn leave(&self, place: u32) {
        let before = self.left.fetch_add(1, Ordering::SeqCst);
        if before != place as usize || self.entered.load(Ordering::SeqCst) != place as usize + 1 {
            self.out_of_turn.fetch_add(1, Ordering::SeqCst);
        }
    }
}

// These queries are answered in several batches.
#[test]
fn the_gate_is_called_around_each_query(rt: HostRuntime) -> Result<(), Fail> {
    let mut queries = Vec::new(rt.alloc());
    for _ in 0..20 {
        queries.extend_from_slice(b"locate\ttrunk@2\t1\n\nlog\tb@2\n")?;
    }
    let gate = Counting {
        entered: AtomicUsize::new(0),
        left: AtomicUsize::new(0),
        out_of_turn: AtomicUsize::new(0),
    };
    let _report = report(&rt, rt.alloc(), FIRST, queries.as_slice(), &[], 1, &gate)?;
    assert_eq!(rt; gate.left.load(Ordering::SeqCst), 60);
    assert_eq!(rt; gate.out_of_turn.load(Ordering::SeqCst), 0);
    Ok(())
}

// A gate that counts the calls for each place, and those that came out of turn.
#[derive(Drop)]
struct Places {
    calls: Vec<AtomicUsize>,
    out_of_turn: AtomicUsize,
}

impl Places {
    fn of(alloc: Global, count: u32) -> Result<Places, AllocError> {
        let mut calls = Vec::new(alloc);
        for _ in 0..count {
            calls.push(AtomicUsize::new(0))?;
        }
        Ok(Places {
            calls,
            out_of_turn: AtomicUsize::new(0),
        })
    }

    // Counts a call for a place that had so many before.
    fn count(&self, place: u32, wanted: usize) {
        if let Some(calls) = self.calls.get(place as usize) {
            if calls.fetch_add(1, Ordering::SeqCst) == wanted {
                return;
            }
        }
        self.out_of_turn.fetch_add(1, Ordering::SeqCst);
    }

    // Whether each place was entered once, and then left once.
    fn are_done(&self) -> bool {
        self.out_of_turn.load(Ordering::SeqCst) == 0
            && self
                .calls
                .iter()
                .all(|calls| calls.load(Ordering::SeqCst) == 2)
    }
}

impl Gate for Places {
    ghost use Rattle.std.specs.Prelude.{⊤};

    ghost watches = { λ _ _. ⊤ };

    fn enter(&self, place: u32) {
        self.count(place, 0);
    }

    fn leave(&self, place: u32) {
        self.count(place, 1);
    }
}

// Whether so many workers enter and leave each of 190 places.
fn are_passed<R: RandomSource + Threads + Wait + Sync>(
    rt: &R,
    alloc: Global,
    queries: &[u8],
    workers: usize,
) -> Result<bool, RunError>
    requires some_worker { 0 < workers }
    requires few_workers { workers ≤ most_workers }
{
    let gate = Places::of(alloc, 190)?;
    let report = report(rt, alloc, MERGED, queries, &[], workers, &gate)?;
    drop(report);
    Ok(gate.are_done())
}

// There are several batches for each number of workers.
#[test]
fn each_place_is_entered_once_and_then_left_once(rt: HostRuntime) -> Result<(), Fail> {
    let queries = ten_times(rt.alloc())?;
    for workers in [1, 2, 3, 8] {
        assert!(rt;
            are_passed(&rt, rt.alloc(), queries.as_slice(), workers)?,
            "{workers}"
        );
    }
    Ok(())
}
