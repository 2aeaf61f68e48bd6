//! Jobs of which one call fails.
ghost use Rattle.std.specs.Prelude.{◌<◌, ◌≤◌};
ghost use Rattle.query_pool.specs.Serving.{most_workers};

use query_pool::{Job, NoGate, serve};
use std::alloc::{AllocError, Global};
use std::sync::Wait;
use std::thread::Threads;
use test_calls::Calls;

// A job whose calls are counted.
#[derive(Drop)]
struct Counted {
    states: Calls,
    runs: Calls,
}

impl Job for Counted {
    ghost use Rattle.std.specs.Prelude.{⊤};

    type Out = ();

    type State = ();

    ghost has = { λ job place. ⊤ };

    ghost lawful = { λ job state. ⊤ };

    ghost gives = { λ job place found. ⊤ };

    fn state(&self) -> Result<(), AllocError> {
        self.states.call()
    }

    fn run(&self, _place: u32, _state: &mut ()) -> Result<(), AllocError> {
        self.runs.call()
    }
}

// Whether serving nine places fails where one of these calls does, after all calls have ended.
fn serves<R: Threads + Wait + Sync>(
    rt: &R,
    alloc: Global,
    workers: usize,
    job: &Counted,
    fails: bool,
) -> bool
    requires some_worker { 0 < workers }
    requires few_workers { workers ≤ most_workers }
{
    let has_failed = serve(rt, alloc, job, 9, workers, &NoGate).is_err();
    has_failed == fails && job.states.have_ended() && job.runs.have_ended()
}

#[test]
fn a_failed_run_is_answered_after_all_runs(rt: HostRuntime) {
    for workers in [1, 3] {
        for failing in 0..=9 {
            let job = Counted {
                states: Calls::of(usize::MAX),
                runs: Calls::of(failing),
            };
            assert!(rt;
                serves(&rt, rt.alloc(), workers, &job, failing < 9),
                "{workers} {failing}"
            );
        }
    }
}

// A worker whose state fails serves no place.
#[test]
fn a_failed_state_is_answered_after_all_runs(rt: HostRuntime) {
    for workers in [1, 3] {
        for failing in 0..=workers {
            let job = Counted {
                states: Calls::of(failing),
                runs: Calls::of(usize::MAX),
            };
            assert!(rt;
                serves(&rt, rt.alloc(), workers, &job, failing < workers),
                "{workers} {failing}"
            );
        }
    }
}
