//! Serving places.
ghost use Rattle.std.specs.Prelude.{ℕ, ◌<◌, ◌≤◌};
ghost use Rattle.query_pool.specs.Serving.{most_workers};

use query_pool::{Gate, Job, MOST_PLACES, MOST_WORKERS, NoGate, Part, gather, serve};
use std::alloc::{AllocError, Global};
use std::sync::Wait;
use std::sync::atomic::{AtomicUsize, Ordering};
use std::test::Fail;
use std::thread::Threads;
use test_calls::Meeting;

// How often a call looks for the others.
const MOST_LOOKS: u32 = 100_000_000;

// A job whose calls at the places from `first` on wait for each other. Its results are the places.
#[derive(Drop)]
struct Attending {
    first: u32,
    meeting: Meeting,
}

impl Attending {
    fn of(first: u32, wanted: usize) -> Attending {
        Attending {
            first,
            meeting: Meeting::of(wanted, MOST_LOOKS),
        }
    }
}

impl Job for Attending {
    ghost use Rattle.std.specs.Prelude.{◌≡◌, ⊤};

    type Out = u32;

    type State = ();

    ghost has = { λ job place. ⊤ };

    ghost lawful = { λ job state. ⊤ };

    ghost gives = { λ job place found. found ≡ place };

    fn state(&self) -> Result<(), AllocError> {
        Ok(())
    }

    fn run(&self, place: u32, _state: &mut ()) -> Result<u32, AllocError> {
        if place >= self.first {
            self.meeting.attend();
        }
        Ok(place)
    }
}

// Whether the results of the job are its places in order.
fn serves_in_order<R: Threads + Wait + Sync, G: Gate>(
    rt: &R,
    alloc: Global,
    job: &Attending,
    n: u32,
    workers: usize,
    gate: &G,
) -> Result<bool, Fail>
    requires gate { (place : ℕ) → place < n → G.watches gate.now place }
{
    if n > MOST_PLACES || workers == 0 || workers > MOST_WORKERS {
        return Ok(false);
    }
    let parts = serve(rt, alloc, job, n, workers, gate)?;
    let found = gather(alloc, parts, n)?;
    Ok(found.len() == n as usize && counts_up(found.as_slice()))
}

// Whether the numbers are 0, 1, 2 and so on.
fn counts_up(numbers: &[u32]) -> bool {
    let mut next: u64 = 0;
    for each in numbers {
        if *each as u64 != next {
            return false;
        }
        next = next.saturating_add(1);
    }
    true
}

#[test]
fn no_places(rt: HostRuntime) -> Result<(), Fail> {
    let job = Attending::of(0, 0);
    assert!(rt; serves_in_order(&rt, rt.alloc(), &job, 0, 1, &NoGate)?);
    assert!(rt; serves_in_order(&rt, rt.alloc(), &job, 0, 64, &NoGate)?);
    Ok(())
}

#[test]
fn one_worker_serves_all_places(rt: HostRuntime) -> Result<(), Fail> {
    let job = Attending::of(0, 1);
    assert!(rt; serves_in_order(&rt, rt.alloc(), &job, 1000, 1, &NoGate)?);
    Ok(())
}

#[test]
fn more_workers_than_places(rt: HostRuntime) -> Result<(), Fail> {
    let job = Attending::of(0, 3);
    assert!(rt; serves_in_order(&rt, rt.alloc(), &job, 3, 64, &NoGate)?);
    assert!(rt; job.meeting.have_all_met());
    Ok(())
}

// One thread alone, or a lock that is held while a place is served, makes these fail.
#[test]
fn two_workers_of_three_places_run_at_once(rt: HostRuntime) -> Result<(), Fail> {
    let job = Attending::of(1, 2);
    assert!(rt; serves_in_order(&rt, rt.alloc(), &job, 3, 2, &NoGate)?);
    assert!(rt; job.meeting.have_all_met());
    Ok(())
}

// Whether so many workers run at once, for each number of places from 8 to 100.
fn all_run_at_once<R: Threads + Wait + Sync>(
    rt: &R,
    alloc: Global,
    workers: usize,
) -> Result<bool, Fail> {
    for n in 8..101u32 {
        let job = Attending::of(0, workers);
        if !serves_in_order(rt, alloc, &job, n, workers, &NoGate)? || !job.meeting.have_all_met() {
            return Ok(false);
        }
    }
    Ok(true)
}

#[test]
fn all_workers_run_at_once(rt: HostRuntime) -> Result<(), Fail> {
    assert!(rt; all_run_at_once(&rt, rt.alloc(), 2)?);
    assert!(rt; all_run_at_once(&rt, rt.alloc(), 3)?);
    assert!(rt; all_run_at_once(&rt, rt.alloc(), 8)?);
    Ok(())
}

// A gate that counts the calls that are between `enter` and `leave`, and the places it was told.
#[derive(Drop)]
struct Counting {
    inside: AtomicUsize,
    entered: AtomicUsize,
    left: AtomicUsize,
}

impl Gate for Counting {
    ghost use Rattle.std.specs.Prelude.{⊤};

    ghost watches = { λ gate place. ⊤ };

    fn enter(&self, place: u32) {
        self.inside.fetch_add(1, Ordering::SeqCst);
        self.entered.fetch_add(place as usize, Ordering::SeqCst);
    }

    fn leave(&self, place: u32) {
        self.inside.fetch_sub(1, Ordering::SeqCst);
        self.left.fetch_add(place as usize, Ordering::SeqCst);
    }
}

impl Counting {
    fn new() -> Counting {
        Counting {
            inside: AtomicUsize::new(0),
            entered: AtomicUsize::new(0),
            left: AtomicUsize::new(0),
        }
    }
}

#[test]
fn the_gate_is_told_each_place(rt: HostRuntime) -> Result<(), Fail> {
    let gate = Counting::new();
    let job = Attending::of(0, 1);
    assert!(rt; serves_in_order(&rt, rt.alloc(), &job, 100, 3, &gate)?);
    assert_eq!(rt; gate.inside.load(Ordering::SeqCst), 0);
    assert_eq!(rt; gate.entered.load(Ordering::SeqCst), 4950);
    assert_eq!(rt; gate.left.load(Ordering::SeqCst), 4950);
    Ok(())
}

// A job that counts its states, its runs and those inside a gate. The state of a worker, and the result, is how many
// places it has served.
#[derive(Drop)]
struct Watched<'a> {
    gate: &'a Counting,
    states: AtomicUsize,
    runs: AtomicUsize,
    runs_inside: AtomicUsize,
}

impl Job for Watched<'_> {
    ghost use Rattle.std.specs.Prelude.{⊤};

    type Out = u32;

    type State = u32;

    ghost has = { λ job place. ⊤ };

    ghost lawful = { λ job state. ⊤ };

    ghost gives = { λ job place found. ⊤ };

    fn state(&self) -> Result<u32, AllocError> {
        self.states.fetch_add(1, Ordering::SeqCst);
        Ok(0)
    }

    fn run(&self, _place: u32, state: &mut u32) -> Result<u32, AllocError> {
        self.runs.fetch_add(1, Ordering::SeqCst);
        if self.gate.inside.load(Ordering::SeqCst) > 0 {
            self.runs_inside.fetch_add(1, Ordering::SeqCst);
        }
        *state = state.saturating_add(1);
        Ok(*state)
    }
}

// Serves nine places. Whether each was run once and inside the gate, by so many workers, each of which kept its state.
fn nine_are_served<R: Threads + Wait + Sync>(
    rt: &R,
    alloc: Global,
    workers: usize,
) -> Result<bool, Fail>
    requires some_worker { 0 < workers }
    requires few_workers { workers ≤ most_workers }
{
    let gate = Counting::new();
    let job = Watched {
        gate: &gate,
        states: AtomicUsize::new(0),
        runs: AtomicUsize::new(0),
        runs_inside: AtomicUsize::new(0),
    };
    let parts = serve(rt, alloc, &job, 9, workers, &gate)?;
    let kept = parts.len() == workers && counts_are_kept(parts.as_slice());
    let found = gather(alloc, parts, 9)?;
    let once = job.runs.load(Ordering::SeqCst) == 9 && found.len() == 9;
    let inside = job.runs_inside.load(Ordering::SeqCst) == 9;
    let states = job.states.load(Ordering::SeqCst) == workers;
    Ok(once && inside && kept && states)
}

// Whether the results of each part count up from 1.
fn counts_are_kept(parts: &[Part<u32>]) -> bool {
    for part in parts {
        let mut served: u32 = 0;
        for (_, count) in part.done.iter() {
            served = served.saturating_add(1);
            if *count != served {
                return false;
            }
        }
    }
    true
}

#[test]
fn each_place_is_run_once_with_the_state_of_its_worker(rt: HostRuntime) -> Result<(), Fail> {
    assert!(rt; nine_are_served(&rt, rt.alloc(), 1)?);
    assert!(rt; nine_are_served(&rt, rt.alloc(), 3)?);
    Ok(())
}

// Whether two workers serve each of so many places once, many times.
fn few_places_many_times<R: Threads + Wait + Sync>(
    rt: &R,
    alloc: Global,
    n: u32,
) -> Result<bool, Fail> {
    for _ in 0..1000u32 {
        let job = Attending::of(n, 0);
        if !serves_in_order(rt, alloc, &job, n, 2, &NoGate)? {
            return Ok(false);
        }
    }
    Ok(true)
}

// Of two places, the calling thread and its thief mostly meet at the last.
#[test]
fn the_last_place_is_served_once(rt: HostRuntime) -> Result<(), Fail> {
    assert!(rt; few_places_many_times(&rt, rt.alloc(), 1)?);
    assert!(rt; few_places_many_times(&rt, rt.alloc(), 2)?);
    Ok(())
}

#[test]
fn many_places_are_served_by_many_workers(rt: HostRuntime) -> Result<(), Fail> {
    let job = Attending::of(1000, 0);
    assert!(rt; serves_in_order(&rt, rt.alloc(), &job, 1000, 64, &NoGate)?);
    Ok(())
}

// A job of three places, whose call at one of them waits until those at both others have begun.
#[derive(Drop)]
struct Waiting {
    place: u32,
    others: Meeting,
}

impl Job for Waiting {
    ghost use Rattle.std.specs.Prelude.{⊤};

    type Out = ();

    type State = ();

    ghost has = { λ job place. ⊤ };

    ghost lawful = { λ job state. ⊤ };

    ghost gives = { λ job place found. ⊤ };

    fn state(&self) -> Result<(), AllocError> {
        Ok(())
    }

    fn run(&self, place: u32, _state: &mut ()) -> Result<(), AllocError> {
        if place == self.place {
            self.others.wait();
        } else {
            self.others.begin();
        }
        Ok(())
    }
}

// Whether a call at this place, of three for two workers, sees both others begin.
fn sees_both_others<R: Threads + Wait + Sync>(
    rt: &R,
    alloc: Global,
    place: u32,
) -> Result<bool, Fail> {
    let job = Waiting {
        place,
        others: Meeting::of(2, MOST_LOOKS),
    };
    serve(rt, alloc, &job, 3, 2, &NoGate)?;
    Ok(job.others.met() == 1)
}

// While one worker waits at a place, the other serves both others. With fixed shares one worker has two of the places, and
// waits for itself at the first of them. One thread alone waits for itself at place 0 too.
#[test]
fn a_free_worker_serves_all_other_places(rt: HostRuntime) -> Result<(), Fail> {
    assert!(rt; sees_both_others(&rt, rt.alloc(), 0)?);
    assert!(rt; sees_both_others(&rt, rt.alloc(), 1)?);
    assert!(rt; sees_both_others(&rt, rt.alloc(), 2)?);
    Ok(())
}
