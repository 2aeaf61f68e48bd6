//! Serving the places of a job by several workers.
ghost use Rattle.std.specs.Prelude.{ℕ, ◌≡◌, ◌+◌, ◌<◌, ◌≤◌, [], All, IfOk, length};
ghost use denote.Param.Send.{IsSync, IsSend};
ghost use Rattle.crossbeam_deque.specs.Handles.{IsPassOf, stealer_deque, view, worker_deque, worker_view};
ghost use Rattle.query_pool.specs.Calling.{Continues, IsReady};
ghost use Rattle.query_pool.specs.Serving.{HasEachOnce, results_of, most_places, most_workers};
ghost use Rattle.query_pool.specs.Stealing.{LooksEmpty, Serves};

use crate::caller::Caller;
use crate::deque::{Thief, ThiefPass, absorb, deque_of_places, split, steal, take};
use crate::gate::Gate;
use crate::job::Job;
use crate::part::Part;
use crate::progress::{begin, serve_place};
use std::alloc::{AllocError, Global};
use std::sync::Wait;
use std::thread::{self, Threads};

/// How many places a job has at most.
pub const MOST_PLACES: u32 = 1_000_000;

/// How many workers there are at most.
pub const MOST_WORKERS: usize = 64;

/// Runs the job at the places 0 to `n - 1`, each once, with at most so many workers at a time, and answers what each
/// worker did.
///
/// The calling thread is one of the workers. Where a thread can't be started, the others do its work. Where a worker
/// runs out of memory, the error is answered after all have ended.
pub fn serve<R: Threads + Wait + Sync, J: Job, G: Gate>(
    rt: &R,
    alloc: Global,
    job: &J,
    n: u32,
    workers: usize,
    gate: &G,
) -> Result<Vec<Part<J::Out>>, AllocError>
    requires places { (place : ℕ) → place < n → J.has job.now place }
    requires gate { (place : ℕ) → place < n → G.watches gate.now place }
    requires few_places { n ≤ most_places }
    requires some_worker { 0 < workers }
    requires few_workers { workers ≤ most_workers }
    ensures few { IfOk result (λ parts. length parts.items ≤ workers) }
    ensures each_once { IfOk result (λ parts. HasEachOnce n (results_of parts.items)) }
    ensures gives { IfOk result (λ parts. All (λ each. J.gives job.now each.0 each.1) (results_of parts.items)) }
{
    // The constants that callers go by are no lower than the limits of the contract.
    prove!(n <= MOST_PLACES && workers <= MOST_WORKERS);
    let thieves = (workers as u32).min(n).max(1) - 1;
    let owner = deque_of_places(alloc, n)?;
    let thief = owner.stealer()?;
    let caller = Caller {
        owner,
        progress: begin(alloc, job)?,
        parts: Vec::new(alloc),
    };
    let caller = serve_with(rt, alloc, job, gate, &thief, caller, thieves)?;
    let caller = take_all(rt, job, gate, caller)?;
    caller.into_parts()
}

/// What the calling thread and its thieves do, which have threads of their own.
#[cycle(serve_with)]
fn serve_with<R: Threads + Wait + Sync, J: Job, G: Gate>(
    rt: &R,
    alloc: Global,
    job: &J,
    gate: &G,
    thief: &Thief,
    mut caller: Caller<J::State, J::Out>,
    thieves: u32,
) -> Result<Caller<J::State, J::Out>, AllocError>
    requires ready { IsReady (J.lawful job.now) (J.gives job.now) caller }
    requires deque { worker_deque caller.owner ≡ stealer_deque thief.now }
    requires parts { thieves < (worker_view caller.owner).parts }
    requires places { (place : ℕ) → place < (worker_view caller.owner).puts → J.has job.now place }
    requires gate { (place : ℕ) → place < (worker_view caller.owner).puts → G.watches gate.now place }
    ensures continues { IfOk result (Continues (J.lawful job.now) (J.gives job.now) caller) }
    ensures few { IfOk result (λ after. length after.parts.items ≤ length caller.parts.items + thieves) }
{
    if thieves == 0 {
        return take_all(rt, job, gate, caller);
    }
    let pass = split(&mut caller.owner);
    let stealing = move || -> Result<(ThiefPass, Part<J::Out>), AllocError>
        requires { IsSync R.row × IsSync J.row × IsSync G.row × IsSend J.Out.row
            × IsPassOf (stealer_deque thief.now) pass × (0 < (view pass).parts) × ((view pass).taken ≡ [])
            × ((place : ℕ) → place < (view pass).puts → J.has job.now place)
            × ((place : ℕ) → place < (view pass).puts → G.watches gate.now place) }
        ensures { IfOk result (λ it. IsPassOf (stealer_deque thief.entry.now) it.0
            × Serves (J.gives job.entry.now) (view pass) (view it.0) it.1.done.items) }
    { steal_all(rt, alloc, job, gate, thief, pass) };
    let rest = thieves - 1;
    let others = move || -> Result<Caller<J::State, J::Out>, AllocError>
        requires { IsSync R.row × IsSync J.row × IsSync G.row × IsSend J.Out.row × IsSend J.State.row
            × IsReady (J.lawful job.now) (J.gives job.now) caller × (worker_deque caller.owner ≡ stealer_deque thief.now)
            × (rest < (worker_view caller.owner).parts)
            × ((place : ℕ) → place < (worker_view caller.owner).puts → J.has job.now place)
            × ((place : ℕ) → place < (worker_view caller.owner).puts → G.watches gate.now place) }
        ensures { IfOk result (λ after. Continues (J.lawful job.entry.now) (J.gives job.entry.now) caller after
            × (length after.parts.items ≤ length caller.parts.items + rest)) }
    { serve_with(rt, alloc, job, gate, thief, caller, rest) };
    let (stolen, served) = thread::join(rt, stealing, others);
    let (pass, part) = stolen?;
    let mut caller = served?;
    absorb(&mut caller.owner, pass);
    caller.parts.push(part)?;
    Ok(caller)
}

/// What the calling thread does: it takes places and serves them until none is left.
fn take_all<R: Wait, J: Job, G: Gate>(
    rt: &R,
    job: &J,
    gate: &G,
    mut caller: Caller<J::State, J::Out>,
) -> Result<Caller<J::State, J::Out>, AllocError>
    requires ready { IsReady (J.lawful job.now) (J.gives job.now) caller }
    requires part { 0 < (worker_view caller.owner).parts }
    requires places { (place : ℕ) → place < (worker_view caller.owner).puts → J.has job.now place }
    requires gate { (place : ℕ) → place < (worker_view caller.owner).puts → G.watches gate.now place }
    ensures continues { IfOk result (Continues (J.lawful job.now) (J.gives job.now) caller) }
    ensures parts { IfOk result (λ after. after.parts ≡ caller.parts) }
    ensures empty { IfOk result (λ after. LooksEmpty (worker_view after.owner)) }
{
    for _ in rt.forever() {
        match take(&mut caller.owner) {
            Some(place) => serve_place(job, gate, place, &mut caller.progress)?,
            None => return Ok(caller),
        }
    }
    unreachable!()
}

/// What a thief does: it steals places and serves them until none is left.
fn steal_all<R: Wait, J: Job, G: Gate>(
    rt: &R,
    alloc: Global,
    job: &J,
    gate: &G,
    thief: &Thief,
    mut pass: ThiefPass,
) -> Result<(ThiefPass, Part<J::Out>), AllocError>
    requires pass { IsPassOf (stealer_deque thief.now) pass }
    requires part { 0 < (view pass).parts }
    requires fresh { (view pass).taken ≡ [] }
    requires places { (place : ℕ) → place < (view pass).puts → J.has job.now place }
    requires gate { (place : ℕ) → place < (view pass).puts → G.watches gate.now place }
    ensures pass { IfOk result (λ it. IsPassOf (stealer_deque thief.now) it.0) }
    ensures serves { IfOk result (λ it. Serves (J.gives job.now) (view pass) (view it.0) it.1.done.items) }
{
    let mut progress = begin(alloc, job)?;
    for _ in rt.forever() {
        match steal(rt, thief, &mut pass) {
            Some(place) => serve_place(job, gate, place, &mut progress)?,
            None => break,
        }
    }
    Ok((pass, progress.into_part()))
}
