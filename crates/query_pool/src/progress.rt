//! How far one worker has come.
ghost use Rattle.std.specs.Prelude.{ℕ, ◌≡◌, ◌<◌, [], ◌∷◌, ◌++◌, IfOk, OnOk};
ghost use Rattle.query_pool.specs.Stealing.{Finishes};

use crate::gate::Gate;
use crate::job::Job;
use crate::part::Part;
use std::alloc::{AllocError, Global};

/// A worker's state, and what it has done so far.
#[derive(Drop)]
pub struct Progress<S, Out> {
    pub(crate) state: S,
    pub(crate) done: Vec<(u32, Out)>,
}

impl<S: Drop, Out> Progress<S, Out> {
    /// What is done.
    pub(crate) fn into_part(self) -> Part<Out>
        ensures { result.done ≡ self.done }
    {
        let Progress { state, done } = self;
        drop(state);
        Part { done }
    }
}

/// The progress of a worker that begins.
pub(crate) fn begin<J: Job>(
    alloc: Global,
    job: &J,
) -> Result<Progress<J::State, J::Out>, AllocError>
    ensures state { IfOk result (λ progress. J.lawful job.now progress.state) }
    ensures done { IfOk result (λ progress. progress.done.items ≡ []) }
{
    let state = job.state()?;
    Ok(Progress {
        state,
        done: Vec::new(alloc),
    })
}

/// Serves one place, between the calls of the gate.
pub(crate) fn serve_place<J: Job, G: Gate>(
    job: &J,
    gate: &G,
    place: u32,
    progress: &mut Progress<J::State, J::Out>,
) -> Result<(), AllocError>
    requires place { J.has job.now place }
    requires gate { G.watches gate.now place }
    requires state { J.lawful job.now progress.old.state }
    ensures state { OnOk result (J.lawful job.now progress.new.state) }
    ensures done { OnOk result (Finishes (J.gives job.now) progress.old.done.items place progress.new.done.items) }
{
    gate.enter(place);
    let found = job.run(place, &mut progress.state);
    gate.leave(place);
    progress.done.push((place, found?))?;
    Ok(())
}
