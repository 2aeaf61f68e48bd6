//! The calling thread, while it and its thieves serve.
ghost use Rattle.std.specs.Prelude.{◌≡◌, ◌+◌, IfOk, length};
ghost use Rattle.query_pool.specs.Calling.{HandsOver};

use crate::deque::Owner;
use crate::part::Part;
use crate::progress::Progress;
use std::alloc::AllocError;

/// The calling thread: the deque that it owns, its progress, and what the thieves did whose passes it took in.
#[derive(Drop)]
pub struct Caller<S, Out> {
    pub(crate) owner: Owner,
    pub(crate) progress: Progress<S, Out>,
    pub(crate) parts: Vec<Part<Out>>,
}

impl<S: Drop, Out: Drop> Caller<S, Out> {
    /// What each worker did.
    pub(crate) fn into_parts(self) -> Result<Vec<Part<Out>>, AllocError>
        ensures hands { IfOk result (λ parts. HandsOver self parts.items) }
        ensures len { IfOk result (λ parts. length parts.items ≡ length self.parts.items + 1) }
    {
        let Caller {
            owner,
            progress,
            mut parts,
        } = self;
        drop(owner);
        parts.push(progress.into_part())?;
        Ok(parts)
    }
}
