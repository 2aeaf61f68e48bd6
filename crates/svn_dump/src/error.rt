//! Why bytes are no dump.

use crate::refusal::refusal_name;
use std::alloc::{AllocError, AllocFailed};
use thiserror::Error;

/// Why bytes were not read as a dump.
#[derive(Clone, Copy, Debug, PartialEq, Eq, Error)]
pub enum DumpError {
    /// The number of the refusal, and where the faulty block begins, or the length of an input without a revision.
    #[error("dump refused: {number} {name} at byte {at}", name = refusal_name(*number))]
    Refused { number: u8, at: u64 },
    #[error("out of memory")]
    Memory,
}

impl From<AllocError> for DumpError {
    ghost use Rattle.std.specs.Prelude.{◌≡◌};
    ghost use Rattle.svn_dump.specs.declared.error.DumpError.TheVariants.{Memory};

    ghost from_gives = { λ _ e. e ≡ Memory };

    fn from(_e: AllocError) -> DumpError {
        DumpError::Memory
    }
}

impl<T: Drop> From<AllocFailed<T>> for DumpError {
    ghost use Rattle.std.specs.Prelude.{◌≡◌};
    ghost use Rattle.svn_dump.specs.declared.error.DumpError.TheVariants.{Memory};

    ghost from_gives = { λ _ e. e ≡ Memory };

    fn from(_e: AllocFailed<T>) -> DumpError {
        DumpError::Memory
    }
}
