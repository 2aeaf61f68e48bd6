//! Why a text is no mergeinfo.

use std::alloc::{AllocError, AllocFailed};
use thiserror::Error;

/// Why a text was not read as mergeinfo.
#[derive(Debug, Drop, Error)]
pub enum MergeError {
    #[error("malformed mergeinfo")]
    Malformed,
    #[error("out of memory")]
    Memory,
}

impl From<AllocError> for MergeError {
    ghost use Rattle.std.specs.Prelude.{◌≡◌};
    ghost use Rattle.merge_info.specs.declared.error.MergeError.TheVariants.{Memory};

    ghost from_gives = { λ _ e. e ≡ Memory };

    fn from(_e: AllocError) -> MergeError {
        MergeError::Memory
    }
}

impl<T: Drop> From<AllocFailed<T>> for MergeError {
    ghost use Rattle.std.specs.Prelude.{◌≡◌};
    ghost use Rattle.merge_info.specs.declared.error.MergeError.TheVariants.{Memory};

    ghost from_gives = { λ _ e. e ≡ Memory };

    fn from(_e: AllocFailed<T>) -> MergeError {
        MergeError::Memory
    }
}
