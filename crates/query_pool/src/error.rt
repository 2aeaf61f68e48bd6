//! Why results can't be put in order.

use std::alloc::{AllocError, AllocFailed};
use thiserror::Error;

/// Why the results of parts can't be put in order of their places, numbered from 0.
#[derive(Debug, Drop, Error)]
pub enum GatherError {
    /// A place that is not below the number of places.
    #[error("there is no place {0}")]
    Stranger(u32),

    /// A place that has a result already.
    #[error("place {0} has two results")]
    Double(u32),

    /// A place without a result.
    #[error("place {0} has no result")]
    Missing(u32),

    /// Memory ran out.
    #[error("out of memory")]
    Memory,
}

impl From<AllocError> for GatherError {
    ghost use Rattle.std.specs.Prelude.{◌≡◌};
    ghost use Rattle.query_pool.specs.declared.error.GatherError.TheVariants.{Memory};

    ghost from_gives = { λ _ e. e ≡ Memory };

    fn from(_e: AllocError) -> GatherError {
        GatherError::Memory
    }
}

impl<T: Drop> From<AllocFailed<T>> for GatherError {
    ghost use Rattle.std.specs.Prelude.{◌≡◌};
    ghost use Rattle.query_pool.specs.declared.error.GatherError.TheVariants.{Memory};

    ghost from_gives = { λ _ e. e ≡ Memory };

    fn from(_e: AllocFailed<T>) -> GatherError {
        GatherError::Memory
    }
}
