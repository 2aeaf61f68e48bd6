//! Why a query has no result lines.

use crate::status::Status;
use std::alloc::AllocError;

/// Why a query has no result lines.
#[derive(Debug, Drop)]
pub enum Unanswered {
    /// The answer has this status.
    Refused(Status),
    Memory,
}

impl From<AllocError> for Unanswered {
    ghost use Rattle.std.specs.Prelude.{◌≡◌};
    ghost use Rattle.query_answer.specs.declared.unanswered.Unanswered.TheVariants.{Memory};

    ghost from_gives = { λ _ e. e ≡ Memory };

    fn from(_e: AllocError) -> Unanswered {
        Unanswered::Memory
    }
}
