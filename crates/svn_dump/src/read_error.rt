//! Why reading stopped.
ghost use Rattle.std.specs.Prelude.{◌≡◌};
ghost use Rattle.svn_dump.specs.ReadError.{dump_error_at};

use crate::error::DumpError;
use crate::refusal::Refusal;
use std::alloc::{AllocError, AllocFailed};
use svn_path::PathError;
use svn_text::TextTableError;

/// Why reading stopped.
#[derive(Debug, Drop)]
pub(crate) enum ReadError {
    /// The bytes are no dump.
    Refused(Refusal),
    Memory,
}

impl ReadError {
    /// The error to report where the block in progress begins at this offset.
    pub(crate) fn at(self, at: u64) -> DumpError
        ensures { result ≡ dump_error_at at self }
    {
        match self {
            ReadError::Refused(refusal) => DumpError::Refused {
                number: refusal.number(),
                at,
            },
            ReadError::Memory => DumpError::Memory,
        }
    }
}

impl From<Refusal> for ReadError {
    ghost use Rattle.std.specs.Prelude.{◌≡◌};
    ghost use Rattle.svn_dump.specs.declared.read_error.ReadError.TheVariants.{Refused};

    ghost from_gives = { λ refusal e. e ≡ Refused refusal };

    fn from(refusal: Refusal) -> ReadError {
        ReadError::Refused(refusal)
    }
}

impl From<PathError> for ReadError {
    ghost use Rattle.std.specs.Prelude.{◌≡◌};
    ghost use Rattle.svn_dump.specs.ReadError.{read_error_of};

    ghost from_gives = { λ e r. r ≡ read_error_of e };

    fn from(e: PathError) -> ReadError {
        match e {
            PathError::Dot => ReadError::Refused(Refusal::BadPath),
            PathError::Full => ReadError::Refused(Refusal::TooLarge),
            PathError::Memory => ReadError::Memory,
        }
    }
}

impl From<TextTableError> for ReadError {
    ghost use Rattle.std.specs.Prelude.{◌≡◌};
    ghost use Rattle.svn_dump.specs.ReadError.{read_error_of_table};

    ghost from_gives = { λ e r. r ≡ read_error_of_table e };

    fn from(e: TextTableError) -> ReadError {
        match e {
            TextTableError::Full => ReadError::Refused(Refusal::TooLarge),
            TextTableError::Memory => ReadError::Memory,
        }
    }
}

impl From<AllocError> for ReadError {
    ghost use Rattle.std.specs.Prelude.{◌≡◌};
    ghost use Rattle.svn_dump.specs.declared.read_error.ReadError.TheVariants.{Memory};

    ghost from_gives = { λ _ e. e ≡ Memory };

    fn from(_e: AllocError) -> ReadError {
        ReadError::Memory
    }
}

impl<T: Drop> From<AllocFailed<T>> for ReadError {
    ghost use Rattle.std.specs.Prelude.{◌≡◌};
    ghost use Rattle.svn_dump.specs.declared.read_error.ReadError.TheVariants.{Memory};

    ghost from_gives = { λ _ e. e ≡ Memory };

    fn from(_e: AllocFailed<T>) -> ReadError {
        ReadError::Memory
    }
}
