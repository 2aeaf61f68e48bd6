//! Why a talk ended early, and how the program reports that.
ghost use Rattle.live_history.specs.TalkError.{IsTalkErrorLine};

use devices::{Push, SendError, print_line};
use std::alloc::{AllocError, AllocFailed, Global};
use svn_dump::DumpError;
use svn_report::{LoadError, RunError};
use thiserror::Error;

const TOO_MANY: &[u8] = b"svnhist: more than 4294967295 queries\n";

const CUT: &[u8] = b"svnhist: standard input ends within a turn\n";

const UNSENT: &[u8] = b"svnhist: cannot write the report\n";

/// Why a talk ended early. Each is displayed as its line, without `svnhist: ` and the newline.
#[derive(Debug, Drop, Error)]
pub enum TalkError {
    /// The dump or a piece of it is refused, a device could not be read, or memory ran out.
    #[error("{0}")]
    Run(RunError),
    #[error("more than 4294967295 queries")]
    TooMany,
    /// The input ends in a line without its newline, or in a piece that has fewer bytes than its line says.
    #[error("standard input ends within a turn")]
    Cut,
    #[error("cannot write the report")]
    Unsent(SendError),
}

impl From<RunError> for TalkError {
    ghost use Rattle.std.specs.Prelude.{◌≡◌};
    ghost use Rattle.live_history.specs.declared.talk_error.TalkError.TheVariants.{Run};

    ghost from_gives = { λ e reported. reported ≡ Run e };

    fn from(e: RunError) -> TalkError {
        TalkError::Run(e)
    }
}

impl From<AllocError> for TalkError {
    ghost use Rattle.std.specs.Prelude.{◌≡◌};
    ghost use Rattle.svn_report.specs.declared.run_error.RunError.TheVariants.{Memory};
    ghost use Rattle.live_history.specs.declared.talk_error.TalkError.TheVariants.{Run};

    ghost from_gives = { λ _ reported. reported ≡ Run Memory };

    fn from(_e: AllocError) -> TalkError {
        TalkError::Run(RunError::Memory)
    }
}

impl<T: Drop> From<AllocFailed<T>> for TalkError {
    ghost use Rattle.std.specs.Prelude.{◌≡◌};
    ghost use Rattle.svn_report.specs.declared.run_error.RunError.TheVariants.{Memory};
    ghost use Rattle.live_history.specs.declared.talk_error.TalkError.TheVariants.{Run};

    ghost from_gives = { λ _ reported. reported ≡ Run Memory };

    fn from(_e: AllocFailed<T>) -> TalkError {
        TalkError::Run(RunError::Memory)
    }
}

impl From<DumpError> for TalkError {
    ghost use Rattle.std.specs.Prelude.{◌≡◌};
    ghost use Rattle.svn_report.specs.ReportError.{run_error_of_dump};
    ghost use Rattle.live_history.specs.declared.talk_error.TalkError.TheVariants.{Run};

    ghost from_gives = { λ e reported. reported ≡ Run (run_error_of_dump e) };

    fn from(e: DumpError) -> TalkError {
        TalkError::Run(RunError::from(e))
    }
}

impl From<LoadError> for TalkError {
    ghost use Rattle.std.specs.Prelude.{◌≡◌};
    ghost use Rattle.svn_report.specs.ReportError.{run_error_of_load};
    ghost use Rattle.live_history.specs.declared.talk_error.TalkError.TheVariants.{Run};

    ghost from_gives = { λ e reported. reported ≡ Run (run_error_of_load e) };

    fn from(e: LoadError) -> TalkError {
        TalkError::Run(RunError::from(e))
    }
}

impl From<SendError> for TalkError {
    ghost use Rattle.std.specs.Prelude.{◌≡◌};
    ghost use Rattle.live_history.specs.declared.talk_error.TalkError.TheVariants.{Unsent};

    ghost from_gives = { λ e reported. reported ≡ Unsent e };

    fn from(e: SendError) -> TalkError {
        TalkError::Unsent(e)
    }
}

impl TalkError {
    /// Prints the line on standard error, and answers the status with which the program ends. Where memory for the line
    /// runs out, both are those of want of memory.
    pub fn print<E: Push>(&self, alloc: Global, errors: &mut E) -> u8
        ensures { IsTalkErrorLine result self.now (E.state errors.old) (E.state errors.new) }
    {
        match self {
            TalkError::Run(error) => error.print(alloc, errors),
            TalkError::TooMany => {
                print_line(errors, TOO_MANY);
                1
            }
            TalkError::Cut => {
                print_line(errors, CUT);
                1
            }
            TalkError::Unsent(_) => {
                print_line(errors, UNSENT);
                3
            }
        }
    }
}
