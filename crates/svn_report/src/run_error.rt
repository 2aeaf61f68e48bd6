//! Why a run gave no report, and how the program reports that.
ghost use Rattle.std.specs.Prelude.{◌≡◌, ◌++◌, IfOk, OnOk, OnErr};
ghost use Rattle.svn_report.specs.RunError.{IsErrorLine, line_of, status_of, refused_text, source_name_of, unread_text};

use crate::reporting::MOST_QUERIES;
use crate::repository::LoadError;
use block_map::Fault;
use devices::{Push, Source, print_line};
use std::alloc::{AllocError, AllocFailed, Global};
use svn_dump::{DumpError, refusal_name};
use svn_text::push_number;
use thiserror::Error;

const NO_MEMORY: &[u8] = b"svnhist: out of memory\n";

/// Why a run gave no report. Each is displayed as its line, without `svnhist: ` and the newline.
#[derive(Debug, Drop, Error)]
pub enum RunError {
    #[error("more than {most} queries", most = MOST_QUERIES)]
    TooMany,
    #[error("{0}")]
    Dump(DumpError),
    #[error("dump refused: {number} {name} at record {record}", number = .0.kind.number(), name = .0.kind.name(), record = .0.number)]
    Fault(Fault),
    #[error("cannot read {name}", name = source_name(*.0))]
    Read(Source),
    #[error("out of memory")]
    Memory,
}

impl From<AllocError> for RunError {
    ghost use Rattle.std.specs.Prelude.{◌≡◌};
    ghost use Rattle.svn_report.specs.declared.run_error.RunError.TheVariants.{Memory};

    ghost from_gives = { λ _ e. e ≡ Memory };

    fn from(_e: AllocError) -> RunError {
        RunError::Memory
    }
}

impl<T: Drop> From<AllocFailed<T>> for RunError {
    ghost use Rattle.std.specs.Prelude.{◌≡◌};
    ghost use Rattle.svn_report.specs.declared.run_error.RunError.TheVariants.{Memory};

    ghost from_gives = { λ _ e. e ≡ Memory };

    fn from(_e: AllocFailed<T>) -> RunError {
        RunError::Memory
    }
}

impl From<DumpError> for RunError {
    ghost use Rattle.svn_report.specs.ReportError.{run_error_of_dump};

    ghost from_gives = { λ e reported. reported ≡ run_error_of_dump e };

    fn from(e: DumpError) -> RunError {
        match e {
            DumpError::Refused { number, at } => RunError::Dump(DumpError::Refused { number, at }),
            DumpError::Memory => RunError::Memory,
        }
    }
}

impl From<LoadError> for RunError {
    ghost use Rattle.svn_report.specs.ReportError.{run_error_of_load};

    ghost from_gives = { λ e reported. reported ≡ run_error_of_load e };

    fn from(e: LoadError) -> RunError {
        match e {
            LoadError::Fault(fault) => RunError::Fault(fault),
            LoadError::Memory => RunError::Memory,
        }
    }
}

impl RunError {
    /// The status with which the program ends.
    pub fn status(&self) -> u8
        ensures { result ≡ status_of self.now }
    {
        match self {
            RunError::TooMany | RunError::Dump(DumpError::Refused { .. }) | RunError::Fault(_) => 1,
            RunError::Read(_) => 3,
            RunError::Dump(DumpError::Memory) | RunError::Memory => 4,
        }
    }

    /// Appends the line that the program prints on standard error.
    pub fn write(&self, out: &mut Vec<u8>) -> Result<(), AllocError>
        ensures ok { OnOk result (out.new.items ≡ out.old.items ++ line_of self.now) }
        ensures err { OnErr result (out.new.items ≡ out.old.items) }
    {
        let line = self.line(*out.allocator())?;
        out.extend_from_slice(line.as_slice())
    }

    /// Prints the line on standard error, and answers the status with which the program ends. Where memory for the line
    /// runs out, both are those of `Memory`.
    pub fn print<E: Push>(&self, alloc: Global, errors: &mut E) -> u8
        ensures { IsErrorLine result self.now (E.state errors.old) (E.state errors.new) }
    {
        match self.line(alloc) {
            Ok(line) => {
                print_line(errors, line.as_slice());
                self.status()
            }
            Err(AllocError) => {
                print_line(errors, NO_MEMORY);
                RunError::Memory.status()
            }
        }
    }

    /// The line that the program prints on standard error.
    fn line(&self, alloc: Global) -> Result<Vec<u8>, AllocError>
        ensures { IfOk result (λ line. line.items ≡ line_of self.now) }
    {
        match self {
            RunError::TooMany => too_many_line(alloc),
            RunError::Dump(DumpError::Refused { number, at }) => {
                refused_line(alloc, *number, refusal_name(*number), "byte", *at)
            }
            RunError::Fault(fault) => {
                refused_line(
                    alloc,
                    fault.kind.number(),
                    fault.kind.name(),
                    "record",
                    u64::from(fault.number),
                )
            }
            RunError::Read(source) => unread_line(alloc, *source),
            RunError::Dump(DumpError::Memory) | RunError::Memory => {
                Vec::from_slice(alloc, NO_MEMORY)
            }
        }
    }
}

/// The line of more queries than a run answers.
fn too_many_line(alloc: Global) -> Result<Vec<u8>, AllocError>
    ensures { IfOk result (λ line. line.items ≡ line_of RunError.TooMany) }
{
    let mut line = Vec::from_slice(alloc, b"svnhist: more than ".as_slice())?;
    push_number(&mut line, MOST_QUERIES as u64)?;
    line.extend_from_slice(b" queries\n".as_slice())?;
    Ok(line)
}

/// The line of a dump that is refused at a byte or a record.
fn refused_line(
    alloc: Global,
    number: u8,
    name: &str,
    unit: &str,
    place: u64,
) -> Result<Vec<u8>, AllocError>
    ensures { IfOk result (λ line. line.items ≡ refused_text number name.now unit.now place) }
{
    let mut line = Vec::from_slice(alloc, b"svnhist: dump refused: ".as_slice())?;
    push_number(&mut line, u64::from(number))?;
    line.push(b' ')?;
    line.extend_from_slice(name.as_bytes())?;
    line.extend_from_slice(b" at ".as_slice())?;
    line.extend_from_slice(unit.as_bytes())?;
    line.push(b' ')?;
    push_number(&mut line, place)?;
    line.push(b'\n')?;
    Ok(line)
}

/// The line of a source that can't be read.
fn unread_line(alloc: Global, source: Source) -> Result<Vec<u8>, AllocError>
    ensures { IfOk result (λ line. line.items ≡ unread_text source) }
{
    let mut line = Vec::from_slice(alloc, b"svnhist: cannot read ".as_slice())?;
    line.extend_from_slice(source_name(source).as_bytes())?;
    line.push(b'\n')?;
    Ok(line)
}

/// What a source is called.
fn source_name(source: Source) -> &'static str
    ensures { result.now ≡ source_name_of source }
{
    match source {
        Source::Dump => "the dump",
        Source::Queries => "the queries",
        Source::Input => "standard input",
    }
}
