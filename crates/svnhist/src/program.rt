//! The program: a bundle or two files in, their report out.
ghost use Rattle.std.specs.Prelude.{◌≡◌, ◌≢◌, ◌+◌, ◌<◌, ◌≤◌, ◌⊎◌, [], Some, IfErr, IfOk, IsOkAnd, IsNone, IsErrOf, IsFalse, IsTrue, MatchOption};
ghost use Rattle.std.specs.Io.KnownBytes.{Appends};
ghost use Rattle.std.specs.Process.{exit_status};
ghost use Rattle.std.specs.IoError.{error_kind};
ghost use Rattle.devices.specs.Arguments.{texts_of};
ghost use Rattle.devices.specs.Sending.{IsPartSent, PrintsLine};
ghost use Rattle.svnhist.specs.Asked.{IsErrorAsked, IsErrorOnInput, IsMisused, IsNoBundle, IsReportAsked, IsReportOnInput};
ghost use Rattle.svnhist.specs.ExitStatus.{IsCut, IsDone, IsRefused};
ghost use Rattle.svnhist.specs.ProgramLines.{unsent_line, usage_line};

use crate::arguments::read_arguments;
use crate::bundle_reader::bundle;
use crate::cuts::cuts_of;
use crate::files::answer_files;
use devices::{Open, Pull, Push, Source, print_line, send};
use query_pool::NoGate;
use std::alloc::Global;
use std::io::{self, ErrorKind};
use std::process::ExitCode;
use std::random::RandomSource;
use std::sync::Wait;
use std::thread::Threads;
use svn_report::{RunError, load, report};

const USAGE: &[u8] = b"svnhist: usage: svnhist DUMP QUERIES BLOCK WORKERS\n";

const UNSENT: &[u8] = b"svnhist: cannot write the report\n";

/// Does what the arguments after the program's name ask for, and answers the status with which the program ends.
/// Without arguments `input` is a bundle. Where there is no report, one line for `errors` says why.
pub(crate) fn run<
    R: RandomSource + Threads + Wait + Sync,
    F: Open + Pull,
    I: Pull,
    O: Push,
    E: Push,
>(
    rt: &R,
    alloc: Global,
    files: &mut F,
    arguments: io::Result<Vec<String>>,
    input: &mut I,
    output: &mut O,
    errors: &mut E,
) -> ExitCode
    ensures done { exit_status result ≡ 0 → IsDone
        (IsReportAsked F.opens F.refuses F.state files.old files.new
        (I.state input.old) (I.state input.new) (texts_of arguments))
        (O.state output.old) (O.state output.new) }
    ensures misused { exit_status result ≡ 2 →
        IsMisused (texts_of arguments) (I.state input.old) (I.state input.new) }
    ensures usage_line { exit_status result ≡ 2 →
        PrintsLine (E.state errors.old) (E.state errors.new) usage_line }
    ensures cut { output.new ≢ output.old → exit_status result ≢ 0 → IsCut
        (IsReportAsked F.opens F.refuses F.state files.old files.new
        (I.state input.old) (I.state input.new) (texts_of arguments))
        (O.state output.old) (O.state output.new) }
    ensures cut_line { output.new ≢ output.old → exit_status result ≢ 0 →
        PrintsLine (E.state errors.old) (E.state errors.new) unsent_line }
    ensures refused { output.new ≡ output.old → exit_status result ≢ 2 → IsRefused
        (IsErrorAsked F.opens F.refuses F.state files.old files.new
        (I.state input.old) (I.state input.new) (texts_of arguments))
        (exit_status result) (E.state errors.old) (E.state errors.new) }
    ensures known { exit_status result ≤ 4 }
    ensures silent { exit_status result ≡ 0 → errors.new ≡ errors.old }
    ensures quiet { (exit_status result ≡ 0) ⊎ (exit_status result ≡ 3) ⊎ (output.new ≡ output.old) }
    ensures untouched { (output.new ≡ output.old) ⊎ ((O.state output.old).calls < (O.state output.new).calls) }
    ensures unopened { exit_status result ≡ 2 → files.new ≡ files.old }
    ensures unread { (texts_of arguments ≡ Some []) ⊎ (input.new ≡ input.old) }
    ensures fails_once { (I.state input.new).failures ≤ (I.state input.old).failures + 1 }
    ensures no_texts { IfErr arguments (λ e. error_kind e ≢ ErrorKind.OutOfMemory → exit_status result ≡ 2) }
    ensures no_memory { IfErr arguments (λ e. error_kind e ≡ ErrorKind.OutOfMemory → exit_status result ≡ 4) }
{
    match answer(rt, alloc, files, arguments, input) {
        Ok(Some(report)) => deliver(output, errors, report.as_slice()),
        Ok(None) => refuse_usage(errors),
        Err(error) => ExitCode::from(error.print(alloc, errors)),
    }
}

/// Prints how the program is used.
fn refuse_usage<E: Push>(errors: &mut E) -> ExitCode
    ensures status { exit_status result ≡ 2 }
    ensures line { PrintsLine (E.state errors.old) (E.state errors.new) usage_line }
{
    print_line(errors, USAGE);
    ExitCode::from(2)
}

/// Sends a report.
fn deliver<O: Push, E: Push>(output: &mut O, errors: &mut E, report: &[u8]) -> ExitCode
    ensures status { (exit_status result ≡ 0) ⊎ (exit_status result ≡ 3) }
    ensures called { (O.state output.old).calls < (O.state output.new).calls }
    ensures sent { exit_status result ≡ 0 → Appends (O.state output.old).gone (O.state output.new).gone report.now }
    ensures flushed { exit_status result ≡ 0 → IsTrue (O.state output.new).is_flushed }
    ensures sound { exit_status result ≡ 0 → IsFalse (O.state output.new).has_failed }
    ensures silent { exit_status result ≡ 0 → errors.new ≡ errors.old }
    ensures cut { exit_status result ≡ 3 → IsPartSent (O.state output.old) (O.state output.new) report.now }
    ensures line { exit_status result ≡ 3 → PrintsLine (E.state errors.old) (E.state errors.new) unsent_line }
{
    match send(output, report) {
        Ok(()) => ExitCode::from(0),
        Err(_) => {
            print_line(errors, UNSENT);
            ExitCode::from(3)
        }
    }
}

/// The report that the arguments ask for, or `None` where they, or the input as a bundle, ask for nothing.
fn answer<R: RandomSource + Threads + Wait + Sync, F: Open + Pull, I: Pull>(
    rt: &R,
    alloc: Global,
    files: &mut F,
    arguments: io::Result<Vec<String>>,
    input: &mut I,
) -> Result<Option<Vec<u8>>, RunError>
    ensures ok { IfOk result (λ found. MatchOption found
        (IsMisused (texts_of arguments) (I.state input.old) (I.state input.new))
        (λ report. IsReportAsked F.opens F.refuses F.state files.old files.new
        (I.state input.old) (I.state input.new) (texts_of arguments) report.items)) }
    ensures error { IfErr result (IsErrorAsked F.opens F.refuses F.state files.old files.new
        (I.state input.old) (I.state input.new) (texts_of arguments)) }
    ensures unopened { IfOk result (λ found. IsNone found → files.new ≡ files.old) }
    ensures unread { (texts_of arguments ≡ Some []) ⊎ (input.new ≡ input.old) }
    ensures fails_once { (I.state input.new).failures ≤ (I.state input.old).failures + 1 }
    ensures no_texts { IfErr arguments (λ e. error_kind e ≢ ErrorKind.OutOfMemory → IsOkAnd result IsNone) }
    ensures no_memory { IfErr arguments
        (λ e. error_kind e ≡ ErrorKind.OutOfMemory → IsErrOf result RunError.Memory) }
{
    match arguments {
        Ok(texts) if texts.is_empty() => answer_input(rt, alloc, input),
        Ok(texts) => match read_arguments(texts.as_slice()) {
            Some(asked) => Ok(Some(answer_files(rt, alloc, files, &asked)?)),
            None => Ok(None),
        },
        Err(e) if e.kind() == ErrorKind::OutOfMemory => Err(RunError::Memory),
        Err(_) => Ok(None),
    }
}

/// The report on the bundle that an input is, or `None` where it is not a bundle.
fn answer_input<R: RandomSource + Threads + Wait + Sync, I: Pull>(
    rt: &R,
    alloc: Global,
    input: &mut I,
) -> Result<Option<Vec<u8>>, RunError>
    ensures ok { IfOk result (λ found. MatchOption found
        (IsNoBundle (I.state input.old) (I.state input.new))
        (λ report. IsReportOnInput (I.state input.old) (I.state input.new) report.items)) }
    ensures error { IfErr result (IsErrorOnInput (I.state input.old) (I.state input.new)) }
    ensures fails_once { (I.state input.new).failures ≤ (I.state input.old).failures + 1 }
{
    let bytes = load(alloc, input, Source::Input)?;
    match bundle(bytes.as_slice()) {
        Some(parts) => Ok(Some(report(
            rt,
            alloc,
            parts.dump,
            parts.queries,
            cuts_of(&parts.block),
            parts.workers,
            &NoGate,
        )?)),
        None => Ok(None),
    }
}
