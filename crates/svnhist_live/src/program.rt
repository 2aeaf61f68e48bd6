//! The program: turns in, replies out.
ghost use Rattle.std.specs.Prelude.{◌≡◌, ◌≢◌, ◌+◌, ◌<◌, ◌≤◌, IfErr, IfOk, IsErrOf, IsFalse, IsOkAnd, IsTrue, OnOk};
ghost use Rattle.std.specs.Process.{exit_status};
ghost use Rattle.std.specs.IoError.{error_kind};
ghost use Rattle.query_pool.specs.Serving.{most_workers};
ghost use Rattle.devices.specs.Arguments.{texts_of};
ghost use Rattle.devices.specs.Sending.{PrintsLine};
ghost use Rattle.live_history.specs.TalkError.{IsTalkErrorLine};
ghost use Rattle.svnhist_live.specs.Asked.{IsEnded, IsErrorAsked, IsErrorOn, IsMisused, IsTalkAsked, IsTalkOn};
ghost use Rattle.svnhist_live.specs.ProgramLines.{usage_line};

use crate::arguments::{Arguments, read_arguments};
use devices::{Open, Pull, Push, Source, print_line};
use live_history::{Client, TalkError, talk};
use std::alloc::Global;
use std::io::{self, ErrorKind};
use std::process::ExitCode;
use std::random::RandomSource;
use std::sync::Wait;
use std::thread::Threads;
use svn_report::RunError;

const USAGE: &[u8] = b"svnhist: usage: svnhist-live DUMP WORKERS\n";

/// Does what the arguments after the program's name ask for, and answers the status with which the program ends. Where
/// there is no whole talk, one line for `errors` says why.
pub(crate) fn run<R: RandomSource + Threads + Wait + Sync, F: Open + Pull, C: Client, E: Push>(
    rt: &R,
    alloc: Global,
    files: &mut F,
    arguments: io::Result<Vec<String>>,
    client: &mut C,
    errors: &mut E,
) -> ExitCode
    requires new { C.first client.old ≡ record { input = C.input client.old; output = C.output client.old } }
    ensures done { exit_status result ≡ 0 → IsTalkAsked F.opens F.refuses F.state files.old files.new
        (C.input client.old) (C.input client.new) (C.output client.old) (C.output client.new) (texts_of arguments) }
    ensures misused { exit_status result ≡ 2 → IsMisused (texts_of arguments) }
    ensures usage_line { exit_status result ≡ 2 → PrintsLine (E.state errors.old) (E.state errors.new) usage_line }
    ensures untouched { exit_status result ≡ 2 → client.new ≡ client.old }
    ensures unopened { exit_status result ≡ 2 → files.new ≡ files.old }
    ensures ended { exit_status result ≢ 0 → exit_status result ≢ 2 → IsEnded
        (IsErrorAsked F.opens F.refuses F.state files.old files.new
        (C.input client.old) (C.input client.new) (C.output client.old) (C.output client.new) (texts_of arguments))
        (λ e. IsTalkErrorLine (exit_status result) e (E.state errors.old) (E.state errors.new)) }
    ensures known { exit_status result ≤ 4 }
    ensures output_once { (C.output client.new).failures ≤ (C.output client.old).failures + 1 }
    ensures silent { exit_status result ≡ 0 → errors.new ≡ errors.old }
    ensures no_texts { IfErr arguments (λ e. error_kind e ≢ ErrorKind.OutOfMemory → exit_status result ≡ 2) }
    ensures no_memory { IfErr arguments (λ e. error_kind e ≡ ErrorKind.OutOfMemory → exit_status result ≡ 4) }
{
    match talk_asked(rt, alloc, files, arguments, client) {
        Ok(true) => ExitCode::from(0),
        Ok(false) => {
            print_line(errors, USAGE);
            ExitCode::from(2)
        }
        Err(error) => ExitCode::from(error.print(alloc, errors)),
    }
}

/// The talk that the arguments ask for. `false` where they ask for nothing.
fn talk_asked<R: RandomSource + Threads + Wait + Sync, F: Open + Pull, C: Client>(
    rt: &R,
    alloc: Global,
    files: &mut F,
    arguments: io::Result<Vec<String>>,
    client: &mut C,
) -> Result<bool, TalkError>
    requires new { C.first client.old ≡ record { input = C.input client.old; output = C.output client.old } }
    ensures done { IfOk result (λ asked. IsTrue asked → IsTalkAsked F.opens F.refuses F.state files.old files.new
        (C.input client.old) (C.input client.new) (C.output client.old) (C.output client.new) (texts_of arguments)) }
    ensures misused { IfOk result (λ asked. IsFalse asked → IsMisused (texts_of arguments)) }
    ensures untouched { IfOk result (λ asked. IsFalse asked → client.new ≡ client.old) }
    ensures unopened { IfOk result (λ asked. IsFalse asked → files.new ≡ files.old) }
    ensures error { IfErr result (IsErrorAsked F.opens F.refuses F.state files.old files.new
        (C.input client.old) (C.input client.new) (C.output client.old) (C.output client.new) (texts_of arguments)) }
    ensures output_once { (C.output client.new).failures ≤ (C.output client.old).failures + 1 }
    ensures no_texts { IfErr arguments (λ e. error_kind e ≢ ErrorKind.OutOfMemory → IsOkAnd result IsFalse) }
    ensures no_memory { IfErr arguments (λ e. error_kind e ≡ ErrorKind.OutOfMemory
        → IsErrOf result (TalkError.Run RunError.Memory)) }
{
    match arguments {
        Ok(texts) => match read_arguments(texts.as_slice()) {
            Some(asked) => {
                talk_about(rt, alloc, files, &asked, client)?;
                Ok(true)
            }
            None => Ok(false),
        },
        Err(e) if e.kind() == ErrorKind::OutOfMemory => Err(TalkError::Run(RunError::Memory)),
        Err(_) => Ok(false),
    }
}

/// The talk about a file.
fn talk_about<R: RandomSource + Threads + Wait + Sync, F: Open + Pull, C: Client>(
    rt: &R,
    alloc: Global,
    files: &mut F,
    asked: &Arguments<'_>,
    client: &mut C,
) -> Result<(), TalkError>
    requires some_worker { 0 < asked.now.workers }
    requires few_workers { asked.now.workers ≤ most_workers }
    requires new { C.first client.old ≡ record { input = C.input client.old; output = C.output client.old } }
    ensures done { OnOk result (IsTalkOn F.opens F.refuses F.state files.old files.new (C.input client.old)
        (C.input client.new) (C.output client.old) (C.output client.new) asked.now.dump.now) }
    ensures error { IfErr result (IsErrorOn F.opens F.refuses F.state files.old files.new (C.input client.old)
        (C.input client.new) (C.output client.old) (C.output client.new) asked.now.dump.now) }
    ensures output_once { (C.output client.new).failures ≤ (C.output client.old).failures + 1 }
{
    if !files.open(asked.dump) {
        return Err(TalkError::Run(RunError::Read(Source::Dump)));
    }
    talk(rt, alloc, files, asked.workers, client)
}
