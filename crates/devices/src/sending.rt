//! Sending a report, and the line that says why there is none.
ghost use Rattle.std.specs.Prelude.{◌≡◌, ◌+◌, ◌<◌, ◌≤◌, ◌↔◌, take, length, IfErr, OnOk, IsErr, IsTrue};
ghost use Rattle.std.specs.Io.KnownBytes.{Appends};
ghost use Rattle.devices.specs.Sending.{PrintsLine};

use crate::device::Push;
use thiserror::Error;

/// The device failed after it had taken the first `sent` bytes.
#[derive(Clone, Copy, Debug, PartialEq, Eq, Error)]
#[error("only {sent} bytes went out")]
pub struct SendError {
    pub sent: u64,
}

/// Sends all the bytes, and flushes the device. The first failure ends it.
pub fn send<W: Push>(output: &mut W, bytes: &[u8]) -> Result<(), SendError>
    ensures ok { OnOk result (Appends (W.state output.old).gone (W.state output.new).gone bytes.now) }
    ensures flushed { OnOk result (IsTrue (W.state output.new).is_flushed) }
    ensures within { IfErr result (λ e. e.sent ≤ length bytes.now) }
    ensures sent { IfErr result
        (λ e. Appends (W.state output.old).gone (W.state output.new).gone (take e.sent bytes.now)) }
    ensures failed { IsErr result ↔ IsTrue (W.state output.new).has_failed }
    ensures called { (W.state output.old).calls < (W.state output.new).calls }

    // The device is not called again after a failure, since each call of a failed device fails.
    ensures unfailed { OnOk result ((W.state output.new).failures ≡ (W.state output.old).failures) }
    ensures fails_once { (W.state output.new).failures ≤ (W.state output.old).failures + 1 }
{
    let mut sent = 0;
    while sent < bytes.len() {
        match output.push(&bytes[sent..]) {
            Ok(n) => sent += n,
            Err(_) => return Err(SendError { sent: sent as u64 }),
        }
    }
    match output.flush() {
        Ok(()) => Ok(()),
        Err(_) => Err(SendError { sent: sent as u64 }),
    }
}

/// Prints a line on standard error. Where that fails there is nowhere left to say so.
pub fn print_line<E: Push>(errors: &mut E, line: &[u8])
    ensures { PrintsLine (E.state errors.old) (E.state errors.new) line.now }
{
    let _ = send(errors, line);
}
