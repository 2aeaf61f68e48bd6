//! Reading all of an input.
ghost use Rattle.std.specs.Prelude.{◌≡◌, ◌+◌, ◌≤◌, IfErr, IfOk, IsErrOf, OnOk, IsFalse};
ghost use Rattle.std.specs.Io.KnownBytes.{Consumes, IsAtEnd};
ghost use Rattle.svn_report.specs.Load.{most_reads, IsReadOrMemory, IsReadError, IsUnread};

use crate::run_error::RunError;
use devices::{Pull, Source};
use std::alloc::Global;

/// How many reads one call makes at most.
pub(crate) const MOST_READS: u64 = 4_294_967_296;

/// How many bytes one read gives at most.
pub(crate) const PIECE: usize = 65_536;

/// All bytes of an input.
///
/// `Read` where the device fails, or 4,294,967,296 reads meet no end.
pub fn load<P: Pull>(alloc: Global, input: &mut P, source: Source) -> Result<Vec<u8>, RunError>
    ensures bytes { IfOk result (λ bytes. Consumes (P.state input.old).left (P.state input.new).left bytes.items) }
    ensures end { OnOk result (IsAtEnd (P.state input.new).left) }
    ensures ends { OnOk result ((P.state input.new).ends ≡ (P.state input.old).ends + 1) }
    ensures sound { OnOk result (IsFalse (P.state input.new).has_failed) }
    ensures error { IfErr result (IsReadOrMemory source) }

    // `Read` comes only where no call reached the end, and the device failed or the reads are used up.
    ensures unread { IfErr result (λ e. IsReadError e → IsUnread (P.state input.old) (P.state input.new)) }
    ensures unfailed { OnOk result ((P.state input.new).failures ≡ (P.state input.old).failures) }
    ensures memory { IsErrOf result RunError.Memory → (P.state input.new).failures ≡ (P.state input.old).failures }

    // The device is not called again after a failure, since each call of a failed device fails.
    ensures fails_once { (P.state input.new).failures ≤ (P.state input.old).failures + 1 }
    ensures reads { (P.state input.new).calls ≤ (P.state input.old).calls + most_reads }
{
    let mut piece = Vec::with_capacity(alloc, PIECE)?;
    piece.resize(PIECE, 0)?;
    let mut bytes = Vec::new(alloc);
    for _ in 0..MOST_READS {
        match input.pull(piece.as_mut_slice()) {
            Err(_) => return Err(RunError::Read(source)),
            Ok(0) => return Ok(bytes),
            Ok(n) => bytes.extend_from_slice(&piece[..n])?,
        }
    }
    Err(RunError::Read(source))
}
