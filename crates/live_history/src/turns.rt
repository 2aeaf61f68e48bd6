//! The turns of a talk in its input.
ghost use Rattle.std.specs.Prelude.{◌≡◌, ◌<◌, ◌≤◌, ℕ, length, IfErr, IfNone, IfOk, IfSome, IsErrOf, OnOk};
ghost use Rattle.svn_report.specs.Answering.{lent_lines};
ghost use Rattle.svn_report.specs.ReportFrom.{most_bytes};
ghost use Rattle.svn_report.specs.declared.run_error.RunError.TheVariants.{Memory};
ghost use Rattle.live_history.specs.Client.{IsRepliedUpTo};
ghost use Rattle.live_history.specs.ReadAhead.{IsLineEnd, room, stream};
ghost use Rattle.live_history.specs.Turn.{IsPieceLine};
ghost use Rattle.live_history.specs.Turns.{AreQueries, HasQuery, IfPiece, IfTurn, IsFirstQuery, IsNext};
ghost use Rattle.live_history.specs.declared.talk_error.TalkError.TheVariants.{Run};

use crate::client::Client;
use crate::read_ahead::ReadAhead;
use crate::talk_error::TalkError;
use std::alloc::{AllocError, Global};
use svn_text::{number_up_to, split_at_byte};

/// How many bytes a piece has at most.
const GREATEST_PIECE: u64 = 9_223_372_036_854_775_807;

/// What comes next in an input.
#[derive(Clone, Copy, Debug)]
pub(crate) enum Next {
    /// A query. Its line was not taken yet.
    Query,
    /// A piece of so many bytes. The line before it was taken.
    Piece(u64),
    End,
}

/// Reads up to the next turn, if there is one.
pub(crate) fn read_next<C: Client>(ahead: &mut ReadAhead, client: &mut C) -> Result<Next, TalkError>
    requires replied { IsRepliedUpTo (C.first client.old) (C.output client.old)
        (stream ahead.old (C.input client.old)).come }
    ensures next { IfOk result (IsNext (stream ahead.old (C.input client.old)) ahead.new (C.input client.new)) }
    ensures room { IfOk result (λ next. room ahead.new ≤ room ahead.old) }
    ensures less { IfOk result (λ next. IfPiece next (room ahead.new < room ahead.old)) }
    ensures near { IfOk result (λ next. IfPiece next (length ahead.new.unread ≤ most_bytes)) }
    ensures error { IfErr result (IsLineEnd (stream ahead.old (C.input client.old)) (C.input client.new)) }
    ensures unfailed { OnOk result ((C.input client.new).failures ≡ (C.input client.old).failures) }
    ensures unended { IfOk result (λ next. IfTurn next ((C.input client.new).ends ≡ (C.input client.old).ends)) }
    ensures memory { IsErrOf result (Run Memory) → (C.input client.new).failures ≡ (C.input client.old).failures }
    ensures open { IsErrOf result (Run Memory) → (C.input client.new).ends ≡ (C.input client.old).ends }
    ensures output { C.output client.new ≡ C.output client.old }
    ensures first { C.first client.new ≡ C.first client.old }
{
    let Some(len) = ahead.read_line(client)? else {
        return Ok(Next::End);
    };
    match piece_size(&ahead.unread()[..len]) {
        Some(size) => {
            ahead.take(len + 1);
            Ok(Next::Piece(size))
        }
        None => Ok(Next::Query),
    }
}

/// How many bytes the piece has that follows such a line.
fn piece_size(line: &[u8]) -> Option<u64>
    ensures piece { IfSome result (IsPieceLine line.now) }
    ensures none { IfNone result ((size : ℕ) → IsPieceLine line.now size → ⊥) }
{
    number_up_to(GREATEST_PIECE, line.strip_prefix(b"piece ".as_slice())?)
}

/// The first line, where it is a query and all of it is there, and what follows it.
fn first_query(bytes: &[u8]) -> Option<(&[u8], &[u8])>
    ensures query { IfSome result (λ found. IsFirstQuery bytes.now found.0.now found.1.now) }
    ensures none { IfNone result (HasQuery bytes.now → ⊥) }
{
    let (line, rest) = split_at_byte(b'\n', bytes)?;
    match piece_size(line) {
        Some(_) => None,
        None => Some((line, rest)),
    }
}

/// The first queries of which all is there, one or more and at most so many, and what follows them.
pub(crate) fn first_queries(
    alloc: Global,
    bytes: &[u8],
    most: usize,
) -> Result<(Vec<&[u8]>, &[u8]), AllocError>
    requires query { HasQuery bytes.now }
    requires some { 0 < most }
    ensures queries { IfOk result (λ found. AreQueries bytes.now (lent_lines found.0.items) found.1.now) }
    ensures some { IfOk result (λ found. 0 < length found.0.items) }
    ensures few { IfOk result (λ found. length found.0.items ≤ most) }
{
    let mut lines = Vec::new(alloc);
    let mut rest = bytes;
    'lines: while lines.len() < most {
        let Some((line, more)) = first_query(rest) else {
            break;
        };
        lines.push(line)?;
        rest = more;
    }
    Ok((lines, rest))
}
