//! Bytes of an input that come to the reader of a dump.
ghost use Rattle.std.specs.Prelude.{◌≡◌, ◌+◌, ◌^◌, ◌<◌, ◌≤◌, ℕ, List, None, length, IfErr, IsErrOf, OnOk};
ghost use Rattle.svn_dump.specs.Feed.{HasRead};
ghost use Rattle.svn_report.specs.ReportFrom.{most_bytes};
ghost use Rattle.svn_report.specs.declared.run_error.RunError.TheVariants.{Memory};
ghost use Rattle.live_history.specs.History.{IsFed};
ghost use Rattle.live_history.specs.PieceEnd.{IsPieceEnd};
ghost use Rattle.live_history.specs.ReadAhead.{room, stream};
ghost use Rattle.live_history.specs.Waiting.{IsPieceNext};
ghost use Rattle.live_history.specs.declared.talk_error.TalkError.TheVariants.{Run};

use crate::client::Client;
use crate::read_ahead::ReadAhead;
use crate::talk_error::TalkError;
use svn_dump::Feed;

/// Takes so many bytes off the input, which come to a reader.
pub(crate) fn feed_piece<C: Client>(
    feed: &mut Feed,
    size: u64,
    ahead: &mut ReadAhead,
    client: &mut C,
) -> Result<(), TalkError>
    requires few { feed.old.count + room ahead.old < 2 ^ 64 }
    requires going { feed.old.error ≡ None }
    requires near { length ahead.old.unread ≤ most_bytes }
    requires piece { IsPieceNext (C.first client.old) (C.output client.old)
        (stream ahead.old (C.input client.old)).come size }
    ensures ok { OnOk result
        (IsFed feed.old size (stream ahead.old (C.input client.old)) (stream ahead.new (C.input client.new)) feed.new) }
    ensures few { OnOk result (feed.new.count + room ahead.new ≤ feed.old.count + room ahead.old) }
    ensures room { OnOk result (room ahead.new ≤ room ahead.old) }
    ensures near { OnOk result (length ahead.new.unread ≤ most_bytes) }
    ensures error { IfErr result (λ e. (before : List ℕ) → HasRead feed.old before
        → IsPieceEnd before size (stream ahead.old (C.input client.old)) (C.input client.new) e) }
    ensures unfailed { OnOk result ((C.input client.new).failures ≡ (C.input client.old).failures) }
    ensures unended { OnOk result ((C.input client.new).ends ≡ (C.input client.old).ends) }
    ensures memory { IsErrOf result (Run Memory) → (C.input client.new).failures ≡ (C.input client.old).failures }
    ensures open { IsErrOf result (Run Memory) → (C.input client.new).ends ≡ (C.input client.old).ends }
    ensures output { C.output client.new ≡ C.output client.old }
    ensures first { C.first client.new ≡ C.first client.old }
{
    let mut left = size;
    'bytes: while left > 0 {
        if !ahead.read_some(client)? {
            return Err(TalkError::Cut);
        }
        let len = (ahead.unread().len() as u64).min(left) as usize;
        feed.feed(&ahead.unread()[..len])?;
        ahead.take(len);
        left -= len as u64;
    }
    Ok(())
}
