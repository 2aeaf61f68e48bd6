//! A talk about the history of a dump.
ghost use Rattle.std.specs.Prelude.{◌≡◌, ◌+◌, ◌^◌, ◌<◌, ◌≤◌, IfErr, IfNone, IfOk, IfSome, IsErrOf, IsFalse, IsTrue, OnOk};
ghost use Rattle.std.specs.Io.KnownBytes.{Appends};
ghost use Rattle.query_pool.specs.Serving.{most_workers};
ghost use Rattle.svn_dump.specs.Draft.{IsWholeHistory};
ghost use Rattle.svn_dump.specs.Dump.{history_in_bytes};
ghost use Rattle.svn_report.specs.declared.run_error.RunError.TheVariants.{Memory};
ghost use Rattle.live_history.specs.History.{IsHistoryOf};
ghost use Rattle.live_history.specs.ReadAhead.{room, stream};
ghost use Rattle.live_history.specs.Replies.{KeepsOutput};
ghost use Rattle.live_history.specs.Talk.{TalkState, ready_text};
ghost use Rattle.live_history.specs.TalkEnd.{AreAllReplied, IsEndEarly, IsTalkError, IsWholeTalk, most_answered};
ghost use Rattle.live_history.specs.Talking.{IsAfterPiece, IsUnsaid};
ghost use Rattle.live_history.specs.Waiting.{IsCaughtUp};
ghost use Rattle.live_history.specs.declared.talk_error.TalkError.TheVariants.{Run};

use crate::client::Client;
use crate::history::History;
use crate::read_ahead::ReadAhead;
use crate::replies::reply_up_to_piece;
use crate::talk_error::TalkError;
use devices::Pull;
use query_pool::Workers;
use std::alloc::Global;
use std::random::RandomSource;
use std::sync::Wait;
use std::thread::Threads;

/// Reads a dump to its end, says its youngest revision, and takes turns until the input ends: it replies to queries, and
/// takes further pieces of the dump, after each of which it says the youngest revision. Each reply ends with an empty
/// line, and goes out before the client is read again. The client is one with which no talk was held before.
///
/// Queries that are there at once are answered by so many workers, 16 for each at a time. A piece is the bytes that
/// follow those of the dump so far, and ends where a block does. A piece that is refused ends the talk.
///
/// The talk ends with `Read(Source::Input)` where the input fails, or 4,294,967,296 reads meet no end.
pub fn talk<R: RandomSource + Threads + Wait + Sync, D: Pull, C: Client>(
    rt: &R,
    alloc: Global,
    dump: &mut D,
    workers: usize,
    client: &mut C,
) -> Result<(), TalkError>
    requires some_worker { 0 < workers }
    requires few_workers { workers ≤ most_workers }
    requires new { C.first client.old ≡ record { input = C.input client.old; output = C.output client.old } }
    ensures ok { OnOk result (IsWholeTalk (D.state dump.old) (D.state dump.new) (C.input client.old)
        (C.input client.new) (C.output client.old) (C.output client.new)) }
    ensures error { IfErr result (IsTalkError (D.state dump.old) (D.state dump.new) (C.input client.old)
        (C.input client.new) (C.output client.old) (C.output client.new)) }

    // Want of memory is no failed read, and no input that ended.
    ensures memory_dump { IsErrOf result (Run Memory) → (D.state dump.new).failures ≡ (D.state dump.old).failures }
    ensures memory { IsErrOf result (Run Memory) → (C.input client.new).failures ≡ (C.input client.old).failures }
    ensures open { IsErrOf result (Run Memory) → (C.input client.new).ends ≡ (C.input client.old).ends }

    ensures fails_once { (D.state dump.new).failures ≤ (D.state dump.old).failures + 1 }
    ensures output_once { (C.output client.new).failures ≤ (C.output client.old).failures + 1 }
{
    let mut ahead = ReadAhead::new(alloc)?;
    let workers = Workers { count: workers };
    let history = History::read(rt, alloc, dump, workers)?;
    match say_ready(alloc, &history, client) {
        Ok(()) => take_turns(rt, alloc, history, workers, &mut ahead, client),
        Err(e) => {
            drop(history);
            Err(e)
        }
    }
}

/// Says the youngest revision.
fn say_ready<C: Client>(alloc: Global, history: &History, client: &mut C) -> Result<(), TalkError>
    ensures said { OnOk result (Appends (C.output client.old).gone (C.output client.new).gone
        (ready_text (history_in_bytes history.now.repo))) }
    ensures flushed { OnOk result (IsTrue (C.output client.new).is_flushed) }
    ensures sound { OnOk result (IsFalse (C.output client.new).has_failed) }
    ensures error { IfErr result (IsUnsaid (ready_text (history_in_bytes history.now.repo)) (C.output client.old)
        (C.output client.new)) }
    ensures sent_all { OnOk result ((C.output client.new).failures ≡ (C.output client.old).failures) }
    ensures fails_once { (C.output client.new).failures ≤ (C.output client.old).failures + 1 }
    ensures input { C.input client.new ≡ C.input client.old }
    ensures first { C.first client.new ≡ C.first client.old }
{
    let ready = history.ready(alloc)?;
    client.send(ready.as_slice())?;
    Ok(())
}

/// Takes turns about a history until the input ends.
fn take_turns<R: Threads + Wait + Sync, C: Client>(
    rt: &R,
    alloc: Global,
    history: History,
    workers: Workers,
    ahead: &mut ReadAhead,
    client: &mut C,
) -> Result<(), TalkError>
    requires whole { IsWholeHistory history.repo }
    requires few { history.paused.count + room ahead.old < 2 ^ 64 }
    requires replied { IsCaughtUp (C.first client.old) (C.output client.old)
        (stream ahead.old (C.input client.old)).come 0 (λ dump. IsHistoryOf dump history) }
    ensures ok { OnOk result ((state : TalkState) → IsHistoryOf state.dump history → state.answered ≡ 0
        → AreAllReplied state (stream ahead.old (C.input client.old)) (C.output client.old).gone (C.input client.new)
        (C.output client.new)) }
    ensures flushed { OnOk result
        (IsTrue (C.output client.old).is_flushed → IsTrue (C.output client.new).is_flushed) }
    ensures sound { OnOk result
        (IsFalse (C.output client.old).has_failed → IsFalse (C.output client.new).has_failed) }
    ensures error { IfErr result (λ e. (state : TalkState) → IsHistoryOf state.dump history → state.answered ≡ 0
        → IsEndEarly state (stream ahead.old (C.input client.old)) (C.output client.old).gone (C.input client.new)
        (C.output client.new) e) }
    ensures kept { IfErr result (KeepsOutput (C.output client.old) (C.output client.new)) }
    ensures memory { IsErrOf result (Run Memory) → (C.input client.new).failures ≡ (C.input client.old).failures }
    ensures open { IsErrOf result (Run Memory) → (C.input client.new).ends ≡ (C.input client.old).ends }
    ensures sent_all { OnOk result ((C.output client.new).failures ≡ (C.output client.old).failures) }
    ensures fails_once { (C.output client.new).failures ≤ (C.output client.old).failures + 1 }
    ensures first { C.first client.new ≡ C.first client.old }
{
    let mut history = history;
    let mut answered = 0;
    'pieces: while let Some(grown) = take_piece(
        rt,
        alloc,
        history,
        workers,
        &mut answered,
        ahead,
        client,
    )? {
        history = grown;
    }
    Ok(())
}

/// Replies to queries up to the next piece, and to that. The history with the piece, or `None` at the end of the input.
fn take_piece<R: Threads + Wait + Sync, C: Client>(
    rt: &R,
    alloc: Global,
    history: History,
    workers: Workers,
    answered: &mut u32,
    ahead: &mut ReadAhead,
    client: &mut C,
) -> Result<Option<History>, TalkError>
    requires whole { IsWholeHistory history.repo }
    requires few { history.paused.count + room ahead.old < 2 ^ 64 }
    requires few_answered { answered.old ≤ most_answered }
    requires replied { IsCaughtUp (C.first client.old) (C.output client.old)
        (stream ahead.old (C.input client.old)).come answered.old (λ dump. IsHistoryOf dump history) }
    ensures taken { IfOk result (λ next. IfSome next (λ grown. (state : TalkState) → IsHistoryOf state.dump history
        → state.answered ≡ answered.old
        → IsAfterPiece state (stream ahead.old (C.input client.old)) (C.output client.old).gone
        (stream ahead.new (C.input client.new)) (C.output client.new) answered.new grown)) }
    ensures whole { IfOk result (λ next. IfSome next (λ grown. IsWholeHistory grown.repo)) }
    ensures few { IfOk result (λ next. IfSome next (λ grown.
        grown.paused.count + room ahead.new ≤ history.paused.count + room ahead.old)) }
    ensures few_answered { IfOk result (λ next. answered.new ≤ most_answered) }
    ensures less { IfOk result (λ next. IfSome next (λ _. room ahead.new < room ahead.old)) }
    ensures end { IfOk result (λ next. IfNone next ((state : TalkState) → IsHistoryOf state.dump history
        → state.answered ≡ answered.old
        → AreAllReplied state (stream ahead.old (C.input client.old)) (C.output client.old).gone (C.input client.new)
        (C.output client.new))) }
    ensures flushed { IfOk result
        (λ _. IsTrue (C.output client.old).is_flushed → IsTrue (C.output client.new).is_flushed) }
    ensures sound { IfOk result
        (λ _. IsFalse (C.output client.old).has_failed → IsFalse (C.output client.new).has_failed) }
    ensures error { IfErr result (λ e. (state : TalkState) → IsHistoryOf state.dump history
        → state.answered ≡ answered.old
        → IsEndEarly state (stream ahead.old (C.input client.old)) (C.output client.old).gone (C.input client.new)
        (C.output client.new) e) }
    ensures kept { IfErr result (KeepsOutput (C.output client.old) (C.output client.new)) }
    ensures unfailed { OnOk result ((C.input client.new).failures ≡ (C.input client.old).failures) }
    ensures unended { IfOk result (λ now. IfSome now (λ _. (C.input client.new).ends ≡ (C.input client.old).ends)) }
    ensures memory { IsErrOf result (Run Memory) → (C.input client.new).failures ≡ (C.input client.old).failures }
    ensures open { IsErrOf result (Run Memory) → (C.input client.new).ends ≡ (C.input client.old).ends }
    ensures sent_all { OnOk result ((C.output client.new).failures ≡ (C.output client.old).failures) }
    ensures fails_once { (C.output client.new).failures ≤ (C.output client.old).failures + 1 }
    ensures first { C.first client.new ≡ C.first client.old }
{
    match reply_up_to_piece(rt, alloc, &history.repo, workers, answered, ahead, client) {
        Ok(Some(size)) => {
            let grown = history.grow(rt, alloc, size, workers, ahead, client)?;
            match say_ready(alloc, &grown, client) {
                Ok(()) => Ok(Some(grown)),
                Err(e) => {
                    drop(grown);
                    Err(e)
                }
            }
        }
        Ok(None) => {
            drop(history);
            Ok(None)
        }
        Err(e) => {
            drop(history);
            Err(e)
        }
    }
}
