//! Replies to queries.
ghost use Rattle.std.specs.Prelude.{◌≡◌, ◌+◌, ◌^◌, ◌<◌, ◌≤◌, length, IfErr, IfOk, IfSome, IsErrOf, IsFalse, IsTrue, OnOk};
ghost use Rattle.devices.specs.Device.{PullState};
ghost use Rattle.std.specs.List.{flat_map};
ghost use Rattle.svn_text.specs.Line.{line_text};
ghost use Rattle.svn_dump.specs.Dump.{history_in_bytes};
ghost use Rattle.svn_report.specs.Answering.{lent_lines};
ghost use Rattle.svn_report.specs.Report.{most_queries};
ghost use Rattle.svn_report.specs.ReportFrom.{most_bytes};
ghost use Rattle.svn_report.specs.declared.run_error.RunError.TheVariants.{Memory};
ghost use Rattle.live_history.specs.ReadAhead.{AreNear, room, stream};
ghost use Rattle.live_history.specs.Replies.{AreRepliedTo, IsUpToNext, KeepsOutput, replies};
ghost use Rattle.live_history.specs.Talk.{IsLawfulDump, TalkState};
ghost use Rattle.live_history.specs.TalkEnd.{IsEndEarly, most_answered};
ghost use Rattle.live_history.specs.Turns.{HasQuery};
ghost use Rattle.live_history.specs.Waiting.{IsCaughtUp};
ghost use Rattle.live_history.specs.declared.talk_error.TalkError.TheVariants.{Run};

use crate::answering::Batch;
use crate::client::Client;
use crate::read_ahead::ReadAhead;
use crate::talk_error::TalkError;
use crate::turns::{Next, first_queries, read_next};
use query_answer::Repo;
use query_pool::Workers;
use std::alloc::{AllocError, Global};
use std::sync::Wait;
use std::thread::Threads;
use value_memo::Memo;

/// How many queries are answered at a time for each worker, if so many are there.
const SHARE: usize = 16;

/// Replies to queries up to the next piece, and answers how many bytes it has; `None` at the end of the input.
pub(crate) fn reply_up_to_piece<R: Threads + Wait + Sync, C: Client>(
    rt: &R,
    alloc: Global,
    repo: &Repo,
    workers: Workers,
    answered: &mut u32,
    ahead: &mut ReadAhead,
    client: &mut C,
) -> Result<Option<u64>, TalkError>
    requires few_answered { answered.old ≤ most_answered }
    requires replied { IsCaughtUp (C.first client.old) (C.output client.old)
        (stream ahead.old (C.input client.old)).come answered.old
        (λ dump. IsLawfulDump dump (history_in_bytes repo.now)) }
    ensures ok { IfOk result (λ next. (state : TalkState) → IsLawfulDump state.dump (history_in_bytes repo.now)
        → state.answered ≡ answered.old
        → IsUpToNext state (stream ahead.old (C.input client.old)) (C.output client.old).gone
        (stream ahead.new (C.input client.new)) (C.input client.new) (C.output client.new) answered.new next) }
    ensures few_answered { IfOk result (λ next. answered.new ≤ most_answered) }
    ensures room { IfOk result (λ next. room ahead.new ≤ room ahead.old) }
    ensures less { IfOk result (λ next. IfSome next (λ _. room ahead.new < room ahead.old)) }
    ensures near { IfOk result (λ next. IfSome next (λ _. length ahead.new.unread ≤ most_bytes)) }
    ensures flushed { IfOk result
        (λ _. IsTrue (C.output client.old).is_flushed → IsTrue (C.output client.new).is_flushed) }
    ensures sound { IfOk result
        (λ _. IsFalse (C.output client.old).has_failed → IsFalse (C.output client.new).has_failed) }
    ensures error { IfErr result (λ e. (state : TalkState) → IsLawfulDump state.dump (history_in_bytes repo.now)
        → state.answered ≡ answered.old
        → IsEndEarly state (stream ahead.old (C.input client.old)) (C.output client.old).gone
        (C.input client.new) (C.output client.new) e) }
    ensures kept { IfErr result (KeepsOutput (C.output client.old) (C.output client.new)) }
    ensures unfailed { OnOk result ((C.input client.new).failures ≡ (C.input client.old).failures) }
    ensures unended { IfOk result (λ now. IfSome now (λ _. (C.input client.new).ends ≡ (C.input client.old).ends)) }
    ensures memory { IsErrOf result (Run Memory) → (C.input client.new).failures ≡ (C.input client.old).failures }
    ensures open { IsErrOf result (Run Memory) → (C.input client.new).ends ≡ (C.input client.old).ends }
    ensures sent_all { OnOk result ((C.output client.new).failures ≡ (C.output client.old).failures) }
    ensures fails_once { (C.output client.new).failures ≤ (C.output client.old).failures + 1 }
    ensures first { C.first client.new ≡ C.first client.old }
{
    let memo = repo.memo(alloc)?;
    'turns: loop {
        match read_next(ahead, client)? {
            Next::Query => {
                reply_to_queries(rt, alloc, repo, &memo, workers, answered, ahead, client)?;
            }
            Next::Piece(size) => return Ok(Some(size)),
            Next::End => return Ok(None),
        }
    }
}

/// Replies to the first queries of which all is there.
fn reply_to_queries<'r, R: Threads + Wait + Sync, C: Client>(
    rt: &R,
    alloc: Global,
    repo: &'r Repo,
    memo: &Memo<'r>,
    workers: Workers,
    answered: &mut u32,
    ahead: &mut ReadAhead,
    client: &mut C,
) -> Result<(), TalkError>
    requires query { HasQuery ahead.old.unread }
    requires near { AreNear ahead.old.unread }
    requires cells { length repo.now.values ≤ length memo.now }
    requires few_answered { answered.old ≤ most_answered }
    ensures ok { OnOk result ((state : TalkState) → IsLawfulDump state.dump (history_in_bytes repo.now)
        → state.answered ≡ answered.old → (input : PullState)
        → AreRepliedTo state (stream ahead.old input) (C.output client.old).gone (stream ahead.new input)
        (C.output client.new) answered.new) }
    ensures few { OnOk result (answered.new ≤ most_answered) }
    ensures less { OnOk result (room ahead.new < room ahead.old) }
    ensures flushed { OnOk result (IsTrue (C.output client.new).is_flushed) }
    ensures sound { OnOk result (IsFalse (C.output client.new).has_failed) }
    ensures error { IfErr result (λ e. (state : TalkState) → IsLawfulDump state.dump (history_in_bytes repo.now)
        → state.answered ≡ answered.old → (input : PullState)
        → IsEndEarly state (stream ahead.old input) (C.output client.old).gone input (C.output client.new) e) }
    ensures kept { IfErr result (KeepsOutput (C.output client.old) (C.output client.new)) }
    ensures sent_all { OnOk result ((C.output client.new).failures ≡ (C.output client.old).failures) }
    ensures fails_once { (C.output client.new).failures ≤ (C.output client.old).failures + 1 }
    ensures input { C.input client.new ≡ C.input client.old }
    ensures first { C.first client.new ≡ C.first client.old }
{
    let most = (SHARE * workers.count).min((u32::MAX - *answered) as usize);
    if most == 0 {
        return Err(TalkError::TooMany);
    }
    let (lines, rest) = first_queries(alloc, ahead.unread(), most)?;
    let text = reply_text(rt, alloc, repo, memo, *answered, lines.as_slice(), workers)?;
    client.send(text.as_slice())?;
    let count = ahead.unread().len() - rest.len();
    *answered += lines.len() as u32;
    drop(lines);
    ahead.take(count);
    Ok(())
}

/// The replies to these query lines.
fn reply_text<'r, R: Threads + Wait + Sync>(
    rt: &R,
    alloc: Global,
    repo: &'r Repo,
    memo: &Memo<'r>,
    answered: u32,
    lines: &[&[u8]],
    workers: Workers,
) -> Result<Vec<u8>, AllocError>
    requires cells { length repo.now.values ≤ length memo.now }
    requires few { length lines.now ≤ most_queries }
    requires numbered { answered + length lines.now < 2 ^ 32 }
    ensures { IfOk result (λ text. text.items ≡ replies repo.now answered (lent_lines lines.now)) }
{
    let batch = Batch {
        alloc,
        repo,
        memo,
        first: answered,
        lines,
    };
    let texts = batch.answers(rt, workers)?;
    with_empty_lines(alloc, texts.as_slice())
}

/// Texts one after another, an empty line after each.
fn with_empty_lines(alloc: Global, texts: &[Vec<u8>]) -> Result<Vec<u8>, AllocError>
    ensures { IfOk result (λ all. all.items ≡ flat_map (λ text. line_text text.items) texts.now) }
{
    let mut all = Vec::new(alloc);
    for text in texts {
        all.extend_from_slice(text.as_slice())?;
        all.push(b'\n')?;
    }
    Ok(all)
}
