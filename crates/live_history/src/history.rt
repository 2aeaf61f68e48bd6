//! A history that was read and may grow.
use crate::client::Client;
use crate::feeding::feed_piece;
use crate::read_ahead::ReadAhead;
use crate::talk_error::TalkError;
use devices::Pull;
use query_answer::Repo;
use query_pool::Workers;
use std::alloc::{AllocError, Global};
use std::random::RandomSource;
use std::sync::Wait;
use std::thread::Threads;
use svn_dump::Paused;
use svn_report::{RunError, feed_from, grow_repo, load_repo};
use svn_text::{Seed, push_number};

/// The history of a dump, and the state of its reader, which waits for more of the dump.
#[derive(Drop)]
pub(crate) struct History {
    pub(crate) repo: Repo,
    pub(crate) paused: Paused,
}

impl History {
    ghost use Rattle.std.specs.Prelude.{◌≡◌, ◌+◌, ◌*◌, ◌^◌, ◌<◌, ◌≤◌, ℕ, List, length, IfErr, IfOk, IsErrOf, OnOk};
    ghost use Rattle.svn_dump.specs.Draft.{IsWholeHistory};
    ghost use Rattle.svn_dump.specs.Dump.{history_in_bytes};
    ghost use Rattle.svn_report.specs.Load.{most_reads};
    ghost use Rattle.svn_report.specs.ReportFrom.{most_bytes};
    ghost use Rattle.svn_report.specs.declared.run_error.RunError.TheVariants.{Memory};
    ghost use Rattle.live_history.specs.History.{IsGrown, IsHistoryFrom, IsHistoryOf};
    ghost use Rattle.live_history.specs.PieceEnd.{IsPieceEnd};
    ghost use Rattle.live_history.specs.ReadAhead.{room, stream};
    ghost use Rattle.live_history.specs.Talk.{ready_text};
    ghost use Rattle.live_history.specs.TalkEnd.{IsNoHistory};
    ghost use Rattle.live_history.specs.Waiting.{IsPieceNext};
    ghost use Rattle.live_history.specs.declared.talk_error.TalkError.TheVariants.{Run};

    /// The history of the dump that a device gives, read to its end.
    pub(crate) fn read<R: RandomSource + Threads + Wait + Sync, D: Pull>(
        rt: &R,
        alloc: Global,
        dump: &mut D,
        workers: Workers,
    ) -> Result<Self, RunError>
        ensures ok { IfOk result (IsHistoryFrom (D.state dump.old) (D.state dump.new)) }
        ensures whole { IfOk result (λ history. IsWholeHistory history.repo) }
        ensures few { IfOk result (λ history. history.paused.count ≤ most_reads * most_bytes) }
        ensures error { IfErr result (IsNoHistory (D.state dump.old) (D.state dump.new)) }
        ensures unfailed { OnOk result ((D.state dump.new).failures ≡ (D.state dump.old).failures) }
        ensures memory { IsErrOf result Memory → (D.state dump.new).failures ≡ (D.state dump.old).failures }
        ensures fails_once { (D.state dump.new).failures ≤ (D.state dump.old).failures + 1 }
    {
        let feed = feed_from(alloc, Seed::random(rt), dump)?;
        let (dump, paused) = feed.pause()?;
        let repo = load_repo(rt, alloc, dump, &[], workers.count)?;
        Ok(History { repo, paused })
    }

    /// This history with a further piece of the dump, of so many bytes, which is taken off the input.
    pub(crate) fn grow<R: Threads + Wait + Sync, C: Client>(
        self,
        rt: &R,
        alloc: Global,
        size: u64,
        workers: Workers,
        ahead: &mut ReadAhead,
        client: &mut C,
    ) -> Result<Self, TalkError>
        requires whole { IsWholeHistory self.repo }
        requires few { self.paused.count + room ahead.old < 2 ^ 64 }
        requires near { length ahead.old.unread ≤ most_bytes }
        requires piece { IsPieceNext (C.first client.old) (C.output client.old)
            (stream ahead.old (C.input client.old)).come size }
        ensures ok { IfOk result (λ grown. (before : List ℕ) → IsHistoryOf before self
            → IsGrown before size (stream ahead.old (C.input client.old)) (stream ahead.new (C.input client.new))
            grown) }
        ensures whole { IfOk result (λ grown. IsWholeHistory grown.repo) }
        ensures few { IfOk result (λ next. next.paused.count + room ahead.new ≤ self.paused.count + room ahead.old) }
        ensures room { IfOk result (λ grown. room ahead.new ≤ room ahead.old) }
        ensures near { IfOk result (λ grown. length ahead.new.unread ≤ most_bytes) }
        ensures error { IfErr result (λ e. (before : List ℕ) → IsHistoryOf before self
            → IsPieceEnd before size (stream ahead.old (C.input client.old)) (C.input client.new) e) }
        ensures unfailed { OnOk result ((C.input client.new).failures ≡ (C.input client.old).failures) }
        ensures unended { OnOk result ((C.input client.new).ends ≡ (C.input client.old).ends) }
        ensures memory { IsErrOf result (Run Memory)
            → (C.input client.new).failures ≡ (C.input client.old).failures }
        ensures open { IsErrOf result (Run Memory) → (C.input client.new).ends ≡ (C.input client.old).ends }
        ensures output { C.output client.new ≡ C.output client.old }
        ensures first { C.first client.new ≡ C.first client.old }
    {
        let History { repo, paused } = self;
        let (dump, index, map, _) = repo.into_parts();
        let mut feed = paused.resume(dump);
        feed_piece(&mut feed, size, ahead, client)?;
        let (dump, paused) = feed.pause()?;
        let repo = grow_repo(rt, alloc, dump, index, map, workers.count)?;
        Ok(History { repo, paused })
    }

    /// The reply that says the youngest revision.
    pub(crate) fn ready(&self, alloc: Global) -> Result<Vec<u8>, AllocError>
        ensures { IfOk result (λ text. text.items ≡ ready_text (history_in_bytes self.now.repo)) }
    {
        let mut text = Vec::from_slice(alloc, b"ready ".as_slice())?;
        push_number(&mut text, u64::from(self.repo.youngest()))?;
        text.extend_from_slice(b"\n\n".as_slice())?;
        Ok(text)
    }
}
