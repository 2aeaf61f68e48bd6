//! A batch of query lines.
ghost use Rattle.std.specs.Prelude.{◌≡◌, ◌+◌, ◌^◌, ◌<◌, ◌≤◌, ℕ, IfOk, length, map};
ghost use Rattle.std.specs.List.{flat_map};
ghost use Rattle.query_pool.specs.Serving.{most_workers};
ghost use Rattle.svn_report.specs.Answering.{answers_to_batch, texts_to_batch};
ghost use Rattle.svn_report.specs.Report.{most_queries};

use query_answer::{Query, Repo, answer};
use query_pool::{Gate, GatherError, Job, NoGate, Workers, gather, serve};
use std::alloc::{AllocError, Global};
use std::sync::Wait;
use std::thread::Threads;
use value_memo::{Memo, Seen};

/// The bytes that are reserved for an answer at first. Most answers are shorter.
const USUAL_LENGTH: usize = 128;

/// Some of the query lines of a run on a repository, which follow the first `first` ones. A place is that of a line
/// among them, and the result there is the text of its answer.
#[derive(Drop)]
pub(crate) struct Batch<'r, 'a> {
    pub(crate) alloc: Global,
    pub(crate) repo: &'r Repo,
    pub(crate) memo: &'a Memo<'r>,
    pub(crate) first: u32,
    pub(crate) lines: &'a [&'a [u8]],
    ghost cells: { length repo.now.values ≤ length memo.now },
    ghost few: { length lines.now ≤ most_queries },
    ghost numbered: { first + length lines.now < 2 ^ 32 },
}

impl<'r> Job for Batch<'r, '_> {
    ghost use Rattle.query_answer.specs.Worker.{IsSeenOf};
    ghost use Rattle.svn_report.specs.Answering.{HasLine, IsTextAt};

    type Out = Vec<u8>;

    type State = Seen<'r>;

    ghost has = { λ batch place. HasLine batch.lines.now place };

    ghost lawful = { λ batch seen. IsSeenOf batch.repo.now.values batch.memo.now seen };

    ghost gives = { λ batch place text. IsTextAt batch.repo.now batch.first batch.lines.now place text.items };

    fn state(&self) -> Result<Seen<'r>, AllocError> {
        Seen::new(self.alloc, self.memo)
    }

    fn run(&self, place: u32, seen: &mut Seen<'r>) -> Result<Vec<u8>, AllocError> {
        let query = Query::read(self.lines[place as usize]);
        let mut text = Vec::with_capacity(self.alloc, USUAL_LENGTH)?;
        answer(self.alloc, self.repo, &query, self.memo, seen)?.write(
            self.repo,
            self.first + place,
            &mut text,
        )?;
        Ok(text)
    }
}

impl Batch<'_, '_> {
    /// The answers to the lines, in their order, found by so many workers.
    pub(crate) fn answers<R: Threads + Wait + Sync, G: Gate>(
        &self,
        rt: &R,
        workers: Workers,
        gate: &G,
    ) -> Result<Vec<Vec<u8>>, AllocError>
        requires gate { (at : ℕ) → at < length self.now.lines.now → G.watches gate.now (self.now.first + at) }
        ensures texts { IfOk result (λ texts. map (λ text. text.items) texts.items
            ≡ texts_to_batch self.now.repo.now self.now.first self.now.lines.now) }
        ensures joined { IfOk result (λ texts. flat_map (λ text. text.items) texts.items
            ≡ answers_to_batch self.now.repo.now self.now.first self.now.lines.now) }
    {
        let n = self.lines.len() as u32;
        let gate = BatchGate {
            gate,
            first: self.first,
        };
        let parts = serve(rt, self.alloc, self, n, workers.count, &gate)?;
        match gather(self.alloc, parts, n) {
            Ok(texts) => Ok(texts),
            Err(GatherError::Memory) => Err(AllocError),
            Err(_) => unreachable!(),
        }
    }
}

/// The texts of the answers to these query lines, in their order, found by so many workers. They are numbered from
/// `first + 1` on. The memo is one of the repository.
pub fn answer_batch<'r, R: Threads + Wait + Sync>(
    rt: &R,
    alloc: Global,
    repo: &'r Repo,
    memo: &Memo<'r>,
    first: u32,
    lines: &[&[u8]],
    workers: usize,
) -> Result<Vec<Vec<u8>>, AllocError>
    requires cells { length repo.now.values ≤ length memo.now }
    requires few_queries { length lines.now ≤ most_queries }
    requires numbered { first + length lines.now < 2 ^ 32 }
    requires some_worker { 0 < workers }
    requires few_workers { workers ≤ most_workers }
    ensures { IfOk result (λ texts. map (λ one. one.items) texts.items ≡ texts_to_batch repo.now first lines.now) }
{
    let batch = Batch {
        alloc,
        repo,
        memo,
        first,
        lines,
    };
    batch.answers(rt, Workers { count: workers }, &NoGate)
}

/// The gate of a run, which is called with the places that the queries of a batch have in the run.
#[derive(Drop)]
struct BatchGate<'g, G> {
    gate: &'g G,
    first: u32,
}

impl<G: Gate> Gate for BatchGate<'_, G> {
    ghost use Rattle.std.specs.Prelude.{◌+◌, ◌^◌, ◌<◌};

    ghost watches = { λ batch place. (batch.first + place < 2 ^ 32) × G.watches batch.gate.now (batch.first + place) };

    fn enter(&self, place: u32) {
        self.gate.enter(self.first + place);
    }

    fn leave(&self, place: u32) {
        self.gate.leave(self.first + place);
    }
}
