//! Answering the queries of a run by several workers.
ghost use Rattle.std.specs.Prelude.{◌≡◌, ◌+◌, ◌<◌, ◌≤◌, ◌++◌, ℕ, IfOk, length};
ghost use Rattle.std.specs.List.{flat_map};
ghost use Rattle.svn_dump.specs.Dump.{history_in_bytes};
ghost use Rattle.svn_report.specs.Answering.{answers_to_batch, partial_text};
ghost use Rattle.svn_report.specs.QueryLines.{query_lines};
ghost use Rattle.svn_report.specs.Report.{answers, most_queries};

use crate::batch::Batch;
use crate::query_lines::lines_of;
use query_answer::Repo;
use query_pool::{Gate, Workers};
use std::alloc::{AllocError, Global};
use std::sync::Wait;
use std::thread::{self, Threads};
use value_memo::Memo;

/// How many queries the first batch has for each worker.
const FIRST_SHARE: usize = 16;

/// Later batches double up to one in so many of all queries. If the first one is larger, all are as large.
const PARTS_OF_ALL: usize = 8;

/// The answers to all query lines, one after another, found by so many workers.
pub(crate) fn answer_lines<R: Threads + Wait + Sync, G: Gate>(
    rt: &R,
    alloc: Global,
    repo: &Repo,
    queries: &[u8],
    workers: Workers,
    gate: &G,
) -> Result<Vec<u8>, AllocError>
    requires few_queries { length (query_lines queries.now) ≤ most_queries }
    requires gate { (place : ℕ) → place < length (query_lines queries.now) → G.watches gate.now place }
    ensures { IfOk result (λ out. out.items ≡ answers (history_in_bytes repo.now) queries.now) }
{
    let lines = lines_of(alloc, queries)?;
    let memo = repo.memo(alloc)?;
    answer_batches(rt, alloc, repo, &memo, lines.as_slice(), workers, gate)
}

/// The answers to these query lines. They are found in batches, so that the texts of at most two batches are held
/// beside the report. With several workers, a further thread joins the answers to one batch while they answer the next.
/// One worker joins them in between.
fn answer_batches<'r, R: Threads + Wait + Sync, G: Gate>(
    rt: &R,
    alloc: Global,
    repo: &'r Repo,
    memo: &Memo<'r>,
    lines: &[&[u8]],
    workers: Workers,
    gate: &G,
) -> Result<Vec<u8>, AllocError>
    requires cells { length repo.now.values ≤ length memo.now }
    requires few_queries { length lines.now ≤ most_queries }
    requires gate { (place : ℕ) → place < length lines.now → G.watches gate.now place }
    ensures { IfOk result (λ out. out.items ≡ answers_to_batch repo.now 0 lines.now) }
{
    let mut partial = PartialReport {
        report: Vec::new(alloc),
        texts: Vec::new(alloc),
    };
    let mut done = 0;
    let mut size = FIRST_SHARE * workers.count;
    'batches: while done < lines.len() {
        let (_, left) = lines.split_at(done);
        let (batch_lines, _) = left.split_at(size.min(left.len()));
        let batch = Batch {
            alloc,
            repo,
            memo,
            first: done as u32,
            lines: batch_lines,
        };
        partial = partial.with_answers(rt, &batch, workers, gate)?;
        done += batch_lines.len();
        size = size.max((2 * size).min(lines.len().div_ceil(PARTS_OF_ALL)));
    }
    let PartialReport { report, texts } = partial;
    with_texts(report, texts.as_slice())
}

/// A report so far: what of it is joined, and the answers that follow.
#[derive(Drop)]
pub(crate) struct PartialReport {
    pub(crate) report: Vec<u8>,
    pub(crate) texts: Vec<Vec<u8>>,
}

impl PartialReport {
    /// This report with the answers to a further batch. With several workers, the answers before it are joined
    /// meanwhile.
    fn with_answers<R: Threads + Wait + Sync, G: Gate>(
        self,
        rt: &R,
        batch: &Batch,
        workers: Workers,
        gate: &G,
    ) -> Result<Self, AllocError>
        requires gate { (place : ℕ) → place < length batch.now.lines.now
            → G.watches gate.now (batch.now.first + place) }
        ensures { IfOk result (λ after. partial_text after
            ≡ partial_text self ++ answers_to_batch batch.now.repo.now batch.now.first batch.now.lines.now) }
    {
        let PartialReport { report, texts } = self;
        if workers.count == 1 || texts.is_empty() {
            let report = with_texts(report, texts.as_slice())?;
            drop(texts);
            let texts = batch.answers(rt, workers, gate)?;
            return Ok(PartialReport { report, texts });
        }
        let joined = texts.as_slice();
        let joining = move || -> Result<Vec<u8>, AllocError>
            ensures { IfOk result (λ after.
                after.items ≡ report.items ++ flat_map (λ text. text.items) joined.entry.now) }
        { with_texts(report, joined) };
        let answering = move || -> Result<Vec<Vec<u8>>, AllocError>
            requires gate { (place : ℕ) → place < length batch.now.lines.now
                → G.watches gate.now (batch.now.first + place) }
            ensures { IfOk result (λ texts. flat_map (λ text. text.items) texts.items
                ≡ answers_to_batch batch.entry.now.repo.now batch.entry.now.first batch.entry.now.lines.now) }
        { batch.answers(rt, workers, gate) };
        let (report, answers) = thread::join(rt, joining, answering);
        // Freed here, since freeing in one thread and allocating in others wait for each other.
        drop(texts);
        let report = report?;
        let texts = answers?;
        Ok(PartialReport { report, texts })
    }
}

/// How many bytes all texts have, or the greatest `usize` where that is less.
fn length_of(texts: &[Vec<u8>]) -> usize
    ensures { result ≤ length (flat_map (λ text. text.items) texts.now) }
{
    let mut length: usize = 0;
    for text in texts {
        length = length.saturating_add(text.len());
    }
    length
}

/// A report with these texts at its end, one after another.
fn with_texts(report: Vec<u8>, texts: &[Vec<u8>]) -> Result<Vec<u8>, AllocError>
    ensures { IfOk result (λ after. after.items ≡ report.items ++ flat_map (λ text. text.items) texts.now) }
{
    let mut report = report;
    report.reserve_exact(length_of(texts))?;
    for text in texts {
        report.extend_from_slice(text.as_slice())?;
    }
    Ok(report)
}
