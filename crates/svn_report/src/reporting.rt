//! The report on a dump.
ghost use Rattle.std.specs.Prelude.{◌≡◌, ◌<◌, ◌≤◌, ◌↔◌, All, ℕ, length, IfErr, IfOk, IsErrOf};
ghost use Rattle.svn_dump.specs.Dump.{history_in_bytes};
ghost use Rattle.svn_report.specs.QueryLines.{query_lines};
ghost use Rattle.svn_report.specs.Report.{AreFew, IsReport, IsReportOn, answers, most_queries};
ghost use Rattle.svn_report.specs.ReportError.{IsHistoryError, IsRunError};
ghost use Rattle.query_pool.specs.Serving.{most_workers};

use crate::answering::answer_lines;
use crate::query_lines::count_lines;
use crate::repository::load_repo;
use crate::run_error::RunError;
use query_answer::Repo;
use query_pool::{Gate, MOST_PLACES, Workers};
use std::alloc::Global;
use std::random::RandomSource;
use std::sync::Wait;
use std::thread::Threads;
use svn_dump::{Dump, read_with_seed};
use svn_text::Seed;

/// How many queries one run answers at most.
pub const MOST_QUERIES: usize = MOST_PLACES as usize;

/// The answers to the query lines, in their order.
///
/// Blocks take whole revisions from 1 on by the lengths `cuts` in turn; the last length is repeated, and no lengths
/// mean one block. Neither the cutting nor the number of workers shows in the report, nor do the random bytes that `rt`
/// gives, with which the hashes of names, mergeinfo texts and paths begin.
///
/// The queries are answered in batches, one after another, of which the first has 16 queries for each worker. So a call
/// of the gate that waits for a call at a place of a later batch waits forever.
///
/// The gate has to watch the place of each query line: a gate of a host's own says in its `impl` which places it watches,
/// and is called at no other.
pub fn report<R: RandomSource + Threads + Wait + Sync, G: Gate>(
    rt: &R,
    alloc: Global,
    dump: &[u8],
    queries: &[u8],
    cuts: &[u32],
    workers: usize,
    gate: &G,
) -> Result<Vec<u8>, RunError>
    requires cuts { All (λ length. 0 < length) cuts.now }
    requires some_worker { 0 < workers }
    requires few_workers { workers ≤ most_workers }
    requires gate { (place : ℕ) → place < length (query_lines queries.now) → G.watches gate.now place }
    ensures ok { IfOk result (λ report. IsReport dump.now queries.now report.items) }
    ensures error { IfErr result (IsRunError dump.now queries.now) }

    // This comes before all that is said of the dump.
    ensures too_many { IsErrOf result RunError.TooMany ↔ (most_queries < length (query_lines queries.now)) }
{
    if count_lines(queries) > MOST_QUERIES {
        return Err(RunError::TooMany);
    }
    let dump = read_with_seed(alloc, Seed::random(rt), dump)?;
    let workers = Workers { count: workers };
    report_on(rt, alloc, dump, queries, cuts, workers, gate)
}

/// The answers to the query lines on a dump.
pub(crate) fn report_on<R: Threads + Wait + Sync, G: Gate>(
    rt: &R,
    alloc: Global,
    dump: Dump,
    queries: &[u8],
    cuts: &[u32],
    workers: Workers,
    gate: &G,
) -> Result<Vec<u8>, RunError>
    requires few_queries { AreFew queries.now }
    requires cuts { All (λ length. 0 < length) cuts.now }
    requires gate { (place : ℕ) → place < length (query_lines queries.now) → G.watches gate.now place }
    ensures ok { IfOk result (λ report. IsReportOn (history_in_bytes dump) queries.now report.items) }
    ensures error { IfErr result (IsHistoryError (history_in_bytes dump)) }
{
    let repo = load_repo(rt, alloc, dump, cuts, workers.count)?;
    let answers = answered(rt, alloc, &repo, queries, workers, gate);
    drop(repo);
    answers
}

/// The answers to the query lines from a repository.
fn answered<R: Threads + Wait + Sync, G: Gate>(
    rt: &R,
    alloc: Global,
    repo: &Repo,
    queries: &[u8],
    workers: Workers,
    gate: &G,
) -> Result<Vec<u8>, RunError>
    requires few_queries { AreFew queries.now }
    requires gate { (place : ℕ) → place < length (query_lines queries.now) → G.watches gate.now place }
    ensures ok { IfOk result (λ report. report.items ≡ answers (history_in_bytes repo.now) queries.now) }
    ensures error { IfErr result (λ e. e ≡ RunError.Memory) }
{
    Ok(answer_lines(rt, alloc, repo, queries, workers, gate)?)
}
