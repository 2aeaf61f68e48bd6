//! The report on a dump that a device gives in pieces.
ghost use Rattle.std.specs.Prelude.{◌≡◌, ◌+◌, ◌<◌, ◌≤◌, ◌↔◌, All, ℕ, length, IfErr, IfOk, IsErrOf, OnOk};
ghost use Rattle.query_pool.specs.Serving.{most_workers};
ghost use Rattle.svn_report.specs.Load.{most_reads};
ghost use Rattle.svn_report.specs.QueryLines.{query_lines};
ghost use Rattle.svn_report.specs.Report.{most_queries};
ghost use Rattle.svn_report.specs.ReportFrom.{IsDumpErrorFrom, IsDumpFrom, IsFeedFrom, IsReportFrom, IsRunErrorFrom};

use crate::loading::{MOST_READS, PIECE};
use crate::query_lines::count_lines;
use crate::reporting::{MOST_QUERIES, report_on};
use crate::run_error::RunError;
use devices::{Pull, Source};
use query_pool::{Gate, Workers};
use std::alloc::Global;
use std::random::RandomSource;
use std::sync::Wait;
use std::thread::Threads;
use svn_dump::{Dump, Feed};
use svn_text::Seed;

/// The report on a dump that a device gives, in pieces of at most 65,536 bytes, of which only one is held at a time.
///
/// Reading ends with the piece that decides a refusal. Where the device fails before one is decided, or 4,294,967,296
/// reads meet no end, the answer is `Read(Source::Dump)`. All else is as for `report`.
pub fn report_from<R: RandomSource + Threads + Wait + Sync, P: Pull, G: Gate>(
    rt: &R,
    alloc: Global,
    input: &mut P,
    queries: &[u8],
    cuts: &[u32],
    workers: usize,
    gate: &G,
) -> Result<Vec<u8>, RunError>
    requires cuts { All (λ length. 0 < length) cuts.now }
    requires some_worker { 0 < workers }
    requires few_workers { workers ≤ most_workers }
    requires gate { (place : ℕ) → place < length (query_lines queries.now) → G.watches gate.now place }
    ensures ok { IfOk result
        (λ report. IsReportFrom (P.state input.old) (P.state input.new) queries.now report.items) }
    ensures error { IfErr result (IsRunErrorFrom (P.state input.old) (P.state input.new) queries.now) }

    // This comes before anything is read.
    ensures too_many { IsErrOf result RunError.TooMany ↔ (most_queries < length (query_lines queries.now)) }
    ensures unread { IsErrOf result RunError.TooMany → input.new ≡ input.old }

    ensures memory { IsErrOf result RunError.Memory → (P.state input.new).failures ≡ (P.state input.old).failures }

    // The device is not called again after a failure, since each call of a failed device fails.
    ensures fails_once { (P.state input.new).failures ≤ (P.state input.old).failures + 1 }
    ensures reads { (P.state input.new).calls ≤ (P.state input.old).calls + most_reads }
{
    if count_lines(queries) > MOST_QUERIES {
        return Err(RunError::TooMany);
    }
    let dump = read_dump(alloc, Seed::random(rt), input)?;
    let workers = Workers { count: workers };
    report_on(rt, alloc, dump, queries, cuts, workers, gate)
}

/// The dump that an input is. Its names and mergeinfo texts are found by the hashes of a seed.
fn read_dump<P: Pull>(alloc: Global, seed: Seed, input: &mut P) -> Result<Dump, RunError>
    ensures ok { IfOk result (IsDumpFrom (P.state input.old) (P.state input.new)) }
    ensures error { IfErr result (IsDumpErrorFrom (P.state input.old) (P.state input.new)) }
    ensures unfailed { OnOk result ((P.state input.new).failures ≡ (P.state input.old).failures) }
    ensures memory { IsErrOf result RunError.Memory → (P.state input.new).failures ≡ (P.state input.old).failures }
    ensures fails_once { (P.state input.new).failures ≤ (P.state input.old).failures + 1 }
    ensures reads { (P.state input.new).calls ≤ (P.state input.old).calls + most_reads }
{
    Ok(feed_from(alloc, seed, input)?.finish()?)
}

/// A reader to which all bytes of an input have come, in pieces of at most 65,536 bytes, and which waits for more of the
/// same dump or its end. Names and mergeinfo texts are found by the hashes of a seed.
///
/// Reading ends with the piece that decides a refusal. `Read(Source::Dump)` where the device fails before one is
/// decided, or 4,294,967,296 reads meet no end.
pub fn feed_from<P: Pull>(alloc: Global, seed: Seed, input: &mut P) -> Result<Feed, RunError>
    ensures ok { IfOk result (IsFeedFrom (P.state input.old) (P.state input.new)) }
    ensures error { IfErr result (IsDumpErrorFrom (P.state input.old) (P.state input.new)) }
    ensures unfailed { OnOk result ((P.state input.new).failures ≡ (P.state input.old).failures) }
    ensures memory { IsErrOf result RunError.Memory → (P.state input.new).failures ≡ (P.state input.old).failures }
    ensures fails_once { (P.state input.new).failures ≤ (P.state input.old).failures + 1 }
    ensures reads { (P.state input.new).calls ≤ (P.state input.old).calls + most_reads }
{
    let mut piece = Vec::with_capacity(alloc, PIECE)?;
    piece.resize(PIECE, 0)?;
    let mut feed = Feed::with_seed(alloc, seed);
    for _ in 0..MOST_READS {
        match input.pull(piece.as_mut_slice()) {
            Err(_) => return Err(RunError::Read(Source::Dump)),
            Ok(0) => return Ok(feed),
            Ok(n) => feed.feed(&piece[..n])?,
        }
    }
    Err(RunError::Read(Source::Dump))
}
