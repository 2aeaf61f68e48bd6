//! How many records a dump has up to each of its revisions, and up to each of its blocks.
ghost use Rattle.std.specs.Prelude.{◌≡◌, ◌<◌, ◌≤◌, All, IfOk, length, map};
ghost use Rattle.svn_dump.specs.Dump.{IsDump};
ghost use Rattle.svn_report.specs.Blocks.{AreBorders};
ghost use Rattle.svn_report.specs.RecordEnds.{AreRecordBorders, AreRecordEnds, sum_at, sum_of};

use crate::cutting::{block_ends, share_out};
use par_scan::{Sum, scan};
use query_pool::Workers;
use std::alloc::{AllocError, Global};
use std::thread::Threads;
use svn_dump::Dump;

/// How many records precede each block that `cuts` make of the revisions of a dump, and how many there are. Each join
/// of indexes goes through the later one, so where there are more blocks than workers, neighbouring ones are taken
/// together into as many groups as workers.
pub(crate) fn record_borders(
    alloc: Global,
    dump: &Dump,
    sums: &[Sum],
    cuts: &[u32],
    workers: Workers,
) -> Result<Vec<usize>, AllocError>
    requires sums { AreRecordEnds dump.now.counts sums.now }
    requires cuts { All (λ length. 0 < length) cuts.now }
    ensures exact { IfOk result (λ borders. AreRecordBorders cuts.now workers.count dump.now.counts borders.items) }
    ensures rise { IfOk result (λ borders. AreBorders 0 (length dump.now.records) borders.items) }
{
    let ends = block_ends(alloc, cuts, dump.counts().len() - 1)?;
    let borders = sums_at(alloc, sums, ends.as_slice())?;
    share_out(alloc, borders.as_slice(), workers.count)
}

/// For each revision how many records the revisions up to it have.
pub(crate) fn record_ends<R: Threads + Sync>(
    rt: &R,
    alloc: Global,
    dump: &Dump,
    workers: Workers,
) -> Result<Vec<Sum>, AllocError>
    ensures exact { IfOk result (λ sums. AreRecordEnds dump.now.counts sums.items) }
    ensures kept { IsDump dump.now }
{
    let sums = sums_of(alloc, dump.counts())?;
    scan(rt, alloc, sums, workers.count)
}

/// The counts as sums.
fn sums_of(alloc: Global, counts: &[u32]) -> Result<Vec<Sum>, AllocError>
    ensures { IfOk result (λ sums. sums.items ≡ map sum_of counts.now) }
{
    counts
        .iter()
        .map(|count| Sum(u64::from(*count)))
        .collect(alloc)
}

/// The sums at these revisions.
fn sums_at(alloc: Global, sums: &[Sum], revisions: &[usize]) -> Result<Vec<usize>, AllocError>
    requires { All (λ rev. rev < length sums.now) revisions.now }
    ensures { IfOk result (λ found. found.items ≡ map (sum_at sums.now) revisions.now) }
{
    revisions
        .iter()
        .map(|rev| sums[*rev].0 as usize)
        .collect(alloc)
}
