//! Answering the queries of one file on the dump of another.
ghost use Rattle.std.specs.Prelude.{◌<◌, ◌≤◌, IfErr, IfOk, IsErrOf};
ghost use Rattle.svn_report.specs.Report.{AreFew};
ghost use Rattle.query_pool.specs.Serving.{most_workers};
ghost use Rattle.svnhist.specs.Arguments.{arguments_view};
ghost use Rattle.svnhist.specs.Files.{IsErrorOnDump, IsErrorOnFiles, IsErrorOnQueries, IsFileRead, IsReportOnDump, IsReportOnFiles};

use crate::arguments::Arguments;
use crate::cuts::cuts_of;
use devices::{Open, Pull, Source};
use query_pool::NoGate;
use std::alloc::Global;
use std::random::RandomSource;
use std::sync::Wait;
use std::thread::Threads;
use svn_report::{RunError, load, report_from};

/// The report on two files.
pub(crate) fn answer_files<R: RandomSource + Threads + Wait + Sync, F: Open + Pull>(
    rt: &R,
    alloc: Global,
    files: &mut F,
    asked: &Arguments<'_>,
) -> Result<Vec<u8>, RunError>
    requires some_worker { 0 < asked.now.workers }
    requires few_workers { asked.now.workers ≤ most_workers }
    ensures ok { IfOk result
        (λ report. IsReportOnFiles F.opens F.state files.old files.new (arguments_view asked.now) report.items) }
    ensures error { IfErr result
        (IsErrorOnFiles F.opens F.refuses F.state files.old files.new (arguments_view asked.now)) }
{
    let queries = load_queries(alloc, files, asked.queries.0)?;
    answer_dump(rt, alloc, files, asked, queries.as_slice())
}

/// All bytes of the file of the queries.
fn load_queries<F: Open + Pull>(
    alloc: Global,
    files: &mut F,
    path: &str,
) -> Result<Vec<u8>, RunError>
    ensures ok { IfOk result (λ bytes. IsFileRead F.opens F.state files.old files.new path.now bytes.items) }
    ensures error { IfErr result (IsErrorOnQueries F.opens F.refuses F.state files.old files.new path.now) }
{
    if !files.open(path) {
        return Err(RunError::Read(Source::Queries));
    }
    load(alloc, files, Source::Queries)
}

/// The answers to these queries on the file of the dump.
fn answer_dump<R: RandomSource + Threads + Wait + Sync, F: Open + Pull>(
    rt: &R,
    alloc: Global,
    files: &mut F,
    asked: &Arguments<'_>,
    queries: &[u8],
) -> Result<Vec<u8>, RunError>
    requires some_worker { 0 < asked.now.workers }
    requires few_workers { asked.now.workers ≤ most_workers }
    ensures ok { IfOk result
        (λ report. IsReportOnDump F.opens F.state files.old files.new asked.now.dump.0.now queries.now report.items) }
    ensures error { IfErr result
        (IsErrorOnDump F.opens F.refuses F.state files.old files.new asked.now.dump.0.now queries.now) }
    ensures few { IsErrOf result RunError.Memory → AreFew queries.now }
{
    if !files.open(asked.dump.0) {
        return Err(RunError::Read(Source::Dump));
    }
    let cuts = cuts_of(&asked.block);
    report_from(rt, alloc, files, queries, cuts, asked.workers, &NoGate)
}
