//! Readers that give a few bytes a call, and fail.
ghost use Rattle.std.specs.Prelude.{◌<◌, ◌≤◌, All};
ghost use Rattle.query_pool.specs.Serving.{most_workers};

use crate::reports::report_of;
use crate::workers::QUERIES;
use devices::{Device, Failed, Pull, Source};
use query_pool::NoGate;
use sample_dumps::{DELETE_AND_COPY, DUMPED, MERGED, joined};
use std::alloc::Global;
use std::io::{self, Read};
use std::random::RandomSource;
use std::sync::Wait;
use std::test::Fail;
use std::thread::Threads;
use svn_dump::DumpError;
use svn_report::{RunError, load, report_from};

// A reader that gives its bytes in pieces. One of its calls fails.
#[derive(Drop)]
pub(crate) struct Pieces<'a> {
    bytes: &'a [u8],
    most: usize,
    good_calls: usize,
    error: io::ErrorKind,
}

impl Read for Pieces<'_> {
    fn read(&mut self, slice: &mut [u8]) -> io::Result<usize> {
        if self.good_calls == 0 {
            self.good_calls = usize::MAX;
            return Err(io::Error::from(self.error));
        }
        self.good_calls -= 1;
        let n = slice.len().min(self.most).min(self.bytes.len());
        let (front, rest) = self.bytes.split_at(n);
        let (taken, _) = slice.split_at_mut(n);
        taken.copy_from_slice(front);
        self.bytes = rest;
        Ok(n)
    }
}

/// A device over such a reader of the merged history.
pub(crate) fn device(
    most: usize,
    good_calls: usize,
    error: io::ErrorKind,
) -> Device<Pieces<'static>> {
    Device::new(Pieces {
        bytes: MERGED,
        most,
        good_calls,
        error,
    })
}

// A device that gives all these bytes at its first call, and then fails.
fn cut_off(bytes: &[u8]) -> Device<Pieces<'_>> {
    Device::new(Pieces {
        bytes,
        most: usize::MAX,
        good_calls: 1,
        error: io::ErrorKind::Other,
    })
}

// Whether all bytes are loaded, so many a call.
fn is_loaded_whole(alloc: Global, most: usize) -> Result<bool, RunError> {
    let mut input = device(most, usize::MAX, io::ErrorKind::Other);
    let bytes = load(alloc, &mut input, Source::Dump)?;
    Ok(bytes.as_slice() == MERGED)
}

#[test]
fn all_bytes_are_loaded(rt: HostRuntime) -> Result<(), Fail> {
    for most in [1, 7, usize::MAX] {
        assert!(rt; is_loaded_whole(rt.alloc(), most)?, "{most}");
    }
    Ok(())
}

#[test]
fn a_failed_read_is_reported(rt: HostRuntime) {
    for error in [io::ErrorKind::Other, io::ErrorKind::Interrupted] {
        let mut failing = device(7, 1, error);
        let refused = load(rt.alloc(), &mut failing, Source::Dump);
        assert!(rt; matches!(refused, Err(RunError::Read(Source::Dump))));
        let mut slice = [0u8; 4];
        assert!(rt; matches!(failing.pull(&mut slice), Err(Failed)));
    }
}

// Whether the report on the merged history, which comes in pieces of 7 bytes, is this one.
fn is_report_of_pieces<R: RandomSource + Threads + Wait + Sync>(
    rt: &R,
    alloc: Global,
    cuts: &[u32],
    workers: usize,
    wanted: &[u8],
) -> Result<bool, RunError>
    requires cuts { All (λ length. 0 < length) cuts.now }
    requires some_worker { 0 < workers }
    requires few_workers { workers ≤ most_workers }
{
    let mut input = device(7, usize::MAX, io::ErrorKind::Other);
    let found = report_from(rt, alloc, &mut input, QUERIES, cuts, workers, &NoGate)?;
    Ok(found.as_slice() == wanted)
}

#[test]
fn a_dump_in_pieces_has_the_same_report(rt: HostRuntime) -> Result<(), Fail> {
    let wanted = report_of(&rt, rt.alloc(), MERGED, QUERIES)?;
    for workers in [1, 8] {
        assert!(rt; is_report_of_pieces(&rt, rt.alloc(), &[1], workers, wanted.as_slice())?);
        assert!(rt; is_report_of_pieces(&rt, rt.alloc(), &[], workers, wanted.as_slice())?);
    }
    Ok(())
}

// Why there is no report on what a device gives.
fn error_from<R: RandomSource + Threads + Wait + Sync>(
    rt: &R,
    alloc: Global,
    input: &mut Device<Pieces<'_>>,
    queries: &[u8],
) -> Option<RunError> {
    report_from(rt, alloc, input, queries, &[], 1, &NoGate).err()
}

const SKIPPING: &[u8] =
    b"SVN-fs-dump-format-version: 2\n\nRevision-number: 0\n\nRevision-number: 2\n\n";

#[test]
fn a_refusal_is_reported_before_a_failure(rt: HostRuntime) {
    let error = error_from(&rt, rt.alloc(), &mut cut_off(SKIPPING), QUERIES);
    assert!(rt;
        matches!(
            error,
            Some(RunError::Dump(DumpError::Refused { number: 8, at: 51 }))
        )
    );
}

#[test]
fn a_failure_before_a_refusal_is_reported(rt: HostRuntime) {
    for mut failing in [cut_off(&SKIPPING[..60]), device(7, 1, io::ErrorKind::Other)] {
        let error = error_from(&rt, rt.alloc(), &mut failing, QUERIES);
        assert!(rt; matches!(error, Some(RunError::Read(Source::Dump))));
        let mut slice = [0u8; 4];
        assert!(rt; matches!(failing.pull(&mut slice), Err(Failed)));
    }
}

const LOG: &[u8] = b"log\tb@3\nlocate\tb@3\t1\n";

// A device that gives a dump in pieces of 16 bytes, so many of them.
fn good_for(dump: &[u8], reads: usize) -> Device<Pieces<'_>> {
    Device::new(Pieces {
        bytes: dump,
        most: 16,
        good_calls: reads,
        error: io::ErrorKind::Other,
    })
}

// The first number of good reads after which a failed one is not reported.
fn first_unreported<R: RandomSource + Threads + Wait + Sync>(
    rt: &R,
    alloc: Global,
    dump: &[u8],
    reads: usize,
) -> Option<usize> {
    for good in 0..reads {
        let error = error_from(rt, alloc, &mut good_for(dump, good), LOG);
        if !matches!(error, Some(RunError::Read(Source::Dump))) {
            return Some(good);
        }
    }
    None
}

// The report on what comes in so many pieces.
fn report_after<R: RandomSource + Threads + Wait + Sync>(
    rt: &R,
    alloc: Global,
    dump: &[u8],
    reads: usize,
) -> Result<Vec<u8>, RunError> {
    report_from(rt, alloc, &mut good_for(dump, reads), LOG, &[], 1, &NoGate)
}

// The dump has 1,169 bytes, and the last read meets the end.
#[test]
fn each_failed_read_is_reported(rt: HostRuntime) -> Result<(), Fail> {
    let dump = joined(rt.alloc(), DUMPED, DELETE_AND_COPY)?;
    assert_eq!(rt;
        first_unreported(&rt, rt.alloc(), dump.as_slice(), 75),
        None
    );
    let report = report_after(&rt, rt.alloc(), dump.as_slice(), 75)?;
    assert!(rt; report.as_slice() == b"#1 ok\nr3 /b\nr1 /trunk\n#2 ok\n/trunk\n".as_slice());
    Ok(())
}

#[test]
fn queries_are_counted_before_a_byte_is_read(rt: HostRuntime) -> Result<(), Fail> {
    let queries = vec![in rt.alloc(); b'\n'; 1_000_001]?;
    let mut failing = device(7, 0, io::ErrorKind::Other);
    let error = error_from(&rt, rt.alloc(), &mut failing, queries.as_slice());
    assert!(rt; matches!(error, Some(RunError::TooMany)));
    Ok(())
}
