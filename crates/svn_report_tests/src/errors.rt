//! What is printed where there is no report.

use crate::reports::report_of;
use block_map::{Fault, FaultKind};
use devices::Source;
use sample_dumps::FIRST;
use std::alloc::{AllocError, Global};
use std::random::RandomSource;
use std::sync::Wait;
use std::test::Fail;
use std::thread::Threads;
use svn_dump::DumpError;
use svn_report::RunError;

// The line of an error, after three bytes that stay.
fn line_after_abc(alloc: Global, error: &RunError) -> Result<Vec<u8>, AllocError> {
    let mut line = Vec::from_slice(alloc, b"abc".as_slice())?;
    error.write(&mut line)?;
    Ok(line)
}

// Whether an error is displayed as this line, without what the program puts around it.
fn is_displayed(alloc: Global, error: &RunError, line: &[u8]) -> Result<bool, AllocError> {
    let text = format!(in alloc; "svnhist: {error}\n")?;
    Ok(text.as_bytes() == line)
}

// Whether an error has this status and this line.
fn is_printed(
    alloc: Global,
    error: &RunError,
    status: u8,
    line: &[u8],
) -> Result<bool, AllocError> {
    let found = line_after_abc(alloc, error)?;
    let is_printed = error.status() == status && found.strip_prefix(b"abc") == Some(line);
    drop(found);
    Ok(is_printed && is_displayed(alloc, error, line)?)
}

#[test]
fn each_error_has_its_line_and_its_status(rt: HostRuntime) -> Result<(), Fail> {
    for (error, status, line) in [
        (
            RunError::TooMany,
            1,
            b"svnhist: more than 1000000 queries\n".as_slice(),
        ),
        (
            RunError::Read(Source::Dump),
            3,
            b"svnhist: cannot read the dump\n",
        ),
        (
            RunError::Read(Source::Queries),
            3,
            b"svnhist: cannot read the queries\n",
        ),
        (
            RunError::Read(Source::Input),
            3,
            b"svnhist: cannot read standard input\n",
        ),
        (
            RunError::Dump(DumpError::Memory),
            4,
            b"svnhist: out of memory\n",
        ),
        (RunError::Memory, 4, b"svnhist: out of memory\n"),
    ] {
        assert!(rt; is_printed(rt.alloc(), &error, status, line)?);
    }
    Ok(())
}

#[test]
fn each_fault_has_its_line(rt: HostRuntime) -> Result<(), Fail> {
    for (kind, line) in [
        (
            FaultKind::NoParent,
            b"svnhist: dump refused: 16 NoParent at record 2\n".as_slice(),
        ),
        (
            FaultKind::Exists,
            b"svnhist: dump refused: 17 Exists at record 2\n",
        ),
        (
            FaultKind::Missing,
            b"svnhist: dump refused: 18 Missing at record 2\n",
        ),
        (
            FaultKind::NoSource,
            b"svnhist: dump refused: 19 NoSource at record 2\n",
        ),
    ] {
        let error = RunError::Fault(Fault { number: 2, kind });
        assert!(rt; is_printed(rt.alloc(), &error, 1, line)?);
    }
    Ok(())
}

// The numbers of refusals at byte 51, and their lines.
const REFUSALS: [(u8, &[u8]); 16] = [
    (1, b"svnhist: dump refused: 1 Magic at byte 51\n"),
    (2, b"svnhist: dump refused: 2 Version at byte 51\n"),
    (3, b"svnhist: dump refused: 3 Header at byte 51\n"),
    (4, b"svnhist: dump refused: 4 Length at byte 51\n"),
    (5, b"svnhist: dump refused: 5 Truncated at byte 51\n"),
    (6, b"svnhist: dump refused: 6 Props at byte 51\n"),
    (7, b"svnhist: dump refused: 7 BadRecord at byte 51\n"),
    (8, b"svnhist: dump refused: 8 Revision at byte 51\n"),
    (9, b"svnhist: dump refused: 9 BadPath at byte 51\n"),
    (10, b"svnhist: dump refused: 10 Delta at byte 51\n"),
    (11, b"svnhist: dump refused: 11 CopyRevision at byte 51\n"),
    (12, b"svnhist: dump refused: 12 RootAction at byte 51\n"),
    (13, b"svnhist: dump refused: 13 RevisionZero at byte 51\n"),
    (14, b"svnhist: dump refused: 14 TooLarge at byte 51\n"),
    (15, b"svnhist: dump refused: 15 Unknown at byte 51\n"),
    (0, b"svnhist: dump refused: 0 Unknown at byte 51\n"),
];

#[test]
fn each_refusal_has_its_line(rt: HostRuntime) -> Result<(), Fail> {
    for (number, line) in REFUSALS {
        let error = RunError::Dump(DumpError::Refused { number, at: 51 });
        assert!(rt; is_printed(rt.alloc(), &error, 1, line)?, "{number}");
    }
    Ok(())
}

// Why there is no report on a dump and these queries.
fn error_of<R: RandomSource + Threads + Wait + Sync>(
    rt: &R,
    alloc: Global,
    dump: &[u8],
    queries: &[u8],
) -> Option<RunError> {
    report_of(rt, alloc, dump, queries).err()
}

#[test]
fn queries_are_counted_before_the_dump_is_read(rt: HostRuntime) -> Result<(), Fail> {
    let queries = vec![in rt.alloc(); b'\n'; 1_000_001]?;
    for dump in [FIRST, b"".as_slice()] {
        let error = error_of(&rt, rt.alloc(), dump, queries.as_slice());
        assert!(rt; matches!(error, Some(RunError::TooMany)));
    }
    Ok(())
}

// Whether there is no report on a dump, for an error with this line.
fn is_refused<R: RandomSource + Threads + Wait + Sync>(
    rt: &R,
    alloc: Global,
    dump: &[u8],
    line: &[u8],
) -> Result<bool, AllocError> {
    match report_of(rt, alloc, dump, b"") {
        Err(error) => is_printed(alloc, &error, 1, line),
        Ok(_) => Ok(false),
    }
}

#[test]
fn other_bytes_are_not_a_dump(rt: HostRuntime) -> Result<(), Fail> {
    let skipping = b"SVN-fs-dump-format-version: 2\n\nRevision-number: 0\n\nRevision-number: 2\n\n";
    for (dump, line) in [
        (
            b"x".as_slice(),
            b"svnhist: dump refused: 1 Magic at byte 0\n".as_slice(),
        ),
        (skipping, b"svnhist: dump refused: 8 Revision at byte 51\n"),
    ] {
        assert!(rt; is_refused(&rt, rt.alloc(), dump, line)?);
    }
    Ok(())
}
