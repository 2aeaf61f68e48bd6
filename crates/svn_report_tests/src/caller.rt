//! A caller of the report, as a program over this library would be.

use query_pool::NoGate;
use sample_dumps::FIRST;
use std::alloc::Global;
use std::random::RandomSource;
use std::sync::Wait;
use std::test::Fail;
use std::thread::Threads;
use svn_report::{RunError, report};

/// The log of a path at its peg revision, found by eight workers.
fn log_of<R: RandomSource + Threads + Wait + Sync>(
    rt: &R,
    alloc: Global,
    dump: &[u8],
    peg: &[u8],
) -> Result<Vec<u8>, RunError> {
    let mut query = Vec::from_slice(alloc, b"log\t")?;
    query.extend_from_slice(peg)?;
    report(rt, alloc, dump, query.as_slice(), &[], 8, &NoGate)
}

#[test]
fn a_log_is_asked_of_the_library(rt: HostRuntime) -> Result<(), Fail> {
    let log = log_of(&rt, rt.alloc(), FIRST, b"b@2")?;
    assert_eq!(rt; log.as_slice(), b"#1 ok\nr2 /b\nr1 /trunk\n".as_slice());
    Ok(())
}
