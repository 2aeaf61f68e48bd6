//! A host's own device, beside a reader of std.

use devices::{Device, Failed, GhostCount, Pull};
use query_pool::NoGate;
use sample_dumps::FIRST;
use std::alloc::Global;
use std::random::RandomSource;
use std::sync::Wait;
use std::test::Fail;
use std::thread::Threads;
use svn_report::{RunError, report_from};

/// Bytes in memory, which never fail.
#[derive(Drop)]
struct Lent<'a> {
    left: &'a [u8],
    calls: GhostCount,
    ends: GhostCount,
}

impl Pull for Lent<'_> {
    ghost use Rattle.std.specs.Prelude.{Some, false};

    ghost state = { λ lent. record {
      left = Some lent.left.now;
      calls = lent.calls;
      ends = lent.ends;
      failures = 0;
      has_failed = false;
    } };

    fn pull(&mut self, slice: &mut [u8]) -> Result<usize, Failed> {
        self.calls.add();
        let n = slice.len().min(self.left.len());
        let (front, rest) = self.left.split_at(n);
        let (taken, _) = slice.split_at_mut(n);
        taken.copy_from_slice(front);
        self.left = rest;
        if n == 0 {
            self.ends.add();
        }
        Ok(n)
    }
}

/// The report on bytes in memory that come through such a device.
fn report_on_lent<R: RandomSource + Threads + Wait + Sync>(
    rt: &R,
    alloc: Global,
    bytes: &[u8],
    queries: &[u8],
) -> Result<Vec<u8>, RunError> {
    let mut input = Lent {
        left: bytes,
        calls: GhostCount::new(),
        ends: GhostCount::new(),
    };
    report_from(rt, alloc, &mut input, queries, &[], 2, &NoGate)
}

/// The report on the bytes of a reader of std.
fn report_on_reader<R: RandomSource + Threads + Wait + Sync>(
    rt: &R,
    alloc: Global,
    reader: &[u8],
    queries: &[u8],
) -> Result<Vec<u8>, RunError> {
    let mut input = Device::new(reader);
    report_from(rt, alloc, &mut input, queries, &[], 2, &NoGate)
}

#[test]
fn a_host_has_a_device_of_its_own(rt: HostRuntime) -> Result<(), Fail> {
    let queries = b"segments\tb@2".as_slice();
    let own = report_on_lent(&rt, rt.alloc(), FIRST, queries)?;
    let read = report_on_reader(&rt, rt.alloc(), FIRST, queries)?;
    assert_eq!(rt; own.as_slice(), b"#1 ok\n2-2 /b\n1-1 /trunk\n".as_slice());
    assert_eq!(rt; read.as_slice(), own.as_slice());
    Ok(())
}
