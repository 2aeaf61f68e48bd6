//! Writers that take a few bytes a call, and fail.

use devices::{Device, SendError, send};
use std::alloc::Global;
use std::io::{self, Write};
use std::test::Fail;

// A writer that takes so many bytes a call. One of its calls fails, or takes nothing where there is no error. A flush
// may fail.
#[derive(Drop)]
struct Trickle<'a> {
    taken: &'a mut Vec<u8>,
    most: usize,
    good_calls: usize,
    error: Option<io::ErrorKind>,
    flushes: bool,
}

impl Write for Trickle<'_> {
    fn write(&mut self, bytes: &[u8]) -> io::Result<usize> {
        if self.good_calls == 0 {
            self.good_calls = usize::MAX;
            return match self.error {
                Some(error) => Err(io::Error::from(error)),
                None => Ok(0),
            };
        }
        self.good_calls -= 1;
        let n = bytes.len().min(self.most);
        self.taken.extend_from_slice(&bytes[..n])?;
        Ok(n)
    }

    fn flush(&mut self) -> io::Result<()> {
        if self.flushes {
            Ok(())
        } else {
            Err(io::Error::from(io::ErrorKind::Other))
        }
    }
}

const REPORT: &[u8] = b"#1 ok\n/trunk\n#2 ok\n/trunk\n#3 ok\n-\n";

// What sending the report to such a writer gives, and how many bytes of the report the writer took; `None` where it
// took others.
fn sent(
    alloc: Global,
    most: usize,
    good_calls: usize,
    error: Option<io::ErrorKind>,
    flushes: bool,
) -> (Result<(), SendError>, Option<usize>) {
    let mut taken = Vec::new(alloc);
    let mut slow = Device::new(Trickle {
        taken: &mut taken,
        most,
        good_calls,
        error,
        flushes,
    });
    let result = send(&mut slow, REPORT);
    drop(slow);
    let count = REPORT.starts_with(taken.as_slice()).then_some(taken.len());
    (result, count)
}

#[test]
fn a_failed_send_counts_what_went_out(rt: HostRuntime) {
    for (most, good_calls, flushes, count) in [
        (7, 2, true, 14),
        (7, 0, true, 0),
        (0, 9, true, 0),
        (34, 9, false, 34),
    ] {
        for error in [
            Some(io::ErrorKind::Other),
            Some(io::ErrorKind::Interrupted),
            None,
        ] {
            let wanted = Err(SendError { sent: count as u64 });
            assert_eq!(rt;
                sent(rt.alloc(), most, good_calls, error, flushes),
                (wanted, Some(count))
            );
        }
    }
}

// The report has 34 bytes, so the last failure is that of the flush.
#[test]
fn a_failed_send_of_single_bytes_counts_those_before(rt: HostRuntime) {
    for count in 0..=34 {
        let wanted = Err(SendError { sent: count as u64 });
        assert_eq!(rt;
            sent(rt.alloc(), 1, count, Some(io::ErrorKind::Other), false),
            (wanted, Some(count))
        );
    }
}

#[test]
fn all_bytes_are_sent_in_pieces(rt: HostRuntime) -> Result<(), Fail> {
    let found = sent(rt.alloc(), 7, 5, None, true);
    assert_eq!(rt; found, (Ok(()), Some(REPORT.len())));
    Ok(())
}
