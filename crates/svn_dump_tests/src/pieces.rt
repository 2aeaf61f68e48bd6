//! Dumps that come in pieces.
ghost use Rattle.std.specs.Prelude.{◌≡◌, ◌+◌, ◌<◌, ◌≤◌, ◌^◌, length};

use crate::samples::{ONE, ONE_3, START};
use std::alloc::Global;
use std::test::Fail;
use svn_dump::{Dump, DumpError, Feed};

/// Feeds the bytes in pieces of that size, up to the first error.
pub(crate) fn feed_pieces(feed: &mut Feed, bytes: &[u8], size: usize) -> Result<(), DumpError>
    requires size { 0 < size }
    requires few { feed.old.count + length bytes.now < 2 ^ 64 }
    ensures { feed.new.count ≤ feed.old.count + length bytes.now }
{
    let mut rest = bytes;
    while !rest.is_empty() {
        let (piece, more) = rest.split_at(size.min(rest.len()));
        feed.feed(piece)?;
        rest = more;
    }
    Ok(())
}

/// The answer on the bytes, which come in pieces of that size.
pub(crate) fn read_in_pieces(alloc: Global, bytes: &[u8], size: usize) -> Result<Dump, DumpError>
    requires { 0 < size }
{
    let mut feed = Feed::new(alloc);
    feed_pieces(&mut feed, bytes, size)?;
    feed.finish()
}

// The number and the byte of a refusal, if the answer is one.
fn refusal_in<T: Drop>(answer: Result<T, DumpError>) -> Option<(u8, u64)> {
    match answer {
        Err(DumpError::Refused { number, at }) => Some((number, at)),
        _ => None,
    }
}

fn fed(feed: &mut Feed, bytes: &[u8]) -> Option<(u8, u64)>
    requires { feed.old.count + length bytes.now < 2 ^ 64 }
    ensures { feed.new.count ≡ feed.old.count + length bytes.now }
{
    refusal_in(feed.feed(bytes))
}

// The number of the byte with which the first error comes, counted from 1, where the bytes come one by one.
fn deciding_byte(feed: &mut Feed, bytes: &[u8]) -> Option<usize>
    requires { feed.old.count + length bytes.now < 2 ^ 64 }
    ensures { feed.new.count ≤ feed.old.count + length bytes.now }
{
    let mut rest = bytes;
    while !rest.is_empty() {
        let (byte, more) = rest.split_at(1);
        if feed.feed(byte).is_err() {
            return Some(bytes.len() - more.len());
        }
        rest = more;
    }
    None
}

// Whether that byte has this number and decides this refusal, which is answered from then on.
fn is_decided(alloc: Global, bytes: &[u8], byte: usize, number: u8, at: u64) -> bool {
    let wanted = Some((number, at));
    let mut feed = Feed::new(alloc);
    deciding_byte(&mut feed, bytes) == Some(byte)
        && fed(&mut feed, b"".as_slice()) == wanted
        && refusal_in(feed.finish()) == wanted
}

fn check_decided(
    alloc: Global,
    front: &str,
    block: &str,
    byte: usize,
    number: u8,
    at: u64,
) -> Result<(), Fail> {
    let bytes = [front, block].concat(alloc)?;
    if is_decided(alloc, bytes.as_bytes(), byte, number, at) {
        Ok(())
    } else {
        Err(Fail::new(format_args!("{number} at {at} with byte {byte}: {bytes:?}")))
    }
}

const LENGTH: &str = "Node-path: a
Node-kind: file
Node-action: add
Text-content-length: 5
Content-length: 4

";

const SECTION: &str = "Node-path: a
Node-action: change
Prop-content-length: 10
Content-length: 12

PROPS-EN.
..";

const DELETED: &str = "Node-path:
Node-action: change
Prop-content-length: 16

D 1
a
PROPS-END
";

const ACTION: &str = "Node-path: a
Node-action: add

";

#[test]
fn a_refusal_comes_with_the_byte_that_decides_it(rt: HostRuntime) -> Result<(), Fail> {
    for (front, block, byte, number, at) in [
        ("", "x", 1, 1, 0),
        ("", "SVN-fs-dump-format-version:2\n", 28, 1, 0),
        ("", "SVN-fs-dump-format-version: \n", 29, 2, 0),
        ("", "SVN-fs-dump-format-version: 4\n\n", 30, 2, 0),
        ("", "SVN-fs-dump-format-version: 33\n", 31, 2, 0),
        (START, "Revision-number: 1\n\n", 51, 8, 31),
        (ONE, "Node-path a\n\n", 83, 3, 71),
        (ONE, LENGTH, 159, 4, 71),
        (ONE, SECTION, 160, 6, 71),
        (ONE, ACTION, 102, 7, 71),
        (ONE_3, DELETED, 143, 6, 71),
    ] {
        check_decided(rt.alloc(), front, block, byte, number, at)?;
    }
    Ok(())
}
