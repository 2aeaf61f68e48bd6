//! Workers that ask one memo.
ghost use Rattle.std.specs.Prelude.{◌≡◌, ◌<◌, length};
ghost use Rattle.value_memo.specs.SeenValue.{nothing_seen};

use crate::asking::{MALFORMED, asks, asks_twice, counts};
use std::alloc::{AllocError, Global};
use std::test::Fail;
use svn_dump::ValueId;
use value_memo::{Memo, Parsed, Seen};

// Whether a worker that was not asked yet is told what is wanted, twice, and has then read so many texts.
fn is_told<'t>(
    alloc: Global,
    seen: &mut Seen<'t>,
    memo: &Memo<'t>,
    text: &'t str,
    wanted: &str,
    parses: u64,
) -> Result<bool, AllocError>
    requires number { 0 < length memo.now }
    requires new { seen.old ≡ nothing_seen memo.now }
{
    Ok(asks_twice(alloc, seen, memo, 0, text, wanted)? && counts(seen, parses, 1))
}

// Whether three such workers are told of their own texts, two of which are equal, and the first one also of that of
// another number.
fn are_told<'t>(
    alloc: Global,
    memo: &Memo<'t>,
    first: &mut Seen<'t>,
    second: &mut Seen<'t>,
    third: &mut Seen<'t>,
) -> Result<bool, AllocError>
    requires numbers { 1 < length memo.now }
    requires first { first.old ≡ nothing_seen memo.now }
    requires second { second.old ≡ nothing_seen memo.now }
    requires third { third.old ≡ nothing_seen memo.now }
{
    let is_read = asks_twice(alloc, first, memo, 0, "/a:1", "/a:1\n")? && counts(first, 1, 1);
    let is_own = is_told(alloc, second, memo, "/b:2", "/b:2\n", 1)?;
    let is_malformed = asks(alloc, first, memo, 1, "x", MALFORMED)? && counts(first, 2, 2);
    // The first worker set the cell: where it did not, this one would have to read the text.
    let is_shared = is_told(alloc, third, memo, "/a:1", "/a:1\n", 0)?;
    Ok(is_read && is_own && is_malformed && is_shared)
}

// All workers are there before the first question, so none knows of the cells what another one asked.
#[test]
fn each_worker_is_told_of_its_own_text(rt: HostRuntime) -> Result<(), Fail> {
    let alloc = rt.alloc();
    let memo = Memo::new(alloc, 2)?;
    let mut first = Seen::new(alloc, &memo)?;
    let mut second = Seen::new(alloc, &memo)?;
    let mut third = Seen::new(alloc, &memo)?;
    assert!(rt; are_told(alloc, &memo, &mut first, &mut second, &mut third)?);
    Ok(())
}

// Whether a new worker is told of two texts in turn, so many times each, and reads each once.
fn is_told_in_turn(alloc: Global, memo: &Memo<'_>, times: u32) -> Result<bool, AllocError>
    requires { 1 < length memo.now }
{
    let mut seen = Seen::new(alloc, memo)?;
    for _ in 0..times {
        let is_good = asks(alloc, &mut seen, memo, 0, "/a:1", "/a:1\n")?;
        if !asks(alloc, &mut seen, memo, 1, "x", MALFORMED)? || !is_good {
            return Ok(false);
        }
    }
    Ok(counts(&seen, 2, 2))
}

#[test]
fn a_worker_reads_a_text(rt: HostRuntime) -> Result<(), Fail> {
    let alloc = rt.alloc();
    let memo = Memo::new(alloc, 1)?;
    let mut seen = Seen::new(alloc, &memo)?;
    let parsed = seen.value(&memo, ValueId(0), b"/trunk:1-3".as_slice())?;
    assert!(rt; matches!(parsed, Parsed::Good(_)));
    assert_eq!(rt; seen.parses(), 1);
    Ok(())
}

#[test]
fn a_text_is_read_once(rt: HostRuntime) -> Result<(), Fail> {
    let memo = Memo::new(rt.alloc(), 2)?;
    assert!(rt; is_told_in_turn(rt.alloc(), &memo, 500)?);
    Ok(())
}
