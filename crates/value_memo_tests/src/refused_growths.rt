//! What a worker knows of a memo after a growth was refused.
ghost use Rattle.std.specs.Prelude.{◌≡◌, ◌<◌, IfNone, IfOk, IfSome, OnOk, length};
ghost use Rattle.value_memo.specs.SeenValue.{IsAnswered, MayAsk};

use crate::asking::{MALFORMED, asks, counts, says};
use growth_marks::{begin, end};
use std::alloc::{AllocError, Global};
use std::test::Fail;
use svn_dump::ValueId;
use value_memo::{Memo, Seen};

// Whether a text says what is wanted; `None` where memory ran out.
fn asks_between_marks<'t>(
    alloc: Global,
    seen: &mut Seen<'t>,
    memo: &Memo<'t>,
    id: u32,
    text: &'t str,
    wanted: &str,
) -> Result<Option<bool>, AllocError>
    requires number { id < length memo.now }
    requires memo { seen.old.memo ≡ memo.now }
    requires text { MayAsk seen.old id text.now }
    ensures told { IfOk result (λ told. IfSome told (λ _. IsAnswered seen.old id text.now seen.new)) }
    ensures none { IfOk result (λ told. IfNone told (seen.new ≡ seen.old)) }
{
    begin(alloc);
    let parsed = seen.value(memo, ValueId(id), text.as_bytes());
    end(alloc);
    match parsed {
        Ok(parsed) => Ok(Some(says(alloc, parsed, wanted)?)),
        Err(AllocError) => Ok(None),
    }
}

// Whether a text says what is wanted, at the latest when the same worker asks again.
fn asks_again<'t>(
    alloc: Global,
    seen: &mut Seen<'t>,
    memo: &Memo<'t>,
    id: u32,
    text: &'t str,
    wanted: &str,
) -> Result<bool, AllocError>
    requires number { id < length memo.now }
    requires memo { seen.old.memo ≡ memo.now }
    requires text { MayAsk seen.old id text.now }
    ensures { OnOk result (IsAnswered seen.old id text.now seen.new) }
{
    match asks_between_marks(alloc, seen, memo, id, text, wanted)? {
        Some(is_told) => Ok(is_told),
        None => asks(alloc, seen, memo, id, text, wanted),
    }
}

// Whether a new worker is told of two texts, and has read each once.
fn is_told_of_both(alloc: Global, memo: &Memo<'_>) -> Result<bool, AllocError>
    requires { 1 < length memo.now }
{
    let mut seen = Seen::new(alloc, memo)?;
    let is_good = asks_again(alloc, &mut seen, memo, 0, "/a:1", "/a:1\n")?;
    let is_malformed = asks_again(alloc, &mut seen, memo, 1, "x", MALFORMED)?;
    Ok(is_good && is_malformed && counts(&seen, 2, 2))
}

// Whether a new worker is told what is wanted, at the latest when it asks again, and then once more, and has read so
// many texts.
fn is_told<'t>(
    alloc: Global,
    memo: &Memo<'t>,
    text: &'t str,
    wanted: &str,
    parses: u64,
) -> Result<bool, AllocError>
    requires { 0 < length memo.now }
{
    let mut seen = Seen::new(alloc, memo)?;
    let is_told = asks_again(alloc, &mut seen, memo, 0, text, wanted)?;
    let is_told_anew = asks(alloc, &mut seen, memo, 0, text, wanted)?;
    Ok(is_told && is_told_anew && counts(&seen, parses, 1))
}

// The first worker sets the cell of number 0. The second one asks for that number with another text, and the third one
// with the cell's.
#[test]
fn refused_growths_leave_a_worker_as_it_was(rt: HostRuntime) -> Result<(), Fail> {
    let memo = Memo::new(rt.alloc(), 2)?;
    assert!(rt; is_told_of_both(rt.alloc(), &memo)?);
    assert!(rt; is_told(rt.alloc(), &memo, "/b:2", "/b:2\n", 1)?);
    assert!(rt; is_told(rt.alloc(), &memo, "/a:1", "/a:1\n", 0)?);
    Ok(())
}
