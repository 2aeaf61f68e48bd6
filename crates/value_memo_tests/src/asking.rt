//! What the tests ask of a memo.
ghost use Rattle.std.specs.Prelude.{◌≡◌, ◌<◌, OnOk, length};
ghost use Rattle.value_memo.specs.SeenValue.{IsAnswered, MayAsk};

use merge_info::MergeInfo;
use std::alloc::{AllocError, Global};
use svn_dump::ValueId;
use value_memo::{Memo, Parsed, Seen};

pub(crate) const MALFORMED: &str = "malformed";

fn is_written_as(alloc: Global, value: &MergeInfo, wanted: &str) -> Result<bool, AllocError> {
    let mut text = Vec::new(alloc);
    value.write(&mut text)?;
    Ok(text.as_slice() == wanted.as_bytes())
}

/// Whether a reading is the wanted one.
pub(crate) fn says(alloc: Global, parsed: Parsed<'_>, wanted: &str) -> Result<bool, AllocError> {
    match parsed {
        Parsed::Good(value) => is_written_as(alloc, value, wanted),
        Parsed::Malformed => Ok(wanted == MALFORMED),
    }
}

/// Whether a text says what is wanted.
pub(crate) fn asks<'t>(
    alloc: Global,
    seen: &mut Seen<'t>,
    memo: &Memo<'t>,
    id: u32,
    text: &'t str,
    wanted: &str,
) -> Result<bool, AllocError>
    requires number { id < length memo.now }
    requires memo { seen.old.memo ≡ memo.now }
    requires text { MayAsk seen.old id text.now }
    ensures { OnOk result (IsAnswered seen.old id text.now seen.new) }
{
    says(
        alloc,
        seen.value(memo, ValueId(id), text.as_bytes())?,
        wanted,
    )
}

/// Whether it says so each of two times.
pub(crate) fn asks_twice<'t>(
    alloc: Global,
    seen: &mut Seen<'t>,
    memo: &Memo<'t>,
    id: u32,
    text: &'t str,
    wanted: &str,
) -> Result<bool, AllocError>
    requires number { id < length memo.now }
    requires memo { seen.old.memo ≡ memo.now }
    requires text { MayAsk seen.old id text.now }
    ensures { OnOk result (IsAnswered seen.old id text.now seen.new) }
{
    let once = asks(alloc, seen, memo, id, text, wanted)?;
    Ok(asks(alloc, seen, memo, id, text, wanted)? && once)
}

/// Whether a new worker is told what is wanted, twice.
pub(crate) fn is_told_anew<'t>(
    alloc: Global,
    memo: &Memo<'t>,
    text: &'t str,
    wanted: &str,
) -> Result<bool, AllocError>
    requires { 0 < length memo.now }
{
    let mut seen = Seen::new(alloc, memo)?;
    asks_twice(alloc, &mut seen, memo, 0, text, wanted)
}

/// Whether a worker has read so many texts, and was answered for so many numbers.
pub(crate) fn counts(seen: &Seen<'_>, parses: u64, asked: u64) -> bool {
    seen.parses() == parses && seen.asked() == asked
}
