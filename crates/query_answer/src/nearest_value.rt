//! The value of the nearest mergeinfo.
ghost use Rattle.std.specs.Prelude.{◌≡◌, [], ◌<◌, IfOk, IfSome, length};
ghost use Rattle.std.specs.Borrow.{sem};
ghost use Rattle.value_memo.specs.Parsed.{parsed_view};
ghost use Rattle.query_answer.specs.NearestValue.{ends_told, text_found, value_said};
ghost use Rattle.query_answer.specs.Worker.{IsSeenOf};

use crate::repo::Repo;
use block_map::Nearest;
use merge_info::MergeInfo;
use std::alloc::AllocError;
use value_memo::{Memo, Parsed, Seen};

/// What the text of the nearest mergeinfo says. Where there is none, that is the empty value, which the caller lends.
pub(crate) fn nearest_value<'a, 'r>(
    seen: &'a mut Seen<'r>,
    memo: &'a Memo<'r>,
    repo: &'r Repo,
    nearest: Option<Nearest>,
    empty: &'a MergeInfo,
) -> Result<Parsed<'a>, AllocError>
    requires nearest { IfSome nearest (λ found. found.mi.0 < length repo.now.values) }
    requires seen { IsSeenOf repo.now.values memo.now seen.old }
    requires empty { empty.now ≡ [] }
    ensures* after { sem 𝓛 (ends_told seen.entry repo.now memo.now (text_found repo.now nearest) result) }
    ensures value { IfOk result (λ parsed. parsed_view parsed ≡ value_said (text_found repo.now nearest)) }
{
    match nearest {
        Some(found) => seen.value(memo, found.mi, repo.mergeinfo_text(found.mi)),
        None => Ok(Parsed::Good(empty)),
    }
}
