//! `mergeinfo`: the effective mergeinfo of a path.
ghost use Rattle.std.specs.Prelude.{◌≤◌, length};
ghost use Rattle.svn_path.specs.Path.{IsPathOf};
ghost use Rattle.query_answer.specs.Answer.{value_answer};
ghost use Rattle.query_answer.specs.Repo.{effective_said, mergeinfo_answer, peg_text};
ghost use Rattle.query_answer.specs.Unanswered.{HasAnswer};
ghost use Rattle.query_answer.specs.Worker.{IsSeenOf, LooksAtMergeinfo, Reads};

use crate::answers::Answer;
use crate::inheritance::rest_below;
use crate::nearest_value::nearest_value;
use crate::peg::Peg;
use crate::printed_mergeinfo::PrintedMergeinfo;
use crate::repo::Repo;
use crate::status::Status;
use crate::target::depth_in;
use crate::unanswered::Unanswered;
use merge_info::MergeInfo;
use std::alloc::Global;
use svn_path::Path;
use value_memo::{Memo, Parsed, Seen};

/// The effective mergeinfo of a peg.
pub(crate) fn answer_mergeinfo<'r>(
    alloc: Global,
    repo: &'r Repo,
    peg: &Peg<'_>,
    memo: &Memo<'r>,
    seen: &mut Seen<'r>,
) -> Result<Answer, Unanswered>
    requires seen { IsSeenOf repo.now.values memo.now seen.old }
    ensures answer { HasAnswer repo.now (mergeinfo_answer repo.now peg.now) result }
    ensures worker { Reads repo.now memo.now (peg_text repo.now peg.now) result seen.old seen.new }
{
    let target = repo.find_target(alloc, peg)?;
    let empty = MergeInfo::empty(alloc);
    let parsed = nearest_value(seen, memo, repo, target.nearest, &empty)?;
    let path = &target.at.path;
    own_or_inherited_lines(alloc, repo, path, depth_in(path, target.nearest), parsed)
}

/// The lines of the mergeinfo that holds for a path, given what the text says that its first `depth` components have.
fn own_or_inherited_lines(
    alloc: Global,
    repo: &Repo,
    path: &Path,
    depth: usize,
    parsed: Parsed<'_>,
) -> Result<Answer, Unanswered>
    requires path { IsPathOf repo.now.names path.now }
    requires depth { depth ≤ length path.now }
    ensures answer { HasAnswer repo.now (value_answer (effective_said repo.now path.now depth parsed.entry)) result }
    ensures found { LooksAtMergeinfo result }
{
    match parsed {
        Parsed::Malformed => Err(Unanswered::Refused(Status::MalformedMergeinfo)),
        Parsed::Good(value) if depth == path.len() => {
            Ok(Answer::Mergeinfo(PrintedMergeinfo::of(alloc, value)?))
        }
        Parsed::Good(value) => {
            let rest = rest_below(alloc, repo, path, depth)?;
            Ok(Answer::Mergeinfo(PrintedMergeinfo::inherited(alloc, value, &rest)?))
        }
    }
}
