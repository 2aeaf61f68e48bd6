//! `new` and `new-ranges`: which revisions one path holds beyond another one.
ghost use Rattle.std.specs.Prelude.{◌≡◌, ◌++◌, All, IfErr, OnOk};
ghost use Rattle.range_list.specs.Rangelist.{IsRun};
ghost use Rattle.svn_dump.specs.Dump.{history_in_bytes};
ghost use Rattle.query_answer.specs.Repo.{trees_in_bytes};
ghost use Rattle.query_answer.specs.Worker.{IsSeenOf};
ghost use Rattle.branch_answer.specs.Holding.{held_lines};
ghost use Rattle.branch_answer.specs.KeptNew.{runs_text};
ghost use Rattle.branch_answer.specs.NewRevisions.{rangelist_lines};
ghost use Rattle.branch_answer.specs.Question.{comparison_view};
ghost use Rattle.branch_answer.specs.QuestionAnswer.{comparison_answer};
ghost use Rattle.branch_answer.specs.Told.{IsUntold, TellsLines};

use crate::new_revisions::new_of;
use crate::question::Comparison;
use query_answer::{Repo, Unanswered};
use range_list::{Ranges, Run};
use std::alloc::{AllocError, Global};
use value_memo::{Memo, Seen};

/// Appends the revisions of which the other peg holds more than the one, the newest first, with how it holds each.
pub(crate) fn append_new<'r>(
    alloc: Global,
    repo: &'r Repo,
    comparison: &Comparison<'_>,
    memo: &Memo<'r>,
    seen: &mut Seen<'r>,
    out: &mut Vec<u8>,
) -> Result<(), Unanswered>
    requires seen { IsSeenOf repo.now.values memo.now seen.old }
    ensures seen { IsSeenOf repo.now.values memo.now seen.new }
    ensures lines { OnOk result (TellsLines (comparison_answer (history_in_bytes repo.now) (trees_in_bytes repo.now)
        held_lines (comparison_view comparison.now)) out.old.items out.new.items) }
    ensures none { IfErr result (IsUntold (comparison_answer (history_in_bytes repo.now) (trees_in_bytes repo.now)
        held_lines (comparison_view comparison.now))) }
{
    let news = new_of(alloc, repo, comparison, memo, seen)?;
    news.holdings.append(repo.names(), &news.below, out)?;
    Ok(())
}

/// Appends the revisions of which the other peg holds more than the one, as a rangelist.
pub(crate) fn append_new_ranges<'r>(
    alloc: Global,
    repo: &'r Repo,
    comparison: &Comparison<'_>,
    memo: &Memo<'r>,
    seen: &mut Seen<'r>,
    out: &mut Vec<u8>,
) -> Result<(), Unanswered>
    requires seen { IsSeenOf repo.now.values memo.now seen.old }
    ensures seen { IsSeenOf repo.now.values memo.now seen.new }
    ensures lines { OnOk result (TellsLines (comparison_answer (history_in_bytes repo.now) (trees_in_bytes repo.now)
        rangelist_lines (comparison_view comparison.now)) out.old.items out.new.items) }
    ensures none { IfErr result (IsUntold (comparison_answer (history_in_bytes repo.now) (trees_in_bytes repo.now)
        rangelist_lines (comparison_view comparison.now))) }
{
    let news = new_of(alloc, repo, comparison, memo, seen)?;
    let runs = news.holdings.runs(alloc)?;
    append_runs(runs, out)?;
    Ok(())
}

/// Appends the line of the rangelist of runs, unless there are none.
fn append_runs(runs: Vec<Run>, out: &mut Vec<u8>) -> Result<(), AllocError>
    requires { All IsRun runs.items }
    ensures { OnOk result (out.new.items ≡ out.old.items ++ runs_text runs.items) }
{
    if runs.is_empty() {
        return Ok(());
    }
    let ranges = Ranges::of_runs(runs)?;
    ranges.write(out)?;
    out.push(b'\n')?;
    Ok(())
}
