//! `holds`: which revisions a path holds.
ghost use Rattle.std.specs.Prelude.{IfErr, OnOk};
ghost use Rattle.svn_dump.specs.Dump.{history_in_bytes};
ghost use Rattle.query_answer.specs.Peg.{peg_view};
ghost use Rattle.query_answer.specs.Repo.{trees_in_bytes};
ghost use Rattle.query_answer.specs.Worker.{IsSeenOf};
ghost use Rattle.branch_answer.specs.QuestionAnswer.{holds_answer};
ghost use Rattle.branch_answer.specs.Told.{IsUntold, TellsLines};

use crate::new_revisions::Held;
use crate::operatives::Operatives;
use path_index::RevisionRange;
use query_answer::{Peg, Repo, Unanswered};
use std::alloc::Global;
use value_memo::{Memo, Seen};

/// Appends the revisions of a range that a peg holds, the newest first, with how it holds each.
pub(crate) fn append_holds<'r>(
    alloc: Global,
    repo: &'r Repo,
    peg: &Peg<'_>,
    range: RevisionRange,
    memo: &Memo<'r>,
    seen: &mut Seen<'r>,
    out: &mut Vec<u8>,
) -> Result<(), Unanswered>
    requires seen { IsSeenOf repo.now.values memo.now seen.old }
    ensures seen { IsSeenOf repo.now.values memo.now seen.new }
    ensures lines { OnOk result (TellsLines (holds_answer (history_in_bytes repo.now) (trees_in_bytes repo.now)
        (peg_view peg.now) range) out.old.items out.new.items) }
    ensures none { IfErr result (IsUntold (holds_answer (history_in_bytes repo.now) (trees_in_bytes repo.now)
        (peg_view peg.now) range)) }
{
    let mut operatives = Operatives::new(alloc, repo, range);
    let held = Held::find(alloc, repo, peg, range, memo, seen, &mut operatives)?;
    held.holdings.append(repo.names(), &held.below, out)?;
    Ok(())
}
