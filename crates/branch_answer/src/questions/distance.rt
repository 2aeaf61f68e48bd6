//! `distance`: how many revisions paths hold beyond one another.
ghost use Rattle.std.specs.Prelude.{◌≡◌, [], ◌∷◌, ◌++◌, IfErr, IfOk, OnOk, length};
ghost use Rattle.std.specs.List.{slice_split};
ghost use Rattle.svn_text.specs.Line.{line_text};
ghost use Rattle.svn_dump.specs.Dump.{history_in_bytes};
ghost use Rattle.query_answer.specs.Answer.{ok_answer, status_text};
ghost use Rattle.query_answer.specs.Peg.{peg_view};
ghost use Rattle.query_answer.specs.Query.{is_tab};
ghost use Rattle.query_answer.specs.Repo.{trees_in_bytes};
ghost use Rattle.query_answer.specs.Worker.{IsSeenOf};
ghost use Rattle.branch_answer.specs.KeptNew.{AreCounted, IsHeldIn, kept_distance_line, target_answer_in, target_text, targets_text};
ghost use Rattle.branch_answer.specs.KeptOperatives.{AreOperativesIn};
ghost use Rattle.branch_answer.specs.NewRevisions.{all_revisions};
ghost use Rattle.branch_answer.specs.QuestionAnswer.{distance_answer};
ghost use Rattle.branch_answer.specs.Told.{IsUntold, TellsLines};

use crate::counted::{Counted, Distance};
use crate::new_revisions::{Held, all_revisions, revisions_of};
use crate::operatives::Operatives;
use query_answer::{Peg, Repo, Status, Unanswered};
use std::alloc::{AllocError, Global};
use svn_text::push_number;
use value_memo::{Memo, Seen};

/// Appends a line for each of some pegs: how many revisions it holds beyond the one, and how many the one beyond it.
pub(crate) fn append_distance<'r>(
    alloc: Global,
    repo: &'r Repo,
    from: &Peg<'_>,
    uncounted: &[u8],
    to: &[u8],
    memo: &Memo<'r>,
    seen: &mut Seen<'r>,
    out: &mut Vec<u8>,
) -> Result<(), Unanswered>
    requires seen { IsSeenOf repo.now.values memo.now seen.old }
    ensures seen { IsSeenOf repo.now.values memo.now seen.new }
    ensures lines { OnOk result (TellsLines (distance_answer (history_in_bytes repo.now) (trees_in_bytes repo.now)
        (peg_view from.now) uncounted.now (slice_split is_tab to.now)) out.old.items out.new.items) }
    ensures none { IfErr result (IsUntold (distance_answer (history_in_bytes repo.now) (trees_in_bytes repo.now)
        (peg_view from.now) uncounted.now (slice_split is_tab to.now))) }
{
    let uncounted = revisions_of(alloc, uncounted)?;
    let range = all_revisions(repo);
    let mut operatives = Operatives::new(alloc, repo, range);
    let one = Held::find(alloc, repo, from, range, memo, seen, &mut operatives)?;
    let counted = Counted::new(alloc, repo.youngest(), uncounted)?;
    append_targets(
        alloc,
        repo,
        &one,
        &counted,
        to,
        memo,
        seen,
        &mut operatives,
        out,
    )?;
    Ok(())
}

/// Appends the line of each target, whose pegs are separated by tabs.
fn append_targets<'r>(
    alloc: Global,
    repo: &'r Repo,
    one: &Held,
    counted: &Counted,
    to: &[u8],
    memo: &Memo<'r>,
    seen: &mut Seen<'r>,
    operatives: &mut Operatives,
    out: &mut Vec<u8>,
) -> Result<(), AllocError>
    requires one { IsHeldIn repo.now (all_revisions (trees_in_bytes repo.now)) one.now }
    requires counted { AreCounted (length repo.now.counts) counted.now }
    requires seen { IsSeenOf repo.now.values memo.now seen.old }
    requires operatives { AreOperativesIn repo.now (all_revisions (trees_in_bytes repo.now)) operatives.old }
    ensures seen { IsSeenOf repo.now.values memo.now seen.new }
    ensures operatives { AreOperativesIn repo.now (all_revisions (trees_in_bytes repo.now)) operatives.new }
    ensures lines { OnOk result (out.new.items ≡ out.old.items
        ++ targets_text repo.now one.now counted.now (slice_split is_tab to.now)) }
{
    for field in to.split(|byte| *byte == b'\t') {
        append_target(
            alloc, repo, one, counted, field, memo, seen, operatives, out,
        )?;
    }
    Ok(())
}

/// Appends the line of the target of a field: its distance, or why there is none.
fn append_target<'r>(
    alloc: Global,
    repo: &'r Repo,
    one: &Held,
    counted: &Counted,
    field: &[u8],
    memo: &Memo<'r>,
    seen: &mut Seen<'r>,
    operatives: &mut Operatives,
    out: &mut Vec<u8>,
) -> Result<(), AllocError>
    requires one { IsHeldIn repo.now (all_revisions (trees_in_bytes repo.now)) one.now }
    requires counted { AreCounted (length repo.now.counts) counted.now }
    requires seen { IsSeenOf repo.now.values memo.now seen.old }
    requires operatives { AreOperativesIn repo.now (all_revisions (trees_in_bytes repo.now)) operatives.old }
    ensures seen { IsSeenOf repo.now.values memo.now seen.new }
    ensures operatives { AreOperativesIn repo.now (all_revisions (trees_in_bytes repo.now)) operatives.new }
    ensures line { OnOk result (out.new.items ≡ out.old.items
        ++ target_text repo.now one.now counted.now field.now) }
{
    match distance_to(alloc, repo, one, counted, field, memo, seen, operatives) {
        Ok(distance) => append_numbers(distance, out),
        Err(Unanswered::Refused(status)) => append_status(status, out),
        Err(Unanswered::Memory) => Err(AllocError),
    }
}

/// The distance from a path to the target of a field.
fn distance_to<'r>(
    alloc: Global,
    repo: &'r Repo,
    one: &Held,
    counted: &Counted,
    field: &[u8],
    memo: &Memo<'r>,
    seen: &mut Seen<'r>,
    operatives: &mut Operatives,
) -> Result<Distance, Unanswered>
    requires one { IsHeldIn repo.now (all_revisions (trees_in_bytes repo.now)) one.now }
    requires counted { AreCounted (length repo.now.counts) counted.now }
    requires seen { IsSeenOf repo.now.values memo.now seen.old }
    requires operatives { AreOperativesIn repo.now (all_revisions (trees_in_bytes repo.now)) operatives.old }
    ensures seen { IsSeenOf repo.now.values memo.now seen.new }
    ensures operatives { AreOperativesIn repo.now (all_revisions (trees_in_bytes repo.now)) operatives.new }
    ensures distance { IfOk result (λ distance. target_answer_in repo.now one.now counted.now field.now
        ≡ ok_answer (kept_distance_line distance ∷ [])) }
    ensures refused { IfErr result (IsUntold (target_answer_in repo.now one.now counted.now field.now)) }
{
    let Some(peg) = Peg::read(field) else {
        return Err(Unanswered::Refused(Status::BadQuery));
    };
    let other = Held::find(
        alloc,
        repo,
        &peg,
        all_revisions(repo),
        memo,
        seen,
        operatives,
    )?;
    Ok(counted.distance(&one.holdings, &other.holdings))
}

/// Appends the line of a distance.
fn append_numbers(distance: Distance, out: &mut Vec<u8>) -> Result<(), AllocError>
    ensures { OnOk result (out.new.items ≡ out.old.items ++ line_text (kept_distance_line distance)) }
{
    push_number(out, u64::from(distance.beyond))?;
    out.push(b' ')?;
    push_number(out, u64::from(distance.behind))?;
    out.push(b'\n')?;
    Ok(())
}

/// Appends the line of a status.
fn append_status(status: Status, out: &mut Vec<u8>) -> Result<(), AllocError>
    ensures { OnOk result (out.new.items ≡ out.old.items ++ line_text (status_text status)) }
{
    out.extend_from_slice(status.text())?;
    out.push(b'\n')?;
    Ok(())
}
