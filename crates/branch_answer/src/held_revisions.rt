//! Which revisions a path holds.
ghost use Rattle.std.specs.Prelude.{◌≡◌, All, IfErr, IfOk, OnOk, Some, map};
ghost use Rattle.svn_dump.specs.Dump.{IsDump};
ghost use Rattle.svn_path.specs.Path.{IsPathOf};
ghost use Rattle.merge_info.specs.Value.{entry_view};
ghost use Rattle.query_answer.specs.Repo.{IsPathIn, effective_in};
ghost use Rattle.query_answer.specs.Worker.{IsSeenOf};
ghost use Rattle.branch_answer.specs.HeldRevisions.{AreBelow, AreHeldBy, AreWithin, IsValueRefused, below_mark, entry_mark, history_mark, text_mark, value_mark};
ghost use Rattle.branch_answer.specs.KeptExplicit.{HasOwnText, explicit_text};
ghost use Rattle.branch_answer.specs.KeptHolding.{Overrides};
ghost use Rattle.branch_answer.specs.KeptHoldings.{AreMarked};
ghost use Rattle.branch_answer.specs.KeptOperatives.{AreOperativesFor, AreOperativesIn};
ghost use Rattle.branch_answer.specs.declared.holding.Holding.TheVariants.{Below};

use crate::explicit::explicit_of;
use crate::holding::Holding;
use crate::holdings::Holdings;
use crate::operatives::Operatives;
use merge_info::{Entry, MergeInfo};
use path_index::RevisionRange;
use query_answer::inheritance::effective;
use query_answer::{Effective, PathRev, Repo, Status, Unanswered};
use std::alloc::{AllocError, Global};
use svn_path::Path;
use value_memo::{Memo, Seen};

/// How a path holds the revisions of a range, up to the youngest one, given its effective mergeinfo and the paths below
/// it that have mergeinfo of their own.
pub(crate) fn holdings_of<'r>(
    alloc: Global,
    repo: &'r Repo,
    at: &PathRev,
    range: RevisionRange,
    value: &MergeInfo,
    below: &[Path],
    memo: &Memo<'r>,
    seen: &mut Seen<'r>,
    operatives: &mut Operatives,
) -> Result<Holdings, AllocError>
    requires place { IsPathIn repo.now at.now }
    requires below { AreBelow repo.now at.now below.now }
    requires seen { IsSeenOf repo.now.values memo.now seen.old }
    requires operatives { AreOperativesIn repo.now range operatives.old }
    ensures seen { IsSeenOf repo.now.values memo.now seen.new }
    ensures operatives { AreOperativesIn repo.now range operatives.new }
    ensures held { IfOk result (AreHeldBy repo.now at.now value.now range below.now) }
{
    let mut holdings = Holdings::new(alloc, range.0, range.1.min(repo.youngest()))?;
    mark_history(repo, at, range, &mut holdings)?;
    mark_value(
        alloc,
        repo,
        value,
        Holding::Merged,
        Holding::InPart,
        operatives,
        &mut holdings,
    )?;
    mark_all_below(
        alloc,
        repo,
        at.rev,
        below,
        memo,
        seen,
        operatives,
        &mut holdings,
    )?;
    Ok(holdings)
}

/// Marks the revisions of the history of a path.
fn mark_history(
    repo: &Repo,
    at: &PathRev,
    range: RevisionRange,
    holdings: &mut Holdings,
) -> Result<(), AllocError>
    requires place { IsPathIn repo.now at.now }
    requires within { AreWithin range holdings.old }
    ensures { OnOk result (AreMarked holdings.old holdings.new (history_mark repo.now at.now)) }
{
    let revs = repo.operative_revisions(at, range)?;
    holdings.mark(&revs, Holding::InHistory);
    Ok(())
}

/// Marks the revisions that a value has: as `whole` where they are inheritable, and as `part` otherwise.
fn mark_value(
    alloc: Global,
    repo: &Repo,
    value: &MergeInfo,
    whole: Holding,
    part: Holding,
    operatives: &mut Operatives,
    holdings: &mut Holdings,
) -> Result<(), AllocError>
    requires kept { IsDump repo.now }
    requires operatives { AreOperativesFor repo.now holdings.old operatives.old }
    requires overrides { Overrides whole part }
    ensures operatives { AreOperativesFor repo.now holdings.old operatives.new }
    ensures marked { OnOk result (AreMarked holdings.old holdings.new (value_mark repo.now whole part value.now)) }
{
    for entry in value.entries() {
        mark_entry(alloc, repo, entry, whole, part, operatives, holdings)?;
    }
    Ok(())
}

/// Marks the revisions that an entry of a value has.
fn mark_entry(
    alloc: Global,
    repo: &Repo,
    entry: &Entry,
    whole: Holding,
    part: Holding,
    operatives: &mut Operatives,
    holdings: &mut Holdings,
) -> Result<(), AllocError>
    requires kept { IsDump repo.now }
    requires operatives { AreOperativesFor repo.now holdings.old operatives.old }
    ensures operatives { AreOperativesFor repo.now holdings.old operatives.new }
    ensures marked { OnOk result (AreMarked holdings.old holdings.new
        (entry_mark repo.now whole part (entry_view entry.now))) }
{
    let Some((lo, hi)) = holdings.part(&entry.ranges) else {
        return Ok(());
    };
    let Some(path) = repo.path_named(alloc, &entry.path)? else {
        return Ok(());
    };
    operatives.look_up(alloc, repo, &path)?;
    let revs = operatives.on(&path, lo, hi);
    holdings.mark_merged(revs, &entry.ranges, whole, part);
    Ok(())
}

/// Marks the revisions that mergeinfo of these paths has.
fn mark_all_below<'r>(
    alloc: Global,
    repo: &'r Repo,
    rev: u32,
    below: &[Path],
    memo: &Memo<'r>,
    seen: &mut Seen<'r>,
    operatives: &mut Operatives,
    holdings: &mut Holdings,
) -> Result<(), AllocError>
    requires kept { IsDump repo.now }
    requires of_names { All (IsPathOf repo.now.names) below.now }
    requires own { All (HasOwnText repo.now rev) below.now }
    requires operatives { AreOperativesFor repo.now holdings.old operatives.old }
    requires seen { IsSeenOf repo.now.values memo.now seen.old }
    ensures seen { IsSeenOf repo.now.values memo.now seen.new }
    ensures operatives { AreOperativesFor repo.now holdings.old operatives.new }
    ensures marked { OnOk result (AreMarked holdings.old holdings.new
        (below_mark repo.now 0 (map (explicit_text repo.now rev) below.now))) }
{
    for (index, path) in below.iter().enumerate() {
        let Ok(index) = u32::try_from(index) else {
            return Err(AllocError);
        };
        mark_below(
            alloc, repo, rev, path, index, memo, seen, operatives, holdings,
        )?;
    }
    Ok(())
}

/// Marks the revisions that mergeinfo of a path has as held below, by the path of an index.
fn mark_below<'r>(
    alloc: Global,
    repo: &'r Repo,
    rev: u32,
    path: &Path,
    index: u32,
    memo: &Memo<'r>,
    seen: &mut Seen<'r>,
    operatives: &mut Operatives,
    holdings: &mut Holdings,
) -> Result<(), AllocError>
    requires kept { IsDump repo.now }
    requires of_names { IsPathOf repo.now.names path.now }
    requires own { HasOwnText repo.now rev path.now }
    requires operatives { AreOperativesFor repo.now holdings.old operatives.old }
    requires seen { IsSeenOf repo.now.values memo.now seen.old }
    ensures seen { IsSeenOf repo.now.values memo.now seen.new }
    ensures operatives { AreOperativesFor repo.now holdings.old operatives.new }
    ensures marked { OnOk result (AreMarked holdings.old holdings.new
        (text_mark repo.now (Below index) (explicit_text repo.now rev path.now).1)) }
{
    let how = Holding::Below(index);
    match effective(alloc, repo, path, rev, memo, seen)? {
        Effective::Malformed => Ok(()),
        Effective::Value(value) => mark_value(alloc, repo, &value, how, how, operatives, holdings),
    }
}

/// The mergeinfo that holds for a path, unless it is malformed.
pub(crate) fn value_at<'r>(
    alloc: Global,
    repo: &'r Repo,
    at: &PathRev,
    memo: &Memo<'r>,
    seen: &mut Seen<'r>,
) -> Result<MergeInfo, Unanswered>
    requires of_names { IsPathOf repo.now.names at.now.path }
    requires seen { IsSeenOf repo.now.values memo.now seen.old }
    ensures seen { IsSeenOf repo.now.values memo.now seen.new }
    ensures value { IfOk result (λ value. effective_in repo.now at.now.path at.now.rev ≡ Some value) }
    ensures refused { IfErr result (IsValueRefused repo.now at.now) }
{
    match effective(alloc, repo, &at.path, at.rev, memo, seen)? {
        Effective::Value(value) => Ok(value),
        Effective::Malformed => Err(Unanswered::Refused(Status::MalformedMergeinfo)),
    }
}

/// The paths below a path that have mergeinfo of their own, in the order of their bytes.
pub(crate) fn paths_below(alloc: Global, repo: &Repo, at: &PathRev) -> Result<Vec<Path>, AllocError>
    requires { IsPathIn repo.now at.now }
    ensures { IfOk result (λ below. AreBelow repo.now at.now below.items) }
{
    let mut below = Vec::new(alloc);
    for path in explicit_of(alloc, repo, at)? {
        if path != at.path {
            below.push(path)?;
        }
    }
    Ok(below)
}
