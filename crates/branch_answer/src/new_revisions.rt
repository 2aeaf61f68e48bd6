//! What one path holds beyond another one.
ghost use Rattle.std.specs.Prelude.{◌≡◌, IfErr, IfOk};
ghost use Rattle.query_answer.specs.Repo.{trees_in_bytes};
ghost use Rattle.query_answer.specs.Worker.{IsSeenOf};
ghost use Rattle.branch_answer.specs.KeptNew.{AreNewOf, AreOfRangelist, IsComparisonRefused, IsHeldBy, IsHolderRefused, IsRangelistRefused};
ghost use Rattle.branch_answer.specs.KeptOperatives.{AreOperativesIn};
ghost use Rattle.branch_answer.specs.NewRevisions.{all_revisions};
ghost use Rattle.branch_answer.specs.Question.{comparison_view};
ghost use Rattle.branch_answer.specs.QuestionAnswer.{range_or_all};

use crate::held_revisions::{holdings_of, paths_below, value_at};
use crate::holdings::Holdings;
use crate::operatives::Operatives;
use crate::question::Comparison;
use merge_info::{MergeError, MergeInfo, read_rangelist};
use path_index::RevisionRange;
use query_answer::{PathRev, Peg, Repo, Status, Unanswered};
use range_list::Ranges;
use std::alloc::Global;
use svn_path::Path;
use value_memo::{Memo, Seen};

/// How a path holds the revisions of a range: by the mergeinfo that holds for it, and by the paths below it that have
/// mergeinfo of their own.
#[derive(Drop)]
pub(crate) struct Held {
    pub(crate) at: PathRev,
    pub(crate) value: MergeInfo,
    pub(crate) below: Vec<Path>,
    pub(crate) holdings: Holdings,
}

impl Held {
    /// How the path of a peg holds the revisions of a range.
    pub(crate) fn find<'r>(
        alloc: Global,
        repo: &'r Repo,
        peg: &Peg<'_>,
        range: RevisionRange,
        memo: &Memo<'r>,
        seen: &mut Seen<'r>,
        operatives: &mut Operatives,
    ) -> Result<Self, Unanswered>
        requires seen { IsSeenOf repo.now.values memo.now seen.old }
        requires operatives { AreOperativesIn repo.now range operatives.old }
        ensures seen { IsSeenOf repo.now.values memo.now seen.new }
        ensures operatives { AreOperativesIn repo.now range operatives.new }
        ensures held { IfOk result (IsHeldBy repo.now peg.now range) }
        ensures refused { IfErr result (IsHolderRefused repo.now peg.now) }
    {
        let at = repo.find(alloc, peg)?;
        let value = value_at(alloc, repo, &at, memo, seen)?;
        let below = paths_below(alloc, repo, &at)?;
        let holdings = holdings_of(
            alloc, repo, &at, range, &value, &below, memo, seen, operatives,
        )?;
        Ok(Held {
            at,
            value,
            below,
            holdings,
        })
    }
}

/// The revisions of a rangelist.
pub(crate) fn revisions_of(alloc: Global, rangelist: &[u8]) -> Result<Ranges, Unanswered>
    ensures ranges { IfOk result (AreOfRangelist rangelist.now) }
    ensures refused { IfErr result (IsRangelistRefused rangelist.now) }
{
    match read_rangelist(alloc, rangelist) {
        Ok(runs) => Ok(Ranges::of_runs(runs)?),
        Err(MergeError::Malformed) => Err(Unanswered::Refused(Status::BadQuery)),
        Err(MergeError::Memory) => Err(Unanswered::Memory),
    }
}

/// All revisions.
pub(crate) fn all_revisions(repo: &Repo) -> RevisionRange
    ensures { result ≡ all_revisions (trees_in_bytes repo.now) }
{
    (0, repo.youngest())
}

/// The revisions of a range, or all.
fn range_or_all(repo: &Repo, range: Option<RevisionRange>) -> RevisionRange
    ensures { result ≡ range_or_all (trees_in_bytes repo.now) range }
{
    match range {
        Some(range) => range,
        None => all_revisions(repo),
    }
}

/// The revisions of which the other peg of a comparison holds more than the one, with how it holds them.
pub(crate) fn new_of<'r>(
    alloc: Global,
    repo: &'r Repo,
    comparison: &Comparison<'_>,
    memo: &Memo<'r>,
    seen: &mut Seen<'r>,
) -> Result<Held, Unanswered>
    requires seen { IsSeenOf repo.now.values memo.now seen.old }
    ensures seen { IsSeenOf repo.now.values memo.now seen.new }
    ensures new { IfOk result (AreNewOf repo.now (comparison_view comparison.now)) }
    ensures refused { IfErr result (IsComparisonRefused repo.now (comparison_view comparison.now)) }
{
    let uncounted = revisions_of(alloc, comparison.uncounted)?;
    let range = range_or_all(repo, comparison.range);
    let mut operatives = Operatives::new(alloc, repo, range);
    let one = Held::find(
        alloc,
        repo,
        &comparison.one,
        range,
        memo,
        seen,
        &mut operatives,
    )?;
    let mut other = Held::find(
        alloc,
        repo,
        &comparison.other,
        range,
        memo,
        seen,
        &mut operatives,
    )?;
    other.holdings.keep_new(&one.holdings, &uncounted);
    Ok(other)
}
