//! A source and a target, and what is asked of them.
ghost use Rattle.std.specs.Prelude.{◌≡◌, [], Some, IfErr, IfOk};
ghost use Rattle.std.specs.Borrow.{sem};
ghost use Rattle.query_answer.specs.Held.{IsHeldIn, held_value};
ghost use Rattle.query_answer.specs.NearestValue.{ends_held, text_found};
ghost use Rattle.query_answer.specs.Repo.{IsMergeinfoRefused, IsNearestIn, IsPair, IsPairRefused, IsPathIn, chosen_by, effective_in, held_answer, pair_answer, peg_text};
ghost use Rattle.query_answer.specs.Unanswered.{HasAnswer};
ghost use Rattle.query_answer.specs.Worker.{IsSeenOf, LooksAtMergeinfo, Reads};

use super::eligible::eligible_revisions;
use super::merged::merged_revisions;
use crate::answers::Answer;
use crate::held_mergeinfo::HeldMergeinfo;
use crate::nearest_value::nearest_value;
use crate::peg::Peg;
use crate::repo::Repo;
use crate::status::Status;
use crate::target::{PathRev, Target};
use crate::unanswered::Unanswered;
use merge_info::MergeInfo;
use path_index::RevisionRange;
use std::alloc::Global;
use value_memo::{Memo, Parsed, Seen};

/// Which revisions of a source are asked for.
#[derive(Clone, Copy, Debug)]
pub(crate) enum Choice {
    /// Those that were merged into the target.
    Merged,
    /// Those that are still to be merged into the target.
    Eligible,
}

/// What two pegs name.
#[derive(Drop)]
pub(crate) struct Pair {
    pub(crate) source: PathRev,
    pub(crate) target: Target,
}

impl Pair {
    /// The pair of two pegs.
    pub(crate) fn find(
        alloc: Global,
        repo: &Repo,
        source: &Peg<'_>,
        target: &Peg<'_>,
    ) -> Result<Self, Unanswered>
        ensures found { IfOk result (IsPair repo.now source.now target.now) }
        ensures refused { IfErr result (IsPairRefused repo.now source.now target.now) }
    {
        let source = repo.find(alloc, source)?;
        let target = repo.find_target(alloc, target)?;
        Ok(Pair { source, target })
    }
}

/// The mergeinfo that a target holds. Where there is none, that is the empty value, which the caller lends.
pub(crate) fn target_mergeinfo<'a, 'r>(
    seen: &'a mut Seen<'r>,
    memo: &'a Memo<'r>,
    repo: &'r Repo,
    target: &'a Target,
    empty: &'a MergeInfo,
) -> Result<HeldMergeinfo<'a, 'a>, Unanswered>
    requires at { IsPathIn repo.now target.now.at }
    requires nearest { IsNearestIn repo.now target.now.at.path target.now.at.rev target.now.nearest }
    requires seen { IsSeenOf repo.now.values memo.now seen.old }
    requires empty { empty.now ≡ [] }
    ensures* after { sem 𝓛 (ends_held seen.entry repo.now memo.now (text_found repo.now target.now.nearest) result) }
    ensures held { IfOk result (IsHeldIn repo.now.names) }
    ensures value { IfOk result (λ held. effective_in repo.now target.now.at.path target.now.at.rev
        ≡ Some (held_value repo.now.names held)) }
    ensures refused { IfErr result (IsMergeinfoRefused repo.now target.now.at) }
{
    match nearest_value(seen, memo, repo, target.nearest, empty)? {
        Parsed::Good(value) => Ok(HeldMergeinfo::new(value, target.rest())),
        Parsed::Malformed => Err(Unanswered::Refused(Status::MalformedMergeinfo)),
    }
}

/// The chosen revisions of a source with regard to a target, in this range if there is one.
pub(crate) fn answer_pair<'r>(
    alloc: Global,
    repo: &'r Repo,
    source: &Peg<'_>,
    target: &Peg<'_>,
    choice: Choice,
    range: Option<RevisionRange>,
    memo: &Memo<'r>,
    seen: &mut Seen<'r>,
) -> Result<Answer, Unanswered>
    requires seen { IsSeenOf repo.now.values memo.now seen.old }
    ensures answer { HasAnswer repo.now (pair_answer repo.now source.now target.now choice range) result }
    ensures worker { Reads repo.now memo.now (peg_text repo.now target.now) result seen.old seen.new }
{
    let pair = Pair::find(alloc, repo, source, target)?;
    let empty = MergeInfo::empty(alloc);
    let held = target_mergeinfo(seen, memo, repo, &pair.target, &empty)?;
    chosen_revisions(alloc, repo, &pair, choice, range, &held)
}

/// The chosen revisions of a pair in rising order, given the mergeinfo that the target holds.
fn chosen_revisions(
    alloc: Global,
    repo: &Repo,
    pair: &Pair,
    choice: Choice,
    range: Option<RevisionRange>,
    held: &HeldMergeinfo<'_, '_>,
) -> Result<Answer, Unanswered>
    requires source { IsPathIn repo.now pair.now.source }
    requires target { IsPathIn repo.now pair.now.target.at }
    requires held { IsHeldIn repo.now.names held.now }
    ensures answer { HasAnswer repo.now
        (held_answer repo.now pair.now held.now (chosen_by repo.now choice range)) result }
    ensures found { LooksAtMergeinfo result }
{
    match choice {
        Choice::Merged => merged_revisions(alloc, repo, pair, range, held),
        Choice::Eligible => eligible_revisions(alloc, repo, pair, range, held),
    }
}
