//! `eligible`: the operative revisions of a source that are still to be merged into a target.
ghost use Rattle.std.specs.Prelude.{◌≡◌, ◌++◌, IfOk, OnOk, flat_map, map};
ghost use Rattle.svn_text.specs.Appended.{BeginsWith};
ghost use Rattle.svn_text.specs.Line.{line_text};
ghost use Rattle.query_answer.specs.Answer.{eligible_line};
ghost use Rattle.query_answer.specs.SourceHits.{TellsLocations, eligible_by_hits, has_in, is_eligible_by_hit};
ghost use Rattle.query_answer.specs.Repo.{IsPathIn, eligible_by, held_answer};
ghost use Rattle.query_answer.specs.Held.{IsHeldIn};
ghost use Rattle.query_answer.specs.Unanswered.{HasAnswer};
ghost use Rattle.query_answer.specs.Worker.{LooksAtMergeinfo};

use super::pair::Pair;
use super::source::SourceRanges;
use crate::answers::Answer;
use crate::held_mergeinfo::HeldMergeinfo;
use crate::locations::{is_at, path_at, path_in};
use crate::repo::Repo;
use crate::unanswered::Unanswered;
use path_index::{Hit, RevisionRange, Segment};
use std::alloc::{AllocError, Global};
use svn_text::push_number;

/// The eligible revisions of a pair in rising order, given the mergeinfo that the target holds.
pub(crate) fn eligible_revisions(
    alloc: Global,
    repo: &Repo,
    pair: &Pair,
    range: Option<RevisionRange>,
    held: &HeldMergeinfo<'_, '_>,
) -> Result<Answer, Unanswered>
    requires source { IsPathIn repo.now pair.now.source }
    requires target { IsPathIn repo.now pair.now.target.at }
    requires held { IsHeldIn repo.now.names held.now }
    ensures answer { HasAnswer repo.now (held_answer repo.now pair.now held.now (eligible_by repo.now range)) result }
    ensures found { LooksAtMergeinfo result }
{
    let segments = repo.segments(&pair.source)?;
    let hits = repo.operative(&segments, range)?;
    let own = repo.segments(&pair.target.at)?;
    let ranges = SourceRanges::of(alloc, repo.names(), held, &segments)?;
    let eligible = eligible_by_hits(alloc, &ranges, &segments, &own, &hits)?;
    Ok(Answer::Eligible(eligible))
}

/// The operative revisions that mergeinfo lacks, in rising order, but for those in which the target had the path of the
/// segment itself.
fn eligible_by_hits(
    alloc: Global,
    ranges: &SourceRanges<'_>,
    segments: &[Segment],
    target: &[Segment],
    hits: &[Hit],
) -> Result<Vec<u32>, AllocError>
    ensures { IfOk result (λ found. (located : _) → TellsLocations located target.now
        → found.items ≡ eligible_by_hits (has_in ranges.now) segments.now located hits.now) }
{
    let mut found = Vec::new(alloc);
    for hit in hits {
        if is_eligible(ranges, segments, target, *hit) {
            found.push(hit.rev)?;
        }
    }
    found.reverse();
    Ok(found)
}

/// Whether mergeinfo lacks an operative revision, and the target did not have the path of the segment itself then.
fn is_eligible(
    ranges: &SourceRanges<'_>,
    segments: &[Segment],
    target: &[Segment],
    hit: Hit,
) -> bool
    ensures { (located : _) → TellsLocations located target.now
        → result ≡ is_eligible_by_hit (has_in ranges.now) segments.now located hit }
{
    match path_at(segments, hit.segment) {
        Some(source) => ranges.has(hit).is_none() && !is_at(path_in(target, hit.rev), source),
        None => false,
    }
}

/// Appends the lines of `eligible`.
#[tactic(auto, using(svn_text::proofs::Appended::appended))]
pub(crate) fn append_eligible(revisions: &[u32], out: &mut Vec<u8>) -> Result<(), AllocError>
    ensures ok { OnOk result (out.new.items ≡ out.old.items ++ flat_map line_text (map eligible_line revisions.now)) }
    ensures begins { BeginsWith out.old.items out.new.items }
{
    for rev in revisions {
        out.push(b'r')?;
        push_number(out, u64::from(*rev))?;
        out.push(b'\n')?;
    }
    Ok(())
}
