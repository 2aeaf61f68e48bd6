//! `merged`: the operative revisions of a source that the mergeinfo of a target has.
ghost use Rattle.std.specs.Prelude.{◌≡◌, ◌++◌, IfOk, OnOk, flat_map, map};
ghost use Rattle.svn_text.specs.Appended.{BeginsWith};
ghost use Rattle.svn_text.specs.Line.{line_text};
ghost use Rattle.query_answer.specs.Answer.{merged_line};
ghost use Rattle.query_answer.specs.SourceHits.{has_in, merged_by_hits};
ghost use Rattle.query_answer.specs.Repo.{IsPathIn, merged_by, held_answer};
ghost use Rattle.query_answer.specs.Held.{IsHeldIn};
ghost use Rattle.query_answer.specs.Unanswered.{HasAnswer};
ghost use Rattle.query_answer.specs.Worker.{LooksAtMergeinfo};

use super::pair::Pair;
use super::source::SourceRanges;
use crate::answers::{Answer, MergedRevision};
use crate::held_mergeinfo::HeldMergeinfo;
use crate::repo::Repo;
use crate::unanswered::Unanswered;
use path_index::{Hit, RevisionRange};
use std::alloc::{AllocError, Global};
use svn_text::push_number;

/// The merged revisions of a pair in rising order, given the mergeinfo that the target holds.
pub(crate) fn merged_revisions(
    alloc: Global,
    repo: &Repo,
    pair: &Pair,
    range: Option<RevisionRange>,
    held: &HeldMergeinfo<'_, '_>,
) -> Result<Answer, Unanswered>
    requires source { IsPathIn repo.now pair.now.source }
    requires held { IsHeldIn repo.now.names held.now }
    ensures answer { HasAnswer repo.now (held_answer repo.now pair.now held.now (merged_by repo.now range)) result }
    ensures found { LooksAtMergeinfo result }
{
    if held.value.is_empty() {
        return Ok(Answer::Merged(Vec::new(alloc)));
    }
    let segments = repo.segments(&pair.source)?;
    let hits = repo.operative(&segments, range)?;
    let ranges = SourceRanges::of(alloc, repo.names(), held, &segments)?;
    let merged = merged_by_hits(alloc, &ranges, &hits)?;
    Ok(Answer::Merged(merged))
}

/// The operative revisions that mergeinfo has, in rising order.
fn merged_by_hits(
    alloc: Global,
    ranges: &SourceRanges<'_>,
    hits: &[Hit],
) -> Result<Vec<MergedRevision>, AllocError>
    ensures { IfOk result (λ found. found.items ≡ merged_by_hits (has_in ranges.now) hits.now) }
{
    let mut found = Vec::new(alloc);
    for hit in hits {
        if let Some(inheritable) = ranges.has(*hit) {
            found.push(MergedRevision {
                rev: hit.rev,
                inheritable,
            })?;
        }
    }
    found.reverse();
    Ok(found)
}

/// Appends the lines of `merged`.
#[tactic(auto, using(svn_text::proofs::Appended::appended))]
pub(crate) fn append_merged(
    revisions: &[MergedRevision],
    out: &mut Vec<u8>,
) -> Result<(), AllocError>
    ensures ok { OnOk result (out.new.items ≡ out.old.items ++ flat_map line_text (map merged_line revisions.now)) }
    ensures begins { BeginsWith out.old.items out.new.items }
{
    for revision in revisions {
        out.push(b'r')?;
        push_number(out, u64::from(revision.rev))?;
        if !revision.inheritable {
            out.push(b'*')?;
        }
        out.push(b'\n')?;
    }
    Ok(())
}
