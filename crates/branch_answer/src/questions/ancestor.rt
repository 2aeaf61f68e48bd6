//! `ancestor`: where two paths stood as one node.
ghost use Rattle.std.specs.Prelude.{◌≡◌, ◌++◌, All, IfErr, IfSome, List, OnOk, Some, ℕ, option_map};
ghost use Rattle.svn_text.specs.Line.{line_text};
ghost use Rattle.svn_path.specs.Path.{IsPathOf, components_of};
ghost use Rattle.svn_dump.specs.Dump.{DumpValue};
ghost use Rattle.query_answer.specs.Answer.{HasPathOf};
ghost use Rattle.query_answer.specs.Peg.{peg_view};
ghost use Rattle.query_answer.specs.Repo.{IsPathIn, peg_in_bytes, trees_in_bytes};
ghost use Rattle.query_answer.specs.declared.target.PathRev.{PathRev};
ghost use Rattle.branch_answer.specs.Ancestor.{ancestor_line, ancestor_of};
ghost use Rattle.branch_answer.specs.KeptAncestor.{AreSegmentsOfBoth, IsNewestInBoth, shared_in_bytes};
ghost use Rattle.branch_answer.specs.QuestionAnswer.{ancestor_answer};
ghost use Rattle.branch_answer.specs.Told.{IsUntold, TellsLines};

use path_index::Segment;
use query_answer::{PathRev, Peg, Repo, Unanswered};
use std::alloc::{AllocError, Global};
use svn_path::{Names, Path};
use svn_text::push_number;

/// Appends the youngest common ancestor of two pegs.
pub(crate) fn append_ancestor(
    alloc: Global,
    repo: &Repo,
    peg: &Peg<'_>,
    other: &Peg<'_>,
    out: &mut Vec<u8>,
) -> Result<(), Unanswered>
    ensures lines { OnOk result (TellsLines (ancestor_answer (trees_in_bytes repo.now) (peg_view peg.now)
        (peg_view other.now)) out.old.items out.new.items) }
    ensures none { IfErr result (IsUntold (ancestor_answer (trees_in_bytes repo.now) (peg_view peg.now)
        (peg_view other.now))) }
{
    let at = repo.find(alloc, peg)?;
    let other_at = repo.find(alloc, other)?;
    append_newest(repo, &at, &other_at, out)?;
    Ok(())
}

/// Appends the line of the greatest revision in which two paths stood at one location, and of that location.
fn append_newest(
    repo: &Repo,
    at: &PathRev,
    other_at: &PathRev,
    out: &mut Vec<u8>,
) -> Result<(), AllocError>
    requires one { IsPathIn repo.now at.now }
    requires other { IsPathIn repo.now other_at.now }
    ensures { OnOk result (out.new.items ≡ out.old.items ++ line_text (ancestor_line (ancestor_of
        (trees_in_bytes repo.now) (peg_in_bytes repo.now at.now) (peg_in_bytes repo.now other_at.now)))) }
{
    let segments = repo.segments(at)?;
    let other_segments = repo.segments(other_at)?;
    let newest = newest_shared(segments.as_slice(), other_segments.as_slice());
    append_place(repo.names(), newest, out)
}

/// The greatest revision in which two paths stood at one location, and that location, given their segments.
fn newest_shared<'s>(one: &'s [Segment], other: &[Segment]) -> Option<(u32, &'s Path)>
    ensures exact { (dump : DumpValue) (at other_at : PathRev) → AreSegmentsOfBoth dump at other_at one.now other.now
        → option_map (shared_in_bytes dump.names) result
        ≡ ancestor_of (trees_in_bytes dump) (peg_in_bytes dump at) (peg_in_bytes dump other_at) }
    ensures of_names { (names : List (List ℕ)) → All (HasPathOf names) one.now
        → IfSome result (λ place. IsPathOf names place.1.now) }
{
    let mut i = 0;
    let mut j = 0;
    while i < one.len() && j < other.len() {
        let segment = &one[i];
        let other_segment = &other[j];
        if let Some(place) = newest_in_both(segment, other_segment) {
            return Some(place);
        }
        if segment.lo >= other_segment.lo {
            i += 1;
        } else {
            j += 1;
        }
    }
    None
}

/// The greatest revision that is in two segments, and their path, if both have the same one.
fn newest_in_both<'s>(one: &'s Segment, other: &Segment) -> Option<(u32, &'s Path)>
    ensures { IsNewestInBoth one.now other.now result }
{
    let newest = one.hi.min(other.hi);
    if newest < one.lo || newest < other.lo {
        return None;
    }
    match (&one.path, &other.path) {
        (Some(path), Some(other_path)) if *path == *other_path => Some((newest, path)),
        _ => None,
    }
}

/// Appends the line of a revision and a path, or of none.
fn append_place(
    names: &Names,
    place: Option<(u32, &Path)>,
    out: &mut Vec<u8>,
) -> Result<(), AllocError>
    requires { IfSome place (λ found. IsPathOf names.now found.1.now) }
    ensures { OnOk result (out.new.items ≡ out.old.items
        ++ line_text (ancestor_line (option_map (shared_in_bytes names.now) place.entry))) }
{
    match place {
        Some((rev, path)) => append_found(names, rev, path, out),
        None => out.extend_from_slice(b"-\n".as_slice()),
    }
}

/// Appends the line of a revision and a path.
fn append_found(names: &Names, rev: u32, path: &Path, out: &mut Vec<u8>) -> Result<(), AllocError>
    requires { IsPathOf names.now path.now }
    ensures { OnOk result (out.new.items
        ≡ out.old.items ++ line_text (ancestor_line (Some (rev, components_of names.now path.now)))) }
{
    push_number(out, u64::from(rev))?;
    out.push(b' ')?;
    path.write(names, out)?;
    out.push(b'\n')?;
    Ok(())
}
