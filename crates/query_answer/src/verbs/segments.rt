//! `segments`: where a path was located in all revisions.
ghost use Rattle.std.specs.Prelude.{◌≡◌, ◌++◌, All, OnOk};
ghost use Rattle.svn_text.specs.Appended.{BeginsWith};
ghost use Rattle.query_answer.specs.Answer.{HasPathOf, segments_text};
ghost use Rattle.query_answer.specs.Repo.{segments_answer};
ghost use Rattle.query_answer.specs.Unanswered.{HasAnswer};

use crate::answers::Answer;
use crate::locations::write_path;
use crate::peg::Peg;
use crate::repo::Repo;
use crate::unanswered::Unanswered;
use path_index::Segment;
use std::alloc::{AllocError, Global};
use svn_path::Names;
use svn_text::push_number;

/// The location segments of a peg.
pub(crate) fn answer_segments(
    alloc: Global,
    repo: &Repo,
    peg: &Peg<'_>,
) -> Result<Answer, Unanswered>
    ensures { HasAnswer repo.now (segments_answer repo.now peg.now) result }
{
    let at = repo.find(alloc, peg)?;
    Ok(Answer::Segments(repo.segments(&at)?))
}

/// Appends the lines of `segments`.
#[tactic(auto, using(svn_text::proofs::Appended::appended))]
pub(crate) fn append_segments(
    names: &Names,
    segments: &[Segment],
    out: &mut Vec<u8>,
) -> Result<(), AllocError>
    requires { All (HasPathOf names.now) segments.now }
    ensures ok { OnOk result (out.new.items ≡ out.old.items ++ segments_text names.now segments.now) }
    ensures begins { BeginsWith out.old.items out.new.items }
{
    for segment in segments {
        push_number(out, u64::from(segment.lo))?;
        out.push(b'-')?;
        push_number(out, u64::from(segment.hi))?;
        out.push(b' ')?;
        write_path(names, segment.path.as_ref(), out)?;
        out.push(b'\n')?;
    }
    Ok(())
}
