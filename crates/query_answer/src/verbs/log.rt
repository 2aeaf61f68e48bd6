//! `log`: the operative revisions of a path.
ghost use Rattle.std.specs.Prelude.{◌≡◌, ◌++◌, All, OnOk};
ghost use Rattle.svn_text.specs.Appended.{BeginsWith};
ghost use Rattle.query_answer.specs.Answer.{HasPathOf, hit_text, log_text};
ghost use Rattle.query_answer.specs.Repo.{log_answer};
ghost use Rattle.query_answer.specs.Unanswered.{HasAnswer};

use crate::answers::Answer;
use crate::locations::{path_at, write_path};
use crate::peg::Peg;
use crate::repo::Repo;
use crate::unanswered::Unanswered;
use path_index::{Hit, RevisionRange, Segment};
use std::alloc::{AllocError, Global};
use svn_path::Names;
use svn_text::push_number;

/// The operative revisions of a peg, in this range if there is one.
pub(crate) fn answer_log(
    alloc: Global,
    repo: &Repo,
    peg: &Peg<'_>,
    range: Option<RevisionRange>,
) -> Result<Answer, Unanswered>
    ensures { HasAnswer repo.now (log_answer repo.now peg.now range) result }
{
    let at = repo.find(alloc, peg)?;
    let segments = repo.segments(&at)?;
    let hits = repo.operative(segments.as_slice(), range)?;
    Ok(Answer::Log { segments, hits })
}

/// Appends the lines of `log`.
#[tactic(auto, using(svn_text::proofs::Appended::appended))]
pub(crate) fn append_log(
    names: &Names,
    segments: &[Segment],
    hits: &[Hit],
    out: &mut Vec<u8>,
) -> Result<(), AllocError>
    requires { All (HasPathOf names.now) segments.now }
    ensures ok { OnOk result (out.new.items ≡ out.old.items ++ log_text names.now segments.now hits.now) }
    ensures begins { BeginsWith out.old.items out.new.items }
{
    for hit in hits {
        append_hit(names, segments, *hit, out)?;
    }
    Ok(())
}

/// Appends the result line of an operative revision.
#[tactic(auto, using(svn_text::proofs::Appended::appended))]
fn append_hit(
    names: &Names,
    segments: &[Segment],
    hit: Hit,
    out: &mut Vec<u8>,
) -> Result<(), AllocError>
    requires { All (HasPathOf names.now) segments.now }
    ensures ok { OnOk result (out.new.items ≡ out.old.items ++ hit_text names.now segments.now hit) }
    ensures begins { BeginsWith out.old.items out.new.items }
{
    out.push(b'r')?;
    push_number(out, u64::from(hit.rev))?;
    out.push(b' ')?;
    write_path(names, path_at(segments, hit.segment), out)?;
    out.push(b'\n')?;
    Ok(())
}
