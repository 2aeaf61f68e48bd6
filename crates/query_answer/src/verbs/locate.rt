//! `locate`: where a path was located in a revision.
ghost use Rattle.std.specs.Prelude.{◌≡◌, ◌++◌, OnOk};
ghost use Rattle.svn_text.specs.Appended.{BeginsWith};
ghost use Rattle.svn_text.specs.Line.{line_text};
ghost use Rattle.query_answer.specs.Answer.{IsLocationOf, lent_path, location_text};
ghost use Rattle.query_answer.specs.Repo.{locate_answer};
ghost use Rattle.query_answer.specs.Unanswered.{HasAnswer};

use crate::answers::Answer;
use crate::locations::write_path;
use crate::peg::Peg;
use crate::repo::Repo;
use crate::unanswered::Unanswered;
use std::alloc::{AllocError, Global};
use svn_path::{Names, Path};

/// The location of a peg in a revision.
pub(crate) fn answer_locate(
    alloc: Global,
    repo: &Repo,
    peg: &Peg<'_>,
    rev: u32,
) -> Result<Answer, Unanswered>
    ensures { HasAnswer repo.now (locate_answer repo.now peg.now rev) result }
{
    let at = repo.find(alloc, peg)?;
    Ok(Answer::Location(repo.locate(&at, rev)?))
}

/// Appends the line of `locate`.
#[tactic(auto, using(svn_text::proofs::Appended::appended))]
pub(crate) fn append_location(
    names: &Names,
    path: Option<&Path>,
    out: &mut Vec<u8>,
) -> Result<(), AllocError>
    requires { IsLocationOf names.now (lent_path path) }
    ensures ok { OnOk result (out.new.items
        ≡ out.old.items ++ line_text (location_text names.now (lent_path path.entry))) }
    ensures begins { BeginsWith out.old.items out.new.items }
{
    write_path(names, path, out)?;
    out.push(b'\n')?;
    Ok(())
}
