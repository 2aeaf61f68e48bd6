//! `descendants`: where the node at a path went.
ghost use Rattle.std.specs.Prelude.{◌≡◌, ◌++◌, All, IfErr, OnOk};
ghost use Rattle.svn_path.specs.Path.{IsPathOf};
ghost use Rattle.query_answer.specs.Peg.{peg_view};
ghost use Rattle.query_answer.specs.Repo.{trees_in_bytes};
ghost use Rattle.branch_answer.specs.KeptDescendants.{path_texts};
ghost use Rattle.branch_answer.specs.QuestionAnswer.{descendants_answer, lines_text};
ghost use Rattle.branch_answer.specs.Told.{IsUntold, TellsLines};

use crate::descendants::descendants_of;
use query_answer::{Peg, Repo, Status, Unanswered};
use std::alloc::{AllocError, Global};
use svn_path::{Names, Path};

/// Appends the paths of a revision that stood at the place of a peg, in the order of their bytes.
pub(crate) fn append_descendants(
    alloc: Global,
    repo: &Repo,
    peg: &Peg<'_>,
    rev: u32,
    out: &mut Vec<u8>,
) -> Result<(), Unanswered>
    ensures lines { OnOk result (TellsLines (descendants_answer (trees_in_bytes repo.now) (peg_view peg.now) rev)
        out.old.items out.new.items) }
    ensures none { IfErr result (IsUntold (descendants_answer (trees_in_bytes repo.now) (peg_view peg.now) rev)) }
{
    let at = repo.find(alloc, peg)?;
    if rev > repo.youngest() {
        return Err(Unanswered::Refused(Status::NoSuchRevision));
    }
    let paths = descendants_of(alloc, repo, &at, rev)?;
    append_paths(repo.names(), paths.as_slice(), out)?;
    Ok(())
}

/// Appends a line for each of these paths.
fn append_paths(names: &Names, paths: &[Path], out: &mut Vec<u8>) -> Result<(), AllocError>
    requires { All (IsPathOf names.now) paths.now }
    ensures { OnOk result (out.new.items ≡ out.old.items ++ lines_text (path_texts names.now paths.now)) }
{
    for path in paths {
        path.write(names, out)?;
        out.push(b'\n')?;
    }
    Ok(())
}
