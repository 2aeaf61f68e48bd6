//! `explicit`: which paths have mergeinfo of their own.
ghost use Rattle.std.specs.Prelude.{◌≡◌, ◌++◌, All, IfErr, OnOk, flat_map};
ghost use Rattle.svn_path.specs.Path.{IsPathOf};
ghost use Rattle.query_answer.specs.Peg.{peg_view};
ghost use Rattle.query_answer.specs.Repo.{trees_in_bytes};
ghost use Rattle.branch_answer.specs.Explicit.{text_lines};
ghost use Rattle.branch_answer.specs.KeptExplicit.{HasOwnText, own_lines};
ghost use Rattle.branch_answer.specs.QuestionAnswer.{explicit_answer, lines_text};
ghost use Rattle.branch_answer.specs.Told.{IsUntold, TellsLines};

use crate::explicit::explicit_of;
use query_answer::{Peg, Repo, Unanswered};
use std::alloc::{AllocError, Global};
use svn_path::Path;

/// Appends the paths at and below a peg that have mergeinfo of their own, with its text, in the order of their bytes.
pub(crate) fn append_explicit(
    alloc: Global,
    repo: &Repo,
    peg: &Peg<'_>,
    out: &mut Vec<u8>,
) -> Result<(), Unanswered>
    ensures lines { OnOk result (TellsLines (explicit_answer (trees_in_bytes repo.now) (peg_view peg.now))
        out.old.items out.new.items) }
    ensures none { IfErr result (IsUntold (explicit_answer (trees_in_bytes repo.now) (peg_view peg.now))) }
{
    let at = repo.find(alloc, peg)?;
    let paths = explicit_of(alloc, repo, &at)?;
    append_paths(repo, paths.as_slice(), at.rev, out)?;
    Ok(())
}

/// Appends the lines of these paths of a revision, which have mergeinfo of their own.
fn append_paths(repo: &Repo, paths: &[Path], rev: u32, out: &mut Vec<u8>) -> Result<(), AllocError>
    requires names { All (IsPathOf repo.now.names) paths.now }
    requires own { All (HasOwnText repo.now rev) paths.now }
    ensures { OnOk result (out.new.items ≡ out.old.items ++ flat_map (own_lines repo.now rev) paths.now) }
{
    for path in paths {
        append_path(repo, path, rev, out)?;
    }
    Ok(())
}

/// Appends the lines of a path of a revision, which has mergeinfo of its own.
fn append_path(repo: &Repo, path: &Path, rev: u32, out: &mut Vec<u8>) -> Result<(), AllocError>
    requires names { IsPathOf repo.now.names path.now }
    requires own { HasOwnText repo.now rev path.now }
    ensures { OnOk result (out.new.items ≡ out.old.items ++ own_lines repo.now rev path.now) }
{
    out.extend_from_slice(b"mergeinfo ".as_slice())?;
    path.write(repo.names(), out)?;
    out.push(b'\n')?;
    match repo.own_mergeinfo(path, rev)? {
        Some(text) => append_text(text, out),
        None => unreachable!(),
    }
}

/// Appends the lines of a text, each after a space.
fn append_text(text: &[u8], out: &mut Vec<u8>) -> Result<(), AllocError>
    ensures { OnOk result (out.new.items ≡ out.old.items ++ lines_text (text_lines text.now)) }
{
    for line in text.split(|byte| *byte == b'\n') {
        out.push(b' ')?;
        out.extend_from_slice(line)?;
        out.push(b'\n')?;
    }
    Ok(())
}
