//! `list`: what stands directly below a path.
ghost use Rattle.std.specs.Prelude.{◌≡◌, ◌++◌, ◌<◌, All, IfErr, IfOk, OnOk, length};
ghost use Rattle.query_answer.specs.Peg.{peg_view};
ghost use Rattle.query_answer.specs.Repo.{trees_in_bytes};
ghost use Rattle.branch_answer.specs.KeptChildren.{AreInOrder, entries_in_bytes};
ghost use Rattle.branch_answer.specs.Listing.{children_text};
ghost use Rattle.branch_answer.specs.QuestionAnswer.{list_answer};
ghost use Rattle.branch_answer.specs.Told.{IsUntold, TellsLines};

use crate::kind::kind_text;
use block_map::Child;
use query_answer::{Peg, Repo, Unanswered};
use std::alloc::{AllocError, Global};
use svn_dump::Kind;
use svn_path::Names;

/// Appends the names directly below a peg with their kinds, in the order of their bytes.
pub(crate) fn append_list(
    alloc: Global,
    repo: &Repo,
    peg: &Peg<'_>,
    out: &mut Vec<u8>,
) -> Result<(), Unanswered>
    ensures lines { OnOk result (TellsLines (list_answer (trees_in_bytes repo.now) (peg_view peg.now)) out.old.items
        out.new.items) }
    ensures none { IfErr result (IsUntold (list_answer (trees_in_bytes repo.now) (peg_view peg.now))) }
{
    let at = repo.find(alloc, peg)?;
    let children = repo.children(&at.path, at.rev)?;
    let entries = in_order(alloc, repo.names(), children.as_slice())?;
    append_lines(entries.as_slice(), out)?;
    Ok(())
}

/// The names of these children with their kinds, in the order of their bytes.
fn in_order<'n>(
    alloc: Global,
    names: &'n Names,
    children: &[Child],
) -> Result<Vec<(&'n [u8], Kind)>, AllocError>
    requires { All (λ child. child.name.0 < length names.now) children.now }
    ensures { IfOk result (λ entries. AreInOrder names.now children.now entries.items) }
{
    let mut entries = Vec::new(alloc);
    for child in children {
        entries.push((names.text(child.name), child.kind))?;
    }
    entries.sort_unstable_by_key(|entry| entry.0);
    Ok(entries)
}

/// Appends the lines of these names with their kinds.
fn append_lines(entries: &[(&[u8], Kind)], out: &mut Vec<u8>) -> Result<(), AllocError>
    ensures { OnOk result (out.new.items ≡ out.old.items ++ children_text (entries_in_bytes entries.now)) }
{
    for (name, kind) in entries {
        out.extend_from_slice(kind_text(*kind))?;
        out.push(b' ')?;
        out.extend_from_slice(name)?;
        out.push(b'\n')?;
    }
    Ok(())
}
