//! `entry`: what stands at a path.
ghost use Rattle.std.specs.Prelude.{◌≡◌, ◌++◌, IfErr, OnOk};
ghost use Rattle.svn_text.specs.Line.{line_text};
ghost use Rattle.svn_dump.specs.Dump.{DumpValue};
ghost use Rattle.query_answer.specs.Peg.{peg_view};
ghost use Rattle.query_answer.specs.Repo.{trees_in_bytes};
ghost use Rattle.query_answer.specs.Standings.{standing_in_bytes};
ghost use Rattle.branch_answer.specs.QuestionAnswer.{entry_answer, entry_line};
ghost use Rattle.branch_answer.specs.Told.{IsUntold, TellsLines};

use crate::kind::kind_text;
use block_map::Entry;
use query_answer::{Peg, Repo, Unanswered};
use std::alloc::{AllocError, Global};

/// Appends the kind of a peg, and whether it has mergeinfo of its own.
pub(crate) fn append_entry(
    alloc: Global,
    repo: &Repo,
    peg: &Peg<'_>,
    out: &mut Vec<u8>,
) -> Result<(), Unanswered>
    ensures lines { OnOk result (TellsLines (entry_answer (trees_in_bytes repo.now) (peg_view peg.now)) out.old.items
        out.new.items) }
    ensures none { IfErr result (IsUntold (entry_answer (trees_in_bytes repo.now) (peg_view peg.now))) }
{
    let at = repo.find(alloc, peg)?;
    if let Some(entry) = repo.entry(&at.path, at.rev)? {
        append_line(entry, out)?;
    }
    Ok(())
}

/// Appends the line of what stands at a path.
fn append_line(entry: Entry, out: &mut Vec<u8>) -> Result<(), AllocError>
    ensures { (dump : DumpValue) → OnOk result (out.new.items
        ≡ out.old.items ++ line_text (entry_line (standing_in_bytes dump entry))) }
{
    out.extend_from_slice(kind_text(entry.kind))?;
    if entry.mi.is_some() {
        out.extend_from_slice(b" mergeinfo".as_slice())?;
    }
    out.push(b'\n')?;
    Ok(())
}
