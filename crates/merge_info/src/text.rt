//! The lines of a value.
ghost use Rattle.std.specs.Prelude.{◌≡◌, ◌++◌, OnOk, map};
ghost use Rattle.svn_text.specs.Appended.{BeginsWith};
ghost use Rattle.merge_info.specs.CanonicalValue.{inherited_value};
ghost use Rattle.merge_info.specs.Inherited.{KeepTheirOrder};
ghost use Rattle.merge_info.specs.Line.{IsPrintedPath};
ghost use Rattle.merge_info.specs.Text.{value_text};
ghost use Rattle.merge_info.specs.Value.{IsMergeInfo, entry_view};

use crate::entry::Entry;
use std::alloc::AllocError;

/// Appends the line of each entry. Also after an error `out` begins with what it held.
#[tactic(auto, using(svn_text::proofs::Appended::appended))]
pub(crate) fn append_entries(entries: &[Entry], out: &mut Vec<u8>) -> Result<(), AllocError>
    ensures ok { OnOk result (out.new.items ≡ out.old.items ++ value_text (map entry_view entries.now)) }
    ensures begins { BeginsWith out.old.items out.new.items }
{
    for entry in entries {
        entry.append(out)?;
    }
    Ok(())
}

/// Appends the lines of what a path inherits of the entries of a value, given what follows the path that has it. Also
/// after an error `out` begins with what it held.
#[tactic(auto, using(svn_text::proofs::Appended::appended))]
pub(crate) fn append_inherited(
    entries: &[Entry],
    rest: &[u8],
    out: &mut Vec<u8>,
) -> Result<(), AllocError>
    requires value { IsMergeInfo (map entry_view entries.now) }
    requires order { KeepTheirOrder (map entry_view entries.now) }
    requires rest { IsPrintedPath rest.now }
    ensures ok { OnOk result
        (out.new.items ≡ out.old.items ++ value_text (inherited_value rest.now (map entry_view entries.now))) }
    ensures begins { BeginsWith out.old.items out.new.items }
{
    for entry in entries {
        if entry.ranges.has_inheritable() {
            entry.append_inherited(rest, out)?;
        }
    }
    Ok(())
}
