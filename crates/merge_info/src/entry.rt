//! The entries of a value.
ghost use Rattle.std.specs.Prelude.{◌≡◌, ◌++◌, IfOk, OnOk};
ghost use Rattle.svn_text.specs.Appended.{BeginsWith};
ghost use Rattle.svn_text.specs.Line.{line_text};
ghost use Rattle.merge_info.specs.Inherited.{inherited_line};
ghost use Rattle.merge_info.specs.Line.{IsPrintedPath, line_view};
ghost use Rattle.merge_info.specs.Text.{inherited_text, printed_entry};
ghost use Rattle.merge_info.specs.Value.{entry_view};

use crate::line::Line;
use crate::source_path::{path_below, push_path_below};
use range_list::Ranges;
use std::alloc::{AllocError, Global};

/// A source path as it is printed, and the revisions that were merged from it.
#[derive(Drop)]
pub struct Entry {
    pub path: Vec<u8>,
    pub ranges: Ranges,
}

impl Entry {
    /// What a path inherits of this entry, given `rest`, what follows the path that has the value.
    pub(crate) fn inherited(&self, alloc: Global, rest: &[u8]) -> Result<Line, AllocError>
        requires path { IsPrintedPath self.now.path.items }
        requires rest { IsPrintedPath rest.now }
        ensures { IfOk result (λ line. line_view line ≡ inherited_line rest.now (entry_view self.now)) }
    {
        let inheritable = self
            .ranges
            .runs()
            .iter()
            .copied()
            .filter(|run| run.inheritable);
        Ok(Line {
            path: path_below(alloc, &self.path, rest)?,
            runs: inheritable.collect(alloc)?,
        })
    }

    /// Appends the line of the entry. Also after an error `out` begins with what it held.
    #[tactic(auto, using(svn_text::proofs::Appended::appended))]
    pub(crate) fn append(&self, out: &mut Vec<u8>) -> Result<(), AllocError>
        ensures ok { OnOk result (out.new.items ≡ out.old.items ++ line_text (printed_entry (entry_view self.now))) }
        ensures begins { BeginsWith out.old.items out.new.items }
    {
        out.extend_from_slice(&self.path)?;
        out.push(b':')?;
        self.ranges.write(out)?;
        out.push(b'\n')?;
        Ok(())
    }

    /// Appends the line of what a path inherits of this entry, given `rest`. Also after an error `out` begins with what
    /// it held.
    #[tactic(auto, using(svn_text::proofs::Appended::appended))]
    pub(crate) fn append_inherited(&self, rest: &[u8], out: &mut Vec<u8>) -> Result<(), AllocError>
        requires path { IsPrintedPath self.now.path.items }
        requires rest { IsPrintedPath rest.now }
        ensures ok { OnOk result (out.new.items ≡ out.old.items ++ inherited_text rest.now (entry_view self.now)) }
        ensures begins { BeginsWith out.old.items out.new.items }
    {
        push_path_below(&self.path, rest, out)?;
        out.push(b':')?;
        self.ranges.write_inheritable(out)?;
        out.push(b'\n')?;
        Ok(())
    }

    /// An equal entry.
    pub(crate) fn dup(&self) -> Result<Self, AllocError>
        ensures { IfOk result (λ same. entry_view same ≡ entry_view self.now) }
    {
        Ok(Entry {
            path: Vec::from_slice(*self.path.allocator(), &self.path)?,
            ranges: self.ranges.dup()?,
        })
    }
}
