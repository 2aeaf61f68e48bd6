//! The values of `svn:mergeinfo`.
ghost use Rattle.std.specs.Bool.{OnTrue};
ghost use Rattle.std.specs.Prelude.{◌≡◌, ◌↔◌, [], ◌++◌, IsTrue, None, All, Some, IfOk, OnOk, OnErr, IsErrOf, option_map, map};
ghost use Rattle.merge_info.specs.CanonicalValue.{canonical_value, inherited_value, value_of};
ghost use Rattle.merge_info.specs.Inherited.{KeepTheirOrder, inherited_lines};
ghost use Rattle.merge_info.specs.Line.{IsLine, IsPrintedPath, line_view};
ghost use Rattle.merge_info.specs.Text.{value_text};
ghost use Rattle.merge_info.specs.Value.{HasSameRevisions, IsEntry, IsMergeInfo, IsOnlyMergeInfo, IsOnOneLine, IsTextOf, entry_view, lines_of, ranges_of};

use crate::entry::Entry;
use crate::error::MergeError;
use crate::line::Line;
use crate::lines::read_lines;
use crate::runs_by_path::runs_by_path;
use crate::source_path::is_before_below;
use crate::text::{append_entries, append_inherited};
use range_list::Ranges;
use std::alloc::{AllocError, Global};
use std::marker::Model;

/// Which revisions were merged from which paths. It is seen as the list of its paths, in the order of their bytes, each
/// with its runs.
#[derive(Drop)]
pub struct MergeInfo {
    entries: Vec<Entry>,
}

impl Model for MergeInfo {
    ghost use Rattle.std.specs.Prelude.{map};
    ghost use Rattle.merge_info.specs.Value.{IsMergeInfo, MergeInfoValue, entry_view};

    ghost Value = { MergeInfoValue };

    ghost view = { λ m. map entry_view m.entries.items };

    ghost invariant = { λ m. IsMergeInfo (map entry_view m.entries.items) };
}

impl MergeInfo {
    /// The value without any path. It takes no memory.
    pub fn empty(alloc: Global) -> Self
        ensures { result ≡ [] }
    {
        MergeInfo {
            entries: Vec::new(alloc),
        }
    }

    /// Reads the text of a value.
    pub fn parse(alloc: Global, text: &[u8]) -> Result<Self, MergeError>
        ensures ok { IfOk result (IsTextOf text.now) }
        ensures exact { IfOk result (λ value. value_of text.now ≡ Some value) }
        ensures malformed { IsErrOf result MergeError.Malformed → value_of text.now ≡ None }
        ensures one_line { IfOk result (All IsOnOneLine) }
    {
        Ok(MergeInfo::of_lines(alloc, read_lines(alloc, text)?)?)
    }

    /// The revisions that were merged from a path, given as it is printed.
    pub fn ranges(&self, path: &[u8]) -> Option<&Ranges>
        ensures { option_map (λ ranges. ranges.now) result ≡ ranges_of self.now path.now }
    {
        let index = self
            .entries
            .partition_point(|entry| entry.path.as_slice() < path);
        match self.entries.get(index) {
            Some(entry) if entry.path.as_slice() == path => Some(&entry.ranges),
            _ => None,
        }
    }

    /// The paths in the order of their bytes, each with its revisions.
    pub fn entries(&self) -> &[Entry]
        ensures value { map entry_view result.now ≡ self.now }
        ensures canonical { IsMergeInfo self.now }
    {
        self.entries.as_slice()
    }

    /// Whether no path has revisions that were merged from it.
    pub fn is_empty(&self) -> bool
        ensures empty { IsTrue result ↔ (self.now ≡ []) }
        ensures canonical { IsMergeInfo self.now }
    {
        self.entries.is_empty()
    }

    /// What a path inherits, given what follows the path that has this value.
    pub fn inherited(&self, rest: &[u8]) -> Result<Self, AllocError>
        requires { IsPrintedPath rest.now }
        ensures same { IfOk result (λ below. HasSameRevisions below (inherited_lines rest.now self.now)) }
        ensures exact { IfOk result (λ below. below ≡ inherited_value rest.now self.now) }
    {
        let alloc = *self.entries.allocator();
        let mut lines = Vec::with_capacity(alloc, self.entries.len())?;
        for entry in &self.entries {
            lines.push(entry.inherited(alloc, rest)?)?;
        }
        MergeInfo::of_lines(alloc, lines)
    }

    /// Appends a line for each path.
    pub fn write(&self, out: &mut Vec<u8>) -> Result<(), AllocError>
        ensures ok { OnOk result (out.new.items ≡ out.old.items ++ value_text self.now) }
        ensures err { OnErr result (out.new.items ≡ out.old.items) }
        ensures canonical { IsMergeInfo self.now }
        ensures only { IsOnlyMergeInfo self.now }
        ensures reads_back { All IsOnOneLine self.now → lines_of (value_text self.now) ≡ Some self.now }
    {
        let before = out.len();
        let written = append_entries(&self.entries, out);
        if written.is_err() {
            out.truncate(before);
        }
        written
    }

    /// Appends the lines of what a path inherits, given what follows the path that has this value.
    pub fn write_inherited(&self, rest: &[u8], out: &mut Vec<u8>) -> Result<(), AllocError>
        requires { IsPrintedPath rest.now }
        ensures ok { OnOk result (out.new.items ≡ out.old.items ++ value_text (inherited_value rest.now self.now)) }
        ensures err { OnErr result (out.new.items ≡ out.old.items) }
    {
        if !keep_their_order(&self.entries) {
            return self.inherited(rest)?.write(out);
        }
        let before = out.len();
        let written = append_inherited(&self.entries, rest, out);
        if written.is_err() {
            out.truncate(before);
        }
        written
    }

    /// An equal value.
    pub fn dup(&self) -> Result<Self, AllocError>
        ensures { IfOk result (λ same. same ≡ self.now) }
    {
        let mut entries = Vec::with_capacity(*self.entries.allocator(), self.entries.len())?;
        for entry in &self.entries {
            entries.push(entry.dup()?)?;
        }
        Ok(MergeInfo { entries })
    }

    /// The value of lines in any order, in which a path may stand more than once.
    fn of_lines(alloc: Global, lines: Vec<Line>) -> Result<Self, AllocError>
        requires { All IsLine (map line_view lines.items) }
        ensures same { IfOk result (λ value. HasSameRevisions value (map line_view lines.items)) }
        ensures canonical { IfOk result IsMergeInfo }
        ensures exact { IfOk result (λ value. value ≡ canonical_value (map line_view lines.items)) }
    {
        let mut entries = Vec::new(alloc);
        for (path, runs) in runs_by_path(alloc, lines)? {
            let ranges = Ranges::of_runs(runs)?;
            if ranges.is_empty() {
                continue;
            }
            entries.push(Entry { path, ranges })?;
        }
        Ok(MergeInfo { entries })
    }
}

/// Whether it is certain that the paths are in the same order whatever follows them.
fn keep_their_order(entries: &[Entry]) -> bool
    requires { All IsEntry (map entry_view entries.now) }
    ensures { OnTrue result (KeepTheirOrder (map entry_view entries.now)) }
{
    entries.is_sorted_by(|entry, next| is_before_below(&entry.path, &next.path))
}
