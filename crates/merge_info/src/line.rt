//! A line of a text.
ghost use Rattle.std.specs.Prelude.{◌≡◌, None, Some, IfOk, IsErrOf};
ghost use Rattle.merge_info.specs.Line.{IsLine, line_of, line_view};

use crate::clash::has_clash;
use crate::error::MergeError;
use crate::rangelist::{read_rangelist, without_blanks};
use crate::source_path::printed_path;
use range_list::Run;
use std::alloc::Global;
use svn_path::has_dot;
use svn_text::split_at_last;

/// A path as it is printed, and revisions that were merged from it, in any order.
#[derive(Drop)]
pub(crate) struct Line {
    pub path: Vec<u8>,
    pub runs: Vec<Run>,
}

impl Line {
    /// Reads a line without its newline.
    pub(crate) fn read(alloc: Global, bytes: &[u8]) -> Result<Self, MergeError>
        ensures ok { IfOk result (λ line. line_of bytes.now ≡ Some (line_view line)) }
        ensures line { IfOk result (λ line. IsLine (line_view line)) }
        ensures malformed { IsErrOf result MergeError.Malformed → line_of bytes.now ≡ None }
    {
        let Some((path, list)) = split_at_last(b':', bytes) else {
            return Err(MergeError::Malformed);
        };
        let runs = read_rangelist(alloc, without_blanks(list))?;
        if has_dot(path) || has_clash(alloc, &runs)? {
            return Err(MergeError::Malformed);
        }
        Ok(Line {
            path: printed_path(alloc, path)?,
            runs,
        })
    }
}
