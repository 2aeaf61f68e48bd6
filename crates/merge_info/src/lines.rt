//! The lines of a text.
ghost use Rattle.std.specs.Prelude.{◌≡◌, None, Some, All, IfOk, IsErrOf, map};
ghost use Rattle.std.specs.Io.BufRead.{strip_last};
ghost use Rattle.merge_info.specs.Line.{IsLine, line_view};
ghost use Rattle.merge_info.specs.Value.{lines_of};

use crate::error::MergeError;
use crate::field::first_field;
use crate::line::Line;
use std::alloc::Global;

/// The lines of a text, in their order.
pub(crate) fn read_lines(alloc: Global, text: &[u8]) -> Result<Vec<Line>, MergeError>
    ensures ok { IfOk result (λ lines. lines_of text.now ≡ Some (map line_view lines.items)) }
    ensures lines { IfOk result (λ lines. All IsLine (map line_view lines.items)) }
    ensures malformed { IsErrOf result MergeError.Malformed → lines_of text.now ≡ None }
{
    let mut lines = Vec::new(alloc);
    let text = without_newline(text);
    if text.is_empty() {
        return Ok(lines);
    }
    let mut left = Some(text);
    while let Some(rest) = left {
        let (line, more) = first_field(b'\n', rest);
        lines.push(Line::read(alloc, line)?)?;
        left = more;
    }
    Ok(lines)
}

/// The text without one newline at its end.
fn without_newline(text: &[u8]) -> &[u8]
    ensures { result.now ≡ strip_last 10 text.now }
{
    match text.split_last() {
        Some((b'\n', front)) => front,
        _ => text,
    }
}
