//! The lines of a list of queries.
ghost use Rattle.std.specs.Prelude.{◌≡◌, ◌<◌, ◌∷◌, [], length, IfNone, IfOk, IfSome};
ghost use Rattle.svn_report.specs.Answering.{lent_lines};
ghost use Rattle.svn_report.specs.QueryLines.{query_lines};

use std::alloc::{AllocError, Global};
use svn_text::split_at_byte;

/// The first line, and what follows the newline that ends it.
pub(crate) fn next_line(queries: &[u8]) -> Option<(&[u8], &[u8])>
    ensures line { IfSome result (λ found. query_lines queries.now ≡ found.0.now ∷ query_lines found.1.now) }
    ensures shorter { IfSome result (λ found. length found.1.now < length queries.now) }
    ensures none { IfNone result (query_lines queries.now ≡ []) }
{
    if queries.is_empty() {
        return None;
    }
    match split_at_byte(b'\n', queries) {
        None => Some((queries, &[])),
        Some(found) => Some(found),
    }
}

/// How many lines there are.
pub(crate) fn count_lines(queries: &[u8]) -> usize
    ensures { result ≡ length (query_lines queries.now) }
{
    let mut count = 0;
    let mut rest = queries;
    'lines: while let Some((_, more)) = next_line(rest) {
        count += 1;
        rest = more;
    }
    count
}

/// All lines.
pub(crate) fn lines_of(alloc: Global, queries: &[u8]) -> Result<Vec<&[u8]>, AllocError>
    ensures { IfOk result (λ lines. lent_lines lines.items ≡ query_lines queries.now) }
{
    let mut lines = Vec::new(alloc);
    let mut rest = queries;
    'lines: while let Some((line, more)) = next_line(rest) {
        lines.push(line)?;
        rest = more;
    }
    Ok(lines)
}
