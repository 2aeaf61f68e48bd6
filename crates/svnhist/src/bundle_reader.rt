//! Taking a bundle apart.
ghost use Rattle.std.specs.Prelude.{◌≡◌, ◌<◌, ◌≤◌, ℕ, List, ◌++◌, IfNone, IfSome};
ghost use Rattle.svn_text.specs.Number.{greatest_length};
ghost use Rattle.svnhist.specs.Bundle.{AreLines, BundleValue, HasNoNumberBefore, IsBundle, IsNumberBefore, bundle_view, first_digit};

use crate::bundle::Bundle;
use query_pool::MOST_WORKERS;
use svn_report::MOST_QUERIES;
use svn_text::{GREATEST_REVISION, number_up_to, split_at_byte};

/// The number before the first byte `end`, and what follows that byte.
fn number_before(bytes: &[u8], end: u8, most: u64) -> Option<(u64, &[u8])>
    requires before_digits { end < first_digit }
    requires small { most ≤ greatest_length }
    ensures found { IfSome result (λ found. IsNumberBefore end most bytes.now found.0 found.1.now) }
    ensures none { IfNone result (HasNoNumberBefore end most bytes.now) }
{
    let (digits, rest) = split_at_byte(end, bytes)?;
    Some((number_up_to(most, digits)?, rest))
}

/// The first `count` lines, and what follows them.
fn split_lines(bytes: &[u8], count: u64) -> Option<(&[u8], &[u8])>
    ensures found { IfSome result (λ found. (bytes.now ≡ found.0.now ++ found.1.now) × AreLines count found.0.now) }
    ensures none { IfNone result
        ((queries dump : List ℕ) → bytes.now ≡ queries ++ dump → AreLines count queries → ⊥) }
{
    let mut rest = bytes;
    for _ in 0..count {
        let (_, more) = split_at_byte(b'\n', rest)?;
        rest = more;
    }
    Some(bytes.split_at(bytes.len() - rest.len()))
}

/// The parts of a bundle, or `None` where the bytes are not a bundle.
pub fn bundle(bytes: &[u8]) -> Option<Bundle<'_>>
    ensures found { IfSome result (λ parts. IsBundle bytes.now (bundle_view parts)) }
    ensures none { IfNone result ((value : BundleValue) → IsBundle bytes.now value → ⊥) }
{
    let (block, rest) = number_before(bytes, b' ', GREATEST_REVISION)?;
    let (workers, rest) = number_before(rest, b' ', MOST_WORKERS as u64)?;
    if workers == 0 {
        return None;
    }
    let (count, rest) = number_before(rest, b'\n', MOST_QUERIES as u64)?;
    let (queries, dump) = split_lines(rest, count)?;
    Some(Bundle {
        block: block as u32,
        workers: workers as usize,
        queries,
        dump,
    })
}
