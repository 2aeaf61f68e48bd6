//! Bytes cut at a byte.
ghost use Rattle.std.specs.Prelude.{MatchOption};
ghost use Rattle.svn_text.specs.Cut.{IsCutAt, IsCutAtLast, Lacks};

use memchr::{memchr, memrchr};

/// What precedes the first such byte, and what follows it.
pub fn split_at_byte(byte: u8, bytes: &[u8]) -> Option<(&[u8], &[u8])>
    ensures { MatchOption result (Lacks byte bytes.now) (λ parts. IsCutAt byte bytes.now parts.0.now parts.1.now) }
{
    match memchr(byte, bytes) {
        None => None,
        Some(at) => Some((&bytes[..at], &bytes[at + 1..])),
    }
}

/// What precedes the last such byte, and what follows it.
pub fn split_at_last(byte: u8, bytes: &[u8]) -> Option<(&[u8], &[u8])>
    ensures { MatchOption result (Lacks byte bytes.now) (λ parts. IsCutAtLast byte bytes.now parts.0.now parts.1.now) }
{
    let (front, more) = bytes.split_at(memrchr(byte, bytes)?);
    let (_, back) = more.split_first()?;
    Some((front, back))
}
