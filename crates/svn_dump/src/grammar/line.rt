//! Lines of a dump.
ghost use Rattle.std.specs.Prelude.{◌≡◌, IsFalse, MatchOption};
ghost use Rattle.std.specs.List.{list_any};
ghost use Rattle.svn_dump.specs.Line.{HasNoLine, IsFirstLine, IsHeaderOf};
ghost use Rattle.svn_text.specs.Line.{is_newline};
ghost use Rattle.svn_dump.specs.Block.{without_space, IsHeader};

use svn_text::split_at_byte;

/// The first line, without its newline, and what follows it.
pub(crate) fn split_line(bytes: &[u8]) -> Option<(&[u8], &[u8])>
    ensures { MatchOption result (HasNoLine bytes.now) (λ parts. IsFirstLine bytes.now parts.0.now parts.1.now) }
{
    split_at_byte(b'\n', bytes)
}

/// The bytes without the one space that may stand before them.
fn without_space(bytes: &[u8]) -> &[u8]
    ensures { result.now ≡ without_space bytes.now }
{
    match bytes {
        [b' ', rest @ ..] => rest,
        _ => bytes,
    }
}

/// The name and the value of a header line.
pub(crate) fn header_of(line: &[u8]) -> Option<(&[u8], &[u8])>
    requires { IsFalse (list_any is_newline line.now) }
    ensures { MatchOption result (IsHeader line.now → ⊥) (λ parts. IsHeaderOf line.now parts.0.now parts.1.now) }
{
    match split_at_byte(b':', line) {
        Some((name, value)) if !name.is_empty() => Some((name, without_space(value))),
        _ => None,
    }
}
