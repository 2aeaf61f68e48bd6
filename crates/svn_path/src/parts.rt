//! Cutting a path's bytes into its components.
ghost use Rattle.std.specs.Prelude.{◌≡◌, [], ◌∷◌, IsTrue, ◌↔◌, IfNone, IfSome, length, ◌<◌};
ghost use Rattle.svn_path.specs.Components.{parts_of, HasDot};

use memchr::memchr;

/// The first part that is not empty, and what follows it.
pub(crate) fn next_part(bytes: &[u8]) -> Option<(&[u8], &[u8])>
    ensures part { IfSome result (λ found. parts_of bytes.now ≡ found.0.now ∷ parts_of found.1.now) }
    ensures shorter { IfSome result (λ found. length found.1.now < length bytes.now) }
    ensures none { IfNone result (parts_of bytes.now ≡ []) }
{
    let Some(start) = bytes.iter().position(|byte| *byte != b'/') else {
        return None;
    };
    let (_, rest) = bytes.split_at(start);
    let end = memchr(b'/', rest).unwrap_or(rest.len());
    Some(rest.split_at(end))
}

/// Whether some component of the path is `.` or `..`.
pub fn has_dot(bytes: &[u8]) -> bool
    ensures { IsTrue result ↔ HasDot bytes.now }
{
    let mut rest = bytes;
    while let Some((part, more)) = next_part(rest) {
        if part == b".".as_slice() || part == b"..".as_slice() {
            return true;
        }
        rest = more;
    }
    false
}
