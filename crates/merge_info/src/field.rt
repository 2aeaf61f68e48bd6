//! Fields: what stands between the bytes that separate them.
ghost use Rattle.std.specs.Prelude.{◌≡◌, ◌==◌, ◌∷◌};
ghost use Rattle.std.specs.List.{slice_split};
ghost use Rattle.merge_info.specs.Field.{fields_left};

use svn_text::split_at_byte;

/// The first field, and what follows the byte that ends it, if there is one.
pub(crate) fn first_field(byte: u8, bytes: &[u8]) -> (&[u8], Option<&[u8]>)
    ensures { slice_split (λ each. each == byte) bytes.now ≡ result.0.now ∷ fields_left byte result.1 }
{
    match split_at_byte(byte, bytes) {
        None => (bytes, None),
        Some((field, rest)) => (field, Some(rest)),
    }
}
