//! Texts as keys of a table.
ghost use Rattle.std.specs.Prelude.{◌≡◌, [], ◌∷◌, IfOk, bytes_eq};
ghost use Rattle.std.specs.Cmp.{partial_equiv_from_equiv};
ghost use Rattle.std.specs.Cmp.Lexicographic.{nat_list_eq_equiv};
ghost use Rattle.svn_text.specs.Text.{writes_of, writes_of-same};

use std::alloc::{AllocError, Global};
use std::borrow::CowSlice;
use std::hash::{Hash, Hasher};
use std::marker::Model;

/// The bytes of a text: a table owns those of its keys, and is asked with lent ones. They are hashed in one call, since
/// std hashes a list of bytes byte by byte.
#[derive(Drop)]
pub(crate) struct Text<'a> {
    bytes: CowSlice<'a, u8>,
}

impl<'a> Model for Text<'a> {
    ghost use Rattle.std.specs.Prelude.{ℕ, List};
    ghost use Rattle.std.specs.Cow.{cow_slice_items};

    ghost Value = { List ℕ };

    ghost view = { λ t. cow_slice_items t.bytes };
}

impl<'a> PartialEq for Text<'a> {
    ghost eq = { bytes_eq };

    ghost laws = { partial_equiv_from_equiv nat_list_eq_equiv };

    fn eq(&self, other: &Text<'a>) -> bool {
        self.as_slice() == other.as_slice()
    }
}

impl<'a> Eq for Text<'a> {
    ghost laws = { nat_list_eq_equiv };
}

impl<'a> Hash for Text<'a> {
    ghost hash_input = { writes_of };

    ghost respects_eq = { writes_of-same };

    fn hash<H: Hasher>(&self, state: &mut H) {
        state.write(self.as_slice());
    }
}

impl<'a> Text<'a> {
    /// Lent bytes.
    pub(crate) fn new(bytes: &'a [u8]) -> Self
        ensures { result ≡ bytes.now }
    {
        Text {
            bytes: CowSlice::Borrowed(bytes),
        }
    }

    /// The same bytes, owned.
    pub(crate) fn to_owned(&self, alloc: Global) -> Result<Text<'static>, AllocError>
        ensures { IfOk result (λ text. text ≡ self.now) }
    {
        Ok(Text {
            bytes: CowSlice::Owned(Vec::from_slice(alloc, self.as_slice())?),
        })
    }

    pub(crate) fn as_slice(&self) -> &[u8]
        ensures { result.now ≡ self.now }
    {
        self.bytes.as_slice()
    }
}
