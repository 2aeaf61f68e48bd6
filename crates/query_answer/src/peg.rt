//! Pegs in queries.
ghost use Rattle.std.specs.Prelude.{◌≡◌};
ghost use Rattle.svn_path.specs.Components.{HasDot};
ghost use Rattle.query_answer.specs.Peg.{peg_value_of};

use std::marker::Model;
use svn_path::has_dot;
use svn_text::{GREATEST_REVISION, number_up_to, split_at_last};

/// A path in a revision, borrowed from a query's field. It is seen as the bytes of the path and the revision.
#[derive(Debug, Drop)]
pub struct Peg<'a> {
    path: &'a [u8],
    rev: u32,
}

impl<'a> Model for Peg<'a> {
    ghost use Rattle.query_answer.specs.Peg.{PegValue};

    ghost Value = { PegValue };

    ghost view = { λ p. record { path = p.path.now; rev = p.rev } };

    ghost use Rattle.svn_path.specs.Components.{HasDot};

    ghost invariant = { λ p. HasDot p.path.now → ⊥ };
}

impl<'a> Peg<'a> {
    /// The path before the last `@` of a field, and the revision after it.
    pub fn read(field: &'a [u8]) -> Option<Self>
        ensures { result ≡ peg_value_of field.now }
    {
        let (path, rev) = split_at_last(b'@', field)?;
        if has_dot(path) {
            return None;
        }
        let rev = number_up_to(GREATEST_REVISION, rev)? as u32;
        Some(Peg { path, rev })
    }

    /// The bytes of the path.
    pub fn path(&self) -> &'a [u8]
        ensures value { result.now ≡ self.now.path }
        ensures no_dot { HasDot result.now → ⊥ }
    {
        self.path
    }

    /// The revision.
    pub fn rev(&self) -> u32
        ensures { result ≡ self.now.rev }
    {
        self.rev
    }
}
