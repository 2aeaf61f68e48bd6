//! The mergeinfo texts of a dump.
ghost use Rattle.std.specs.Prelude.{◌≡◌, ◌<◌, ◌≤◌, [], Some, bytes_eq, length, slice_get, ◌∷◌, IfErr, IfOk, OnErr};
ghost use Rattle.std.specs.List.{IsDistinct};
ghost use Rattle.svn_path.specs.Names.{most_names, with_name};
ghost use Rattle.svn_dump.specs.NumberedRecord.{IsTooLarge, is_full_with};

use crate::read_error::ReadError;
use crate::record::ValueId;
use std::alloc::Global;
use std::marker::Model;
use svn_text::{Seed, TextTable};

/// The distinct mergeinfo texts of a dump, seen as the list of their bytes.
#[derive(Drop)]
pub(crate) struct Texts {
    known: TextTable,
}

impl Model for Texts {
    ghost use Rattle.std.specs.Prelude.{ℕ, List};

    ghost Value = { List (List ℕ) };

    ghost view = { λ t. t.known };
}

impl Texts {
    /// A table without texts. It takes no memory.
    pub(crate) fn new(alloc: Global, seed: Seed) -> Self
        ensures { result ≡ [] }
    {
        Texts {
            known: TextTable::new(alloc, seed),
        }
    }

    /// The number of a text, which is put at the table's end where it isn't there yet.
    pub(crate) fn add(&mut self, text: &[u8]) -> Result<ValueId, ReadError>
        ensures number { IfOk result (λ id. slice_get self.new id.0 ≡ Some text.now) }
        ensures table { IfOk result (λ _. self.new ≡ with_name self.old text.now) }
        ensures refused { IfErr result (IsTooLarge (is_full_with self.old (text.now ∷ []))) }
        ensures err { OnErr result (self.new ≡ self.old) }
    {
        Ok(ValueId(self.known.add(text)?))
    }

    /// The text of a number.
    pub(crate) fn text(&self, id: ValueId) -> &[u8]
        requires { id.0 < length self.now }
        ensures { slice_get self.now id.0 ≡ Some result.now }
    {
        self.known.text(id.0)
    }

    /// How many texts there are.
    pub(crate) fn len(&self) -> usize
        ensures count { result ≡ length self.now }
        ensures few { length self.now ≤ most_names }
        ensures distinct { IsDistinct bytes_eq self.now }
    {
        self.known.len()
    }
}
