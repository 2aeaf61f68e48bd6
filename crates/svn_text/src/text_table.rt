//! A table of texts.
ghost use Rattle.std.specs.Prelude.{◌≡◌, ℕ, ◌<◌, ◌≤◌, ◌↔◌, List, [], Some, length, slice_get, bytes_eq, IsTrue, IsOk, IsSome, IfOk, IfSome, OnErr, IsErrOf};
ghost use Rattle.std.specs.List.{IsDistinct};
ghost use Rattle.svn_text.specs.TextTable.{has_text, with_text, most_texts, HasNoRoomFor};

use crate::seed::Seed;
use crate::text::Text;
use indexmap::IndexSet;
use std::alloc::{AllocError, AllocFailed, Global};
use std::marker::Model;
use thiserror::Error;

/// Why a table didn't take a text.
#[derive(Debug, Drop, Error)]
pub enum TextTableError {
    #[error("the table of texts is full")]
    Full,
    #[error("out of memory")]
    Memory,
}

/// Distinct texts, numbered from 0 in the order in which they came, and seen as the list of their bytes.
#[derive(Drop)]
pub struct TextTable {
    known: IndexSet<Text<'static>, Seed>,
}

impl Model for TextTable {
    ghost use Rattle.std.specs.Prelude.{ℕ, List};
    ghost use Rattle.svn_text.specs.TextTable.{IsTextTable};

    ghost Value = { List (List ℕ) };

    ghost view = { λ t. t.known.keys };

    ghost invariant = { λ t. IsTextTable t.known.keys };
}

impl From<AllocError> for TextTableError {
    ghost use Rattle.svn_text.specs.declared.text_table.TextTableError.TheVariants.{Memory};

    ghost from_gives = { λ _ e. e ≡ Memory };

    fn from(_e: AllocError) -> TextTableError {
        TextTableError::Memory
    }
}

impl<T: Drop> From<AllocFailed<T>> for TextTableError {
    ghost use Rattle.svn_text.specs.declared.text_table.TextTableError.TheVariants.{Memory};

    ghost from_gives = { λ _ e. e ≡ Memory };

    fn from(_e: AllocFailed<T>) -> TextTableError {
        TextTableError::Memory
    }
}

impl TextTable {
    /// A table without texts. It takes no memory.
    pub fn new(alloc: Global, seed: Seed) -> Self
        ensures { result ≡ [] }
    {
        TextTable {
            known: IndexSet::with_hasher(alloc, seed),
        }
    }

    /// The seed by which texts are found.
    pub fn seed(&self) -> Seed {
        *self.known.hasher()
    }

    /// The number of a text, which is added at the end of the table where it is new.
    pub fn add(&mut self, text: &[u8]) -> Result<u32, TextTableError>
        ensures number { IfOk result (λ number. slice_get self.new number ≡ Some text.now) }
        ensures table { IfOk result (λ _. self.new ≡ with_text self.old text.now) }
        ensures known { IsTrue (has_text self.old text.now) → IsOk result }
        ensures full { IsErrOf result TextTableError.Full ↔ HasNoRoomFor self.old text.now }
        ensures err { OnErr result (self.new ≡ self.old) }
        ensures few { length self.new ≤ most_texts }
        ensures distinct { IsDistinct bytes_eq self.new }
    {
        if let Some(number) = self.find(text) {
            return Ok(number);
        }
        let number = self.known.len();
        if number == u32::MAX as usize {
            return Err(TextTableError::Full);
        }
        let kept = Text::new(text).to_owned(*self.known.allocator())?;
        self.known.insert(kept)?;
        Ok(number as u32)
    }

    /// The number of a text, if the table has it.
    pub fn find(&self, text: &[u8]) -> Option<u32>
        ensures number { IfSome result (λ number. slice_get self.now number ≡ Some text.now) }
        ensures found { IsSome result ↔ IsTrue (has_text self.now text.now) }
    {
        let text = Text::new(text);
        self.known.get_index_of(&text).map(|index| index as u32)
    }

    /// The text of a number.
    pub fn text(&self, number: u32) -> &[u8]
        requires { number < length self.now }
        ensures { slice_get self.now number ≡ Some result.now }
    {
        self.known[number as usize].as_slice()
    }

    /// How many texts there are.
    pub fn len(&self) -> usize
        ensures count { result ≡ length self.now }
        ensures few { length self.now ≤ most_texts }
        ensures distinct { IsDistinct bytes_eq self.now }
    {
        self.known.len()
    }

    pub fn is_empty(&self) -> bool
        ensures { IsTrue result ↔ (self.now ≡ []) }
    {
        self.known.is_empty()
    }
}
