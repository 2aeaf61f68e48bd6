//! What mergeinfo texts say.
ghost use Rattle.std.specs.Prelude.{◌≡◌, IfOk};
ghost use Rattle.merge_info.specs.CanonicalValue.{value_of};
ghost use Rattle.value_memo.specs.Parsed.{parsed_view};

use merge_info::{MergeError, MergeInfo};
use std::alloc::{AllocError, Global};

/// What a mergeinfo text says: a value, or that it is malformed.
#[derive(Clone, Copy)]
pub enum Parsed<'a> {
    /// The value of the text.
    Good(&'a MergeInfo),
    /// The text has no value.
    Malformed,
}

/// A mergeinfo text and its value, or none where the text is malformed.
#[derive(Drop)]
pub(crate) struct Reading<'t> {
    pub(crate) text: &'t [u8],
    value: Option<MergeInfo>,
    ghost exact: { value ≡ value_of text.now },
}

impl<'t> Reading<'t> {
    /// Parses a text.
    pub(crate) fn read(alloc: Global, text: &'t [u8]) -> Result<Self, AllocError>
        ensures { IfOk result (λ reading. reading.text.now ≡ text.now) }
    {
        match MergeInfo::parse(alloc, text) {
            Ok(value) => Ok(Reading {
                text,
                value: Some(value),
            }),
            Err(MergeError::Malformed) => Ok(Reading { text, value: None }),
            Err(MergeError::Memory) => Err(AllocError),
        }
    }

    /// What the text says.
    pub(crate) fn parsed(&self) -> Parsed<'_>
        ensures { parsed_view result ≡ value_of self.now.text.now }
    {
        match &self.value {
            Some(value) => Parsed::Good(value),
            None => Parsed::Malformed,
        }
    }
}
