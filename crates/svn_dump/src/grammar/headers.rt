//! The headers of a block.
ghost use Rattle.std.specs.Prelude.{◌≡◌, [], option_copied, IfErr, OnOk, OnErr};
ghost use Rattle.svn_dump.specs.Headers.{AddsHeader, AreHeaders, RepeatsHeader};
ghost use Rattle.svn_dump.specs.HeaderValues.{are_of_node, field_value};
ghost use Rattle.svn_dump.specs.declared.refusal.Refusal.TheVariants.{Header};

use crate::grammar::field::Field;
use crate::refusal::Refusal;
use std::marker::Model;

/// The values of the headers that are read, lent by the dump, and seen as their list.
#[derive(Drop)]
pub(crate) struct Headers<'a> {
    values: [Option<&'a [u8]>; 12],
}

impl<'a> Model for Headers<'a> {
    ghost use Rattle.std.specs.Prelude.{ℕ, List, Option, map, option_copied};

    ghost Value = { List (Option (List ℕ)) };

    ghost view = { λ h. map option_copied h.values };
}

impl<'a> Headers<'a> {
    /// No headers.
    pub(crate) fn new() -> Self
        ensures { AreHeaders result [] }
    {
        Headers { values: [None; 12] }
    }

    /// Equal values.
    pub(crate) fn dup(&self) -> Self
        ensures { result ≡ self.now }
    {
        Headers {
            values: self.values,
        }
    }

    /// The value of a header.
    pub(crate) fn get(&self, field: Field) -> Option<&'a [u8]>
        ensures { option_copied result ≡ field_value self.now field }
    {
        self.values[field.index()]
    }

    /// Whether they are those of a node's block.
    pub(crate) fn are_of_node(&self) -> bool
        ensures { result ≡ are_of_node self.now }
    {
        self.get(Field::RevisionNumber).is_none() && self.get(Field::NodePath).is_some()
    }

    /// Adds a header line. Lines of other names are ignored, and a second one of a listed name is refused.
    pub(crate) fn add(&mut self, name: &[u8], value: &'a [u8]) -> Result<(), Refusal>
        ensures ok { OnOk result (AddsHeader self.old self.new name.now value.now) }
        ensures refused { IfErr result (λ refusal. refusal ≡ Header) }
        ensures twice { OnErr result (RepeatsHeader self.old name.now) }
    {
        if let Some(field) = Field::of(name) {
            if self.get(field).is_some() {
                return Err(Refusal::Header);
            }
            self.values[field.index()] = Some(value);
        }
        Ok(())
    }
}
