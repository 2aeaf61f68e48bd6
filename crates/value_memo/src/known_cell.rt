//! What a worker knows of a cell.
ghost use Rattle.std.specs.Prelude.{◌≡◌, true, false, Some, None, IfOk, IfSome, IfNone, OnOk, OnErr, IsSome, IsTrue, IsFalse, is_some};
ghost use Rattle.once_cell.specs.Once.{cell_name};
ghost use Rattle.value_memo.specs.KnownCellValue.{unanswered, IsAnsweredCell};

use crate::reading::Reading;
use once_cell::race::{Note, OnceBox};
use std::alloc::{AllocError, Global};
use std::marker::Model;

/// Where the worker finds the reading of the text that it was answered for.
#[derive(Drop)]
enum Answer<'t> {
    /// It was not answered yet.
    Unknown,
    /// In the cell.
    Shared,
    /// In its own memory, as the cell was set to another one.
    Own(Box<Reading<'t>>),
}

/// What a worker knows of one cell.
#[derive(Drop)]
pub(crate) struct KnownCell<'t> {
    note: Note<Reading<'t>>,
    answer: Answer<'t>,
}

impl<'t> Model for KnownCell<'t> {
    ghost use Rattle.value_memo.specs.KnownCellValue.{KnownCellValue};
    ghost use Rattle.value_memo.specs.KnownCell.{answered_text, is_own, IsKnown};

    ghost Value = { KnownCellValue };

    ghost view = { λ cell. record { name = cell.note.cell; text = answered_text cell.note.known cell.answer; own = is_own cell.answer } };

    ghost invariant = { λ cell. IsKnown cell.note.known cell.answer };
}

impl<'t> KnownCell<'t> {
    /// A cell that nothing was asked of yet.
    pub(crate) fn new(cell: &OnceBox<Reading<'t>>) -> Self
        ensures { result ≡ unanswered (cell_name cell.now) }
    {
        KnownCell {
            note: cell.note(),
            answer: Answer::Unknown,
        }
    }

    /// Whether the worker was answered for a text.
    pub(crate) fn is_answered(&self) -> bool
        ensures { result ≡ is_some self.now.text }
    {
        match &self.answer {
            Answer::Unknown => false,
            Answer::Shared | Answer::Own(_) => true,
        }
    }

    /// Learns the reading of a text: the cell's, or one that it makes and offers to the cell. Tells whether it made one.
    pub(crate) fn learn(
        &mut self,
        alloc: Global,
        cell: &OnceBox<Reading<'t>>,
        text: &'t [u8],
    ) -> Result<bool, AllocError>
        requires cell { self.old.name ≡ cell_name cell.now }
        requires new { self.old.text ≡ None }
        ensures ok { OnOk result (IsAnsweredCell self.old text.now self.new) }
        ensures shared { IfOk result (λ is_read. IsFalse is_read → self.new.own ≡ false) }
        ensures err { OnErr result (self.new ≡ self.old) }
    {
        if self.finds(cell, text) {
            return Ok(false);
        }
        let reading = Box::new(alloc, Reading::read(alloc, text)?)?;
        self.keep(cell, reading);
        Ok(true)
    }

    /// Looks in the cell. Its reading becomes the answer where it is one of the text.
    fn finds(&mut self, cell: &OnceBox<Reading<'t>>, text: &'t [u8]) -> bool
        requires cell { self.old.name ≡ cell_name cell.now }
        requires new { self.old.text ≡ None }
        ensures found { IsTrue result → IsAnsweredCell self.old text.now self.new }
        ensures shared { IsTrue result → self.new.own ≡ false }
        ensures missed { IsFalse result → self.new ≡ self.old }
    {
        match cell.get_as(&mut self.note) {
            Some(found) if found.text == text => {
                self.answer = Answer::Shared;
                true
            }
            _ => false,
        }
    }

    /// Sets the cell to a reading, or keeps it where the cell holds another.
    fn keep(&mut self, cell: &OnceBox<Reading<'t>>, reading: Box<Reading<'t>>)
        requires cell { self.old.name ≡ cell_name cell.now }
        ensures { IsAnsweredCell self.old reading.entry.value.text.now self.new }
    {
        self.answer = match cell.set_as(reading, &mut self.note) {
            Ok(()) => Answer::Shared,
            Err(own) => Answer::Own(own),
        };
    }

    /// The cell's reading, where that is the answer.
    pub(crate) fn shared<'a>(&mut self, cell: &'a OnceBox<Reading<'t>>) -> Option<&'a Reading<'t>>
        requires { self.old.name ≡ cell_name cell.now }
        ensures same { self.new ≡ self.old }
        ensures shared { IfSome result (λ reading. self.old.text ≡ Some reading.now.text.now) }
        ensures own { IfNone result (IsSome self.old.text → self.old.own ≡ true) }
    {
        match &self.answer {
            Answer::Shared => cell.get_as(&mut self.note),
            Answer::Unknown | Answer::Own(_) => None,
        }
    }

    /// The reading that the worker keeps itself.
    pub(crate) fn own(&self) -> &Reading<'t>
        requires { self.now.own ≡ true }
        ensures { self.now.text ≡ Some result.now.text.now }
    {
        match &self.answer {
            Answer::Own(reading) => reading,
            Answer::Unknown | Answer::Shared => unreachable!(),
        }
    }
}
