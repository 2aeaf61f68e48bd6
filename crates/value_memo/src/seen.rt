//! What a worker knows of a memo.
ghost use Rattle.std.specs.Prelude.{◌≡◌, ◌<◌, ◌≤◌, true, Some, IfOk, IfSome, IfNone, IsOk, IsSome, OnOk, OnErr, length, slice_get};
ghost use Rattle.std.specs.Borrow.{sem};
ghost use Rattle.merge_info.specs.CanonicalValue.{value_of};
ghost use Rattle.value_memo.specs.Parsed.{parsed_view};
ghost use Rattle.value_memo.specs.SeenValue.{IsAnswered, MayAsk, asked_of, nothing_seen, text_at};

use crate::known_cell::KnownCell;
use crate::memo::Memo;
use crate::reading::{Parsed, Reading};
use std::alloc::{AllocError, Global};
use std::marker::Model;
use svn_dump::ValueId;

/// What one worker knows of a memo. It is seen as the memo, the text that each number was answered for, whether the
/// worker keeps the reading of it itself, and how many readings of texts it counted.
#[derive(Drop)]
pub struct Seen<'t> {
    cells: Vec<KnownCell<'t>>,
    asked: u64,
    parses: u64,
}

impl<'t> Model for Seen<'t> {
    ghost use Rattle.std.specs.Prelude.{◌≡◌, ◌≤◌};
    ghost use Rattle.value_memo.specs.SeenValue.{SeenValue, asked_of, seen_view};

    ghost Value = { SeenValue };

    ghost view = { λ seen. seen_view seen.cells.items seen.parses };

    ghost invariant = { λ seen. (seen.asked ≡ asked_of (seen_view seen.cells.items seen.parses)) × (seen.parses ≤ seen.asked) };
}

impl<'t> Seen<'t> {
    ghost use Rattle.value_memo.specs.Seen.{ends_answered};

    /// A worker that knows nothing of the memo yet.
    pub fn new(alloc: Global, memo: &Memo<'t>) -> Result<Self, AllocError>
        ensures { IfOk result (λ seen. seen ≡ nothing_seen memo.now) }
    {
        Ok(Seen {
            cells: memo.known_cells(alloc)?,
            asked: 0,
            parses: 0,
        })
    }

    /// What the text of a number says, by a reading that another worker published or by one of its own. Which of the two
    /// it is shows in `parses` alone.
    pub fn value<'a>(
        &'a mut self,
        memo: &'a Memo<'t>,
        id: ValueId,
        text: &'t [u8],
    ) -> Result<Parsed<'a>, AllocError>
        requires number { id.0 < length memo.now }
        requires memo { self.old.memo ≡ memo.now }
        requires text { MayAsk self.old id.0 text.now }
        ensures* after { sem 𝓛 (ends_answered self.entry id.0 text.now result) }
        ensures reading { IfOk result (λ parsed. parsed_view parsed ≡ value_of text.now) }
        ensures again { text_at self.old id.0 ≡ Some text.now → IsOk result }
    {
        let at = id.0 as usize;
        self.learn(memo, at, text)?;
        Ok(match self.shared(memo, at) {
            Some(reading) => reading.parsed(),
            None => self.own(at).parsed(),
        })
    }

    /// How many readings of texts the worker counted.
    pub fn parses(&self) -> u64
        ensures parses { result ≡ self.now.parses }
        ensures asked { result ≤ asked_of self.now }
    {
        self.parses
    }

    /// How many numbers the worker was answered for.
    pub fn asked(&self) -> u64
        ensures { result ≡ asked_of self.now }
    {
        self.asked
    }

    /// Learns the reading of a number's text, unless it is known.
    fn learn(&mut self, memo: &Memo<'t>, at: usize, text: &'t [u8]) -> Result<(), AllocError>
        requires number { at < length memo.now }
        requires memo { self.old.memo ≡ memo.now }
        requires text { MayAsk self.old at text.now }
        ensures ok { OnOk result (IsAnswered self.old at text.now self.new) }
        ensures err { OnErr result (self.new ≡ self.old) }
        ensures again { text_at self.old at ≡ Some text.now → IsOk result }
    {
        let alloc = *self.cells.allocator();
        let known = &mut self.cells[at];
        if known.is_answered() {
            return Ok(());
        }
        let is_read = known.learn(alloc, memo.cell(at), text)?;
        self.asked += 1;
        self.parses += is_read as u64;
        Ok(())
    }

    /// The cell's reading, where that is the answer for the number.
    fn shared<'a>(&mut self, memo: &'a Memo<'t>, at: usize) -> Option<&'a Reading<'t>>
        requires number { at < length memo.now }
        requires memo { self.old.memo ≡ memo.now }
        ensures same { self.new ≡ self.old }
        ensures shared { IfSome result (λ reading. text_at self.old at ≡ Some reading.now.text.now) }
        ensures own { IfNone result (IsSome (text_at self.old at) → slice_get self.old.own at ≡ Some true) }
    {
        self.cells[at].shared(memo.cell(at))
    }

    /// The worker's own reading for the number.
    fn own(&self, at: usize) -> &Reading<'t>
        requires { slice_get self.now.own at ≡ Some true }
        ensures { text_at self.now at ≡ Some result.now.text.now }
    {
        self.cells[at].own()
    }
}
