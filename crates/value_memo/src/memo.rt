//! Readings of texts that workers share.
ghost use Rattle.std.specs.Prelude.{◌≡◌, ◌<◌, Some, IfOk, length, map, slice_get};
ghost use Rattle.once_cell.specs.Once.{cell_name};
ghost use Rattle.value_memo.specs.KnownCellValue.{unanswered};

use crate::known_cell::KnownCell;
use crate::reading::Reading;
use once_cell::race::OnceBox;
use std::alloc::{AllocError, Global};
use std::marker::Model;

/// Cells for texts by their numbers. Each is set at most once, to a text with what it says, and stays so. A memo is seen
/// as the list of the names of its cells.
#[derive(Drop)]
pub struct Memo<'t> {
    cells: Vec<OnceBox<Reading<'t>>>,
}

impl<'t> Model for Memo<'t> {
    ghost use Rattle.std.specs.Prelude.{List, ℕ, map};
    ghost use Rattle.once_cell.specs.Once.{cell_name};

    ghost Value = { List ℕ };

    ghost view = { λ memo. map cell_name memo.cells.items };
}

impl<'t> Memo<'t> {
    /// A memo of `n` empty cells.
    pub fn new(alloc: Global, n: usize) -> Result<Self, AllocError>
        ensures { IfOk result (λ memo. length memo ≡ n) }
    {
        let mut cells = Vec::with_capacity(alloc, n)?;
        for _ in 0..n {
            cells.push(OnceBox::new(alloc))?;
        }
        Ok(Memo { cells })
    }

    /// What is known of each cell before anything was asked.
    pub(crate) fn known_cells(&self, alloc: Global) -> Result<Vec<KnownCell<'t>>, AllocError>
        ensures { IfOk result (λ known. known.items ≡ map unanswered self.now) }
    {
        let mut known = Vec::with_capacity(alloc, self.cells.len())?;
        for cell in &self.cells {
            known.push(KnownCell::new(cell))?;
        }
        Ok(known)
    }

    /// The cell of a number.
    pub(crate) fn cell(&self, at: usize) -> &OnceBox<Reading<'t>>
        requires { at < length self.now }
        ensures { slice_get self.now at ≡ Some (cell_name result.now) }
    {
        &self.cells[at]
    }
}
