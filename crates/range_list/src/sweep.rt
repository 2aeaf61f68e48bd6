//! A sweep over runs in the order of their first numbers, which joins them.
ghost use Rattle.std.specs.Prelude.{◌≡◌, ℕ, ◌+◌, ◌<◌, ◌≤◌, [], ◌∷◌, ◌++◌, IfOk, OnOk};
ghost use Rattle.range_list.specs.Rangelist.{IsRun, IsCanonical, HasSameNumbers};
ghost use Rattle.svn_text.specs.Number.{greatest_revision};
ghost use Rattle.range_list.specs.Sweep.{EndsBelow, IsSweep, runs_of};

use crate::run::Run;
use std::alloc::{AllocError, Global};

/// The greatest revision number.
const GREATEST_REVISION: u32 = svn_text::GREATEST_REVISION as u32;

/// How far a sweep has come.
#[derive(Drop)]
pub(crate) struct Sweep {
    /// The joined runs of the numbers below the cursor.
    pub done: Vec<Run>,
    pub cursor: u32,
    /// The numbers given as inheritable go up to this one, where that is the cursor or above it.
    pub inheritable_to: u32,
    /// The numbers given as not inheritable go up to this one, where that is the cursor or above it.
    pub non_inheritable_to: u32,
}

impl Sweep {
    pub(crate) fn new(alloc: Global) -> Self
        ensures sweep { IsSweep result }
        ensures cursor { result.cursor ≡ 1 }
        ensures empty { HasSameNumbers (runs_of result) [] }
    {
        Sweep {
            done: Vec::new(alloc),
            cursor: 1,
            inheritable_to: 0,
            non_inheritable_to: 0,
        }
    }

    /// Takes a run that begins at the cursor or above it, and moves the cursor to its first number.
    pub(crate) fn take(&mut self, run: Run) -> Result<(), AllocError>
        requires sweep { IsSweep self.old }
        requires run { IsRun run }
        requires rising { self.old.cursor ≤ run.lo }
        ensures sweep { OnOk result (IsSweep self.new) }
        ensures cursor { OnOk result (self.new.cursor ≡ run.lo) }
        ensures same { OnOk result (HasSameNumbers (runs_of self.new) (runs_of self.old ++ run ∷ [])) }
    {
        self.advance_to(run.lo)?;
        if run.inheritable {
            self.inheritable_to = self.inheritable_to.max(run.hi);
        } else {
            self.non_inheritable_to = self.non_inheritable_to.max(run.hi);
        }
        Ok(())
    }

    /// Moves the cursor up to this number, and finishes the runs of the numbers below it.
    pub(crate) fn advance_to(&mut self, cursor: u32) -> Result<(), AllocError>
        requires sweep { IsSweep self.old }
        requires rising { self.old.cursor ≤ cursor }
        ensures sweep { OnOk result (IsSweep self.new) }
        ensures cursor { OnOk result (self.new.cursor ≡ cursor) }
        ensures same { OnOk result (HasSameNumbers (runs_of self.new) (runs_of self.old)) }
    {
        let end = cursor - 1;
        let inheritable_end = self.inheritable_to.min(end);
        push_run(
            &mut self.done,
            Run {
                lo: self.cursor,
                hi: inheritable_end,
                inheritable: true,
            },
        )?;
        push_run(
            &mut self.done,
            Run {
                lo: self.cursor.max(inheritable_end + 1),
                hi: self.non_inheritable_to.min(end),
                inheritable: false,
            },
        )?;
        self.cursor = cursor;
        Ok(())
    }

    /// The joined runs of all that was taken.
    pub(crate) fn finish(mut self) -> Result<Vec<Run>, AllocError>
        requires sweep { IsSweep self }
        requires bounded { self.cursor ≤ greatest_revision + 1 }
        ensures canonical { IfOk result (λ runs. IsCanonical runs.items) }
        ensures same { IfOk result (λ runs. HasSameNumbers runs.items (runs_of self)) }
    {
        self.advance_to(GREATEST_REVISION + 1)?;
        Ok(self.done)
    }
}

/// Adds a run above the others, joined with the last of them where it continues it. A run that ends below its first
/// number adds nothing.
fn push_run(runs: &mut Vec<Run>, run: Run) -> Result<(), AllocError>
    requires canonical { IsCanonical runs.old.items }
    requires above { EndsBelow run.lo runs.old.items }
    requires first { 1 ≤ run.lo }
    requires last { run.hi ≤ greatest_revision }
    ensures canonical { OnOk result (IsCanonical runs.new.items) }
    ensures below { OnOk result ((n : ℕ) → run.lo ≤ n → run.hi < n → EndsBelow n runs.new.items) }
    ensures same { OnOk result (HasSameNumbers runs.new.items (runs.old.items ++ run ∷ [])) }
{
    if run.hi < run.lo {
        return Ok(());
    }
    let len = runs.len();
    if len > 0 && runs[len - 1].continues_with(run) {
        runs[len - 1].hi = run.hi;
    } else {
        runs.push(run)?;
    }
    Ok(())
}
