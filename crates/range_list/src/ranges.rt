//! Sets of revision numbers.
ghost use Rattle.std.specs.Bool.{OnTrue};
ghost use Rattle.std.specs.List.{list_any};
ghost use Rattle.std.specs.Prelude.{◌≡◌, ◌≤◌, ◌<◌, ◌↔◌, List, [], ◌++◌, All, IfOk, OnOk, OnErr, IsTrue};
ghost use Rattle.range_list.specs.Rangelist.{inheritability_of, inheritable_runs, IsRun, IsCanonical, HasSameNumbers, IsInheritablePart, IsOnlyCanonical, AddsRun};
ghost use Rattle.svn_text.specs.Number.{greatest_revision};
ghost use Rattle.range_list.specs.Canonical.{canonical_runs};
ghost use Rattle.range_list.specs.Text.{rangelist_text};

use crate::run::Run;
use crate::sweep::Sweep;
use crate::text::{append_inheritable_runs, append_runs};
use std::alloc::{AllocError, Global};
use std::marker::Model;

/// A set of revision numbers, each inheritable or not, as a rangelist of `svn:mergeinfo` gives it. It is seen as the
/// canonical list of its runs.
#[derive(Drop)]
pub struct Ranges {
    runs: Vec<Run>,
}

impl Model for Ranges {
    ghost use Rattle.std.specs.Prelude.{List};
    ghost use Rattle.range_list.specs.declared.run.Run.{Run};
    ghost use Rattle.range_list.specs.Rangelist.{IsCanonical};

    ghost Value = { List Run };

    ghost view = { λ r. r.runs.items };

    ghost invariant = { λ r. IsCanonical r.runs.items };
}

impl Ranges {
    /// The empty set. It takes no memory.
    pub fn new(alloc: Global) -> Self
        ensures { result ≡ [] }
    {
        Ranges {
            runs: Vec::new(alloc),
        }
    }

    /// The union of the runs, which may come in any order and overlap. A number given both ways is inheritable.
    pub fn of_runs(runs: Vec<Run>) -> Result<Self, AllocError>
        requires { All IsRun runs.items }
        ensures same { IfOk result (λ ranges. HasSameNumbers ranges runs.items) }
        ensures exact { IfOk result (λ ranges. ranges ≡ canonical_runs runs.items) }
    {
        if is_canonical(&runs) {
            Ok(Ranges { runs })
        } else {
            union_of(runs)
        }
    }

    /// Adds the numbers from `lo` to `hi`. Each call copies the whole list; `of_runs` takes many runs at once.
    pub fn add(&mut self, lo: u32, hi: u32, inheritable: bool) -> Result<(), AllocError>
        requires first { 1 ≤ lo }
        requires ordered { lo ≤ hi }
        requires last { hi ≤ greatest_revision }
        ensures ok { OnOk result (AddsRun self.old self.new lo hi inheritable) }
        ensures err { OnErr result (self.new ≡ self.old) }
    {
        let mut runs = Vec::with_capacity(*self.runs.allocator(), self.runs.len() + 1)?;
        runs.extend_from_slice(&self.runs)?;
        runs.push(Run {
            lo,
            hi,
            inheritable,
        })?;
        *self = Ranges::of_runs(runs)?;
        Ok(())
    }

    /// The numbers of this set and of the other one.
    pub fn union(&self, other: &Ranges) -> Result<Self, AllocError>
        ensures { IfOk result (λ both. HasSameNumbers both (self.now ++ other.now)) }
    {
        let mut runs = Vec::with_capacity(
            *self.runs.allocator(),
            self.runs.len() + other.runs.len(),
        )?;
        runs.extend_from_slice(&self.runs)?;
        runs.extend_from_slice(&other.runs)?;
        Ranges::of_runs(runs)
    }

    /// The inheritable numbers of this set.
    pub fn inheritable(&self) -> Result<Self, AllocError>
        ensures { IfOk result (IsInheritablePart self.now) }
    {
        let alloc = *self.runs.allocator();
        let runs = self.runs.iter().copied().filter(|run| run.inheritable);
        Ok(Ranges {
            runs: runs.collect(alloc)?,
        })
    }

    /// Whether the number is inheritable, if the set has it.
    pub fn has(&self, rev: u32) -> Option<bool>
        ensures { result ≡ inheritability_of self.now rev }
    {
        let index = self.runs.partition_point(|run| run.hi < rev);
        match self.runs.get(index) {
            Some(run) if run.lo <= rev => Some(run.inheritable),
            _ => None,
        }
    }

    /// The runs, in rising order.
    pub fn runs(&self) -> &[Run]
        ensures value { result.now ≡ self.now }
        ensures canonical { IsCanonical result.now }
        ensures only { IsOnlyCanonical result.now }
    {
        self.runs.as_slice()
    }

    /// Whether the set has no number.
    pub fn is_empty(&self) -> bool
        ensures { IsTrue result ↔ (self.now ≡ []) }
    {
        self.runs.is_empty()
    }

    /// Appends the runs, separated by commas.
    pub fn write(&self, out: &mut Vec<u8>) -> Result<(), AllocError>
        ensures ok { OnOk result (out.new.items ≡ out.old.items ++ rangelist_text self.now) }
        ensures err { OnErr result (out.new.items ≡ out.old.items) }
    {
        let before = out.len();
        let written = append_runs(self.runs(), out);
        if written.is_err() {
            out.truncate(before);
        }
        written
    }

    /// Whether some number is inheritable.
    pub fn has_inheritable(&self) -> bool
        ensures { result ≡ list_any (λ run. run.inheritable) self.now }
    {
        self.runs.iter().any(|run| run.inheritable)
    }

    /// Appends the inheritable runs, separated by commas.
    pub fn write_inheritable(&self, out: &mut Vec<u8>) -> Result<(), AllocError>
        ensures ok { OnOk result (out.new.items ≡ out.old.items ++ rangelist_text (inheritable_runs self.now)) }
        ensures err { OnErr result (out.new.items ≡ out.old.items) }
    {
        let before = out.len();
        let written = append_inheritable_runs(self.runs(), out);
        if written.is_err() {
            out.truncate(before);
        }
        written
    }

    /// An equal set.
    pub fn dup(&self) -> Result<Self, AllocError>
        ensures { IfOk result (λ same. same ≡ self.now) }
    {
        Ok(Ranges {
            runs: Vec::from_slice(*self.runs.allocator(), &self.runs)?,
        })
    }
}

/// Whether the runs rise, and are as long as they can be.
fn is_canonical(runs: &[Run]) -> bool
    requires { All IsRun runs.now }
    ensures { OnTrue result (IsCanonical runs.now) }
{
    runs.is_sorted_by(|run, next| run.is_apart_from(*next))
}

/// The union of the runs, which may come in any order and overlap.
fn union_of(mut runs: Vec<Run>) -> Result<Ranges, AllocError>
    requires { All IsRun runs.items }
    ensures same { IfOk result (λ ranges. HasSameNumbers ranges runs.items) }
    ensures exact { IfOk result (λ ranges. ranges ≡ canonical_runs runs.items) }
{
    runs.sort_by_key(|run| run.lo)?;
    let mut sweep = Sweep::new(*runs.allocator());
    for run in &runs {
        sweep.take(*run)?;
    }
    Ok(Ranges {
        runs: sweep.finish()?,
    })
}
