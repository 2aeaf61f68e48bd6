//! How a path holds neighbouring revisions.
ghost use Rattle.std.specs.Prelude.{◌≡◌, ◌+◌, ◌-◌, [], ◌∷◌, ◌++◌, All, IfOk, IfSome, OnOk, Some, codes, decimal, length, map, replicate};
ghost use Rattle.svn_text.specs.Line.{line_text};
ghost use Rattle.svn_path.specs.Components.{path_text};
ghost use Rattle.svn_path.specs.Path.{IsPathOf, components_of};
ghost use Rattle.range_list.specs.Canonical.{run_of_one};
ghost use Rattle.range_list.specs.Rangelist.{IsRun, inheritability_of};
ghost use Rattle.branch_answer.specs.Holding.{in_part_below};
ghost use Rattle.branch_answer.specs.KeptHolding.{holding_by, holding_view};
ghost use Rattle.branch_answer.specs.KeptHoldings.{AreMarked, HoldsRuns, IsPartOf, held_text, holdings_text, mark_of, texts_of};
ghost use Rattle.branch_answer.specs.KeptNew.{AreNewOnly, AreNumbers, held_run, held_runs_from};
ghost use Rattle.branch_answer.specs.declared.holding.Holding.TheVariants.{Not};

use crate::holding::Holding;
use path_index::RevisionRange;
use range_list::{Ranges, Run};
use std::alloc::{AllocError, Global};
use svn_path::{Names, Path};
use svn_text::{GREATEST_REVISION, push_number};

/// How a path holds the revisions from `first` on, of which there are as many as `how` has elements.
#[derive(Drop)]
pub(crate) struct Holdings {
    pub(crate) first: u32,
    pub(crate) how: Vec<Holding>,
}

impl Holdings {
    /// The revisions from `first` to `last`, and none if there are none. Not one of them is held.
    pub(crate) fn new(alloc: Global, first: u32, last: u32) -> Result<Self, AllocError>
        ensures first { IfOk result (λ new. new.first ≡ first) }
        ensures how { IfOk result (λ new. new.how.items ≡ replicate (last + 1 - first) Not) }
    {
        let count = (last as usize + 1).saturating_sub(first as usize);
        Ok(Holdings {
            first,
            how: Vec::from_elem(alloc, Holding::Not, count)?,
        })
    }

    /// Marks a revision, if it is among these: it is held at least so.
    fn mark_one(&mut self, rev: u32, how: Holding)
        ensures { AreMarked self.old self.new (mark_of (rev ∷ []) (λ _. how)) }
    {
        if rev < self.first {
            return;
        }
        let index = (rev - self.first) as usize;
        if index < self.how.len() {
            self.how[index] = self.how[index].or_stronger(how);
        }
    }

    /// Marks those of these revisions that are in the list.
    pub(crate) fn mark(&mut self, revs: &[u32], how: Holding)
        ensures { AreMarked self.old self.new (mark_of revs.now (λ _. how)) }
    {
        for rev in revs {
            self.mark_one(*rev, how);
        }
    }

    /// Marks those of these revisions that are in the list, if the ranges have them: as `whole` where they are
    /// inheritable, and as `part` otherwise.
    pub(crate) fn mark_merged(
        &mut self,
        revs: &[u32],
        ranges: &Ranges,
        whole: Holding,
        part: Holding,
    )
        ensures { AreMarked self.old self.new
            (mark_of revs.now (λ rev. holding_by whole part (inheritability_of ranges.now rev))) }
    {
        for rev in revs {
            self.mark_one(*rev, Holding::by_mergeinfo(ranges.has(*rev), whole, part));
        }
    }

    /// The first and the last of these revisions between the first number of the ranges and the last one.
    pub(crate) fn part(&self, ranges: &Ranges) -> Option<RevisionRange>
        ensures within { IfSome result (IsPartOf self.now) }
        ensures whole { HoldsRuns self.now ranges.now result }
    {
        let (first, last) = (ranges.runs().first()?, ranges.runs().last()?);
        let lo = self.first.max(first.lo);
        let end = (u64::from(self.first) + self.how.len() as u64).min(u64::from(last.hi) + 1);
        if u64::from(lo) < end {
            Some((lo, (end - 1) as u32))
        } else {
            None
        }
    }

    /// Appends a line for each revision that is held, the newest first. The paths below are those of the indices.
    pub(crate) fn append(
        &self,
        names: &Names,
        below: &[Path],
        out: &mut Vec<u8>,
    ) -> Result<(), AllocError>
        requires { All (IsPathOf names.now) below.now }
        ensures { OnOk result (out.new.items ≡ out.old.items ++ holdings_text
            (texts_of names.now below.now) self.now.first self.now.how.items) }
    {
        let first = u64::from(self.first);
        let mut left = self.how.len();
        'revisions: while left > 0 {
            left -= 1;
            append_held(first + left as u64, self.how[left], names, below, out)?;
        }
        Ok(())
    }

    /// Keeps those of which more is held than by `one`, but for those of the ranges.
    pub(crate) fn keep_new(&mut self, one: &Holdings, uncounted: &Ranges)
        requires same { length one.now.how.items ≡ length self.old.how.items }
        requires numbers { AreNumbers self.old }
        ensures { AreNewOnly one.now uncounted.now self.old self.new }
    {
        for index in 0..self.how.len() {
            let rev = self.first + index as u32;
            self.how[index] = self.how[index].beyond(one.how[index], uncounted.has(rev).is_some());
        }
    }

    /// Those that are held, each as a run that is inheritable where all of the revision is held.
    pub(crate) fn runs(&self, alloc: Global) -> Result<Vec<Run>, AllocError>
        requires { AreNumbers self.now }
        ensures runs { IfOk result (λ runs. All IsRun runs.items) }
        ensures held { IfOk result (λ runs. runs.items
            ≡ held_runs_from self.now.first (map (holding_view []) self.now.how.items)) }
    {
        let mut runs = Vec::new(alloc);
        for (index, how) in self.how.iter().enumerate() {
            push_held(self.first + index as u32, *how, &mut runs)?;
        }
        Ok(runs)
    }
}

/// Pushes the run of a revision, if it is held.
fn push_held(rev: u32, how: Holding, runs: &mut Vec<Run>) -> Result<(), AllocError>
    ensures run { OnOk result (All IsRun (held_run rev (holding_view [] how))) }
    ensures held { OnOk result (runs.new.items ≡ runs.old.items ++ held_run rev (holding_view [] how)) }
{
    match how {
        Holding::Not => Ok(()),
        Holding::Below(_) => push_run(rev, false, runs),
        Holding::InPart => push_run(rev, false, runs),
        Holding::Merged => push_run(rev, true, runs),
        Holding::InHistory => push_run(rev, true, runs),
    }
}

/// Pushes the run of a revision. There is none of 0, which no path holds, nor of one above the greatest revision.
fn push_run(rev: u32, inheritable: bool, runs: &mut Vec<Run>) -> Result<(), AllocError>
    ensures run { OnOk result (IsRun (run_of_one rev inheritable)) }
    ensures held { OnOk result (runs.new.items ≡ runs.old.items ++ run_of_one rev inheritable ∷ []) }
{
    if rev == 0 || u64::from(rev) > GREATEST_REVISION {
        return Err(AllocError);
    }
    runs.push(Run {
        lo: rev,
        hi: rev,
        inheritable,
    })?;
    Ok(())
}

/// Appends the line of a revision, if it is held.
fn append_held(
    rev: u64,
    how: Holding,
    names: &Names,
    below: &[Path],
    out: &mut Vec<u8>,
) -> Result<(), AllocError>
    requires { All (IsPathOf names.now) below.now }
    ensures { OnOk result (out.new.items
        ≡ out.old.items ++ held_text rev (holding_view (texts_of names.now below.now) how)) }
{
    match how {
        Holding::Not => Ok(()),
        Holding::Below(index) => match below.get(index as usize) {
            Some(path) => append_below(rev, path, names, out),
            None => append_line(rev, b"in-part-below ".as_slice(), out),
        },
        Holding::InPart => append_line(rev, b"in-part".as_slice(), out),
        Holding::Merged => append_line(rev, b"merged".as_slice(), out),
        Holding::InHistory => append_line(rev, b"history".as_slice(), out),
    }
}

/// Appends a line with a revision and a word.
fn append_line(rev: u64, word: &[u8], out: &mut Vec<u8>) -> Result<(), AllocError>
    ensures { OnOk result (out.new.items ≡ out.old.items ++ line_text (decimal rev ++ codes " " ++ word.now)) }
{
    push_number(out, rev)?;
    out.push(b' ')?;
    out.extend_from_slice(word)?;
    out.push(b'\n')?;
    Ok(())
}

/// Appends the line of a revision that mergeinfo of a path below has.
fn append_below(rev: u64, path: &Path, names: &Names, out: &mut Vec<u8>) -> Result<(), AllocError>
    requires { IsPathOf names.now path.now }
    ensures { OnOk result (out.new.items
        ≡ out.old.items ++ held_text rev (Some (in_part_below (path_text (components_of names.now path.now))))) }
{
    push_number(out, rev)?;
    out.push(b' ')?;
    out.extend_from_slice(b"in-part-below ".as_slice())?;
    path.write(names, out)?;
    out.push(b'\n')?;
    Ok(())
}
