//! Joins and makes of which one fails.
ghost use Rattle.std.specs.Prelude.{ℕ, ◌<◌, ◌≤◌, IfOk, ⊤};
ghost use Rattle.par_scan.specs.Chain.{IsChain};
ghost use Rattle.par_scan.specs.Weightless.{no_weight};
ghost use Rattle.par_scan.specs.Parts.{most_parts};

use par_scan::{Acts, Make, Sum, make_all, scan, total};
use std::alloc::{AllocError, Global};
use std::test::Fail;
use std::thread::Threads;
use test_calls::Calls;

// An element whose joins are counted.
#[derive(Clone, Copy)]
struct Item<'a> {
    calls: &'a Calls,
}

impl<'a> Acts for Item<'a> {
    ghost Point = { ℕ };

    ghost act = { λ _ point. point };

    ghost begin = { λ _. 0 };

    ghost end = { λ _. 0 };

    ghost weight = { λ _. 0 };

    ghost weighs = { λ items joined acts. no_weight items };

    fn fits(&self, later: &Self) -> bool {
        true
    }

    fn unit(&self) -> Result<Self, AllocError> {
        self.dup()
    }

    fn join(&self, later: &Self) -> Result<Self, AllocError> {
        self.calls.call()?;
        Ok(*self)
    }

    fn dup(&self) -> Result<Self, AllocError> {
        Ok(*self)
    }
}

// Makes that are counted.
#[derive(Clone, Copy)]
struct Makes<'a> {
    calls: &'a Calls,
}

impl<'a> Make for Makes<'a> {
    type Item = Sum;

    ghost has = { λ _ i. ⊤ };

    ghost gives = { λ _ i sum. ⊤ };

    fn make(&self, _i: usize) -> Result<Sum, AllocError> {
        self.calls.call()?;
        Ok(Sum(1))
    }
}

fn six(alloc: Global, calls: &Calls) -> Result<Vec<Item<'_>>, Fail>
    ensures { IfOk result (λ items. IsChain (λ _. 0) (λ _. 0) (λ _. 0) items.items) }
{
    let item = Item { calls };
    Ok(Vec::from_slice(alloc, &[item, item, item, item, item, item])?)
}

// Whether a scan of six items fails where one of its joins does, after all its joins have ended.
fn scan_ends<R: Threads + Sync>(
    rt: &R,
    alloc: Global,
    parts: usize,
    failing: usize,
    fails: bool,
) -> Result<bool, Fail>
    requires some { 0 < parts }
    requires few { parts ≤ most_parts }
{
    let calls = Calls::of(failing);
    let has_failed = scan(rt, alloc, six(alloc, &calls)?, parts).is_err();
    Ok(has_failed == fails && calls.have_ended())
}

// Whether a total of six items fails where one of its joins does, after all its joins have ended.
fn total_ends<R: Threads + Sync>(
    rt: &R,
    alloc: Global,
    parts: usize,
    failing: usize,
    fails: bool,
) -> Result<bool, Fail>
    requires some { 0 < parts }
    requires few { parts ≤ most_parts }
{
    let calls = Calls::of(failing);
    let has_failed = total(rt, alloc, six(alloc, &calls)?, parts).is_err();
    Ok(has_failed == fails && calls.have_ended())
}

// Whether making six items fails where one of its makes does, after all its makes have ended.
fn making_ends<R: Threads + Sync>(
    rt: &R,
    alloc: Global,
    parts: usize,
    failing: usize,
    fails: bool,
) -> bool
    requires some { 0 < parts }
    requires few { parts ≤ most_parts }
{
    let calls = Calls::of(failing);
    let makes = Makes { calls: &calls };
    let has_failed = make_all(rt, alloc, &makes, 6, parts).is_err();
    has_failed == fails && calls.have_ended()
}

// Three parts are joined within each, then up to the end of each but the last one, then to what stands before each.
#[test]
fn a_failed_join_of_a_scan_is_answered_after_all_joins(rt: HostRuntime) -> Result<(), Fail> {
    for (parts, joins) in [(1, 5), (3, 8)] {
        for failing in 0..=joins {
            assert!(rt;
                scan_ends(&rt, rt.alloc(), parts, failing, failing < joins)?,
                "{parts} {failing}"
            );
        }
    }
    Ok(())
}

#[test]
fn a_failed_join_of_a_total_is_answered_after_all_joins(rt: HostRuntime) -> Result<(), Fail> {
    for parts in [1, 3] {
        for failing in 0..=5 {
            assert!(rt;
                total_ends(&rt, rt.alloc(), parts, failing, failing < 5)?,
                "{parts} {failing}"
            );
        }
    }
    Ok(())
}

#[test]
fn a_failed_make_is_answered_after_all_makes(rt: HostRuntime) {
    for parts in [1, 3] {
        for failing in 0..=6 {
            assert!(rt;
                making_ends(&rt, rt.alloc(), parts, failing, failing < 6),
                "{parts} {failing}"
            );
        }
    }
}
