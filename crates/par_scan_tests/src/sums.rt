//! Sums of small numbers.
ghost use Rattle.std.specs.Prelude.{◌≡◌, ◌+◌, ◌^◌, ◌<◌, IfOk};
ghost use Rattle.par_scan.specs.Chain.{IsChain};
ghost use Rattle.par_scan.specs.Sum.{no_border, sum_weight};

use par_scan::{Acts, Make, Sum, make_all, scan, total};
use std::alloc::{AllocError, Global};
use std::test::Fail;

// 1, 2, 3 and 4.
fn four(alloc: Global) -> Result<Vec<Sum>, Fail>
    ensures { IfOk result (λ sums. IsChain no_border no_border sum_weight sums.items) }
{
    Ok(Vec::from_slice(alloc, &[Sum(1), Sum(2), Sum(3), Sum(4)])?)
}

// Item i is i + 1.
#[derive(Drop)]
struct Successors;

impl Make for Successors {
    type Item = Sum;

    ghost has = { λ _ i. i < 2 ^ 32 };

    ghost gives = { λ _ i sum. sum.0 ≡ i + 1 };

    fn make(&self, i: usize) -> Result<Sum, AllocError> {
        Ok(Sum(i as u64 + 1))
    }
}

#[test]
fn three_sums_are_scanned(rt: HostRuntime) -> Result<(), Fail> {
    let items = Vec::from_slice(rt.alloc(), &[Sum(1), Sum(2), Sum(3)])?;
    let scanned = scan(&rt, rt.alloc(), items, 2)?;
    assert_eq!(rt; scanned.as_slice(), [Sum(1), Sum(3), Sum(6)].as_slice());
    Ok(())
}

#[test]
fn four_sums_are_scanned(rt: HostRuntime) -> Result<(), Fail> {
    for parts in [1, 2, 3, 4, 5, 64] {
        let scanned = scan(&rt, rt.alloc(), four(rt.alloc())?, parts)?;
        assert_eq!(rt;
            scanned.as_slice(),
            [Sum(1), Sum(3), Sum(6), Sum(10)].as_slice()
        );
    }
    Ok(())
}

#[test]
fn four_sums_have_a_total(rt: HostRuntime) -> Result<(), Fail> {
    for parts in [1, 2, 3, 4, 5, 64] {
        let all = total(&rt, rt.alloc(), four(rt.alloc())?, parts)?;
        assert_eq!(rt; all, Some(Sum(10)));
    }
    Ok(())
}

#[test]
fn no_items_have_no_total(rt: HostRuntime) -> Result<(), Fail> {
    let none: Vec<Sum> = Vec::new(rt.alloc());
    assert!(rt; scan(&rt, rt.alloc(), none, 3)?.is_empty());
    let none: Vec<Sum> = Vec::new(rt.alloc());
    assert_eq!(rt; total(&rt, rt.alloc(), none, 3)?, None);
    Ok(())
}

#[test]
fn items_are_made_by_their_numbers(rt: HostRuntime) -> Result<(), Fail> {
    for parts in [1, 2, 3, 4, 5, 64] {
        let made = make_all(&rt, rt.alloc(), &Successors, 4, parts)?;
        assert_eq!(rt;
            made.as_slice(),
            [Sum(1), Sum(2), Sum(3), Sum(4)].as_slice()
        );
    }
    assert!(rt; make_all(&rt, rt.alloc(), &Successors, 0, 2)?.is_empty());
    Ok(())
}

#[test]
fn a_unit_and_a_like_sum(rt: HostRuntime) -> Result<(), Fail> {
    assert_eq!(rt; (Sum(4).unit()?, Sum(4).dup()?), (Sum(0), Sum(4)));
    assert!(rt; Sum(u64::MAX - 4).fits(&Sum(4)) && !Sum(u64::MAX - 3).fits(&Sum(4)));
    Ok(())
}

#[test]
fn sums_that_are_given_away_are_joined(rt: HostRuntime) -> Result<(), Fail> {
    assert_eq!(rt; Sum(4).append(Sum(3))?, Sum(7));
    Ok(())
}
