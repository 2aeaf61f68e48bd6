//! Joins and makes that wait for each other, so that all of them meet only where threads run at once.
ghost use Rattle.std.specs.Prelude.{ℕ, ◌<◌, ◌≤◌, IfOk, ⊤};
ghost use Rattle.par_scan.specs.Chain.{IsChain};
ghost use Rattle.par_scan.specs.Weightless.{no_weight};
ghost use Rattle.par_scan.specs.Parts.{most_parts};

use par_scan::{Acts, Make, make_all, scan, total};
use std::alloc::{AllocError, Global};
use std::test::Fail;
use std::thread::Threads;
use test_calls::Meeting;

// How often a call looks for the others.
const MOST_LOOKS: u32 = 1_000_000;

// An element of so many neighbours, whose joins attend a meeting. Where the neighbours are told apart, only the join of
// two single ones attends whose first has an even number.
#[derive(Clone, Copy)]
struct Item<'a> {
    meeting: &'a Meeting,
    number: usize,
    count: usize,
    are_told_apart: bool,
}

impl<'a> Item<'a> {
    // The element of a number alone.
    fn single(meeting: &'a Meeting, number: usize, are_told_apart: bool) -> Item<'a> {
        Item {
            meeting,
            number,
            count: 1,
            are_told_apart,
        }
    }

    fn is_pair_with(&self, later: &Item<'a>) -> bool {
        self.count == 1 && later.count == 1 && self.number % 2 == 0
    }
}

impl<'a> Acts for Item<'a> {
    ghost Point = { ℕ };

    ghost act = { λ _ point. point };

    ghost begin = { λ _. 0 };

    ghost end = { λ _. 0 };

    ghost weight = { λ _. 0 };

    ghost weighs = { λ items joined acts. no_weight items };

    fn fits(&self, later: &Self) -> bool {
        true
    }

    fn unit(&self) -> Result<Self, AllocError> {
        self.dup()
    }

    fn join(&self, later: &Self) -> Result<Self, AllocError> {
        if !self.are_told_apart || self.is_pair_with(later) {
            self.meeting.attend();
        }
        Ok(Item {
            count: self.count.saturating_add(later.count),
            ..*self
        })
    }

    fn dup(&self) -> Result<Self, AllocError> {
        Ok(*self)
    }
}

// Each make attends the meeting, but for those of the numbers from 1 to `absent`.
#[derive(Clone, Copy)]
struct Makes<'a> {
    meeting: &'a Meeting,
    absent: usize,
}

impl<'a> Make for Makes<'a> {
    type Item = Item<'a>;

    ghost has = { λ _ i. ⊤ };

    ghost gives = { λ _ i item. ⊤ };

    fn make(&self, i: usize) -> Result<Item<'a>, AllocError> {
        if i == 0 || i > self.absent {
            self.meeting.attend();
        }
        Ok(Item::single(self.meeting, i, false))
    }
}

// n items, whose makes attend no meeting; the neighbours of four are told apart.
fn items<'a>(alloc: Global, meeting: &'a Meeting, n: usize) -> Result<Vec<Item<'a>>, Fail>
    ensures { IfOk result (λ items. IsChain (λ _. 0) (λ _. 0) (λ _. 0) items.items) }
{
    let mut items = Vec::new(alloc);
    for number in 0..n {
        items.push(Item::single(meeting, number, n == 4))?;
    }
    Ok(items)
}

// How many of the first joins of a scan of n items met, of so many guests.
fn met_in_scan<R: Threads + Sync>(
    rt: &R,
    alloc: Global,
    n: usize,
    parts: usize,
    guests: usize,
) -> Result<usize, Fail>
    requires some { 0 < parts }
    requires few { parts ≤ most_parts }
{
    let meeting = Meeting::of(guests, MOST_LOOKS);
    let scanned = scan(rt, alloc, items(alloc, &meeting, n)?, parts)?;
    Ok(if scanned.len() == n { meeting.met() } else { 0 })
}

// How many of the first joins of a total of n items met, of so many guests.
fn met_in_total<R: Threads + Sync>(
    rt: &R,
    alloc: Global,
    n: usize,
    parts: usize,
    guests: usize,
) -> Result<usize, Fail>
    requires some { 0 < parts }
    requires few { parts ≤ most_parts }
{
    let meeting = Meeting::of(guests, MOST_LOOKS);
    let all = total(rt, alloc, items(alloc, &meeting, n)?, parts)?;
    Ok(if all.is_some() { meeting.met() } else { 0 })
}

// How many makes of n items met, where those of the numbers from 1 to `absent` do not attend.
fn met_in_makes<R: Threads + Sync>(
    rt: &R,
    alloc: Global,
    n: usize,
    parts: usize,
    guests: usize,
    absent: usize,
) -> Result<usize, Fail>
    requires some { 0 < parts }
    requires few { parts ≤ most_parts }
{
    let meeting = Meeting::of(guests, MOST_LOOKS);
    let makes = Makes {
        meeting: &meeting,
        absent,
    };
    let made = make_all(rt, alloc, &makes, n, parts)?;
    Ok(if made.len() == n { meeting.met() } else { 0 })
}

#[test]
fn the_joins_of_two_pairs_meet(rt: HostRuntime) -> Result<(), Fail> {
    assert_eq!(rt; met_in_scan(&rt, rt.alloc(), 4, 2, 2)?, 2);
    assert_eq!(rt; met_in_total(&rt, rt.alloc(), 4, 2, 2)?, 2);
    Ok(())
}

#[test]
fn the_first_make_and_the_last_one_meet(rt: HostRuntime) -> Result<(), Fail> {
    assert_eq!(rt; met_in_makes(&rt, rt.alloc(), 4, 2, 2, 2)?, 2);
    Ok(())
}

#[test]
fn a_join_of_each_part_meets_the_others(rt: HostRuntime) -> Result<(), Fail> {
    for parts in [2, 3, 8] {
        assert_eq!(rt; met_in_scan(&rt, rt.alloc(), 40, parts, parts)?, parts);
        assert_eq!(rt; met_in_total(&rt, rt.alloc(), 40, parts, parts)?, parts);
    }
    Ok(())
}

#[test]
fn a_make_of_each_part_meets_the_others(rt: HostRuntime) -> Result<(), Fail> {
    for parts in [2, 3, 8] {
        assert_eq!(rt; met_in_makes(&rt, rt.alloc(), 40, parts, parts, 0)?, parts);
    }
    Ok(())
}

// One guest more than there are parts can't meet the others, since no more threads than parts run at once.
#[test]
fn no_more_threads_run_than_parts(rt: HostRuntime) -> Result<(), Fail> {
    for parts in [2, 3] {
        assert!(rt; met_in_scan(&rt, rt.alloc(), 40, parts, parts + 1)? <= parts);
        assert!(rt; met_in_total(&rt, rt.alloc(), 40, parts, parts + 1)? <= parts);
        assert!(rt; met_in_makes(&rt, rt.alloc(), 40, parts, parts + 1, 0)? <= parts);
    }
    Ok(())
}
