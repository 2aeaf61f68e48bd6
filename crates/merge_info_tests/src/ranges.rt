//! Small sets of revision numbers.
use range_list::{Ranges, Run};
use std::alloc::Global;
use std::test::Fail;

pub(crate) fn run(lo: u32, hi: u32, inheritable: bool) -> Run {
    Run {
        lo,
        hi,
        inheritable,
    }
}

// The union of these runs.
pub(crate) fn union_of(alloc: Global, given: &[Run]) -> Result<Ranges, Fail> {
    let mut runs = Vec::new(alloc);
    for each in given {
        if each.lo == 0 || each.hi < each.lo || each.hi > 2147483647 {
            Err("not a run")?
        }
        runs.push(*each)?;
    }
    Ok(Ranges::of_runs(runs)?)
}

fn is_union(alloc: Global, given: &[Run], wanted: &[Run]) -> Result<bool, Fail> {
    Ok(union_of(alloc, given)?.runs() == wanted)
}

#[test]
fn runs_in_any_order_are_joined(rt: HostRuntime) -> Result<(), Fail> {
    let given = [
        run(8, 12, false),
        run(5, 9, true),
        run(1, 2, false),
        run(3, 4, false),
        run(10, 10, true),
        run(20, 30, false),
    ];
    let joined = [
        run(1, 4, false),
        run(5, 10, true),
        run(11, 12, false),
        run(20, 30, false),
    ];
    assert!(rt; is_union(rt.alloc(), given.as_slice(), joined.as_slice())?);
    Ok(())
}

#[test]
fn a_non_inheritable_run_goes_round_an_inheritable_one(rt: HostRuntime) -> Result<(), Fail> {
    let given = [run(1, 9, false), run(4, 5, true)];
    let cut = [run(1, 3, false), run(4, 5, true), run(6, 9, false)];
    assert!(rt; is_union(rt.alloc(), given.as_slice(), cut.as_slice())?);
    Ok(())
}

// `3-5,9*`, of which 4 is given both ways.
fn add_all(ranges: &mut Ranges) -> Result<(), Fail> {
    ranges.add(3, 5, true)?;
    ranges.add(4, 4, false)?;
    ranges.add(9, 9, false)?;
    Ok(())
}

pub(crate) fn ranges(alloc: Global) -> Result<Ranges, Fail> {
    let mut ranges = Ranges::new(alloc);
    add_all(&mut ranges)?;
    Ok(ranges)
}

fn has_runs(alloc: Global, wanted: &[Run]) -> Result<bool, Fail> {
    let ranges = ranges(alloc)?;
    Ok(ranges.runs() == wanted && !ranges.is_empty())
}

#[test]
fn a_number_given_both_ways_is_inheritable(rt: HostRuntime) -> Result<(), Fail> {
    let runs = [run(3, 5, true), run(9, 9, false)];
    assert!(rt; has_runs(rt.alloc(), runs.as_slice())?);
    assert!(rt; Ranges::new(rt.alloc()).is_empty());
    Ok(())
}

// How the set has a number.
fn inheritability_of(alloc: Global, rev: u32) -> Result<Option<bool>, Fail> {
    Ok(ranges(alloc)?.has(rev))
}

#[test]
fn numbers_are_looked_up(rt: HostRuntime) -> Result<(), Fail> {
    for (rev, sort) in [
        (2, None),
        (3, Some(true)),
        (4, Some(true)),
        (8, None),
        (9, Some(false)),
        (10, None),
    ] {
        assert!(rt; inheritability_of(rt.alloc(), rev)? == sort, "{rev}");
    }
    Ok(())
}

fn inheritable(alloc: Global) -> Result<Ranges, Fail> {
    Ok(ranges(alloc)?.inheritable()?)
}

fn is_inheritable_part(alloc: Global, wanted: &[Run]) -> Result<bool, Fail> {
    Ok(inheritable(alloc)?.runs() == wanted)
}

#[test]
fn the_inheritable_numbers_are_a_part(rt: HostRuntime) -> Result<(), Fail> {
    let part = [run(3, 5, true)];
    assert!(rt; is_inheritable_part(rt.alloc(), part.as_slice())?);
    Ok(())
}

// These bytes, after which the inheritable runs of a set are written.
fn inheritable_after(alloc: Global, before: &[u8], given: &[Run]) -> Result<Vec<u8>, Fail> {
    let ranges = union_of(alloc, given)?;
    let mut out = Vec::from_slice(alloc, before)?;
    ranges.write_inheritable(&mut out)?;
    Ok(out)
}

fn has_inheritable(alloc: Global, given: &[Run]) -> Result<bool, Fail> {
    Ok(union_of(alloc, given)?.has_inheritable())
}

#[test]
fn the_inheritable_runs_are_printed(rt: HostRuntime) -> Result<(), Fail> {
    let given = [
        run(1, 1, false),
        run(3, 5, true),
        run(6, 7, false),
        run(9, 9, true),
    ];
    let wanted = b"/a:3-5,9".as_slice();
    assert!(rt; inheritable_after(rt.alloc(), b"/a:", given.as_slice())?.as_slice() == wanted);
    assert!(rt; has_inheritable(rt.alloc(), given.as_slice())?);
    assert!(rt; !has_inheritable(rt.alloc(), &[run(6, 7, false)])?);
    Ok(())
}

// The set and an inheritable 9.
fn union_with_nine(alloc: Global, ranges: &Ranges) -> Result<Ranges, Fail> {
    let mut nine = Ranges::new(alloc);
    nine.add(9, 9, true)?;
    Ok(ranges.union(&nine)?)
}

fn has_nine(alloc: Global, wanted: &[Run]) -> Result<bool, Fail> {
    let ranges = ranges(alloc)?;
    Ok(union_with_nine(alloc, &ranges)?.runs() == wanted)
}

#[test]
fn a_union_makes_a_number_inheritable(rt: HostRuntime) -> Result<(), Fail> {
    let both = [run(3, 5, true), run(9, 9, true)];
    assert!(rt; has_nine(rt.alloc(), both.as_slice())?);
    Ok(())
}

fn add_the_greatest(ranges: &mut Ranges) -> Result<(), Fail> {
    ranges.add(1, 2147483647, true)?;
    ranges.add(2147483647, 2147483647, false)?;
    Ok(())
}

fn is_kept_to_the_greatest(alloc: Global, wanted: &[Run]) -> Result<bool, Fail> {
    let mut ranges = Ranges::new(alloc);
    add_the_greatest(&mut ranges)?;
    Ok(ranges.dup()?.runs() == wanted)
}

#[test]
fn the_greatest_number_is_kept(rt: HostRuntime) -> Result<(), Fail> {
    let all = [run(1, 2147483647, true)];
    assert!(rt; is_kept_to_the_greatest(rt.alloc(), all.as_slice())?);
    Ok(())
}

// These bytes, after which the text of a set is written.
fn written_after(alloc: Global, before: &[u8], ranges: &Ranges) -> Result<Vec<u8>, Fail> {
    let mut out = Vec::from_slice(alloc, before)?;
    ranges.write(&mut out)?;
    Ok(out)
}

fn is_printed_as(alloc: Global, wanted: &[u8]) -> Result<bool, Fail> {
    let ranges = ranges(alloc)?;
    Ok(written_after(alloc, b"/a:", &ranges)?.as_slice() == wanted)
}

#[test]
fn a_rangelist_is_printed(rt: HostRuntime) -> Result<(), Fail> {
    let empty = Ranges::new(rt.alloc());
    assert!(rt; is_printed_as(rt.alloc(), b"/a:3-5,9*")?);
    assert!(rt; written_after(rt.alloc(), b"/a:", &empty)?.as_slice() == b"/a:".as_slice());
    Ok(())
}
