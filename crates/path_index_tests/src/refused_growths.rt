//! What indexes say after a growth was refused, and scans of which growths are refused.
ghost use Rattle.std.specs.Prelude.{◌≡◌, ◌+◌, ◌^◌, ◌<◌, ◌≤◌};
ghost use Rattle.par_scan.specs.Parts.{most_parts};
ghost use Rattle.path_index_tests.specs.Merged.{first_records, last_records, IsIndexOf};

use crate::indexes::{Making, index_of_replacements, joined, operative_of};
use crate::merged::{parts_of, says_all, says_all_of_first};
use growth_marks::{begin, end};
use par_scan::{Acts, Make, Sum, make_all, scan};
use path_index::{Hit, Index};
use sample_dumps::MERGED;
use std::alloc::{AllocError, Global};
use std::test::Fail;
use std::thread::Threads;
use svn_dump::{NodeRecord, read};

// `index_of_replacements` builds, joins or grows its index between the marks.
#[test]
fn refused_growths_make_no_other_index(rt: HostRuntime) -> Result<(), Fail> {
    for making in [Making::Whole, Making::Joined, Making::Grown] {
        if let Ok(index) = index_of_replacements(rt.alloc(), making) {
            let hits = operative_of(&index, rt.alloc(), 5, None);
            drop(index);
            let wanted = [(5, 0), (4, 0), (3, 0), (1, 2)].map(|(rev, segment)| Hit {
                rev,
                segment,
            });
            assert_eq!(rt; hits?.as_slice(), wanted.as_slice());
        }
    }
    Ok(())
}

// Whether two indexes joined between the marks say together what they should, or memory ran out.
fn are_joined(alloc: Global, earlier: &Index, later: &Index) -> Result<bool, AllocError>
    requires earlier { IsIndexOf first_records 0 earlier.now }
    requires later { IsIndexOf last_records 6 later.now }
{
    let Ok(both) = joined(alloc, earlier, later) else {
        return Ok(true);
    };
    let says = says_all(&both, alloc);
    drop(both);
    says
}

fn are_joined_again(alloc: Global, earlier: &Index, later: &Index) -> Result<bool, AllocError>
    requires earlier { IsIndexOf first_records 0 earlier.now }
    requires later { IsIndexOf last_records 6 later.now }
{
    let both = earlier.join(later)?;
    let says = says_all(&both, alloc);
    drop(both);
    says
}

// Whether they do so, and so do afterwards the earlier one alone and both, joined again.
fn stand_after_join(alloc: Global, earlier: &Index, later: &Index) -> Result<bool, AllocError>
    requires earlier { IsIndexOf first_records 0 earlier.now }
    requires later { IsIndexOf last_records 6 later.now }
{
    let are_joined = are_joined(alloc, earlier, later)?;
    let stands = says_all_of_first(earlier, alloc)?;
    Ok(are_joined && stands && are_joined_again(alloc, earlier, later)?)
}

// Whether the index of the first part and that of these records are joined and stand so.
fn last_is_joined(alloc: Global, earlier: &Index, last: &[NodeRecord]) -> Result<bool, AllocError>
    requires earlier { IsIndexOf first_records 0 earlier.now }
    requires last { last.now ≡ last_records }
{
    let later = Index::build(alloc, last, 6)?;
    let stand = stand_after_join(alloc, earlier, &later);
    drop(later);
    stand
}

fn parts_are_joined(alloc: Global, records: &[NodeRecord]) -> Result<bool, Fail> {
    let (first, last) = parts_of(records)?;
    let earlier = Index::build(alloc, first, 0)?;
    let stand = last_is_joined(alloc, &earlier, last);
    drop(earlier);
    Ok(stand?)
}

#[test]
fn refused_growths_leave_joined_indexes_as_they_were(rt: HostRuntime) -> Result<(), Fail> {
    let dump = read(rt.alloc(), MERGED)?;
    let stand = parts_are_joined(rt.alloc(), dump.records());
    drop(dump);
    assert!(rt; stand?);
    Ok(())
}

// Item i is i + 1.
#[derive(Drop)]
struct Successors;

impl Make for Successors {
    type Item = Sum;

    ghost has = { λ _ i. i < 2 ^ 32 };

    ghost gives = { λ _ i sum. sum.0 ≡ i + 1 };

    fn make(&self, i: usize) -> Result<Sum, AllocError> {
        Ok(Sum(i as u64 + 1))
    }
}

// Whether the sums are these, or memory ran out.
fn are_sums(sums: Result<Vec<Sum>, AllocError>, wanted: &[Sum]) -> bool {
    match sums {
        Ok(sums) => sums.as_slice() == wanted,
        Err(AllocError) => true,
    }
}

fn are_made<R: Threads + Sync>(rt: &R, alloc: Global, parts: usize) -> bool
    requires some { 0 < parts }
    requires few { parts ≤ most_parts }
{
    begin(alloc);
    let made = make_all(rt, alloc, &Successors, 4, parts);
    end(alloc);
    are_sums(made, &[Sum(1), Sum(2), Sum(3), Sum(4)])
}

fn are_scanned<R: Threads + Sync>(rt: &R, alloc: Global, parts: usize) -> Result<bool, Fail>
    requires some { 0 < parts }
    requires few { parts ≤ most_parts }
{
    let items = Vec::from_slice(alloc, &[Sum(1), Sum(2), Sum(3), Sum(4)])?;
    begin(alloc);
    let sums = scan(rt, alloc, items, parts);
    end(alloc);
    Ok(are_sums(sums, &[Sum(1), Sum(3), Sum(6), Sum(10)]))
}

#[test]
fn refused_growths_make_and_scan_no_other_sums(rt: HostRuntime) -> Result<(), Fail> {
    for parts in 1..=4 {
        assert!(rt; are_made(&rt, rt.alloc(), parts), "{parts}");
        assert!(rt; are_scanned(&rt, rt.alloc(), parts)?, "{parts}");
    }
    Ok(())
}
