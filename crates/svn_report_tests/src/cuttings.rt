//! Cutting histories into blocks, and sharing the blocks out.
ghost use Rattle.std.specs.Prelude.{◌^◌, ◌<◌, All, IfOk};
ghost use Rattle.svn_report.specs.Blocks.{AreBorders};
ghost use Rattle.svn_report.specs.Cutting.{last_border};

use crate::reports::report_of;
use query_pool::NoGate;
use std::alloc::{AllocError, Global};
use std::test::Fail;
use svn_report::{block_ends, report, share_out};
use svn_text::push_number;

// Whether revision 0 and the last revisions of blocks are the wanted ones.
fn ends_are(alloc: Global, cuts: &[u32], last: usize, wanted: &[usize]) -> Result<bool, AllocError>
    requires cuts { All (λ length. 0 < length) cuts.now }
    requires last { last < 2 ^ 32 }
{
    let ends = block_ends(alloc, cuts, last)?;
    Ok(ends.as_slice() == wanted)
}

#[test]
fn blocks_take_revisions_by_the_lengths_in_turn(rt: HostRuntime) -> Result<(), Fail> {
    assert!(rt; ends_are(rt.alloc(), &[1], 3, &[0, 1, 2, 3])?);
    assert!(rt; ends_are(rt.alloc(), &[2, 1], 6, &[0, 2, 3, 4, 5, 6])?);
    assert!(rt; ends_are(rt.alloc(), &[3], 7, &[0, 3, 6, 7])?);
    assert!(rt; ends_are(rt.alloc(), &[1, 4], 6, &[0, 1, 5, 6])?);
    Ok(())
}

#[test]
fn no_lengths_mean_one_block(rt: HostRuntime) -> Result<(), Fail> {
    assert!(rt; ends_are(rt.alloc(), &[], 7, &[0, 7])?);
    assert!(rt; ends_are(rt.alloc(), &[8], 7, &[0, 7])?);
    assert!(rt; ends_are(rt.alloc(), &[], 0, &[0])?);
    assert!(rt; ends_are(rt.alloc(), &[2], 0, &[0])?);
    Ok(())
}

// The borders between blocks of so many records, of at most 1000 in all.
fn borders_of(alloc: Global, counts: &[u8]) -> Result<Vec<usize>, AllocError>
    ensures borders { IfOk result (λ borders. AreBorders 0 (last_border borders.items) borders.items) }
    ensures few { IfOk result (λ borders. last_border borders.items < 2 ^ 32) }
{
    let mut borders = vec![in alloc; 0]?;
    let mut end = 0;
    for count in counts {
        end = (end + usize::from(*count)).min(1000);
        borders.push(end)?;
    }
    Ok(borders)
}

// Whether the borders that are left of blocks of so many records are the wanted ones.
fn shares_are(
    alloc: Global,
    counts: &[u8],
    most: usize,
    wanted: &[usize],
) -> Result<bool, AllocError>
    requires some { 0 < most }
    requires few { most < 2 ^ 32 }
{
    let borders = borders_of(alloc, counts)?;
    let kept = share_out(alloc, borders.as_slice(), most)?;
    Ok(kept.as_slice() == wanted)
}

// Numbers of records of blocks, and the borders that are left for 8 groups.
const EIGHT_GROUPS: [(&[u8], &[usize]); 5] = [
    (
        &[1, 1, 1, 1, 1, 1, 1, 1, 1, 1],
        &[0, 1, 3, 4, 5, 6, 8, 9, 10],
    ),
    (&[1, 1, 1, 1, 1, 1, 1, 1, 1], &[0, 1, 2, 3, 5, 6, 7, 8, 9]),
    (&[1, 1, 1, 1, 1, 1, 1, 1], &[0, 1, 2, 3, 4, 5, 6, 7, 8]),
    (&[5, 0, 7], &[0, 5, 5, 12]),
    (&[], &[0]),
];

#[test]
fn more_blocks_than_groups_are_taken_together(rt: HostRuntime) -> Result<(), Fail> {
    for (counts, wanted) in EIGHT_GROUPS {
        assert!(rt; shares_are(rt.alloc(), counts, 8, wanted)?);
    }
    Ok(())
}

// The sizes of blocks, and the borders of 3 groups of them.
const THREE_GROUPS: [(&[u8], &[usize]); 5] = [
    (&[1, 1, 90, 1, 1, 1], &[0, 2, 92, 95]),
    (&[90, 1, 1, 1], &[0, 90, 91, 93]),
    (&[1, 1, 1, 90], &[0, 2, 3, 93]),
    (&[0, 0, 6, 0, 0, 6, 6, 0], &[0, 6, 12, 18]),
    (&[0, 0, 0, 0], &[0, 0, 0, 0]),
];

#[test]
fn groups_are_nearly_equal_in_records(rt: HostRuntime) -> Result<(), Fail> {
    for (counts, wanted) in THREE_GROUPS {
        assert!(rt; shares_are(rt.alloc(), counts, 3, wanted)?);
    }
    Ok(())
}

// Appends a revision that adds a file.
fn push_revision(dump: &mut Vec<u8>, rev: u32) -> Result<(), AllocError> {
    dump.extend_from_slice(b"Revision-number: ")?;
    push_number(dump, u64::from(rev))?;
    dump.extend_from_slice(b"\n\nNode-path: f")?;
    push_number(dump, u64::from(rev))?;
    dump.extend_from_slice(b"\nNode-kind: file\nNode-action: add\n\n")
}

// A dump of so many revisions, each of which adds a file.
fn long_dump(alloc: Global, last: u32) -> Result<Vec<u8>, AllocError> {
    let start = b"SVN-fs-dump-format-version: 2\n\nRevision-number: 0\n\n";
    let mut dump = Vec::from_slice(alloc, start)?;
    for before in 0..last {
        push_revision(&mut dump, before + 1)?;
    }
    Ok(dump)
}

#[test]
fn a_long_history_is_cut_too(rt: HostRuntime) -> Result<(), Fail> {
    let dump = long_dump(rt.alloc(), 1100)?;
    let queries = b"log\t/@1100\nlog\t/f1025@1100\nsegments\t/f3@1100\nlocate\t/f7@9\t7\n";
    let wanted = report_of(&rt, rt.alloc(), dump.as_slice(), queries)?;
    let found = report(&rt, rt.alloc(), dump.as_slice(), queries, &[1], 3, &NoGate)?;
    assert!(rt; found == wanted && found.ends_with(b"#4 ok\n/f7\n"));
    Ok(())
}
