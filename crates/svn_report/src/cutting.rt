//! Cutting the revisions of a history into blocks, and sharing the blocks out.
ghost use Rattle.std.specs.Prelude.{◌≡◌, ◌+◌, ◌-◌, ◌^◌, ◌<◌, ◌≤◌, All, IfOk, length};
ghost use Rattle.svn_report.specs.Blocks.{AreBorders};
ghost use Rattle.svn_report.specs.Cutting.{AreBlockEnds, AreGroupBorders, AreBordersLeft, IsGroupEnd, IsShareable, block_length, distance, last_border};

use std::alloc::{AllocError, Global};

/// Revision 0 and the last revision of each block, of `last` revisions from 1 on. Blocks take revisions by the lengths
/// `cuts` in turn; the last length is repeated, and no lengths mean one block.
pub fn block_ends(alloc: Global, cuts: &[u32], last: usize) -> Result<Vec<usize>, AllocError>
    requires cuts { All (λ length. 0 < length) cuts.now }
    requires few_revisions { last < 2 ^ 32 }
    ensures exact { IfOk result (λ ends. AreBlockEnds cuts.now last ends.items) }
    ensures borders { IfOk result (λ ends. AreBorders 0 last ends.items) }
    ensures few { IfOk result (λ ends. length ends.items ≤ last + 1) }
{
    let mut ends = vec![in alloc; 0]?;
    let mut end = 0;
    while end < last {
        end += length_of_block(cuts, last, ends.len() - 1).min(last - end);
        ends.push(end)?;
    }
    Ok(ends)
}

/// How many of all revisions a block takes.
fn length_of_block(cuts: &[u32], all: usize, block: usize) -> usize
    ensures { result ≡ block_length cuts.now all block }
{
    if cuts.is_empty() {
        return all;
    }
    cuts[block.min(cuts.len() - 1)] as usize
}

/// The borders of at most `most` groups of neighbouring blocks, given those of the blocks: how many records come before
/// each block, and how many there are. Where there are more blocks than that, there are exactly `most` groups. Each ends
/// as near to the end of its share of all records as the ends allow that leave a block to each group after it.
pub fn share_out(alloc: Global, borders: &[usize], most: usize) -> Result<Vec<usize>, AllocError>
    requires borders { AreBorders 0 (last_border borders.now) borders.now }
    requires few_records { last_border borders.now < 2 ^ 32 }
    requires some_group { 0 < most }
    requires few_groups { most < 2 ^ 32 }
    ensures exact { IfOk result (λ kept. AreBordersLeft most borders.now kept.items) }
    ensures borders { IfOk result (λ kept. AreBorders 0 (last_border borders.now) kept.items) }
    ensures few { IfOk result (λ kept. length kept.items ≤ most + 1) }
{
    if borders.len() - 1 <= most {
        return Vec::from_slice(alloc, borders);
    }
    group_borders(alloc, borders, most)
}

/// The borders of exactly `most` groups, where there are more blocks than that.
fn group_borders(alloc: Global, borders: &[usize], most: usize) -> Result<Vec<usize>, AllocError>
    requires shareable { IsShareable most borders.now }
    requires some_group { 0 < most }
    requires more_blocks { most + 1 < length borders.now }
    ensures { IfOk result (λ kept. AreGroupBorders most borders.now kept.items) }
{
    let mut kept = vec![in alloc; borders[0]]?;
    let mut place = 0;
    for group in 1..most {
        place = end_of_group(borders, most, group, place);
        kept.push(borders[place])?;
    }
    kept.push(borders[borders.len() - 1])?;
    Ok(kept)
}

/// Where a group ends that begins at the border `start`. The borders rise, so after the first one that is further from
/// the end of the group's share than the one before it, none is nearer.
fn end_of_group(borders: &[usize], most: usize, group: usize, start: usize) -> usize
    requires shareable { IsShareable most borders.now }
    requires group { group < most }
    requires room { start + 1 + (most - group) < length borders.now }
    ensures { IsGroupEnd most borders.now group start result }
{
    let last = borders.len() - 1 - (most - group);
    let mut place = start + 1;
    while place < last
        && distance(borders, most, group, place + 1) <= distance(borders, most, group, place)
    {
        place += 1;
    }
    place
}

/// How far the border at a place is from the end of a group's share, times `most`.
fn distance(borders: &[usize], most: usize, group: usize, place: usize) -> usize
    requires shareable { IsShareable most borders.now }
    requires group { group < most }
    requires place { place < length borders.now }
    ensures { result ≡ distance most borders.now group place }
{
    (most * borders[place]).abs_diff(group * borders[borders.len() - 1])
}
