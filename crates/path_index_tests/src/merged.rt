//! What the history `MERGED` is, record by record, and what an index of it says of `branches/b`.
ghost use Rattle.std.specs.Prelude.{◌≡◌, IfOk, IsTrue};
ghost use Rattle.svn_dump.specs.declared.record.Kind.{Kind};
ghost use Rattle.path_index.specs.Index.{IsThere, IsWhole};
ghost use Rattle.path_index_tests.specs.Merged.{added, changed, copied, deleted, text_put};
ghost use Rattle.path_index_tests.specs.Merged.{all_records, first_records, last_records, the_branch, IsIndexOf};

use path_index::{Hit, Index, Segment};
use std::alloc::{AllocError, Global};
use std::test::Fail;
use svn_dump::{Act, Kind, Mi, NodeRecord, ValueId};
use svn_path::{NameId, Path};

const TRUNK: NameId = NameId(0);

const BRANCHES: NameId = NameId(1);

const F: NameId = NameId(2);

const B: NameId = NameId(3);

// Whether a path has these components.
fn is_path(path: &Path, wanted: &[NameId]) -> bool
    ensures { IsTrue result → path.now ≡ wanted.now }
{
    path.parts() == wanted
}

// Whether a record is of this revision and path.
fn is_of(each: &NodeRecord, rev: u32, path: &[NameId]) -> bool
    ensures rev { IsTrue result → each.now.rev ≡ rev }
    ensures path { IsTrue result → each.now.path ≡ path.now }
{
    each.rev == rev && is_path(&each.path, path)
}

fn adds_dir(each: &NodeRecord, rev: u32, path: &[NameId]) -> bool
    ensures { IsTrue result → each.now ≡ added rev path.now Kind.Dir }
{
    match each.act {
        Act::Add {
            replace: false,
            kind: Kind::Dir,
            mi: Mi::Keep,
        } => is_of(each, rev, path),
        _ => false,
    }
}

fn adds_file(each: &NodeRecord, rev: u32, path: &[NameId]) -> bool
    ensures { IsTrue result → each.now ≡ added rev path.now Kind.File }
{
    match each.act {
        Act::Add {
            replace: false,
            kind: Kind::File,
            mi: Mi::Keep,
        } => is_of(each, rev, path),
        _ => false,
    }
}

fn changes(each: &NodeRecord, rev: u32, path: &[NameId]) -> bool
    ensures { IsTrue result → each.now ≡ changed rev path.now Mi.Keep }
{
    match each.act {
        Act::Change { mi: Mi::Keep } => is_of(each, rev, path),
        _ => false,
    }
}

// Whether it puts the mergeinfo text of this number.
fn puts(each: &NodeRecord, rev: u32, path: &[NameId], text: u32) -> bool
    ensures { IsTrue result → each.now ≡ changed rev path.now (text_put text) }
{
    match each.act {
        Act::Change {
            mi: Mi::Put(Some(ValueId(found))),
        } => found == text && is_of(each, rev, path),
        _ => false,
    }
}

fn copies(each: &NodeRecord, rev: u32, path: &[NameId], source: &[NameId], source_rev: u32) -> bool
    ensures { IsTrue result → each.now ≡ copied rev path.now source.now source_rev }
{
    match &each.act {
        Act::Copy {
            replace: false,
            from,
            from_rev,
            mi: Mi::Keep,
        } => *from_rev == source_rev && is_path(from, source) && is_of(each, rev, path),
        _ => false,
    }
}

fn deletes(each: &NodeRecord, rev: u32, path: &[NameId]) -> bool
    ensures { IsTrue result → each.now ≡ deleted rev path.now }
{
    match each.act {
        Act::Delete => is_of(each, rev, path),
        _ => false,
    }
}

// Whether these are the records of the revisions 1 to 5.
fn are_first(records: &[NodeRecord]) -> bool
    ensures { IsTrue result → records.now ≡ first_records }
{
    match records {
        [one, two, three, four, five, six] => {
            adds_dir(one, 1, &[TRUNK])
                && adds_dir(two, 1, &[BRANCHES])
                && adds_file(three, 2, &[TRUNK, F])
                && changes(four, 3, &[TRUNK, F])
                && copies(five, 4, &[BRANCHES, B], &[TRUNK], 2)
                && changes(six, 5, &[BRANCHES, B, F])
        }
        _ => false,
    }
}

// Whether these are the records of the revisions 6 to 10.
fn are_last(records: &[NodeRecord]) -> bool
    ensures { IsTrue result → records.now ≡ last_records }
{
    match records {
        [one, two, three, four, five] => {
            changes(one, 6, &[TRUNK, F])
                && puts(two, 7, &[TRUNK], 0)
                && deletes(three, 8, &[TRUNK, F])
                && puts(four, 9, &[BRANCHES], 1)
                && puts(five, 10, &[BRANCHES, B], 2)
        }
        _ => false,
    }
}

// Two parts of the records: those of the revisions 1 to 5, and those after them.
pub(crate) fn parts_of(records: &[NodeRecord]) -> Result<(&[NodeRecord], &[NodeRecord]), Fail>
    ensures first { IfOk result (λ parts. parts.0.now ≡ first_records) }
    ensures last { IfOk result (λ parts. parts.1.now ≡ last_records) }
{
    let (first, last) = records.split_at(records.len().min(6));
    if !are_first(first) || !are_last(last) {
        return Err("the records are others")?;
    }
    Ok((first, last))
}

// The path `branches/b`.
fn branch(alloc: Global) -> Result<Path, AllocError>
    ensures { IfOk result (λ path. path ≡ the_branch) }
{
    Path::of(alloc, [BRANCHES, B].as_slice())
}

fn is_at(path: Option<&Path>, wanted: Option<&[NameId]>) -> bool {
    path.map(|path| path.parts()) == wanted
}

fn is_segment(segment: &Segment, lo: u32, hi: u32, path: Option<&[NameId]>) -> bool {
    segment.lo == lo && segment.hi == hi && is_at(segment.path.as_ref(), path)
}

// Whether these are the segments of `branches/b` of this revision, which is one from 4 to 10.
fn are_segments(segments: &[Segment], peg: u32) -> bool {
    match segments {
        [here, gap, source] => {
            is_segment(here, 4, peg, Some(&[BRANCHES, B]))
                && is_segment(gap, 3, 3, None)
                && is_segment(source, 1, 2, Some(&[TRUNK]))
        }
        _ => false,
    }
}

// Whether an index says what it should of the segments of `branches/b` of this revision, which is one from 5 to 8, and
// of their operative revisions.
fn has_segments(index: &Index, alloc: Global, peg: u32) -> Result<bool, AllocError>
    requires whole { IsWhole index.now }
    requires there { IsThere index.now.records the_branch peg }
{
    let path = branch(alloc)?;
    let segments = index.segments(&path, peg);
    drop(path);
    let segments = segments?;
    let are_segments = are_segments(segments.as_slice(), peg);
    let hits = index.operative(segments.as_slice());
    drop(segments);
    let wanted = [(5, 0), (4, 0), (2, 2), (1, 2)].map(|(rev, segment)| Hit { rev, segment });
    Ok(hits?.as_slice() == wanted.as_slice() && are_segments)
}

// Whether it finds that `branches/b` of such a revision was `trunk` in revision 1.
fn finds_trunk(index: &Index, alloc: Global, peg: u32) -> Result<bool, AllocError>
    requires whole { IsWhole index.now }
    requires there { IsThere index.now.records the_branch peg }
{
    let path = branch(alloc)?;
    let found = index.locate(&path, peg, 1);
    drop(path);
    let found = found?;
    let is_trunk = is_at(found.as_ref(), Some(&[TRUNK]));
    drop(found);
    Ok(is_trunk)
}

// Whether an index of the first part says what it should.
pub(crate) fn says_all_of_first(index: &Index, alloc: Global) -> Result<bool, AllocError>
    requires { IsIndexOf first_records 0 index.now }
{
    Ok(has_segments(index, alloc, 5)? && finds_trunk(index, alloc, 5)?)
}

// Whether an index of all records says what it should.
pub(crate) fn says_all(index: &Index, alloc: Global) -> Result<bool, AllocError>
    requires { IsIndexOf all_records 0 index.now }
{
    Ok(has_segments(index, alloc, 8)? && finds_trunk(index, alloc, 8)?)
}
