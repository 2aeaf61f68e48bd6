//! Indexes of two records, of neighbouring parts, and of six records.
ghost use Rattle.std.specs.Prelude.{◌≡◌, ◌^◌, ◌<◌, ◌≤◌, [], ◌∷◌, ◌++◌, IfOk, length};
ghost use Rattle.path_index.specs.Index.{IsThere, IsWhole};

use growth_marks::{begin, end};
use par_scan::Acts;
use path_index::{Hit, Index, Segment};
use std::alloc::{AllocError, Global};
use std::test::Fail;
use svn_dump::{Act, Kind, Mi, NodeRecord};
use svn_path::{NameId, Path};

const A: NameId = NameId(0);

const B: NameId = NameId(1);

// In place of a path that has not one component.
const OTHER: NameId = NameId(2);

fn path_of(alloc: Global, name: NameId) -> Result<Path, AllocError>
    ensures { IfOk result (λ path. path ≡ name ∷ []) }
{
    Path::of(alloc, [name].as_slice())
}

// `a` is added in revision 1 and copied to `b` in revision 2.
fn index_of_copy(alloc: Global) -> Result<Index, AllocError>
    ensures whole { IfOk result IsWhole }
    ensures there { IfOk result (λ index. IsThere index.records (record { 0 = 1 } ∷ []) 2) }
{
    let a = path_of(alloc, NameId(0))?;
    let added = NodeRecord {
        rev: 1,
        path: a.dup()?,
        act: Act::Add {
            replace: false,
            kind: Kind::Dir,
            mi: Mi::Keep,
        },
    };
    let copied = NodeRecord {
        rev: 2,
        path: path_of(alloc, NameId(1))?,
        act: Act::Copy {
            replace: false,
            from: a,
            from_rev: 1,
            mi: Mi::Keep,
        },
    };
    Index::build(alloc, [added, copied].as_slice(), 0)
}

// Two indexes as one, joined between the marks.
pub(crate) fn joined(alloc: Global, earlier: &Index, later: &Index) -> Result<Index, AllocError>
    requires next { later.now.first ≡ length earlier.now.records }
    requires first { earlier.now.first ≡ 0 }
    ensures records { IfOk result (λ both. both.records ≡ earlier.now.records ++ later.now.records) }
    ensures first { IfOk result (λ both. both.first ≡ earlier.now.first) }
{
    begin(alloc);
    let both = earlier.join(later);
    end(alloc);
    both
}

// An index of these records, built between the marks.
fn built(alloc: Global, records: &[NodeRecord]) -> Result<Index, AllocError>
    requires { length records.now < 2 ^ 32 }
    ensures records { IfOk result (λ index. index.records ≡ records.now) }
    ensures first { IfOk result (λ index. index.first ≡ 0) }
{
    begin(alloc);
    let index = Index::build(alloc, records, 0);
    end(alloc);
    index
}

// An index of these records, joined of those of both halves.
fn of_halves(alloc: Global, records: &[NodeRecord]) -> Result<Index, AllocError>
    requires { length records.now < 2 ^ 32 }
    ensures records { IfOk result (λ index. index.records ≡ records.now) }
    ensures first { IfOk result (λ index. index.first ≡ 0) }
{
    let (front, back) = records.split_at(records.len() / 2);
    let earlier = Index::build(alloc, front, 0)?;
    let later = Index::build(alloc, back, front.len() as u32)?;
    let both = joined(alloc, &earlier, &later);
    drop(later);
    drop(earlier);
    both
}

// An index of the first half of these records, which grows by the second half between the marks.
fn grown(alloc: Global, records: &[NodeRecord]) -> Result<Index, AllocError>
    requires { length records.now < 2 ^ 32 }
    ensures records { IfOk result (λ index. index.records ≡ records.now) }
    ensures first { IfOk result (λ index. index.first ≡ 0) }
{
    let (front, back) = records.split_at(records.len() / 2);
    let earlier = Index::build(alloc, front, 0)?;
    begin(alloc);
    let index = earlier.grow(back);
    end(alloc);
    index
}

// How an index comes to have all records.
#[derive(Clone, Copy)]
pub(crate) enum Making {
    Whole,
    Joined,
    Grown,
}

// An index of these records, which no others precede. It is built, joined or grown between the marks.
fn build(alloc: Global, records: &[NodeRecord], making: Making) -> Result<Index, AllocError>
    requires { length records.now < 2 ^ 32 }
    ensures records { IfOk result (λ index. index.records ≡ records.now) }
    ensures first { IfOk result (λ index. index.first ≡ 0) }
{
    match making {
        Making::Whole => built(alloc, records),
        Making::Joined => of_halves(alloc, records),
        Making::Grown => grown(alloc, records),
    }
}

// `b` in revisions 3, 5 and 6 of: `a` added; `a` deleted; `b` copied from `a` of revision 1; `b` replaced by a copy of
// itself; `b` changed; `b` replaced by a new directory.
pub(crate) fn index_of_replacements(alloc: Global, making: Making) -> Result<Index, AllocError>
    ensures whole { IfOk result IsWhole }
    ensures copied { IfOk result (λ index. IsThere index.records (record { 0 = 1 } ∷ []) 3) }
    ensures changed { IfOk result (λ index. IsThere index.records (record { 0 = 1 } ∷ []) 5) }
    ensures replaced { IfOk result (λ index. IsThere index.records (record { 0 = 1 } ∷ []) 6) }
{
    let a = path_of(alloc, NameId(0))?;
    let b = path_of(alloc, NameId(1))?;
    let mi = Mi::Keep;
    let records = [
        NodeRecord {
            rev: 1,
            path: a.dup()?,
            act: Act::Add {
                replace: false,
                kind: Kind::Dir,
                mi,
            },
        },
        NodeRecord {
            rev: 2,
            path: a.dup()?,
            act: Act::Delete,
        },
        NodeRecord {
            rev: 3,
            path: b.dup()?,
            act: Act::Copy {
                replace: false,
                from: a,
                from_rev: 1,
                mi,
            },
        },
        NodeRecord {
            rev: 4,
            path: b.dup()?,
            act: Act::Copy {
                replace: true,
                from: b.dup()?,
                from_rev: 3,
                mi,
            },
        },
        NodeRecord {
            rev: 5,
            path: b.dup()?,
            act: Act::Change { mi },
        },
        NodeRecord {
            rev: 6,
            path: b,
            act: Act::Add {
                replace: true,
                kind: Kind::Dir,
                mi,
            },
        },
    ];
    build(alloc, records.as_slice(), making)
}

// The only component of a path.
fn name_of(path: Option<&Path>) -> Option<NameId> {
    path.map(|path| match path.parts() {
        [name] => *name,
        _ => OTHER,
    })
}

// Where `b` of a revision was in another one.
fn located(index: &Index, alloc: Global, peg: u32, rev: u32) -> Result<Option<NameId>, AllocError>
    requires whole { IsWhole index.now }
    requires there { IsThere index.now.records (record { 0 = 1 } ∷ []) peg }
{
    let b = path_of(alloc, B)?;
    let found = index.locate(&b, peg, rev);
    drop(b);
    let found = found?;
    let name = name_of(found.as_ref());
    drop(found);
    Ok(name)
}

// The bounds of a segment, and the only component of its path.
type Shape = (u32, u32, Option<NameId>);

fn shapes(alloc: Global, segments: &[Segment]) -> Result<Vec<Shape>, AllocError> {
    let mut shapes = Vec::new(alloc);
    for segment in segments {
        shapes.push((segment.lo, segment.hi, name_of(segment.path.as_ref())))?;
    }
    Ok(shapes)
}

// The segments of `b` of a revision.
fn segments_of(index: &Index, alloc: Global, peg: u32) -> Result<Vec<Shape>, AllocError>
    requires whole { IsWhole index.now }
    requires there { IsThere index.now.records (record { 0 = 1 } ∷ []) peg }
{
    let b = path_of(alloc, B)?;
    let segments = index.segments(&b, peg);
    drop(b);
    let segments = segments?;
    let found = shapes(alloc, segments.as_slice());
    drop(segments);
    found
}

// The operative revisions of `b` of a revision, in a range if there is one.
pub(crate) fn operative_of(
    index: &Index,
    alloc: Global,
    peg: u32,
    range: Option<(u32, u32)>,
) -> Result<Vec<Hit>, AllocError>
    requires whole { IsWhole index.now }
    requires there { IsThere index.now.records (record { 0 = 1 } ∷ []) peg }
{
    let b = path_of(alloc, B)?;
    let segments = index.segments(&b, peg);
    drop(b);
    let segments = segments?;
    let hits = match range {
        Some(_) => index.operative_in(segments.as_slice(), range),
        None => index.operative(segments.as_slice()),
    };
    drop(segments);
    hits
}

#[test]
fn copies_are_located_at_their_source(rt: HostRuntime) -> Result<(), Fail> {
    let index = index_of_copy(rt.alloc())?;
    let before = located(&index, rt.alloc(), 2, 1);
    let first = located(&index, rt.alloc(), 2, 0);
    drop(index);
    assert_eq!(rt; (before?, first?), (Some(A), None));
    Ok(())
}

#[test]
fn segments_end_at_a_copy(rt: HostRuntime) -> Result<(), Fail> {
    let index = index_of_copy(rt.alloc())?;
    let found = segments_of(&index, rt.alloc(), 2);
    drop(index);
    assert_eq!(rt;
        found?.as_slice(),
        [(2, 2, Some(B)), (1, 1, Some(A))].as_slice()
    );
    Ok(())
}

// How many segments and how many operative revisions a path of revision 2 has.
fn counts_of(index: &Index, path: &Path) -> Result<(usize, usize), AllocError>
    requires whole { IsWhole index.now }
    requires there { IsThere index.now.records path.now 2 }
{
    let segments = index.segments(path, 2)?;
    let hits = index.operative(segments.as_slice())?;
    Ok((segments.len(), hits.len()))
}

fn counts_of_copied(index: &Index, alloc: Global) -> Result<(usize, usize), AllocError>
    requires whole { IsWhole index.now }
    requires there { IsThere index.now.records (record { 0 = 1 } ∷ []) 2 }
{
    let b = path_of(alloc, B)?;
    let counts = counts_of(index, &b);
    drop(b);
    counts
}

#[test]
fn a_copied_path_has_two_segments_with_an_operative_revision_each(
    rt: HostRuntime,
) -> Result<(), Fail> {
    let index = index_of_copy(rt.alloc())?;
    let counts = counts_of_copied(&index, rt.alloc());
    drop(index);
    assert_eq!(rt; counts?, (2, 2));
    Ok(())
}

#[test]
fn operative_revisions_of_both_segments_are_found(rt: HostRuntime) -> Result<(), Fail> {
    let index = index_of_copy(rt.alloc())?;
    let found = operative_of(&index, rt.alloc(), 2, None);
    drop(index);
    let wanted = [Hit { rev: 2, segment: 0 }, Hit { rev: 1, segment: 1 }];
    assert_eq!(rt; found?.as_slice(), wanted.as_slice());
    Ok(())
}

#[test]
fn a_gap_is_a_segment(rt: HostRuntime) -> Result<(), Fail> {
    let index = index_of_replacements(rt.alloc(), Making::Whole)?;
    let found = segments_of(&index, rt.alloc(), 3);
    drop(index);
    let wanted = [(3, 3, Some(B)), (2, 2, None), (1, 1, Some(A))];
    assert_eq!(rt; found?.as_slice(), wanted.as_slice());
    Ok(())
}

#[test]
fn a_copy_of_itself_ends_no_segment(rt: HostRuntime) -> Result<(), Fail> {
    let index = index_of_replacements(rt.alloc(), Making::Whole)?;
    let found = segments_of(&index, rt.alloc(), 5);
    drop(index);
    let wanted = [(3, 5, Some(B)), (2, 2, None), (1, 1, Some(A))];
    assert_eq!(rt; found?.as_slice(), wanted.as_slice());
    Ok(())
}

#[test]
fn a_replacement_begins_a_segment(rt: HostRuntime) -> Result<(), Fail> {
    let index = index_of_replacements(rt.alloc(), Making::Whole)?;
    let found = segments_of(&index, rt.alloc(), 6);
    let before = located(&index, rt.alloc(), 6, 5);
    drop(index);
    assert_eq!(rt; found?.as_slice(), [(6, 6, Some(B))].as_slice());
    assert_eq!(rt; before?, None);
    Ok(())
}

#[test]
fn a_log_covers_all_segments(rt: HostRuntime) -> Result<(), Fail> {
    let index = index_of_replacements(rt.alloc(), Making::Whole)?;
    let found = operative_of(&index, rt.alloc(), 5, None);
    drop(index);
    let wanted = [(5, 0), (4, 0), (3, 0), (1, 2)].map(|(rev, segment)| Hit { rev, segment });
    assert_eq!(rt; found?.as_slice(), wanted.as_slice());
    Ok(())
}

// Whether the operative revisions of `b` of revision 5 in this range are so many of them, after so many that are left
// out.
fn has_in_range(
    index: &Index,
    alloc: Global,
    range: (u32, u32),
    skipped: usize,
    count: usize,
) -> Result<bool, AllocError>
    requires whole { IsWhole index.now }
    requires there { IsThere index.now.records (record { 0 = 1 } ∷ []) 5 }
{
    let hits = operative_of(index, alloc, 5, Some(range))?;
    let all = [(5, 0), (4, 0), (3, 0), (1, 2)].map(|(rev, segment)| Hit { rev, segment });
    Ok(all.iter().skip(skipped).take(count).eq(hits.iter()))
}

#[test]
fn a_range_limits_a_log(rt: HostRuntime) -> Result<(), Fail> {
    let index = index_of_replacements(rt.alloc(), Making::Whole)?;
    let mut all_are = true;
    for (range, skipped, count) in [
        ((3, 4), 1, 2),
        ((1, 3), 2, 2),
        ((2, 2), 0, 0),
        ((0, 0), 0, 0),
        ((5, u32::MAX), 0, 1),
        ((0, u32::MAX), 0, 4),
    ] {
        all_are &= has_in_range(&index, rt.alloc(), range, skipped, count).is_ok_and(|are| are);
    }
    drop(index);
    assert!(rt; all_are);
    Ok(())
}

// The newest revisions up to 2, 3, 5 and 6 that set `b`.
fn last_sets(index: &Index, alloc: Global) -> Result<[u32; 4], AllocError>
    requires { IsWhole index.now }
{
    let b = path_of(alloc, B)?;
    let sets = [2, 3, 5, 6].map(|rev| index.last_set(&b, rev));
    drop(b);
    Ok(sets)
}

#[test]
fn a_copy_and_a_replacement_set_a_path(rt: HostRuntime) -> Result<(), Fail> {
    let index = index_of_replacements(rt.alloc(), Making::Whole)?;
    let sets = last_sets(&index, rt.alloc());
    drop(index);
    assert_eq!(rt; sets?, [0, 3, 4, 6]);
    Ok(())
}

// Where `b` of a revision came from.
fn origin_of(
    index: &Index,
    alloc: Global,
    rev: u32,
) -> Result<Option<(Option<NameId>, u32)>, AllocError>
    requires whole { IsWhole index.now }
    requires there { IsThere index.now.records (record { 0 = 1 } ∷ []) rev }
{
    let b = path_of(alloc, B)?;
    let origin = index.origin(&b, rev);
    drop(b);
    let origin = origin?;
    let from = origin
        .as_ref()
        .map(|from| (name_of(Some(&from.path)), from.rev));
    drop(origin);
    Ok(from)
}

#[test]
fn a_path_comes_from_a_copy_or_from_the_revision_before(rt: HostRuntime) -> Result<(), Fail> {
    let index = index_of_replacements(rt.alloc(), Making::Whole)?;
    let copied = origin_of(&index, rt.alloc(), 3);
    let changed = origin_of(&index, rt.alloc(), 5);
    let replaced = origin_of(&index, rt.alloc(), 6);
    drop(index);
    assert_eq!(rt; copied?, Some((Some(A), 1)));
    assert_eq!(rt; (changed?, replaced?), (Some((Some(B), 4)), None));
    Ok(())
}

// An index of a record that adds `a`, which so many others precede.
fn index_of_addition(alloc: Global, first: u32) -> Result<Index, AllocError>
    requires { first ≤ 1 }
{
    let added = NodeRecord {
        rev: 1,
        path: path_of(alloc, A)?,
        act: Act::Add {
            replace: false,
            kind: Kind::Dir,
            mi: Mi::Keep,
        },
    };
    Index::build(alloc, [added].as_slice(), first)
}

// How many records there are up to the end of an index, by which empty index fits behind it; 3 where none of the first
// does.
fn end_of(alloc: Global, index: &Index) -> Result<u32, AllocError> {
    for end in 0..3u32 {
        let next = Index::build(alloc, &[], end)?;
        let fits = index.fits(&next);
        drop(next);
        if fits {
            return Ok(end);
        }
    }
    Ok(3)
}

// How many records there are up to the end of an index, which is dropped.
fn end_of_dropped(alloc: Global, index: Index) -> Result<u32, AllocError> {
    let end = end_of(alloc, &index);
    drop(index);
    end
}

// How many records there are up to the end of an index and one that follows it, joined, if they fit.
fn end_of_joined(alloc: Global, earlier: &Index, later: &Index) -> Result<Option<u32>, AllocError> {
    if !earlier.fits(later) {
        return Ok(None);
    }
    let joined = earlier.join(later)?;
    Ok(Some(end_of_dropped(alloc, joined)?))
}

// How many records there are up to the ends of a copy of an index and of its unit.
fn ends_of_copies(alloc: Global, index: &Index) -> Result<(u32, u32), AllocError> {
    let copied = end_of_dropped(alloc, index.dup()?)?;
    let unit = end_of_dropped(alloc, index.unit()?)?;
    Ok((copied, unit))
}

// How many records there are up to the end of an index of the second of two records, joined to this one, and of both
// joined the other way round.
fn ends_of_neighbours(
    alloc: Global,
    earlier: &Index,
) -> Result<(Option<u32>, Option<u32>), AllocError> {
    let later = index_of_addition(alloc, 1)?;
    let joined = end_of_joined(alloc, earlier, &later);
    let reversed = end_of_joined(alloc, &later, earlier);
    drop(later);
    Ok((joined?, reversed?))
}

#[test]
fn neighbours_are_joined(rt: HostRuntime) -> Result<(), Fail> {
    let earlier = index_of_addition(rt.alloc(), 0)?;
    let copies = ends_of_copies(rt.alloc(), &earlier);
    let joined = ends_of_neighbours(rt.alloc(), &earlier);
    drop(earlier);
    assert_eq!(rt; copies?, (1, 0));
    assert_eq!(rt; joined?, (Some(2), None));
    Ok(())
}

// The source revisions of the copies after one revision and up to another, if there are two.
fn two_sources(index: &Index, above: u32, up_to: u32) -> Option<(u32, u32)>
    requires { IsWhole index.now }
{
    match index.copies_in(above, up_to) {
        [one, later] => Some((one.from_rev, later.from_rev)),
        _ => None,
    }
}

#[test]
fn copies_are_found_by_their_revisions(rt: HostRuntime) -> Result<(), Fail> {
    let index = index_of_replacements(rt.alloc(), Making::Whole)?;
    let found = [(2, 4), (3, 4), (2, 3)].map(|(above, up_to)| two_sources(&index, above, up_to));
    drop(index);
    assert_eq!(rt; found, [Some((1, 3)), None, None]);
    Ok(())
}
