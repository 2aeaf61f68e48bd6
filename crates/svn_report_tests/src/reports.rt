//! Reports on small histories.

use query_pool::NoGate;
use sample_dumps::{
    AT_SIGN, COPIED_MERGEINFO, DELETE_AND_COPY, DELETED_MERGEINFO, DUMPED, EMPTY, FIRST, GONE,
    MERGED, MERGEINFO_TEXTS, MOVES, NESTED, REPLACE, REPLACED, SPARSE, copies_of_the_root, joined,
};
use std::alloc::{AllocError, Global};
use std::random::RandomSource;
use std::sync::Wait;
use std::test::Fail;
use std::thread::Threads;
use svn_report::{RunError, report};
use svn_text::push_number;

/// A dump, queries about it, and their report.
#[derive(Clone, Copy)]
struct Row {
    dump: &'static [u8],
    queries: &'static [u8],
    report: &'static [u8],
}

const LOCATIONS: [Row; 11] = [
    Row {
        dump: EMPTY,
        queries: b"",
        report: b"",
    },
    Row {
        dump: EMPTY,
        queries: b"locate\t@0\t0",
        report: b"#1 ok\n/\n",
    },
    Row {
        dump: FIRST,
        queries: b"locate\ttrunk@2\t1\nlocate\t/b@2\t1\nlocate\tb@2\t0\n",
        report: b"#1 ok\n/trunk\n#2 ok\n/trunk\n#3 ok\n-\n",
    },
    // The revision follows the last at sign.
    Row {
        dump: AT_SIGN,
        queries: b"locate\ta@b@1\t1\nlocate\t//a@b/@01\t1\n",
        report: b"#1 ok\n/a@b\n#2 ok\n/a@b\n",
    },
    // A copy takes along what is below its source.
    Row {
        dump: MOVES,
        queries: b"locate\t/A/b@2\t1\nlocate\tA/b@1\t1",
        report: b"#1 ok\n/T/b\n#2 no-such-path\n",
    },
    Row {
        dump: NESTED,
        queries: b"locate\tn/q/s@3\t2\nlocate\tn/q/s@3\t1\nlocate\tm/q/s@3\t1\nlocate\tm/q@3\t1",
        report: b"#1 ok\n/p/q/s\n#2 ok\n/z/s\n#3 no-such-path\n#4 ok\n/p/q\n",
    },
    // A deleted path can be copied.
    Row {
        dump: GONE,
        queries: b"locate\tb/x@3\t1\nlocate\tb/x@3\t2\nlocate\ta/x@2\t1",
        report: b"#1 ok\n/a/x\n#2 ok\n-\n#3 no-such-path\n",
    },
    Row {
        dump: MERGED,
        queries: b"locate\tbranches/b@8\t3\nlocate\tbranches/b@8\t2\nlocate\tbranches/b@8\t0\nlocate\tbranches/b@8\t9\nlocate\tbranches/b@8\t8\n",
        report: b"#1 ok\n-\n#2 ok\n/trunk\n#3 ok\n-\n#4 ok\n-\n#5 ok\n/branches/b\n",
    },
    Row {
        dump: REPLACED,
        queries: b"locate\ta/x@2\t1\n",
        report: b"#1 ok\n/a/x\n",
    },
    Row {
        dump: FIRST,
        queries: b"locate\ttrunk@3\t1\nlocate\tnope@2\t1\nlocate\ttrunk@2\t9\nlocate\tb@1\t1",
        report: b"#1 no-such-revision\n#2 no-such-path\n#3 ok\n-\n#4 no-such-path\n",
    },
    // Blocks may have no records.
    Row {
        dump: SPARSE,
        queries: b"segments\t/b@6\nlog\t/b@6\nlocate\t/b@6\t3\nlocate\t/b@6\t1\n",
        report: b"#1 ok\n5-6 /b\n2-4 /a\n#2 ok\nr5 /b\nr2 /a\n#3 ok\n/a\n#4 ok\n-\n",
    },
];

const SEGMENTS: [Row; 5] = [
    Row {
        dump: MERGED,
        queries: b"segments\t/branches/b@8\n",
        report: b"#1 ok\n4-8 /branches/b\n3-3 -\n1-2 /trunk\n",
    },
    Row {
        dump: MOVES,
        queries: b"segments\t/A/b@2",
        report: b"#1 ok\n2-2 /A/b\n1-1 /T/b\n",
    },
    Row {
        dump: REPLACED,
        queries: b"segments\t/a/x@2",
        report: b"#1 ok\n1-2 /a/x\n",
    },
    // A copy of an older revision lacks later paths.
    Row {
        dump: NESTED,
        queries: b"segments\t/n/q/s@3\nsegments\t/m/q/s@3",
        report: b"#1 ok\n3-3 /n/q/s\n2-2 /p/q/s\n1-1 /z/s\n#2 no-such-path\n",
    },
    Row {
        dump: EMPTY,
        queries: b"segments\t/@0",
        report: b"#1 ok\n0-0 /\n",
    },
];

const LOGS: [Row; 5] = [
    Row {
        dump: MERGED,
        queries: b"log\t/branches/b@8\n",
        report: b"#1 ok\nr5 /branches/b\nr4 /branches/b\nr2 /trunk\nr1 /trunk\n",
    },
    Row {
        dump: MERGED,
        queries: b"log\t/@10\n",
        report: b"#1 ok\nr10 /\nr9 /\nr8 /\nr7 /\nr6 /\nr5 /\nr4 /\nr3 /\nr2 /\nr1 /\n",
    },
    Row {
        dump: MERGED,
        queries: b"log\t/trunk@8\n",
        report: b"#1 ok\nr8 /trunk\nr7 /trunk\nr6 /trunk\nr3 /trunk\nr2 /trunk\nr1 /trunk\n",
    },
    Row {
        dump: REPLACED,
        queries: b"log\t/a/x@2\nlog\t/a@2",
        report: b"#1 ok\nr1 /a/x\n#2 ok\nr2 /a\nr1 /a\n",
    },
    Row {
        dump: EMPTY,
        queries: b"log\t/@0",
        report: b"#1 ok\n",
    },
];

const MERGES: [Row; 7] = [
    // The nearest path that has mergeinfo decides.
    Row {
        dump: MERGED,
        queries: b"mergeinfo\t/branches@9\nmergeinfo\t/branches/b@9\nmergeinfo\t/branches/b@10\nmergeinfo\t/trunk@6\n",
        report: b"#1 ok\n/trunk:3*,6\n#2 ok\n/trunk/b:6\n#3 ok\n#4 ok\n",
    },
    Row {
        dump: COPIED_MERGEINFO,
        queries: b"mergeinfo\t/c@2\nmergeinfo\t/d@3\n",
        report: b"#1 ok\n/s:4\n#2 ok\n",
    },
    Row {
        dump: DELETED_MERGEINFO,
        queries: b"mergeinfo\t/c@2\nmergeinfo\t/c@3\nmergeinfo\t/t@3\nmergeinfo\t/d@1\nmergeinfo\t/e@1\n",
        report: b"#1 ok\n/s:4\n#2 ok\n#3 ok\n/s:4\n#4 ok\n#5 ok\n/s:4\n",
    },
    // Each value is printed in one form.
    Row {
        dump: MERGEINFO_TEXTS,
        queries: b"mergeinfo\t/c@1\nmergeinfo\t/d@1\nmergeinfo\t/e@1\nmerged\t/d@1\t/c@1\nlog\t/c@1\n",
        report: b"#1 malformed-mergeinfo\n#2 ok\n/a:b:1-2147483647\n#3 ok\n/a:3-7\n#4 malformed-mergeinfo\n#5 ok\nr1 /c\n",
    },
    Row {
        dump: MERGED,
        queries: b"merged\t/branches/b@8\t/trunk@8\nmerged\t/trunk@9\t/branches@9\nmerged\t/trunk@6\t/trunk@6\n",
        report: b"#1 ok\nr5\n#2 ok\nr3*\nr6\n#3 ok\n",
    },
    // What belongs to the target's own history depends on its path in each revision.
    Row {
        dump: MERGED,
        queries: b"eligible\t/branches/b@8\t/trunk@6\neligible\t/branches/b@8\t/trunk@8\neligible\t/trunk@8\t/branches/b@8\n",
        report: b"#1 ok\nr4\nr5\n#2 ok\nr4\n#3 ok\nr3\nr6\nr7\nr8\n",
    },
    Row {
        dump: MERGED,
        queries: b"eligible\t/trunk@8\t/trunk@8\neligible\t/trunk@9\t/branches@9\n",
        report: b"#1 ok\n#2 ok\nr1\nr2\nr7\nr8\n",
    },
];

const RANGES: [Row; 3] = [
    Row {
        dump: MERGED,
        queries: b"log\t/branches/b@8\t2:4\neligible\t/trunk@8\t/branches/b@8\t4:7\nlog\t/trunk@8\t4:2\n",
        report: b"#1 ok\nr4 /branches/b\nr2 /trunk\n#2 ok\nr6\nr7\n#3 bad-query\n",
    },
    Row {
        dump: MERGED,
        queries: b"merged\t/trunk@9\t/branches@9\t3:3\nlog\t/trunk@8\t0:99\neligible\t/trunk@8\t/branches/b@8\t9:9\n",
        report: b"#1 ok\nr3*\n#2 ok\nr8 /trunk\nr7 /trunk\nr6 /trunk\nr3 /trunk\nr2 /trunk\nr1 /trunk\n#3 ok\n",
    },
    // A range of another form is refused before the path.
    Row {
        dump: MERGED,
        queries: b"segments\t/trunk@8\t1:2\nlog\t/nope@8\t4:2\nlog\t/trunk@8\t3-3\nlog\t/trunk@8\t1:2147483648\nlog\t/trunk@8\t1:2\t1:2\nlog\t/nope@8\t2:4\n",
        report: b"#1 bad-query\n#2 bad-query\n#3 bad-query\n#4 bad-query\n#5 bad-query\n#6 no-such-path\n",
    },
];

const REFUSED: [Row; 4] = [
    Row {
        dump: FIRST,
        queries: b"\nblame\ttrunk@2\nlocate\ttrunk@2\nlocate\ttrunk\t1\nlocate\ta/../b@2\t1\n",
        report: b"#1 bad-query\n#2 bad-query\n#3 bad-query\n#4 bad-query\n#5 bad-query\n",
    },
    Row {
        dump: FIRST,
        queries: b"locate\ttrunk@2147483648\t1\nlocate\ttrunk@\t1\nlocate\ttrunk@2\t\nlocate\ttrunk@2\t1\t\nlocate trunk@2 1",
        report: b"#1 bad-query\n#2 bad-query\n#3 bad-query\n#4 bad-query\n#5 bad-query\n",
    },
    // The source is refused before the target.
    Row {
        dump: MERGED,
        queries: b"merged\t/nope@8\t/trunk@99\nmerged\t/trunk@8\t/branches@11\neligible\t/branches/b@8\t/branches/nope@8\nmerged\t/nope@8\t/../trunk@8\nmerged\t/nope@8\t/trunk@99",
        report: b"#1 no-such-path\n#2 no-such-revision\n#3 no-such-path\n#4 bad-query\n#5 no-such-path\n",
    },
    Row {
        dump: MERGED,
        queries: b"\nblame\t/trunk@8\nlog\ttrunk\nlog\ttrunk@\nlocate\ttrunk@8\nlog\ta/../b@8\nlog\ttrunk@11\nlog\tnope@8\nsegments\t/trunk@8\t1\nsegments",
        report: b"#1 bad-query\n#2 bad-query\n#3 bad-query\n#4 bad-query\n#5 bad-query\n#6 bad-query\n#7 no-such-revision\n#8 no-such-path\n#9 bad-query\n#10 bad-query\n",
    },
];

const REPLACEMENTS: &[u8] =
    b"locate\tb@3\t3\nlocate\tb@3\t2\nlocate\tb@3\t1\nlocate\tb@3\t0\nsegments\tb@3\nlog\tb@3\n";

const REPLACEMENTS_REPORT: &[u8] =
    b"#1 ok\n/b\n#2 ok\n/trunk\n#3 ok\n/trunk\n#4 ok\n-\n#5 ok\n3-3 /b\n1-2 /trunk\n#6 ok\nr3 /b\nr1 /trunk\n";

/// The report of one worker over one block.
pub(crate) fn report_of<R: RandomSource + Threads + Wait + Sync>(
    rt: &R,
    alloc: Global,
    dump: &[u8],
    queries: &[u8],
) -> Result<Vec<u8>, RunError> {
    report(rt, alloc, dump, queries, &[], 1, &NoGate)
}

/// Whether the report is the wanted one, however the history is cut into blocks and however many workers there are.
fn reports<R: RandomSource + Threads + Wait + Sync>(
    rt: &R,
    alloc: Global,
    dump: &[u8],
    queries: &[u8],
    wanted: &[u8],
) -> Result<bool, RunError> {
    for cuts in [[].as_slice(), &[1], &[2, 1], &[3]] {
        for workers in [1, 3, 64] {
            let found = report(rt, alloc, dump, queries, cuts, workers, &NoGate)?;
            if found.as_slice() != wanted {
                return Ok(false);
            }
        }
    }
    Ok(true)
}

/// The first queries that have another report.
fn first_wrong<R: RandomSource + Threads + Wait + Sync>(
    rt: &R,
    alloc: Global,
    rows: &[Row],
) -> Result<Option<&'static [u8]>, RunError> {
    for row in rows {
        if !reports(rt, alloc, row.dump, row.queries, row.report)? {
            return Ok(Some(row.queries));
        }
    }
    Ok(None)
}

#[test]
fn paths_are_located(rt: HostRuntime) -> Result<(), Fail> {
    assert_eq!(rt; first_wrong(&rt, rt.alloc(), LOCATIONS.as_slice())?, None);
    Ok(())
}

#[test]
fn segments_are_listed_from_the_newest(rt: HostRuntime) -> Result<(), Fail> {
    assert_eq!(rt; first_wrong(&rt, rt.alloc(), SEGMENTS.as_slice())?, None);
    Ok(())
}

#[test]
fn operative_revisions_are_listed_from_the_newest(rt: HostRuntime) -> Result<(), Fail> {
    assert_eq!(rt; first_wrong(&rt, rt.alloc(), LOGS.as_slice())?, None);
    Ok(())
}

#[test]
fn merges_are_answered_by_the_mergeinfo(rt: HostRuntime) -> Result<(), Fail> {
    assert_eq!(rt; first_wrong(&rt, rt.alloc(), MERGES.as_slice())?, None);
    Ok(())
}

#[test]
fn ranges_limit_the_lines_of_results(rt: HostRuntime) -> Result<(), Fail> {
    assert_eq!(rt; first_wrong(&rt, rt.alloc(), RANGES.as_slice())?, None);
    Ok(())
}

#[test]
fn wrong_queries_have_a_status(rt: HostRuntime) -> Result<(), Fail> {
    assert_eq!(rt; first_wrong(&rt, rt.alloc(), REFUSED.as_slice())?, None);
    Ok(())
}

// Whether the replacement that these records make is located at its source.
fn is_replacement_located<R: RandomSource + Threads + Wait + Sync>(
    rt: &R,
    alloc: Global,
    records: &[u8],
) -> Result<bool, RunError> {
    let dump = joined(alloc, DUMPED, records)?;
    reports(
        rt,
        alloc,
        dump.as_slice(),
        REPLACEMENTS,
        REPLACEMENTS_REPORT,
    )
}

#[test]
fn replacements_are_located_at_their_source(rt: HostRuntime) -> Result<(), Fail> {
    for records in [DELETE_AND_COPY, REPLACE] {
        assert!(rt; is_replacement_located(&rt, rt.alloc(), records)?);
    }
    Ok(())
}

// Appends `/x` and a number.
fn push_name(query: &mut Vec<u8>, number: u32) -> Result<(), AllocError> {
    query.extend_from_slice(b"/x")?;
    push_number(query, u64::from(number))
}

// The question where the path through so many copies of the root was in a revision.
fn query_about_copies(alloc: Global, count: u32, rev: u32) -> Result<Vec<u8>, AllocError> {
    let mut query = Vec::from_slice(alloc, b"locate\t")?;
    for before in 0..count {
        push_name(&mut query, count - before)?;
    }
    query.push(b'@')?;
    push_number(&mut query, u64::from(count))?;
    query.push(b'\t')?;
    push_number(&mut query, u64::from(rev))?;
    Ok(query)
}

// Whether the path through so many copies of the root was at this one in a revision.
fn is_path_through_copies<R: RandomSource + Threads + Wait + Sync>(
    rt: &R,
    alloc: Global,
    dump: &[u8],
    count: u32,
    rev: u32,
    wanted: &[u8],
) -> Result<bool, RunError> {
    let query = query_about_copies(alloc, count, rev)?;
    reports(rt, alloc, dump, query.as_slice(), wanted)
}

// Whether it was the root in revision 0, and the first copy in revision 1.
fn was_root_then_first_copy<R: RandomSource + Threads + Wait + Sync>(
    rt: &R,
    alloc: Global,
    dump: &[u8],
    count: u32,
) -> Result<bool, RunError> {
    for (rev, wanted) in [(0, b"#1 ok\n/\n".as_slice()), (1, b"#1 ok\n/x1\n")] {
        if !is_path_through_copies(rt, alloc, dump, count, rev, wanted)? {
            return Ok(false);
        }
    }
    Ok(true)
}

// Whether the locations in the dump of so many copies are found.
fn are_copies_located<R: RandomSource + Threads + Wait + Sync>(
    rt: &R,
    alloc: Global,
    count: u32,
) -> Result<bool, RunError> {
    let dump = copies_of_the_root(alloc, count)?;
    let was_there = was_root_then_first_copy(rt, alloc, dump.as_slice(), count);
    drop(dump);
    was_there
}

// A path through copies may have more components than a record of a dump may name.
#[test]
fn copies_in_copies_are_located_at_their_sources(rt: HostRuntime) -> Result<(), Fail> {
    for count in [40, 1100] {
        assert!(rt; are_copies_located(&rt, rt.alloc(), count)?, "{count}");
    }
    Ok(())
}

#[test]
fn a_million_queries_are_answered(rt: HostRuntime) -> Result<(), Fail> {
    let queries = vec![in rt.alloc(); b'\n'; 1_000_000]?;
    let found = report_of(&rt, rt.alloc(), FIRST, queries.as_slice())?;
    assert!(rt; found.ends_with(b"#1000000 bad-query\n"));
    Ok(())
}
