//! Queries and answers on small dumps.
use crate::answered::check_report;
use crate::repository::repo_of;
use crate::samples::INHERITED;
use query_answer::Query;
use sample_dumps::{FIRST, MERGED, MERGEINFO_TEXTS};
use std::alloc::Global;
use std::test::Fail;
use std::thread::Threads;
use svn_path::Names;

#[test]
fn other_lines_are_bad_queries(rt: HostRuntime) {
    for line in [
        "",
        "blame\t/trunk@8",
        "log\ttrunk",
        "log\ttrunk@",
        "locate\ttrunk@8",
        "log\ta/../b@8",
    ] {
        assert!(rt;
            matches!(Query::read(line.as_bytes()), Query::Bad),
            "{line}"
        );
    }
}

#[test]
fn each_verb_has_its_lines(rt: HostRuntime) -> Result<(), Fail> {
    let lines = "locate\tb@2\t1\nsegments\tb@2\nlog\tb@2";
    let wanted = "#1 ok\n/trunk\n#2 ok\n2-2 /b\n1-1 /trunk\n#3 ok\nr2 /b\nr1 /trunk\n";
    check_report(&rt, rt.alloc(), FIRST, lines, wanted)
}

#[test]
fn a_peg_needs_its_revision_and_its_path(rt: HostRuntime) -> Result<(), Fail> {
    let lines = "log\tb@3\nlog\tb@1\nlog\ta/../b@2";
    let wanted = "#1 no-such-revision\n#2 no-such-path\n#3 bad-query\n";
    check_report(&rt, rt.alloc(), FIRST, lines, wanted)
}

// How many names there are, and whether two are among them.
fn found_names(names: &Names) -> (usize, bool, bool) {
    (
        names.len(),
        names.find(b"trunk").is_some(),
        names.find(b"b").is_some(),
    )
}

fn names_of<R: Threads + Sync>(
    rt: &R,
    alloc: Global,
    dump: &[u8],
) -> Result<(usize, bool, bool), Fail> {
    let repo = repo_of(rt, alloc, dump)?;
    let found = found_names(repo.names());
    drop(repo);
    Ok(found)
}

#[test]
fn a_repository_has_the_names_of_its_paths(rt: HostRuntime) -> Result<(), Fail> {
    assert_eq!(rt; names_of(&rt, rt.alloc(), FIRST)?, (2, true, true));
    Ok(())
}

#[test]
fn mergeinfo_is_that_of_the_nearest_path(rt: HostRuntime) -> Result<(), Fail> {
    let lines = "mergeinfo\ta@1\nmergeinfo\ta/b@1\nmergeinfo\ta/d@1";
    let wanted = "#1 ok\n/s:1*,2\n#2 ok\n/s/b:2\n#3 ok\n";
    check_report(&rt, rt.alloc(), INHERITED, lines, wanted)
}

#[test]
fn malformed_mergeinfo_has_its_status(rt: HostRuntime) -> Result<(), Fail> {
    let lines = "mergeinfo\tc@1\nlog\tc@1";
    let wanted = "#1 malformed-mergeinfo\n#2 ok\nr1 /c\n";
    check_report(&rt, rt.alloc(), INHERITED, lines, wanted)
}

#[test]
fn a_backward_range_is_malformed(rt: HostRuntime) -> Result<(), Fail> {
    let wanted = "#1 malformed-mergeinfo\n";
    check_report(&rt, rt.alloc(), MERGEINFO_TEXTS, "mergeinfo\t/c@1", wanted)
}

#[test]
fn an_answer_is_numbered_from_one(rt: HostRuntime) -> Result<(), Fail> {
    let wanted = "#1 ok\n4-8 /branches/b\n3-3 -\n1-2 /trunk\n";
    check_report(&rt, rt.alloc(), MERGED, "segments\t/branches/b@8", wanted)
}

#[test]
fn merges_are_compared_by_location(rt: HostRuntime) -> Result<(), Fail> {
    let lines = "merged\t/trunk@9\t/branches@9\neligible\t/trunk@8\t/branches/b@8";
    let wanted = "#1 ok\nr3*\nr6\n#2 ok\nr3\nr6\nr7\nr8\n";
    check_report(&rt, rt.alloc(), MERGED, lines, wanted)
}

// Whether a line asks for the log of this path and this revision.
fn is_log_of(line: &str, path: &[u8], rev: u32) -> bool {
    match &Query::read(line.as_bytes()) {
        Query::Log { of, .. } => of.path() == path && of.rev() == rev,
        _ => false,
    }
}

#[test]
fn a_peg_has_the_bytes_of_its_path_and_its_revision(rt: HostRuntime) -> Result<(), Fail> {
    assert!(rt; is_log_of("log\t//a@b/@07", b"//a@b/", 7));
    assert!(rt; !is_log_of("log\t//a@b/@07", b"/a@b", 7));
    Ok(())
}

// The range of a line, if the line asks about one.
fn range_of(line: &str) -> Option<(u32, u32)> {
    match &Query::read(line.as_bytes()) {
        Query::Log { range, .. } | Query::Merged { range, .. } | Query::Eligible { range, .. } => {
            *range
        }
        _ => None,
    }
}

#[test]
fn a_range_has_two_revisions(rt: HostRuntime) -> Result<(), Fail> {
    assert_eq!(rt; range_of("log\t/a@8\t2:4"), Some((2, 4)));
    assert_eq!(rt; range_of("merged\t/a@8\t/b@8\t0:0"), Some((0, 0)));
    assert_eq!(rt;
        range_of("eligible\t/a@8\t/b@8\t007:2147483647"),
        Some((7, 2147483647))
    );
    assert_eq!(rt; range_of("log\t/a@8"), None);
    Ok(())
}

// How many of these lines are bad queries.
fn bad_lines(lines: &[&str]) -> usize {
    lines
        .iter()
        .filter(|line| matches!(Query::read(line.as_bytes()), Query::Bad))
        .count()
}

#[test]
fn a_range_of_another_form_is_bad(rt: HostRuntime) -> Result<(), Fail> {
    let lines = [
        "log\t/a@8\t2:1",
        "log\t/a@8\t",
        "log\t/a@8\t:",
        "log\t/a@8\t1:",
        "log\t/a@8\t:2",
        "log\t/a@8\t+1:2",
        "log\t/a@8\t1: 2",
        "log\t/a@8\t1:2:3",
        "log\t/a@8\t1::2",
        "log\t/a@8\t1-2",
        "log\t/a@8\t1",
        "log\t/a@8\t1:2\r",
        "log\t/a@8\tHEAD:1",
        "log\t/a@8\t1:2147483648",
        "log\t/a@8\t2147483648:2147483648",
    ];
    assert_eq!(rt; bad_lines(lines.as_slice()), lines.len());
    Ok(())
}

#[test]
fn a_range_in_another_place_is_bad(rt: HostRuntime) -> Result<(), Fail> {
    let lines = [
        "locate\t/a@8\t1:2",
        "locate\t/a@8\t1\t1:2",
        "segments\t/a@8\t1:2",
        "mergeinfo\t/a@8\t1:2",
        "merged\t/a@8\t1:2",
        "eligible\t/a@8\t1:2",
        "log\t1:2\t/a@8",
        "merged\t1:2\t/a@8\t/b@8",
        "log\t/a@8\t1:2\t1:2",
        "merged\t/a@8\t/b@8\t1:2\t1:2",
        "log\t/a@8\t1:2\t",
        "eligible\t/a@8\t/b@8\t1:2\t",
    ];
    assert_eq!(rt; bad_lines(lines.as_slice()), lines.len());
    Ok(())
}

#[test]
fn a_range_limits_result_lines(rt: HostRuntime) -> Result<(), Fail> {
    let lines =
        "log\t/branches/b@8\t2:4\neligible\t/trunk@8\t/branches/b@8\t4:7\nmerged\t/trunk@9\t/branches@9\t3:3\n\
        log\t/trunk@8\t0:99\neligible\t/trunk@8\t/branches/b@8\t9:9";
    let wanted = "#1 ok\nr4 /branches/b\nr2 /trunk\n#2 ok\nr6\nr7\n#3 ok\nr3*\n\
        #4 ok\nr8 /trunk\nr7 /trunk\nr6 /trunk\nr3 /trunk\nr2 /trunk\nr1 /trunk\n#5 ok\n";
    check_report(&rt, rt.alloc(), MERGED, lines, wanted)
}

#[test]
fn a_range_changes_no_status(rt: HostRuntime) -> Result<(), Fail> {
    let lines = "log\t/trunk@8\t4:2\nlog\t/nope@8\t4:2\nlog\t/nope@8\t2:4\nlog\t/trunk@11\t2:4\n\
        merged\t/trunk@8\t/branches@11\t2:4\neligible\t/branches/b@8\t/branches/nope@8\t0:0";
    let wanted = "#1 bad-query\n#2 bad-query\n#3 no-such-path\n#4 no-such-revision\n\
        #5 no-such-revision\n#6 no-such-path\n";
    check_report(&rt, rt.alloc(), MERGED, lines, wanted)
}

#[test]
fn malformed_mergeinfo_has_its_status_in_an_empty_range(rt: HostRuntime) -> Result<(), Fail> {
    let lines = "merged\td@1\tc@1\t0:0\neligible\td@1\tc@1\t2147483647:2147483647";
    let wanted = "#1 malformed-mergeinfo\n#2 malformed-mergeinfo\n";
    check_report(&rt, rt.alloc(), MERGEINFO_TEXTS, lines, wanted)
}
