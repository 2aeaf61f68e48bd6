//! Answers to some of the queries of a run.

ghost use Rattle.std.specs.Prelude.{◌≤◌, length};

use query_answer::Repo;
use sample_dumps::FIRST;
use std::alloc::{AllocError, Global};
use std::sync::Wait;
use std::test::Fail;
use std::thread::Threads;
use svn_dump::read;
use svn_report::{RunError, answer_batch, load_repo};
use value_memo::Memo;

// Whether two queries that follow five others have the right answers.
fn are_numbered<'r, R: Threads + Wait + Sync>(
    rt: &R,
    alloc: Global,
    repo: &'r Repo,
    memo: &Memo<'r>,
) -> Result<bool, AllocError>
    requires { length repo.now.values ≤ length memo.now }
{
    let lines = [b"segments\tb@2".as_slice(), b"x"];
    let answers = answer_batch(rt, alloc, repo, memo, 5, &lines, 2)?;
    let [segments, bad] = answers.as_slice() else {
        return Ok(false);
    };
    Ok(
        segments.as_slice() == b"#6 ok\n2-2 /b\n1-1 /trunk\n".as_slice()
            && bad.as_slice() == b"#7 bad-query\n".as_slice(),
    )
}

// The same on a small history.
fn are_numbered_on_first<R: Threads + Wait + Sync>(
    rt: &R,
    alloc: Global,
    repo: &Repo,
) -> Result<bool, AllocError> {
    let memo = repo.memo(alloc)?;
    are_numbered(rt, alloc, repo, &memo)
}

// The repository of a small history.
fn first_repo<R: Threads + Wait + Sync>(rt: &R, alloc: Global) -> Result<Repo, RunError> {
    let dump = read(alloc, FIRST)?;
    Ok(load_repo(rt, alloc, dump, &[], 1)?)
}

#[test]
fn a_batch_is_numbered_after_the_queries_before(rt: HostRuntime) -> Result<(), Fail> {
    let repo = first_repo(&rt, rt.alloc())?;
    let are_right = are_numbered_on_first(&rt, rt.alloc(), &repo);
    drop(repo);
    assert!(rt; are_right?);
    Ok(())
}
