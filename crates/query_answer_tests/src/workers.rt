//! Workers that share a memo.
ghost use Rattle.query_answer.specs.Worker.{IsSeenOf};

use crate::answered::{worker_of, write_answer};
use crate::repository::repo_of;
use query_answer::Repo;
use sample_dumps::MERGED;
use std::alloc::Global;
use std::test::Fail;
use std::thread::Threads;
use value_memo::{Memo, Seen};

// How many texts a worker reads for a query that is asked twice, and for how many numbers it is answered.
fn counts<'r>(
    repo: &'r Repo,
    line: &str,
    memo: &Memo<'r>,
    mut seen: Seen<'r>,
    out: &mut Vec<u8>,
) -> Result<(u64, u64), Fail>
    requires { IsSeenOf repo.now.values memo.now seen }
{
    write_answer(repo, line, 0, memo, &mut seen, out)?;
    write_answer(repo, line, 1, memo, &mut seen, out)?;
    Ok((seen.parses(), seen.asked()))
}

// What two workers count that answer a line one after the other.
fn counts_of_two(alloc: Global, repo: &Repo, line: &str) -> Result<[(u64, u64); 2], Fail> {
    let memo = repo.memo(alloc)?;
    let mut text = Vec::new(alloc);
    let first = counts(repo, line, &memo, worker_of(alloc, repo, &memo)?, &mut text)?;
    let second = counts(repo, line, &memo, worker_of(alloc, repo, &memo)?, &mut text)?;
    Ok([first, second])
}

fn counts_on_merged<R: Threads + Sync>(
    rt: &R,
    alloc: Global,
    line: &str,
) -> Result<[(u64, u64); 2], Fail> {
    let repo = repo_of(rt, alloc, MERGED)?;
    let counts = counts_of_two(alloc, &repo, line);
    drop(repo);
    counts
}

#[test]
fn a_worker_finds_what_another_one_has_read(rt: HostRuntime) -> Result<(), Fail> {
    for line in [
        "mergeinfo\t/branches/b@9",
        "merged\t/trunk@9\t/branches/b@9",
    ] {
        assert_eq!(rt; counts_on_merged(&rt, rt.alloc(), line)?, [(1, 1), (0, 1)]);
    }
    Ok(())
}
