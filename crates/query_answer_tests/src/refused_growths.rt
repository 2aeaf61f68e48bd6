//! What a vector is after a growth was refused while an answer was written.
ghost use Rattle.query_answer.specs.Worker.{IsSeenOf};

use crate::answered::worker_of;
use crate::repository::repo_of;
use growth_marks::{begin, end};
use query_answer::{Query, Repo, answer};
use sample_dumps::MERGED;
use std::alloc::Global;
use std::test::Fail;
use std::thread::Threads;
use value_memo::{Memo, Seen};

const BEFORE: &[u8] = b"abc";

// Appends the answer to a query line, and answers whether there was memory for all of it.
fn is_written<'r>(
    repo: &'r Repo,
    line: &str,
    memo: &Memo<'r>,
    mut seen: Seen<'r>,
    out: &mut Vec<u8>,
) -> Result<bool, Fail>
    requires { IsSeenOf repo.now.values memo.now seen }
{
    let alloc = *out.allocator();
    let answer = answer(alloc, repo, &Query::read(line.as_bytes()), memo, &mut seen)?;
    begin(alloc);
    let written = answer.write(repo, 0, out);
    end(alloc);
    drop(answer);
    Ok(written.is_ok())
}

// Whether a vector holds all of the answer after what it had, or is as it was.
fn is_whole_or_nothing(alloc: Global, repo: &Repo, line: &str, wanted: &str) -> Result<bool, Fail> {
    let memo = repo.memo(alloc)?;
    let seen = worker_of(alloc, repo, &memo)?;
    let mut out = Vec::from_slice(alloc, BEFORE)?;
    let is_whole = is_written(repo, line, &memo, seen, &mut out)?;
    let (front, text) = out.as_slice().split_at(BEFORE.len().min(out.len()));
    let wanted = if is_whole { wanted.as_bytes() } else { b"" };
    Ok(front == BEFORE && text == wanted)
}

// Whether the answer to a line on `MERGED` is written whole, or nothing of it.
fn is_whole_or_nothing_on_merged<R: Threads + Sync>(
    rt: &R,
    alloc: Global,
    line: &str,
    wanted: &str,
) -> Result<bool, Fail> {
    let repo = repo_of(rt, alloc, MERGED)?;
    let is_right = is_whole_or_nothing(alloc, &repo, line, wanted);
    drop(repo);
    is_right
}

#[test]
fn refused_growths_write_nothing_of_an_answer(rt: HostRuntime) -> Result<(), Fail> {
    for (line, wanted) in [
        ("blame\t/trunk@8", "#1 bad-query\n"),
        ("locate\t/branches/b@8\t2", "#1 ok\n/trunk\n"),
        (
            "segments\t/branches/b@8",
            "#1 ok\n4-8 /branches/b\n3-3 -\n1-2 /trunk\n",
        ),
        (
            "log\t/branches/b@8",
            "#1 ok\nr5 /branches/b\nr4 /branches/b\nr2 /trunk\nr1 /trunk\n",
        ),
        ("mergeinfo\t/branches/b@9", "#1 ok\n/trunk/b:6\n"),
        ("merged\t/trunk@9\t/branches@9", "#1 ok\nr3*\nr6\n"),
        ("eligible\t/branches/b@8\t/trunk@6", "#1 ok\nr4\nr5\n"),
    ] {
        assert!(rt;
            is_whole_or_nothing_on_merged(&rt, rt.alloc(), line, wanted)?,
            "{line}"
        );
    }
    Ok(())
}
