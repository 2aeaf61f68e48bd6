//! The comparison of answers with those that are wanted.
//!
//! Here and in the modules beside it a large value is released by `drop`, in place of the end of its scope. So its
//! release is proved once, and not again in each function.
ghost use Rattle.std.specs.Prelude.{◌≤◌, IfOk, length};
ghost use Rattle.query_answer.specs.Worker.{IsSeenOf};

use crate::repository::repo_of;
use query_answer::{Query, Repo, answer};
use std::alloc::{AllocError, Global};
use std::test::Fail;
use std::thread::Threads;
use value_memo::{Memo, Seen};

/// A worker that knows nothing of a memo yet.
pub(crate) fn worker_of<'r>(
    alloc: Global,
    repo: &'r Repo,
    memo: &Memo<'r>,
) -> Result<Seen<'r>, AllocError>
    requires { length repo.now.values ≤ length memo.now }
    ensures { IfOk result (IsSeenOf repo.now.values memo.now) }
{
    Seen::new(alloc, memo)
}

/// Appends the answer to a query line.
pub(crate) fn write_answer<'r>(
    repo: &'r Repo,
    line: &str,
    place: u32,
    memo: &Memo<'r>,
    seen: &mut Seen<'r>,
    out: &mut Vec<u8>,
) -> Result<(), Fail>
    requires { IsSeenOf repo.now.values memo.now seen.old }
    ensures { IsSeenOf repo.now.values memo.now seen.new }
{
    let alloc = *out.allocator();
    let answer = answer(alloc, repo, &Query::read(line.as_bytes()), memo, seen)?;
    let written = answer.write(repo, place, out);
    drop(answer);
    Ok(written?)
}

fn write_all<'r>(
    repo: &'r Repo,
    lines: &str,
    memo: &Memo<'r>,
    mut seen: Seen<'r>,
    out: &mut Vec<u8>,
) -> Result<(), Fail>
    requires { IsSeenOf repo.now.values memo.now seen }
{
    let mut place: u32 = 0;
    for line in lines.lines() {
        write_answer(repo, line, place, memo, &mut seen, out)?;
        place = place.wrapping_add(1);
    }
    Ok(())
}

fn write_answers(alloc: Global, repo: &Repo, lines: &str, out: &mut Vec<u8>) -> Result<(), Fail> {
    let memo = repo.memo(alloc)?;
    let seen = worker_of(alloc, repo, &memo)?;
    write_all(repo, lines, &memo, seen, out)
}

/// Fails unless these are the answers to the query lines, one after the other.
pub(crate) fn check_answers(
    alloc: Global,
    repo: &Repo,
    lines: &str,
    wanted: &str,
) -> Result<(), Fail> {
    let mut found = Vec::new(alloc);
    write_answers(alloc, repo, lines, &mut found)?;
    if found.as_slice() == wanted.as_bytes() {
        Ok(())
    } else {
        Err(Fail::new(format_args!("{found:?}, not {wanted:?}")))
    }
}

/// Fails unless queries on a dump have this report.
pub(crate) fn check_report<R: Threads + Sync>(
    rt: &R,
    alloc: Global,
    dump: &[u8],
    lines: &str,
    wanted: &str,
) -> Result<(), Fail> {
    let repo = repo_of(rt, alloc, dump)?;
    let checked = check_answers(alloc, &repo, lines, wanted);
    drop(repo);
    checked
}
