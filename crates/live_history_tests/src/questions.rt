//! Questions about branches, and talks with them.
ghost use Rattle.std.specs.Prelude.{◌≤◌, IfOk, length};
ghost use Rattle.query_answer.specs.Worker.{IsSeenOf};

use crate::host::Host;
use branch_answer::{Question, answer_question};
use query_answer::Repo;
use sample_dumps::{DUMPED, MERGED};
use std::alloc::{AllocError, Global};
use std::test::Fail;
use svn_dump::read;
use svn_report::load_repo;
use value_memo::{Memo, Seen};

const INPUT: &[u8] = b"ask\tlives\tb@3\nask\tentry\ttrunk/f@1\nask\tlist\t@3\nask\tlives\n";

const SAID: &str = "ready 3

#1 ok
2-3 dir
from 1 /trunk

#2 ok
file

#3 ok
dir b
dir trunk

#4 bad-query

";

#[test]
fn questions_are_replied_to(rt: HostRuntime) -> Result<(), Fail> {
    let (said, ended) = Host::usual().talk(&rt, rt.alloc(), DUMPED, INPUT);
    ended?;
    assert_eq!(rt; said.as_slice(), SAID.as_bytes());
    Ok(())
}

const ABOUT_MERGES: &[u8] =
    b"ask\texplicit\tbranches@10\nask\tancestor\tbranches/b@10\ttrunk@10\nask\tholds\ttrunk@10\t4:7\n";

const SAID_OF_MERGES: &str = "ready 10

#1 ok
mergeinfo /branches
 /trunk:3*,6
mergeinfo /branches/b
 

#2 ok
2 /trunk

#3 ok
7 history
6 history
5 merged

";

#[test]
fn questions_about_merges_are_replied_to(rt: HostRuntime) -> Result<(), Fail> {
    let (said, ended) = Host::usual().talk(&rt, rt.alloc(), MERGED, ABOUT_MERGES);
    ended?;
    assert_eq!(rt; said.as_slice(), SAID_OF_MERGES.as_bytes());
    Ok(())
}

const ABOUT_BRANCHES: &[u8] =
    b"ask\tnew\tbranches/b@10\ttrunk@10\t0:6\nask\tnew-ranges\tbranches/b@10\ttrunk@10
ask\tdistance\tbranches/b@10\t7\ttrunk@10\nask\tdescendants\ttrunk@1\t10\n";

const SAID_OF_BRANCHES: &str = "ready 10

#1 ok
6 history
3 history

#2 ok
3,6-8

#3 ok
3 2

#4 ok
/branches/b
/trunk

";

#[test]
fn questions_about_two_branches_are_replied_to(rt: HostRuntime) -> Result<(), Fail> {
    let (said, ended) = Host::usual().talk(&rt, rt.alloc(), MERGED, ABOUT_BRANCHES);
    ended?;
    assert_eq!(rt; said.as_slice(), SAID_OF_BRANCHES.as_bytes());
    Ok(())
}

/// A worker that knows nothing of a memo yet.
fn worker_of<'r>(alloc: Global, repo: &'r Repo, memo: &Memo<'r>) -> Result<Seen<'r>, AllocError>
    requires { length repo.now.values ≤ length memo.now }
    ensures { IfOk result (IsSeenOf repo.now.values memo.now) }
{
    Seen::new(alloc, memo)
}

fn append_answer<'r>(
    alloc: Global,
    repo: &'r Repo,
    line: &str,
    place: u32,
    memo: &Memo<'r>,
    seen: &mut Seen<'r>,
    out: &mut Vec<u8>,
) -> Result<(), AllocError>
    requires { IsSeenOf repo.now.values memo.now seen.old }
{
    if let Some(question) = Question::read(line.as_bytes()) {
        let answer = answer_question(alloc, repo, &question, memo, seen)?;
        let written = answer.write(place, out);
    }
    Ok(())
}

fn append_first_answer(
    alloc: Global,
    repo: &Repo,
    line: &str,
    place: u32,
    out: &mut Vec<u8>,
) -> Result<(), AllocError> {
    let memo = repo.memo(alloc)?;
    let mut seen = worker_of(alloc, repo, &memo)?;
    append_answer(alloc, repo, line, place, &memo, &mut seen, out)
}

#[test]
fn an_answer_is_written_with_its_place(rt: HostRuntime) -> Result<(), Fail> {
    let alloc = rt.alloc();
    let dump = read(alloc, DUMPED)?;
    let repo = load_repo(&rt, alloc, dump, &[], 1)?;
    let mut out = Vec::new(alloc);
    let appended = append_first_answer(alloc, &repo, "ask\tlist\ttrunk@1", 6, &mut out);
    drop(repo);
    appended?;
    assert_eq!(rt; out.as_slice(), b"#7 ok\nfile f\n".as_slice());
    Ok(())
}
