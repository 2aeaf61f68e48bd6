//! A repository that grows as its dump does.

ghost use Rattle.std.specs.Prelude.{◌++◌, IfOk};
ghost use Rattle.svn_dump.specs.Dump.{history_in_bytes};
ghost use Rattle.svn_dump.specs.DumpText.{IsDumpText};

use crate::answered::check_answers;
use query_answer::Repo;
use sample_dumps::{DELETE_AND_COPY, DUMPED};
use std::alloc::Global;
use std::test::Fail;
use std::thread::Threads;
use svn_dump::Feed;
use svn_report::{grow_repo, load_repo};

// The repository of a dump whose end comes after the repository of its front was made.
fn grown_repo<R: Threads + Sync>(
    rt: &R,
    alloc: Global,
    front: &[u8],
    end: &[u8],
) -> Result<Repo, Fail>
    ensures { IfOk result (λ repo. IsDumpText (front.now ++ end.now) (history_in_bytes repo)) }
{
    let mut feed = Feed::new(alloc);
    feed.feed(front)?;
    let (dump, paused) = feed.pause()?;
    let (dump, index, map, _) = load_repo(rt, alloc, dump, &[], 1)?.into_parts();
    let mut feed = paused.resume(dump);
    feed.feed(end)?;
    let (dump, _) = feed.pause()?;
    Ok(grow_repo(rt, alloc, dump, index, map, 1)?)
}

#[test]
fn a_grown_repository_answers_about_what_came(rt: HostRuntime) -> Result<(), Fail> {
    let repo = grown_repo(&rt, rt.alloc(), DUMPED, DELETE_AND_COPY)?;
    assert_eq!(rt; repo.youngest(), 3);
    let wanted = "#1 ok\n3-3 /b\n1-2 /trunk\n";
    let checked = check_answers(rt.alloc(), &repo, "segments\t/b@3", wanted);
    drop(repo);
    checked
}
