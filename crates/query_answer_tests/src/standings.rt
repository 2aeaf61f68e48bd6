//! What stands at a path of a repository, and directly below it.

use crate::repository::repo_of;
use crate::samples::INHERITED;
use block_map::Entry;
use query_answer::Repo;
use std::alloc::Global;
use std::test::Fail;
use svn_dump::{Kind, ValueId};
use svn_path::{Lookup, Path};

fn path_of(alloc: Global, repo: &Repo, text: &[u8]) -> Result<Path, Fail> {
    match Path::look_up(alloc, repo.names(), text)? {
        Lookup::Known(path) => Ok(path),
        Lookup::Unknown => Err("no such path")?,
    }
}

// What stands at `a` in a revision, and how many children it has.
fn standing(alloc: Global, repo: &Repo, rev: u32) -> Result<(Option<Entry>, usize), Fail> {
    let path = path_of(alloc, repo, b"/a")?;
    let entry = repo.entry(&path, rev);
    let children = repo.children(&path, rev);
    drop(path);
    let children = children?;
    let count = children.len();
    drop(children);
    Ok((entry?, count))
}

// That in the youngest revision and in the one after it.
fn last_standings(alloc: Global, repo: &Repo) -> Result<[(Option<Entry>, usize); 2], Fail> {
    Ok([standing(alloc, repo, 1)?, standing(alloc, repo, 2)?])
}

#[test]
fn nothing_stands_past_the_youngest_revision(rt: HostRuntime) -> Result<(), Fail> {
    let repo = repo_of(&rt, rt.alloc(), INHERITED)?;
    let found = last_standings(rt.alloc(), &repo);
    drop(repo);
    let kind = Kind::Dir;
    let mi = Some(ValueId(0));
    assert!(rt; found? == [(Some(Entry { kind, mi }), 2), (None, 0)]);
    Ok(())
}
