//! The mergeinfo that holds for a path.
ghost use Rattle.std.specs.Prelude.{IfOk};
ghost use Rattle.svn_path.specs.Path.{IsPathOf};

use crate::answered::worker_of;
use crate::repository::repo_of;
use merge_info::MergeInfo;
use query_answer::inheritance::effective;
use query_answer::{Effective, Repo};
use sample_dumps::{MERGED, MERGEINFO_TEXTS};
use std::alloc::Global;
use std::test::Fail;
use std::thread::Threads;
use svn_path::{Lookup, Names, Path};

fn path_of(alloc: Global, names: &Names, text: &str) -> Result<Path, Fail>
    ensures { IfOk result (IsPathOf names.now) }
{
    match Path::find(alloc, names, text.as_bytes())? {
        Lookup::Known(path) => Ok(path),
        Lookup::Unknown => Err("no such path")?,
    }
}

fn is_written_as(alloc: Global, value: &MergeInfo, wanted: &str) -> Result<bool, Fail> {
    let mut text = Vec::new(alloc);
    value.write(&mut text)?;
    Ok(text.as_slice() == wanted.as_bytes())
}

// Whether mergeinfo is printed so, or is malformed where no text is wanted.
fn is_so(alloc: Global, value: &Effective, wanted: Option<&str>) -> Result<bool, Fail> {
    match (value, wanted) {
        (Effective::Value(value), Some(wanted)) => is_written_as(alloc, value, wanted),
        (Effective::Malformed, None) => Ok(true),
        _ => Ok(false),
    }
}

// Whether the effective mergeinfo of a path is printed so, or is malformed where no text is wanted.
fn is_effective(
    alloc: Global,
    repo: &Repo,
    path: &Path,
    rev: u32,
    wanted: Option<&str>,
) -> Result<bool, Fail>
    requires { IsPathOf repo.now.names path.now }
{
    let memo = repo.memo(alloc)?;
    let mut seen = worker_of(alloc, repo, &memo)?;
    let value = effective(alloc, repo, path, rev, &memo, &mut seen)?;
    let found = is_so(alloc, &value, wanted);
    drop(value);
    found
}

fn has(
    alloc: Global,
    repo: &Repo,
    path: &str,
    rev: u32,
    wanted: Option<&str>,
) -> Result<bool, Fail> {
    let path = path_of(alloc, repo.names(), path)?;
    is_effective(alloc, repo, &path, rev, wanted)
}

// Whether a path of a dump has this mergeinfo.
fn has_on<R: Threads + Sync>(
    rt: &R,
    alloc: Global,
    dump: &[u8],
    path: &str,
    rev: u32,
    wanted: Option<&str>,
) -> Result<bool, Fail> {
    let repo = repo_of(rt, alloc, dump)?;
    let found = has(alloc, &repo, path, rev, wanted);
    drop(repo);
    found
}

#[test]
fn effective_mergeinfo_is_looked_up(rt: HostRuntime) -> Result<(), Fail> {
    let inherited = Some("/trunk/b:6\n");
    assert!(rt; has_on(&rt, rt.alloc(), MERGED, "/branches/b", 9, inherited)?);
    assert!(rt; has_on(&rt, rt.alloc(), MERGEINFO_TEXTS, "/c", 1, None)?);
    Ok(())
}
