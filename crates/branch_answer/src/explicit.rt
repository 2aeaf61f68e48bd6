//! Paths with mergeinfo of their own.
ghost use Rattle.std.specs.Prelude.{◌≡◌, ◌++◌, IfOk, OnOk, filter};
ghost use Rattle.query_answer.specs.Repo.{IsPathIn};
ghost use Rattle.branch_answer.specs.ExplicitFound.{AreFoundIn, AreOpen, AreOpenBelow, has_own_text};
ghost use Rattle.branch_answer.specs.KeptExplicit.{AreExplicitIn};

use crate::text_order::in_order;
use query_answer::{PathRev, Repo};
use std::alloc::{AllocError, Global};
use svn_path::Path;

/// The paths at and below a path of a revision that have mergeinfo of their own, in the order of their bytes.
pub(crate) fn explicit_of(alloc: Global, repo: &Repo, at: &PathRev) -> Result<Vec<Path>, AllocError>
    requires { IsPathIn repo.now at.now }
    ensures { IfOk result (λ paths. AreExplicitIn repo.now at.now.path at.now.rev paths.items) }
{
    let found = found_below(alloc, repo, at)?;
    in_order(alloc, repo.names(), found)
}

/// Those paths in no particular order. The tree is walked one level after another, past what has no mergeinfo below it.
fn found_below(alloc: Global, repo: &Repo, at: &PathRev) -> Result<Vec<Path>, AllocError>
    requires { IsPathIn repo.now at.now }
    ensures { IfOk result (λ found. AreFoundIn repo.now at.now.path at.now.rev found.items) }
{
    // The contract of `names` says that the history is lawful.
    let _ = repo.names();
    let mut found = Vec::new(alloc);
    let mut level = Vec::new(alloc);
    level.push(at.path.dup()?)?;
    'levels: while !level.is_empty() {
        append_own(repo, level.as_slice(), at.rev, &mut found)?;
        level = open_below(alloc, repo, level.as_slice(), at.rev)?;
    }
    Ok(found)
}

/// Appends those of these paths that have mergeinfo of their own.
fn append_own(
    repo: &Repo,
    level: &[Path],
    rev: u32,
    found: &mut Vec<Path>,
) -> Result<(), AllocError>
    ensures { OnOk result (found.new.items ≡ found.old.items ++ filter (has_own_text repo.now rev) level.now) }
{
    for path in level {
        if has_own_mergeinfo(repo, path, rev)? {
            found.push(path.dup()?)?;
        }
    }
    Ok(())
}

/// Whether a path of a revision has mergeinfo of its own.
fn has_own_mergeinfo(repo: &Repo, path: &Path, rev: u32) -> Result<bool, AllocError>
    ensures { IfOk result (λ has. has ≡ has_own_text repo.now rev path.now) }
{
    match repo.entry(path, rev)? {
        Some(entry) => Ok(entry.mi.is_some()),
        None => Ok(false),
    }
}

/// What stands directly below these paths, as far as there may be mergeinfo below them.
fn open_below(alloc: Global, repo: &Repo, level: &[Path], rev: u32) -> Result<Vec<Path>, AllocError>
    ensures { IfOk result (λ next. AreOpenBelow repo.now rev level.now next.items) }
{
    let mut next = Vec::new(alloc);
    for path in level {
        let mut more = open_children(alloc, repo, path, rev)?;
        next.append(&mut more)?;
    }
    Ok(next)
}

/// What stands directly below a path, if there may be mergeinfo below the path.
fn open_children(alloc: Global, repo: &Repo, path: &Path, rev: u32) -> Result<Vec<Path>, AllocError>
    ensures { IfOk result (λ below. AreOpen repo.now rev path.now below.items) }
{
    if !repo.may_have_mergeinfo_below(path, rev)? {
        return Ok(Vec::new(alloc));
    }
    let list = repo.children(path, rev)?;
    let children = list.as_slice();
    let mut below = Vec::new(alloc);
    for child in children {
        below.push(path.join([child.name].as_slice())?)?;
    }
    Ok(below)
}
