//! Which revisions changed a path.
ghost use Rattle.std.specs.Prelude.{◌≡◌, ◌+◌, ◌-◌, ◌<◌, ◌≤◌, ◌++◌, IfOk, OnOk, bytes_eq, filter, length};
ghost use Rattle.path_index.specs.Operative.{down_from, is_operative};
ghost use Rattle.svn_dump.specs.Dump.{history_in_bytes};
ghost use Rattle.svn_path.specs.Path.{components_of};
ghost use Rattle.query_answer.specs.Repo.{trees_in_bytes};
ghost use Rattle.branch_answer.specs.Operative.{AddsFrom, StaysAfter, is_named_in, is_operative_in, operative_from_to};
ghost use Rattle.branch_answer.specs.Presence.{IsKnownPath, IsThereIn};

use crate::presence::{is_itself, newest_with};
use query_answer::Repo;
use std::alloc::{AllocError, Global};
use svn_path::Path;

/// The revisions from `lo` to `hi` that are operative on a path, whichever node stood there, the newest first. It takes
/// time for each of them, and for each time that the path was added or copied.
pub(crate) fn operative_on(
    alloc: Global,
    repo: &Repo,
    path: &Path,
    lo: u32,
    hi: u32,
) -> Result<Vec<u32>, AllocError>
    requires known { IsKnownPath repo.now path.now hi }
    ensures { IfOk result (λ revs. revs.items
        ≡ filter (is_operative bytes_eq (history_in_bytes repo.now) (trees_in_bytes repo.now)
        (components_of repo.now.names path.now)) (down_from (hi + 1 - lo) hi)) }
{
    let mut revs = Vec::new(alloc);
    let mut from = Some(hi);
    'spans: while let Some(rev) = from {
        let Some(last) = newest_with(repo, path, lo, rev)? else {
            break;
        };
        let first = push_span(repo, path, lo, last, &mut revs)?;
        from = first.checked_sub(1);
    }
    Ok(revs)
}

/// Appends the operative revisions of a path up to one that has it, the newest first, from the one in which it was set
/// last, or from `lo`. Answers the revision from which they were looked for.
fn push_span(
    repo: &Repo,
    path: &Path,
    lo: u32,
    last: u32,
    revs: &mut Vec<u32>,
) -> Result<u32, AllocError>
    requires there { IsThereIn repo.now path.now last }
    requires low { lo ≤ last }
    ensures { IfOk result (AddsFrom repo.now path.now lo last revs.old.items revs.new.items) }
{
    let set = repo.last_set(path, last);
    if set < lo {
        push_named(repo, path, lo - 1, last, revs)?;
        return Ok(lo);
    }
    push_named(repo, path, set, last, revs)?;
    if is_operative_at(repo, path, set)? {
        revs.push(set)?;
    }
    Ok(set)
}

/// Appends the operative revisions of a path after one revision and up to another, between which nothing set it, the
/// newest first.
fn push_named(
    repo: &Repo,
    path: &Path,
    above: u32,
    last: u32,
    revs: &mut Vec<u32>,
) -> Result<(), AllocError>
    requires { StaysAfter repo.now path.now above last }
    ensures { OnOk result (revs.new.items ≡ revs.old.items ++ operative_from_to repo.now path.now (above + 1) last) }
{
    let mut named = repo.named_in(path, above, last)?;
    revs.append(&mut named)?;
    Ok(())
}

/// Whether a revision that has a path is operative on it.
fn is_operative_at(repo: &Repo, path: &Path, rev: u32) -> Result<bool, AllocError>
    requires { IsThereIn repo.now path.now rev }
    ensures { IfOk result (λ operative. operative ≡ is_operative_in repo.now path.now rev) }
{
    if rev == 0 {
        return Ok(false);
    }
    if is_named(repo, path, rev)? {
        return Ok(true);
    }
    let origin = repo.origin(path, rev)?;
    Ok(!is_itself(origin.as_ref(), path, rev))
}

/// Whether a record of a revision names a path or one below it.
fn is_named(repo: &Repo, path: &Path, rev: u32) -> Result<bool, AllocError>
    requires some { 0 < rev }
    requires within { rev < length repo.now.counts }
    ensures { IfOk result (λ named. named ≡ is_named_in repo.now path.now rev) }
{
    let named = repo.named_in(path, rev - 1, rev)?;
    Ok(!named.is_empty())
}
