//! In which revisions a path is there.
ghost use Rattle.std.specs.Prelude.{◌≡◌, ◌≤◌, IfOk};
ghost use Rattle.svn_path.specs.Path.{same_name};
ghost use Rattle.path_index.specs.Operative.{came_from_itself};
ghost use Rattle.branch_answer.specs.KeptLife.{lent_origin};
ghost use Rattle.branch_answer.specs.Presence.{GoesBetween, IsKnownPath, IsNewest, IsNewestWith, is_present};

use query_answer::Repo;
use std::alloc::AllocError;
use svn_dump::Origin;
use svn_path::Path;

/// Whether a path is there in a revision.
pub(crate) fn is_there(repo: &Repo, path: &Path, rev: u32) -> Result<bool, AllocError>
    ensures { IfOk result (λ there. there ≡ is_present repo.now path.now rev) }
{
    Ok(repo.entry(path, rev)?.is_some())
}

/// The newest revision from `lo` to `rev` that has a path.
pub(crate) fn newest_with(
    repo: &Repo,
    path: &Path,
    lo: u32,
    rev: u32,
) -> Result<Option<u32>, AllocError>
    requires { IsKnownPath repo.now path.now rev }
    ensures { IfOk result (IsNewestWith repo.now path.now lo rev) }
{
    let mut at = rev;
    'revisions: while at >= lo {
        if is_there(repo, path, at)? {
            return Ok(Some(at));
        }
        let set = repo.last_set(path, at).max(lo);
        if is_there(repo, path, set)? {
            return Ok(Some(last_with(repo, path, set, at)?));
        }
        if set == 0 {
            return Ok(None);
        }
        at = set - 1;
    }
    Ok(None)
}

/// The last revision that has a path, between one that has it and one that lacks it, where it goes once.
fn last_with(repo: &Repo, path: &Path, with: u32, without: u32) -> Result<u32, AllocError>
    requires { GoesBetween repo.now path.now with without }
    ensures within { IfOk result (λ last. with ≤ last) }
    ensures newest { IfOk result (IsNewest repo.now path.now without) }
{
    let mut low = with;
    let mut high = without;
    'halves: while high - low > 1 {
        let middle = low + (high - low) / 2;
        if is_there(repo, path, middle)? {
            low = middle;
        } else {
            high = middle;
        }
    }
    Ok(low)
}

/// Whether the path of a revision came from itself in the revision before, given its origin.
pub(crate) fn is_itself(origin: Option<&Origin>, path: &Path, rev: u32) -> bool
    ensures { result ≡ came_from_itself same_name path.now rev (lent_origin origin.entry) }
{
    match origin {
        Some(from) => from.path == *path && u64::from(from.rev) + 1 == u64::from(rev),
        None => false,
    }
}
