//! Where a path went.
ghost use Rattle.std.specs.Prelude.{◌≡◌, ◌+◌, false, IfOk, IfSome, option_map};
ghost use Rattle.svn_path.specs.Path.{IsPathOf, components_of, same_name};
ghost use Rattle.svn_dump.specs.Dump.{DumpValue, IsDump, IsRecordOf, record_view};
ghost use Rattle.svn_dump.specs.Tree.{tree_of};
ghost use Rattle.query_answer.specs.OriginsInBytes.{origin_in_bytes};
ghost use Rattle.query_answer.specs.Repo.{trees_in_bytes};
ghost use Rattle.branch_answer.specs.Life as life;
ghost use Rattle.branch_answer.specs.Life.{first_path, paths_from};
ghost use Rattle.branch_answer.specs.Moves as moves;
ghost use Rattle.branch_answer.specs.Presence.{IsKnownPath, is_present};

use query_answer::Repo;
use std::alloc::{AllocError, Global};
use svn_dump::{Act, NodeRecord, Origin};
use svn_path::{Names, Path};

/// The first of the paths of the next revision, in the order of their bytes, that came from a path of a revision.
pub(crate) fn first_path_from(
    alloc: Global,
    repo: &Repo,
    path: &Path,
    rev: u32,
) -> Result<Option<Path>, AllocError>
    requires known { IsKnownPath repo.now path.now (rev + 1) }
    requires gone { is_present repo.now path.now (rev + 1) ≡ false }
    ensures first { IfOk result (λ next. option_map (components_of repo.now.names) next
        ≡ first_path (paths_from (tree_of (trees_in_bytes repo.now) (rev + 1))
        (components_of repo.now.names path.now) rev)) }
    ensures of_names { IfOk result (λ next. IfSome next (IsPathOf repo.now.names)) }
{
    let records = repo.records_in(rev + 1);
    let mut first = None;
    for each in records {
        let next = next_by(repo, path, rev, each)?;
        first = first_with(alloc, repo.names(), first, next)?;
    }
    Ok(first)
}

/// Where a record of the next revision put the path of a revision, if it came from there at the end, too.
fn next_by(
    repo: &Repo,
    path: &Path,
    rev: u32,
    each: &NodeRecord,
) -> Result<Option<Path>, AllocError>
    requires known { IsKnownPath repo.now path.now (rev + 1) }
    requires of_dump { IsRecordOf repo.now each.now }
    ensures next { IfOk result (λ next. next ≡ moves.next_by repo.now path.now rev each.now) }
    ensures of_names { IfOk result (λ next. IfSome next (IsPathOf repo.now.names)) }
{
    let Some(next) = place_after(path, rev, each)? else {
        return Ok(None);
    };
    if is_from(repo, path, rev, &next)? {
        Ok(Some(next))
    } else {
        Ok(None)
    }
}

/// Where a record puts a path of a revision.
fn place_after(path: &Path, rev: u32, each: &NodeRecord) -> Result<Option<Path>, AllocError>
    ensures { IfOk result (λ next. next ≡ moves.place_after same_name path.now rev (record_view each.now)) }
{
    match &each.act {
        Act::Copy { from, from_rev, .. } => {
            if *from_rev == rev && path.starts_with(from) {
                Ok(Some(path.rebase(from, &each.path)?))
            } else {
                Ok(None)
            }
        }
        _ => Ok(None),
    }
}

/// Whether a path of the next revision came from a path of a revision.
fn is_from(repo: &Repo, path: &Path, rev: u32, next: &Path) -> Result<bool, AllocError>
    requires { IsKnownPath repo.now next.now (rev + 1) }
    ensures { IfOk result (λ is. is ≡ moves.is_from repo.now path.now rev next.now) }
{
    if repo.entry(next, rev + 1)?.is_none() {
        return Ok(false);
    }
    let origin = repo.origin(next, rev + 1)?;
    Ok(is_place(path, rev, &origin))
}

/// Whether an origin is the path of a revision.
fn is_place(path: &Path, rev: u32, origin: &Option<Origin>) -> bool
    ensures { (dump : DumpValue) → IsDump dump
        → result ≡ life.is_place (components_of dump.names path.now) rev (origin_in_bytes dump origin.now) }
{
    match origin {
        Some(from) => from.path == *path && from.rev == rev,
        None => false,
    }
}

/// The first of these paths, of which there may be none, in the order of their bytes.
fn first_with(
    alloc: Global,
    names: &Names,
    first: Option<Path>,
    next: Option<Path>,
) -> Result<Option<Path>, AllocError>
    requires first { IfSome first (IsPathOf names.now) }
    requires next { IfSome next (IsPathOf names.now) }
    ensures is { IfOk result (λ both. both ≡ moves.first_with names.now first next) }
    ensures of_names { IfOk result (λ both. IfSome both (IsPathOf names.now)) }
{
    let Some(next) = next else {
        return Ok(first);
    };
    let Some(first) = first else {
        return Ok(Some(next));
    };
    if is_before(alloc, names, &first, &next)? {
        Ok(Some(first))
    } else {
        Ok(Some(next))
    }
}

/// Whether a path is printed before another in the order of the bytes.
fn is_before(alloc: Global, names: &Names, path: &Path, other: &Path) -> Result<bool, AllocError>
    requires path { IsPathOf names.now path.now }
    requires other { IsPathOf names.now other.now }
    ensures { IfOk result (λ is. is ≡ moves.is_before names.now path.now other.now) }
{
    let mut text = Vec::new(alloc);
    path.write(names, &mut text)?;
    let mut other_text = Vec::new(alloc);
    other.write(names, &mut other_text)?;
    Ok(text.as_slice() < other_text.as_slice())
}
