//! Where the node at a path went.
ghost use Rattle.std.specs.Prelude.{◌≡◌, ◌<◌, All, IfOk, OnOk, filter, length};
ghost use Rattle.svn_path.specs.Path.{IsPathOf};
ghost use Rattle.path_index.specs.Copies.{copy_view};
ghost use Rattle.query_answer.specs.Repo.{IsPathIn};
ghost use Rattle.branch_answer.specs.KeptDescendants.{AreDescendantsIn, is_descendant, places_by_copy, places_in, with_paths};
ghost use Rattle.branch_answer.specs.Presence.{IsKnownPath};

use crate::text_order::in_order;
use query_answer::{Copied, PathRev, Repo};
use std::alloc::{AllocError, Global};
use std::collections::BTreeSet;
use svn_path::Path;

/// The paths of a revision that stood at the place of a path of another revision, in the order of their bytes.
pub(crate) fn descendants_of(
    alloc: Global,
    repo: &Repo,
    at: &PathRev,
    rev: u32,
) -> Result<Vec<Path>, AllocError>
    requires there { IsPathIn repo.now at.now }
    requires within { rev < length repo.now.counts }
    ensures { IfOk result (λ paths. AreDescendantsIn repo.now at.now rev paths.items) }
{
    let places = places_of(alloc, repo, at, rev)?;
    let found = those_from(alloc, repo, at, rev, places)?;
    in_order(alloc, repo.names(), found)
}

/// The path, and where the copies of the later revisions up to another one took it. They also take a path along that
/// has been deleted there since, so a place need not be a descendant.
fn places_of(
    alloc: Global,
    repo: &Repo,
    at: &PathRev,
    rev: u32,
) -> Result<BTreeSet<Path>, AllocError>
    requires { IsPathIn repo.now at.now }
    ensures places { IfOk result (λ places. places.keys ≡ places_in repo.now at.now rev) }
    ensures of_names { IfOk result (λ places. All (IsPathOf repo.now.names) places.keys) }
{
    let mut places = BTreeSet::new(alloc);
    places.insert(at.path.dup()?)?;
    let copies = repo.copies_in(at.rev, rev);
    for copied in copies {
        if at.rev <= copied.from_rev {
            add_places(alloc, &mut places, copied)?;
        }
    }
    Ok(places)
}

/// Adds where a copy takes these places.
fn add_places(alloc: Global, places: &mut BTreeSet<Path>, copied: &Copied) -> Result<(), AllocError>
    ensures { OnOk result
        (places.new.keys ≡ with_paths places.old.keys (places_by_copy (copy_view copied.now) places.old.keys)) }
{
    let taken = places_by(alloc, places, copied)?;
    for place in taken {
        places.insert(place)?;
    }
    Ok(())
}

/// Where a copy takes these places. Those at and below its source follow one another.
fn places_by(
    alloc: Global,
    places: &BTreeSet<Path>,
    copied: &Copied,
) -> Result<Vec<Path>, AllocError>
    ensures { IfOk result (λ taken. taken.items ≡ places_by_copy (copy_view copied.now) places.now.keys) }
{
    let mut taken = Vec::new(alloc);
    for place in places.range(copied.from.dup()?..) {
        if !place.starts_with(&copied.from) {
            return Ok(taken);
        }
        taken.push(place.rebase(&copied.from, &copied.to)?)?;
    }
    Ok(taken)
}

/// Those of these places that are descendants in a revision.
fn those_from(
    alloc: Global,
    repo: &Repo,
    at: &PathRev,
    rev: u32,
    places: BTreeSet<Path>,
) -> Result<Vec<Path>, AllocError>
    requires there { IsPathIn repo.now at.now }
    requires within { rev < length repo.now.counts }
    requires of_names { All (IsPathOf repo.now.names) places.keys }
    ensures { IfOk result (λ found. found.items ≡ filter (is_descendant repo.now at.now rev) places.keys) }
{
    let mut found = Vec::new(alloc);
    for path in places {
        let place = PathRev { path, rev };
        if is_descendant(repo, at, &place)? {
            found.push(place.path)?;
        }
    }
    Ok(found)
}

/// Whether a path is in the tree of its revision, and stood at the place.
fn is_descendant(repo: &Repo, at: &PathRev, place: &PathRev) -> Result<bool, AllocError>
    requires { IsKnownPath repo.now place.now.path place.now.rev }
    ensures { IfOk result (λ is. is ≡ is_descendant repo.now at.now place.now.rev place.now.path) }
{
    if repo.entry(&place.path, place.rev)?.is_none() {
        return Ok(false);
    }
    match repo.locate(place, at.rev)? {
        Some(stood) => Ok(stood == at.path),
        None => Ok(false),
    }
}
