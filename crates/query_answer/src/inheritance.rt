//! The mergeinfo that a path has or inherits.
ghost use Rattle.std.specs.Prelude.{◌≡◌, ◌≤◌, IfOk, OnOk, drop, length};
ghost use Rattle.merge_info.specs.Line.{IsPrintedPath};
ghost use Rattle.svn_path.specs.Components.{path_text};
ghost use Rattle.svn_path.specs.Path.{IsPathOf, components_of};
ghost use Rattle.query_answer.specs.Repo.{effective_in, effective_said, effective_view, nearest_text_in};
ghost use Rattle.query_answer.specs.Worker.{IsSeenOf, Knows, Learns};

use crate::answers::Effective;
use crate::nearest_value::nearest_value;
use crate::repo::Repo;
use crate::target::depth_in;
use merge_info::MergeInfo;
use std::alloc::{AllocError, Global};
use svn_path::Path;
use value_memo::{Memo, Parsed, Seen};

/// The bytes that are reserved for a printed path at first.
pub(crate) const USUAL_PATH_LENGTH: usize = 64;

/// The mergeinfo that holds for a path in a revision. The path is by the names of the repository. If it is not in the
/// tree of the revision, this is what it would inherit; above the youngest revision that is the empty value.
///
/// The memo has a cell for each mergeinfo text of the repository, and the worker was answered for such texts alone.
pub fn effective<'r>(
    alloc: Global,
    repo: &'r Repo,
    path: &Path,
    rev: u32,
    memo: &Memo<'r>,
    seen: &mut Seen<'r>,
) -> Result<Effective, AllocError>
    requires path { IsPathOf repo.now.names path.now }
    requires seen { IsSeenOf repo.now.values memo.now seen.old }
    ensures value { IfOk result (λ value. effective_view value ≡ effective_in repo.now path.now rev) }
    ensures seen { IsSeenOf repo.now.values memo.now seen.new }
    ensures learns { Learns repo.now.values (nearest_text_in repo.now path.now rev) seen.old seen.new }
    ensures knows { OnOk result (Knows (nearest_text_in repo.now path.now rev) seen.new) }
{
    let nearest = repo.nearest(path, rev)?;
    let empty = MergeInfo::empty(alloc);
    let parsed = nearest_value(seen, memo, repo, nearest, &empty)?;
    own_or_inherited(alloc, repo, path, depth_in(path, nearest), parsed)
}

/// The mergeinfo that holds for a path, given what the text says that its first `depth` components have.
fn own_or_inherited(
    alloc: Global,
    repo: &Repo,
    path: &Path,
    depth: usize,
    parsed: Parsed<'_>,
) -> Result<Effective, AllocError>
    requires path { IsPathOf repo.now.names path.now }
    requires depth { depth ≤ length path.now }
    ensures { IfOk result (λ value. effective_view value ≡ effective_said repo.now path.now depth parsed.entry) }
{
    match parsed {
        Parsed::Malformed => Ok(Effective::Malformed),
        Parsed::Good(value) if depth == path.len() => Ok(Effective::Value(value.dup()?)),
        Parsed::Good(value) => {
            let rest = rest_below(alloc, repo, path, depth)?;
            Ok(Effective::Value(value.inherited(&rest)?))
        }
    }
}

/// What a path has below its first `depth` components.
pub(crate) fn rest_below(
    alloc: Global,
    repo: &Repo,
    path: &Path,
    depth: usize,
) -> Result<Vec<u8>, AllocError>
    requires names { IsPathOf repo.now.names path.now }
    requires depth { depth ≤ length path.now }
    ensures text { IfOk result (λ end. end.items ≡ path_text (drop depth (components_of repo.now.names path.now))) }
    ensures printed { IfOk result (λ rest. IsPrintedPath rest.items) }
{
    let mut rest = Vec::with_capacity(alloc, USUAL_PATH_LENGTH)?;
    path.write_below(depth, repo.names(), &mut rest)?;
    Ok(rest)
}
