//! Source paths.
ghost use Rattle.std.specs.Prelude.{◌≡◌, ◌++◌, IfOk, OnOk};
ghost use Rattle.svn_text.specs.Appended.{BeginsWith};
ghost use Rattle.svn_path.specs.Components.{parts_of, path_text};
ghost use Rattle.merge_info.specs.Inherited.{is_before_below, path_below, stays_before};
ghost use Rattle.merge_info.specs.Line.{IsPrintedPath};

use crate::field::first_field;
use std::alloc::{AllocError, Global};

/// The path as it is printed: a slash before each component, and a slash for the root.
pub(crate) fn printed_path(alloc: Global, bytes: &[u8]) -> Result<Vec<u8>, AllocError>
    ensures { IfOk result (λ path. path.items ≡ path_text (parts_of bytes.now)) }
{
    let mut path = Vec::new(alloc);
    let mut left = Some(bytes);
    while let Some(rest) = left {
        let (part, more) = first_field(b'/', rest);
        if !part.is_empty() {
            path.push(b'/')?;
            path.extend_from_slice(part)?;
        }
        left = more;
    }
    if path.is_empty() {
        path.push(b'/')?;
    }
    Ok(path)
}

/// A path followed by the rest of another.
pub(crate) fn path_below(alloc: Global, path: &[u8], rest: &[u8]) -> Result<Vec<u8>, AllocError>
    requires path { IsPrintedPath path.now }
    requires rest { IsPrintedPath rest.now }
    ensures { IfOk result (λ both. both.items ≡ path_below path.now rest.now) }
{
    let mut both = Vec::with_capacity(alloc, path.len() + rest.len())?;
    push_path_below(path, rest, &mut both)?;
    Ok(both)
}

/// Appends a path followed by the rest of another. Also after an error `out` begins with what it held.
#[tactic(auto, using(svn_text::proofs::Appended::appended))]
pub(crate) fn push_path_below(path: &[u8], rest: &[u8], out: &mut Vec<u8>) -> Result<(), AllocError>
    requires path { IsPrintedPath path.now }
    requires rest { IsPrintedPath rest.now }
    ensures ok { OnOk result (out.new.items ≡ out.old.items ++ path_below path.now rest.now) }
    ensures begins { BeginsWith out.old.items out.new.items }
{
    if path == b"/".as_slice() {
        return out.extend_from_slice(rest);
    }
    out.extend_from_slice(path)?;
    if rest != b"/".as_slice() {
        out.extend_from_slice(rest)?;
    }
    Ok(())
}

/// Whether it is certain that a path is before the next one whatever follows both. Of the root it never is.
pub(crate) fn is_before_below(path: &[u8], next: &[u8]) -> bool
    ensures { result ≡ is_before_below path.now next.now }
{
    path != b"/".as_slice() && stays_before(path, next)
}

/// Whether it is certain that a path that is not the root is before the next one whatever follows both.
fn stays_before(path: &[u8], next: &[u8]) -> bool
    ensures { result ≡ stays_before path.now next.now }
{
    let mut i = 0;
    while i < path.len() && i < next.len() {
        if path[i] != next[i] {
            return path[i] < next[i];
        }
        i += 1;
    }
    i < next.len() && b'/' < next[i]
}
