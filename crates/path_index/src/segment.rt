//! Where a path stood, and the operative revisions there.
ghost use Rattle.std.specs.Prelude.{◌≡◌, map, IfOk};
ghost use Rattle.path_index.specs.declared.segment.Hit.{Hit as KeptHit};

use std::alloc::{AllocError, Global};
use svn_path::Path;

/// A location segment of a path: the neighbouring revisions from `lo` to `hi`, in which it stood at one location, or
/// nowhere.
#[derive(Drop)]
pub struct Segment {
    pub lo: u32,
    pub hi: u32,
    pub path: Option<Path>,
}

/// An operative revision of the path of a segment, and the index of the segment.
#[derive(Clone, Copy, Debug, PartialEq, Eq)]
pub struct Hit {
    pub rev: u32,
    pub segment: usize,
}

/// The first and the last revision of a range.
pub type RevisionRange = (u32, u32);

/// The revisions of hits, in their order.
pub fn revisions_of(alloc: Global, hits: &[Hit]) -> Result<Vec<u32>, AllocError>
    ensures { IfOk result (λ revs. revs.items ≡ map (λ (hit : KeptHit). hit.rev) hits.now) }
{
    hits.iter().map(|hit| hit.rev).collect(alloc)
}
