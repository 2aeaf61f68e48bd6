//! What mergeinfo has of the operative revisions of a source.
ghost use Rattle.std.specs.Prelude.{◌≡◌, All, IfOk, map};
ghost use Rattle.query_answer.specs.Answer.{HasPathOf};
ghost use Rattle.query_answer.specs.Held.{held_ranges_in, is_inherited};
ghost use Rattle.query_answer.specs.SourceHits.{has_in, lent_ranges};

use crate::held_mergeinfo::HeldMergeinfo;
use crate::inheritance::USUAL_PATH_LENGTH;
use path_index::{Hit, Segment};
use range_list::Ranges;
use std::alloc::{AllocError, Global};
use svn_path::Names;

/// For each segment of a source, the revisions that mergeinfo has for its path. If they are inherited, only those that
/// are inheritable count.
#[derive(Drop)]
pub(crate) struct SourceRanges<'a> {
    pub(crate) by_segment: Vec<Option<&'a Ranges>>,
    pub(crate) are_inherited: bool,
}

impl<'a> SourceRanges<'a> {
    /// What the mergeinfo of a target has of these segments.
    pub(crate) fn of(
        alloc: Global,
        names: &Names,
        held: &HeldMergeinfo<'a, '_>,
        segments: &[Segment],
    ) -> Result<Self, AllocError>
        requires { All (HasPathOf names.now) segments.now }
        ensures ranges { IfOk result (λ ranges. map lent_ranges ranges.by_segment.items
            ≡ map (held_ranges_in names.now held.now) segments.now) }
        ensures inherited { IfOk result (λ ranges. ranges.are_inherited ≡ is_inherited held.now) }
    {
        let mut by_segment = Vec::with_capacity(alloc, segments.len())?;
        let mut text = Vec::with_capacity(alloc, USUAL_PATH_LENGTH)?;
        for segment in segments {
            by_segment.push(match &segment.path {
                Some(path) => held.ranges(alloc, names, path, &mut text)?,
                None => None,
            })?;
        }
        Ok(SourceRanges {
            by_segment,
            are_inherited: !held.rest.is_empty(),
        })
    }

    /// Whether the ranges have an operative revision, and if so whether it is inheritable.
    pub(crate) fn has(&self, hit: Hit) -> Option<bool>
        ensures { result ≡ has_in self.now hit }
    {
        let has = match self.by_segment.get(hit.segment) {
            Some(Some(ranges)) => ranges.has(hit.rev),
            _ => None,
        };
        match has {
            Some(false) if self.are_inherited => None,
            _ => has,
        }
    }
}
