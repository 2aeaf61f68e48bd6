//! The mergeinfo that a path holds: its own, or what it inherits.
ghost use Rattle.std.specs.Prelude.{◌≡◌, IfOk};
ghost use Rattle.svn_path.specs.Path.{IsPathOf, components_of};
ghost use Rattle.query_answer.specs.Held.{IsHeldIn, held_ranges_at, held_value};
ghost use Rattle.query_answer.specs.HeldValue.{own_or_below};
ghost use Rattle.query_answer.specs.SourceHits.{lent_ranges};

use merge_info::MergeInfo;
use range_list::Ranges;
use std::alloc::{AllocError, Global};
use svn_path::{NameId, Names, Path};

/// The value of the nearest path that has mergeinfo, and what the path has below that one.
#[derive(Drop)]
pub(crate) struct HeldMergeinfo<'v, 'p> {
    pub(crate) value: &'v MergeInfo,
    pub(crate) rest: &'p [NameId],
}

impl<'v, 'p> HeldMergeinfo<'v, 'p> {
    /// What a path holds of a value, given what it has below the path of the value. Nothing is inherited of the empty
    /// value, so what is below does not matter there.
    pub(crate) fn new(value: &'v MergeInfo, rest: &'p [NameId]) -> Self
        ensures value { (names : _)
            → held_value names result ≡ own_or_below (components_of names rest.now) value.now }
        ensures held { (names : _) → IsPathOf names rest.now → IsHeldIn names result }
    {
        let rest = if value.is_empty() { &[] } else { rest };
        HeldMergeinfo { value, rest }
    }

    /// The revisions that the value has for a source path. Where the value is inherited, a path that ends with `rest` has
    /// those of the path without it, and any other path has none. `text` is for printing, and its content is lost.
    pub(crate) fn ranges(
        &self,
        alloc: Global,
        names: &Names,
        path: &Path,
        text: &mut Vec<u8>,
    ) -> Result<Option<&'v Ranges>, AllocError>
        requires { IsPathOf names.now path.now }
        ensures { IfOk result (λ ranges. lent_ranges ranges ≡ held_ranges_at names.now self.now path.now) }
    {
        let Some(above) = path.parts().strip_suffix(self.rest) else {
            return Ok(None);
        };
        text.clear();
        let above = Path::of(alloc, above)?;
        above.write(names, text)?;
        Ok(self.value.ranges(text))
    }
}
