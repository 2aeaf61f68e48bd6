//! The ranges of queries.
ghost use Rattle.std.specs.Prelude.{◌≡◌};
ghost use Rattle.query_answer.specs.Range.{range_of};

use path_index::RevisionRange;
use svn_text::{GREATEST_REVISION, number_up_to, split_at_byte};

/// The first revision and the last one of a range `LO:HI`, unless the first is above the last.
pub fn read_range(field: &[u8]) -> Option<RevisionRange>
    ensures { result ≡ range_of field.now }
{
    let (lo, hi) = split_at_byte(b':', field)?;
    let lo = number_up_to(GREATEST_REVISION, lo)? as u32;
    let hi = number_up_to(GREATEST_REVISION, hi)? as u32;
    (lo <= hi).then_some((lo, hi))
}
