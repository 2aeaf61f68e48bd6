//! The elements of a rangelist.
ghost use Rattle.std.specs.Prelude.{◌≡◌, ◌≤◌, IfSome};
ghost use Rattle.range_list.specs.Rangelist.{IsRun};
ghost use Rattle.merge_info.specs.Element.{element_of, revision_of, run_of};

use range_list::Run;
use svn_text::{GREATEST_REVISION, number_up_to, split_at_byte};

/// A revision or a range, and perhaps `*` after it.
pub(crate) fn element(bytes: &[u8]) -> Option<Run>
    ensures value { result ≡ element_of bytes.now }
    ensures run { IfSome result IsRun }
{
    match split_at_byte(b'*', bytes) {
        None => run(true, bytes),
        Some((range, [])) => run(false, range),
        Some(_) => None,
    }
}

/// A revision, or two that are separated by `-`.
fn run(inheritable: bool, bytes: &[u8]) -> Option<Run>
    ensures value { result ≡ run_of inheritable bytes.now }
    ensures run { IfSome result IsRun }
{
    match split_at_byte(b'-', bytes) {
        None => {
            let lo = revision(bytes)?;
            Some(Run {
                lo,
                hi: lo,
                inheritable,
            })
        }
        Some((first, last)) => {
            let lo = revision(first)?;
            let hi = revision(last)?;
            (lo < hi).then_some(Run {
                lo,
                hi,
                inheritable,
            })
        }
    }
}

/// A revision that can have been merged.
fn revision(bytes: &[u8]) -> Option<u32>
    ensures value { result ≡ revision_of bytes.now }
    ensures bounds { IfSome result (λ number. 1 ≤ number × number ≤ GREATEST_REVISION) }
{
    match number_up_to(GREATEST_REVISION, bytes)? {
        0 => None,
        number => Some(number as u32),
    }
}
