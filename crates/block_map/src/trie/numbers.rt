//! Numbers for the elements of lists.
ghost use Rattle.std.specs.Prelude.{◌≡◌, ◌+◌, ◌^◌, ◌<◌, IfOk};

use std::alloc::AllocError;

/// The number of the next element of a list. A list of 4,294,967,295 elements takes no other: that is reported as want
/// of memory.
pub(crate) fn next_number(len: usize) -> Result<u32, AllocError>
    ensures is { IfOk result (λ number. number ≡ len) }
    ensures small { IfOk result (λ number. number + 1 < 2 ^ 32) }
{
    if len < u32::MAX as usize {
        Ok(len as u32)
    } else {
        Err(AllocError)
    }
}
