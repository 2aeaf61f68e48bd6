//! Decimal numbers.
ghost use Rattle.std.specs.Prelude.{◌≡◌, ◌≤◌, ◌++◌, OnOk, OnErr, decimal};
ghost use Rattle.svn_text.specs.Number.{number_up_to, greatest_length};

use itoa::Buffer;
use std::alloc::AllocError;

/// The greatest number of a revision.
pub const GREATEST_REVISION: u64 = 2_147_483_647;

/// The value of one or more decimal digits, if it is at most `most`. There may be any number of leading zeros.
pub fn number_up_to(most: u64, bytes: &[u8]) -> Option<u64>
    requires { most ≤ greatest_length }
    ensures { result ≡ number_up_to most bytes.now }
{
    if bytes.is_empty() {
        return None;
    }
    let mut value = 0u64;
    for byte in bytes {
        if !byte.is_ascii_digit() {
            return None;
        }
        value = value
            .saturating_mul(10)
            .saturating_add(u64::from(*byte - b'0'));
    }
    (value <= most).then_some(value)
}

/// Appends a number in decimal digits.
pub fn push_number(out: &mut Vec<u8>, number: u64) -> Result<(), AllocError>
    ensures ok { OnOk result (out.new.items ≡ out.old.items ++ decimal number) }
    ensures err { OnErr result (out.new.items ≡ out.old.items) }
{
    let mut buffer = Buffer::new();
    out.extend_from_slice(buffer.format(number).as_bytes())
}
