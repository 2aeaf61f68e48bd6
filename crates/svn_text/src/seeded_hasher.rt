//! The hash of a seed.
ghost use Rattle.std.specs.Prelude.{◌≡◌, ◌+◌, ◌≤◌, length};
ghost use Rattle.std.specs.Hash.FoldHasher as folding;
ghost use Rattle.svn_text.specs.SeededHasher.{finished, written};

use std::hash::Hasher;

/// A hash that multiplies 16 bytes at a time and joins the halves of the product, as `wyhash` and `foldhash` do. Both
/// factors are mixed with words of a seed, and one of them multiplies what comes out once more, since a table takes the
/// place of a key from few bits. It is quick, and no cryptographic hash.
#[derive(Clone, Copy)]
pub struct SeededHasher {
    pub(crate) state: u64,
    pub(crate) factor: u64,
}

impl Hasher for SeededHasher {
    ghost write = { written };

    ghost finish = { finished };

    fn finish(&self) -> u64 {
        folded_multiply(self.state, self.factor)
    }

    fn write(&mut self, bytes: &[u8]) {
        let len = bytes.len();
        if len <= 8 {
            self.state = folded_multiply(self.state ^ read_short(bytes), self.factor ^ len as u64);
            return;
        }
        let mut state = self.state.wrapping_add(len as u64);
        let mut at = 0;
        while len - at > 16 {
            state = folded_multiply(
                read_u64(bytes, at) ^ state,
                read_u64(bytes, at + 8) ^ self.factor,
            );
            at += 16;
        }
        self.state = folded_multiply(
            read_u64(bytes, len.saturating_sub(16)) ^ state,
            read_u64(bytes, len - 8) ^ self.factor,
        );
    }
}

/// Both halves of the product, joined.
fn folded_multiply(a: u64, b: u64) -> u64
    ensures { result ≡ folding.folded_multiply a b }
{
    let product = a as u128 * b as u128;
    (product & 0xFFFF_FFFF_FFFF_FFFF) as u64 ^ (product >> 64) as u64
}

fn read_u32(bytes: &[u8], at: usize) -> u64
    requires { at + 4 ≤ length bytes.now }
    ensures { result ≡ folding.read_u32 bytes.now at }
{
    u32::from_le_bytes([bytes[at], bytes[at + 1], bytes[at + 2], bytes[at + 3]]) as u64
}

fn read_u64(bytes: &[u8], at: usize) -> u64
    requires { at + 8 ≤ length bytes.now }
    ensures { result ≡ folding.read_u64 bytes.now at }
{
    read_u32(bytes, at) | read_u32(bytes, at + 4) << 32
}

/// Up to eight bytes as one number, by reads that may overlap.
fn read_short(bytes: &[u8]) -> u64
    ensures { result ≡ folding.read_short bytes.now }
{
    let len = bytes.len();
    if len >= 4 {
        read_u32(bytes, 0) | read_u32(bytes, len - 4) << 32
    } else if len > 0 {
        bytes[0] as u64 | (bytes[len / 2] as u64) << 8 | (bytes[len - 1] as u64) << 16
    } else {
        0
    }
}
