//! Making the items of a scan.
ghost use Rattle.std.specs.Prelude.{◌≡◌, ℕ, ◌+◌, ◌-◌, ◌*◌, ◌^◌, ◌<◌, ◌≤◌, min, IfOk, vec_len};
ghost use Rattle.par_scan.specs.Making.{AreMade};
ghost use Rattle.par_scan.specs.Parts.{IsFilled, IsFilledPart, most_parts};

use crate::gathering::{all_ok, append_all};
use crate::make::Make;
use std::alloc::{AllocError, Global};
use std::thread::{Threads, map_indices};

/// The items of the numbers below `n`, in order. The work is divided into at most `parts` parts of neighbours, each
/// done in a thread of its own, or by the caller where none can be started.
pub fn make_all<R: Threads + Sync, K: Make>(
    rt: &R,
    alloc: Global,
    maker: &K,
    n: usize,
    parts: usize,
) -> Result<Vec<K::Item>, AllocError>
    requires numbers { (i : ℕ) → i < n → K.has maker.now i }
    requires some_part { 0 < parts }
    requires few_parts { parts ≤ most_parts }
    ensures len { IfOk result (λ made. vec_len made ≡ n) }
    ensures made { IfOk result (λ made. AreMade K.gives maker.now made.items) }
{
    if n == 0 {
        return Ok(Vec::new(alloc));
    }
    let size = n.div_ceil(parts);
    let make_part = |part: usize| -> Result<Vec<K::Item>, AllocError>
        requires { (part * size < n) × (n < 2 ^ 64) × ((i : ℕ) → i < n → K.has maker.now i) }
        ensures { IfOk result (λ made. IsFilledPart (K.gives maker.entry.now) n size part made.items) }
    {
        let start = part * size;
        make_run(alloc, maker, start, size.min(n - start))
    };
    let results = map_indices(rt, alloc, n.div_ceil(size), &make_part)?;
    let made = all_ok(alloc, results)?;
    append_all(Vec::new(alloc), made)
}

/// The items of `count` neighbouring numbers.
fn make_run<K: Make>(
    alloc: Global,
    maker: &K,
    start: usize,
    count: usize,
) -> Result<Vec<K::Item>, AllocError>
    requires room { start + count < 2 ^ 64 }
    requires numbers { (i : ℕ) → i < start + count → K.has maker.now i }
    ensures { IfOk result (λ made. IsFilled (K.gives maker.now) start count made.items) }
{
    let mut made = Vec::with_capacity(alloc, count)?;
    for index in 0..count {
        let item = maker.make(start + index)?;
        made.push(item)?;
    }
    Ok(made)
}
