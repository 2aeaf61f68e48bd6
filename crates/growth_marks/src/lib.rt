//! Marks between which a test has its growths refused.
//!
//! A mark is a growth of an odd size that nothing else asks for. `tests/refuse.c`, which is loaded beside a test, counts
//! the growths between the two marks and refuses one of them. Without it a mark does nothing.
#![tactic(auto)]

use std::alloc::Global;
use std::hint::black_box;

/// The bytes that the first mark asks for.
const BEGIN: usize = 7_654_321;

/// The bytes that the second mark asks for.
const END: usize = 7_654_323;

/// From here on growths may be refused.
pub fn begin(alloc: Global) {
    mark(alloc, BEGIN);
}

/// From here on none is refused.
pub fn end(alloc: Global) {
    mark(alloc, END);
}

fn mark(alloc: Global, bytes: usize) {
    let room: Result<Vec<u8>, _> = Vec::with_capacity(alloc, bytes);
    drop(black_box(room));
}
