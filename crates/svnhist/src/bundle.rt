//! Queries and a dump in one input.

/// The parts of a bundle, lent by its bytes.
#[derive(Clone, Copy, Debug)]
pub struct Bundle<'a> {
    /// How many revisions a block has, 0 for one block.
    pub block: u32,
    /// How many workers are to answer, from 1 to 64.
    pub workers: usize,
    /// The query lines.
    pub queries: &'a [u8],
    /// The dump.
    pub dump: &'a [u8],
}
