//! What a device reads.

/// What could not be read.
#[derive(Clone, Copy, Debug, PartialEq, Eq)]
pub enum Source {
    Dump,
    Queries,
    /// Standard input.
    Input,
}
