//! The formats of dumps.

/// A format of a dump, by the version that its first line gives.
#[derive(Clone, Copy)]
pub(crate) enum Format {
    Two,
    /// Its property sections may be changes to the properties, and its texts differences.
    Three,
}
