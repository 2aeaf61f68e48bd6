//! Locations before the records of a map.

use svn_path::Path;

/// The number of a location.
#[derive(Clone, Copy, Debug, PartialEq, Eq)]
pub(crate) struct LocationId(pub(crate) u32);

/// A path after so many records of the history.
#[derive(Drop)]
pub(crate) struct Location {
    pub(crate) path: Path,
    pub(crate) tick: u32,
}

/// A location without the path of the one above it.
#[derive(Drop)]
pub(crate) struct StoredLocation {
    /// The location that it is below; none where `rest` is its whole path.
    pub(crate) above: Option<LocationId>,
    pub(crate) rest: Path,
    pub(crate) tick: u32,
}
