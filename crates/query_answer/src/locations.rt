//! Where a path was, by its segments, and how that is written.
ghost use Rattle.std.specs.Prelude.{◌≡◌, ◌++◌, OnErr, OnOk, Some};
ghost use Rattle.path_index.specs.Segment.{same_location};
ghost use Rattle.svn_path.specs.Path.{same_name};
ghost use Rattle.query_answer.specs.Answer.{IsLocationOf, lent_path, location_text};
ghost use Rattle.query_answer.specs.SourceHits.{TellsLocations, segment_path};

use path_index::Segment;
use std::alloc::AllocError;
use svn_path::{Names, Path};

/// The path of a segment of the list.
pub(crate) fn path_at(segments: &[Segment], index: usize) -> Option<&Path>
    ensures { lent_path result ≡ segment_path segments.now index }
{
    match segments.get(index) {
        Some(segment) => segment.path.as_ref(),
        None => None,
    }
}

/// The path of the segment of a revision, the newest segment being the first.
pub(crate) fn path_in(segments: &[Segment], rev: u32) -> Option<&Path>
    ensures { (located : _) → TellsLocations located segments.now → lent_path result ≡ located rev }
{
    let found = segments.partition_point(|segment| segment.lo > rev);
    match segments.get(found) {
        Some(segment) if rev <= segment.hi => segment.path.as_ref(),
        _ => None,
    }
}

/// Whether a location is this path.
pub(crate) fn is_at(location: Option<&Path>, path: &Path) -> bool
    ensures { result ≡ same_location same_name (lent_path location.entry) (Some path.now) }
{
    match location {
        Some(other) => other == path,
        None => false,
    }
}

/// Appends a path, or `-` where there is none.
pub(crate) fn write_path(
    names: &Names,
    path: Option<&Path>,
    out: &mut Vec<u8>,
) -> Result<(), AllocError>
    requires { IsLocationOf names.now (lent_path path) }
    ensures ok { OnOk result (out.new.items ≡ out.old.items ++ location_text names.now (lent_path path.entry)) }
    ensures err { OnErr result (out.new.items ≡ out.old.items) }
{
    match path {
        Some(path) => path.write(names, out)?,
        None => out.push(b'-')?,
    }
    Ok(())
}
