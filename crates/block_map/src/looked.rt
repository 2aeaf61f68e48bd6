//! What a block says of a path.
ghost use Rattle.std.specs.Prelude.{◌≡◌};
ghost use Rattle.block_map.specs.Looked.{looked_view};
ghost use Rattle.block_map.specs.Map.{found_view};

use crate::found::Found;
use svn_path::Path;

/// What a block says of a path, which is not copied where it is the path of a location, too.
#[derive(Drop)]
pub(crate) enum Looked {
    /// What stood at this path after so many records of the history, none of which is the block's.
    SamePath(u32),
    Other(Found),
}

impl Looked {
    /// What it says of this path.
    pub(crate) fn into_found(self, path: Path) -> Found
        ensures { found_view result ≡ looked_view path self }
    {
        match self {
            Looked::SamePath(tick) => Found::At { path, tick },
            Looked::Other(found) => found,
        }
    }
}
