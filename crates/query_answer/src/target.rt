//! What a peg names.
ghost use Rattle.std.specs.Prelude.{◌≡◌, ◌≤◌, length};
ghost use Rattle.query_answer.specs.Held.{depth_in, rest_of};

use block_map::Nearest;
use svn_path::{NameId, Path};

/// A path in a revision, by the names of a repository.
#[derive(Drop)]
pub struct PathRev {
    pub path: Path,
    pub rev: u32,
}

/// A path in a revision whose mergeinfo is asked for, and the nearest mergeinfo of it, if there is any.
#[derive(Drop)]
pub(crate) struct Target {
    pub(crate) at: PathRev,
    pub(crate) nearest: Option<Nearest>,
}

impl Target {
    /// What the path has below the one that has the nearest mergeinfo.
    pub(crate) fn rest(&self) -> &[NameId]
        requires { depth_in self.now.at.path self.now.nearest ≤ length self.now.at.path }
        ensures { result.now ≡ rest_of self.now }
    {
        &self.at.path.parts()[depth_in(&self.at.path, self.nearest)..]
    }
}

/// How many components of a path the one with the nearest mergeinfo has. Without mergeinfo these are all.
pub(crate) fn depth_in(path: &Path, nearest: Option<Nearest>) -> usize
    ensures { result ≡ depth_in path.now nearest }
{
    match nearest {
        Some(found) => found.depth,
        None => path.len(),
    }
}
