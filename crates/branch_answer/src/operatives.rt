//! The operative revisions of several paths.
ghost use Rattle.std.specs.Prelude.{◌≡◌, ◌≤◌, OnOk};
ghost use Rattle.branch_answer.specs.KeptOperatives.{AreFromTo, AreOperativesIn, AreOperativesOf, HasList, IsPartOfList};
ghost use Rattle.branch_answer.specs.Presence.{IsKnownPath};

use crate::operative::operative_on;
use path_index::RevisionRange;
use query_answer::Repo;
use std::alloc::{AllocError, Global};
use std::collections::BTreeMap;
use svn_path::Path;

/// The operative revisions of paths in a range, which are looked up once for each path.
#[derive(Drop)]
pub(crate) struct Operatives {
    pub(crate) range: RevisionRange,
    pub(crate) by_path: BTreeMap<Path, Vec<u32>>,
}

impl Operatives {
    /// Those of the range up to the youngest revision, for no path so far.
    pub(crate) fn new(alloc: Global, repo: &Repo, range: RevisionRange) -> Self
        ensures { AreOperativesIn repo.now range result }
    {
        Operatives {
            range: (range.0, range.1.min(repo.youngest())),
            by_path: BTreeMap::new(alloc),
        }
    }

    /// Looks the operative revisions of a path up, if it has no list yet.
    pub(crate) fn look_up(
        &mut self,
        alloc: Global,
        repo: &Repo,
        path: &Path,
    ) -> Result<(), AllocError>
        requires known { IsKnownPath repo.now path.now self.old.range.1 }
        requires kept { AreOperativesOf repo.now self.old }
        ensures kept { AreOperativesOf repo.now self.new }
        ensures range { self.new.range ≡ self.old.range }
        ensures there { OnOk result (HasList self.new path.now) }
    {
        if !self.by_path.contains_key(path) {
            let revs = operative_on(alloc, repo, path, self.range.0, self.range.1)?;
            self.by_path.insert(path.dup()?, revs)?;
        }
        Ok(())
    }

    /// The revisions from `lo` to `hi` that are operative on a path, the newest first.
    pub(crate) fn on(&self, path: &Path, lo: u32, hi: u32) -> &[u32]
        requires there { HasList self.now path.now }
        requires from { self.now.range.0 ≤ lo }
        requires ordered { lo ≤ hi }
        requires to { hi ≤ self.now.range.1 }
        ensures { IsPartOfList self.now path.now lo hi result.now }
    {
        from_to(&self.by_path[path], lo, hi)
    }
}

/// The revisions from `lo` to `hi` among some that fall.
fn from_to(revs: &[u32], lo: u32, hi: u32) -> &[u32]
    ensures { AreFromTo revs.now lo hi result.now }
{
    let (_, rest) = revs.split_at(revs.partition_point(|rev| *rev > hi));
    let (within, _) = rest.split_at(rest.partition_point(|rev| *rev >= lo));
    within
}
