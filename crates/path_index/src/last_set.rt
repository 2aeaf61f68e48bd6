//! When a path was set last.
ghost use Rattle.path_index.specs.History.{AreRising};
ghost use Rattle.path_index.specs.LastSet.{IsLastSet, KeepsPath};
ghost use Rattle.path_index.specs.RecordsByPath.{AreByPath};

use crate::records::Records;
use crate::records_by_path::RecordsByPath;
use svn_path::Path;

/// The newest revision up to this one whose records, of a history, set a path, or 0.
pub(crate) fn last_set(records: &Records, by_path: &RecordsByPath, path: &Path, rev: u32) -> u32
    requires rising { AreRising records.now }
    requires by_path { AreByPath records.now by_path.now }
    ensures exact { IsLastSet records.now path.now rev result }
    ensures kept { KeepsPath records.now path.now result rev }
{
    let count = records.count_up_to(rev);
    match by_path.newest(path, count as u32) {
        Some(index) => records.rev(index),
        None => 0,
    }
}
