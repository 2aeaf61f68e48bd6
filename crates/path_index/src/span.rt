//! How far back a path stood at one location.
ghost use Rattle.std.specs.Prelude.{IfOk};
ghost use Rattle.path_index.specs.History.{AreRising};
ghost use Rattle.path_index.specs.Index.{IsThere};
ghost use Rattle.path_index.specs.RecordsByPath.{AreByPath};
ghost use Rattle.path_index.specs.Span.{IsSpan};

use crate::records::Records;
use crate::records_by_path::RecordsByPath;
use std::alloc::AllocError;
use svn_dump::Origin;
use svn_path::Path;

/// The revisions from `lo` up to a given one, through which a path stood at one location.
#[derive(Drop)]
pub(crate) struct Span {
    pub lo: u32,
    /// Where the path of revision `lo` came from.
    pub origin: Option<Origin>,
}

impl Span {
    /// The span of the path of revision `peg`, by the records of a history.
    pub(crate) fn up_to(
        records: &Records,
        by_path: &RecordsByPath,
        path: &Path,
        peg: u32,
    ) -> Result<Self, AllocError>
        requires rising { AreRising records.now }
        requires by_path { AreByPath records.now by_path.now }
        requires there { IsThere records.now path.now peg }
        ensures { IfOk result (IsSpan records.now path.now peg) }
    {
        let count = records.count_up_to(peg);
        let Some(index) = by_path.newest(path, count as u32) else {
            return Ok(Span {
                lo: 0,
                origin: None,
            });
        };
        Ok(Span {
            lo: records.rev(index),
            origin: records.origin(index, path)?,
        })
    }
}
