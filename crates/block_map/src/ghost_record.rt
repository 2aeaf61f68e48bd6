//! Records for contracts alone.
ghost use Rattle.std.specs.Prelude.{◌≡◌};
ghost use Rattle.svn_dump.specs.Dump.{record_view};
ghost use Rattle.block_map.specs.Ends.{record_at_tick};

use crate::ends::Ends;
use std::marker::Model;
use std::snapshot::Snapshot;
use svn_dump::NodeRecord;

/// A record that only contracts read, with the source of a copy at a tick. It takes no memory.
#[derive(Drop)]
pub(crate) struct GhostRecord {
    each: Snapshot<NodeRecord>,
    ends: Snapshot<Ends>,
}

impl Model for GhostRecord {
    ghost use Rattle.svn_dump.specs.Dump.{record_view};
    ghost use Rattle.svn_dump.specs.History.{Record};
    ghost use Rattle.svn_dump.specs.declared.record.ValueId.{ValueId};
    ghost use Rattle.svn_path.specs.declared.names.NameId.{NameId};
    ghost use Rattle.block_map.specs.Ends.{record_at_tick};

    ghost Value = { Record NameId ValueId };

    ghost view = { λ g. record_at_tick g.ends.value (record_view g.each.value) };
}

impl GhostRecord {
    /// A record of a history whose revisions end so.
    pub(crate) fn of(each: &NodeRecord, ends: &Ends) -> Self
        ensures { result ≡ record_at_tick ends.now (record_view each.now) }
    {
        GhostRecord {
            each: Snapshot::of(each),
            ends: Snapshot::of(ends),
        }
    }
}
