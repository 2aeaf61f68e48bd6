//! What a map says of a path.
ghost use Rattle.std.specs.Prelude.{◌≡◌, option_map};
ghost use Rattle.block_map.specs.Look.{at_with, from_beginning, with_mergeinfo as changed};
ghost use Rattle.block_map.specs.Map.{found_view};
ghost use Rattle.block_map.specs.Standing.{entry_view, standing_of};

use crate::entry::Entry;
use svn_dump::{Kind, ValueId};
use svn_path::Path;

/// What the records of a map say of a path.
#[derive(Drop)]
pub enum Found {
    /// What stood at this path after so many records of the history, none of which are the map's.
    At {
        path: Path,
        tick: u32,
    },
    /// What stood at this path after so many records, with this mergeinfo.
    AtWith {
        path: Path,
        tick: u32,
        mi: Option<ValueId>,
    },
    /// This kind of node, with this mergeinfo.
    Is {
        kind: Kind,
        mi: Option<ValueId>,
    },
    /// Nothing.
    Absent,
}

impl Found {
    /// What was found, with this mergeinfo if something stands there.
    pub(crate) fn with_mergeinfo(self, mi: Option<ValueId>) -> Found
        ensures { found_view result ≡ changed mi (found_view self) }
    {
        match self {
            Found::At { path, tick } | Found::AtWith { path, tick, .. } => {
                Found::AtWith { path, tick, mi }
            }
            Found::Is { kind, .. } => Found::Is { kind, mi },
            Found::Absent => Found::Absent,
        }
    }

    /// What stands there, if it is known.
    pub(crate) fn entry(&self) -> Option<Entry>
        ensures { option_map entry_view result ≡ standing_of (found_view self.now) }
    {
        match self {
            Found::Is { kind, mi } => Some(Entry {
                kind: *kind,
                mi: *mi,
            }),
            _ => None,
        }
    }

    /// What was found, by a history of no earlier records. Before the first one the root alone is there, a directory.
    pub(crate) fn from_beginning(self) -> Found
        ensures { found_view result ≡ from_beginning (found_view self) }
    {
        match self {
            Found::At { path, .. } => root_or_absent(&path, None),
            Found::AtWith { path, mi, .. } => root_or_absent(&path, mi),
            known => known,
        }
    }
}

/// The root with this mergeinfo, or nothing at any other path.
fn root_or_absent(path: &Path, mi: Option<ValueId>) -> Found
    ensures { (tick : _) → found_view result ≡ from_beginning (at_with path.now tick mi) }
{
    if path.is_empty() {
        Found::Is {
            kind: Kind::Dir,
            mi,
        }
    } else {
        Found::Absent
    }
}
