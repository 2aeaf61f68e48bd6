//! What stands at each path after each record of a history, in a map that shares what revisions have in common.
//!
//! The map of all records of a dump, by the `Ends` of its revisions, and what stands at a path after them:
//!
//! ```
//! let map = Map::build(alloc, dump.records(), 0, &ends)?;
//! let entry = map.entry(map.hi(), path)?;
//! ```
#![tactic(auto)]

mod children;
mod ends;
mod entry;
mod fault;
mod faults;
mod found;
mod ghost_record;
mod joining;
mod looked;
mod map;
mod mergeinfo_below;
mod trees;
mod trie;

pub use ends::Ends;
pub use entry::{Child, Entry, Nearest};
pub use fault::{Fault, FaultKind};
pub use faults::{check, check_from, fault_at};
pub use found::Found;
pub use map::Map;
