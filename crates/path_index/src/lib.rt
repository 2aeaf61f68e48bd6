//! Where paths stood through the revisions of a history, and their operative revisions.
//!
//! An `Index` of the records of a history, which `Index::build` makes, is asked about a path of revision 2:
//!
//! ```
//! let segments = index.segments(path, 2)?;
//! let hits = index.operative(segments.as_slice())?;
//! ```
#![tactic(auto)]

mod copied;
mod index;
mod joining;
mod last_set;
mod nodes;
mod numbers;
mod records;
mod records_by_path;
mod segment;
mod span;
mod sparse_numbers;

pub use copied::Copied;
pub use index::Index;
pub use segment::{Hit, RevisionRange, Segment, revisions_of};
