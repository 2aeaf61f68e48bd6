//! The values of Subversion's mergeinfo: which revisions were merged from which paths.
//!
//! ```
//! let value = MergeInfo::parse(alloc, text.as_bytes())?;
//! Ok(value.inherited(rest.as_bytes())?)
//! ```
#![tactic(auto)]

mod clash;
mod element;
mod entry;
mod error;
mod field;
mod line;
mod lines;
mod merge_info;
mod rangelist;
mod runs_by_path;
mod source_path;
mod text;

pub use entry::Entry;
pub use error::MergeError;
pub use merge_info::MergeInfo;
pub use rangelist::read_rangelist;
