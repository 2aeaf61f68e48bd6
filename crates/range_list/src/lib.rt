//! The rangelists of Subversion's mergeinfo: sets of revision numbers, each inheritable or not.
//!
//! ```
//! let mut nine = Ranges::new(alloc);
//! nine.add(9, 9, true)?;
//! Ok(ranges.union(&nine)?)
//! ```
#![tactic(auto)]

mod ranges;
mod run;
mod sweep;
mod text;

pub use ranges::Ranges;
pub use run::Run;
