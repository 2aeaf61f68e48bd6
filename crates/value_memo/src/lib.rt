//! Parsed values of mergeinfo, each published once for all workers.
//!
//! The texts are numbered. A worker asks for the value of a number together with its text:
//!
//! ```
//! let memo = Memo::new(alloc, 1)?;
//! let mut seen = Seen::new(alloc, &memo)?;
//! let parsed = seen.value(&memo, ValueId(0), b"/trunk:1-3".as_slice())?;
//! assert!(rt; matches!(parsed, Parsed::Good(_)));
//! assert_eq!(rt; seen.parses(), 1);
//! ```
#![tactic(auto)]

mod known_cell;
mod memo;
mod reading;
mod seen;

pub use memo::Memo;
pub use reading::Parsed;
pub use seen::Seen;
