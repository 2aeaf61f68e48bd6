//! Where bytes come from and where they go, with what contracts see of it.
//!
//! A reader or a writer of std is a device by [`Device::new`]:
//!
//! ```
//! let mut input = Device::new(reader);
//! report_from(rt, alloc, &mut input, queries, &[], 2, &NoGate)
//! ```
//!
//! A type of a host's own is one by its `impl` of [`Pull`] or [`Push`], and counts its calls by [`GhostCount`]; there is
//! one in `crates/svn_report_tests/src/hosts.rt`.
#![tactic(auto)]

mod arguments;
mod device;
mod ghost_count;
mod opening;
mod sending;
mod source;

pub use arguments::arguments_of;
pub use device::{Device, Failed, Pull, Push};
pub use ghost_count::GhostCount;
pub use opening::{Open, SystemFiles};
pub use sending::{SendError, print_line, send};
pub use source::Source;
