//! Joining neighbours in parallel: elements that act on points, all of them up to each index joined in order.
//!
//! Sums are such elements:
//!
//! ```
//! let items = Vec::from_slice(rt.alloc(), &[Sum(1), Sum(2), Sum(3)])?;
//! let scanned = scan(&rt, rt.alloc(), items, 2)?;
//! assert_eq!(rt; scanned.as_slice(), [Sum(1), Sum(3), Sum(6)].as_slice());
//! ```
#![tactic(auto)]

mod acts;
mod gathering;
mod ghost_list;
mod joining;
mod make;
mod making;
mod scanning;
mod sum;

pub use acts::Acts;
pub use ghost_list::GhostList;
pub use make::Make;
pub use making::make_all;
pub use scanning::{scan, total};
pub use sum::Sum;
