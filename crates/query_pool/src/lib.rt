//! Numbered jobs, done by several workers at once, and their results put in order.
//!
//! ```
//! let parts = serve(rt, alloc, job, n, workers, gate)?;
//! let found = gather(alloc, parts, n)?;
//! ```
#![tactic(auto)]

mod caller;
mod deque;
mod error;
mod gate;
mod gathering;
mod job;
mod part;
mod progress;
mod serving;
mod workers;

pub use error::GatherError;
pub use gate::{Gate, NoGate};
pub use gathering::gather;
pub use job::Job;
pub use part::Part;
pub use serving::{MOST_PLACES, MOST_WORKERS, serve};
pub use workers::Workers;
