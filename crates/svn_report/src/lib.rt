//! The report on a dump: the answers to a list of queries about its history, the same for each number of workers and
//! each cutting of the history into blocks.
//!
//! ```
//! let mut query = Vec::from_slice(alloc, b"log\t")?;
//! query.extend_from_slice(peg)?;
//! report(rt, alloc, dump, query.as_slice(), &[], 8, &NoGate)
//! ```
//!
//! No lengths of blocks (`&[]`) make one block, eight workers answer, and `NoGate` does nothing around each query.
#![tactic(auto)]

mod answering;
mod batch;
mod block_indexes;
mod block_maps;
mod cutting;
mod loading;
mod pieces;
mod query_lines;
mod record_borders;
mod reporting;
mod repository;
mod run_error;

pub use batch::answer_batch;
pub use cutting::{block_ends, share_out};
pub use loading::load;
pub use pieces::{feed_from, report_from};
pub use reporting::{MOST_QUERIES, report};
pub use repository::{LoadError, grow_repo, load_repo};
pub use run_error::RunError;
