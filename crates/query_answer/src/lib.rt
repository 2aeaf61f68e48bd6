//! Queries about the history of a dump, and their answers.
//!
//! A line is answered by a worker, and its answer is written with its place among the lines:
//!
//! ```
//! let answer = answer(alloc, repo, &Query::read(line.as_bytes()), memo, seen)?;
//! let written = answer.write(repo, place, out);
//! ```
//!
//! `svn_report::load_repo` makes a `repo` of a dump. All workers share one `memo`, which is `repo.memo(alloc)?`, and each
//! has its own `seen`.
#![tactic(auto)]

mod answers;
mod held_mergeinfo;
pub mod inheritance;
mod locations;
mod nearest_value;
mod peg;
mod printed_mergeinfo;
mod query;
mod range;
mod repo;
mod status;
mod target;
mod unanswered;
mod verbs;

pub use answers::{Answer, Effective, MergedRevision, append_head};
pub use path_index::{Copied, RevisionRange, Segment};
pub use peg::Peg;
pub use printed_mergeinfo::PrintedMergeinfo;
pub use query::Query;
pub use range::read_range;
pub use repo::Repo;
pub use status::Status;
pub use target::PathRev;
pub use unanswered::Unanswered;
pub use verbs::answer;
