//! The reader of Subversion dumps, and the definitions of the history of a dump.
//!
//! ```
//! let dump = read(alloc, THREE_NAMES)?;
//! let names = dump.names();
//! Ok(names.len() == 3 && names.find(name.as_bytes()) == Some(number))
//! ```
#![tactic(auto)]

mod draft;
mod dump;
mod error;
mod feed;
mod grammar;
mod paused;
mod pieces;
mod read_error;
mod reading;
mod record;
mod refusal;
mod texts;

pub use dump::Dump;
pub use error::DumpError;
pub use feed::Feed;
pub use paused::Paused;
pub use reading::{read, read_with_seed};
pub use record::{Act, Kind, Mi, NodeRecord, Origin, ValueId};
pub use refusal::refusal_name;
