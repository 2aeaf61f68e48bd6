//! A talk about the history of a dump, which stays open and grows: turns come from a client, and replies go to it.
//!
//! ```
//! let mut client = client;
//! let mut dump = Device::new(dump);
//! talk(rt, alloc, &mut dump, workers, &mut client)
//! ```
//!
//! A client behind two devices is `Connection::new(input, output)`. A turn is a query line, or a question line of
//! `branch_answer`, or a line `piece BYTES` with as many further bytes of the dump.
#![tactic(auto)]

mod answering;
mod client;
mod connection;
mod feeding;
mod history;
mod read_ahead;
mod replies;
mod talk_error;
mod talking;
mod turns;

pub use client::Client;
pub use connection::Connection;
pub use talk_error::TalkError;
pub use talking::talk;
