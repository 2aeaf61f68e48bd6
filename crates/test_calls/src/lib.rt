//! Calls of tests of threads: such as wait for each other, and such of which one fails.
#![tactic(auto)]

mod calls;
mod meeting;

pub use calls::Calls;
pub use meeting::Meeting;
