//! Bytes cut at a byte, tables of texts and the seeds of their hashes, decimal numbers, and the greatest revision.
//!
//! ```
//! let bytes = b"a: b: c".as_slice();
//! assert_eq!(rt;
//!     split_at_byte(b':', bytes),
//!     Some((b"a".as_slice(), b" b: c".as_slice()))
//! );
//! ```
#![tactic(auto)]

mod cut;
mod number;
mod seed;
mod seeded_hasher;
mod text;
mod text_table;

pub use cut::{split_at_byte, split_at_last};
pub use number::{GREATEST_REVISION, number_up_to, push_number};
pub use seed::Seed;
pub use seeded_hasher::SeededHasher;
pub use text_table::{TextTable, TextTableError};
