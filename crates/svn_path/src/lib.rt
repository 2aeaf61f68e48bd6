//! Paths of a Subversion repository, as lists of numbered names.
//!
//! ```
//! let mut names = Names::new(alloc);
//! let path = Path::read(alloc, &mut names, text.as_bytes())?;
//! ```
#![tactic(auto)]

mod names;
mod parts;
mod path;

pub use names::{NameId, Names, NamesError};
pub use parts::has_dot;
pub use path::{Lookup, Path, PathError};
