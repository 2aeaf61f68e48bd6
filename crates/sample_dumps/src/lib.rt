//! The dumps on which tests ask questions.
#![tactic(auto)]

mod copies;
mod faulty;
mod first;
mod mergeinfo;
mod svnadmin;

pub use copies::{DEEPER, GONE, MOVES, NESTED, REPLACED, SPARSE, copies_of_the_root};
pub use faulty::{
    EXISTS, MISSING, NO_PARENT, NO_PARENT_OF_COPY, NO_SOURCE, REPLACED_BY_NOTHING, REPLACES_NOTHING,
};
pub use first::{AT_SIGN, EMPTY, FIRST};
pub use mergeinfo::{COPIED_MERGEINFO, DELETED_MERGEINFO, MERGED, MERGEINFO_TEXTS, TWO_TEXTS};
pub use svnadmin::{DELETE_AND_COPY, DUMPED, REPLACE, joined};
