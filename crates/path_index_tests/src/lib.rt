//! Tests of the index of a history.
//!
//! A large value is released by `drop`, in place of the end of its scope. So its release is proved once, and not again
//! in each function that has one.
#![tactic(auto)]

#[cfg(test)]
mod indexes;
#[cfg(test)]
mod merged;
#[cfg(test)]
mod parts;
#[cfg(test)]
mod refused_growths;
