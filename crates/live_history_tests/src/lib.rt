//! Talks about small dumps.
#![tactic(auto)]

#[cfg(test)]
mod ends;
#[cfg(test)]
mod host;
#[cfg(test)]
mod questions;
#[cfg(test)]
mod talks;
