//! The tests of neighbours joined in parallel: sums, threads that run at once, and calls that fail.
#![tactic(auto)]

#[cfg(test)]
mod failures;
#[cfg(test)]
mod meetings;
#[cfg(test)]
mod sums;
