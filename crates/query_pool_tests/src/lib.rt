//! The tests of workers: serving and gathering, and calls that fail.
#![tactic(auto)]

#[cfg(test)]
mod failures;
#[cfg(test)]
mod gathering;
#[cfg(test)]
mod serving;
