//! Tests of the map of a history.
//!
//! A large value is released by `drop`, in place of the end of its scope. So its release is proved once, and not again
//! in each function that has one.
#![tactic(auto)]

#[cfg(test)]
mod children;
#[cfg(test)]
mod forms;
#[cfg(test)]
mod joins;
#[cfg(test)]
mod maps;
#[cfg(test)]
mod mergeinfo_below;
#[cfg(test)]
mod refused_growths;
#[cfg(test)]
mod totals;
