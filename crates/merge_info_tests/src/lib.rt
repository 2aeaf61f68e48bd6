//! The tests of rangelists and of the values of mergeinfo.
#![tactic(auto)]

#[cfg(test)]
mod ranges;
#[cfg(test)]
mod refused_growths;
#[cfg(test)]
mod values;
