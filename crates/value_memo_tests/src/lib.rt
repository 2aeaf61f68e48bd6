//! The tests of the memo of parsed values.
#![tactic(auto)]

#[cfg(test)]
mod asking;
#[cfg(test)]
mod refused_growths;
#[cfg(test)]
mod sharing;
#[cfg(test)]
mod threads;
