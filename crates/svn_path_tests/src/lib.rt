//! The tests of bytes, numbers, names and paths.
#![tactic(auto)]

#[cfg(test)]
mod names;
#[cfg(test)]
mod paths;
#[cfg(test)]
mod refused_growths;
#[cfg(test)]
mod text;
