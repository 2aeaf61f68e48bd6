//! The tests of the reader of dumps.
#![tactic(auto)]

#[cfg(test)]
mod accepted;
#[cfg(test)]
mod cut_off;
#[cfg(test)]
mod dump_text;
#[cfg(test)]
mod long;
#[cfg(test)]
mod mergeinfo;
#[cfg(test)]
mod paused;
#[cfg(test)]
mod pieces;
#[cfg(test)]
mod records;
#[cfg(test)]
mod refusals;
#[cfg(test)]
mod refused;
#[cfg(test)]
mod refused_growths;
#[cfg(test)]
mod refused_nodes;
#[cfg(test)]
mod samples;
#[cfg(test)]
mod seeds;
#[cfg(test)]
mod version_3;
