//! The tests of queries and their answers.
#![tactic(auto)]

#[cfg(test)]
mod answered;
#[cfg(test)]
mod effective;
#[cfg(test)]
mod faulty;
#[cfg(test)]
mod grown;
#[cfg(test)]
mod in_parts;
#[cfg(test)]
mod queries;
#[cfg(test)]
mod records;
#[cfg(test)]
mod refused_growths;
#[cfg(test)]
mod repository;
#[cfg(test)]
mod samples;
#[cfg(test)]
mod standings;
#[cfg(test)]
mod workers;
