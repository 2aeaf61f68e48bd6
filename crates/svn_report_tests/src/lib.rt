//! Tests of reports, and of the devices from which a dump comes and to which a report goes.
#![tactic(auto)]

#[cfg(test)]
mod batches;
#[cfg(test)]
mod caller;
#[cfg(test)]
mod cuttings;
#[cfg(test)]
mod errors;
#[cfg(test)]
mod faults;
#[cfg(test)]
mod gates;
#[cfg(test)]
mod hosts;
#[cfg(test)]
mod meetings;
#[cfg(test)]
mod pieces;
#[cfg(test)]
mod refused_growths;
#[cfg(test)]
mod reports;
#[cfg(test)]
mod seeds;
#[cfg(test)]
mod trickles;
#[cfg(test)]
mod workers;
