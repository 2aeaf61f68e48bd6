//! Answers questions about the history of a Subversion repository, given its dump.
#![tactic(auto)]

mod arguments;
mod bundle;
mod bundle_reader;
mod cuts;
mod files;
mod program;
#[cfg(test)]
mod tests;

pub use block_map::{Fault, FaultKind};
use devices::{SystemFiles, arguments_of};
pub use devices::{Device, Failed, Pull, Push, SendError, Source, send};
pub use query_pool::{Gate, NoGate};
use std::process::ExitCode;
pub use svn_report::{LoadError, RunError, load, load_repo, report, report_from};

fn main(rt: HostRuntime) -> ExitCode {
    program::run(
        &rt,
        rt.alloc(),
        &mut SystemFiles::new(&rt),
        arguments_of(&rt),
        &mut Device::new(rt.stdin()),
        &mut Device::new(rt.stdout()),
        &mut Device::new(rt.stderr()),
    )
}
