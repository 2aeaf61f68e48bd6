//! Answers questions about the history of a Subversion repository as long as they come, while its dump grows.
#![tactic(auto)]

mod arguments;
mod program;

use devices::{Device, SystemFiles, arguments_of};
use live_history::Connection;
use std::process::ExitCode;

fn main(rt: HostRuntime) -> ExitCode {
    program::run(
        &rt,
        rt.alloc(),
        &mut SystemFiles::new(&rt),
        arguments_of(&rt),
        &mut Connection::new(Device::new(rt.stdin()), Device::new(rt.stdout())),
        &mut Device::new(rt.stderr()),
    )
}
