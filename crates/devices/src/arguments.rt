//! The arguments of a program.

use std::env::{self, Env};
use std::io;

/// The arguments after the program's name. An error of another kind than `OutOfMemory` says that one is no text.
pub fn arguments_of<R: Env + AllocGlobal>(rt: &R) -> io::Result<Vec<String>> {
    let mut args = env::args(rt)?;
    let _ = args.next();
    Ok(args.collect(rt.alloc())?)
}
