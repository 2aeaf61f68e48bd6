//! A dump that has no repository.
use block_map::{Fault, FaultKind};
use sample_dumps::NO_PARENT;
use std::alloc::Global;
use std::test::Fail;
use std::thread::Threads;
use svn_dump::{Dump, read};
use svn_report::{LoadError, load_repo};

// The first fault of a dump.
fn fault_of<R: Threads + Sync>(rt: &R, alloc: Global, dump: Dump) -> Option<Fault> {
    match load_repo(rt, alloc, dump, &[], 1) {
        Err(LoadError::Fault(fault)) => Some(fault),
        Err(LoadError::Memory) => None,
        Ok(repo) => {
            drop(repo);
            None
        }
    }
}

#[test]
fn a_faulty_dump_has_no_repository(rt: HostRuntime) -> Result<(), Fail> {
    let fault = fault_of(&rt, rt.alloc(), read(rt.alloc(), NO_PARENT)?);
    let kind = FaultKind::NoParent;
    assert_eq!(rt; fault, Some(Fault { number: 2, kind }));
    Ok(())
}
