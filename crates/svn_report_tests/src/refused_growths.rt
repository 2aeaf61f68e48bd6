//! What is answered where a growth was refused.
use crate::pieces::device;
use block_map::{Fault, FaultKind};
use devices::{Failed, Pull, Source};
use growth_marks::{begin, end};
use query_pool::{GatherError, Part, gather};
use sample_dumps::MERGED;
use std::alloc::{AllocError, Global};
use std::io;
use std::test::Fail;
use svn_dump::DumpError;
use svn_report::{RunError, load};

// Whether the line of an error is written after three bytes, which alone stay otherwise.
fn is_written(alloc: Global, error: &RunError, line: &[u8]) -> Result<bool, AllocError> {
    let mut out = Vec::from_slice(alloc, b"abc".as_slice())?;
    begin(alloc);
    let written = error.write(&mut out);
    end(alloc);
    Ok(out.strip_prefix(b"abc") == Some(if written.is_ok() { line } else { b"" }))
}

#[test]
fn refused_growths_write_nothing_of_an_error(rt: HostRuntime) -> Result<(), Fail> {
    for (error, line) in [
        (
            RunError::Dump(DumpError::Refused { number: 8, at: 51 }),
            b"svnhist: dump refused: 8 Revision at byte 51\n".as_slice(),
        ),
        (
            RunError::Fault(Fault {
                number: 2,
                kind: FaultKind::Exists,
            }),
            b"svnhist: dump refused: 17 Exists at record 2\n",
        ),
        (
            RunError::Read(Source::Input),
            b"svnhist: cannot read standard input\n",
        ),
        (RunError::Memory, b"svnhist: out of memory\n"),
    ] {
        assert!(rt; is_written(rt.alloc(), &error, line)?);
    }
    Ok(())
}

// Whether these are the bytes of the dump, or memory ran out.
fn is_whole(bytes: Result<Vec<u8>, RunError>) -> bool {
    match bytes {
        Ok(bytes) => bytes.as_slice() == MERGED,
        Err(error) => matches!(error, RunError::Memory),
    }
}

#[test]
fn refused_growths_fail_no_device(rt: HostRuntime) {
    let mut input = device(7, usize::MAX, io::ErrorKind::Other);
    begin(rt.alloc());
    let bytes = load(rt.alloc(), &mut input, Source::Dump);
    end(rt.alloc());
    assert!(rt; is_whole(bytes));
    let mut slice = [0u8; 4];
    assert!(rt; !matches!(input.pull(&mut slice), Err(Failed)));
}

fn part_of(alloc: Global, done: &[(u32, u8)]) -> Result<Part<u8>, AllocError> {
    Ok(Part {
        done: Vec::from_slice(alloc, done)?,
    })
}

// Whether results that stand in two parts are gathered, or memory ran out.
fn are_gathered(alloc: Global) -> Result<bool, AllocError> {
    let mut parts = Vec::new(alloc);
    parts.push(part_of(alloc, &[(1, b'b'), (0, b'a')])?)?;
    parts.push(part_of(alloc, &[(2, b'c')])?)?;
    begin(alloc);
    let ordered = gather(alloc, parts, 3);
    end(alloc);
    Ok(match ordered {
        Ok(ordered) => ordered.as_slice() == b"abc".as_slice(),
        Err(error) => matches!(error, GatherError::Memory),
    })
}

#[test]
fn refused_growths_lose_no_place(rt: HostRuntime) -> Result<(), Fail> {
    assert!(rt; are_gathered(rt.alloc())?);
    Ok(())
}
