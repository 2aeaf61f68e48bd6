//! Bundles, arguments and files.

use crate::arguments::{Arguments, DumpPath, QueriesPath, read_arguments};
use crate::bundle_reader::bundle;
use crate::files::answer_files;
use devices::{Source, SystemFiles};
use std::alloc::{AllocError, Global};
use std::env::{self, Env};
use std::path::PathBuf;
use std::random::RandomSource;
use std::rt::Files;
use std::sync::Wait;
use std::test::Fail;
use std::thread::Threads;
use std::{fs, io};
use svn_report::RunError;

#[test]
fn a_bundle_has_its_parts(rt: HostRuntime) -> Result<(), Fail> {
    let parts = bundle(b"0 064 02\na\n\nrest").ok_or("a bundle")?;
    assert_eq!(rt; (parts.block, parts.workers), (0, 64));
    assert_eq!(rt;
        (parts.queries, parts.dump),
        (b"a\n\n".as_slice(), b"rest".as_slice())
    );
    Ok(())
}

#[test]
fn other_bytes_are_not_a_bundle(rt: HostRuntime) {
    for bytes in [
        b"".as_slice(),
        b"1 0 0\n",
        b"0 1 1\n",
        b"0 65 0\n",
        b"2147483648 1 0\n",
        b"0 1 1000001\n",
        b"0  1 0\n",
        b"0 1 0",
        b"+0 1 0\n",
    ] {
        assert!(rt; bundle(bytes).is_none(), "{bytes:?}");
    }
}

// The texts as strings.
fn strings(alloc: Global, texts: &[&str]) -> Result<Vec<String>, AllocError> {
    let mut all = Vec::new(alloc);
    for text in texts {
        all.push(String::from_str(alloc, *text)?)?;
    }
    Ok(all)
}

// Whether these arguments request a run on `a dump` and `-` with this block and these workers.
fn request(alloc: Global, texts: &[&str], block: u32, workers: usize) -> Result<bool, AllocError> {
    let all = strings(alloc, texts)?;
    Ok(match read_arguments(all.as_slice()) {
        Some(asked) => {
            (asked.dump.0, asked.queries.0) == ("a dump", "-")
                && (asked.block, asked.workers) == (block, workers)
        }
        None => false,
    })
}

// Whether they are wrong.
fn are_wrong(alloc: Global, texts: &[&str]) -> Result<bool, AllocError> {
    let all = strings(alloc, texts)?;
    Ok(read_arguments(all.as_slice()).is_none())
}

#[test]
fn arguments_are_read(rt: HostRuntime) -> Result<(), Fail> {
    let texts = ["a dump", "-", "2147483647", "064"];
    assert!(rt; request(rt.alloc(), texts.as_slice(), 2_147_483_647, 64)?);
    Ok(())
}

#[test]
fn wrong_arguments_are_refused(rt: HostRuntime) -> Result<(), Fail> {
    for wrong in [
        ["d", "q", "0", "0"].as_slice(),
        &["d", "q", "0", "65"],
        &["d", "q", "2147483648", "1"],
        &["d", "q", "", "1"],
        &["d", "q", "-1", "1"],
        &["d", "q", "0", "1 "],
        &["d", "q", "0"],
        &["d", "q", "0", "1", "1"],
    ] {
        assert!(rt; are_wrong(rt.alloc(), wrong)?, "{wrong:?}");
    }
    Ok(())
}

const DUMP: &[u8] = b"SVN-fs-dump-format-version: 2\n\nRevision-number: 0\n\n";

const QUERIES: &[u8] = b"segments\t/@0\n";

const REPORT: &[u8] = b"#1 ok\n0-0 /\n";

// The path of a file with this content.
fn written<R: Files + Env + AllocGlobal>(
    rt: &R,
    name: &str,
    content: &[u8],
) -> io::Result<PathBuf> {
    let mut path = env::temp_dir(rt)?;
    path.push(name)?;
    fs::write(rt, path.as_path(), content)?;
    Ok(path)
}

// The report on the files at two paths.
fn answers<R: Files + RandomSource + Threads + Wait + Sync>(
    rt: &R,
    alloc: Global,
    dump: &str,
    queries: &str,
) -> Result<Vec<u8>, RunError> {
    let asked = Arguments {
        dump: DumpPath(dump),
        queries: QueriesPath(queries),
        block: 0,
        workers: 1,
    };
    answer_files(rt, alloc, &mut SystemFiles::new(rt), &asked)
}

// Whether the report on two files is right, and an error names the one that is missing.
fn are_answered<R: Files + RandomSource + Threads + Wait + Sync>(
    rt: &R,
    alloc: Global,
    dump: &str,
    queries: &str,
) -> Result<bool, RunError> {
    let report = answers(rt, alloc, dump, queries)?;
    Ok(
        report.as_slice() == REPORT
            && matches!(
                answers(rt, alloc, "", queries),
                Err(RunError::Read(Source::Dump))
            )
            && matches!(
                answers(rt, alloc, "", ""),
                Err(RunError::Read(Source::Queries))
            ),
    )
}

#[test]
fn the_queries_of_a_file_are_answered(rt: HostRuntime) -> Result<(), Fail> {
    let dump = written(&rt, "svnhist-answers-dump", DUMP)?;
    let queries = written(&rt, "svnhist-answers-queries", QUERIES)?;
    let are_right = are_answered(
        &rt,
        rt.alloc(),
        dump.as_path().as_str(),
        queries.as_path().as_str(),
    );
    fs::remove_file(&rt, dump.as_path())?;
    fs::remove_file(&rt, queries.as_path())?;
    assert!(rt; are_right?);
    Ok(())
}
