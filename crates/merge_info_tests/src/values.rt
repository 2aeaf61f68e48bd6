//! Texts of values, and what they are printed as.
ghost use Rattle.merge_info.specs.Line.{IsPrintedPath};

use merge_info::{MergeError, MergeInfo};
use std::alloc::Global;
use std::test::Fail;

fn text_of(alloc: Global, value: &MergeInfo) -> Result<Vec<u8>, Fail> {
    let mut text = Vec::new(alloc);
    value.write(&mut text)?;
    Ok(text)
}

pub(crate) fn is_written_as(alloc: Global, value: &MergeInfo, wanted: &str) -> Result<bool, Fail> {
    Ok(text_of(alloc, value)?.as_slice() == wanted.as_bytes())
}

fn is_printed_as(alloc: Global, text: &str, wanted: &str) -> Result<bool, Fail> {
    let value = MergeInfo::parse(alloc, text.as_bytes())?;
    is_written_as(alloc, &value, wanted)
}

const PRINTED: [(&str, &str); 15] = [
    ("", ""),
    ("\n", ""),
    ("/a:", ""),
    ("a: 3-4,07\n", "/a:3-4,7\n"),
    ("/a: \t 1", "/a:1\n"),
    ("/a//b:2\na/b:3", "/a/b:2-3\n"),
    ("/a:3*\n/a:3", "/a:3\n"),
    (":5", "/:5\n"),
    ("/a:5:", ""),
    ("/a:b:1-2147483647", "/a:b:1-2147483647\n"),
    ("/a:1; /b:2", "/a:1; /b:2\n"),
    ("/a:7,3-5,4,6", "/a:3-7\n"),
    ("/a:9*,1-2*,3*,4", "/a:1-3*,4,9*\n"),
    ("/a!:1\n/a:2", "/a:2\n/a!:1\n"),
    ("/\u{e9}:1\n/z:2", "/z:2\n/\u{e9}:1\n"),
];

#[test]
fn values_are_printed_in_one_form(rt: HostRuntime) -> Result<(), Fail> {
    for (text, value) in PRINTED {
        assert!(rt; is_printed_as(rt.alloc(), text, value)?, "{text}");
    }
    Ok(())
}

fn is_malformed(alloc: Global, text: &str) -> Result<bool, Fail> {
    match MergeInfo::parse(alloc, text.as_bytes()) {
        Ok(_) => Ok(false),
        Err(MergeError::Malformed) => Ok(true),
        Err(MergeError::Memory) => Err("out of memory")?,
    }
}

const MALFORMED: [&str; 30] = [
    "/a",
    "\n\n",
    "/a:1\n\n",
    "\n/a:1",
    "/a:0",
    "/a:00",
    "/a:0-1",
    "/a:3-3",
    "/a:4-3",
    "/a:1-2-3",
    "/a:1-",
    "/a:-1",
    "/a:2147483648",
    "/a:99999999999999999999999999999999",
    "/a:1,",
    "/a:,1",
    "/a:1,,2",
    "/a:1 ,2",
    "/a:1, 2",
    "/a:1 ",
    "/a:1\r",
    "/a:*",
    "/a:1**",
    "/a:1*-2",
    "/a:x",
    "/a:3-5,4*",
    "/a:4*,3-5",
    "/a:1-9*,20,5-6",
    "/a/..:1",
    "./a:1",
];

#[test]
fn other_texts_are_malformed(rt: HostRuntime) -> Result<(), Fail> {
    for text in MALFORMED {
        assert!(rt; is_malformed(rt.alloc(), text)?, "{text}");
    }
    Ok(())
}

// What a value gives to a path below.
fn inherited(alloc: Global, text: &str, rest: &str) -> Result<MergeInfo, Fail>
    requires { IsPrintedPath rest.now }
{
    let value = MergeInfo::parse(alloc, text.as_bytes())?;
    Ok(value.inherited(rest.as_bytes())?)
}

fn inherits(alloc: Global, text: &str, rest: &str, wanted: &str) -> Result<bool, Fail>
    requires { IsPrintedPath rest.now }
{
    let value = inherited(alloc, text, rest)?;
    is_written_as(alloc, &value, wanted)
}

#[test]
fn a_path_inherits_the_inheritable_revisions(rt: HostRuntime) -> Result<(), Fail> {
    assert!(rt; inherits(rt.alloc(), "/:2,3*", "/b", "/b:2\n")?);
    assert!(rt; inherits(rt.alloc(), "/a:1*\n/b:2", "/x/y", "/b/x/y:2\n")?);
    Ok(())
}

#[test]
fn inherited_paths_are_in_their_own_order(rt: HostRuntime) -> Result<(), Fail> {
    assert!(rt; inherits(rt.alloc(), "/a:1\n/a-b:2", "/x", "/a-b/x:2\n/a/x:1\n")?);
    Ok(())
}

// The lines of what a value gives to a path below.
fn inherited_text(alloc: Global, value: &MergeInfo, rest: &str) -> Result<Vec<u8>, Fail>
    requires { IsPrintedPath rest.now }
{
    let mut text = Vec::new(alloc);
    value.write_inherited(rest.as_bytes(), &mut text)?;
    Ok(text)
}

fn gives(alloc: Global, text: &str, rest: &str, wanted: &str) -> Result<bool, Fail>
    requires { IsPrintedPath rest.now }
{
    let value = MergeInfo::parse(alloc, text.as_bytes())?;
    Ok(inherited_text(alloc, &value, rest)?.as_slice() == wanted.as_bytes())
}

const GIVEN_TO_B: [(&str, &str); 5] = [
    ("", ""),
    ("/:2,3*", "/b:2\n"),
    ("/:1\n/a:2", "/a/b:2\n/b:1\n"),
    ("/a:1\n/a-b:2", "/a-b/b:2\n/a/b:1\n"),
    ("/a:1-3,4*,7\n/a/c:5*\n/b:6", "/a/b:1-3,7\n/b/b:6\n"),
];

#[test]
fn inherited_lines_are_printed(rt: HostRuntime) -> Result<(), Fail> {
    for (text, wanted) in GIVEN_TO_B {
        assert!(rt; gives(rt.alloc(), text, "/b", wanted)?, "{text}");
    }
    Ok(())
}

// How the value has a path, and how that has a revision.
fn inheritability_of(alloc: Global, path: &str, rev: u32) -> Result<Option<Option<bool>>, Fail> {
    let value = MergeInfo::parse(alloc, b"/a:1\n/a/b:2-4,9*\n/z:3")?;
    Ok(value.ranges(path.as_bytes()).map(|ranges| ranges.has(rev)))
}

#[test]
fn paths_are_looked_up(rt: HostRuntime) -> Result<(), Fail> {
    for (path, rev, sort) in [
        ("/a/b", 4, Some(Some(true))),
        ("/a/b", 9, Some(Some(false))),
        ("/a/", 1, None),
        ("/zz", 3, None),
    ] {
        assert!(rt; inheritability_of(rt.alloc(), path, rev)? == sort, "{path}");
    }
    Ok(())
}

fn is_copied_as(alloc: Global, text: &str, wanted: &str) -> Result<bool, Fail> {
    let value = MergeInfo::parse(alloc, text.as_bytes())?;
    let copy = value.dup()?;
    is_written_as(alloc, &copy, wanted)
}

fn writes_nothing(alloc: Global, value: &MergeInfo) -> Result<bool, Fail> {
    Ok(value.is_empty() && is_written_as(alloc, value, "")?)
}

// Whether the value without a path and a copy of it write nothing.
fn empty_writes_nothing(alloc: Global) -> Result<bool, Fail> {
    let empty = MergeInfo::empty(alloc);
    let copy = empty.dup()?;
    Ok(writes_nothing(alloc, &empty)? && writes_nothing(alloc, &copy)?)
}

#[test]
fn a_copy_has_the_same_text(rt: HostRuntime) -> Result<(), Fail> {
    assert!(rt; is_copied_as(rt.alloc(), "/b:1\n/a:2*", "/a:2*\n/b:1\n")?);
    assert!(rt; empty_writes_nothing(rt.alloc())?);
    Ok(())
}
