//! What rangelists, values and vectors are after a growth was refused.
ghost use Rattle.merge_info.specs.Line.{IsPrintedPath};

use crate::ranges::{ranges, run, union_of};
use crate::values::is_written_as;
use growth_marks::{begin, end};
use merge_info::{MergeError, MergeInfo};
use range_list::{Ranges, Run};
use std::alloc::{AllocError, Global};
use std::test::Fail;

fn is_parsed(alloc: Global, text: &str, wanted: &str) -> Result<bool, Fail> {
    begin(alloc);
    let value = MergeInfo::parse(alloc, text.as_bytes());
    end(alloc);
    match value {
        Ok(value) => is_written_as(alloc, &value, wanted),
        Err(error) => Ok(matches!(error, MergeError::Memory)),
    }
}

#[test]
fn refused_growths_make_no_text_malformed(rt: HostRuntime) -> Result<(), Fail> {
    for (text, wanted) in [
        ("/a:3-4,7", "/a:3-4,7\n"),
        ("/b:5,2*\n/a:1*", "/a:1*\n/b:2*,5\n"),
        ("a: 3-4,07\n", "/a:3-4,7\n"),
        ("/a//b:2\na/b:3", "/a/b:2-3\n"),
    ] {
        assert!(rt; is_parsed(rt.alloc(), text, wanted)?, "{text}");
    }
    Ok(())
}

// Whether a text is not read, since it is malformed or memory ran out.
fn is_refused(alloc: Global, text: &str) -> bool {
    begin(alloc);
    let value = MergeInfo::parse(alloc, text.as_bytes());
    end(alloc);
    value.is_err()
}

#[test]
fn refused_growths_make_no_value_of_a_malformed_text(rt: HostRuntime) -> Result<(), Fail> {
    for text in ["/a:3-5,4*", "/a/..:1", "/a:1\n/b:2,"] {
        assert!(rt; is_refused(rt.alloc(), text), "{text}");
    }
    Ok(())
}

fn is_inherited(alloc: Global, value: &MergeInfo, rest: &str, wanted: &str) -> Result<bool, Fail>
    requires { IsPrintedPath rest.now }
{
    begin(alloc);
    let below = value.inherited(rest.as_bytes());
    end(alloc);
    match below {
        Ok(below) => is_written_as(alloc, &below, wanted),
        Err(AllocError) => Ok(true),
    }
}

// Two paths whose order is another one below them.
const BOTH: &str = "/a:1\n/a-b:2\n";

// Whether a path inherits what it should of a value, which is written as before.
fn is_inherited_from(alloc: Global, lines: &str, rest: &str, wanted: &str) -> Result<bool, Fail>
    requires { IsPrintedPath rest.now }
{
    let value = MergeInfo::parse(alloc, lines.as_bytes())?;
    Ok(is_inherited(alloc, &value, rest, wanted)? && is_written_as(alloc, &value, lines)?)
}

#[test]
fn refused_growths_change_nothing_that_is_inherited(rt: HostRuntime) -> Result<(), Fail> {
    assert!(rt; is_inherited_from(rt.alloc(), BOTH, "/x", "/a-b/x:2\n/a/x:1\n")?);
    assert!(rt; is_inherited_from(rt.alloc(), "/:2,3*\n", "/b", "/b:2\n")?);
    Ok(())
}

// Whether the union has these runs, or memory ran out.
fn is_union(alloc: Global, one: &Ranges, other: &Ranges, wanted: &[Run]) -> bool {
    begin(alloc);
    let both = one.union(other);
    end(alloc);
    match both {
        Ok(both) => both.runs() == wanted,
        Err(AllocError) => true,
    }
}

// Whether the number 9 is added as inheritable, or all stay as they were.
fn is_nine_added(alloc: Global, ranges: &mut Ranges, before: &[Run], after: &[Run]) -> bool {
    begin(alloc);
    let added = ranges.add(9, 9, true);
    end(alloc);
    ranges.runs() == (if added.is_ok() { after } else { before })
}

fn is_nine_united(alloc: Global, before: &[Run], after: &[Run]) -> Result<bool, Fail> {
    let mut ranges = ranges(alloc)?;
    let mut nine = Ranges::new(alloc);
    nine.add(9, 9, true)?;
    let is_united = is_union(alloc, &ranges, &nine, after);
    Ok(is_united && is_nine_added(alloc, &mut ranges, before, after))
}

#[test]
fn refused_growths_leave_a_set_as_it_was(rt: HostRuntime) -> Result<(), Fail> {
    let before = [run(3, 5, true), run(9, 9, false)];
    let after = [run(3, 5, true), run(9, 9, true)];
    assert!(rt; is_nine_united(rt.alloc(), before.as_slice(), after.as_slice())?);
    Ok(())
}

// Whether what is wanted stands after three bytes, or nothing where it was not written.
fn stands(out: &[u8], written: Result<(), AllocError>, wanted: &[u8]) -> bool {
    let rest = out.strip_prefix(b"abc");
    rest == Some(if written.is_ok() { wanted } else { b"" })
}

fn ranges_are_written(alloc: Global, ranges: &Ranges, wanted: &[u8]) -> Result<bool, Fail> {
    let mut out = Vec::from_slice(alloc, b"abc".as_slice())?;
    begin(alloc);
    let written = ranges.write(&mut out);
    end(alloc);
    Ok(stands(out.as_slice(), written, wanted))
}

fn inheritable_are_written(alloc: Global, ranges: &Ranges, wanted: &[u8]) -> Result<bool, Fail> {
    let mut out = Vec::from_slice(alloc, b"abc".as_slice())?;
    begin(alloc);
    let written = ranges.write_inheritable(&mut out);
    end(alloc);
    Ok(stands(out.as_slice(), written, wanted))
}

#[test]
fn refused_growths_write_nothing_of_a_rangelist(rt: HostRuntime) -> Result<(), Fail> {
    let given = [
        run(10, 14, true),
        run(20, 20, true),
        run(30, 39, false),
        run(40, 44, true),
        run(50, 2147483647, true),
    ];
    let ranges = union_of(rt.alloc(), given.as_slice())?;
    let all = b"10-14,20,30-39*,40-44,50-2147483647";
    assert!(rt; ranges_are_written(rt.alloc(), &ranges, all)?);
    let inheritable = b"10-14,20,40-44,50-2147483647";
    assert!(rt; inheritable_are_written(rt.alloc(), &ranges, inheritable)?);
    Ok(())
}

fn value_is_written(alloc: Global, text: &str, wanted: &[u8]) -> Result<bool, Fail> {
    let value = MergeInfo::parse(alloc, text.as_bytes())?;
    let mut out = Vec::from_slice(alloc, b"abc".as_slice())?;
    begin(alloc);
    let written = value.write(&mut out);
    end(alloc);
    Ok(stands(out.as_slice(), written, wanted))
}

fn inherited_is_written(alloc: Global, text: &str, rest: &str, wanted: &[u8]) -> Result<bool, Fail>
    requires { IsPrintedPath rest.now }
{
    let value = MergeInfo::parse(alloc, text.as_bytes())?;
    let mut out = Vec::from_slice(alloc, b"abc".as_slice())?;
    begin(alloc);
    let written = value.write_inherited(rest.as_bytes(), &mut out);
    end(alloc);
    Ok(stands(out.as_slice(), written, wanted))
}

#[test]
fn refused_growths_write_nothing_of_a_value(rt: HostRuntime) -> Result<(), Fail> {
    let lines = "/a:1-3,4*,7\n/a/c:5*\n/b:6";
    assert!(rt; value_is_written(rt.alloc(), lines, b"/a:1-3,4*,7\n/a/c:5*\n/b:6\n")?);
    assert!(rt; inherited_is_written(rt.alloc(), lines, "/x", b"/a/x:1-3,7\n/b/x:6\n")?);
    assert!(rt; inherited_is_written(rt.alloc(), BOTH, "/x", b"/a-b/x:2\n/a/x:1\n")?);
    Ok(())
}
