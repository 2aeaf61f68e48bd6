//! Long paths and long numbers, which stand for each `*` of a table.

use crate::dump_text::check_blocks;
use crate::refusals::check_refusals;
use crate::samples::{ONE, ZERO};
use std::alloc::Global;
use std::test::Fail;

const LONG_PATHS: &str = "
14 Node-path: *|Node-action: delete||
14 Node-path: *|Node-action: change||
14 Node-path: b|Node-action: add|Node-copyfrom-rev: 0|Node-copyfrom-path: *||
9 Node-path: ..*|Node-action: delete||
9 Node-path: *|Node-action: add|Node-copyfrom-rev: 0|Node-copyfrom-path: .||
10 Node-path: *|Node-action: delete|Text-delta: true||
11 Node-path: *|Node-action: add|Node-copyfrom-rev: 1|Node-copyfrom-path: b||
";

// This path is refused in each place, and also in revision 0.
fn check_long_path(alloc: Global, path: &str) -> Result<(), Fail> {
    check_refusals(alloc, ONE, 71, LONG_PATHS, path)?;
    let delete = "13 Node-path: *|Node-action: delete||";
    check_refusals(alloc, ZERO, 51, delete, path)
}

fn check_components(alloc: Global, count: usize) -> Result<(), Fail> {
    let path = "/a".repeat(alloc, count)?;
    check_long_path(alloc, path.as_str())
}

#[test]
fn paths_have_at_most_1024_components(rt: HostRuntime) -> Result<(), Fail> {
    check_components(rt.alloc(), 1025)?;
    check_components(rt.alloc(), 100_000)
}

const PATHS: &str = "
revisions of 0 1|r1 * delete = Node-path: *|Node-action: delete||
revisions of 0 1|r1 * change = Node-path: *//|Node-action: change||
revisions of 0 1|r1 * copy *@0 = Node-path: *|Node-action: add|Node-copyfrom-rev: 0|Node-copyfrom-path: *||
revisions of 0 1|r1 /b delete = Node-path: b|Node-action: delete|Node-copyfrom-path: *a/a||
revisions of 0 0 0 = Revision-number: 2|Node-path: */a||
";

#[test]
fn paths_of_1024_components_are_read(rt: HostRuntime) -> Result<(), Fail> {
    let path = "/a".repeat(rt.alloc(), 1024)?;
    check_blocks(rt.alloc(), ONE, PATHS, path.as_str())
}

const GREAT_NUMBERS: &str = "
4 Node-path: a|Node-action: change|Content-length: *||ab
6 Node-path: |Node-action: change|Prop-content-length: 1021||K *|a|V 1|b|PROPS-END|
7 Node-path: a|Node-action: add|Node-copyfrom-rev: *|Node-copyfrom-path: b||
8 Revision-number: *||
";

#[test]
fn numbers_of_a_thousand_digits_are_too_great(rt: HostRuntime) -> Result<(), Fail> {
    let digits = "9".repeat(rt.alloc(), 1000)?;
    check_refusals(rt.alloc(), ONE, 71, GREAT_NUMBERS, digits.as_str())
}

const ZEROS: &str = "
revisions of 0 1|r1 /a change = Node-path: a|Node-action: change|Content-length: *2||ab
revisions of 0 1|r1 /a change none = Node-path: a|Node-action: change|Prop-content-length: 1022||K *1|a|V 1|b|PROPS-END|
revisions of 0 1|r1 /a copy /b@0 = Node-path: a|Node-action: add|Node-copyfrom-rev: *|Node-copyfrom-path: b||
revisions of 0 0 0 = Revision-number: *2||
";

#[test]
fn numbers_may_begin_with_a_thousand_zeros(rt: HostRuntime) -> Result<(), Fail> {
    let zeros = "0".repeat(rt.alloc(), 1000)?;
    check_blocks(rt.alloc(), ONE, ZEROS, zeros.as_str())
}
