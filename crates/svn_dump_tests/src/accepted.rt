//! What is read, and what is ignored.

use crate::dump_text::{check_blocks, check_dump};
use crate::samples::{ONE, START, ZERO};
use std::test::Fail;

#[test]
fn a_dump_may_end_after_a_revision(rt: HostRuntime) -> Result<(), Fail> {
    check_dump(rt.alloc(), ZERO, "", "revisions of 0")?;
    check_dump(rt.alloc(), ONE, "", "revisions of 0 0")
}

#[test]
fn revision_numbers_may_begin_with_zeros(rt: HostRuntime) -> Result<(), Fail> {
    check_blocks(
        rt.alloc(),
        START,
        "revisions of 0 = Revision-number: 00||",
        "",
    )?;
    let two = "revisions of 0 0 0 = Revision-number:001||Revision-number: 02||";
    check_blocks(rt.alloc(), ZERO, two, "")
}

pub(crate) const BODIES: &str = "
revisions of 0 0 = |||
revisions of 0 0 = UUID: 0|Content-length: 5||Node|
revisions of 0 1|r1 /a add a file = Node-path: a|Node-kind: file|Node-action: add|Content-length: 8||hello...
revisions of 0 1|r1 /a add a file = Node-path: a|Node-kind: file|Node-action: add|Text-content-length: 5|Content-length: 8||hello...
revisions of 0 1|r1 /a delete = Node-path: a|Node-action: delete|Text-content-length: 5|Content-length: 8||hello...
revisions of 0 1 0|r1 /a change = Node-path: a|Node-action: change|Text-content-length: 6||Node-|Revision-number: 2||
revisions of 0 0 0 0 = Revision-number: 2|Content-length: 20||Revision-number: 9||Revision-number: 3||
";

#[test]
fn empty_lines_and_bodies_are_skipped(rt: HostRuntime) -> Result<(), Fail> {
    check_blocks(rt.alloc(), ONE, BODIES, "")
}

pub(crate) const OTHER_NAMES: &str = "
revisions of 0 1|r1 /a change = ||Text-content-md5: 0|Node-path: a|Text-content-md5: 1|Node-action: change||||
revisions of 0 1|r1 /a/b add a file = Node-path:/a//b/|Node-kind:file|Node-action:add||
revisions of 0 0 0 = Revision-number:2|revision-number: 7|Other: :||
";

#[test]
fn other_header_names_are_ignored(rt: HostRuntime) -> Result<(), Fail> {
    check_blocks(rt.alloc(), ONE, OTHER_NAMES, "")
}

pub(crate) const SORTS: &str = "
revisions of 0 0 0 = Revision-number: 2|Node-path: ..|Node-action: none|Node-copyfrom-rev: x||
revisions of 0 0 0 = Revision-number: 2|Node-path: a|Prop-delta: true|Prop-content-length: 10||PROPS-EN.|
revisions of 0 0 0 = UUID: 0|Revision-number: 2|Text-delta: true||
revisions of 0 0 = UUID: 0|Node-kind: link|Prop-delta: true|Prop-content-length: 10||PROPS-EN.|
revisions of 0 1|r1 /a delete = UUID: 0|Node-path: a|Node-action: delete||
";

#[test]
fn revisions_come_before_paths_and_paths_before_identifiers(rt: HostRuntime) -> Result<(), Fail> {
    check_blocks(rt.alloc(), ONE, SORTS, "")
}

pub(crate) const ACTIONS: &str = "
revisions of 0 1|r1 /a delete = Node-path: a|Node-action: delete|Node-kind: link|Node-copyfrom-rev: 9||
revisions of 0 1|r1 /a delete = Node-path: a|Node-action: delete|Node-copyfrom-rev: 9|Node-copyfrom-path: ..||
revisions of 0 1|r1 /a change = Node-path: a|Node-action: change|Node-kind: |Node-copyfrom-path: ../a||
revisions of 0 1|r1 / change = Node-path: |Node-action: change|Node-copyfrom-rev: 2147483648|Node-copyfrom-path: .||
revisions of 0 1|r1 /a copy /b@0 = Node-path: a|Node-kind: link|Node-action: add|Node-copyfrom-rev: 0|Node-copyfrom-path: b||
revisions of 0 1|r1 /a replace by /b@0 = Node-path: a|Node-kind: |Node-action: replace|Node-copyfrom-rev: 0|Node-copyfrom-path: b||
";

#[test]
fn headers_that_an_action_does_not_need_are_ignored(rt: HostRuntime) -> Result<(), Fail> {
    check_blocks(rt.alloc(), ONE, ACTIONS, "")
}

pub(crate) const NO_DELTAS: &str = "
revisions of 0 1|r1 /a change = Node-path: a|Node-action: change|Text-delta: True|Prop-delta: TRUE||
revisions of 0 1|r1 /a change = Node-path: a|Node-action: change|Text-delta: true |Prop-delta:  true||
revisions of 0 1|r1 /a change = Node-path: a|Node-action: change|Text-delta: true\r|Prop-delta: ||
revisions of 0 1|r1 /a change = Node-path: a|Node-action: change|Text-delta: false|Prop-delta: 1||
";

#[test]
fn only_true_makes_a_delta(rt: HostRuntime) -> Result<(), Fail> {
    check_blocks(rt.alloc(), ONE, NO_DELTAS, "")
}
