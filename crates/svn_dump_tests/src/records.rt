//! What records are read.

use crate::dump_text::{check_blocks, check_text};
use crate::samples::ONE;
use sample_dumps::{DELETE_AND_COPY, DUMPED, FIRST, MERGED, joined};
use std::alloc::Global;
use std::test::Fail;
use svn_dump::read;
use svn_path::NameId;

// `check_blocks` compares what `dup` gives with the same text, so here is a record of each kind.
const RECORDS: &str = "
revisions of 0 1|r1 /a/b delete = Node-path: a/b|Node-action: delete||
revisions of 0 1|r1 /a change none = Node-path: a|Node-action: change|Prop-content-length: 10||PROPS-END|
revisions of 0 1|r1 /trunk/a add a file = Node-path: trunk/a|Node-kind: file|Node-action: add||
revisions of 0 1|r1 /a replace by a dir = Node-path: a|Node-kind: dir|Node-action: replace||
revisions of 0 1|r1 /b copy /trunk@0 = Node-path: b|Node-action: add|Node-copyfrom-rev: 0|Node-copyfrom-path: trunk||
revisions of 0 0 1|r2 /a replace by /a/c@1 = Revision-number: 2||Node-path: a|Node-action: replace|Node-copyfrom-rev: 1|Node-copyfrom-path: a/c||
";

#[test]
fn dup_gives_an_equal_record_of_each_kind(rt: HostRuntime) -> Result<(), Fail> {
    check_blocks(rt.alloc(), ONE, RECORDS, "")
}

const COPIED_TEXT: &str = "
revisions of 0 1 1
r1 /trunk add a dir
r2 /b copy /trunk@1
";

#[test]
fn copies_keep_their_source(rt: HostRuntime) -> Result<(), Fail> {
    check_text(rt.alloc(), FIRST, COPIED_TEXT)
}

const THREE_NAMES: &[u8] = b"SVN-fs-dump-format-version: 2

Revision-number: 0

Revision-number: 1

Node-path: b/a
Node-action: add
Node-copyfrom-rev: 0
Node-copyfrom-path: /c//b/

";

// Whether a name has this number among three names.
fn is_read(alloc: Global, name: &str, number: NameId) -> Result<bool, Fail> {
    let dump = read(alloc, THREE_NAMES)?;
    let names = dump.names();
    Ok(names.len() == 3 && names.find(name.as_bytes()) == Some(number))
}

#[test]
fn names_are_numbered_as_first_seen(rt: HostRuntime) -> Result<(), Fail> {
    for (name, number) in [("b", NameId(0)), ("a", NameId(1)), ("c", NameId(2))] {
        assert!(rt; is_read(rt.alloc(), name, number)?, "{name}");
    }
    Ok(())
}

/// What is read of `DUMPED` and `DELETE_AND_COPY`.
pub(crate) const SAMPLE_TEXT: &str = "
revisions of 0 2 1 2
r1 /trunk add a dir none
r1 /trunk/f add a file none
r2 /b copy /trunk@1
r3 /b delete
r3 /b copy /trunk@2
";

#[test]
fn reads_what_svnadmin_writes(rt: HostRuntime) -> Result<(), Fail> {
    let dump = joined(rt.alloc(), DUMPED, DELETE_AND_COPY)?;
    check_text(rt.alloc(), dump.as_slice(), SAMPLE_TEXT)
}

/// What is read of `MERGED`.
pub(crate) const MERGED_TEXT: &str = "
revisions of 0 2 1 1 1 1 1 1 1 1 1
r1 /trunk add a dir
r1 /branches add a dir
r2 /trunk/f add a file
r3 /trunk/f change
r4 /branches/b copy /trunk@2
r5 /branches/b/f change
r6 /trunk/f change
r7 /trunk change text 0
r8 /trunk/f delete
r9 /branches change text 1
r10 /branches/b change text 2
[/branches/b:5]
[/trunk:3*,6]
[]
";

#[test]
fn a_history_with_merges_keeps_its_records(rt: HostRuntime) -> Result<(), Fail> {
    check_text(rt.alloc(), MERGED, MERGED_TEXT)
}
