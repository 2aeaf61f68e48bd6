//! Refusals of lines, of whole blocks, and of the end.

use crate::refusals::{check_refusal, check_refusals, check_refusals_at};
use crate::samples::{ONE, START, ZERO};
use std::test::Fail;

const FIRST_LINES: &str = "
1 
1 Revision-number: 0||
1 |SVN-fs-dump-format-version: 2||
1 svn-fs-dump-format-version: 2||
1 SVN-fs-dump-format-version:2||
2 SVN-fs-dump-format-version: 4||
2 SVN-fs-dump-format-version: 23||
2 SVN-fs-dump-format-version: 32||
2 SVN-fs-dump-format-version: 33||
2 SVN-fs-dump-format-version: 3 ||
2 SVN-fs-dump-format-version: 3\r|\r|
2 SVN-fs-dump-format-version:  3||
2 SVN-fs-dump-format-version: 02||
2 SVN-fs-dump-format-version: 03||
2 SVN-fs-dump-format-version: 22||
2 SVN-fs-dump-format-version: 2 ||
2 SVN-fs-dump-format-version: 2\r|\r|
2 SVN-fs-dump-format-version:  2||
2 SVN-fs-dump-format-version: ||
5 SVN-fs-dump-format-version: 2
5 SVN-fs-dump-format-version: 4
5 SVN-fs-dump-format-version: 3
5 SVN-fs-dump-format-version: 33
5 SVN-fs-dump-format-version: 
";

#[test]
fn first_lines_have_version_2_or_3(rt: HostRuntime) -> Result<(), Fail> {
    check_refusals(rt.alloc(), "", 0, FIRST_LINES, "")
}

#[test]
fn dumps_cut_within_a_revision_are_refused(rt: HostRuntime) -> Result<(), Fail> {
    for (least, most, number, at) in [
        (0, 27, 1, 0),
        (28, 29, 5, 0),
        (30, 30, 8, 30),
        (31, 31, 8, 31),
        (32, 50, 5, 31),
        (52, 70, 5, 51),
    ] {
        for length in least..=most {
            let (front, _) = ONE.as_bytes().split_at(ONE.len().min(length));
            check_refusal(rt.alloc(), front, number, at)?;
        }
    }
    Ok(())
}

const BEFORE_A_REVISION: &str = "
8 31 
8 34 |||
8 40 UUID: 0||
8 63 UUID: 0|Content-length: 3||abc||
3 31 UUID: 0|UUID: 0||
4 31 UUID: 0|Content-length: x||
5 31 UUID: 0|
5 31 UUID: 0|Content-length: 1||
6 31 Node-path: a|Node-action: delete|Prop-content-length: 10||PROPS-EN.|
7 31 Node-path: a|Node-action: delete||
7 31 Node-path: ..|Node-action: delete|Text-delta: true||
7 31 UUID: 0|Node-path: a|Node-action: delete||
7 31 Other: 0||
8 31 Revision-number: 1||
";

#[test]
fn revisions_come_first(rt: HostRuntime) -> Result<(), Fail> {
    check_refusals_at(rt.alloc(), START, BEFORE_A_REVISION)
}

const REVISION_NUMBERS: &str = "
8 Revision-number: 2||
8 Revision-number: 0||
8 Revision-number: ||
8 Revision-number: one||
8 Revision-number: -1||
8 Revision-number: +1||
8 Revision-number:  1||
8 Revision-number: 1 ||
8 Revision-number: 4294967297||
8 Revision-number: 18446744073709551617||
5 Revision-number: 1|
";

#[test]
fn revisions_are_numbered_in_order(rt: HostRuntime) -> Result<(), Fail> {
    check_refusals(rt.alloc(), ZERO, 51, REVISION_NUMBERS, "")
}

const HEADER_LINES: &str = "
3 Node-path a||
3 Node-path: a|Node-path: a||
3 Node-path: a|Node-action: delete|Node-kind: x|Node-kind: y||
3 Revision-number: 2|Node||
3 : a||
3 Node-path: a|: b||
3 \r|
3 Node|
3 Node-path: a|Node-path: b|Node
3 Content-length: x|Node||
3 Content-length: x|Node|
";

#[test]
fn header_lines_have_a_name_and_a_colon(rt: HostRuntime) -> Result<(), Fail> {
    check_refusals(rt.alloc(), ONE, 71, HEADER_LINES, "")
}

const LISTED_NAMES: &str = "
3 UUID: 0|UUID: 0||
3 Revision-number: 0|Revision-number: 0||
3 Node-path: 0|Node-path: 0||
3 Node-kind: 0|Node-kind: 0||
3 Node-action: 0|Node-action: 0||
3 Node-copyfrom-rev: 0|Node-copyfrom-rev: 0||
3 Node-copyfrom-path: 0|Node-copyfrom-path: 0||
3 Prop-content-length: 0|Prop-content-length: 0||
3 Text-content-length: 0|Text-content-length: 0||
3 Content-length: 0|Content-length: 0||
3 Prop-delta: 0|Prop-delta: 0||
3 Text-delta: 0|Text-delta: 0||
";

#[test]
fn listed_names_come_once(rt: HostRuntime) -> Result<(), Fail> {
    check_refusals(rt.alloc(), ONE, 71, LISTED_NAMES, "")
}

// Here `*` stands for the greatest length.
const LENGTHS: &str = "
4 Node-path: a|Node-kind: file|Node-action: add|Text-content-length: 5|Content-length: 4||hello
4 Node-path: a|Node-action: delete|Content-length: 9223372036854775808||
4 Node-path: a|Node-action: delete|Prop-content-length: *|Text-content-length: 1||
4 Revision-number: 2|Prop-content-length: *|Text-content-length: *||
4 Revision-number: 9|Prop-content-length: 9223372036854775808||
4 UUID: 0|Text-content-length: 18446744073709551617||
4 Other: 0|Content-length: ||
4 Node-path: a|Content-length: x||
4 Node-path: a|Content-length: -1||
4 Node-path: a|Content-length: +1||
4 Node-path: a|Content-length:  1||
4 Node-path: a|Content-length: 1 ||
4 Content-length: x|
4 Prop-content-length: 5|Content-length: 4|
4 Prop-content-length: 5|Content-length: 4|Node-path
5 N
5 Node-path: a|
5 Node-path: a|Node
5 Node-path: a|Node-path: a
5 Content-length: 9223372036854775808
5 Prop-content-length: 5|Content-length: 4
5 Node-path: a|Node-kind: file|Node-action: add|Text-content-length: 5|Content-length: 5||hell
5 Node-path: a|Node-action: delete|Content-length: *||
5 Node-path: |Node-action: change|Prop-content-length: 34||K 13|svn:mergeinfo|V 0||PROPS-END
5 Node-path: |Node-action: change|Prop-content-length: 34|Content-length: 34||K 13|svn:mergeinfo|V 0||PROPS-END
5 Node-path: a|Prop-content-length: 10|Content-length: 11||PROPS-EN.|
5 Node-path: ..|Node-action: delete|Content-length: 9||
5 Revision-number: 9|Text-content-length: 1||
";

#[test]
fn blocks_have_their_lengths(rt: HostRuntime) -> Result<(), Fail> {
    check_refusals(rt.alloc(), ONE, 71, LENGTHS, "9223372036854775807")
}

const SEVERAL_BLOCKS: &str = "
9 71 Node-path: ..|Node-action: delete||Node||
7 71 Other: 0||Content-length: x||
8 71 Revision-number: 3||Node-path: a|
3 73 ||Node||
8 80 UUID: 0||Revision-number: 1||Node||
7 92 Revision-number: 2|||Other: 0||Node||
7 103 UUID: 0|Content-length: 5||helloOther: 0||
5 104 UUID: 0|Content-length: 6|||Node|Node-path
3 105 Node-path: a|Node-action: delete||Node||
";

#[test]
fn the_first_faulty_block_is_reported(rt: HostRuntime) -> Result<(), Fail> {
    check_refusals_at(rt.alloc(), ONE, SEVERAL_BLOCKS)
}
