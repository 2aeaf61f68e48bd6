//! Refusals of node blocks.

use crate::refusals::check_refusals;
use crate::samples::{ONE, ZERO};
use std::test::Fail;

const SECTIONS: &str = "
6 Node-path: |Node-action: change|Prop-content-length: 10|Content-length: 10||PROPS-EN.|
6 Node-path: |Node-action: change|Prop-content-length: 9||PROPS-END
6 Node-path: |Node-action: change|Prop-content-length: 11||PROPS-END||
6 Node-path: |Node-action: change|Prop-content-length: 11|||PROPS-END|
6 Node-path: |Node-action: change|Prop-content-length: 20||PROPS-END|PROPS-END|
6 Node-path: |Node-action: change|Prop-content-length: 12||K 1|a|V 1|b|
6 Node-path: |Node-action: change|Prop-content-length: 20||K 1|a|V 1|b|PROPS-EN
6 Node-path: |Node-action: change|Prop-content-length: 16||K 1|a|PROPS-END|
6 Node-path: |Node-action: change|Prop-content-length: 22||K 1|a|K 1|b|PROPS-END|
6 Node-path: |Node-action: change|Prop-content-length: 22||V 1|a|V 1|b|PROPS-END|
6 Node-path: |Node-action: change|Prop-content-length: 22||k 1|a|v 1|b|PROPS-END|
6 Node-path: |Node-action: change|Prop-content-length: 16||D 1|a|PROPS-END|
6 Node-path: |Node-action: change|Prop-content-length: 16|Prop-delta: true||D 1|a|PROPS-END|
6 Node-path: a|Prop-content-length: 10||PROPS-EN.|
6 Node-path: ..|Node-action: delete|Prop-content-length: 10||PROPS-EN.|
6 Node-path: a|Node-action: delete|Prop-content-length: 14||K 99|ab|V 0||P
";

#[test]
fn sections_have_one_form(rt: HostRuntime) -> Result<(), Fail> {
    check_refusals(rt.alloc(), ONE, 71, SECTIONS, "")
}

const SECTION_LENGTHS: &str = "
6 Node-path: |Node-action: change|Prop-content-length: 23||K 99|a|V 1|b|PROPS-END|
6 Node-path: |Node-action: change|Prop-content-length: 40||K 9223372036854775808|a|V 1|b|PROPS-END|
6 Node-path: |Node-action: change|Prop-content-length: 41||K 18446744073709551617|a|V 1|b|PROPS-END|
6 Node-path: |Node-action: change|Prop-content-length: 22||K 1|a|V 2|b|PROPS-END|
6 Node-path: |Node-action: change|Prop-content-length: 22||K 1|a|V 0|b|PROPS-END|
6 Node-path: |Node-action: change|Prop-content-length: 20||K ||V 1|b|PROPS-END|
6 Node-path: |Node-action: change|Prop-content-length: 23||K  1|a|V 1|b|PROPS-END|
6 Node-path: |Node-action: change|Prop-content-length: 21||K1|a|V 1|b|PROPS-END|
6 Node-path: |Node-action: change|Prop-content-length: 23||K -1|a|V 1|b|PROPS-END|
6 Node-path: |Node-action: change|Prop-content-length: 23||K +1|a|V 1|b|PROPS-END|
6 Node-path: |Node-action: change|Prop-content-length: 3||K 1
";

#[test]
fn lengths_in_sections_are_exact(rt: HostRuntime) -> Result<(), Fail> {
    check_refusals(rt.alloc(), ONE, 71, SECTION_LENGTHS, "")
}

const RECORDS: &str = "
7 Other: 0||
7 Node-action: delete||
7 node-path: a|Node-action: delete||
7 Node-path: a||
7 Node-path: a|Node-action: ||
7 Node-path: a|Node-action: Delete||
7 Node-path: a|Node-action: delete ||
7 Node-path: ..|Node-action: none|Text-delta: true||
7 Node-path: a|Node-action: add||
7 Node-path: a|Node-action: replace||
7 Node-path: a|Node-kind: |Node-action: add||
7 Node-path: a|Node-kind: link|Node-action: replace||
7 Node-path: a|Node-action: add|Node-copyfrom-rev: 0||
7 Node-path: a|Node-kind: dir|Node-action: replace|Node-copyfrom-rev: 0||
7 Node-path: a|Node-kind: dir|Node-action: add|Node-copyfrom-path: b||
7 Node-path: a|Node-action: replace|Node-copyfrom-path: b||
7 Node-path: a|Node-action: add|Node-copyfrom-rev: |Node-copyfrom-path: b||
7 Node-path: a|Node-action: add|Node-copyfrom-rev: one|Node-copyfrom-path: b||
7 Node-path: a|Node-action: add|Node-copyfrom-rev: -1|Node-copyfrom-path: b||
7 Node-path: a|Node-action: add|Node-copyfrom-rev: 2147483648|Node-copyfrom-path: b||
7 Node-path: a|Node-action: add|Node-copyfrom-rev: 4294967296|Node-copyfrom-path: b||
7 Node-path: ..|Node-action: add|Node-copyfrom-rev: 2147483648|Node-copyfrom-path: ..||
";

#[test]
fn records_have_a_path_an_action_and_a_kind_or_a_source(rt: HostRuntime) -> Result<(), Fail> {
    check_refusals(rt.alloc(), ONE, 71, RECORDS, "")
}

const ACTIONS: &str = "
9 Node-path: a/../b|Node-action: delete||
9 Node-path: ./a|Node-action: change||
9 Node-path: a//.|Node-kind: dir|Node-action: add||
9 Node-path: ..|Node-action: delete|Text-delta: true||
9 Node-path: |Node-action: add|Node-copyfrom-rev: 1|Node-copyfrom-path: b/..||
10 Node-path: a|Node-action: delete|Text-delta: true||
10 Node-path: a|Node-action: change|Text-delta:true||
10 Node-path: a|Node-action: change|Prop-delta: true||
10 Node-path: a|Node-action: change|Prop-delta: true|Prop-content-length: 10||PROPS-END|
10 Node-path: |Node-action: delete|Text-delta: true||
10 Node-path: a|Node-action: add|Node-copyfrom-rev: 1|Node-copyfrom-path: b|Text-delta: true||
11 Node-path: a|Node-action: add|Node-copyfrom-rev: 1|Node-copyfrom-path: ||
11 Node-path: a|Node-action: replace|Node-copyfrom-rev: 2147483647|Node-copyfrom-path: b||
11 Node-path: |Node-action: add|Node-copyfrom-rev: 1|Node-copyfrom-path: b||
12 Node-path: /|Node-action: delete||
12 Node-path: |Node-kind: dir|Node-action: add||
12 Node-path: //|Node-kind: dir|Node-action: replace||
12 Node-path: |Node-action: replace|Node-copyfrom-rev: 0|Node-copyfrom-path: b||
";

#[test]
fn records_are_refused_for_the_first_reason(rt: HostRuntime) -> Result<(), Fail> {
    check_refusals(rt.alloc(), ONE, 71, ACTIONS, "")
}

const IN_REVISION_0: &str = "
7 Node-path: a|Node-action: none||
9 Node-path: ..|Node-action: delete||
10 Node-path: a|Node-action: delete|Text-delta: true||
11 Node-path: a|Node-action: add|Node-copyfrom-rev: 0|Node-copyfrom-path: b||
12 Node-path: |Node-action: delete||
13 Node-path: a|Node-kind: dir|Node-action: add||
13 Node-path: a|Node-action: delete||
13 Node-path: |Node-action: change||
";

#[test]
fn revision_0_has_no_records(rt: HostRuntime) -> Result<(), Fail> {
    check_refusals(rt.alloc(), ZERO, 51, IN_REVISION_0, "")
}
