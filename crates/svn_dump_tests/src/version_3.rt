//! Dumps of format 3, whose sections may be changes to the properties.

use crate::accepted::{ACTIONS, BODIES, NO_DELTAS, OTHER_NAMES, SORTS};
use crate::dump_text::check_blocks;
use crate::mergeinfo::NO_TEXTS;
use crate::refusals::{check_refusals, check_refusals_at};
use crate::samples::{ONE, ONE_3, START_3, ZERO_3};
use std::test::Fail;

const CHANGES: &str = "
revisions of 0 1|r1 / change = Node-path: |Node-action: change|Prop-delta: true||
revisions of 0 1|r1 / change = Node-path: |Node-action: change|Prop-delta: true|Prop-content-length: 0||
revisions of 0 1|r1 / change = Node-path: |Node-action: change|Prop-delta: true|Prop-content-length: 10||PROPS-END|
revisions of 0 1|r1 / change = Node-path: |Node-action: change|Prop-delta: true|Prop-content-length: 22||K 1|a|V 1|b|PROPS-END|
revisions of 0 1|r1 / change = Node-path: |Node-action: change|Prop-delta: true|Prop-content-length: 16||D 1|a|PROPS-END|
revisions of 0 1|r1 / change = Node-path: |Node-action: change|Prop-delta: true|Prop-content-length: 15||D 0||PROPS-END|
revisions of 0 1|r1 / change = Node-path: |Node-action: change|Prop-delta: true|Prop-content-length: 30||D 14|svn:mergeinfo2|PROPS-END|
revisions of 0 1|r1 / change = Node-path: |Node-action: change|Prop-delta: true|Prop-content-length: 29||D 012|svn:mergeinf|PROPS-END|
revisions of 0 1|r1 / change none = Node-path: |Node-action: change|Prop-delta: true|Prop-content-length: 29||D 13|svn:mergeinfo|PROPS-END|
revisions of 0 1|r1 / change none = Node-path: |Node-action: change|Prop-delta: true|Prop-content-length: 30||D 013|svn:mergeinfo|PROPS-END|
revisions of 0 1|r1 / change none = Node-path: |Node-action: change|Prop-delta:true|Prop-content-length: 29||D 13|svn:mergeinfo|PROPS-END|
revisions of 0 1|r1 / change none = Node-path: |Node-action: change|Prop-delta: true|Prop-content-length: 47||D 1|a|D 13|svn:mergeinfo|K 1|a|V 1|b|PROPS-END|
revisions of 0 1|r1 / change none = Node-path: |Node-action: change|Prop-delta: true|Prop-content-length: 57||K 13|svn:mergeinfo|V 4|/s:4|D 13|svn:mergeinfo|PROPS-END|
revisions of 0 1|r1 / change text 0|[/s:4] = Node-path: |Node-action: change|Prop-delta: true|Prop-content-length: 57||D 13|svn:mergeinfo|K 13|svn:mergeinfo|V 4|/s:4|PROPS-END|
revisions of 0 1|r1 / change text 0|[/s:4] = Node-path: |Node-action: change|Prop-delta: true|Prop-content-length: 38||K 13|svn:mergeinfo|V 4|/s:4|PROPS-END|
revisions of 0 1|r1 / change text 0|[/s:4] = Node-path: |Node-action: change|Prop-delta: true|Prop-content-length: 52||K 13|svn:mergeinfo|V 4|/s:4|D 9|PROPS-END|PROPS-END|
";

#[test]
fn changes_keep_what_they_do_not_name(rt: HostRuntime) -> Result<(), Fail> {
    check_blocks(rt.alloc(), ONE_3, CHANGES, "")
}

const RECORDS: &str = "
revisions of 0 1|r1 /t add a dir = Node-path: t|Node-kind: dir|Node-action: add|Prop-delta: true|Prop-content-length: 10||PROPS-END|
revisions of 0 1|r1 /t replace by a dir = Node-path: t|Node-kind: dir|Node-action: replace|Prop-delta: true|Prop-content-length: 22||K 1|a|V 1|b|PROPS-END|
revisions of 0 1|r1 /t add a dir text 0|[/s:4] = Node-path: t|Node-kind: dir|Node-action: add|Prop-delta: true|Prop-content-length: 57||D 13|svn:mergeinfo|K 13|svn:mergeinfo|V 4|/s:4|PROPS-END|
revisions of 0 1|r1 /t add a dir none = Node-path: t|Node-kind: dir|Node-action: add|Prop-delta: true|Prop-content-length: 57||K 13|svn:mergeinfo|V 4|/s:4|D 13|svn:mergeinfo|PROPS-END|
revisions of 0 1|r1 /c copy /t@0 = Node-path: c|Node-action: add|Node-copyfrom-rev: 0|Node-copyfrom-path: t|Prop-delta: true|Prop-content-length: 10||PROPS-END|
revisions of 0 1|r1 /c copy /t@0 none = Node-path: c|Node-action: add|Node-copyfrom-rev: 0|Node-copyfrom-path: t|Prop-delta: true|Prop-content-length: 29||D 13|svn:mergeinfo|PROPS-END|
revisions of 0 1|r1 /t delete = Node-path: t|Node-action: delete|Prop-delta: true|Prop-content-length: 29||D 13|svn:mergeinfo|PROPS-END|
revisions of 0 1|r1 /t change = Node-path: t|Node-action: change|Text-delta: true|Text-content-length: 4||SVN.
revisions of 0 1|r1 /t change none = Node-path: t|Node-action: change|Text-delta: true|Text-content-length: 4|Prop-content-length: 10||PROPS-END|SVN.
revisions of 0 1|r1 /t change = Node-path: t|Node-action: change|Text-delta: true|Text-content-length: 4|Prop-delta: true|Prop-content-length: 10||PROPS-END|SVN.
revisions of 0 0 0 = Revision-number: 2|Prop-delta: true|Prop-content-length: 6||D 1|a|
revisions of 0 0 = UUID: 0|Prop-delta: true|Prop-content-length: 6||d 1|a|
revisions of 0 1 1 1|r1 /t add a dir text 0|r2 /c copy /t@1|r3 /c change none|[/s:4] = Node-path: t|Node-kind: dir|Node-action: add|Prop-delta: true|Prop-content-length: 38||K 13|svn:mergeinfo|V 4|/s:4|PROPS-END|Revision-number: 2||Node-path: c|Node-action: add|Node-copyfrom-rev: 1|Node-copyfrom-path: t||Revision-number: 3||Node-path: c|Node-action: change|Prop-delta: true|Prop-content-length: 29||D 13|svn:mergeinfo|PROPS-END|
";

#[test]
fn each_action_may_have_deltas(rt: HostRuntime) -> Result<(), Fail> {
    check_blocks(rt.alloc(), ONE_3, RECORDS, "")
}

const WHOLE_LISTS: &str = "
revisions of 0 1|r1 / change none = Node-path: |Node-action: change|Prop-content-length: 10||PROPS-END|
revisions of 0 1|r1 / change none = Node-path: |Node-action: change|Prop-delta: True|Prop-content-length: 10||PROPS-END|
revisions of 0 1|r1 / change none = Node-path: |Node-action: change|Prop-delta: true |Prop-content-length: 10||PROPS-END|
revisions of 0 1|r1 / change none = Node-path: |Node-action: change|Prop-delta:  true|Prop-content-length: 10||PROPS-END|
revisions of 0 1|r1 / change none = Node-path: |Node-action: change|Prop-delta: false|Prop-content-length: 10||PROPS-END|
revisions of 0 1|r1 / change none = Node-path: |Node-action: change|Prop-delta: 1|Prop-content-length: 10||PROPS-END|
revisions of 0 1|r1 / change none = Node-path: |Node-action: change|Prop-delta: |Prop-content-length: 10||PROPS-END|
revisions of 0 1|r1 / change none = Node-path: |Node-action: change|Prop-delta: true\r|Prop-content-length: 10||PROPS-END|
revisions of 0 1|r1 / change text 0|[/s:4] = Node-path: |Node-action: change|Prop-delta: false|Prop-content-length: 38||K 13|svn:mergeinfo|V 4|/s:4|PROPS-END|
";

const DELETED_IN_WHOLE_LISTS: &str = "
6 Node-path: |Node-action: change|Prop-content-length: 29||D 13|svn:mergeinfo|PROPS-END|
6 Node-path: |Node-action: change|Prop-delta: True|Prop-content-length: 29||D 13|svn:mergeinfo|PROPS-END|
6 Node-path: |Node-action: change|Prop-delta: true |Prop-content-length: 29||D 13|svn:mergeinfo|PROPS-END|
6 Node-path: |Node-action: change|Prop-delta:  true|Prop-content-length: 29||D 13|svn:mergeinfo|PROPS-END|
6 Node-path: |Node-action: change|Prop-delta: false|Prop-content-length: 29||D 13|svn:mergeinfo|PROPS-END|
6 Node-path: |Node-action: change|Prop-delta: 1|Prop-content-length: 29||D 13|svn:mergeinfo|PROPS-END|
6 Node-path: |Node-action: change|Prop-delta: |Prop-content-length: 29||D 13|svn:mergeinfo|PROPS-END|
6 Node-path: |Node-action: change|Prop-delta: true\r|Prop-content-length: 29||D 13|svn:mergeinfo|PROPS-END|
6 Node-path: |Node-action: change|Text-delta: true|Prop-content-length: 29||D 13|svn:mergeinfo|PROPS-END|
";

#[test]
fn only_true_makes_a_section_of_changes(rt: HostRuntime) -> Result<(), Fail> {
    check_blocks(rt.alloc(), ONE_3, WHOLE_LISTS, "")?;
    check_refusals(rt.alloc(), ONE_3, 71, DELETED_IN_WHOLE_LISTS, "")
}

const FAULTY: &str = "
6 Node-path: |Node-action: change|Prop-delta: true|Prop-content-length: 22||D 1|a|V 1|b|PROPS-END|
6 Node-path: |Node-action: change|Prop-delta: true|Prop-content-length: 22||K 1|a|D 1|b|PROPS-END|
6 Node-path: |Node-action: change|Prop-delta: true|Prop-content-length: 16||K 1|a|PROPS-END|
6 Node-path: |Node-action: change|Prop-delta: true|Prop-content-length: 16||D 2|a|PROPS-END|
6 Node-path: |Node-action: change|Prop-delta: true|Prop-content-length: 16||D 0|a|PROPS-END|
6 Node-path: |Node-action: change|Prop-delta: true|Prop-content-length: 15||D |a|PROPS-END|
6 Node-path: |Node-action: change|Prop-delta: true|Prop-content-length: 16||d 1|a|PROPS-END|
6 Node-path: |Node-action: change|Prop-delta: true|Prop-content-length: 15||D1|a|PROPS-END|
6 Node-path: |Node-action: change|Prop-delta: true|Prop-content-length: 6||D 1|a|
6 Node-path: |Node-action: change|Prop-delta: true|Prop-content-length: 17||D 1|a|PROPS-END||
6 Node-path: |Node-action: change|Prop-delta: true|Prop-content-length: 17||D 99|a|PROPS-END|
6 Node-path: ..|Node-action: none|Prop-delta: true|Prop-content-length: 16||d 1|a|PROPS-END|
3 Node-path: |Node-action: change|Prop-delta: true|Prop-delta: true||
7 Node-path: t|Node-action: none|Prop-delta: true|Prop-content-length: 29||D 13|svn:mergeinfo|PROPS-END|
9 Node-path: ..|Node-action: delete|Prop-delta: true||
11 Node-path: t|Node-action: add|Node-copyfrom-rev: 1|Node-copyfrom-path: b|Prop-delta: true|Prop-content-length: 29||D 13|svn:mergeinfo|PROPS-END|
11 Node-path: |Node-action: add|Node-copyfrom-rev: 1|Node-copyfrom-path: b|Text-delta: true||
12 Node-path: |Node-action: delete|Text-delta: true||
";

#[test]
fn changes_have_one_form(rt: HostRuntime) -> Result<(), Fail> {
    check_refusals(rt.alloc(), ONE_3, 71, FAULTY, "")
}

const BEFORE_A_REVISION: &str = "
6 31 Node-path: t|Node-action: change|Prop-content-length: 29||D 13|svn:mergeinfo|PROPS-END|
7 31 Node-path: t|Node-action: change|Prop-delta: true|Prop-content-length: 29||D 13|svn:mergeinfo|PROPS-END|
";

const IN_REVISION_0: &str = "
13 Node-path: t|Node-action: change|Prop-delta: true|Prop-content-length: 29||D 13|svn:mergeinfo|PROPS-END|
13 Node-path: t|Node-action: change|Text-delta: true||
";

#[test]
fn changes_come_after_revision_0(rt: HostRuntime) -> Result<(), Fail> {
    check_refusals_at(rt.alloc(), START_3, BEFORE_A_REVISION)?;
    check_refusals(rt.alloc(), ZERO_3, 51, IN_REVISION_0, "")
}

const IN_FORMAT_2: &str = "
6 Node-path: |Node-action: change|Prop-delta: true|Prop-content-length: 29||D 13|svn:mergeinfo|PROPS-END|
6 Node-path: |Node-action: change|Prop-delta: true|Prop-content-length: 10||PROPS-EN.|
10 Node-path: |Node-action: change|Prop-delta: true|Prop-content-length: 38||K 13|svn:mergeinfo|V 4|/s:4|PROPS-END|
10 Node-path: |Node-action: change|Prop-delta: true|Prop-content-length: 10||PROPS-END|
10 Node-path: |Node-action: change|Prop-delta: true||
10 Node-path: |Node-action: change|Prop-delta: true|Prop-content-length: 0||
9 Node-path: ..|Node-action: delete|Prop-delta: true|Prop-content-length: 10||PROPS-END|
10 Node-path: t|Node-action: add|Node-copyfrom-rev: 1|Node-copyfrom-path: b|Prop-delta: true||
";

#[test]
fn format_2_has_no_changes(rt: HostRuntime) -> Result<(), Fail> {
    check_refusals(rt.alloc(), ONE, 71, IN_FORMAT_2, "")
}

#[test]
fn what_format_2_says_format_3_says_too(rt: HostRuntime) -> Result<(), Fail> {
    for table in [ACTIONS, BODIES, NO_DELTAS, NO_TEXTS, OTHER_NAMES, SORTS] {
        check_blocks(rt.alloc(), ONE_3, table, "")?;
    }
    Ok(())
}
