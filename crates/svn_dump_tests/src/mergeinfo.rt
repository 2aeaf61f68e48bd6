//! What mergeinfo texts are read.
use crate::dump_text::{check_blocks, check_dump};
use crate::samples::ONE;
use std::test::Fail;

// Changes of the root that give it the texts `/a:1`, an empty one, and `/b:2-3`.
const GIVES_A: &str = "Node-path:
Node-action: change
Prop-content-length: 38

K 13
svn:mergeinfo
V 4
/a:1
PROPS-END
";

const GIVES_NONE: &str = "Node-path:
Node-action: change
Prop-content-length: 34

K 13
svn:mergeinfo
V 0

PROPS-END
";

const GIVES_B: &str = "Node-path:
Node-action: change
Prop-content-length: 40

K 13
svn:mergeinfo
V 6
/b:2-3
PROPS-END
";

const GIVES_TEXT: &str = "
revisions of 0 5
r1 / change text 0
r1 / change text 1
r1 / change text 2
r1 / change text 0
r1 / change text 1
[/a:1]
[]
[/b:2-3]
";

#[test]
fn equal_texts_have_one_number(rt: HostRuntime) -> Result<(), Fail> {
    let blocks = [GIVES_A, GIVES_NONE, GIVES_B, GIVES_A, GIVES_NONE].concat(rt.alloc())?;
    check_dump(rt.alloc(), ONE, blocks.as_str(), GIVES_TEXT)
}

// The text has what looks like the end of the section.
const LINES_IN_A_TEXT: &str = "Node-path:
Node-action: change
Prop-content-length: 55

K 13
svn:mergeinfo
V 20
/a:1
PROPS-END
K 1


PROPS-END
";

const LINES_TEXT: &str = "
revisions of 0 1
r1 / change text 0
[/a:1
PROPS-END
K 1

]
";

const TWO_TEXTS: &str = "Node-path:
Node-action: change
Prop-content-length: 78

K 13
svn:mergeinfo
V 4
/a:1
K 1
a
V 1
b
K 13
svn:mergeinfo
V 4
/b:2
PROPS-END
";

const LAST_TEXT: &str = "
revisions of 0 1
r1 / change text 0
[/b:2]
";

#[test]
fn the_last_text_of_a_section_is_taken_as_it_is(rt: HostRuntime) -> Result<(), Fail> {
    check_dump(rt.alloc(), ONE, LINES_IN_A_TEXT, LINES_TEXT)?;
    check_dump(rt.alloc(), ONE, TWO_TEXTS, LAST_TEXT)
}

pub(crate) const NO_TEXTS: &str = "
revisions of 0 1|r1 / change none = Node-path: |Node-action: change|Prop-content-length: 10||PROPS-END|
revisions of 0 1|r1 / change none = Node-path: |Node-action: change|Prop-content-length: 39||K 14|svn:mergeinfo2|V 4|/a:1|PROPS-END|
revisions of 0 1|r1 / change none = Node-path: |Node-action: change|Prop-content-length: 28||K 001|a|V 0002|b||PROPS-END|
revisions of 0 1|r1 / change none = Node-path: |Node-action: change|Prop-content-length: 20||K 0||V 0||PROPS-END|
revisions of 0 1|r1 / change none = Node-path: |Node-action: change|Prop-content-length: 43||K 10|PROPS-END||V 11||PROPS-END||PROPS-END|
revisions of 0 1|r1 / change = Node-path: |Node-action: change|Prop-content-length: 0||
revisions of 0 1|r1 / change = Node-path: |Node-action: change|Prop-content-length: 00|Content-length: 10||PROPS-END|
";

#[test]
fn sections_without_mergeinfo_remove_it(rt: HostRuntime) -> Result<(), Fail> {
    check_blocks(rt.alloc(), ONE, NO_TEXTS, "")
}

const EMPTY_TEXT: &str = "
revisions of 0 1|r1 / change text 0|[] = Node-path: |Node-action: change|Prop-content-length: 34|Content-length: 34||K 13|svn:mergeinfo|V 0||PROPS-END|
";

#[test]
fn a_text_may_be_empty(rt: HostRuntime) -> Result<(), Fail> {
    check_blocks(rt.alloc(), ONE, EMPTY_TEXT, "")
}

const DELETED: &str = "Node-path: a
Node-action: delete
Prop-content-length: 38

K 13
svn:mergeinfo
V 4
/a:1
PROPS-END
";

#[test]
fn the_mergeinfo_of_a_delete_is_ignored(rt: HostRuntime) -> Result<(), Fail> {
    check_dump(rt.alloc(), ONE, DELETED, "revisions of 0 1\nr1 /a delete")
}
