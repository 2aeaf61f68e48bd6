//! The dumps that tables describe. In a table of blocks each line is a sample and each `|` a newline.
use std::alloc::Global;
use std::test::Fail;

/// The first line and an empty one, 31 bytes.
pub(crate) const START: &str = "SVN-fs-dump-format-version: 2

";

/// The first line and revision 0, 51 bytes.
pub(crate) const ZERO: &str = "SVN-fs-dump-format-version: 2

Revision-number: 0

";

/// The first line and revisions 0 and 1, 71 bytes.
pub(crate) const ONE: &str = "SVN-fs-dump-format-version: 2

Revision-number: 0

Revision-number: 1

";

/// The first line of format 3 and an empty one, and the same with revisions 0 and 1, as long as those of format 2.
pub(crate) const START_3: &str = "SVN-fs-dump-format-version: 3

";

pub(crate) const ZERO_3: &str = "SVN-fs-dump-format-version: 3

Revision-number: 0

";

pub(crate) const ONE_3: &str = "SVN-fs-dump-format-version: 3

Revision-number: 0

Revision-number: 1

";

/// The text of a part of a line, in which the long text stands for each `*`.
fn text_of(alloc: Global, part: &str, long: &str) -> Result<String, Fail> {
    let text = part.replace(alloc, '|', "\n")?;
    Ok(text.replace(alloc, '*', long)?)
}

/// The front with that text after it.
pub(crate) fn dump_of(alloc: Global, front: &str, part: &str, long: &str) -> Result<String, Fail> {
    let text = text_of(alloc, part, long)?;
    Ok([front, text.as_str()].concat(alloc)?)
}
