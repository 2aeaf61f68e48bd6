//! Dumps whose records copy, move and replace paths.

use std::alloc::{AllocError, Global};
use svn_text::push_number;

/// `A` is deleted and replaced by a copy of `T` in the revision that adds `A/b`.
pub const MOVES: &[u8] = b"SVN-fs-dump-format-version: 2

Revision-number: 0

Revision-number: 1

Node-path: T
Node-kind: dir
Node-action: add

Node-path: A
Node-kind: dir
Node-action: add

Node-path: T/b
Node-kind: file
Node-action: add

Revision-number: 2

Node-path: A/b
Node-kind: file
Node-action: add

Node-path: A
Node-action: delete

Node-path: A
Node-action: add
Node-copyfrom-rev: 1
Node-copyfrom-path: T

";

/// Records 6 and 7 copy `p` of two revisions, between which `p/q/s` was copied into it.
pub const NESTED: &[u8] = b"SVN-fs-dump-format-version: 2

Revision-number: 0

Revision-number: 1

Node-path: p
Node-kind: dir
Node-action: add

Node-path: p/q
Node-kind: dir
Node-action: add

Node-path: z
Node-kind: dir
Node-action: add

Node-path: z/s
Node-kind: file
Node-action: add

Revision-number: 2

Node-path: p/q/s
Node-action: add
Node-copyfrom-rev: 1
Node-copyfrom-path: z/s

Revision-number: 3

Node-path: n
Node-action: add
Node-copyfrom-rev: 2
Node-copyfrom-path: p

Node-path: m
Node-action: add
Node-copyfrom-rev: 1
Node-copyfrom-path: p

";

/// Records 6 to 8 each copy a directory of what the record before them copied, and record 9 copies the last copy.
pub const DEEPER: &[u8] = b"SVN-fs-dump-format-version: 2

Revision-number: 0

Revision-number: 1

Node-path: p
Node-kind: dir
Node-action: add

Node-path: p/a
Node-kind: dir
Node-action: add

Node-path: p/a/b
Node-kind: dir
Node-action: add

Node-path: p/a/b/c
Node-kind: dir
Node-action: add

Node-path: p/a/b/c/d
Node-kind: file
Node-action: add

Revision-number: 2

Node-path: k
Node-action: add
Node-copyfrom-rev: 1
Node-copyfrom-path: p/a

Revision-number: 3

Node-path: m
Node-action: add
Node-copyfrom-rev: 2
Node-copyfrom-path: k/b

Revision-number: 4

Node-path: n
Node-action: add
Node-copyfrom-rev: 3
Node-copyfrom-path: m/c

Revision-number: 5

Node-path: q
Node-action: add
Node-copyfrom-rev: 4
Node-copyfrom-path: n

";

/// `a` is deleted, and its copy `b` is of the revision before that.
pub const GONE: &[u8] = b"SVN-fs-dump-format-version: 2

Revision-number: 0

Revision-number: 1

Node-path: a
Node-kind: dir
Node-action: add

Node-path: a/x
Node-kind: file
Node-action: add

Revision-number: 2

Node-path: a
Node-action: delete

Revision-number: 3

Node-path: b
Node-action: add
Node-copyfrom-rev: 1
Node-copyfrom-path: a

";

/// `a` is replaced by a copy of itself.
pub const REPLACED: &[u8] = b"SVN-fs-dump-format-version: 2

Revision-number: 0

Revision-number: 1

Node-path: a
Node-kind: dir
Node-action: add

Node-path: a/x
Node-kind: file
Node-action: add

Revision-number: 2

Node-path: a
Node-action: replace
Node-copyfrom-rev: 1
Node-copyfrom-path: a

";

/// Some revisions have no records.
pub const SPARSE: &[u8] = b"SVN-fs-dump-format-version: 2

Revision-number: 0

Revision-number: 1

Revision-number: 2

Node-path: a
Node-kind: dir
Node-action: add

Revision-number: 3

Revision-number: 4

Revision-number: 5

Node-path: b
Node-action: add
Node-copyfrom-rev: 4
Node-copyfrom-path: a

Revision-number: 6

";

/// A dump of so many revisions, each of which copies the root of the one before it: revision 2 to `x2`, and so on.
pub fn copies_of_the_root(alloc: Global, last: u32) -> Result<Vec<u8>, AllocError> {
    let start = b"SVN-fs-dump-format-version: 2\n\nRevision-number: 0\n\n";
    let mut dump = Vec::from_slice(alloc, start)?;
    for before in 0..last {
        push_copy(&mut dump, before)?;
    }
    Ok(dump)
}

/// Appends the revision that copies the root of this one.
fn push_copy(dump: &mut Vec<u8>, before: u32) -> Result<(), AllocError> {
    let rev = u64::from(before) + 1;
    dump.extend_from_slice(b"Revision-number: ")?;
    push_number(dump, rev)?;
    dump.extend_from_slice(b"\n\nNode-path: x")?;
    push_number(dump, rev)?;
    dump.extend_from_slice(b"\nNode-action: add\nNode-copyfrom-rev: ")?;
    push_number(dump, u64::from(before))?;
    dump.extend_from_slice(b"\nNode-copyfrom-path: \n\n")
}
