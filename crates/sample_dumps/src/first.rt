//! Small dumps in the plainest form.

/// Revision 0 alone.
pub const EMPTY: &[u8] = b"SVN-fs-dump-format-version: 2

Revision-number: 0

";

/// `trunk` is added in revision 1 and copied to `b` in revision 2.
pub const FIRST: &[u8] = b"SVN-fs-dump-format-version: 2

Revision-number: 0

Revision-number: 1

Node-path: trunk
Node-kind: dir
Node-action: add

Revision-number: 2

Node-path: b
Node-action: add
Node-copyfrom-rev: 1
Node-copyfrom-path: trunk

";

/// A path with an at sign.
pub const AT_SIGN: &[u8] = b"SVN-fs-dump-format-version: 2

Revision-number: 0

Revision-number: 1

Node-path: a@b
Node-kind: file
Node-action: add

";
