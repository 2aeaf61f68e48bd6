//! Dumps with a faulty record.

/// The parent of the path that record 2 adds does not exist.
pub const NO_PARENT: &[u8] = b"SVN-fs-dump-format-version: 2

Revision-number: 0

Revision-number: 1

Node-path: a
Node-kind: dir
Node-action: add

Revision-number: 2

Node-path: x/y
Node-kind: file
Node-action: add

";

/// The path that record 2 adds exists.
pub const EXISTS: &[u8] = b"SVN-fs-dump-format-version: 2

Revision-number: 0

Revision-number: 1

Node-path: a
Node-kind: dir
Node-action: add

Node-path: a
Node-kind: dir
Node-action: add

";

/// The path that record 1 changes does not exist.
pub const MISSING: &[u8] = b"SVN-fs-dump-format-version: 2

Revision-number: 0

Revision-number: 1

Node-path: a
Node-action: change

";

/// The source of the copy that record 1 makes does not exist.
pub const NO_SOURCE: &[u8] = b"SVN-fs-dump-format-version: 2

Revision-number: 0

Revision-number: 1

Node-path: a
Node-action: add
Node-copyfrom-rev: 0
Node-copyfrom-path: b

";

/// The parent of the copy that record 1 makes does not exist, and neither does its source.
pub const NO_PARENT_OF_COPY: &[u8] = b"SVN-fs-dump-format-version: 2

Revision-number: 0

Revision-number: 1

Node-path: x/a
Node-action: add
Node-copyfrom-rev: 0
Node-copyfrom-path: b

";

/// The path that record 1 replaces does not exist.
pub const REPLACES_NOTHING: &[u8] = b"SVN-fs-dump-format-version: 2

Revision-number: 0

Revision-number: 1

Node-path: a
Node-kind: dir
Node-action: replace

";

/// Record 2 replaces a path by a copy of one that does not exist.
pub const REPLACED_BY_NOTHING: &[u8] = b"SVN-fs-dump-format-version: 2

Revision-number: 0

Revision-number: 1

Node-path: a
Node-kind: dir
Node-action: add

Revision-number: 2

Node-path: a
Node-action: replace
Node-copyfrom-rev: 1
Node-copyfrom-path: b

";
