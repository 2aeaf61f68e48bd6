//! A dump as `svnadmin dump` writes it.
use std::alloc::{AllocError, Global};

/// The dump up to the properties of revision 3. The records of that revision are [`DELETE_AND_COPY`] or [`REPLACE`].
pub const DUMPED: &[u8] = b"SVN-fs-dump-format-version: 2

UUID: 7bf7a5ef-cabf-0310-b7d4-93df341afa7e

Revision-number: 0
Prop-content-length: 56
Content-length: 56

K 8
svn:date
V 27
2026-01-01T00:00:00.000000Z
PROPS-END

Revision-number: 1
Prop-content-length: 78
Content-length: 78

K 8
svn:date
V 27
2026-01-01T00:00:01.000000Z
K 7
svn:log
V 5
first
PROPS-END

Node-path: trunk
Node-kind: dir
Node-action: add
Prop-content-length: 10
Content-length: 10

PROPS-END


Node-path: trunk/f
Node-kind: file
Node-action: add
Prop-content-length: 10
Text-content-length: 6
Text-content-md5: b1946ac92492d2347c6235b4d2611184
Text-content-sha1: f572d396fae9206628714fb2ce00f72e94f2258f
Content-length: 16

PROPS-END
hello


Revision-number: 2
Prop-content-length: 56
Content-length: 56

K 8
svn:date
V 27
2026-01-01T00:00:02.000000Z
PROPS-END

Node-path: b
Node-kind: dir
Node-action: add
Node-copyfrom-rev: 1
Node-copyfrom-path: trunk


Revision-number: 3
Prop-content-length: 56
Content-length: 56

K 8
svn:date
V 27
2026-01-01T00:00:03.000000Z
PROPS-END

";

/// The records of revision 3: `b` is deleted, and copied from `trunk` of revision 2.
pub const DELETE_AND_COPY: &[u8] = b"Node-path: b
Node-kind: dir
Node-action: delete

Node-path: b
Node-kind: dir
Node-action: add
Node-copyfrom-rev: 2
Node-copyfrom-path: trunk




";

/// The records of [`DELETE_AND_COPY`] as one, which replaces `b`.
pub const REPLACE: &[u8] = b"Node-path: b
Node-kind: dir
Node-action: replace
Node-copyfrom-rev: 2
Node-copyfrom-path: trunk




";

/// A dump that ends with these bytes.
pub fn joined(alloc: Global, front: &[u8], end: &[u8]) -> Result<Vec<u8>, AllocError> {
    let mut dump = Vec::from_slice(alloc, front)?;
    dump.extend_from_slice(end)?;
    Ok(dump)
}
