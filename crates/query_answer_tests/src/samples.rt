//! A dump with mergeinfo that is inherited.

/// `a` has mergeinfo, which `a/b` inherits; that of `c` is malformed, and that of `a/d` empty.
pub(crate) const INHERITED: &[u8] = b"SVN-fs-dump-format-version: 2

Revision-number: 0

Revision-number: 1

Node-path: a
Node-kind: dir
Node-action: add
Prop-content-length: 41
Content-length: 41

K 13
svn:mergeinfo
V 7
/s:1*,2
PROPS-END
Node-path: a/b
Node-kind: dir
Node-action: add

Node-path: c
Node-kind: dir
Node-action: add
Prop-content-length: 40
Content-length: 40

K 13
svn:mergeinfo
V 6
/a:5-3
PROPS-END
Node-path: a/d
Node-kind: dir
Node-action: add
Prop-content-length: 34
Content-length: 34

K 13
svn:mergeinfo
V 0

PROPS-END
";
