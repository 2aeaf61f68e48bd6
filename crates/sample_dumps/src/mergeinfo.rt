//! Dumps whose records give mergeinfo.

/// A trunk and a branch, with merges from one to the other.
pub const MERGED: &[u8] = b"SVN-fs-dump-format-version: 2

Revision-number: 0

Revision-number: 1

Node-path: trunk
Node-kind: dir
Node-action: add

Node-path: branches
Node-kind: dir
Node-action: add

Revision-number: 2

Node-path: trunk/f
Node-kind: file
Node-action: add

Revision-number: 3

Node-path: trunk/f
Node-action: change

Revision-number: 4

Node-path: branches/b
Node-action: add
Node-copyfrom-rev: 2
Node-copyfrom-path: trunk

Revision-number: 5

Node-path: branches/b/f
Node-action: change

Revision-number: 6

Node-path: trunk/f
Node-action: change

Revision-number: 7

Node-path: trunk
Node-action: change
Prop-content-length: 48
Content-length: 48

K 13
svn:mergeinfo
V 13
/branches/b:5
PROPS-END
Revision-number: 8

Node-path: trunk/f
Node-action: delete

Revision-number: 9

Node-path: branches
Node-action: change
Prop-content-length: 46
Content-length: 46

K 13
svn:mergeinfo
V 11
/trunk:3*,6
PROPS-END
Revision-number: 10

Node-path: branches/b
Node-action: change
Prop-content-length: 34
Content-length: 34

K 13
svn:mergeinfo
V 0

PROPS-END
";

/// The directories have mergeinfo in other forms than the printed one.
pub const MERGEINFO_TEXTS: &[u8] = b"SVN-fs-dump-format-version: 2

Revision-number: 0

Revision-number: 1

Node-path: c
Node-kind: dir
Node-action: add
Prop-content-length: 40
Content-length: 40

K 13
svn:mergeinfo
V 6
/a:5-3
PROPS-END
Node-path: d
Node-kind: dir
Node-action: add
Prop-content-length: 52
Content-length: 52

K 13
svn:mergeinfo
V 17
/a:b:1-2147483647
PROPS-END
Node-path: e
Node-kind: dir
Node-action: add
Prop-content-length: 47
Content-length: 47

K 13
svn:mergeinfo
V 12
/a:7,3-5,4,6
PROPS-END
";

/// `t` has mergeinfo, which its copy `c` keeps and its copy `d` does not.
pub const COPIED_MERGEINFO: &[u8] = b"SVN-fs-dump-format-version: 2

Revision-number: 0

Revision-number: 1

Node-path: t
Node-kind: dir
Node-action: add
Prop-content-length: 38
Content-length: 38

K 13
svn:mergeinfo
V 4
/s:4
PROPS-END
Revision-number: 2

Node-path: c
Node-action: add
Node-copyfrom-rev: 1
Node-copyfrom-path: t

Revision-number: 3

Node-path: d
Node-action: add
Node-copyfrom-rev: 1
Node-copyfrom-path: t
Prop-content-length: 10
Content-length: 10

PROPS-END
";

/// A dump of format 3. `t` has mergeinfo, which its copy `c` keeps until the property is deleted there. `d` sets and
/// deletes it at once, and `e` deletes and sets it.
pub const DELETED_MERGEINFO: &[u8] = b"SVN-fs-dump-format-version: 3

Revision-number: 0

Revision-number: 1

Node-path: t
Node-kind: dir
Node-action: add
Prop-delta: true
Prop-content-length: 38
Content-length: 38

K 13
svn:mergeinfo
V 4
/s:4
PROPS-END
Node-path: d
Node-kind: dir
Node-action: add
Prop-delta: true
Prop-content-length: 57
Content-length: 57

K 13
svn:mergeinfo
V 4
/s:4
D 13
svn:mergeinfo
PROPS-END
Node-path: e
Node-kind: dir
Node-action: add
Prop-delta: true
Prop-content-length: 57
Content-length: 57

D 13
svn:mergeinfo
K 13
svn:mergeinfo
V 4
/s:4
PROPS-END
Revision-number: 2

Node-path: c
Node-action: add
Node-copyfrom-rev: 1
Node-copyfrom-path: t

Revision-number: 3

Node-path: c
Node-action: change
Prop-delta: true
Prop-content-length: 29
Content-length: 29

D 13
svn:mergeinfo
PROPS-END
";

/// The mergeinfo of `a` changes from `/s:1` to `/s:2`.
pub const TWO_TEXTS: &[u8] = b"SVN-fs-dump-format-version: 2

Revision-number: 0

Revision-number: 1

Node-path: a
Node-kind: dir
Node-action: add
Prop-content-length: 38
Content-length: 38

K 13
svn:mergeinfo
V 4
/s:1
PROPS-END
Revision-number: 2

Node-path: a
Node-action: change
Prop-content-length: 38
Content-length: 38

K 13
svn:mergeinfo
V 4
/s:2
PROPS-END
";
