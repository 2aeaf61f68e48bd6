//! One record of a dump: what it does to a path in a revision.
ghost use Rattle.std.specs.Prelude.{◌≡◌, IfOk};

use std::alloc::AllocError;
use svn_path::Path;

/// A path of an earlier revision, from which another path came.
#[derive(Drop)]
pub struct Origin {
    pub path: Path,
    pub rev: u32,
}

/// What stands at a path.
#[derive(Clone, Copy, Debug, PartialEq, Eq)]
pub enum Kind {
    File,
    Dir,
}

/// The number of a mergeinfo text in its dump.
#[derive(Clone, Copy, Debug, PartialEq, Eq, PartialOrd, Ord, Hash)]
pub struct ValueId(pub u32);

/// What a record does to its path's mergeinfo.
#[derive(Clone, Copy, Debug, PartialEq, Eq)]
pub enum Mi {
    /// It stays; a copy has that of its source, and an addition none.
    Keep,
    /// It becomes this text, or none.
    Put(Option<ValueId>),
}

/// What a record does to its path.
#[derive(Drop)]
pub enum Act {
    Delete,
    Change {
        mi: Mi,
    },
    Add {
        replace: bool,
        kind: Kind,
        mi: Mi,
    },
    Copy {
        replace: bool,
        from: Path,
        from_rev: u32,
        mi: Mi,
    },
}

/// A record of a revision.
#[derive(Drop)]
pub struct NodeRecord {
    pub rev: u32,
    pub path: Path,
    pub act: Act,
}

impl Act {
    fn dup(&self) -> Result<Self, AllocError>
        ensures { IfOk result (λ same. same ≡ self.now) }
    {
        Ok(match self {
            Act::Delete => Act::Delete,
            Act::Change { mi } => Act::Change { mi: *mi },
            Act::Add { replace, kind, mi } => Act::Add {
                replace: *replace,
                kind: *kind,
                mi: *mi,
            },
            Act::Copy {
                replace,
                from,
                from_rev,
                mi,
            } => Act::Copy {
                replace: *replace,
                from: from.dup()?,
                from_rev: *from_rev,
                mi: *mi,
            },
        })
    }
}

impl NodeRecord {
    /// An equal record.
    pub fn dup(&self) -> Result<Self, AllocError>
        ensures { IfOk result (λ same. same ≡ self.now) }
    {
        Ok(NodeRecord {
            rev: self.rev,
            path: self.path.dup()?,
            act: self.act.dup()?,
        })
    }
}
