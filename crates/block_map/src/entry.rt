//! What stands at a path of a tree.
ghost use Rattle.std.specs.Prelude.{◌≡◌, ◌++◌, OnOk};
ghost use Rattle.block_map.specs.Children.{child_with};

use std::alloc::AllocError;
use svn_dump::{Kind, ValueId};
use svn_path::NameId;

/// A file or a directory of a tree, and its mergeinfo.
#[derive(Clone, Copy, Debug, PartialEq, Eq)]
pub struct Entry {
    pub kind: Kind,
    pub mi: Option<ValueId>,
}

/// The nearest mergeinfo of a path: that of its first `depth` components.
#[derive(Clone, Copy, Debug, PartialEq, Eq)]
pub struct Nearest {
    pub mi: ValueId,
    pub depth: usize,
}

/// A name directly below a path, and the kind of what stands there.
#[derive(Clone, Copy, Debug, PartialEq, Eq)]
pub struct Child {
    pub name: NameId,
    pub kind: Kind,
}

/// Appends the child of a name at which this stands, if anything does.
pub(crate) fn push_child(
    name: NameId,
    entry: Option<Entry>,
    children: &mut Vec<Child>,
) -> Result<(), AllocError>
    ensures { OnOk result (children.new.items ≡ children.old.items ++ child_with name entry) }
{
    if let Some(Entry { kind, .. }) = entry {
        children.push(Child { name, kind })?;
    }
    Ok(())
}
