//! What stands directly below a path, by maps of one part and of two parts of a history.
ghost use Rattle.block_map.specs.Map.{IsMapOf};

use crate::joins::map_of_both;
use crate::maps::path_of;
use block_map::{Child, Map};
use revision_ends::revision_ends;
use std::alloc::Global;
use std::test::Fail;
use svn_dump::{Dump, Kind, read};

// Records 1 to 3 add a directory with two files. Record 4 copies it, 5 deletes a file of the copy, and 6 adds a directory
// to it.
const CHANGED_COPY: &[u8] = b"SVN-fs-dump-format-version: 2

Revision-number: 0

Revision-number: 1

Node-path: trunk
Node-kind: dir
Node-action: add

Node-path: trunk/gone
Node-kind: file
Node-action: add

Node-path: trunk/kept
Node-kind: file
Node-action: add

Revision-number: 2

Node-path: branch
Node-action: add
Node-copyfrom-rev: 1
Node-copyfrom-path: trunk

Node-path: branch/gone
Node-action: delete

Node-path: branch/new
Node-kind: dir
Node-action: add

";

// Whether this name, with this kind, is among them.
fn has_child(dump: &Dump, children: &[Child], name: &[u8], kind: Kind) -> bool {
    match dump.names().find(name) {
        Some(name) => children.contains(&Child { name, kind }),
        None => false,
    }
}

// How many children the copy has after all records, and whether the kept file and the new directory are among them.
fn children_of_copy(alloc: Global, dump: &Dump, map: &Map) -> Result<(usize, bool, bool), Fail>
    requires { IsMapOf dump.now map.now }
{
    let path = path_of(alloc, dump, b"/branch")?;
    let children = map.children(map.hi(), &path);
    drop(path);
    let children = children?;
    let kept = has_child(dump, &children, b"kept", Kind::File);
    let new = has_child(dump, &children, b"new", Kind::Dir);
    let count = children.len();
    drop(children);
    Ok((count, kept, new))
}

// That by the map that is joined of those of the first records, which are so many, and of the others.
fn children_in_both(alloc: Global, dump: &Dump, count: usize) -> Result<(usize, bool, bool), Fail> {
    let ends = revision_ends(alloc, dump)?;
    let map = map_of_both(alloc, dump, &ends, count);
    drop(ends);
    let map = map?;
    let found = children_of_copy(alloc, dump, &map);
    drop(map);
    found
}

#[test]
fn a_changed_copy_has_the_kept_and_the_new_children(rt: HostRuntime) -> Result<(), Fail> {
    let dump = read(rt.alloc(), CHANGED_COPY)?;
    for count in [3, 5, 6] {
        let found = children_in_both(rt.alloc(), &dump, count)?;
        assert!(rt; found == (2, true, true), "{count}");
    }
    drop(dump);
    Ok(())
}
