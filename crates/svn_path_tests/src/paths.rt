//! Paths at small examples.
ghost use Rattle.std.specs.Prelude.{◌≤◌, IfOk, length};
ghost use Rattle.svn_path.specs.Path.{IsPathOf};

use crate::names::table;
use std::alloc::Global;
use std::collections::BTreeMap;
use std::test::Fail;
use svn_path::{Lookup, NameId, Names, Path, PathError, has_dot};

pub(crate) fn known(alloc: Global, names: &Names, text: &str) -> Result<Path, Fail>
    ensures { IfOk result (IsPathOf names.now) }
{
    match Path::find(alloc, names, text.as_bytes())? {
        Lookup::Known(path) => Ok(path),
        Lookup::Unknown => Err("unknown")?,
    }
}

fn is_same(alloc: Global, names: &Names, path: &Path, text: &str) -> Result<bool, Fail> {
    Ok(*path == known(alloc, names, text)?)
}

// Whether a path that is read after `a/b/c` has these numbers, and how many names there are.
fn read_after(alloc: Global, text: &str, numbers: &[NameId]) -> Result<(bool, usize), Fail> {
    let mut names = table(alloc)?;
    let path = Path::read(alloc, &mut names, text.as_bytes())?;
    Ok((path.parts() == numbers, names.len()))
}

#[test]
fn paths_are_read_between_slashes(rt: HostRuntime) -> Result<(), Fail> {
    for (text, numbers, count) in [
        ("/a//c/", [NameId(0), NameId(2)], 3),
        ("/a//d/", [NameId(0), NameId(3)], 4),
    ] {
        assert!(rt; read_after(rt.alloc(), text, numbers.as_slice())? == (true, count));
    }
    Ok(())
}

fn is_refused(alloc: Global, names: &mut Names, text: &str) -> bool {
    matches!(
        Path::read(alloc, names, text.as_bytes()),
        Err(PathError::Dot)
    )
}

// Whether a path is refused, and how many names there are after it.
fn refused_after(alloc: Global, text: &str) -> Result<(bool, usize), Fail> {
    let mut names = table(alloc)?;
    let refused = is_refused(alloc, &mut names, text);
    Ok((refused, names.len()))
}

// What a search gives.
#[derive(Drop)]
enum Found {
    Path,
    Nothing,
    Dot,
    Memory,
}

fn look(alloc: Global, names: &Names, text: &str) -> Found {
    match Path::find(alloc, names, text.as_bytes()) {
        Ok(Lookup::Known(_)) => Found::Path,
        Ok(Lookup::Unknown) => Found::Nothing,
        Err(PathError::Dot) => Found::Dot,
        Err(_) => Found::Memory,
    }
}

fn look_in_table(alloc: Global, text: &str) -> Result<Found, Fail> {
    let names = table(alloc)?;
    Ok(look(alloc, &names, text))
}

#[test]
fn dots_are_refused_before_names_are_added(rt: HostRuntime) -> Result<(), Fail> {
    for text in ["d/../a", "d/."] {
        assert!(rt; refused_after(rt.alloc(), text)? == (true, 3), "{text}");
    }
    assert!(rt; matches!(look_in_table(rt.alloc(), "./a")?, Found::Dot));
    Ok(())
}

#[test]
fn dots_are_whole_components(rt: HostRuntime) {
    for (text, dots) in [
        ("a/./b", true),
        ("..", true),
        ("a/.../.b/c.", false),
        ("//", false),
    ] {
        assert!(rt; has_dot(text.as_bytes()) == dots, "{text}");
    }
}

// How many components a path has, and how many names.
fn lengths(alloc: Global, text: &str) -> Result<(usize, usize), Fail> {
    let mut names = Names::new(alloc);
    let path = Path::read(alloc, &mut names, text.as_bytes())?;
    Ok((path.len(), names.len()))
}

#[test]
fn other_names_with_dots_are_read(rt: HostRuntime) -> Result<(), Fail> {
    assert!(rt; lengths(rt.alloc(), "a/.../.b/c.")? == (4, 4));
    Ok(())
}

fn lengths_of_many(alloc: Global, count: usize) -> Result<(usize, usize), Fail> {
    let text = "a/".repeat(alloc, count)?;
    lengths(alloc, text.as_str())
}

#[test]
fn paths_of_many_components_are_read(rt: HostRuntime) -> Result<(), Fail> {
    assert!(rt; lengths_of_many(rt.alloc(), 10_000)? == (10_000, 1));
    Ok(())
}

fn is_root(alloc: Global, text: &str) -> Result<bool, Fail> {
    let names = table(alloc)?;
    is_same(alloc, &names, &Path::root(alloc), text)
}

fn is_known(alloc: Global, text: &str) -> Result<bool, Fail> {
    let names = table(alloc)?;
    let lookup = Path::look_up(alloc, &names, text.as_bytes())?;
    Ok(matches!(lookup, Lookup::Known(_)))
}

#[test]
fn dots_are_unknown_names_to_a_look_up(rt: HostRuntime) -> Result<(), Fail> {
    for (text, known) in [("/a", true), ("a/zz", false), ("a/.", false)] {
        assert!(rt; is_known(rt.alloc(), text)? == known, "{text}");
    }
    Ok(())
}

#[test]
fn paths_of_known_names_are_found(rt: HostRuntime) -> Result<(), Fail> {
    assert!(rt; matches!(look_in_table(rt.alloc(), "a/zz")?, Found::Nothing));
    assert!(rt; is_root(rt.alloc(), "")?);
    Ok(())
}

fn rebased(path: &Path, from: &Path, to: &Path) -> Result<Path, Fail> {
    if path.starts_with(from) {
        Ok(path.rebase(from, to)?)
    } else {
        Err("not below the other")?
    }
}

fn moved_to(alloc: Global, names: &Names, path: &Path, to: &Path) -> Result<Path, Fail> {
    let from = known(alloc, names, "a")?;
    rebased(path, &from, to)
}

fn moved(alloc: Global, names: &Names, path: &Path) -> Result<Path, Fail> {
    let to = known(alloc, names, "b")?;
    moved_to(alloc, names, path, &to)
}

fn is_moved_from(alloc: Global, names: &Names, path: &Path, wanted: &str) -> Result<bool, Fail> {
    let moved = moved(alloc, names, path)?;
    is_same(alloc, names, &moved, wanted)
}

// Whether a path below `a` is this one below `b`.
fn is_moved(alloc: Global, text: &str, wanted: &str) -> Result<bool, Fail> {
    let names = table(alloc)?;
    let path = known(alloc, &names, text)?;
    is_moved_from(alloc, &names, &path, wanted)
}

#[test]
fn paths_are_rebased_onto_another(rt: HostRuntime) -> Result<(), Fail> {
    assert!(rt; is_moved(rt.alloc(), "a/c", "b/c")?);
    Ok(())
}

// Whether the path above a path is the root, if there is one.
fn is_below_root(alloc: Global, path: &Path) -> Result<Option<bool>, Fail> {
    match path.parent()? {
        None => Ok(None),
        Some(above) => Ok(Some(above == Path::root(alloc))),
    }
}

fn is_found_below_root(alloc: Global, text: &str) -> Result<Option<bool>, Fail> {
    let names = table(alloc)?;
    let path = known(alloc, &names, text)?;
    is_below_root(alloc, &path)
}

#[test]
fn the_parent_is_the_path_above(rt: HostRuntime) -> Result<(), Fail> {
    assert!(rt; is_below_root(rt.alloc(), &Path::root(rt.alloc()))?.is_none());
    assert!(rt; is_found_below_root(rt.alloc(), "")?.is_none());
    assert!(rt; is_found_below_root(rt.alloc(), "/a")? == Some(true));
    assert!(rt; is_found_below_root(rt.alloc(), "/a/c")? == Some(false));
    Ok(())
}

fn write(names: &Names, path: &Path, out: &mut Vec<u8>) -> Result<(), Fail>
    requires { IsPathOf names.now path.now }
{
    Ok(path.write(names, out)?)
}

fn is_written(alloc: Global, names: &Names, path: &Path, wanted: &[u8]) -> Result<bool, Fail>
    requires { IsPathOf names.now path.now }
{
    let mut out = Vec::new(alloc);
    write(names, path, &mut out)?;
    Ok(out.as_slice() == wanted)
}

fn is_copied(alloc: Global, names: &Names, path: &Path, wanted: &[u8]) -> Result<bool, Fail>
    requires { IsPathOf names.now path.now }
{
    let copy = path.dup()?;
    is_written(alloc, names, &copy, wanted)
}

// Whether a copy of the path of the same parts is written like this.
fn is_of_its_parts(alloc: Global, names: &Names, wanted: &[u8]) -> Result<bool, Fail> {
    let path = known(alloc, names, "a/c")?;
    let same = Path::of(alloc, path.parts())?;
    is_copied(alloc, names, &same, wanted)
}

#[test]
fn a_path_of_the_same_parts_is_equal(rt: HostRuntime) -> Result<(), Fail> {
    let names = table(rt.alloc())?;
    assert!(rt; is_of_its_parts(rt.alloc(), &names, b"/a/c")?);
    Ok(())
}

fn root_is_written(alloc: Global, wanted: &[u8]) -> Result<bool, Fail> {
    let names = table(alloc)?;
    is_written(alloc, &names, &Path::root(alloc), wanted)
}

#[test]
fn the_root_is_written_as_a_slash(rt: HostRuntime) -> Result<(), Fail> {
    assert!(rt; Path::root(rt.alloc()).is_empty());
    assert!(rt; root_is_written(rt.alloc(), b"/".as_slice())?);
    Ok(())
}

// Whether one path comes before another, and whether it is that path or below it.
fn compared(alloc: Global, names: &Names, one: &str, other: &str) -> Result<(bool, bool), Fail> {
    let one = known(alloc, names, one)?;
    let other = known(alloc, names, other)?;
    Ok((one < other, one.starts_with(&other)))
}

#[test]
fn a_path_comes_before_those_below_it(rt: HostRuntime) -> Result<(), Fail> {
    let names = table(rt.alloc())?;
    for (one, other, found) in [
        ("a", "a/c", (true, false)),
        ("a/c", "a", (false, true)),
        ("a/c", "b", (true, false)),
        ("b", "a", (false, false)),
    ] {
        assert!(rt;
            compared(rt.alloc(), &names, one, other)? == found,
            "{one} {other}"
        );
    }
    Ok(())
}

// What is found at a path in a map with one other key.
fn size_at(alloc: Global, path: &Path, key: Path) -> Result<Option<u32>, Fail> {
    let mut sizes = BTreeMap::new(alloc);
    sizes.insert(key, 5u32)?;
    Ok(sizes.get(path).copied())
}

fn size_in_table(alloc: Global, names: &Names, text: &str) -> Result<Option<u32>, Fail> {
    let path = known(alloc, names, text)?;
    size_at(alloc, &path, known(alloc, names, "a/c")?)
}

fn size_of(alloc: Global, text: &str) -> Result<Option<u32>, Fail> {
    let names = table(alloc)?;
    size_in_table(alloc, &names, text)
}

#[test]
fn paths_are_keys_of_a_map(rt: HostRuntime) -> Result<(), Fail> {
    assert!(rt; size_of(rt.alloc(), "/a/c/")? == Some(5));
    assert!(rt; size_of(rt.alloc(), "")?.is_none());
    Ok(())
}

fn write_below(names: &Names, path: &Path, depth: usize, out: &mut Vec<u8>) -> Result<(), Fail>
    requires names { IsPathOf names.now path.now }
    requires depth { depth ≤ length path.now }
{
    Ok(path.write_below(depth, names, out)?)
}

fn is_written_below(
    alloc: Global,
    names: &Names,
    path: &Path,
    depth: usize,
    wanted: &[u8],
) -> Result<bool, Fail>
    requires { IsPathOf names.now path.now }
{
    let mut out = Vec::new(alloc);
    if depth <= path.len() {
        write_below(names, path, depth, &mut out)?;
    }
    Ok(out.as_slice() == wanted)
}

// Whether what follows the first components of a path is written like this.
fn rest_is_written(alloc: Global, depth: usize, wanted: &[u8]) -> Result<bool, Fail> {
    let names = table(alloc)?;
    let path = known(alloc, &names, "a/c")?;
    is_written_below(alloc, &names, &path, depth, wanted)
}

#[test]
fn the_rest_of_a_path_is_written_as_a_path(rt: HostRuntime) -> Result<(), Fail> {
    assert!(rt; rest_is_written(rt.alloc(), 0, b"/a/c")?);
    assert!(rt; rest_is_written(rt.alloc(), 1, b"/c")?);
    assert!(rt; rest_is_written(rt.alloc(), 2, b"/")?);
    Ok(())
}
