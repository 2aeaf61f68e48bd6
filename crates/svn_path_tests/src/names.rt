//! A small table of names.
ghost use Rattle.svn_path.specs.Components.{IsComponent};

use std::alloc::Global;
use std::test::Fail;
use svn_path::{Names, Path};

/// A table of `a`, `b` and `c`.
pub(crate) fn table(alloc: Global) -> Result<Names, Fail> {
    let mut names = Names::new(alloc);
    let _path = Path::read(alloc, &mut names, b"a/b/c".as_slice())?;
    Ok(names)
}

fn number_of(names: &mut Names, name: &[u8]) -> Result<u32, Fail>
    requires { IsComponent name.now }
{
    Ok(names.add(name)?.0)
}

fn numbers(names: &mut Names) -> Result<[u32; 3], Fail> {
    Ok([
        number_of(names, b"a".as_slice())?,
        number_of(names, b"b".as_slice())?,
        number_of(names, b"a".as_slice())?,
    ])
}

fn numbers_and_count(alloc: Global) -> Result<([u32; 3], usize), Fail> {
    let mut names = Names::new(alloc);
    let numbers = numbers(&mut names)?;
    Ok((numbers, names.len()))
}

#[test]
fn names_are_numbered_in_their_order(rt: HostRuntime) -> Result<(), Fail> {
    assert!(rt; numbers_and_count(rt.alloc())? == ([0, 1, 0], 2));
    Ok(())
}

// Whether a name has a number, and that number the name.
fn has_text(names: &Names, name: &[u8]) -> Option<bool> {
    let id = names.find(name)?;
    Some(names.text(id) == name)
}

fn is_in_table(alloc: Global, name: &str) -> Result<Option<bool>, Fail> {
    let names = table(alloc)?;
    Ok(has_text(&names, name.as_bytes()))
}

#[test]
fn names_are_found(rt: HostRuntime) -> Result<(), Fail> {
    assert!(rt; is_in_table(rt.alloc(), "b")? == Some(true));
    assert!(rt; is_in_table(rt.alloc(), "d")?.is_none());
    Ok(())
}

#[test]
fn only_a_new_table_is_empty(rt: HostRuntime) -> Result<(), Fail> {
    assert!(rt; Names::new(rt.alloc()).is_empty());
    assert!(rt; !table(rt.alloc())?.is_empty());
    Ok(())
}
