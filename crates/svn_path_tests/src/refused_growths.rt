//! What a table of names, a path and a vector are after a growth was refused.
ghost use Rattle.svn_path.specs.Components.{IsComponent};
ghost use Rattle.svn_path.specs.Path.{IsPathOf};

use crate::names::table;
use crate::paths::known;
use growth_marks::{begin, end};
use std::alloc::Global;
use std::test::Fail;
use svn_path::{NameId, Names, NamesError, Path, PathError};

// Whether a name is added under this number, or the table stays as it was; it is added then.
fn is_added(alloc: Global, names: &mut Names, name: &[u8], number: u32) -> Result<bool, Fail>
    requires { IsComponent name.now }
{
    let count = names.len();
    begin(alloc);
    let added = names.add(name);
    end(alloc);
    let is_right = match added {
        Ok(id) => id.0 == number,
        Err(NamesError::Memory) => names.len() == count,
        Err(NamesError::Full) => false,
    };
    Ok(names.add(name)?.0 == number && is_right)
}

fn are_added(alloc: Global, names: &mut Names) -> Result<bool, Fail> {
    Ok(
        is_added(alloc, names, b"a".as_slice(), 0)?
            && is_added(alloc, names, b"b".as_slice(), 1)?
            && is_added(alloc, names, b"a".as_slice(), 0)?
            && is_added(alloc, names, b"c".as_slice(), 2)?,
    )
}

// The last eight bytes make the hash of such a name 0, whatever the first eight are.
fn are_added_with_one_hash(alloc: Global, names: &mut Names) -> Result<bool, Fail> {
    Ok(
        is_added(
            alloc,
            names,
            b"branch-1\x15\x7c\x4a\x7f\xb9\x79\x37\x9e".as_slice(),
            3,
        )? && is_added(
            alloc,
            names,
            b"branch-2\x15\x7c\x4a\x7f\xb9\x79\x37\x9e".as_slice(),
            4,
        )? && is_added(
            alloc,
            names,
            b"branch-1\x15\x7c\x4a\x7f\xb9\x79\x37\x9e".as_slice(),
            3,
        )?,
    )
}

// The names of a table, one after another.
fn text_of(alloc: Global, names: &Names) -> Result<Vec<u8>, Fail> {
    let mut text = Vec::new(alloc);
    for number in 0..u32::MAX {
        if number as usize >= names.len() {
            break;
        }
        text.extend_from_slice(names.text(NameId(number)))?;
    }
    Ok(text)
}

#[test]
fn refused_growths_leave_a_table_of_names_as_it_was(rt: HostRuntime) -> Result<(), Fail> {
    let mut names = Names::new(rt.alloc());
    assert!(rt; are_added(rt.alloc(), &mut names)?);
    assert!(rt; text_of(rt.alloc(), &names)?.as_slice() == b"abc".as_slice());
    assert!(rt; are_added_with_one_hash(rt.alloc(), &mut names)?);
    assert!(rt; names.len() == 5);
    Ok(())
}

// Whether the path has these numbers, or memory ran out.
fn has_numbers(path: Result<Path, PathError>, numbers: &[NameId]) -> bool {
    match path {
        Ok(path) => path.parts() == numbers,
        Err(error) => matches!(error, PathError::Memory),
    }
}

fn is_read(alloc: Global, names: &mut Names, text: &[u8], numbers: &[NameId]) -> bool {
    begin(alloc);
    let path = Path::read(alloc, names, text);
    end(alloc);
    has_numbers(path, numbers)
}

fn is_read_again(
    alloc: Global,
    names: &mut Names,
    text: &[u8],
    numbers: &[NameId],
) -> Result<bool, Fail> {
    let path = Path::read(alloc, names, text)?;
    Ok(path.parts() == numbers)
}

// Whether the table has the first ones of these names, in their order.
fn has_the_first(alloc: Global, names: &Names, least: usize, all: &[u8]) -> Result<bool, Fail> {
    let text = text_of(alloc, names)?;
    Ok(text.len() >= least && all.starts_with(text.as_slice()))
}

fn are_kept(
    alloc: Global,
    names: &mut Names,
    text: &[u8],
    numbers: &[NameId],
    all: &[u8],
) -> Result<bool, Fail> {
    let is_right = is_read(alloc, names, text, numbers);
    let are_first = has_the_first(alloc, names, 3, all)?;
    let is_read = is_read_again(alloc, names, text, numbers)?;
    Ok(is_right && are_first && is_read && has_the_first(alloc, names, all.len(), all)?)
}

// New names may be added, from the left.
#[test]
fn refused_growths_leave_the_old_names_in_their_places(rt: HostRuntime) -> Result<(), Fail> {
    let long = [3, 4, 0, 5, 6, 7, 8].map(NameId);
    for (text, numbers, all) in [
        (
            b"/a//c/".as_slice(),
            [NameId(0), NameId(2)].as_slice(),
            b"abc".as_slice(),
        ),
        (b"d/e/a/f/g/h/i", long.as_slice(), b"abcdefghi"),
    ] {
        let mut names = table(rt.alloc())?;
        assert!(rt; are_kept(rt.alloc(), &mut names, text, numbers, all)?);
    }
    Ok(())
}

// Whether a path is written after three bytes, which alone stay otherwise.
fn is_written(alloc: Global, names: &Names, path: &Path, wanted: &[u8]) -> Result<bool, Fail>
    requires { IsPathOf names.now path.now }
{
    let mut out = Vec::from_slice(alloc, b"abc".as_slice())?;
    begin(alloc);
    let written = path.write(names, &mut out);
    end(alloc);
    let text = out.strip_prefix(b"abc");
    Ok(text == Some(if written.is_ok() { wanted } else { b"" }))
}

fn is_found_and_written(alloc: Global, text: &str, wanted: &[u8]) -> Result<bool, Fail> {
    let names = table(alloc)?;
    let path = known(alloc, &names, text)?;
    is_written(alloc, &names, &path, wanted)
}

#[test]
fn refused_growths_write_nothing_of_a_path(rt: HostRuntime) -> Result<(), Fail> {
    for (text, wanted) in [("", b"/".as_slice()), ("a/c", b"/a/c"), ("b//a/", b"/b/a")] {
        assert!(rt; is_found_and_written(rt.alloc(), text, wanted)?, "{text}");
    }
    Ok(())
}
