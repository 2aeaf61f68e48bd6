//! The text of what was read, and the comparison with the text that is wanted.
ghost use Rattle.std.specs.Prelude.{◌<◌};

use crate::pieces::read_in_pieces;
use crate::samples::dump_of;
use std::alloc::Global;
use std::test::Fail;
use svn_dump::{Act, Dump, Kind, Mi, NodeRecord, ValueId, read};
use svn_path::{NameId, Names, Path};

fn put(out: &mut Vec<u8>, text: &str) -> Result<(), Fail> {
    Ok(out.extend_from_slice(text.as_bytes())?)
}

fn put_number(alloc: Global, out: &mut Vec<u8>, number: u32) -> Result<(), Fail> {
    put(out, format!(in alloc; "{number}")?.as_str())
}

fn put_path(names: &Names, path: &Path, out: &mut Vec<u8>) -> Result<(), Fail> {
    if path.is_empty() {
        put(out, "/")?;
    }
    for id in path.parts() {
        if id.0 as usize >= names.len() {
            return Err("a number without a name")?;
        }
        put(out, "/")?;
        out.extend_from_slice(names.text(*id))?;
    }
    Ok(())
}

fn put_mergeinfo(alloc: Global, mi: Mi, out: &mut Vec<u8>) -> Result<(), Fail> {
    match mi {
        Mi::Keep => Ok(()),
        Mi::Put(None) => put(out, " none"),
        Mi::Put(Some(value)) => {
            put(out, " text ")?;
            put_number(alloc, out, value.0)
        }
    }
}

fn put_act(alloc: Global, names: &Names, act: &Act, out: &mut Vec<u8>) -> Result<(), Fail> {
    match act {
        Act::Delete => put(out, "delete"),
        Act::Change { mi } => {
            put(out, "change")?;
            put_mergeinfo(alloc, *mi, out)
        }
        Act::Add { replace, kind, mi } => {
            put(out, if *replace { "replace by a " } else { "add a " })?;
            put(out, if *kind == Kind::File { "file" } else { "dir" })?;
            put_mergeinfo(alloc, *mi, out)
        }
        Act::Copy {
            replace,
            from,
            from_rev,
            mi,
        } => {
            put(out, if *replace { "replace by " } else { "copy " })?;
            put_path(names, from, out)?;
            put(out, "@")?;
            put_number(alloc, out, *from_rev)?;
            put_mergeinfo(alloc, *mi, out)
        }
    }
}

fn put_record(
    alloc: Global,
    names: &Names,
    record: &NodeRecord,
    out: &mut Vec<u8>,
) -> Result<(), Fail> {
    put(out, "\nr")?;
    put_number(alloc, out, record.rev)?;
    put(out, " ")?;
    put_path(names, &record.path, out)?;
    put(out, " ")?;
    put_act(alloc, names, &record.act, out)
}

fn put_counts(alloc: Global, counts: &[u32], out: &mut Vec<u8>) -> Result<(), Fail> {
    put(out, "revisions of")?;
    for count in counts {
        put(out, " ")?;
        put_number(alloc, out, *count)?;
    }
    Ok(())
}

fn put_copy(
    alloc: Global,
    names: &Names,
    record: &NodeRecord,
    out: &mut Vec<u8>,
) -> Result<(), Fail> {
    let copy = record.dup()?;
    put_record(alloc, names, &copy, out)
}

// A line for each record, or for what `dup` gives of each.
fn put_records(
    alloc: Global,
    dump: &Dump,
    is_of_copies: bool,
    out: &mut Vec<u8>,
) -> Result<(), Fail> {
    for record in dump.records() {
        if is_of_copies {
            put_copy(alloc, dump.names(), record, out)?;
        } else {
            put_record(alloc, dump.names(), record, out)?;
        }
    }
    Ok(())
}

// A line for each mergeinfo text, in the order of their numbers.
fn put_texts(dump: &Dump, out: &mut Vec<u8>) -> Result<(), Fail> {
    for number in 0..u32::MAX {
        if number as usize >= dump.values() {
            return Ok(());
        }
        put(out, "\n[")?;
        out.extend_from_slice(dump.value(ValueId(number)))?;
        put(out, "]")?;
    }
    Ok(())
}

// A line for each name, in the order of their numbers.
fn put_names(names: &Names, out: &mut Vec<u8>) -> Result<(), Fail> {
    for number in 0..u32::MAX {
        if number as usize >= names.len() {
            return Ok(());
        }
        put(out, "\nname ")?;
        out.extend_from_slice(names.text(NameId(number)))?;
    }
    Ok(())
}

fn put_dump(alloc: Global, dump: &Dump, is_of_copies: bool, out: &mut Vec<u8>) -> Result<(), Fail> {
    put_counts(alloc, dump.counts(), out)?;
    put_records(alloc, dump, is_of_copies, out)?;
    put_texts(dump, out)
}

// The lines of a dump, and one for each of its names.
fn put_all(alloc: Global, dump: &Dump, out: &mut Vec<u8>) -> Result<(), Fail> {
    put_dump(alloc, dump, false, out)?;
    put_names(dump.names(), out)
}

/// Fails unless the counts of a dump, its records or their copies, and its mergeinfo texts are these, a line each.
pub(crate) fn check_lines(
    alloc: Global,
    dump: &Dump,
    is_of_copies: bool,
    wanted: &str,
) -> Result<(), Fail> {
    let mut text = Vec::new(alloc);
    put_dump(alloc, dump, is_of_copies, &mut text)?;
    if text.as_slice() == wanted.as_bytes() {
        Ok(())
    } else {
        Err(Fail::new(format_args!("{text:?}, not {wanted:?}")))
    }
}

// Fails unless these are all lines of a dump.
fn check_all(alloc: Global, dump: &Dump, wanted: &[u8]) -> Result<(), Fail> {
    let mut text = Vec::new(alloc);
    put_all(alloc, dump, &mut text)?;
    if text.as_slice() == wanted {
        Ok(())
    } else {
        Err(Fail::new(format_args!("{text:?}, not {wanted:?}")))
    }
}

fn check_size(alloc: Global, bytes: &[u8], size: usize, wanted: &[u8]) -> Result<(), Fail>
    requires { 0 < size }
{
    let dump = read_in_pieces(alloc, bytes, size)?;
    check_all(alloc, &dump, wanted)
}

fn check_sizes(alloc: Global, bytes: &[u8], wanted: &[u8]) -> Result<(), Fail> {
    check_size(alloc, bytes, 1, wanted)?;
    check_size(alloc, bytes, 2, wanted)?;
    check_size(alloc, bytes, 3, wanted)?;
    check_size(alloc, bytes, 7, wanted)?;
    check_size(alloc, bytes, 64, wanted)
}

// Fails unless the bytes in pieces are read as this dump, with the same names.
fn check_pieces(alloc: Global, bytes: &[u8], dump: &Dump) -> Result<(), Fail> {
    let mut wanted = Vec::new(alloc);
    put_all(alloc, dump, &mut wanted)?;
    check_sizes(alloc, bytes, wanted.as_slice())
}

fn check_both(alloc: Global, dump: &Dump, wanted: &str) -> Result<(), Fail> {
    check_lines(alloc, dump, false, wanted)?;
    check_lines(alloc, dump, true, wanted)
}

/// Fails unless the bytes are read as that text, also in pieces, and `dup` gives records of the same text.
pub(crate) fn check_text(alloc: Global, bytes: &[u8], wanted: &str) -> Result<(), Fail> {
    let dump = read(alloc, bytes)?;
    check_both(alloc, &dump, wanted.trim())?;
    check_pieces(alloc, bytes, &dump)
}

/// Fails unless the front with these blocks after it is read as that text.
pub(crate) fn check_dump(
    alloc: Global,
    front: &str,
    blocks: &str,
    wanted: &str,
) -> Result<(), Fail> {
    let bytes = [front, blocks].concat(alloc)?;
    check_text(alloc, bytes.as_bytes(), wanted)
}

// Fails unless the front with a block of a table has these lines.
fn check_block(
    alloc: Global,
    front: &str,
    block: &str,
    wanted: &str,
    long: &str,
) -> Result<(), Fail> {
    let bytes = dump_of(alloc, front, block, long)?;
    let wanted = dump_of(alloc, "", wanted, long)?;
    check_text(alloc, bytes.as_bytes(), wanted.as_str())
}

/// Fails unless the front with each block of the table alone after it is read as that text.
///
/// A line of the table is the text, ` = ` and the block.
pub(crate) fn check_blocks(
    alloc: Global,
    front: &str,
    table: &str,
    long: &str,
) -> Result<(), Fail> {
    for line in table.trim_start().lines() {
        let (wanted, block) = line.split_once(" = ").ok_or("a line without ` = `")?;
        check_block(alloc, front, block, wanted, long)?;
    }
    Ok(())
}
