//! The comparison of a refusal with the one that is wanted.
use crate::pieces::read_in_pieces;
use crate::samples::dump_of;
use std::alloc::Global;
use std::test::Fail;
use svn_dump::{Dump, DumpError, read};

/// The number of the refusal and where the faulty block begins, if the answer is one.
fn refusal(answer: Result<Dump, DumpError>) -> Result<Option<(u64, u64)>, Fail> {
    match answer {
        Ok(_) => Ok(None),
        Err(DumpError::Refused { number, at }) => Ok(Some((u64::from(number), at))),
        Err(DumpError::Memory) => Err("out of memory")?,
    }
}

fn check_answer(
    answer: Result<Dump, DumpError>,
    bytes: &[u8],
    number: u64,
    at: u64,
) -> Result<(), Fail> {
    let found = refusal(answer)?;
    if found == Some((number, at)) {
        Ok(())
    } else {
        Err(Fail::new(format_args!("{found:?}, not {number} at {at}: {bytes:?}")))
    }
}

/// Fails unless the bytes are refused by that number at that byte, also where they come one by one.
pub(crate) fn check_refusal(alloc: Global, bytes: &[u8], number: u64, at: u64) -> Result<(), Fail> {
    check_answer(read(alloc, bytes), bytes, number, at)?;
    check_answer(read_in_pieces(alloc, bytes, 1), bytes, number, at)
}

fn number_of(digits: &str) -> u64 {
    let mut number: u64 = 0;
    for digit in digits.bytes() {
        let digit = u64::from(digit.wrapping_sub(b'0'));
        number = number.wrapping_mul(10).wrapping_add(digit);
    }
    number
}

fn check_block(alloc: Global, dump: &str, number: &str, at: u64) -> Result<(), Fail> {
    check_refusal(alloc, dump.as_bytes(), number_of(number), at)
}

fn check_line(alloc: Global, front: &str, at: u64, line: &str, long: &str) -> Result<(), Fail> {
    let (number, block) = line.split_once(' ').ok_or("a line without a space")?;
    let dump = dump_of(alloc, front, block, long)?;
    check_block(alloc, dump.as_str(), number, at)
}

/// Fails unless the front with each block of the table alone after it is refused by its number at that byte.
///
/// A line of the table is the number, a space and the block.
pub(crate) fn check_refusals(
    alloc: Global,
    front: &str,
    at: u64,
    table: &str,
    long: &str,
) -> Result<(), Fail> {
    for line in table.trim_start().lines() {
        check_line(alloc, front, at, line, long)?;
    }
    Ok(())
}

fn check_line_at(alloc: Global, front: &str, line: &str) -> Result<(), Fail> {
    let (number, rest) = line.split_once(' ').ok_or("a line without a space")?;
    let (at, block) = rest.split_once(' ').ok_or("a line without a byte")?;
    let dump = dump_of(alloc, front, block, "")?;
    check_block(alloc, dump.as_str(), number, number_of(at))
}

/// Fails unless the front with each block of the table alone after it is refused so. A line of the table is the number,
/// the byte and the block.
pub(crate) fn check_refusals_at(alloc: Global, front: &str, table: &str) -> Result<(), Fail> {
    for line in table.trim_start().lines() {
        check_line_at(alloc, front, line)?;
    }
    Ok(())
}
