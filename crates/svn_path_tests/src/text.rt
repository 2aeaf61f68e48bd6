//! Bytes cut at a byte, tables of texts, and decimal numbers.

use std::alloc::{AllocError, Global};
use std::hash::{BuildHasher, Hasher};
use std::test::Fail;
use svn_text::{
    GREATEST_REVISION, Seed, TextTable, number_up_to, push_number, split_at_byte, split_at_last,
};

#[test]
fn bytes_are_split_at_the_first_or_the_last_such_byte(rt: HostRuntime) {
    let bytes = b"a: b: c".as_slice();
    assert_eq!(rt;
        split_at_byte(b':', bytes),
        Some((b"a".as_slice(), b" b: c".as_slice()))
    );
    assert_eq!(rt;
        split_at_last(b':', bytes),
        Some((b"a: b".as_slice(), b" c".as_slice()))
    );
    assert_eq!(rt;
        (split_at_byte(b';', bytes), split_at_last(b';', bytes)),
        (None, None)
    );
}

// Whether a table gives a text this number, before and after it is added, and the text for the number.
fn is_numbered(table: &mut TextTable, text: &[u8], number: u32) -> Result<bool, Fail> {
    let found = table.find(text);
    let added = table.add(text)?;
    Ok(
        added == number
            && found.unwrap_or(number) == number
            && table.find(text) == Some(number)
            && table.len() > number as usize
            && table.text(number) == text,
    )
}

#[test]
fn texts_are_numbered_in_the_order_in_which_they_came(rt: HostRuntime) -> Result<(), Fail> {
    let mut table = TextTable::new(rt.alloc(), Seed::fixed());
    for (text, number) in [
        (b"/branches/1.x:2-9".as_slice(), 0),
        (b"/branches/2.x:2-9", 1),
        (b"", 2),
        (b"/branches/1.x:2-9", 0),
        (b"/branches/2.x:2-99", 3),
        (b"", 2),
    ] {
        assert!(rt; is_numbered(&mut table, text, number)?);
    }
    Ok(())
}

// With the fixed seed, a table looks for all of these texts in the same place first.
const COLLIDING: [&str; 20] = [
    "b0",
    "b3582928",
    "b3873759",
    "b5225756",
    "b5683697",
    "b6176127",
    "b10220803",
    "b14605904",
    "b42382764",
    "b49771219",
    "b50731423",
    "b53014965",
    "b54099526",
    "b60214097",
    "b65594779",
    "b66443480",
    "b74250406",
    "b77494712",
    "b79776038",
    "b80861911",
];

// The place in which a table looks for a text first, as far as its hash tells it.
fn place_of(seed: Seed, text: &str) -> u64 {
    let mut hasher = seed.build_hasher();
    hasher.write(text.as_bytes());
    let hash = hasher.finish();
    (hash ^ hash >> 32) & 0x3f_ffff
}

#[test]
fn the_texts_collide_with_the_fixed_seed(rt: HostRuntime) {
    let place = place_of(Seed::fixed(), COLLIDING[0]);
    for text in COLLIDING {
        assert_eq!(rt; place_of(Seed::fixed(), text), place);
    }
}

// Whether a table numbers these texts in their order.
fn are_numbered(table: &mut TextTable) -> Result<bool, Fail> {
    for (index, text) in COLLIDING.iter().enumerate() {
        if !is_numbered(table, text.as_bytes(), index as u32)? {
            return Ok(false);
        }
    }
    Ok(true)
}

fn are_numbered_with(alloc: Global, seed: Seed) -> Result<bool, Fail> {
    let mut table = TextTable::new(alloc, seed);
    Ok(are_numbered(&mut table)? && are_numbered(&mut table)?)
}

#[test]
fn texts_are_told_apart_with_every_seed(rt: HostRuntime) -> Result<(), Fail> {
    assert!(rt; are_numbered_with(rt.alloc(), Seed::fixed())?);
    for _ in 0..20 {
        assert!(rt; are_numbered_with(rt.alloc(), Seed::random(&rt))?);
    }
    Ok(())
}

#[test]
fn numbers_go_up_to_the_greatest(rt: HostRuntime) {
    for (most, digits, value) in [
        (9, b"009".as_slice(), Some(9)),
        (9, b"10", None),
        (9, b"", None),
        (GREATEST_REVISION, b"2147483647", Some(2_147_483_647)),
    ] {
        assert_eq!(rt; number_up_to(most, digits), value);
    }
}

// The digits of a number, after a byte that stays.
fn digits_after_x(alloc: Global, number: u64) -> Result<Vec<u8>, AllocError> {
    let mut out = Vec::from_slice(alloc, b"x".as_slice())?;
    push_number(&mut out, number)?;
    Ok(out)
}

#[test]
fn numbers_are_written_in_decimal(rt: HostRuntime) -> Result<(), Fail> {
    for (number, written) in [
        (0, b"x0".as_slice()),
        (18_446_744_073_709_551_615, b"x18446744073709551615"),
    ] {
        let digits = digits_after_x(rt.alloc(), number)?;
        assert_eq!(rt; digits.as_slice(), written);
    }
    Ok(())
}
