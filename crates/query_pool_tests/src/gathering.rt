//! Parts with one letter at each place.
use query_pool::{GatherError, Part, gather};
use std::alloc::Global;
use std::test::Fail;

// What is gathered from two parts, or the name of the error.
fn gathered(
    alloc: Global,
    first: &[(u32, u8)],
    second: &[(u32, u8)],
    n: u32,
) -> Result<Vec<u8>, Fail> {
    let mut parts = Vec::new(alloc);
    for done in [first, second] {
        let done = Vec::from_slice(alloc, done)?;
        parts.push(Part { done })?;
    }
    match gather(alloc, parts, n) {
        Ok(ordered) => Ok(ordered),
        Err(error) => Ok(format!(in alloc; "{error:?}")?.into_bytes()),
    }
}

#[test]
fn results_stand_in_the_order_of_their_places(rt: HostRuntime) -> Result<(), Fail> {
    let found = gathered(rt.alloc(), &[(1, b'b'), (0, b'a')], &[(2, b'c')], 3)?;
    assert!(rt; found.as_slice() == b"abc".as_slice());
    Ok(())
}

#[test]
fn no_parts_have_no_results(rt: HostRuntime) -> Result<(), Fail> {
    let found: Vec<u8> = gather(rt.alloc(), Vec::new(rt.alloc()), 0)?;
    assert!(rt; found.is_empty());
    Ok(())
}

#[test]
fn the_least_missing_place_is_named(rt: HostRuntime) -> Result<(), Fail> {
    let found = gathered(rt.alloc(), &[(1, b'b'), (0, b'a')], &[], 3)?;
    assert!(rt; found.as_slice() == b"Missing(2)".as_slice());
    let found = gathered(rt.alloc(), &[(1, b'b')], &[], 3)?;
    assert!(rt; found.as_slice() == b"Missing(0)".as_slice());
    Ok(())
}

#[test]
fn a_place_has_one_result(rt: HostRuntime) -> Result<(), Fail> {
    let found = gathered(rt.alloc(), &[(1, b'b'), (0, b'a')], &[(1, b'b')], 3)?;
    assert!(rt; found.as_slice() == b"Double(1)".as_slice());
    let found = gathered(rt.alloc(), &[(1, b'b'), (0, b'a')], &[(3, b'd')], 3)?;
    assert!(rt; found.as_slice() == b"Stranger(3)".as_slice());
    Ok(())
}

#[test]
fn the_first_stranger_or_double_is_named(rt: HostRuntime) -> Result<(), Fail> {
    let found = gathered(rt.alloc(), &[(3, b'd')], &[(0, b'a'), (0, b'a')], 3)?;
    assert!(rt; found.as_slice() == b"Stranger(3)".as_slice());
    let found = gathered(rt.alloc(), &[(0, b'a'), (0, b'a')], &[(3, b'd')], 3)?;
    assert!(rt; found.as_slice() == b"Double(0)".as_slice());
    Ok(())
}

#[test]
fn a_stranger_comes_before_a_missing_place(rt: HostRuntime) -> Result<(), Fail> {
    let found = gathered(rt.alloc(), &[(0, b'a')], &[(3, b'd')], 3)?;
    assert!(rt; found.as_slice() == b"Stranger(3)".as_slice());
    Ok(())
}

#[test]
fn an_error_is_told_in_words(rt: HostRuntime) -> Result<(), Fail> {
    for (error, words) in [
        (GatherError::Stranger(3), "there is no place 3"),
        (GatherError::Double(1), "place 1 has two results"),
        (GatherError::Missing(2), "place 2 has no result"),
        (GatherError::Memory, "out of memory"),
    ] {
        assert_eq!(rt; format!(in rt.alloc(); "{error}")?.as_str(), words);
    }
    Ok(())
}
