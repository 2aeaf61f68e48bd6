//! What is said for queries and pieces.

use crate::host::Host;
use sample_dumps::{DELETE_AND_COPY, DUMPED};
use std::test::Fail;

const BEFORE: &[u8] = b"segments\t/b@3\npiece 145\n";

const AFTER: &[u8] = b"segments\t/b@3\npiece 0\npiece x\n";

const SAID: &[u8] = b"ready 3

#1 ok
2-3 /b
1-1 /trunk

ready 3

#2 ok
3-3 /b
1-2 /trunk

ready 3

#3 bad-query

";

#[test]
fn queries_and_pieces_are_replied_to(rt: HostRuntime) -> Result<(), Fail> {
    assert_eq!(rt; DELETE_AND_COPY.len(), 145);
    let mut input = Vec::from_slice(rt.alloc(), BEFORE)?;
    input.extend_from_slice(DELETE_AND_COPY)?;
    input.extend_from_slice(AFTER)?;
    for at_a_time in [1, 7, 65_536] {
        for workers in [1, 3] {
            let host = Host {
                at_a_time,
                workers,
                ..Host::usual()
            };
            let (said, ended) = host.talk(&rt, rt.alloc(), DUMPED, input.as_slice());
            assert!(rt; ended.is_ok());
            assert_eq!(rt; said.as_slice(), SAID);
        }
    }
    Ok(())
}
