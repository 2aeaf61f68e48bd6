//! Two threads that ask one memo.
ghost use Rattle.std.specs.Prelude.{◌<◌, length};

use crate::asking::is_told_anew;
use std::alloc::{AllocError, Global};
use std::test::Fail;
use std::thread;
use std::thread::Threads;
use value_memo::Memo;

// Whether two workers, each in a thread, are told what is wanted.
fn are_told<R: Threads + Sync>(rt: &R, alloc: Global, memo: &Memo<'_>) -> Result<bool, AllocError>
    requires { 0 < length memo.now }
{
    let (first, second) = thread::join(
        rt,
        move || is_told_anew(alloc, memo, "/a:1", "/a:1\n"),
        move || is_told_anew(alloc, memo, "/a:1", "/a:1\n"),
    );
    Ok(first? && second?)
}

#[test]
fn two_threads_are_told_the_same(rt: HostRuntime) -> Result<(), Fail> {
    let memo = Memo::new(rt.alloc(), 1)?;
    assert!(rt; are_told(&rt, rt.alloc(), &memo)?);
    Ok(())
}
