//! What is answered where a growth was refused.
use crate::dump_text::check_lines;
use crate::pieces::feed_pieces;
use crate::records::{MERGED_TEXT, SAMPLE_TEXT};
use growth_marks::{begin, end};
use sample_dumps::{DELETE_AND_COPY, DUMPED, MERGED, joined};
use std::alloc::Global;
use std::test::Fail;
use svn_dump::{Dump, DumpError, Feed, read};

// Fails unless the answer is this dump or want of memory.
fn check_answer(alloc: Global, answer: Result<Dump, DumpError>, wanted: &str) -> Result<(), Fail> {
    match answer {
        Ok(dump) => check_lines(alloc, &dump, false, wanted),
        Err(DumpError::Memory) => Ok(()),
        Err(error) => Err(Fail::new(format_args!("{error:?}"))),
    }
}

fn check_read(alloc: Global, bytes: &[u8], wanted: &str) -> Result<(), Fail> {
    begin(alloc);
    let answer = read(alloc, bytes);
    end(alloc);
    check_answer(alloc, answer, wanted.trim())
}

#[test]
fn refused_growths_refuse_no_dump(rt: HostRuntime) -> Result<(), Fail> {
    let dump = joined(rt.alloc(), DUMPED, DELETE_AND_COPY)?;
    check_read(rt.alloc(), dump.as_slice(), SAMPLE_TEXT)?;
    check_read(rt.alloc(), MERGED, MERGED_TEXT)
}

// Fails unless a dump is read in pieces of seven bytes, or memory ran out; the feed answers that alone then.
fn check_fed(alloc: Global, bytes: &[u8], wanted: &str) -> Result<(), Fail> {
    let mut feed = Feed::new(alloc);
    begin(alloc);
    let fed = feed_pieces(&mut feed, bytes, 7);
    end(alloc);
    let again = feed.feed(b"".as_slice());
    let answer = feed.finish();
    if again != fed || answer.is_err() != fed.is_err() {
        drop(answer);
        return Err(Fail::new(format_args!("{fed:?}, then {again:?}")));
    }
    check_answer(alloc, answer, wanted.trim())
}

#[test]
fn refused_growths_end_a_feed(rt: HostRuntime) -> Result<(), Fail> {
    let dump = joined(rt.alloc(), DUMPED, DELETE_AND_COPY)?;
    check_fed(rt.alloc(), dump.as_slice(), SAMPLE_TEXT)?;
    check_fed(rt.alloc(), MERGED, MERGED_TEXT)
}
