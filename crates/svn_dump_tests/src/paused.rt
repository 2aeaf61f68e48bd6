//! A dump that is read in two parts, with a pause between them.
use crate::dump_text::check_lines;
use crate::records::SAMPLE_TEXT;
use sample_dumps::{DELETE_AND_COPY, DUMPED};
use std::alloc::Global;
use std::test::Fail;
use svn_dump::{Dump, DumpError, Feed};

fn read_in_two(alloc: Global, front: &[u8], end: &[u8]) -> Result<Dump, DumpError> {
    let mut feed = Feed::new(alloc);
    feed.feed(front)?;
    let (dump, paused) = feed.pause()?;
    let mut feed = paused.resume(dump);
    feed.feed(end)?;
    feed.finish()
}

#[test]
fn a_pause_does_not_show_in_the_dump(rt: HostRuntime) -> Result<(), Fail> {
    let dump = read_in_two(rt.alloc(), DUMPED, DELETE_AND_COPY)?;
    check_lines(rt.alloc(), &dump, false, SAMPLE_TEXT.trim())
}
