//! Reading a dump that is there as a whole.
ghost use Rattle.svn_dump.specs.Reading.{IsReadingOf};

use crate::dump::Dump;
use crate::error::DumpError;
use crate::feed::Feed;
use std::alloc::Global;
use svn_text::Seed;

/// The dump that the bytes are. Of a whole block only names and mergeinfo texts are copied, and of one that the bytes
/// end in its header and property section too.
///
/// A refusal has the number of the first reason against the first faulty block, and the offset of that block; where no
/// block is faulty and there is no revision, it has the length of the input.
///
/// The tables of the dump have the fixed seed. Where strangers write the dump, take `read_with_seed`.
pub fn read(alloc: Global, bytes: &[u8]) -> Result<Dump, DumpError>
    ensures { IsReadingOf bytes.now result }
{
    read_with_seed(alloc, Seed::fixed(), bytes)
}

/// What `read` answers, where names and mergeinfo texts are found by the hashes of a seed.
pub fn read_with_seed(alloc: Global, seed: Seed, bytes: &[u8]) -> Result<Dump, DumpError>
    ensures { IsReadingOf bytes.now result }
{
    let mut feed = Feed::with_seed(alloc, seed);
    feed.feed(bytes)?;
    feed.finish()
}
