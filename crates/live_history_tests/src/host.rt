//! Devices in memory, and talks through them.
ghost use Rattle.std.specs.Prelude.{◌≡◌, ◌<◌, ◌≤◌};
ghost use Rattle.query_pool.specs.Serving.{most_workers};

use devices::Device;
use live_history::{Client, Connection, TalkError, talk};
use std::alloc::Global;
use std::io::{self, Read, Write};
use std::random::RandomSource;
use std::sync::Wait;
use std::thread::Threads;

/// Bytes that come a few at a time.
#[derive(Drop)]
struct Drip {
    alloc: Global,
    left: Vec<u8>,
    most: usize,
}

impl Read for Drip {
    fn read(&mut self, slice: &mut [u8]) -> io::Result<usize> {
        let count = self.left.len().min(self.most).min(slice.len());
        let (front, rest) = self.left.as_slice().split_at(count);
        let (taken, _) = slice.split_at_mut(count);
        taken.copy_from_slice(front);
        let left = Vec::from_slice(self.alloc, rest)?;
        self.left = left;
        Ok(count)
    }
}

/// A writer into a vector, which fails where it is to have more bytes than there may be.
#[derive(Drop)]
struct Limited<'a> {
    taken: &'a mut Vec<u8>,
    most: usize,
}

impl Write for Limited<'_> {
    fn write(&mut self, bytes: &[u8]) -> io::Result<usize> {
        let count = bytes.len().min(self.most.saturating_sub(self.taken.len()));
        self.taken.extend_from_slice(&bytes[..count])?;
        Ok(count)
    }

    fn flush(&mut self) -> io::Result<()> {
        Ok(())
    }
}

/// How the devices of a talk are: how many bytes of the input come at a time, how many the output takes in all, and how
/// many workers there are.
#[derive(Clone, Copy)]
pub(crate) struct Host {
    pub(crate) at_a_time: usize,
    pub(crate) most: usize,
    pub(crate) workers: usize,
}

impl Host {
    /// All that is there comes at once, and the output takes all.
    pub(crate) fn usual() -> Self
        ensures { result.workers ≡ 2 }
    {
        Host {
            at_a_time: 65_536,
            most: 1_000_000,
            workers: 2,
        }
    }

    /// A talk about a dump, and what it said.
    pub(crate) fn talk<R: RandomSource + Threads + Wait + Sync>(
        self,
        rt: &R,
        alloc: Global,
        dump: &[u8],
        input: &[u8],
    ) -> (Vec<u8>, Result<(), TalkError>)
        requires some_worker { 0 < self.workers }
        requires few_workers { self.workers ≤ most_workers }
    {
        let mut said = Vec::new(alloc);
        let ended = self.talk_into(rt, alloc, dump, input, &mut said);
        (said, ended)
    }

    /// A talk about a dump in memory, whose replies go into a vector.
    fn talk_into<R: RandomSource + Threads + Wait + Sync>(
        self,
        rt: &R,
        alloc: Global,
        dump: &[u8],
        input: &[u8],
        said: &mut Vec<u8>,
    ) -> Result<(), TalkError>
        requires some_worker { 0 < self.workers }
        requires few_workers { self.workers ≤ most_workers }
    {
        let input = Drip {
            alloc,
            left: Vec::from_slice(alloc, input)?,
            most: self.at_a_time,
        };
        let output = Limited {
            taken: said,
            most: self.most,
        };
        let client = Connection::new(Device::new(input), Device::new(output));
        talk_with(rt, alloc, dump, self.workers, client)
    }
}

/// A talk with a client about a dump in memory.
fn talk_with<R: RandomSource + Threads + Wait + Sync, C: Client + Drop>(
    rt: &R,
    alloc: Global,
    dump: &[u8],
    workers: usize,
    client: C,
) -> Result<(), TalkError>
    requires some_worker { 0 < workers }
    requires few_workers { workers ≤ most_workers }
    requires new { C.first client ≡ record { input = C.input client; output = C.output client } }
{
    let mut client = client;
    let mut dump = Device::new(dump);
    talk(rt, alloc, &mut dump, workers, &mut client)
}
