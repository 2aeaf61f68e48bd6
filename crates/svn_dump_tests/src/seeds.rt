//! Dumps that are read with different seeds.
use crate::cut_off::records_are_first;
use sample_dumps::MERGED;
use std::alloc::Global;
use std::hash::BuildHasher;
use std::io;
use std::random::RandomSource;
use std::test::Fail;
use svn_dump::{Dump, DumpError, read, read_with_seed};
use svn_path::{NameId, Names};
use svn_text::Seed;

// A source of bytes that are all the same.
#[derive(Clone, Copy)]
struct Same(u8);

impl RandomSource for Same {
    fn fill_bytes(&self, buf: &mut [u8]) -> io::Result<()> {
        buf.fill(self.0);
        Ok(())
    }
}

// Whether the names have these numbers, and there are no others.
fn names_are(names: &Names, wanted: &Names) -> bool {
    let mut are_wanted = names.len() == wanted.len();
    for number in 0..wanted.len() as u32 {
        let id = NameId(number);
        are_wanted = are_wanted && names.find(wanted.text(id)) == Some(id);
    }
    are_wanted
}

// Whether a dump that is read with this seed has these names and records.
fn is_read(alloc: Global, seed: Seed, wanted: &Dump) -> Result<bool, DumpError> {
    let dump = read_with_seed(alloc, seed, MERGED)?;
    let is_wanted = names_are(dump.names(), wanted.names())
        && dump.records().len() == wanted.records().len()
        && records_are_first(dump.records(), wanted.records());
    drop(dump);
    Ok(is_wanted)
}

#[test]
fn the_seed_does_not_show_in_a_dump(rt: HostRuntime) -> Result<(), Fail> {
    let wanted = read(rt.alloc(), MERGED)?;
    for byte in 0..=255 {
        assert!(rt;
            is_read(rt.alloc(), Seed::random(&Same(byte)), &wanted)?,
            "{byte}"
        );
    }
    Ok(())
}

// What a seed gives to one key. Different seeds hardly ever agree in it.
fn hash_with(seed: Seed) -> u64 {
    seed.hash_one(0u8)
}

#[test]
fn a_dump_has_the_seed_that_it_is_given(rt: HostRuntime) -> Result<(), Fail> {
    let seed = Seed::random(&Same(1));
    assert!(rt; hash_with(seed) != hash_with(Seed::fixed()));
    assert!(rt; hash_with(seed) != hash_with(Seed::random(&Same(2))));
    let dump = read_with_seed(rt.alloc(), seed, MERGED)?;
    let kept = hash_with(dump.names().seed());
    drop(dump);
    assert_eq!(rt; kept, hash_with(seed));
    Ok(())
}
