//! The index of a dump, joined of the indexes of blocks.
ghost use Rattle.std.specs.Prelude.{◌≡◌, ◌<◌, ◌≤◌, IfOk, length};
ghost use Rattle.svn_report.specs.Blocks.{AreBorders};

use par_scan::{Make, make_all, total};
use path_index::Index;
use query_pool::Workers;
use std::alloc::{AllocError, Global};
use std::thread::Threads;
use svn_dump::{Dump, NodeRecord};
use svn_text::Seed;

/// Blocks of records, each between two borders, which are numbers of records. What is made of a block is the index of
/// its records.
#[derive(Clone, Copy)]
pub(crate) struct BlockIndexes<'a> {
    alloc: Global,
    seed: Seed,
    records: &'a [NodeRecord],
    borders: &'a [usize],
}

impl Make for BlockIndexes<'_> {
    ghost use Rattle.svn_report.specs.Blocks.{HasBlock, IsIndexOfBlock};

    type Item = Index;

    ghost has = { λ blocks i. HasBlock blocks.records.now blocks.borders.now i };

    ghost gives = { λ blocks i index. IsIndexOfBlock blocks.records.now blocks.borders.now i index };

    fn make(&self, i: usize) -> Result<Index, AllocError> {
        let start = self.borders[i];
        let end = self.borders[i + 1];
        Index::build_with_seed(
            self.alloc,
            self.seed,
            &self.records[start..end],
            start as u32,
        )
    }
}

/// The index of all records of a dump, with the seed of its names. The blocks between these borders are indexed in
/// parallel and joined.
pub(crate) fn index_of<R: Threads + Sync>(
    rt: &R,
    alloc: Global,
    dump: &Dump,
    borders: &[usize],
    workers: Workers,
) -> Result<Index, AllocError>
    requires borders { AreBorders 0 (length dump.now.records) borders.now }
    ensures records { IfOk result (λ index. index.records ≡ dump.now.records) }
    ensures first { IfOk result (λ index. index.first ≡ 0) }
{
    let seed = dump.names().seed();
    let blocks = BlockIndexes {
        alloc,
        seed,
        records: dump.records(),
        borders,
    };
    let indexes = make_all(rt, alloc, &blocks, borders.len() - 1, workers.count)?;
    match total(rt, alloc, indexes, workers.count)? {
        Some(index) => Ok(index),
        None => Index::build_with_seed(alloc, seed, &[], 0),
    }
}
