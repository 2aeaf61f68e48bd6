//! The map of a dump, joined of the maps of blocks.
ghost use Rattle.std.specs.Prelude.{◌≡◌, ◌<◌, ◌≤◌, IfOk, length};
ghost use Rattle.svn_dump.specs.Dump.{IsDump};
ghost use Rattle.block_map.specs.Ends.{ends_of};
ghost use Rattle.block_map.specs.Map.{IsMapOf, nodes_for, records_at_ticks};
ghost use Rattle.svn_report.specs.Blocks.{AreBorders};

use block_map::{Ends, Map};
use par_scan::{Make, make_all, total};
use query_pool::Workers;
use std::alloc::{AllocError, Global};
use std::thread::Threads;
use svn_dump::{Dump, NodeRecord};

/// Blocks of records, each between two borders, which are numbers of records. What is made of a block is the map of its
/// records.
#[derive(Clone, Copy)]
pub(crate) struct BlockMaps<'a> {
    alloc: Global,
    records: &'a [NodeRecord],
    ends: &'a Ends,
    borders: &'a [usize],
}

impl Make for BlockMaps<'_> {
    ghost use Rattle.std.specs.Prelude.{◌≤◌};
    ghost use Rattle.block_map.specs.Map.{nodes_for};
    ghost use Rattle.svn_report.specs.Blocks.{HasMapOfBlock, IsMapOfBlock};

    type Item = Map;

    ghost has = { λ blocks i. HasMapOfBlock blocks.records.now blocks.ends.now blocks.borders.now i };

    ghost gives = { λ blocks i map.
        IsMapOfBlock blocks.records.now blocks.ends.now blocks.borders.now i map
        × (map.nodes ≤ nodes_for map.records) };

    fn make(&self, i: usize) -> Result<Map, AllocError> {
        let start = self.borders[i];
        let end = self.borders[i + 1];
        let records = &self.records[start..end];
        Map::build(self.alloc, records, start as u32, self.ends)
    }
}

/// The map of all records of a dump. The maps of the blocks between these borders are made in parallel and joined.
pub(crate) fn map_of<R: Threads + Sync>(
    rt: &R,
    alloc: Global,
    dump: &Dump,
    ends: &Ends,
    borders: &[usize],
    workers: Workers,
) -> Result<Map, AllocError>
    requires ends { ends.now ≡ ends_of dump.now.counts }
    requires borders { AreBorders 0 (length dump.now.records) borders.now }
    ensures map { IfOk result (IsMapOf dump.now) }
    ensures nodes { IfOk result (λ map. map.nodes ≤ nodes_for (records_at_ticks ends.now dump.now.records)) }
    ensures kept { IsDump dump.now }
{
    let blocks = BlockMaps {
        alloc,
        records: dump.records(),
        ends,
        borders,
    };
    let maps = make_all(rt, alloc, &blocks, borders.len() - 1, workers.count)?;
    match total(rt, alloc, maps, workers.count)? {
        Some(map) => Ok(map),
        None => Map::build(alloc, &[], 0, ends),
    }
}
