//! Joining the indexes of neighbouring parts of a history.

use crate::index::Index;
use par_scan::Acts;
use std::alloc::AllocError;

impl Acts for Index {
    ghost use Rattle.std.specs.Prelude.{List};
    ghost use Rattle.svn_dump.specs.declared.record.NodeRecord.{NodeRecord};
    ghost use Rattle.par_scan.specs.Weightless.{no_weight};
    ghost use Rattle.path_index.specs.Joining.{put_records_before, records_before, records_up_to_end};

    ghost Point = { List NodeRecord };

    ghost act = { put_records_before };

    ghost begin = { records_before };

    ghost end = { records_up_to_end };

    ghost weight = { λ _. 0 };

    ghost weighs = { λ items joined acts. no_weight items };

    fn fits(&self, later: &Self) -> bool {
        self.end() == u64::from(later.first)
    }

    fn unit(&self) -> Result<Self, AllocError> {
        let seed = self.by_path.seed();
        Index::build_with_seed(self.records.allocator(), seed, &[], self.first)
    }

    fn join(&self, later: &Self) -> Result<Self, AllocError> {
        self.dup()?.append(later.dup()?)
    }

    fn append(self, later: Self) -> Result<Self, AllocError> {
        let count = self.records.len() as u32;
        Ok(Index {
            records: self.records.append(later.records)?,
            first: self.first,
            by_path: self.by_path.append(later.by_path, count)?,
        })
    }

    fn dup(&self) -> Result<Self, AllocError> {
        Ok(Index {
            records: self.records.dup()?,
            first: self.first,
            by_path: self.by_path.dup()?,
        })
    }
}
