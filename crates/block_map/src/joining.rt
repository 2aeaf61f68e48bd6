//! Joining the maps of neighbouring parts of a history.
ghost use Rattle.std.specs.Prelude.{◌≡◌, ◌++◌, OnOk};
ghost use Rattle.block_map.specs.Blocks.{block_trees};

use crate::map::Map;
use crate::trees::Trees;
use par_scan::Acts;
use std::alloc::AllocError;
use std::sync::Arc;

/// Maps share the blocks that they are joined of. Sharing one whose count of owners is full is want of memory. A joined
/// map has the records of both, so it says of each path what they say together.
impl Acts for Map {
    ghost use Rattle.par_scan.specs.Weightless.{no_weight};
    ghost use Rattle.std.specs.Prelude.{◌≡◌, ◌+◌, ◌++◌, ◌∷◌, [], IfOk};
    ghost use Rattle.par_scan.specs.Chain.{IsChain, IsJoined, IsUnitOf};
    ghost use Rattle.block_map.specs.Joining.{MapPoint, act_on_point, tick_before};
    ghost use Rattle.block_map.specs.Map.{hi_of};

    ghost Point = { MapPoint };

    ghost act = { act_on_point };

    ghost begin = { tick_before };

    ghost end = { hi_of };

    ghost weight = { λ _. 0 };

    ghost weighs = { λ items joined acts. no_weight items };

    fn fits(&self, later: &Self) -> bool {
        self.hi() == later.lo
    }

    fn unit(&self) -> Result<Self, AllocError>
        ensures unit { IfOk result (IsUnitOf act_on_point tick_before hi_of self.now) }
        ensures fits { IfOk result (λ unit. IsChain tick_before hi_of (λ _. 0) (unit ∷ self.now ∷ [])) }
        ensures lo { IfOk result (λ unit. unit.lo ≡ self.now.lo) }
        ensures hi { IfOk result (λ unit. hi_of unit ≡ self.now.lo) }
        ensures nodes { IfOk result (λ unit. unit.nodes ≡ 0) }
    {
        Ok(Map {
            lo: self.lo,
            blocks: Vec::new(*self.blocks.allocator()),
        })
    }

    fn join(&self, later: &Self) -> Result<Self, AllocError>
        requires { IsChain tick_before hi_of (λ _. 0) (self.now ∷ later.now ∷ []) }
        ensures joined { IfOk result (IsJoined act_on_point tick_before hi_of (self.now ∷ later.now ∷ [])) }
        ensures records { IfOk result (λ joined. joined.records ≡ self.now.records ++ later.now.records) }
        ensures nodes { IfOk result (λ joined. joined.nodes ≡ self.now.nodes + later.now.nodes) }
    {
        let mut blocks = Vec::new(*self.blocks.allocator());
        share(&mut blocks, self.blocks.as_slice())?;
        share(&mut blocks, later.blocks.as_slice())?;
        Ok(Map {
            lo: self.lo,
            blocks,
        })
    }

    fn dup(&self) -> Result<Self, AllocError> {
        let mut blocks = Vec::new(*self.blocks.allocator());
        share(&mut blocks, self.blocks.as_slice())?;
        Ok(Map {
            lo: self.lo,
            blocks,
        })
    }
}

/// Appends these blocks, which both lists then share.
fn share(shared: &mut Vec<Arc<Trees>>, blocks: &[Arc<Trees>]) -> Result<(), AllocError>
    ensures { OnOk result (block_trees shared.new.items ≡ block_trees shared.old.items ++ block_trees blocks.now) }
{
    for block in blocks {
        shared.push(Arc::try_clone(block)?)?;
    }
    Ok(())
}
