//! Joining a run of items in one thread.
ghost use Rattle.std.specs.Prelude.{
  ◌≡◌,
  ◌-◌,
  ◌<◌,
  IfOk,
  length,
  slice_index_or,
};
ghost use Rattle.par_scan.specs.Chain.{ActsLike, AreHalves, IsChain, IsJoined};
ghost use Rattle.par_scan.specs.Parts.{AreAfter, EachFits, IsScan, last_and_next};

use crate::acts::Acts;
use std::alloc::{AllocError, Global};

/// All items joined, pair by pair. Each join may use the memory of the two.
pub(crate) fn join_all<M: Acts>(mut items: Vec<M>) -> Result<M, AllocError>
    requires some { 0 < length items.items }
    requires chain { IsChain M.begin M.end M.weight items.items }
    ensures { IfOk result (IsJoined M.act M.begin M.end items.items) }
{
    if items.len() == 1 {
        return Ok(items.swap_remove(0));
    }
    let (front, back) = halves(items)?;
    let earlier = join_all(front)?;
    let later = join_all(back)?;
    earlier.append(later)
}

/// The two halves of some items.
pub(crate) fn halves<M: Acts>(mut items: Vec<M>) -> Result<(Vec<M>, Vec<M>), AllocError>
    requires some { 1 < length items.items }
    requires chain { IsChain M.begin M.end M.weight items.items }
    ensures { IfOk result (λ halves. AreHalves M.begin M.end M.weight items.items halves.0.items halves.1.items) }
{
    let back = items.split_off(items.len() / 2)?;
    Ok((items, back))
}

/// The item joined to the last of the earlier elements, or an element that acts as it does where there is none.
pub(crate) fn join_to_last<M: Acts>(earlier: &[M], item: &M) -> Result<M, AllocError>
    requires { (d : M) → 0 < length earlier.now
        → IsChain M.begin M.end M.weight (last_and_next earlier.now d item.now) }
    ensures first { length earlier.now ≡ 0 → IfOk result (ActsLike M.act M.begin M.end item.now) }
    ensures next { (d : M) → 0 < length earlier.now
        → IfOk result (IsJoined M.act M.begin M.end (last_and_next earlier.now d item.now)) }
{
    if earlier.is_empty() {
        return item.dup();
    }
    earlier[earlier.len() - 1].join(item)
}

/// The last of some items.
pub(crate) fn last_of<M>(items: &[M]) -> &M
    requires { 0 < length items.now }
    ensures { (d : M) → result.now ≡ slice_index_or items.now (length items.now - 1) d }
{
    &items[items.len() - 1]
}

/// For each index all items up to it, joined in order.
pub(crate) fn scan_run<M: Acts>(alloc: Global, items: &[M]) -> Result<Vec<M>, AllocError>
    requires { IsChain M.begin M.end M.weight items.now }
    ensures { IfOk result (λ joined. IsScan M.act M.begin M.end items.now joined.items) }
{
    let mut joined = Vec::with_capacity(alloc, items.len())?;
    for item in items {
        let next = join_to_last(joined.as_slice(), item)?;
        joined.push(next)?;
    }
    Ok(joined)
}

/// Each item joined to what stands before them all.
pub(crate) fn join_each<M: Acts>(
    alloc: Global,
    before: &M,
    items: &[M],
) -> Result<Vec<M>, AllocError>
    requires { EachFits M.begin M.end M.weight before.now items.now }
    ensures { IfOk result (λ joined. AreAfter M.act M.begin M.end before.now items.now joined.items) }
{
    let mut joined = Vec::with_capacity(alloc, items.len())?;
    for item in items {
        let next = before.join(item)?;
        joined.push(next)?;
    }
    Ok(joined)
}
