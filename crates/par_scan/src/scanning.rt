//! Joining all items up to each index.
ghost use Rattle.std.specs.Prelude.{
  ◌≡◌,
  ℕ,
  ◌+◌,
  ◌-◌,
  ◌<◌,
  ◌≤◌,
  [],
  IfOk,
  IfSome,
  IfNone,
  length,
  slice_index_or,
  vec_len,
};
ghost use Rattle.par_scan.specs.Chain.{AreJoinedUpTo, IsChain, IsJoined, IsSomeChain};
ghost use denote.Param.Send.{IsSend, IsSync};
ghost use Rattle.par_scan.specs.Parts.{AreScans, FitsAt, IsAfterAt, IsFilled, IsScan, IsUpToPart, most_parts};

use crate::acts::Acts;
use crate::gathering::{all_ok, append_all};
use crate::joining::{halves, join_all, join_each, join_to_last, last_of, scan_run};
use std::alloc::{AllocError, Global};
use std::thread::{self, Threads, map_chunks, map_indices};

/// For each index an element that is all items up to that index, joined in order. The work is divided into at most
/// `parts` parts of neighbours, each done in a thread of its own, or by the caller where none can be started.
pub fn scan<R: Threads + Sync, M: Acts>(
    rt: &R,
    alloc: Global,
    items: Vec<M>,
    parts: usize,
) -> Result<Vec<M>, AllocError>
    requires chain { IsChain M.begin M.end M.weight items.items }
    requires some_part { 0 < parts }
    requires few_parts { parts ≤ most_parts }
    ensures len { IfOk result (λ joined. vec_len joined ≡ vec_len items) }
    ensures joined { IfOk result (λ joined. AreJoinedUpTo M.act M.begin M.end items.items joined.items) }
{
    if items.is_empty() {
        return Ok(items);
    }
    let size = items.len().div_ceil(parts);
    let (mut scanned, before) = scan_parts(rt, alloc, items.as_slice(), size)?;
    let later = join_parts(rt, alloc, before.as_slice(), scanned.as_slice())?;
    append_all(scanned.swap_remove(0), later)
}

/// All items joined in order, or `None` of no items. Neighbours are joined pair by pair, so that of n items each takes
/// part in about log n joins.
pub fn total<R: Threads + Sync, M: Acts>(
    rt: &R,
    alloc: Global,
    mut items: Vec<M>,
    parts: usize,
) -> Result<Option<M>, AllocError>
    requires chain { IsChain M.begin M.end M.weight items.items }
    requires some_part { 0 < parts }
    requires few_parts { parts ≤ most_parts }
    ensures joined { IfOk result (λ total. IfSome total (IsJoined M.act M.begin M.end items.items)) }
    ensures none { IfOk result (λ total. IfNone total (items.items ≡ [])) }
{
    if items.len() < 2 {
        return Ok(items.pop());
    }
    let joined = join_across(rt, items, parts)?;
    Ok(Some(joined))
}

/// All items joined, by at most so many threads at a time: each half is joined on its own.
#[cycle(join_across)]
fn join_across<R: Threads + Sync, M: Acts>(
    rt: &R,
    items: Vec<M>,
    parts: usize,
) -> Result<M, AllocError>
    requires some { 0 < length items.items }
    requires chain { IsChain M.begin M.end M.weight items.items }
    ensures { IfOk result (IsJoined M.act M.begin M.end items.items) }
{
    if parts < 2 || items.len() < 4 {
        return join_all(items);
    }
    let (front, back) = halves(items)?;
    let join_front = move || -> Result<M, AllocError>
        requires { IsSync R.row × IsSync M.row × IsSend M.row × IsSomeChain M.begin M.end M.weight front.items }
        ensures { IfOk result (IsJoined M.act M.begin M.end front.items) }
    { join_across(rt, front, parts / 2) };
    let join_back = move || -> Result<M, AllocError>
        requires { IsSync R.row × IsSync M.row × IsSend M.row × IsSomeChain M.begin M.end M.weight back.items }
        ensures { IfOk result (IsJoined M.act M.begin M.end back.items) }
    { join_across(rt, back, parts - parts / 2) };
    let (earlier, later) = thread::join(rt, join_front, join_back);
    earlier?.append(later?)
}

/// Each part scanned on its own.
fn scan_each<R: Threads + Sync, M: Acts>(
    rt: &R,
    alloc: Global,
    items: &[M],
    size: usize,
) -> Result<Vec<Vec<M>>, AllocError>
    requires size { 0 < size }
    requires chain { IsChain M.begin M.end M.weight items.now }
    ensures { IfOk result (λ scanned. AreScans M.act M.begin M.end size items.now scanned.items) }
{
    let scan_part = |_start: usize, part: &[M]| -> Result<Vec<M>, AllocError>
        requires { IsChain M.begin M.end M.weight part.now }
        ensures { IfOk result (λ scanned. IsScan M.act M.begin M.end part.now scanned.items) }
    { scan_run(alloc, part) };
    let results = map_chunks(rt, alloc, items, size, &scan_part)?;
    all_ok(alloc, results)
}

/// Each part scanned on its own, and for each part but the last one all items up to its end.
fn scan_parts<R: Threads + Sync, M: Acts>(
    rt: &R,
    alloc: Global,
    items: &[M],
    size: usize,
) -> Result<(Vec<Vec<M>>, Vec<M>), AllocError>
    requires some { 0 < length items.now }
    requires size { 0 < size }
    requires chain { IsChain M.begin M.end M.weight items.now }
    ensures scanned { IfOk result (λ made. AreScans M.act M.begin M.end size items.now made.0.items) }
    ensures before { IfOk result (λ made.
        IsFilled (IsUpToPart M.act M.begin M.end items.now size) 0 (length made.0.items - 1) made.1.items) }
{
    let scanned = scan_each(rt, alloc, items, size)?;
    let mut before = Vec::with_capacity(alloc, scanned.len() - 1)?;
    for part in 0..scanned.len() - 1 {
        let end = last_of(scanned[part].as_slice());
        let next = join_to_last(before.as_slice(), end)?;
        before.push(next)?;
    }
    Ok((scanned, before))
}

/// The items of each part but the first one, joined to what stands before the part.
fn join_parts<R: Threads + Sync, M: Acts>(
    rt: &R,
    alloc: Global,
    before: &[M],
    parts: &[Vec<M>],
) -> Result<Vec<Vec<M>>, AllocError>
    requires len { length before.now + 1 ≡ length parts.now }
    requires fits { (at : ℕ) → at < length before.now → FitsAt M.begin M.end M.weight before.now parts.now at }
    ensures len { IfOk result (λ joined. length joined.items ≡ length before.now) }
    ensures each { IfOk result (λ joined. (part : ℕ) (d : _) → part < length before.now
        → IsAfterAt M.act M.begin M.end before.now parts.now part (slice_index_or joined.items part d).items) }
{
    let join_part = |part: usize| -> Result<Vec<M>, AllocError>
        requires { (part < length before.now) × (length before.now + 1 ≡ length parts.now)
            × FitsAt M.begin M.end M.weight before.now parts.now part }
        ensures { IfOk result (λ joined.
            IsAfterAt M.act M.begin M.end before.entry.now parts.entry.now part joined.items) }
    { join_each(alloc, &before[part], parts[part + 1].as_slice()) };
    let results = map_indices(rt, alloc, before.len(), &join_part)?;
    all_ok(alloc, results)
}
