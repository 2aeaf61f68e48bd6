//! Putting results in the order of their places.
ghost use Rattle.std.specs.Prelude.{◌≡◌, [], ◌∷◌, ◌^◌, ◌<◌, IfErr, IfOk, None, OnOk, Some, map, replicate, vec_len};
ghost use Rattle.query_pool.specs.Gathering.{IsGatherError, StandsAtItsPlace};
ghost use Rattle.query_pool.specs.Serving.{HasEachOnce, results_of};
ghost use Rattle.query_pool.specs.Slots.{Adds, Holds, IsAddError, IsUnwrapError};
ghost use Rattle.query_pool.specs.declared.error.GatherError.TheVariants.{Memory};

use crate::error::GatherError;
use crate::part::Part;
use std::alloc::{AllocError, Global};

/// The results of all parts in the order of their places, which are 0 to `n - 1`.
///
/// The first stranger or double in the order of the parts comes before any missing place; of these the least is named.
pub fn gather<Out: Drop>(
    alloc: Global,
    parts: Vec<Part<Out>>,
    n: u32,
) -> Result<Vec<Out>, GatherError>
    ensures each_once { IfOk result (λ _. HasEachOnce n (results_of parts.items)) }
    ensures len { IfOk result (λ ordered. vec_len ordered ≡ n) }
    ensures by_place { IfOk result (λ ordered. StandsAtItsPlace ordered.items (results_of parts.items)) }
    ensures error { IfErr result (IsGatherError n (results_of parts.items)) }
    ensures whole { HasEachOnce n (results_of parts.items) → IfErr result (λ e. e ≡ Memory) }
{
    let slots = slots_of(alloc, parts, n)?;
    unwrap_all(alloc, slots)
}

/// Slots for all places, with the results of all parts.
fn slots_of<Out: Drop>(
    alloc: Global,
    parts: Vec<Part<Out>>,
    n: u32,
) -> Result<Vec<Option<Out>>, GatherError>
    ensures len { IfOk result (λ slots. vec_len slots ≡ n) }
    ensures holds { IfOk result (λ slots. Holds slots.items (results_of parts.items)) }
    ensures error { IfErr result (IsGatherError n (results_of parts.items)) }
{
    let mut slots = empty_slots(alloc, n)?;
    for part in parts {
        fill(&mut slots, part.done)?;
    }
    Ok(slots)
}

/// An empty slot for each place.
fn empty_slots<Out: Drop>(alloc: Global, n: u32) -> Result<Vec<Option<Out>>, AllocError>
    ensures { IfOk result (λ slots. slots.items ≡ replicate n None) }
{
    let mut slots = Vec::with_capacity(alloc, n as usize)?;
    for _ in 0..n {
        slots.push(None)?;
    }
    Ok(slots)
}

/// Puts each result into the slot of its place.
fn fill<Out: Drop>(slots: &mut Vec<Option<Out>>, done: Vec<(u32, Out)>) -> Result<(), GatherError>
    ensures ok { OnOk result (Adds slots.old.items done.items slots.new.items) }
    ensures error { IfErr result (IsAddError slots.old.items done.items) }
{
    for (place, found) in done {
        put(slots, place, found)?;
    }
    Ok(())
}

/// Puts a result into the slot of its place, which must be empty.
fn put<Out: Drop>(slots: &mut Vec<Option<Out>>, place: u32, found: Out) -> Result<(), GatherError>
    ensures ok { OnOk result (Adds slots.old.items ((place, found) ∷ []) slots.new.items) }
    ensures error { IfErr result (IsAddError slots.old.items ((place, found) ∷ [])) }
{
    let at = place as usize;
    if slots.len() <= at {
        return Err(GatherError::Stranger(place));
    }
    if slots[at].is_some() {
        return Err(GatherError::Double(place));
    }
    slots[at] = Some(found);
    Ok(())
}

/// The results in all slots, or the first slot without one.
fn unwrap_all<Out: Drop>(alloc: Global, slots: Vec<Option<Out>>) -> Result<Vec<Out>, GatherError>
    requires { vec_len slots < 2 ^ 32 }
    ensures ok { IfOk result (λ ordered. slots.items ≡ map Some ordered.items) }
    ensures error { IfErr result (IsUnwrapError slots.items) }
{
    let mut ordered = Vec::with_capacity(alloc, slots.len())?;
    let mut place: u32 = 0;
    for slot in slots {
        match slot {
            Some(found) => ordered.push(found)?,
            None => return Err(GatherError::Missing(place)),
        }
        place += 1;
    }
    Ok(ordered)
}
