//! The deque of the places that are left. Its owner takes them at the front, and thieves steal them there.
ghost use Rattle.std.specs.Prelude.{◌≡◌, ◌+◌, ◌<◌, ◌≤◌, [], ◌∷◌, IfNone, IfOk, IfSome};
ghost use Rattle.crossbeam_deque.specs.Handles.{IsPassOf, SameWorker, stealer_deque, view, worker_capacity};
ghost use Rattle.crossbeam_deque.specs.Handles.{worker_deque, worker_flavor, worker_index, worker_view};
ghost use Rattle.query_pool.specs.Serving.{most_places, most_workers};
ghost use Rattle.query_pool.specs.Stealing.{LooksEmpty, Puts, Takes, after_split, joined, split_off, tally};

use crossbeam_deque::protocol::{Join, Outcome, Protocol, Split};
use crossbeam_deque::{Pass, Steal, Stealer, Worker};
use std::alloc::{AllocError, Global};
use std::collections::LinkedList;
use std::sync::Wait;

/// What a pass knows: its parts of the right to know all passes, how many places were put, and the places that it took.
///
/// Contracts alone see it. No value of it is made.
pub struct Tally {
    pub parts: u32,
    pub puts: u32,
    pub taken: LinkedList<u32>,
}

/// The rule that each place is left or was taken once.
pub(crate) struct EachOnce;

impl Protocol<u32, Tally> for EachOnce {
    ghost use Rattle.std.specs.Prelude.{[]};
    ghost use Rattle.query_pool.specs.Serving.{most_workers};
    ghost use Rattle.query_pool.specs.Stealing.{IsShared, spent, tally};

    ghost holds = { IsShared };

    ghost first = { tally most_workers 0 [] };

    ghost guest = { spent };
}

/// A put by the owner.
struct Putting;

impl Outcome<u32, Tally> for Putting {
    ghost then = { Puts };
}

/// A take by the owner, or its empty look.
struct Taking;

impl Outcome<u32, Tally> for Taking {
    ghost then = { Takes };

    ghost empty = { LooksEmpty };
}

/// A steal by a thief, or its empty look.
struct Stealing;

impl Outcome<u32, Tally> for Stealing {
    ghost then = { Takes };
}

/// Splitting off the pass of a thief, and taking it in again.
struct Sharing;

impl Split<Tally> for Sharing {
    ghost use Rattle.query_pool.specs.Stealing.{after_split, split_off};

    ghost left = { after_split };

    ghost right = { split_off };
}

impl Join<Tally> for Sharing {
    ghost use Rattle.query_pool.specs.Stealing.{joined, spent};

    ghost both = { joined };

    ghost spent = { spent };
}

/// The owner's end of the deque.
pub(crate) type Owner = Worker<u32, Global, Tally, EachOnce>;

/// A thief's end of the deque.
pub(crate) type Thief = Stealer<u32, Global, Tally, EachOnce>;

/// A thief's right to steal.
pub(crate) type ThiefPass = Pass<u32, Tally>;

/// A deque in which all places are left, in order.
pub(crate) fn deque_of_places(alloc: Global, n: u32) -> Result<Owner, AllocError>
    requires few_places { n ≤ most_places }
    ensures fifo { IfOk result (λ owner. worker_flavor owner ≡ 0) }
    ensures view { IfOk result (λ owner. worker_view owner ≡ tally most_workers n []) }
{
    let mut owner = Owner::fifo_as(alloc, n as usize)?;
    for place in 0..n {
        put(&mut owner, place);
    }
    Ok(owner)
}

/// Puts a place at the back, for which there is room.
fn put(owner: &mut Owner, place: u32)
    requires room { worker_index owner.old < worker_capacity owner.old }
    requires alone { (worker_view owner.old).parts ≡ most_workers }
    requires next { place ≡ (worker_view owner.old).puts }
    ensures same { SameWorker owner.old owner.new }
    ensures index { worker_index owner.new ≡ worker_index owner.old + 1 }
    ensures put { Puts (worker_view owner.old) (place ∷ []) (worker_view owner.new) }
{
    match owner.push_as::<Putting>(place) {
        Ok(()) => {}
        Err(_) => unreachable!(),
    }
}

/// Takes the first place that is left.
pub(crate) fn take(owner: &mut Owner) -> Option<u32>
    requires fifo { worker_flavor owner.old ≡ 0 }
    requires part { 0 < (worker_view owner.old).parts }
    ensures same { SameWorker owner.old owner.new }
    ensures some { IfSome result (λ place. Takes (worker_view owner.old) (place ∷ []) (worker_view owner.new)) }
    ensures none { IfNone result (LooksEmpty (worker_view owner.new)) }
    ensures unchanged { IfNone result (worker_view owner.new ≡ worker_view owner.old) }
{
    owner.pop_as::<Taking>()
}

/// Steals the first place that is left. Tries again where another thread came first.
pub(crate) fn steal<R: Wait>(rt: &R, thief: &Thief, pass: &mut ThiefPass) -> Option<u32>
    requires pass { IsPassOf (stealer_deque thief.now) pass.old }
    requires part { 0 < (view pass.old).parts }
    ensures pass { IsPassOf (stealer_deque thief.now) pass.new }
    ensures some { IfSome result (λ place. Takes (view pass.old) (place ∷ []) (view pass.new)) }
    ensures unchanged { IfNone result (view pass.new ≡ view pass.old) }
{
    for _ in rt.forever() {
        match thief.steal_as::<Stealing>(pass) {
            Steal::Success(place) => return Some(place),
            Steal::Empty => return None,
            Steal::Retry => {}
        }
    }
    unreachable!()
}

/// Splits off a pass for a thief.
pub(crate) fn split(owner: &mut Owner) -> ThiefPass
    requires parts { 1 < (worker_view owner.old).parts }
    ensures same { SameWorker owner.old owner.new }
    ensures pass { IsPassOf (worker_deque owner.old) result }
    ensures left { worker_view owner.new ≡ after_split (worker_view owner.old) }
    ensures right { view result ≡ split_off (worker_view owner.old) }
{
    owner.another::<Sharing>()
}

/// Takes in the pass of a thief that has ended.
pub(crate) fn absorb(owner: &mut Owner, pass: ThiefPass)
    requires part { 0 < (worker_view owner.old).parts }
    requires pass { IsPassOf (worker_deque owner.old) pass }
    ensures same { SameWorker owner.old owner.new }
    ensures joined { worker_view owner.new ≡ joined (worker_view owner.old) (view pass) }
{
    owner.absorb::<Sharing>(pass)
}
