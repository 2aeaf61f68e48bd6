//! Numbers by nodes, of which most have some.
ghost use Rattle.std.specs.Prelude.{◌≡◌, ◌+◌, ◌-◌, ◌^◌, ◌<◌, ◌++◌, [], All, filter, length, map, IfOk, OnOk};
ghost use Rattle.path_index.specs.Numbers.{has_number, newer_of, numbers_of, AddsNumbers, ArePair, FitShifted};
ghost use Rattle.path_index.specs.Numbers.{HasNumber, HaveSameNumbers, IsMoved, IsNewestBelow, IsFirstNotBelow, IsRising};
ghost use Rattle.path_index.specs.Numbers.{IsShifted, IsFrontUpTo, IsWith, KeepOthers};
ghost use Rattle.path_index.specs.Operative.{down_from, hit_at};

use crate::segment::Hit;
use smallvec::SmallVec;
use std::alloc::{AllocError, Global};
use std::marker::Model;
use std::mem;

/// The numbers of one node. Most nodes have few, which need no memory of their own.
type List = SmallVec<u32, 4>;

/// The numbers of nodes, each node's in rising order. Nodes past the end of the lists have none.
#[derive(Drop)]
pub(crate) struct Numbers {
    lists: Vec<List>,
}

impl Model for Numbers {
    ghost use Rattle.std.specs.Prelude.{ℕ, List};
    ghost use Rattle.smallvec.specs.SmallVec.{SmallVec};
    ghost use Rattle.path_index.specs.Numbers.{AreAllRising};

    ghost Value = { List (SmallVec ℕ) };

    ghost view = { λ n. n.lists.items };

    ghost invariant = { λ n. AreAllRising n.lists.items };
}

/// The newer of two indices of records.
pub(crate) fn newer(one: Option<u32>, other: Option<u32>) -> Option<u32>
    ensures { result ≡ newer_of one other }
{
    match (one, other) {
        (None, _) => other,
        (_, None) => one,
        (Some(a), Some(b)) => Some(if a < b { b } else { a }),
    }
}

/// The index of the first of these numbers that is not below a number.
fn first_not_below(numbers: &[u32], number: u32) -> usize
    requires { IsRising numbers.now }
    ensures { IsFirstNotBelow number numbers.now result }
{
    match numbers.last() {
        Some(last) if *last < number => numbers.len(),
        Some(last) if *last == number => numbers.len() - 1,
        _ => numbers.partition_point(|each| *each < number),
    }
}

/// Inserts a number in its order, if it is not there.
fn insert_number(numbers: &mut List, number: u32) -> Result<(), AllocError>
    requires { IsRising numbers.old.items }
    ensures rising { IsRising numbers.new.items }
    ensures with { OnOk result (IsWith number numbers.old.items numbers.new.items) }
{
    let known = numbers.as_slice();
    let first = first_not_below(known, number);
    if first == known.len() || known[first] != number {
        numbers.insert(first, number)?;
    }
    Ok(())
}

/// Appends empty lists, so that the node has one.
fn extend_to(lists: &mut Vec<List>, node: usize) -> Result<(), AllocError>
    ensures same { HaveSameNumbers lists.old.items lists.new.items }
    ensures within { OnOk result (node < length lists.new.items) }
{
    let alloc = *lists.allocator();
    while lists.len() <= node {
        lists.push(List::new(alloc))?;
    }
    Ok(())
}

/// Takes the list of a node away. An empty one stands in its place.
fn take_list(lists: &mut Vec<List>, node: usize) -> List
    ensures taken { result.items ≡ numbers_of lists.old.items node }
    ensures others { KeepOthers node lists.old.items lists.new.items }
{
    let none = List::new(*lists.allocator());
    if node >= lists.len() {
        return none;
    }
    mem::replace(&mut lists[node], none)
}

/// Gives back the memory that the lists keep for more numbers.
fn shrink_all(lists: &mut Vec<List>)
    ensures { HaveSameNumbers lists.old.items lists.new.items }
{
    for list in lists.iter_mut() {
        list.shrink_to_fit();
    }
    lists.shrink_to_fit();
}

impl Numbers {
    /// No numbers. It takes no memory.
    pub(crate) fn new(alloc: Global) -> Self
        ensures { result ≡ [] }
    {
        Numbers {
            lists: Vec::new(alloc),
        }
    }

    /// A copy in which each node has the same numbers.
    pub(crate) fn dup(&self) -> Result<Self, AllocError>
        ensures { IfOk result (HaveSameNumbers self.now) }
    {
        let alloc = *self.lists.allocator();
        let mut lists = Vec::with_capacity(alloc, self.lists.len())?;
        for list in &self.lists {
            lists.push(List::from_slice(alloc, list.as_slice())?)?;
        }
        Ok(Numbers { lists })
    }

    /// The numbers of a node.
    pub(crate) fn of(&self, node: usize) -> &[u32]
        ensures numbers { result.now ≡ numbers_of self.now node }
        ensures rising { IsRising result.now }
    {
        match self.lists.get(node) {
            Some(list) => list.as_slice(),
            None => &[],
        }
    }

    /// Inserts a number of a node, if it is not there.
    pub(crate) fn insert(&mut self, node: u32, number: u32) -> Result<(), AllocError>
        ensures added { OnOk result (AddsNumbers (ArePair node number) self.old self.new) }
        ensures others { KeepOthers node self.old self.new }
    {
        extend_to(&mut self.lists, node as usize)?;
        insert_number(&mut self.lists[node as usize], number)
    }

    /// Gives back the memory that is kept for more numbers.
    pub(crate) fn shrink_to_fit(&mut self)
        ensures { HaveSameNumbers self.old self.new }
    {
        shrink_all(&mut self.lists);
    }

    /// Gives back the memory that is kept for more nodes.
    pub(crate) fn shrink_nodes(&mut self)
        ensures { self.new ≡ self.old }
    {
        self.lists.shrink_to_fit();
    }

    /// Makes room for so many more numbers of a node.
    fn reserve(&mut self, node: usize, more: usize) -> Result<(), AllocError>
        ensures { HaveSameNumbers self.old self.new }
    {
        if more == 0 {
            return Ok(());
        }
        extend_to(&mut self.lists, node)?;
        self.lists[node].reserve_exact(more)
    }

    /// Inserts these numbers plus a shift at a node.
    pub(crate) fn insert_shifted(
        &mut self,
        node: u32,
        numbers: &[u32],
        shift: u32,
    ) -> Result<(), AllocError>
        requires { All (λ number. number + shift < 2 ^ 32) numbers.now }
        ensures added { OnOk result (AddsNumbers (IsShifted numbers.now shift node) self.old self.new) }
        ensures others { KeepOthers node self.old self.new }
    {
        self.reserve(node as usize, numbers.len())?;
        for number in numbers {
            self.insert(node, *number + shift)?;
        }
        Ok(())
    }

    /// Inserts the numbers of other nodes plus a shift, each at the node to which its own is mapped. Each list of
    /// numbers is given back as soon as its own are inserted.
    pub(crate) fn insert_all(
        &mut self,
        later: Numbers,
        nodes: &[u32],
        shift: u32,
    ) -> Result<(), AllocError>
        requires { FitShifted later shift }
        ensures { OnOk result (AddsNumbers (IsMoved later nodes.now (length nodes.now) shift) self.old self.new) }
    {
        let Numbers { mut lists } = later;
        for (from, node) in nodes.iter().enumerate() {
            let list = take_list(&mut lists, from);
            self.insert_shifted(*node, list.as_slice(), shift)?;
        }
        self.shrink_nodes();
        Ok(())
    }

    /// The numbers of a node up to this one.
    fn up_to(&self, node: u32, last: u32) -> &[u32]
        ensures { IsFrontUpTo last (numbers_of self.now node) result.now }
    {
        let numbers = self.of(node as usize);
        let count = numbers.partition_point(|each| *each <= last);
        let (front, _) = numbers.split_at(count);
        front
    }

    /// The greatest number below a limit that the node has.
    pub(crate) fn newest_below(&self, node: u32, limit: u32) -> Option<u32>
        ensures { IsNewestBelow limit (HasNumber self.now node) result }
    {
        if limit == 0 {
            return None;
        }
        self.up_to(node, limit - 1).last().copied()
    }

    /// Appends the node's numbers after `lo` and up to `hi` as hits of a segment, the greatest first.
    pub(crate) fn push_hits(
        &self,
        hits: &mut Vec<Hit>,
        segment: usize,
        node: u32,
        lo: u32,
        hi: u32,
    ) -> Result<(), AllocError>
        ensures { OnOk result (hits.new.items ≡ hits.old.items
            ++ map (hit_at segment) (filter (has_number self.now node) (down_from (hi - lo) hi))) }
    {
        let mut rest = self.up_to(node, hi);
        while let Some((last, before)) = rest.split_last() {
            if *last <= lo {
                break;
            }
            hits.push(Hit {
                rev: *last,
                segment,
            })?;
            rest = before;
        }
        Ok(())
    }
}
