//! Numbers by nodes, of which most have none.
ghost use Rattle.std.specs.Prelude.{◌≡◌, ℕ, ◌+◌, ◌^◌, ◌<◌, ◌≤◌, ◌++◌, ◌∷◌, [], All, length, IfOk, OnErr, OnOk};
ghost use Rattle.path_index.specs.Numbers.{numbers_of, AddsNumbers, ArePair, FitShifted, HasNumber, HaveSameNumbers};
ghost use Rattle.path_index.specs.Numbers.{IsMoved, IsNewestBelow, IsShifted};
ghost use Rattle.path_index.specs.SparseNumbers.{place_of, IsPlaceOf, KeepPlaces, LeadBack};

use crate::numbers::Numbers;
use std::alloc::{AllocError, Global};
use std::marker::Model;

/// The numbers of nodes most of which have none, each node's in rising order. A node without numbers takes four bytes.
#[derive(Drop)]
pub(crate) struct SparseNumbers {
    /// For each node its place, or 0 while it has none. Nodes past the end have none.
    places: Vec<u32>,
    /// The node of each place from 1 on.
    nodes: Vec<u32>,
    /// The numbers of each place.
    numbers: Numbers,
}

impl Model for SparseNumbers {
    ghost use Rattle.std.specs.Prelude.{ℕ, List};
    ghost use Rattle.smallvec.specs.SmallVec.{SmallVec};
    ghost use Rattle.path_index.specs.SparseNumbers.{lists_by_node, HaveNoneElsewhere, LeadBack};

    ghost Value = { List (SmallVec ℕ) };

    ghost view = { λ n. lists_by_node n.places.items n.numbers };

    ghost invariant = { λ n. LeadBack n.places.items n.nodes.items × HaveNoneElsewhere n.nodes.items n.numbers };
}

/// Appends a 0 for each node up to this one that has no place yet.
fn extend_to(places: &mut Vec<u32>, node: u32) -> Result<(), AllocError>
    ensures same { (other : ℕ) → place_of places.new.items other ≡ place_of places.old.items other }
    ensures within { OnOk result (node < length places.new.items) }
{
    if places.len() <= node as usize {
        places.resize(node as usize + 1, 0)?;
    }
    Ok(())
}

/// Gives the node the next place. There are 4,294,967,295 places: that all are given is reported as want of memory.
fn add_place(nodes: &mut Vec<u32>, node: u32) -> Result<u32, AllocError>
    ensures nodes { OnOk result (nodes.new.items ≡ nodes.old.items ++ node ∷ []) }
    ensures place { IfOk result (λ place. place ≡ length nodes.new.items) }
    ensures err { OnErr result (nodes.new.items ≡ nodes.old.items) }
{
    if nodes.len() >= u32::MAX as usize {
        return Err(AllocError);
    }
    nodes.push(node)?;
    Ok(nodes.len() as u32)
}

/// The place of a node, which gets one if it has none.
fn place_for(places: &mut Vec<u32>, nodes: &mut Vec<u32>, node: u32) -> Result<u32, AllocError>
    requires { LeadBack places.old.items nodes.old.items }
    ensures back { LeadBack places.new.items nodes.new.items }
    ensures kept { KeepPlaces nodes.old.items places.old.items places.new.items }
    ensures grown { length nodes.old.items ≤ length nodes.new.items }
    ensures place { IfOk result (IsPlaceOf places.new.items nodes.new.items node) }
{
    extend_to(places, node)?;
    let known = places[node as usize];
    if known > 0 {
        return Ok(known);
    }
    let place = add_place(nodes, node)?;
    places[node as usize] = place;
    Ok(place)
}

impl SparseNumbers {
    /// No numbers. It takes no memory.
    pub(crate) fn new(alloc: Global) -> Self
        ensures { result ≡ [] }
    {
        SparseNumbers {
            places: Vec::new(alloc),
            nodes: Vec::new(alloc),
            numbers: Numbers::new(alloc),
        }
    }

    /// A copy in which each node has the same numbers.
    pub(crate) fn dup(&self) -> Result<Self, AllocError>
        ensures { IfOk result (HaveSameNumbers self.now) }
    {
        let alloc = *self.places.allocator();
        Ok(SparseNumbers {
            places: Vec::from_slice(alloc, self.places.as_slice())?,
            nodes: Vec::from_slice(alloc, self.nodes.as_slice())?,
            numbers: self.numbers.dup()?,
        })
    }

    /// The numbers of a node.
    fn of(&self, node: usize) -> &[u32]
        ensures { result.now ≡ numbers_of self.now node }
    {
        match self.places.get(node) {
            Some(place) => self.numbers.of(*place as usize),
            None => &[],
        }
    }

    /// Inserts a number of a node, if it is not there.
    pub(crate) fn insert(&mut self, node: u32, number: u32) -> Result<(), AllocError>
        ensures { OnOk result (AddsNumbers (ArePair node number) self.old self.new) }
    {
        let place = place_for(&mut self.places, &mut self.nodes, node)?;
        self.numbers.insert(place, number)
    }

    /// Gives back the memory that is kept for more numbers.
    pub(crate) fn shrink_to_fit(&mut self)
        ensures { HaveSameNumbers self.old self.new }
    {
        self.numbers.shrink_to_fit();
        self.shrink_nodes();
    }

    /// Gives back the memory that is kept for more nodes.
    fn shrink_nodes(&mut self)
        ensures { self.new ≡ self.old }
    {
        self.places.shrink_to_fit();
        self.nodes.shrink_to_fit();
        self.numbers.shrink_nodes();
    }

    /// Inserts these numbers plus a shift at a node.
    fn insert_shifted(&mut self, node: u32, numbers: &[u32], shift: u32) -> Result<(), AllocError>
        requires { All (λ number. number + shift < 2 ^ 32) numbers.now }
        ensures { OnOk result (AddsNumbers (IsShifted numbers.now shift node) self.old self.new) }
    {
        if numbers.is_empty() {
            return Ok(());
        }
        let place = place_for(&mut self.places, &mut self.nodes, node)?;
        self.numbers.insert_shifted(place, numbers, shift)
    }

    /// Inserts the numbers of other nodes plus a shift, each at the node to which its own is mapped. Nodes without
    /// numbers get no place.
    pub(crate) fn insert_all(
        &mut self,
        later: SparseNumbers,
        nodes: &[u32],
        shift: u32,
    ) -> Result<(), AllocError>
        requires { FitShifted later shift }
        ensures { OnOk result (AddsNumbers (IsMoved later nodes.now (length nodes.now) shift) self.old self.new) }
    {
        for (from, node) in nodes.iter().enumerate() {
            self.insert_shifted(*node, later.of(from), shift)?;
        }
        self.shrink_nodes();
        Ok(())
    }

    /// The greatest number below a limit that the node has.
    pub(crate) fn newest_below(&self, node: u32, limit: u32) -> Option<u32>
        ensures { IsNewestBelow limit (HasNumber self.now node) result }
    {
        let place = self.places.get(node as usize)?;
        self.numbers.newest_below(*place, limit)
    }
}
