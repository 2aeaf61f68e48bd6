//! Maps of children, which share what they have in common.
ghost use Rattle.std.specs.Prelude.{◌≡◌, ◌<◌, ◌≤◌, ◌≢◌, ◌++◌, ◌∷◌, [], length, ◌+◌, ◌%◌, ◌==◌, if◌then◌else◌, IfOk, OnErr, OnOk};
ghost use Rattle.std.specs.List.{Contains};
ghost use Rattle.std.specs.Prelude.{ℕ, Some, ◌*◌, ◌^◌};
ghost use Rattle.block_map.specs.Children.{AreKept, HaveMapNames};
ghost use Rattle.block_map.specs.ChildMaps.{child_in, child_map_at, Extends, AreOrdered, HasOne, HasSides, HasTwo, HaveNodesBelow, IsOrderedAfter, SetsChild};

use crate::trie::child_map::{ChildMap, ChildMapId};
use crate::trie::node::NodeId;
use crate::trie::numbers::next_number;
use crate::trie::stored_child_map::StoredChildMap;
use std::alloc::{AllocError, Global};
use std::marker::Model;
use svn_path::NameId;

/// Maps from the names of children to their nodes, which share what they have in common: a map with one name more needs
/// new ones only on the way to the name.
#[derive(Drop)]
pub(crate) struct ChildMaps {
    maps: Vec<StoredChildMap>,
}

impl Model for ChildMaps {
    ghost use Rattle.std.specs.Prelude.{List, map};
    ghost use Rattle.block_map.specs.ChildMaps.{AreOrdered};
    ghost use Rattle.block_map.specs.StoredChildMaps.{child_map_of};
    ghost use Rattle.block_map.specs.declared.trie.child_map.ChildMap.{ChildMap};

    ghost Value = { List ChildMap };

    ghost view = { λ c. map child_map_of c.maps.items };

    ghost invariant = { λ c. AreOrdered (map child_map_of c.maps.items) };
}

/// The number after the greatest one of a name.
const NAMES_END: u64 = 1 << 32;

/// The one of two maps that the lowest bit tells.
fn by_bit(bits: u32, even: ChildMapId, odd: ChildMapId) -> ChildMapId
    ensures { result ≡ (if bits % 2 == 0 then even else odd) }
{
    if bits % 2 == 0 { even } else { odd }
}

impl ChildMaps {
    /// No maps. It takes no memory.
    pub(crate) fn new(alloc: Global) -> Self
        ensures { result ≡ [] }
    {
        ChildMaps {
            maps: Vec::new(alloc),
        }
    }

    /// The node of a name.
    pub(crate) fn get(&self, map: ChildMapId, name: NameId) -> Option<NodeId>
        ensures { result ≡ child_in self.now map name.0 }
    {
        let mut map = map;
        let mut bits = name.0;
        loop {
            match self.child_map(map) {
                None => return None,
                Some(ChildMap::Leaf { bits: left, node }) => {
                    return if left == bits { Some(node) } else { None };
                }
                Some(ChildMap::Branch { even, odd }) => {
                    map = by_bit(bits, even, odd);
                    bits /= 2;
                }
            }
        }
    }

    /// The map with this node for a name.
    pub(crate) fn set(
        &mut self,
        map: ChildMapId,
        name: NameId,
        node: NodeId,
    ) -> Result<ChildMapId, AllocError>
        requires { map.0 ≤ length self.old }
        ensures more { OnOk result (Extends self.old self.new) }
        ensures within { IfOk result (λ after. after.0 ≤ length self.new) }
        ensures exact { IfOk result (SetsChild self.old self.new map name.0 node) }
        ensures nodes { (count : _) → HaveNodesBelow count self.old → node.0 < count
            → OnOk result (HaveNodesBelow count self.new) }
        ensures ordered { AreOrdered self.new }
        ensures failed_more { OnErr result (Extends self.old self.new) }
        ensures failed_nodes { (count : _) → HaveNodesBelow count self.old → node.0 < count
            → OnErr result (HaveNodesBelow count self.new) }
    {
        self.set_bits(map, name.0, node)
    }

    /// The map of a number, unless it is the empty one.
    fn child_map(&self, id: ChildMapId) -> Option<ChildMap>
        ensures is { result ≡ child_map_at self.now id.0 }
        ensures ordered { AreOrdered self.now }
    {
        match id.0 {
            0 => None,
            number => self
                .maps
                .get(number as usize - 1)
                .map(|stored| stored.child_map()),
        }
    }

    /// Adds a map.
    fn push(&mut self, map: ChildMap) -> Result<ChildMapId, AllocError>
        requires { IsOrderedAfter self.old map }
        ensures id { IfOk result (λ id. id.0 ≡ length self.old + 1) }
        ensures added { OnOk result (self.new ≡ self.old ++ map ∷ []) }
        ensures failed { OnErr result (self.new ≡ self.old) }
        ensures ordered { AreOrdered self.new }
    {
        let before = next_number(self.maps.len())?;
        self.maps.push(StoredChildMap::of(map)?)?;
        Ok(ChildMapId(before + 1))
    }

    /// The map of one name.
    fn push_leaf(&mut self, bits: u32, node: NodeId) -> Result<ChildMapId, AllocError>
        ensures more { Extends self.old self.new }
        ensures within { IfOk result (λ after. after.0 ≤ length self.new) }
        ensures exact { IfOk result (HasOne self.new bits node) }
        ensures nodes { (end : _) → HaveNodesBelow end self.old → node.0 < end → HaveNodesBelow end self.new }
        ensures ordered { AreOrdered self.new }
    {
        self.push(ChildMap::Leaf { bits, node })
    }

    /// The map of two others: of the names that have the lowest bit of these bits, and of those that have not.
    fn push_sides(
        &mut self,
        bits: u32,
        same: ChildMapId,
        other: ChildMapId,
    ) -> Result<ChildMapId, AllocError>
        requires same { same.0 ≤ length self.old }
        requires other { other.0 ≤ length self.old }
        ensures more { Extends self.old self.new }
        ensures within { IfOk result (λ after. after.0 ≤ length self.new) }
        ensures exact { IfOk result (HasSides self.old self.new bits same other) }
        ensures nodes { (count : _) → HaveNodesBelow count self.old → HaveNodesBelow count self.new }
        ensures ordered { AreOrdered self.new }
    {
        let even = by_bit(bits, same, other);
        let odd = by_bit(bits, other, same);
        self.push(ChildMap::Branch { even, odd })
    }

    /// The map with this node for the name of which these bits are left.
    #[cycle(set_bits)]
    fn set_bits(
        &mut self,
        map: ChildMapId,
        bits: u32,
        node: NodeId,
    ) -> Result<ChildMapId, AllocError>
        requires { map.0 ≤ length self.old }
        ensures more { Extends self.old self.new }
        ensures within { IfOk result (λ after. after.0 ≤ length self.new) }
        ensures exact { IfOk result (SetsChild self.old self.new map bits node) }
        ensures nodes { (end : _) → HaveNodesBelow end self.old → node.0 < end → HaveNodesBelow end self.new }
        ensures ordered { AreOrdered self.new }
    {
        match self.child_map(map) {
            None => self.push_leaf(bits, node),
            Some(
                ChildMap::Leaf {
                    bits: left,
                    node: other,
                },
            ) => {
                if left == bits {
                    self.push_leaf(bits, node)
                } else {
                    self.split(bits, node, left, other)
                }
            }
            Some(ChildMap::Branch { even, odd }) => {
                let other = by_bit(bits, odd, even);
                let same = self.set_bits(by_bit(bits, even, odd), bits / 2, node)?;
                self.push_sides(bits, same, other)
            }
        }
    }

    /// The map of two names, of which different bits are left.
    #[cycle(split)]
    fn split(
        &mut self,
        one: u32,
        one_node: NodeId,
        other: u32,
        other_node: NodeId,
    ) -> Result<ChildMapId, AllocError>
        requires { one ≢ other }
        ensures more { Extends self.old self.new }
        ensures within { IfOk result (λ after. after.0 ≤ length self.new) }
        ensures exact { IfOk result (HasTwo self.new one one_node other other_node) }
        ensures nodes { (count : _) → HaveNodesBelow count self.old → one_node.0 < count → other_node.0 < count
            → HaveNodesBelow count self.new }
        ensures ordered { AreOrdered self.new }
    {
        if one % 2 == other % 2 {
            let both = self.split(one / 2, one_node, other / 2, other_node)?;
            return self.push_sides(one, both, ChildMapId(0));
        }
        let one_map = self.push_leaf(one / 2, one_node)?;
        let other_map = self.push_leaf(other / 2, other_node)?;
        self.push_sides(one, one_map, other_map)
    }

    /// Appends the numbers of all names of a map.
    pub(crate) fn push_names(&self, map: ChildMapId, names: &mut Vec<u32>) -> Result<(), AllocError>
        ensures kept { OnOk result (AreKept names.old.items names.new.items) }
        ensures all { OnOk result (HaveMapNames self.now map 0 1 names.new.items) }
    {
        self.push_names_from(map, 0, 1, names)
    }

    /// Appends the numbers of the names of a map, whose bits count `scale` each and go on from `low`.
    #[cycle(push_names_from)]
    fn push_names_from(
        &self,
        map: ChildMapId,
        low: u64,
        scale: u64,
        names: &mut Vec<u32>,
    ) -> Result<(), AllocError>
        requires low { low < 2 ^ 32 }
        requires scale { scale ≤ 2 ^ 32 }
        ensures kept { OnOk result (AreKept names.old.items names.new.items) }
        ensures all { OnOk result (HaveMapNames self.now map low scale names.new.items) }
    {
        match self.child_map(map) {
            None => Ok(()),
            Some(ChildMap::Leaf { bits, .. }) => push_name(low, scale, bits, names),
            Some(ChildMap::Branch { even, odd }) => {
                let next = next_scale(scale);
                self.push_names_from(even, low, next, names)?;
                if low + scale >= NAMES_END {
                    return Ok(());
                }
                self.push_names_from(odd, low + scale, next, names)
            }
        }
    }
}

/// What the bits after the lowest one count. There are no names where it is more than `NAMES_END`, but for bits of 0.
fn next_scale(scale: u64) -> u64
    requires { scale ≤ 2 ^ 32 }
    ensures small { result ≤ 2 ^ 32 }
    ensures same { (bits : ℕ) → scale * (2 * bits) < 2 ^ 32 → result * bits ≡ scale * (2 * bits) }
{
    if 2 * scale < NAMES_END {
        2 * scale
    } else {
        NAMES_END
    }
}

/// Appends the number of the name of these bits, if it is one.
fn push_name(low: u64, scale: u64, bits: u32, names: &mut Vec<u32>) -> Result<(), AllocError>
    requires low { low < 2 ^ 32 }
    requires scale { scale ≤ 2 ^ 32 }
    ensures kept { OnOk result (AreKept names.old.items names.new.items) }
    ensures added { OnOk result (low + scale * bits < 2 ^ 32 → Contains names.new.items (low + scale * bits)) }
{
    let name = low + scale * u64::from(bits);
    if name < NAMES_END {
        names.push(name as u32)?;
    }
    Ok(())
}
