//! How a map of children is stored.
ghost use Rattle.std.specs.Prelude.{◌≡◌, ◌<◌, ◌^◌, IfOk};
ghost use Rattle.block_map.specs.StoredChildMaps.{child_map_of};

use crate::trie::child_map::{ChildMap, ChildMapId};
use crate::trie::node::NodeId;
use std::alloc::AllocError;

/// The greatest bit of a number of 32 bits.
const GREATEST_BIT: u32 = 1 << 31;

/// A map in eight bytes. The greatest bit of `second` tells a leaf from a branch.
#[derive(Clone, Copy)]
pub(crate) struct StoredChildMap {
    /// The bits of a leaf, or the `even` map of a branch.
    first: u32,
    /// The node of a leaf, with the greatest bit, or the `odd` map of a branch, without it.
    second: u32,
}

impl StoredChildMap {
    /// The map as it is stored. The node of a leaf and the `odd` map of a branch have 31 bits. A number of
    /// 2,147,483,648 or more does not fit there: that is reported as want of memory.
    pub(crate) fn of(map: ChildMap) -> Result<Self, AllocError>
        ensures { IfOk result (λ stored. child_map_of stored ≡ map) }
    {
        let (first, second) = match map {
            ChildMap::Leaf { bits, node } => (bits, in_31_bits(node.0)? + GREATEST_BIT),
            ChildMap::Branch { even, odd } => (even.0, in_31_bits(odd.0)?),
        };
        Ok(StoredChildMap { first, second })
    }

    /// The map that is stored.
    pub(crate) fn child_map(self) -> ChildMap
        ensures { result ≡ child_map_of self }
    {
        if self.second < GREATEST_BIT {
            ChildMap::Branch {
                even: ChildMapId(self.first),
                odd: ChildMapId(self.second),
            }
        } else {
            ChildMap::Leaf {
                bits: self.first,
                node: NodeId(self.second - GREATEST_BIT),
            }
        }
    }
}

/// The number, if it has no more than 31 bits.
fn in_31_bits(number: u32) -> Result<u32, AllocError>
    ensures is { IfOk result (λ same. same ≡ number) }
    ensures small { IfOk result (λ same. same < 2 ^ 31) }
{
    if number < GREATEST_BIT {
        Ok(number)
    } else {
        Err(AllocError)
    }
}
