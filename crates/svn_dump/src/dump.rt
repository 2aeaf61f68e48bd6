//! A dump that was read.
ghost use Rattle.std.specs.Prelude.{◌≡◌, ◌<◌, Some, length, slice_get};
ghost use Rattle.svn_dump.specs.Dump.{IsDump};

use crate::record::{NodeRecord, ValueId};
use crate::texts::Texts;
use std::marker::Model;
use svn_path::Names;

/// The records of a dump, with the names and the mergeinfo texts that they number. Only readers make one: `read`,
/// `read_with_seed`, `Feed::finish` and `Feed::pause`.
#[derive(Drop)]
pub struct Dump {
    pub(crate) names: Names,
    pub(crate) records: Vec<NodeRecord>,
    pub(crate) counts: Vec<u32>,
    pub(crate) texts: Texts,
}

impl Model for Dump {
    ghost use Rattle.svn_dump.specs.Dump.{DumpValue, IsDump};

    ghost Value = { DumpValue };

    ghost view = { λ d.
        record { names = d.names; records = d.records.items; counts = d.counts.items; values = d.texts } };

    ghost invariant = { λ d.
        IsDump (record { names = d.names; records = d.records.items; counts = d.counts.items; values = d.texts }) };
}

impl Dump {
    /// The names of the components of its paths.
    pub fn names(&self) -> &Names
        ensures value { result.now ≡ self.now.names }
        ensures kept { IsDump self.now }
    {
        &self.names
    }

    /// All records, in the order of the dump.
    pub fn records(&self) -> &[NodeRecord]
        ensures value { result.now ≡ self.now.records }
        ensures kept { IsDump self.now }
    {
        self.records.as_slice()
    }

    /// How many records each revision has, revision 0 first.
    pub fn counts(&self) -> &[u32]
        ensures value { result.now ≡ self.now.counts }
        ensures kept { IsDump self.now }
    {
        self.counts.as_slice()
    }

    /// How many distinct mergeinfo texts there are.
    pub fn values(&self) -> usize
        ensures count { result ≡ length self.now.values }
        ensures kept { IsDump self.now }
    {
        self.texts.len()
    }

    /// The mergeinfo text of a number. Numbers begin at 0, in the order in which texts were first seen.
    pub fn value(&self, id: ValueId) -> &[u8]
        requires { id.0 < length self.now.values }
        ensures { slice_get self.now.values id.0 ≡ Some result.now }
    {
        self.texts.text(id)
    }
}
