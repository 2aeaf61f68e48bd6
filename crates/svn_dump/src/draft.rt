//! A dump that is being read.
ghost use Rattle.std.specs.Prelude.{◌≡◌, [], bytes_eq, IsFalse, OnOk, IfErr, IfOk};
ghost use Rattle.std.specs.List.{IsDistinct};
ghost use Rattle.svn_path.specs.Names.{IsTable};
ghost use Rattle.svn_dump.specs.Dump.{IsDump};
ghost use Rattle.svn_dump.specs.Draft.{dump_of, is_full, IsWholeHistory};
ghost use Rattle.svn_dump.specs.Growth.{GrowsTo};
ghost use Rattle.svn_dump.specs.Node.{node_block, revision_block};
ghost use Rattle.svn_dump.specs.FrontBlock.{AddsContent, IsContentRefusal};
ghost use Rattle.svn_dump.specs.HeaderValues.{node_of_front, content_of_front};

use crate::dump::Dump;
use crate::error::DumpError;
use crate::grammar::block::BlockFront;
use crate::grammar::field::Field;
use crate::grammar::node::record_of;
use crate::read_error::ReadError;
use crate::record::NodeRecord;
use crate::refusal::Refusal;
use crate::texts::Texts;
use std::alloc::Global;
use std::marker::Model;
use svn_path::Names;
use svn_text::{Seed, number_up_to};

/// How many names, records, revisions and texts a dump has at most.
const MOST_NUMBERED: usize = 4_294_967_294;

/// The records so far.
#[derive(Drop)]
pub(crate) struct Draft {
    names: Names,
    records: Vec<NodeRecord>,
    counts: Vec<u32>,
    texts: Texts,
}

impl Model for Draft {
    ghost use Rattle.svn_dump.specs.Dump.{DumpValue};
    ghost use Rattle.svn_dump.specs.Draft.{IsDraft, dump_of};

    ghost Value = { DumpValue };

    ghost view = { λ d. dump_of d.names d.records.items d.counts.items d.texts };

    ghost invariant = { λ d. IsDraft (dump_of d.names d.records.items d.counts.items d.texts) };
}

impl Draft {
    /// A dump without revisions. It takes no memory.
    pub(crate) fn new(alloc: Global, seed: Seed) -> Self
        ensures { result ≡ dump_of [] [] [] [] }
    {
        Draft {
            names: Names::with_seed(alloc, seed),
            records: Vec::new(alloc),
            counts: Vec::new(alloc),
            texts: Texts::new(alloc, seed),
        }
    }

    /// The records of a dump, to which more may be added.
    pub(crate) fn of(dump: Dump) -> Self
        ensures { result ≡ dump }
    {
        let Dump {
            names,
            records,
            counts,
            texts,
        } = dump;
        Draft {
            names,
            records,
            counts,
            texts,
        }
    }

    /// Adds what a block says.
    pub(crate) fn add(&mut self, alloc: Global, found: &BlockFront) -> Result<(), ReadError>
        ensures added { OnOk result (AddsContent self.old (content_of_front found.now) self.new) }
        ensures keeps { OnOk result (IsWholeHistory self.old → IsWholeHistory self.new) }
        ensures grows { OnOk result (GrowsTo self.old self.new) }
        ensures refused { IfErr result (IsContentRefusal self.old (content_of_front found.now)) }
    {
        if let Some(number) = found.headers.get(Field::RevisionNumber) {
            self.add_revision(number)
        } else if let Some(path) = found.headers.get(Field::NodePath) {
            self.add_record(alloc, found, path)
        } else if found.headers.get(Field::Uuid).is_some() {
            Ok(())
        } else {
            Err(ReadError::Refused(Refusal::BadRecord))
        }
    }

    /// Adds a revision, whose number is to be the next.
    fn add_revision(&mut self, number: &[u8]) -> Result<(), ReadError>
        ensures added { OnOk result (AddsContent self.old (revision_block number.now) self.new) }
        ensures keeps { OnOk result (IsWholeHistory self.old → IsWholeHistory self.new) }
        ensures grows { OnOk result (GrowsTo self.old self.new) }
        ensures refused { IfErr result (IsContentRefusal self.old (revision_block number.now)) }
    {
        let next = self.counts.len();
        if number_up_to(next as u64, number) != Some(next as u64) {
            return Err(ReadError::Refused(Refusal::Revision));
        }
        if next >= MOST_NUMBERED {
            return Err(ReadError::Refused(Refusal::TooLarge));
        }
        self.counts.push(0)?;
        Ok(())
    }

    /// Adds a record of the last revision, given the value of its path.
    fn add_record(
        &mut self,
        alloc: Global,
        found: &BlockFront,
        path: &[u8],
    ) -> Result<(), ReadError>
        ensures added { OnOk result (AddsContent self.old (node_block (node_of_front found.now path.now)) self.new) }
        ensures keeps { OnOk result (IsWholeHistory self.old → IsWholeHistory self.new) }
        ensures grows { OnOk result (GrowsTo self.old self.new) }
        ensures refused { IfErr result (IsContentRefusal self.old (node_block (node_of_front found.now path.now))) }
    {
        let revisions = self.counts.len();
        let record = record_of(
            alloc,
            &mut self.names,
            &mut self.texts,
            revisions as u32,
            found,
            path,
        )?;
        if self.is_full() {
            return Err(ReadError::Refused(Refusal::TooLarge));
        }
        self.records.push(record)?;
        self.counts[revisions - 1] += 1;
        Ok(())
    }

    /// Whether there are too many names or texts, or as many records as there may be.
    fn is_full(&self) -> bool
        ensures full { result ≡ is_full self.now }
        ensures names { IsFalse result → IsTable self.now.names }
        ensures texts { IsFalse result → IsDistinct bytes_eq self.now.values }
    {
        self.names.len() > MOST_NUMBERED
            || self.texts.len() > MOST_NUMBERED
            || self.records.len() >= MOST_NUMBERED
    }

    /// The dump of so many bytes, if it has a revision.
    pub(crate) fn finish(self, end: u64) -> Result<Dump, DumpError>
        requires { IsWholeHistory self }
        ensures same { IfOk result (λ dump. dump ≡ self) }
        ensures kept { IfOk result IsDump }
        ensures refused { IfErr result (λ e. (e ≡ DumpError.Refused 8 end) × (self.counts ≡ [])) }
    {
        let Draft {
            names,
            records,
            counts,
            texts,
        } = self;
        if counts.is_empty() {
            return Err(ReadError::Refused(Refusal::Revision).at(end));
        }
        Ok(Dump {
            names,
            records,
            counts,
            texts,
        })
    }
}
