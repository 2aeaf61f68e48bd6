//! The records of an index by their numbers.
ghost use Rattle.std.specs.Prelude.{◌≡◌, ◌+◌, ◌^◌, ◌<◌, ◌++◌, [], All, Some, length, map, option_copied, slice_get};
ghost use Rattle.std.specs.Prelude.{IfOk, OnOk};
ghost use Rattle.svn_dump.specs.declared.record.NodeRecord.{NodeRecord as Record};
ghost use Rattle.path_index.specs.Copies.{copies_between, copies_up_to, copy_view};
ghost use Rattle.path_index.specs.History.{AreRising};
ghost use Rattle.path_index.specs.Records.{moved_by, AddsCopy, IsCopyAt, IsCountUpTo, IsOriginAt, SetsPathAt};

use crate::copied::Copied;
use par_scan::GhostList;
use std::alloc::{AllocError, Global};
use std::marker::Model;
use svn_dump::{Act, NodeRecord, Origin};
use svn_path::Path;

/// What an index keeps of its records: the revision of each, and the paths and the source revision of each copy.
#[derive(Drop)]
pub(crate) struct Records {
    revs: Vec<u32>,
    /// The copies in the order of the records.
    copies: Vec<Copied>,
    all: GhostList<NodeRecord>,
}

impl Model for Records {
    ghost use Rattle.std.specs.Prelude.{List};
    ghost use Rattle.svn_dump.specs.declared.record.NodeRecord.{NodeRecord as Record};
    ghost use Rattle.path_index.specs.Records.{AreKept};

    ghost Value = { List Record };

    ghost view = { λ r. r.all.items };

    ghost invariant = { λ r. AreKept r.all.items r.revs.items r.copies.items };
}

/// Appends the record of this index, if it is a copy.
fn push_copy(copies: &mut Vec<Copied>, index: u32, each: &NodeRecord) -> Result<(), AllocError>
    ensures { OnOk result (AddsCopy index each.now copies.old.items copies.new.items) }
{
    if let Act::Copy { from, from_rev, .. } = &each.act {
        copies.push(Copied {
            index,
            to: each.path.dup()?,
            from: from.dup()?,
            from_rev: *from_rev,
        })?;
    }
    Ok(())
}

/// Equal copies.
fn dup_all(alloc: Global, copies: &[Copied]) -> Result<Vec<Copied>, AllocError>
    ensures { IfOk result (λ again. again.items ≡ copies.now) }
{
    let mut again = Vec::with_capacity(alloc, copies.len())?;
    for each in copies {
        again.push(each.dup()?)?;
    }
    Ok(again)
}

/// Appends these revisions.
fn append_revs(revs: &mut Vec<u32>, mut more: Vec<u32>) -> Result<(), AllocError>
    ensures { OnOk result (revs.new.items ≡ revs.old.items ++ more.items) }
{
    revs.reserve_exact(more.len())?;
    revs.append(&mut more)
}

/// Appends these copies with greater indices.
fn append_moved(copies: &mut Vec<Copied>, more: Vec<Copied>, shift: u32) -> Result<(), AllocError>
    requires { All (λ each. each.index + shift < 2 ^ 32) more.items }
    ensures { OnOk result (copies.new.items ≡ copies.old.items ++ map (moved_by shift) more.items) }
{
    copies.reserve_exact(more.len())?;
    for each in more {
        copies.push(each.moved(shift))?;
    }
    Ok(())
}

impl Records {
    /// These records.
    pub(crate) fn of(alloc: Global, records: &[NodeRecord]) -> Result<Self, AllocError>
        requires { length records.now < 2 ^ 32 }
        ensures { IfOk result (λ kept. kept ≡ records.now) }
    {
        let mut kept = Records::new(alloc).with(records)?;
        kept.shrink_to_fit();
        Ok(kept)
    }

    /// No records. It takes no memory.
    fn new(alloc: Global) -> Self
        ensures { result ≡ [] }
    {
        Records {
            revs: Vec::new(alloc),
            copies: Vec::new(alloc),
            all: GhostList::new(),
        }
    }

    /// These records and further ones.
    pub(crate) fn with(self, records: &[NodeRecord]) -> Result<Self, AllocError>
        requires { length self + length records.now < 2 ^ 32 }
        ensures { IfOk result (λ kept. kept ≡ self ++ records.now) }
    {
        let Records {
            mut revs,
            mut copies,
            mut all,
        } = self;
        let count = revs.len() as u32;
        revs.reserve(records.len())?;
        for (index, each) in records.iter().enumerate() {
            revs.push(each.rev)?;
            push_copy(&mut copies, count + index as u32, each)?;
            all.push(each);
        }
        Ok(Records { revs, copies, all })
    }

    /// Gives back the memory that is kept for more records.
    fn shrink_to_fit(&mut self)
        ensures { self.new ≡ self.old }
    {
        self.copies.shrink_to_fit();
    }

    /// An equal copy.
    pub(crate) fn dup(&self) -> Result<Self, AllocError>
        ensures { IfOk result (λ kept. kept ≡ self.now) }
    {
        let alloc = self.allocator();
        Ok(Records {
            revs: Vec::from_slice(alloc, self.revs.as_slice())?,
            copies: dup_all(alloc, self.copies.as_slice())?,
            all: self.all.dup(),
        })
    }

    /// These records and the later ones. Those of `self` stay where they are.
    pub(crate) fn append(self, later: Records) -> Result<Self, AllocError>
        requires { length self + length later < 2 ^ 32 }
        ensures { IfOk result (λ kept. kept ≡ self ++ later) }
    {
        let Records {
            mut revs,
            mut copies,
            all,
        } = self;
        let count = revs.len() as u32;
        append_revs(&mut revs, later.revs)?;
        append_moved(&mut copies, later.copies, count)?;
        Ok(Records {
            revs,
            copies,
            all: all.join(&later.all),
        })
    }

    /// How many records there are.
    pub(crate) fn len(&self) -> usize
        ensures { result ≡ length self.now }
    {
        self.revs.len()
    }

    pub(crate) fn allocator(&self) -> Global {
        *self.revs.allocator()
    }

    /// How many records are of revisions up to this one.
    pub(crate) fn count_up_to(&self, rev: u32) -> usize
        requires { AreRising self.now }
        ensures { IsCountUpTo rev self.now result }
    {
        self.revs.partition_point(|each| *each <= rev)
    }

    /// How many copies are of revisions up to this one.
    fn count_copies_up_to(&self, rev: u32) -> usize
        requires { AreRising self.now }
        ensures { result ≡ length (copies_up_to rev self.now) }
    {
        let count = self.count_up_to(rev);
        self.copies
            .partition_point(|each| (each.index as usize) < count)
    }

    /// The copies of the revisions after `above` and up to `up_to`, in the order of their records.
    pub(crate) fn copies_in(&self, above: u32, up_to: u32) -> &[Copied]
        requires { AreRising self.now }
        ensures { map copy_view result.now ≡ copies_between above up_to self.now }
    {
        let end = self.count_copies_up_to(up_to);
        let first = self.count_copies_up_to(above).min(end);
        let (upper, _) = self.copies.split_at(end);
        let (_, between) = upper.split_at(first);
        between
    }

    /// The revision of the record of this index.
    pub(crate) fn rev(&self, index: u32) -> u32
        requires { index < length self.now }
        ensures { (each : Record) → slice_get self.now index ≡ Some each → result ≡ each.rev }
    {
        self.revs[index as usize]
    }

    /// The copy of the record of this index.
    fn copy_at(&self, index: u32) -> Option<&Copied>
        ensures { IsCopyAt self.now index (option_copied result) }
    {
        let number = self.copies.partition_point(|each| each.index < index);
        match self.copies.get(number) {
            Some(copied) if copied.index == index => Some(copied),
            _ => None,
        }
    }

    /// The origin of the path after the record of this index, which adds it, or copies to it or to a path above it.
    pub(crate) fn origin(&self, index: u32, path: &Path) -> Result<Option<Origin>, AllocError>
        requires { SetsPathAt self.now index path.now }
        ensures { IfOk result (IsOriginAt self.now index path.now) }
    {
        match self.copy_at(index) {
            Some(copied) => Ok(Some(Origin {
                path: path.rebase(&copied.to, &copied.from)?,
                rev: copied.from_rev,
            })),
            None => Ok(None),
        }
    }
}
