//! A history that is ready to be asked.
ghost use Rattle.std.specs.Prelude.{◌≡◌, ◌+◌, ◌<◌, [], All, length, map, option_map, slice_get, slice_index_or, sum, take, None, Some, IfErr, IfOk, IfSome, IsFalse};
ghost use Rattle.svn_path.specs.Components.{parts_of};
ghost use Rattle.svn_path.specs.Path.{components_of, same_name, IsPathOf};
ghost use Rattle.svn_dump.specs.Dump.{IsDump, IsRecordOf, history_in_bytes, history_view, record_view, text_of};
ghost use Rattle.svn_dump.specs.Fault.{first_fault};
ghost use Rattle.block_map.specs.Ends.{ends_of};
ghost use Rattle.block_map.specs.Map.{IsMapOf};
ghost use Rattle.path_index.specs.Copies.{copies_between, copy_view};
ghost use Rattle.path_index.specs.Index.{location_in};
ghost use Rattle.path_index.specs.LastSet.{IsLastSet};
ghost use Rattle.query_answer.specs.Answer.{segments_in_bytes, HasPathOf};
ghost use Rattle.query_answer.specs.CopiesOf.{IsCopyOf};
ghost use Rattle.query_answer.specs.LocationsInBytes.{location_of_path, named_in_bytes, operative_in_bytes, segments_of_path};
ghost use Rattle.query_answer.specs.OriginsInBytes.{origin_in_bytes, origin_of_path, KeepsPathIn};
ghost use Rattle.query_answer.specs.Repo.{index_of_dump};
ghost use Rattle.query_answer.specs.Standings.{AreChildrenIn, HasNoMergeinfoBelow, IsNowhere, own_text_in, standing_in, standing_in_bytes};

use crate::peg::Peg;
use crate::status::Status;
use crate::target::{PathRev, Target};
use crate::unanswered::Unanswered;
use block_map::{Child, Ends, Entry, Map, Nearest};
use path_index::{Copied, Hit, Index, RevisionRange, Segment, revisions_of};
use std::alloc::{AllocError, Global};
use std::marker::Model;
use svn_dump::{Dump, NodeRecord, Origin, ValueId};
use svn_path::{Lookup, Names, Path};
use value_memo::Memo;

/// A dump of a lawful history, with the index and the map of its records and the ends of its revisions, seen as the
/// dump.
#[derive(Drop)]
pub struct Repo {
    dump: Dump,
    index: Index,
    map: Map,
    ends: Ends,
}

impl Model for Repo {
    ghost use Rattle.svn_dump.specs.Dump.{DumpValue};
    ghost use Rattle.query_answer.specs.Repo.{IsRepo};

    ghost Value = { DumpValue };

    ghost view = { λ r. r.dump };

    ghost invariant = { λ r. IsRepo r.dump r.index r.map r.ends };
}

impl Repo {
    ghost use Rattle.query_answer.specs.Repo.{AreHitsIn, AreSegmentsIn, IsNearestIn, IsPathIn, IsPegFound, IsPegKnown, IsPegNamed, IsPegNowhere, IsPegRefused, IsTargetFound};

    /// The repository of a dump. The index, the map and the ends are those of the dump.
    pub fn new(dump: Dump, index: Index, map: Map, ends: Ends) -> Self
        requires records { index.records ≡ dump.records }
        requires first { index.first ≡ 0 }
        requires map { IsMapOf dump map }
        requires ends { ends ≡ ends_of dump.counts }
        requires lawful { first_fault same_name (history_view dump) ≡ None }
        ensures { result ≡ dump }
    {
        // The contract of `names` gives the proof what is true of each dump.
        let _ = dump.names();
        Repo {
            dump,
            index,
            map,
            ends,
        }
    }

    /// The dump, the index, the map and the ends, of which it was made.
    pub fn into_parts(self) -> (Dump, Index, Map, Ends)
        ensures dump { result.0 ≡ self }
        ensures index { result.1 ≡ index_of_dump self }
        ensures map { IsMapOf self result.2 }
        ensures ends { result.3 ≡ ends_of self.counts }
        ensures lawful { first_fault same_name (history_view self) ≡ None }
        ensures kept { IsDump self }
    {
        let Repo {
            dump,
            index,
            map,
            ends,
        } = self;
        (dump, index, map, ends)
    }

    /// The names of the components of its paths.
    pub fn names(&self) -> &Names
        ensures value { result.now ≡ self.now.names }
        ensures kept { IsDump self.now }
        ensures lawful { first_fault same_name (history_view self.now) ≡ None }
    {
        self.dump.names()
    }

    /// The youngest revision.
    pub fn youngest(&self) -> u32
        ensures { result + 1 ≡ length (history_in_bytes self.now) }
    {
        (self.dump.counts().len() - 1) as u32
    }

    /// A memo with a cell for each mergeinfo text of the dump.
    pub fn memo(&self, alloc: Global) -> Result<Memo<'_>, AllocError>
        ensures { IfOk result (λ memo. length memo ≡ length self.now.values) }
    {
        Memo::new(alloc, self.dump.values())
    }

    /// The path of a peg, and the end of its revision.
    fn look_up(&self, alloc: Global, peg: &Peg<'_>) -> Result<(PathRev, u32), Unanswered>
        ensures known { IfOk result (λ found. IsPegKnown self.now peg.now found.0 found.1) }
        ensures refused { IfErr result (IsPegRefused self.now peg.now) }
        ensures nowhere { IfErr result (IsPegNowhere self.now peg.now) }
    {
        let lookup = Path::look_up(alloc, self.dump.names(), peg.path())?;
        let rev = peg.rev();
        if rev as usize >= self.dump.counts().len() {
            return Err(Unanswered::Refused(Status::NoSuchRevision));
        }
        match lookup {
            Lookup::Known(path) => Ok((PathRev { path, rev }, self.ends.at(rev))),
            Lookup::Unknown => Err(Unanswered::Refused(Status::NoSuchPath)),
        }
    }

    /// The path of a peg, which need not be there in its revision.
    pub fn path_of(&self, alloc: Global, peg: &Peg<'_>) -> Result<PathRev, Unanswered>
        ensures known { IfOk result (IsPegNamed self.now peg.now) }
        ensures refused { IfErr result (IsPegNowhere self.now peg.now) }
    {
        let (at, _) = self.look_up(alloc, peg)?;
        Ok(at)
    }

    /// The path of these bytes; none, if a component is no name of the dump, and then no revision has the path.
    pub fn path_named(&self, alloc: Global, path: &[u8]) -> Result<Option<Path>, AllocError>
        ensures of_names { IfOk result (λ found. IfSome found (IsPathOf self.now.names)) }
        ensures spells { IfOk result (λ found. IfSome found (λ each.
            components_of self.now.names each ≡ parts_of path.now)) }
        ensures nowhere { IfOk result (λ found. found ≡ None → IsNowhere self.now (parts_of path.now)) }
    {
        match Path::look_up(alloc, self.dump.names(), path)? {
            Lookup::Known(path) => Ok(Some(path)),
            Lookup::Unknown => Ok(None),
        }
    }

    /// The path of a peg in its revision.
    pub fn find(&self, alloc: Global, peg: &Peg<'_>) -> Result<PathRev, Unanswered>
        ensures found { IfOk result (IsPegFound self.now peg.now) }
        ensures refused { IfErr result (IsPegRefused self.now peg.now) }
    {
        let (at, end) = self.look_up(alloc, peg)?;
        match self.map.entry(end, &at.path)? {
            Some(_) => Ok(at),
            None => Err(Unanswered::Refused(Status::NoSuchPath)),
        }
    }

    /// The path of a peg in its revision, with the nearest mergeinfo.
    pub(crate) fn find_target(&self, alloc: Global, peg: &Peg<'_>) -> Result<Target, Unanswered>
        ensures found { IfOk result (IsTargetFound self.now peg.now) }
        ensures refused { IfErr result (IsPegRefused self.now peg.now) }
    {
        let (at, end) = self.look_up(alloc, peg)?;
        match self.map.entry_and_nearest(end, &at.path)? {
            (Some(_), nearest) => Ok(Target { at, nearest }),
            (None, _) => Err(Unanswered::Refused(Status::NoSuchPath)),
        }
    }

    /// The mergeinfo of the path in the revision, or of the nearest path above it that has some. There is none past the
    /// last revision.
    pub(crate) fn nearest(&self, path: &Path, rev: u32) -> Result<Option<Nearest>, AllocError>
        ensures found { IfOk result (IsNearestIn self.now path.now rev) }
        ensures kept { IsDump self.now }
    {
        if rev as usize >= self.dump.counts().len() {
            return Ok(None);
        }
        self.map.nearest(self.ends.at(rev), path)
    }

    /// What stands at a path in a revision: nothing past the youngest one.
    pub fn entry(&self, path: &Path, rev: u32) -> Result<Option<Entry>, AllocError>
        ensures { IfOk result (λ entry. option_map (standing_in_bytes self.now) entry
            ≡ standing_in self.now rev (components_of self.now.names path.now)) }
    {
        if rev as usize >= self.dump.counts().len() {
            return Ok(None);
        }
        self.map.entry(self.ends.at(rev), path)
    }

    /// What stands directly below a path in a revision: each name once, in no particular order. There is nothing past
    /// the youngest revision.
    pub fn children(&self, path: &Path, rev: u32) -> Result<Vec<Child>, AllocError>
        ensures { IfOk result (λ children. AreChildrenIn self.now path.now rev children.items) }
    {
        if rev as usize >= self.dump.counts().len() {
            return Ok(Vec::new(self.map.allocator()));
        }
        self.map.children(self.ends.at(rev), path)
    }

    /// Whether a path below this one may have mergeinfo in a revision. Past the youngest one none has.
    pub fn may_have_mergeinfo_below(&self, path: &Path, rev: u32) -> Result<bool, AllocError>
        ensures { IfOk result (λ may. IsFalse may → HasNoMergeinfoBelow self.now path.now rev) }
    {
        if rev as usize >= self.dump.counts().len() {
            return Ok(false);
        }
        self.map.may_have_mergeinfo_below(self.ends.at(rev), path)
    }

    /// The text of the mergeinfo that a path has itself in a revision.
    pub fn own_mergeinfo(&self, path: &Path, rev: u32) -> Result<Option<&[u8]>, AllocError>
        ensures { IfOk result (λ text. option_map (λ lent. lent.now) text
            ≡ own_text_in self.now rev (components_of self.now.names path.now)) }
    {
        match self.entry(path, rev)? {
            Some(Entry { mi: Some(id), .. }) => Ok(Some(self.text(id))),
            _ => Ok(None),
        }
    }

    /// The mergeinfo text of a number; nothing, if the dump has no text of this number.
    fn text(&self, id: ValueId) -> &[u8]
        ensures { result.now ≡ text_of self.now.values id.0 }
    {
        if (id.0 as usize) < self.dump.values() {
            self.dump.value(id)
        } else {
            b"".as_slice()
        }
    }

    /// A mergeinfo text of the dump.
    pub(crate) fn mergeinfo_text(&self, id: ValueId) -> &[u8]
        requires { id.0 < length self.now.values }
        ensures { slice_get self.now.values id.0 ≡ Some result.now }
    {
        self.dump.value(id)
    }

    /// Where a path was located in a revision: nowhere in one above its own.
    pub fn locate(&self, at: &PathRev, rev: u32) -> Result<Option<Path>, AllocError>
        requires { IsPathIn self.now at.now }
        ensures by_number { IfOk result (λ found.
            found ≡ location_in self.now.records at.now.path at.now.rev rev) }
        ensures in_bytes { IfOk result (λ found.
            option_map (components_of self.now.names) found ≡ location_of_path self.now at.now rev) }
        ensures there { IfOk result (λ found. IfSome found (λ path. IsPathIn self.now
            (record { path = path; rev = rev }))) }
    {
        self.index.locate(&at.path, at.rev, rev)
    }

    /// The location segments of a path.
    pub fn segments(&self, at: &PathRev) -> Result<Vec<Segment>, AllocError>
        requires { IsPathIn self.now at.now }
        ensures by_number { IfOk result (λ segments.
            AreSegmentsIn self.now at.now.path at.now.rev segments.items) }
        ensures in_bytes { IfOk result (λ segments.
            segments_in_bytes self.now.names segments.items ≡ segments_of_path self.now at.now) }
        ensures of_names { IfOk result (λ segments. All (HasPathOf self.now.names) segments.items) }
    {
        self.index.segments(&at.path, at.rev)
    }

    /// The revisions after `above` and up to `up_to` in which a record names the path or a path below it, the newest
    /// first. There are none past the youngest revision.
    pub fn named_in(&self, path: &Path, above: u32, up_to: u32) -> Result<Vec<u32>, AllocError>
        ensures { IfOk result (λ revs. revs.items ≡ named_in_bytes self.now path.now above up_to) }
    {
        self.index.named_in(path, above, up_to)
    }

    /// The operative revisions of the segments of a path in a range, each in its segment; without a range, all of them.
    pub(crate) fn operative(
        &self,
        segments: &[Segment],
        range: Option<RevisionRange>,
    ) -> Result<Vec<Hit>, AllocError>
        ensures { IfOk result (λ hits. AreHitsIn self.now segments.now range hits.items) }
    {
        self.index.operative_in(segments, range)
    }

    /// The revisions of a range, with both its ends, that are operative on the location of the path in them, the newest
    /// first.
    pub fn operative_revisions(
        &self,
        at: &PathRev,
        range: RevisionRange,
    ) -> Result<Vec<u32>, AllocError>
        requires { IsPathIn self.now at.now }
        ensures { IfOk result (λ revs. revs.items ≡ operative_in_bytes self.now at.now range) }
    {
        let segments = self.segments(at)?;
        let hits = self.operative(segments.as_slice(), Some(range))?;
        revisions_of(self.map.allocator(), hits.as_slice())
    }

    /// The records of a revision, in their order.
    pub fn records_in(&self, rev: u32) -> &[NodeRecord]
        requires { rev < length self.now.counts }
        ensures are { map record_view result.now ≡ slice_index_or (history_view self.now) rev [] }
        ensures of_dump { All (IsRecordOf self.now) result.now }
    {
        let first = self.start_of(rev) as usize;
        let end = self.ends.at(rev) as usize;
        let (_, rest) = self.dump.records().split_at(first);
        let (records, _) = rest.split_at(end - first);
        records
    }

    /// How many records the revisions before this one have.
    fn start_of(&self, rev: u32) -> u32
        requires { rev < length self.now.counts }
        ensures { result ≡ sum (take rev self.now.counts) }
    {
        match rev.checked_sub(1) {
            Some(before) => self.ends.at(before),
            None => 0,
        }
    }

    /// The newest revision up to this one whose records set a path: add it without a copy, or copy to it or to a path
    /// above it. 0 if there is none.
    pub fn last_set(&self, path: &Path, rev: u32) -> u32
        requires within { rev < length self.now.counts }
        ensures exact { IsLastSet self.now.records path.now rev result }
        ensures kept { KeepsPathIn self.now path.now result rev }
        ensures dump { IsDump self.now }
    {
        self.index.last_set(path, rev)
    }

    /// The copies of the revisions after `above` and up to `up_to`, in the order of their records.
    pub fn copies_in(&self, above: u32, up_to: u32) -> &[Copied]
        ensures are { map copy_view result.now ≡ copies_between above up_to self.now.records }
        ensures of_names { All (IsCopyOf self.now.names) result.now }
    {
        self.index.copies_in(above, up_to)
    }

    /// Where the path of a revision came from.
    pub fn origin(&self, path: &Path, rev: u32) -> Result<Option<Origin>, AllocError>
        requires { IsPathIn self.now (record { path = path.now; rev = rev }) }
        ensures origin { IfOk result (λ origin.
            origin_in_bytes self.now origin ≡ origin_of_path self.now path.now rev) }
        ensures there { IfOk result (λ origin. IfSome origin (λ from. IsPathIn self.now
            (record { path = from.path; rev = from.rev }))) }
    {
        self.index.origin(path, rev)
    }
}
