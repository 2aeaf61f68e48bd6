//! The index of a history.
ghost use Rattle.std.specs.Prelude.{◌≡◌, ◌+◌, ◌^◌, ◌<◌, ◌++◌, None, IfOk, OnOk, length, map};
ghost use Rattle.path_index.specs.Copies.{copies_between, copy_view};
ghost use Rattle.path_index.specs.History.{AreRising};
ghost use Rattle.path_index.specs.Index.{AreHitsInRange, AreHitsOf, AreMaximal, AreSegmentsOf, IsThere, IsWhole, gap_between, location_in};
ghost use Rattle.path_index.specs.Joining.{records_up_to_end};
ghost use Rattle.path_index.specs.LastSet.{IsLastSet, KeepsPath, origin_in};
ghost use Rattle.path_index.specs.NamedRevisions.{named_revisions, AddsOperative};
ghost use Rattle.path_index.specs.Range.{is_in_range};
ghost use Rattle.path_index.specs.RecordEffect.{origin_view};
ghost use Rattle.path_index.specs.Span.{IsSpan};

use crate::copied::Copied;
use crate::last_set::last_set;
use crate::records::Records;
use crate::records_by_path::RecordsByPath;
use crate::segment::{Hit, RevisionRange, Segment, revisions_of};
use crate::span::Span;
use std::alloc::{AllocError, Global};
use std::marker::Model;
use svn_dump::{NodeRecord, Origin};
use svn_path::Path;
use svn_text::Seed;

/// The hits that are reserved at first.
const USUAL_HITS: usize = 16;

/// The records of a history, which are searched for each question.
#[derive(Drop)]
pub struct Index {
    pub(crate) records: Records,
    pub(crate) first: u32,
    pub(crate) by_path: RecordsByPath,
}

impl Model for Index {
    ghost use Rattle.path_index.specs.Index.{IndexValue};

    ghost Value = { IndexValue };

    ghost view = { λ i. record { records = i.records; first = i.first } };

    ghost use Rattle.path_index.specs.RecordsByPath.{AreByPath};
    ghost use Rattle.std.specs.Prelude.{◌+◌, ◌^◌, ◌<◌, length};

    ghost invariant = { λ i. AreByPath i.records i.by_path × (i.first + length i.records < 2 ^ 32) };
}

impl Index {
    /// An index of these records, which `first` others precede, with the fixed seed. Where strangers choose the paths,
    /// take `build_with_seed`.
    pub fn build(alloc: Global, records: &[NodeRecord], first: u32) -> Result<Self, AllocError>
        requires { first + length records.now < 2 ^ 32 }
        ensures records { IfOk result (λ index. index.records ≡ records.now) }
        ensures first { IfOk result (λ index. index.first ≡ first) }
    {
        Index::build_with_seed(alloc, Seed::fixed(), records, first)
    }

    /// An index of these records, which `first` others precede. Paths are found by the hashes of a seed.
    pub fn build_with_seed(
        alloc: Global,
        seed: Seed,
        records: &[NodeRecord],
        first: u32,
    ) -> Result<Self, AllocError>
        requires { first + length records.now < 2 ^ 32 }
        ensures records { IfOk result (λ index. index.records ≡ records.now) }
        ensures first { IfOk result (λ index. index.first ≡ first) }
    {
        Ok(Index {
            records: Records::of(alloc, records)?,
            first,
            by_path: RecordsByPath::of(alloc, seed, records)?,
        })
    }

    /// This index with further records of its history.
    pub fn grow(self, records: &[NodeRecord]) -> Result<Self, AllocError>
        requires { self.first + length self.records + length records.now < 2 ^ 32 }
        ensures records { IfOk result (λ index. index.records ≡ self.records ++ records.now) }
        ensures first { IfOk result (λ index. index.first ≡ self.first) }
    {
        let Index {
            records: known,
            first,
            mut by_path,
        } = self;
        by_path.add_all(records, known.len() as u32)?;
        Ok(Index {
            records: known.with(records)?,
            first,
            by_path,
        })
    }

    /// How many records precede those that follow the index.
    pub(crate) fn end(&self) -> u64
        ensures { result ≡ records_up_to_end self.now }
    {
        u64::from(self.first) + self.records.len() as u64
    }

    /// The location segments of the path of a revision, through all revisions up to it, the newest first.
    pub fn segments(&self, path: &Path, rev: u32) -> Result<Vec<Segment>, AllocError>
        requires whole { IsWhole self.now }
        requires there { IsThere self.now.records path.now rev }
        ensures exact { IfOk result (λ segments. AreSegmentsOf self.now path.now rev segments.items) }
        ensures maximal { IfOk result (λ segments. AreMaximal self.now path.now rev segments.items) }
    {
        let mut segments = Vec::new(self.records.allocator());
        let mut here = path.dup()?;
        let mut at = rev;
        let mut hi = rev;
        loop {
            let Span { lo, origin } = self.span_up_to(&here, at)?;
            let Some(origin) = origin else {
                segments.push(Segment {
                    lo,
                    hi,
                    path: Some(here),
                })?;
                return Ok(segments);
            };
            at = origin.rev;
            // A copy of the path from itself one revision earlier does not end a segment.
            if origin.path != here || at + 1 < lo {
                segments.push(Segment {
                    lo,
                    hi,
                    path: Some(here),
                })?;
                push_gap(&mut segments, at, lo)?;
                here = origin.path;
                hi = at;
            }
        }
    }

    /// Where the path of revision `peg` stood in revision `rev`. Above the peg it has no location.
    pub fn locate(&self, path: &Path, peg: u32, rev: u32) -> Result<Option<Path>, AllocError>
        requires whole { IsWhole self.now }
        requires there { IsThere self.now.records path.now peg }
        ensures exact { IfOk result (λ found. found ≡ location_in self.now.records path.now peg rev) }
        ensures above_peg { peg < rev → IfOk result (λ found. found ≡ None) }
    {
        let mut here = path.dup()?;
        let mut at = peg;
        while at >= rev {
            let Span { lo, origin } = self.span_up_to(&here, at)?;
            if lo <= rev {
                return Ok(Some(here));
            }
            let Some(origin) = origin else {
                return Ok(None);
            };
            here = origin.path;
            at = origin.rev;
        }
        Ok(None)
    }

    /// The newest revision up to this one whose records set a path: add it without a copy, or copy to it or to a path
    /// above it. 0 if there is none.
    pub fn last_set(&self, path: &Path, rev: u32) -> u32
        requires { IsWhole self.now }
        ensures exact { IsLastSet self.now.records path.now rev result }
        ensures kept { KeepsPath self.now.records path.now result rev }
    {
        last_set(&self.records, &self.by_path, path, rev)
    }

    /// The copies of the revisions after `above` and up to `up_to`, in the order of their records.
    pub fn copies_in(&self, above: u32, up_to: u32) -> &[Copied]
        requires { IsWhole self.now }
        ensures { map copy_view result.now ≡ copies_between above up_to self.now.records }
    {
        self.records.copies_in(above, up_to)
    }

    /// Where the path of a revision came from.
    pub fn origin(&self, path: &Path, rev: u32) -> Result<Option<Origin>, AllocError>
        requires whole { IsWhole self.now }
        requires there { IsThere self.now.records path.now rev }
        ensures { IfOk result (λ origin. origin_view origin ≡ origin_in self.now.records path.now rev) }
    {
        let Span { lo, origin } = self.span_up_to(path, rev)?;
        if lo == rev {
            return Ok(origin);
        }
        Ok(Some(Origin {
            path: path.dup()?,
            rev: rev - 1,
        }))
    }

    /// The span of the path of revision `peg`.
    fn span_up_to(&self, path: &Path, peg: u32) -> Result<Span, AllocError>
        requires rising { AreRising self.now.records }
        requires there { IsThere self.now.records path.now peg }
        ensures { IfOk result (IsSpan self.now.records path.now peg) }
    {
        Span::up_to(&self.records, &self.by_path, path, peg)
    }

    /// The operative revisions of the paths of these segments, each in its segment, the newest first. The segments are
    /// those of a path that exists; of others nothing is promised.
    pub fn operative(&self, segments: &[Segment]) -> Result<Vec<Hit>, AllocError>
        requires { IsWhole self.now }
        ensures { IfOk result (λ hits. AreHitsOf self.now segments.now hits.items) }
    {
        self.operative_in(segments, None)
    }

    /// Those of the operative revisions that are in a range of revisions, with both ends, the newest first; without a
    /// range, all of them. It takes time for what is in the range, and for each segment.
    pub fn operative_in(
        &self,
        segments: &[Segment],
        range: Option<RevisionRange>,
    ) -> Result<Vec<Hit>, AllocError>
        requires { IsWhole self.now }
        ensures { IfOk result (λ hits. AreHitsInRange self.now segments.now range hits.items) }
    {
        let mut hits = Vec::with_capacity(self.records.allocator(), USUAL_HITS)?;
        for (index, segment) in segments.iter().enumerate() {
            if let Some(path) = &segment.path {
                self.push_operative(&mut hits, index, segment, path, range)?;
            }
        }
        Ok(hits)
    }

    /// The revisions after `above` and up to `up_to` in which a record names the path or a path below it, the newest
    /// first.
    pub fn named_in(&self, path: &Path, above: u32, up_to: u32) -> Result<Vec<u32>, AllocError>
        ensures { IfOk result (λ revs. revs.items ≡ named_revisions path.now above up_to self.now.records) }
    {
        let mut hits = Vec::new(self.records.allocator());
        self.by_path.push_named(&mut hits, 0, path, above, up_to)?;
        revisions_of(self.records.allocator(), hits.as_slice())
    }

    /// Appends the operative revisions of the path of a segment that are in a range, the newest first.
    fn push_operative(
        &self,
        hits: &mut Vec<Hit>,
        index: usize,
        segment: &Segment,
        path: &Path,
        range: Option<RevisionRange>,
    ) -> Result<(), AllocError>
        ensures { OnOk result (AddsOperative hits.old.items hits.new.items index segment.now path.now range
            self.now.records) }
    {
        let (first, last) = range.unwrap_or((0, segment.hi));
        let lo = segment.lo.max(first.saturating_sub(1));
        let hi = segment.hi.min(last);
        self.by_path.push_named(hits, index, path, lo, hi)?;
        if segment.lo > 0 && is_in_range(range, segment.lo) {
            hits.push(Hit {
                rev: segment.lo,
                segment: index,
            })?;
        }
        Ok(())
    }
}

/// Whether a revision is in a range, which has both its ends; without a range each one is.
fn is_in_range(range: Option<RevisionRange>, rev: u32) -> bool
    ensures { result ≡ is_in_range range rev }
{
    match range {
        Some((first, last)) => first <= rev && rev <= last,
        None => true,
    }
}

/// Appends the segment between two revisions, in which the path stood nowhere, if any revision is between them.
fn push_gap(segments: &mut Vec<Segment>, below: u32, above: u32) -> Result<(), AllocError>
    requires { below < above }
    ensures { OnOk result (segments.new.items ≡ segments.old.items ++ gap_between below above) }
{
    if below + 1 < above {
        segments.push(Segment {
            lo: below + 1,
            hi: above - 1,
            path: None,
        })?;
    }
    Ok(())
}
