//! Which revisions count.
ghost use Rattle.std.specs.Prelude.{◌≡◌, ◌+◌, ◌^◌, ◌<◌, ◌&&◌, IfOk, length};
ghost use Rattle.std.specs.Int.{from_bool};
ghost use Rattle.branch_answer.specs.KeptNew.{AreCounted, count_new, counts_to, is_more};

use crate::holding::Holding;
use crate::holdings::Holdings;
use range_list::Ranges;
use std::alloc::{AllocError, Global};

/// Whether each revision from 0 on counts: it doesn't if it is among the uncounted ones.
#[derive(Drop)]
pub(crate) struct Counted {
    pub(crate) uncounted: Ranges,
    pub(crate) counts: Vec<bool>,
}

/// How many revisions each of two paths holds beyond the other one.
#[derive(Clone, Copy, Debug, PartialEq, Eq)]
pub(crate) struct Distance {
    /// The second path beyond the first one.
    pub(crate) beyond: u32,
    /// The first path beyond the second one.
    pub(crate) behind: u32,
}

impl Counted {
    /// The revisions up to the youngest one, but for those of the ranges.
    pub(crate) fn new(alloc: Global, youngest: u32, uncounted: Ranges) -> Result<Self, AllocError>
        ensures uncounted { IfOk result (λ counted. counted.uncounted ≡ uncounted) }
        ensures counts { IfOk result (AreCounted (youngest + 1)) }
    {
        let counts = counts_of(alloc, youngest, &uncounted)?;
        Ok(Counted { uncounted, counts })
    }

    /// How many of the revisions count and are held in one way more than in the other one, and the other way round.
    pub(crate) fn distance(&self, one: &Holdings, other: &Holdings) -> Distance
        requires one { length one.now.how.items ≡ length self.now.counts.items }
        requires other { length other.now.how.items ≡ length self.now.counts.items }
        requires few { length self.now.counts.items < 2 ^ 32 }
        ensures beyond { result.beyond ≡ count_new self.now.counts.items one.now.how.items other.now.how.items }
        ensures behind { result.behind ≡ count_new self.now.counts.items other.now.how.items one.now.how.items }
    {
        let (one, other) = (one.how.as_slice(), other.how.as_slice());
        let mut beyond = 0;
        let mut behind = 0;
        for (index, counts) in self.counts.iter().enumerate() {
            beyond += new(*counts, one[index], other[index]);
            behind += new(*counts, other[index], one[index]);
        }
        Distance { beyond, behind }
    }
}

/// Whether each revision up to the youngest one is in none of the ranges.
fn counts_of(alloc: Global, youngest: u32, uncounted: &Ranges) -> Result<Vec<bool>, AllocError>
    ensures { IfOk result (λ counts. counts.items ≡ counts_to uncounted.now (youngest + 1)) }
{
    let mut counts = Vec::new(alloc);
    for rev in 0..youngest {
        counts.push(uncounted.has(rev).is_none())?;
    }
    counts.push(uncounted.has(youngest).is_none())?;
    Ok(counts)
}

/// 1 if the revision counts and more of it is held in the other way than in the one, and 0 otherwise.
fn new(counts: bool, one: Holding, other: Holding) -> u32
    ensures { result ≡ from_bool (counts && is_more one other) }
{
    u32::from(counts & (one.extent() < other.extent()))
}
