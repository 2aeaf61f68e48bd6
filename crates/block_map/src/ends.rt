//! Where the revisions of a history end in its records.
ghost use Rattle.std.specs.Prelude.{◌≡◌, ◌^◌, ◌<◌, All, length, slice_index_or};
ghost use Rattle.block_map.specs.Ends.{ends_view};

use par_scan::Sum;
use std::marker::Model;

/// How many records a history has up to the end of each revision, revision 0 first.
#[derive(Drop)]
pub struct Ends {
    sums: Vec<Sum>,
}

impl Model for Ends {
    ghost use Rattle.std.specs.Prelude.{ℕ, ◌^◌, ◌<◌, All, List};
    ghost use Rattle.block_map.specs.Ends.{ends_view};

    ghost Value = { List ℕ };

    ghost view = { λ e. ends_view e.sums.items };

    ghost invariant = { λ e. All (λ end. end < 2 ^ 32) (ends_view e.sums.items) };
}

impl Ends {
    /// The ends at these sums of the numbers of records of the revisions.
    pub fn new(sums: Vec<Sum>) -> Self
        requires { All (λ end. end < 2 ^ 32) (ends_view sums.items) }
        ensures { result ≡ ends_view sums.items }
    {
        Ends { sums }
    }

    /// How many records the revisions up to this one have.
    pub fn at(&self, rev: u32) -> u32
        requires { rev < length self.now }
        ensures { result ≡ slice_index_or self.now rev 0 }
    {
        self.sums[rev as usize].0 as u32
    }
}
