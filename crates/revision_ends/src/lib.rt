//! Where the revisions of a dump end, for tests: added up, where the program scans.
#![tactic(auto)]

ghost use Rattle.std.specs.Prelude.{◌≡◌, IfOk};
ghost use Rattle.block_map.specs.Ends.{ends_of};

use block_map::Ends;
use par_scan::Sum;
use std::alloc::{AllocError, Global};
use svn_dump::Dump;

/// The ends of the revisions of a dump.
pub fn revision_ends(alloc: Global, dump: &Dump) -> Result<Ends, AllocError>
    ensures { IfOk result (λ ends. ends ≡ ends_of dump.now.counts) }
{
    let mut sums = Vec::new(alloc);
    let mut end: u64 = 0;
    for count in dump.counts() {
        end += u64::from(*count);
        sums.push(Sum(end))?;
    }
    Ok(Ends::new(sums))
}
