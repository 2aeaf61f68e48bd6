//! Numbers that are given both with and without `*`.
ghost use Rattle.std.specs.Bool.{OnTrue};
ghost use Rattle.std.specs.Prelude.{◌≡◌, All, IfOk};
ghost use Rattle.range_list.specs.Rangelist.{IsRun};
ghost use Rattle.merge_info.specs.Clash.{IsRisingByFirst};
ghost use Rattle.merge_info.specs.Line.{has_clash};

use range_list::Run;
use std::alloc::{AllocError, Global};

/// Whether some number is given both with and without `*`.
pub(crate) fn has_clash(alloc: Global, runs: &[Run]) -> Result<bool, AllocError>
    requires { All IsRun runs.now }
    ensures { IfOk result (λ clash. clash ≡ has_clash runs.now) }
{
    if is_in_order(runs) {
        return Ok(has_clash_in_order(runs));
    }
    let mut sorted = Vec::from_slice(alloc, runs)?;
    sorted.sort_by_key(|run| run.lo)?;
    Ok(has_clash_in_order(&sorted))
}

/// Whether it is certain that each run begins at or after those before it.
fn is_in_order(runs: &[Run]) -> bool
    ensures { OnTrue result (IsRisingByFirst runs.now) }
{
    runs.is_sorted_by_key(|run| run.lo)
}

/// Whether some number of runs in the order of their first numbers is given both with and without `*`.
fn has_clash_in_order(runs: &[Run]) -> bool
    requires runs { All IsRun runs.now }
    requires rising { IsRisingByFirst runs.now }
    ensures { result ≡ has_clash runs.now }
{
    let mut inheritable_to = 0u32;
    let mut non_inheritable_to = 0u32;
    for run in runs {
        if run.inheritable {
            if run.lo <= non_inheritable_to {
                return true;
            }
            inheritable_to = inheritable_to.max(run.hi);
        } else {
            if run.lo <= inheritable_to {
                return true;
            }
            non_inheritable_to = non_inheritable_to.max(run.hi);
        }
    }
    false
}
