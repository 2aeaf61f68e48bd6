//! The faults of the records of a history.
ghost use Rattle.std.specs.Prelude.{◌≡◌, ◌⊎◌, ℕ, ◌+◌, ◌-◌, ◌<◌, ◌≤◌, None, length, option_map, unwrap_or, IfOk, IfSome};
ghost use Rattle.svn_dump.specs.Dump.{IsDump, history_view};
ghost use Rattle.svn_dump.specs.Fault.{first_fault};
ghost use Rattle.svn_dump.specs.State.{fault_of_next_record};
ghost use Rattle.svn_path.specs.Path.{same_name};
ghost use Rattle.block_map.specs.Trees.{action_in};
ghost use Rattle.block_map.specs.Ends.{HasSourceBefore, ends_of};
ghost use Rattle.block_map.specs.FaultFound.{fault_found, has_parent_standing, is_dir_standing, missing_found, no_record, source_found, target_found};
ghost use Rattle.block_map.specs.FaultKind.{fault_view, kind_view};
ghost use Rattle.block_map.specs.Map.{IsMapOf, hi_of, standings_in};
ghost use Rattle.block_map.specs.Standing.{entry_view};

use crate::ends::Ends;
use crate::entry::Entry;
use crate::fault::{Fault, FaultKind};
use crate::map::Map;
use rayon::prelude::*;
use std::alloc::AllocError;
use std::thread::Threads;
use svn_dump::{Act, Dump, Kind, NodeRecord};
use svn_path::NameId;

/// The first faulty record of a dump, and its first fault. The records are checked in parallel.
pub fn check<R: Threads + Sync>(
    rt: &R,
    map: &Map,
    dump: &Dump,
    ends: &Ends,
) -> Result<Option<Fault>, AllocError>
    requires map { IsMapOf dump.now map.now }
    requires ends { ends.now ≡ ends_of dump.now.counts }
    ensures { IfOk result (λ fault. option_map fault_view fault ≡ first_fault same_name (history_view dump.now)) }
{
    check_from(rt, map, dump, ends, 0)
}

/// The first faulty record of a dump, and its first fault, where the first `checked` records are known to have none. The
/// others are checked in parallel.
pub fn check_from<R: Threads + Sync>(
    rt: &R,
    map: &Map,
    dump: &Dump,
    ends: &Ends,
    checked: u32,
) -> Result<Option<Fault>, AllocError>
    requires map { IsMapOf dump.now map.now }
    requires ends { ends.now ≡ ends_of dump.now.counts }
    requires checked { (index : ℕ) → index < checked
        → fault_of_next_record same_name (history_view dump.now) index ≡ None }
    ensures { IfOk result (λ fault. option_map fault_view fault ≡ first_fault same_name (history_view dump.now)) }
{
    let Some(number) = first_suspect(rt, map, dump, ends, checked) else {
        return Ok(None);
    };

    // Want of memory kept a record with no fault from being judged, and there may be faulty ones after it.
    let Some(kind) = fault_at(map, dump, ends, number)? else {
        return Err(AllocError);
    };
    Ok(Some(Fault { number, kind }))
}

/// The number of the first record that has a fault, or that want of memory keeps from being judged, where the first
/// `checked` records have none.
fn first_suspect<R: Threads + Sync>(
    rt: &R,
    map: &Map,
    dump: &Dump,
    ends: &Ends,
    checked: u32,
) -> Option<u32>
    requires map { IsMapOf dump.now map.now }
    requires ends { ends.now ≡ ends_of dump.now.counts }
    requires checked { (index : ℕ) → index < checked
        → fault_of_next_record same_name (history_view dump.now) index ≡ None }
    ensures within { IfSome result (λ number. (1 ≤ number) × (number ≤ length dump.now.records)) }
    ensures fine { (index : ℕ) → index < length dump.now.records
        → index + 1 < unwrap_or result no_record
        → fault_of_next_record same_name (history_view dump.now) index ≡ None }
    ensures kept { IsDump dump.now }
{
    let least = least_suspect(rt, map, dump, ends, checked);
    if least < u32::MAX { Some(least) } else { None }
}

/// The number of the first record that has a fault, or that want of memory keeps from being judged, where the first
/// `checked` records have none; the largest number, which no record has, where there is no such record.
fn least_suspect<R: Threads + Sync>(
    rt: &R,
    map: &Map,
    dump: &Dump,
    ends: &Ends,
    checked: u32,
) -> u32
    requires map { IsMapOf dump.now map.now }
    requires ends { ends.now ≡ ends_of dump.now.counts }
    requires checked { (index : ℕ) → index < checked
        → fault_of_next_record same_name (history_view dump.now) index ≡ None }
    ensures within { result < no_record → (1 ≤ result) × (result ≤ length dump.now.records) }
    ensures fine { (index : ℕ) → index < length dump.now.records → index + 1 < result
        → fault_of_next_record same_name (history_view dump.now) index ≡ None }
    ensures kept { IsDump dump.now }
{
    let first = checked.saturating_add(1);
    let end = dump.records().len() as u32 + 1;
    (first..end)
        .into_par_iter()
        .map(
            |number: u32| -> u32
                requires { IsMapOf dump.now map.now × (ends.now ≡ ends_of dump.now.counts)
                    × (1 ≤ number) × (number ≤ length dump.now.records) }
                ensures { ((result ≡ number) ⊎ (result ≡ no_record))
                    × (number < result
                    → fault_of_next_record same_name (history_view dump.entry.now) (number - 1) ≡ None) }
            { number_if_suspect(map, dump, ends, number) },
        )
        .min(rt)
        .unwrap_or(u32::MAX)
}

/// The number of the record if it has a fault, or if want of memory keeps it from being judged, and else the largest
/// number, which no record has.
fn number_if_suspect(map: &Map, dump: &Dump, ends: &Ends, number: u32) -> u32
    requires map { IsMapOf dump.now map.now }
    requires ends { ends.now ≡ ends_of dump.now.counts }
    requires some { 1 ≤ number }
    requires within { number ≤ length dump.now.records }
    ensures either { (result ≡ number) ⊎ (result ≡ no_record) }
    ensures fine { number < result
        → fault_of_next_record same_name (history_view dump.now) (number - 1) ≡ None }
{
    match fault_at(map, dump, ends, number) {
        Ok(None) => u32::MAX,
        Ok(Some(_)) | Err(_) => number,
    }
}

/// The first fault of the record of this number, in the tree before it. Records are numbered from 1.
pub fn fault_at(
    map: &Map,
    dump: &Dump,
    ends: &Ends,
    number: u32,
) -> Result<Option<FaultKind>, AllocError>
    requires map { IsMapOf dump.now map.now }
    requires ends { ends.now ≡ ends_of dump.now.counts }
    requires some { 1 ≤ number }
    requires within { number ≤ length dump.now.records }
    ensures { IfOk result (λ kind. option_map kind_view kind
        ≡ fault_of_next_record same_name (history_view dump.now) (number - 1)) }
{
    let index = number - 1;
    fault_of(map, ends, index, &dump.records()[index as usize])
}

/// The first fault of a record that so many others precede.
fn fault_of(
    map: &Map,
    ends: &Ends,
    tick: u32,
    each: &NodeRecord,
) -> Result<Option<FaultKind>, AllocError>
    requires begins { map.now.lo ≡ 0 }
    requires within { tick ≤ hi_of map.now }
    requires source { HasSourceBefore ends.now (tick + 1) each.now.act }
    ensures { IfOk result (λ kind. option_map kind_view kind
        ≡ fault_found (standings_in map.now) tick each.now.path (action_in ends.now each.now)) }
{
    let path = each.path.parts();
    match &each.act {
        Act::Delete | Act::Change { .. } => fault_if_missing(map, tick, path),
        Act::Add { replace, .. } => fault_of_target(map, tick, *replace, path),
        Act::Copy {
            replace,
            from,
            from_rev,
            ..
        } => {
            if let Some(kind) = fault_of_target(map, tick, *replace, path)? {
                return Ok(Some(kind));
            }
            fault_of_source(map, ends.at(*from_rev), from.parts())
        }
    }
}

/// `Missing`, if the path is not there.
fn fault_if_missing(map: &Map, tick: u32, path: &[NameId]) -> Result<Option<FaultKind>, AllocError>
    requires begins { map.now.lo ≡ 0 }
    requires within { tick ≤ hi_of map.now }
    ensures { IfOk result (λ kind.
        option_map kind_view kind ≡ missing_found (standings_in map.now) tick path.now) }
{
    match map.standing(tick, path)? {
        Some(_) => Ok(None),
        None => Ok(Some(FaultKind::Missing)),
    }
}

/// The first fault of an addition or a copy by its path.
fn fault_of_target(
    map: &Map,
    tick: u32,
    replace: bool,
    path: &[NameId],
) -> Result<Option<FaultKind>, AllocError>
    requires begins { map.now.lo ≡ 0 }
    requires within { tick ≤ hi_of map.now }
    ensures { IfOk result (λ kind.
        option_map kind_view kind ≡ target_found (standings_in map.now) tick replace path.now) }
{
    if replace {
        return fault_if_missing(map, tick, path);
    }
    let (parent, entry) = parent_and_entry(map, tick, path)?;
    Ok(if entry.is_some() {
        Some(FaultKind::Exists)
    } else if is_dir(parent) {
        None
    } else {
        Some(FaultKind::NoParent)
    })
}

/// What stands at the parent of a path, of which the root has none, and at the path itself.
fn parent_and_entry(
    map: &Map,
    tick: u32,
    path: &[NameId],
) -> Result<(Option<Entry>, Option<Entry>), AllocError>
    requires begins { map.now.lo ≡ 0 }
    requires within { tick ≤ hi_of map.now }
    ensures parent { IfOk result (λ both.
        is_dir_standing (option_map entry_view both.0) ≡ has_parent_standing (standings_in map.now) tick path.now) }
    ensures path { IfOk result (λ both.
        option_map entry_view both.1 ≡ standings_in map.now tick path.now) }
{
    match path.split_last() {
        None => Ok((None, map.standing(tick, path)?)),
        Some((name, above)) => match map.only_block(tick) {
            Some(only) => Ok(only.standing_with_child(tick, above, *name)),
            None => Ok((map.standing(tick, above)?, map.standing(tick, path)?)),
        },
    }
}

/// Whether a directory stands there.
fn is_dir(standing: Option<Entry>) -> bool
    ensures { result ≡ is_dir_standing (option_map entry_view standing) }
{
    match standing {
        Some(entry) => entry.kind == Kind::Dir,
        None => false,
    }
}

/// `NoSource`, if the source of a copy is not there.
fn fault_of_source(map: &Map, tick: u32, from: &[NameId]) -> Result<Option<FaultKind>, AllocError>
    requires begins { map.now.lo ≡ 0 }
    requires within { tick ≤ hi_of map.now }
    ensures { IfOk result (λ kind.
        option_map kind_view kind ≡ source_found (standings_in map.now) from.now tick) }
{
    match map.standing(tick, from)? {
        Some(_) => Ok(None),
        None => Ok(Some(FaultKind::NoSource)),
    }
}
