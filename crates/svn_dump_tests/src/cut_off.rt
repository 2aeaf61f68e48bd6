//! The front of a dump, cut off at each byte.
use crate::pieces::read_in_pieces;
use sample_dumps::{DELETE_AND_COPY, DUMPED, joined};
use std::alloc::Global;
use std::test::Fail;
use svn_dump::{Act, Dump, DumpError, NodeRecord, read};

fn is_same_act(one: &Act, other: &Act) -> bool {
    match (one, other) {
        (Act::Delete, Act::Delete) => true,
        (Act::Change { mi }, Act::Change { mi: other_mi }) => mi == other_mi,
        (
            Act::Add { replace, kind, mi },
            Act::Add {
                replace: other_replace,
                kind: other_kind,
                mi: other_mi,
            },
        ) => replace == other_replace && kind == other_kind && mi == other_mi,
        (
            Act::Copy {
                replace,
                from,
                from_rev,
                mi,
            },
            Act::Copy {
                replace: other_replace,
                from: other_from,
                from_rev: other_from_rev,
                mi: other_mi,
            },
        ) => {
            replace == other_replace
                && from == other_from
                && from_rev == other_from_rev
                && mi == other_mi
        }
        _ => false,
    }
}

fn is_same(one: &NodeRecord, other: &NodeRecord) -> bool {
    one.rev == other.rev && one.path == other.path && is_same_act(&one.act, &other.act)
}

/// Whether these records are the first ones of all.
pub(crate) fn records_are_first(records: &[NodeRecord], all: &[NodeRecord]) -> bool {
    records.len() <= all.len()
        && records
            .iter()
            .zip(all)
            .all(|(one, other)| is_same(one, other))
}

// Whether each revision has all its records, and the last one no more.
fn counts_are_first(counts: &[u32], all: &[u32]) -> bool {
    match counts.split_last() {
        Some((last, before)) => {
            all.starts_with(before) && all.get(before.len()).is_some_and(|count| last <= count)
        }
        None => false,
    }
}

// How many revisions and records of the whole dump were read; `None` of others.
fn front_of(
    answer: Result<Dump, DumpError>,
    whole: &Dump,
) -> Result<Option<(usize, usize)>, DumpError> {
    let dump = answer?;
    let is_front = records_are_first(dump.records(), whole.records())
        && counts_are_first(dump.counts(), whole.counts());
    let lengths = (dump.counts().len(), dump.records().len());
    drop(dump);
    Ok(is_front.then_some(lengths))
}

// Where the bytes are cut and are not read alike as a whole and one by one, or not as a front of the whole dump.
fn first_wrong_cut(alloc: Global, bytes: &[u8], whole: &Dump) -> Option<usize> {
    for length in 0..=bytes.len() {
        let (front, _) = bytes.split_at(length);
        let found = front_of(read(alloc, front), whole);
        let found_in_bytes = front_of(read_in_pieces(alloc, front, 1), whole);
        if found != found_in_bytes || found == Ok(None) {
            return Some(length);
        }
    }
    None
}

#[test]
fn a_dump_that_is_cut_off_is_refused_or_has_the_first_records(rt: HostRuntime) -> Result<(), Fail> {
    let bytes = joined(rt.alloc(), DUMPED, DELETE_AND_COPY)?;
    let whole = read(rt.alloc(), bytes.as_slice())?;
    let wrong = first_wrong_cut(rt.alloc(), bytes.as_slice(), &whole);
    let lengths = (whole.counts().len(), whole.records().len());
    drop(whole);
    assert_eq!(rt; (wrong, lengths), (None, (4, 5)));
    Ok(())
}
