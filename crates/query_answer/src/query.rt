//! How queries are read.
ghost use Rattle.std.specs.Prelude.{◌≡◌};
ghost use Rattle.query_answer.specs.Query.{HasPegOf, HasTargetOf, locate_of, log_of, peg_field, query_in_range};
ghost use Rattle.query_answer.specs.Query.{query_of, query_of_field, query_of_pair, query_of_peg, query_or_bad};
ghost use Rattle.query_answer.specs.Query.{query_view, third_field};
ghost use Rattle.query_answer.specs.Range.{range_of};

use crate::peg::Peg;
use crate::range::read_range;
use path_index::RevisionRange;
use svn_text::{GREATEST_REVISION, number_up_to, split_at_byte};

/// What a line asks, borrowed from the line. A range is the first and the last revision that the result lines may be
/// of; without one they are of all revisions.
#[derive(Debug, Drop)]
pub enum Query<'a> {
    /// The line is no query.
    Bad,
    /// Where a path was located in a revision.
    Locate {
        of: Peg<'a>,
        rev: u32,
    },
    /// Where a path was located in all revisions.
    Segments {
        of: Peg<'a>,
    },
    /// The operative revisions of a path.
    Log {
        of: Peg<'a>,
        range: Option<RevisionRange>,
    },
    /// The effective mergeinfo of a path.
    Mergeinfo {
        of: Peg<'a>,
    },
    /// The operative revisions of a path that were merged into a target.
    Merged {
        of: Peg<'a>,
        target: Peg<'a>,
        range: Option<RevisionRange>,
    },
    /// The operative revisions of a path that are still to be merged into a target.
    Eligible {
        of: Peg<'a>,
        target: Peg<'a>,
        range: Option<RevisionRange>,
    },
}

impl<'a> Query<'a> {
    /// What a line asks. A newline is a byte like any other.
    pub fn read(line: &'a [u8]) -> Self
        ensures query { query_view result ≡ query_of line.now }
        ensures peg { HasPegOf (peg_field line.now) result }
        ensures target { HasTargetOf (third_field line.now) result }
    {
        let Some((verb, rest)) = split_at_byte(b'\t', line) else {
            return Query::Bad;
        };
        let Some((peg, rest)) = split_at_byte(b'\t', rest) else {
            return Query::of_peg(verb, rest);
        };
        let Some((field, rest)) = split_at_byte(b'\t', rest) else {
            return Query::of_field(verb, peg, rest);
        };
        match split_at_byte(b'\t', rest) {
            None => Query::in_range(verb, peg, field, rest),
            Some(_) => Query::Bad,
        }
    }

    /// What a verb and a peg ask.
    fn of_peg(verb: &[u8], peg: &'a [u8]) -> Self
        ensures query { query_view result ≡ query_of_peg verb.now peg.now }
        ensures peg { HasPegOf peg.now result }
        ensures target { (field : _) → HasTargetOf field result }
    {
        let Some(of) = Peg::read(peg) else {
            return Query::Bad;
        };
        if verb == b"segments".as_slice() {
            Query::Segments { of }
        } else if verb == b"log".as_slice() {
            Query::Log { of, range: None }
        } else if verb == b"mergeinfo".as_slice() {
            Query::Mergeinfo { of }
        } else {
            Query::Bad
        }
    }

    /// What a verb, a peg and another field ask.
    fn of_field(verb: &[u8], peg: &'a [u8], field: &'a [u8]) -> Self
        ensures query { query_view result ≡ query_of_field verb.now peg.now field.now }
        ensures peg { HasPegOf peg.now result }
        ensures target { HasTargetOf field.now result }
    {
        if verb == b"locate".as_slice() {
            Query::of_revision(peg, field)
        } else if verb == b"log".as_slice() {
            Query::of_log(peg, field)
        } else {
            Query::of_pair(verb, peg, field, None)
        }
    }

    /// What a verb, a source, a target and a range ask.
    fn in_range(verb: &[u8], source: &'a [u8], target: &'a [u8], range: &[u8]) -> Self
        ensures query { query_view result ≡ query_in_range verb.now source.now target.now (range_of range.now) }
        ensures peg { HasPegOf source.now result }
        ensures target { HasTargetOf target.now result }
    {
        match read_range(range) {
            Some(range) => Query::of_pair(verb, source, target, Some(range)),
            None => Query::Bad,
        }
    }

    /// What a verb, a source and a target ask, in this range if there is one.
    fn of_pair(
        verb: &[u8],
        source: &'a [u8],
        target: &'a [u8],
        range: Option<RevisionRange>,
    ) -> Self
        ensures query { query_view result ≡ query_of_pair verb.now source.now target.now range }
        ensures peg { HasPegOf source.now result }
        ensures target { HasTargetOf target.now result }
    {
        let (Some(of), Some(target)) = (Peg::read(source), Peg::read(target)) else {
            return Query::Bad;
        };
        if verb == b"merged".as_slice() {
            Query::Merged { of, target, range }
        } else if verb == b"eligible".as_slice() {
            Query::Eligible { of, target, range }
        } else {
            Query::Bad
        }
    }

    /// The `log` of a peg in a range.
    fn of_log(peg: &'a [u8], range: &[u8]) -> Self
        ensures query { query_view result ≡ query_or_bad (log_of peg.now range.now) }
        ensures peg { HasPegOf peg.now result }
        ensures target { (field : _) → HasTargetOf field result }
    {
        match (Peg::read(peg), read_range(range)) {
            (Some(of), Some(range)) => Query::Log {
                of,
                range: Some(range),
            },
            _ => Query::Bad,
        }
    }

    /// The `locate` of a peg and a revision.
    fn of_revision(peg: &'a [u8], rev: &[u8]) -> Self
        ensures query { query_view result ≡ query_or_bad (locate_of peg.now rev.now) }
        ensures peg { HasPegOf peg.now result }
        ensures target { (field : _) → HasTargetOf field result }
    {
        match (Peg::read(peg), number_up_to(GREATEST_REVISION, rev)) {
            (Some(of), Some(rev)) => Query::Locate {
                of,
                rev: rev as u32,
            },
            _ => Query::Bad,
        }
    }
}
