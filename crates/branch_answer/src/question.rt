//! How questions are read.
ghost use Rattle.std.specs.Prelude.{◌≡◌, option_map};
ghost use Rattle.std.specs.List.{slice_split};
ghost use Rattle.query_answer.specs.Query.{is_tab};
ghost use Rattle.query_answer.specs.Peg.{peg_of};
ghost use Rattle.branch_answer.specs.Question.{ancestor_of, comparison_in, comparison_of, comparison_view, comparison_within, descendants_of, holds_of};
ghost use Rattle.branch_answer.specs.Question.{distance, new, new_ranges, question_of, question_of_field, question_of_fields, question_of_more, question_of_peg, question_or_bad, question_view};

use path_index::RevisionRange;
use query_answer::{Peg, read_range};
use svn_text::{GREATEST_REVISION, number_up_to, split_at_byte};

/// What a line asks, borrowed from the line.
#[derive(Debug, Drop)]
pub enum Question<'a> {
    /// The line begins as a question and is none.
    Bad,
    /// What stands at a path.
    Entry {
        of: Peg<'a>,
    },
    /// What stands directly below a path.
    List {
        of: Peg<'a>,
    },
    /// When a path came to be and when it went, each time up to a revision.
    Lives {
        of: Peg<'a>,
    },
    /// Which paths at and below a path have mergeinfo of their own, and what it says.
    Explicit {
        of: Peg<'a>,
    },
    /// The youngest common ancestor of two paths.
    Ancestor {
        of: Peg<'a>,
        other: Peg<'a>,
    },
    /// Which revisions of a range a path holds.
    Holds {
        of: Peg<'a>,
        range: RevisionRange,
    },
    /// Which revisions one path holds beyond another one.
    New {
        comparison: Comparison<'a>,
    },
    /// The same, as a rangelist.
    NewRanges {
        comparison: Comparison<'a>,
    },
    /// How many revisions each of some paths holds beyond one, and how many that one holds beyond it. The revisions of
    /// a rangelist don't count. The pegs of the other paths are separated by tabs.
    Distance {
        from: Peg<'a>,
        uncounted: &'a [u8],
        to: &'a [u8],
    },
    /// Which paths of a revision stood at the place of a peg.
    Descendants {
        of: Peg<'a>,
        rev: u32,
    },
}

/// Two paths to compare: what `other` holds beyond `one`, of the revisions of a range, or of all. The revisions of a
/// rangelist don't count.
#[derive(Debug, Drop)]
pub struct Comparison<'a> {
    pub(crate) one: Peg<'a>,
    pub(crate) other: Peg<'a>,
    pub(crate) range: Option<RevisionRange>,
    pub(crate) uncounted: &'a [u8],
}

impl<'a> Comparison<'a> {
    /// The comparison of two pegs in a range, or in all revisions.
    fn of(
        one: &'a [u8],
        other: &'a [u8],
        range: Option<RevisionRange>,
        uncounted: &'a [u8],
    ) -> Option<Self>
        ensures { option_map comparison_view result ≡ comparison_of one.now other.now range uncounted.now }
    {
        match (Peg::read(one), Peg::read(other)) {
            (Some(one), Some(other)) => Some(Comparison {
                one,
                other,
                range,
                uncounted,
            }),
            _ => None,
        }
    }

    /// The comparison of two pegs in the range of a field.
    fn in_range(one: &'a [u8], other: &'a [u8], range: &[u8], uncounted: &'a [u8]) -> Option<Self>
        ensures { option_map comparison_view result ≡ comparison_in one.now other.now range.now uncounted.now }
    {
        match read_range(range) {
            Some(range) => Comparison::of(one, other, Some(range), uncounted),
            None => None,
        }
    }

    /// The comparison of two pegs by the field of a range, and perhaps that of a rangelist.
    fn within(one: &'a [u8], other: &'a [u8], fields: &'a [u8]) -> Option<Self>
        ensures { option_map comparison_view result
            ≡ comparison_within one.now other.now (slice_split is_tab fields.now) }
    {
        let Some((range, uncounted)) = split_at_byte(b'\t', fields) else {
            return Comparison::in_range(one, other, fields, b"".as_slice());
        };
        match split_at_byte(b'\t', uncounted) {
            None => Comparison::in_range(one, other, range, uncounted),
            Some(_) => None,
        }
    }
}

impl<'a> Question<'a> {
    /// What a line asks, if it begins with `ask` and a tab, or is `ask` alone. A newline is a byte like any other.
    pub fn read(line: &'a [u8]) -> Option<Self>
        ensures { option_map question_view result ≡ question_of line.now }
    {
        let Some((first, rest)) = split_at_byte(b'\t', line) else {
            return if line == b"ask".as_slice() {
                Some(Question::Bad)
            } else {
                None
            };
        };
        if first == b"ask".as_slice() {
            Some(Question::of_fields(rest))
        } else {
            None
        }
    }

    /// What the fields after `ask` ask.
    fn of_fields(fields: &'a [u8]) -> Self
        ensures { question_view result ≡ question_of_fields (slice_split is_tab fields.now) }
    {
        let Some((verb, rest)) = split_at_byte(b'\t', fields) else {
            return Question::Bad;
        };
        let Some((peg, rest)) = split_at_byte(b'\t', rest) else {
            return Question::of_peg(verb, rest);
        };
        match split_at_byte(b'\t', rest) {
            None => Question::of_field(verb, peg, rest),
            Some((field, more)) => Question::of_more(verb, peg, field, more),
        }
    }

    /// What a verb and a peg ask.
    fn of_peg(verb: &[u8], peg: &'a [u8]) -> Self
        ensures { question_view result ≡ question_of_peg verb.now peg.now }
    {
        let Some(of) = Peg::read(peg) else {
            return Question::Bad;
        };
        if verb == b"entry".as_slice() {
            Question::Entry { of }
        } else if verb == b"list".as_slice() {
            Question::List { of }
        } else if verb == b"lives".as_slice() {
            Question::Lives { of }
        } else if verb == b"explicit".as_slice() {
            Question::Explicit { of }
        } else {
            Question::Bad
        }
    }

    /// What a verb, a peg and another field ask.
    fn of_field(verb: &[u8], peg: &'a [u8], field: &'a [u8]) -> Self
        ensures { question_view result ≡ question_of_field verb.now peg.now field.now }
    {
        if verb == b"ancestor".as_slice() {
            Question::of_two(peg, field)
        } else if verb == b"holds".as_slice() {
            Question::in_range(peg, field)
        } else if verb == b"descendants".as_slice() {
            Question::in_revision(peg, field)
        } else if verb == b"new".as_slice() {
            Question::new(Comparison::of(peg, field, None, b"".as_slice()))
        } else if verb == b"new-ranges".as_slice() {
            Question::new_ranges(Comparison::of(peg, field, None, b"".as_slice()))
        } else {
            Question::Bad
        }
    }

    /// What a verb, a peg, another field and further ones ask.
    fn of_more(verb: &[u8], peg: &'a [u8], field: &'a [u8], more: &'a [u8]) -> Self
        ensures { question_view result
            ≡ question_of_more verb.now peg.now field.now (slice_split is_tab more.now) }
    {
        if verb == b"new".as_slice() {
            Question::new(Comparison::within(peg, field, more))
        } else if verb == b"new-ranges".as_slice() {
            Question::new_ranges(Comparison::within(peg, field, more))
        } else if verb == b"distance".as_slice() {
            Question::to_targets(peg, field, more)
        } else {
            Question::Bad
        }
    }

    /// The `ancestor` of two pegs.
    fn of_two(peg: &'a [u8], other: &'a [u8]) -> Self
        ensures { question_view result ≡ question_or_bad (ancestor_of peg.now other.now) }
    {
        match (Peg::read(peg), Peg::read(other)) {
            (Some(of), Some(other)) => Question::Ancestor { of, other },
            _ => Question::Bad,
        }
    }

    /// The `holds` of a peg in a range.
    fn in_range(peg: &'a [u8], range: &[u8]) -> Self
        ensures { question_view result ≡ question_or_bad (holds_of peg.now range.now) }
    {
        match (Peg::read(peg), read_range(range)) {
            (Some(of), Some(range)) => Question::Holds { of, range },
            _ => Question::Bad,
        }
    }

    /// The `descendants` of a peg in a revision.
    fn in_revision(peg: &'a [u8], rev: &[u8]) -> Self
        ensures { question_view result ≡ question_or_bad (descendants_of peg.now rev.now) }
    {
        match (Peg::read(peg), number_up_to(GREATEST_REVISION, rev)) {
            (Some(of), Some(rev)) => Question::Descendants {
                of,
                rev: rev as u32,
            },
            _ => Question::Bad,
        }
    }

    /// The `new` of a comparison.
    fn new(comparison: Option<Comparison<'a>>) -> Self
        ensures { question_view result
            ≡ question_or_bad (option_map new (option_map comparison_view comparison.entry)) }
    {
        match comparison {
            Some(comparison) => Question::New { comparison },
            None => Question::Bad,
        }
    }

    /// The `new-ranges` of a comparison.
    fn new_ranges(comparison: Option<Comparison<'a>>) -> Self
        ensures { question_view result
            ≡ question_or_bad (option_map new_ranges (option_map comparison_view comparison.entry)) }
    {
        match comparison {
            Some(comparison) => Question::NewRanges { comparison },
            None => Question::Bad,
        }
    }

    /// The `distance` from a peg, without the revisions of a rangelist, to the pegs of the further fields.
    fn to_targets(peg: &'a [u8], uncounted: &'a [u8], to: &'a [u8]) -> Self
        ensures { question_view result ≡ question_or_bad
            (option_map (λ from. distance from uncounted.now (slice_split is_tab to.now)) (peg_of peg.now)) }
    {
        match Peg::read(peg) {
            Some(from) => Question::Distance {
                from,
                uncounted,
                to,
            },
            None => Question::Bad,
        }
    }
}
