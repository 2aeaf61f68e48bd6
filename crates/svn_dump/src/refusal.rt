//! The reasons for which a dump is refused.
ghost use Rattle.std.specs.Prelude.{◌≡◌};
ghost use Rattle.svn_dump.specs.Refusal.{number_of_refusal, refusal_name_of};

/// Why a dump is refused, in the order in which the reasons against one block are reported.
#[derive(Clone, Copy, Debug, PartialEq, Eq)]
pub(crate) enum Refusal {
    Magic = 1,
    Version,
    Header,
    Length,
    Truncated,
    Props,
    BadRecord,
    Revision,
    BadPath,
    Delta,
    CopyRevision,
    RootAction,
    RevisionZero,
    TooLarge,
}

impl Refusal {
    /// The number that is printed, from 1.
    pub(crate) fn number(self) -> u8
        ensures { result ≡ number_of_refusal self }
    {
        self as u8
    }
}

/// The name of the refusal of this number, or `Unknown`.
pub fn refusal_name(number: u8) -> &'static str
    ensures { result.now ≡ refusal_name_of number }
{
    match number {
        1 => "Magic",
        2 => "Version",
        3 => "Header",
        4 => "Length",
        5 => "Truncated",
        6 => "Props",
        7 => "BadRecord",
        8 => "Revision",
        9 => "BadPath",
        10 => "Delta",
        11 => "CopyRevision",
        12 => "RootAction",
        13 => "RevisionZero",
        14 => "TooLarge",
        _ => "Unknown",
    }
}
