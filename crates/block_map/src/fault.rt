//! The faults of records in a history that is not lawful.
ghost use Rattle.std.specs.Prelude.{◌≡◌};
ghost use Rattle.block_map.specs.FaultKind.{fault_name_of, fault_number};

/// The fault of a record in the tree before it.
#[derive(Clone, Copy, Debug, PartialEq, Eq)]
pub enum FaultKind {
    /// The parent of its path isn't there or isn't a directory.
    NoParent = 16,
    /// Its path is there already.
    Exists = 17,
    /// Its path isn't there.
    Missing = 18,
    /// The source of a copy isn't there.
    NoSource = 19,
}

impl FaultKind {
    /// The number that is printed, above those of the refusals of the reader.
    pub fn number(self) -> u8
        ensures { result ≡ fault_number self }
    {
        self as u8
    }

    /// The name that is printed.
    pub fn name(self) -> &'static str
        ensures { result.now ≡ fault_name_of self }
    {
        match self {
            FaultKind::NoParent => "NoParent",
            FaultKind::Exists => "Exists",
            FaultKind::Missing => "Missing",
            FaultKind::NoSource => "NoSource",
        }
    }
}

/// The first faulty record of a dump, numbered from 1, and the first of its faults.
#[derive(Clone, Copy, Debug, PartialEq, Eq)]
pub struct Fault {
    pub number: u32,
    pub kind: FaultKind,
}
