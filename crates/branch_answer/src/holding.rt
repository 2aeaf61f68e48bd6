//! How a path holds a revision.
ghost use Rattle.std.specs.Prelude.{◌≡◌};
ghost use Rattle.branch_answer.specs.KeptHolding.{holding_by, strength, stronger};
ghost use Rattle.branch_answer.specs.KeptNew.{kept_extent, new_cell};

/// How a path holds a revision. Each is stronger than the one before it.
#[derive(Clone, Copy, Debug, PartialEq, Eq)]
pub(crate) enum Holding {
    /// It does not hold the revision.
    Not,
    /// Mergeinfo of a path below has it: of the path of this index in a list.
    Below(u32),
    /// Mergeinfo of the path has it, but not as inheritable.
    InPart,
    /// Mergeinfo of the path has it as inheritable.
    Merged,
    /// The revision changed the path where it then stood.
    InHistory,
}

impl Holding {
    /// The stronger of the two, and this one where they are as strong.
    pub(crate) fn or_stronger(self, other: Holding) -> Holding
        ensures { result ≡ stronger self other }
    {
        if self.strength() < other.strength() {
            other
        } else {
            self
        }
    }

    /// A greater number for a stronger one.
    fn strength(self) -> u8
        ensures { result ≡ strength self }
    {
        match self {
            Holding::Not => 0,
            Holding::Below(_) => 1,
            Holding::InPart => 2,
            Holding::Merged => 3,
            Holding::InHistory => 4,
        }
    }

    /// A greater number where more of the revision is held.
    pub(crate) fn extent(self) -> u8
        ensures { result ≡ kept_extent self }
    {
        self.strength().min(3)
    }

    /// This one, if more of the revision is held so than in another way, unless the revision doesn't count.
    pub(crate) fn beyond(self, one: Holding, is_uncounted: bool) -> Holding
        ensures { result ≡ new_cell is_uncounted one self }
    {
        if is_uncounted || self.extent() <= one.extent() {
            Holding::Not
        } else {
            self
        }
    }

    /// `whole` where mergeinfo has a revision as inheritable, and `part` where it has it otherwise.
    pub(crate) fn by_mergeinfo(has: Option<bool>, whole: Holding, part: Holding) -> Holding
        ensures { result ≡ holding_by whole part has }
    {
        match has {
            None => Holding::Not,
            Some(true) => whole,
            Some(false) => part,
        }
    }
}
