//! Numbers that are told of a place.

ghost use Rattle.std.specs.Prelude.{◌≡◌};
ghost use Rattle.set_table.specs.PassTallies.{TallyHasRoom, empty_tally, no_counts, tally_after};

/// A place's members at opening, and how many came in and left since then, as a command found them.
#[derive(Clone, Copy, Debug, PartialEq, Eq)]
pub struct Counts {
    pub opened: u64,
    pub added: u64,
    pub removed: u64,
}

/// How many members came in and left by one command.
#[derive(Clone, Copy, Debug, PartialEq, Eq)]
pub struct OwnCounts {
    pub added: u64,
    pub removed: u64,
}

impl OwnCounts {
    /// Those of a command that reads.
    pub(crate) fn none() -> Self
        ensures { result ≡ no_counts }
    {
        OwnCounts {
            added: 0,
            removed: 0,
        }
    }
}

/// How many runs a pass was answered at a place, and how many members came in and left in these.
#[derive(Clone, Copy, Debug, PartialEq, Eq)]
pub struct Tally {
    pub runs: u64,
    pub added: u64,
    pub removed: u64,
}

impl Tally {
    /// No run yet.
    pub(crate) fn empty() -> Self
        ensures { result ≡ empty_tally }
    {
        Tally {
            runs: 0,
            added: 0,
            removed: 0,
        }
    }

    /// One run more.
    pub(crate) fn after(self, own: OwnCounts) -> Self
        requires { TallyHasRoom self own }
        ensures { result ≡ tally_after self own }
    {
        Tally {
            runs: self.runs + 1,
            added: self.added + own.added,
            removed: self.removed + own.removed,
        }
    }
}
