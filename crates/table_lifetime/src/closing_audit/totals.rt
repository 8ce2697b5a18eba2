//! What the places of a table come to together.

ghost use Rattle.std.specs.Prelude.{◌≡◌};

/// What a closing table tells, summed over its places: how many sets have a member and how many
/// members they have, how many there were at opening, how many came in and left since, and how many
/// records were appended.
#[derive(Clone, Copy, Debug, PartialEq, Eq)]
pub struct Totals {
    pub sets: u128,
    pub members: u128,
    pub opened: u128,
    pub added: u128,
    pub removed: u128,
    pub records: u128,
}

impl Totals {
    /// Those of no place.
    pub(crate) fn none() -> Self
        ensures { result ≡ record {
          sets = 0;
          members = 0;
          opened = 0;
          added = 0;
          removed = 0;
          records = 0;
        } }
    {
        Totals {
            sets: 0,
            members: 0,
            opened: 0,
            added: 0,
            removed: 0,
            records: 0,
        }
    }
}
