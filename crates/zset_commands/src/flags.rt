//! The options of ZADD that stop pairs.

/// Which of the options NX, XX, GT and LT a ZADD has.
#[derive(Clone, Copy, Debug, PartialEq, Eq)]
pub struct Flags {
    /// NX: members that are there stay as they are.
    pub nx: bool,
    /// XX: no member is added.
    pub xx: bool,
    /// GT: a member gets a greater score or stays as it is.
    pub gt: bool,
    /// LT: a member gets a lower score or stays as it is.
    pub lt: bool,
}
