//! Where connections come from.

ghost use Rattle.std.specs.Prelude.{ℕ, ◌≡◌, Option, Some};
ghost use Rattle.connection_channel.specs.ArrivalCounts.{came_after, kind_of};
ghost use Rattle.connection_channel.specs.declared.arrivals.ArrivalKind.{ArrivalKind};

/// What a listener answers when it is asked for the next connection.
#[derive(Drop)]
pub enum Arrival<C> {
    /// A connection.
    Came(C),
    /// No more connections come.
    Closed,
    /// Accepting failed.
    Fault,
}

/// What an arrival was, without its connection.
#[derive(Clone, Copy, Debug, PartialEq, Eq)]
pub enum ArrivalKind {
    /// A connection came.
    Connection,
    /// No more connections come.
    End,
    /// Accepting failed.
    Failure,
}

/// Where connections come from, as a listener.
pub trait Arrivals {
    /// A connection.
    type Conn: Drop;

    /// How many connections came.
    ghost came: { Self → ℕ };

    /// What the last arrival was, if there was one.
    ghost last: { Self → Option ArrivalKind };

    /// Waits for the next connection.
    fn arrive(&mut self) -> Arrival<Self::Conn>
        ensures came { came self.new ≡ came_after result (came self.old) }
        ensures last { last self.new ≡ Some (kind_of result) };

    /// No more connections are asked for: what waits to be accepted is turned away.
    fn close(&mut self)
        ensures came { came self.new ≡ came self.old }
        ensures last { last self.new ≡ last self.old };
}
