//! What is done with a connection.

ghost use Rattle.std.specs.Prelude.{ℕ, ◌≡◌, ◌+◌, ◌<◌, ◌^◌};

use std::sync::Wait;

/// Wakes a handler out of a turn in which it waits for its connections.
pub trait Bell {
    /// It is called by the accepting thread, and does not wait.
    fn ring(&self);
}

/// Handles connections in a thread of its own. It may hold several at a time: what `handle` leaves under way
/// goes on in `turn`.
pub trait Handler<C> {
    /// What wakes it out of a turn.
    type Bell: Bell + Drop;

    /// What stays, of the handler before and after.
    ghost keeps: { Self → Self → Type 0 };

    /// How many connections it was handed.
    ghost handled: { Self → ℕ };

    /// A bell of this handler, where it has one.
    fn bell(&self) -> Option<Self::Bell>;

    /// How many connections it holds, which have not ended.
    fn live(&self) -> usize;

    /// Takes a connection on, and may handle it to its end. What goes wrong with the connection ends that one alone.
    fn handle<R: Wait>(&mut self, rt: &R, connection: C)
        requires { handled self.old + 1 < 2 ^ 64 }
        ensures keeps { keeps self.old self.new }
        ensures handled { handled self.new ≡ handled self.old + 1 };

    /// Goes on with the connections that it holds. For that it waits until one of them is ready, its bell is rung or a
    /// moment is over.
    fn turn<R: Wait>(&mut self, rt: &R)
        ensures keeps { keeps self.old self.new }
        ensures handled { handled self.new ≡ handled self.old };

    ghost reflexive: { (h : Self) → keeps h h };

    ghost transitive: { (a b c : Self) → keeps a b → keeps b c → keeps a c };
}
