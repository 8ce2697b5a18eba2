//! Accepting connections, numbering them and sending them.

ghost use Rattle.std.specs.Prelude.{ℕ, ◌≡◌, ◌+◌, ◌<◌, ◌≤◌, ◌⊎◌, ◌↔◌, true, [], IfOk, IsTrue, Some, vec_len, vec_capacity};
ghost use Rattle.crossbeam_channel.specs.Claims.{view, IsSeatAt};
ghost use Rattle.crossbeam_channel.specs.Ends.{sends_on, receives_on, ruled_capacity};
ghost use Rattle.connection_channel.specs.declared.arrivals.ArrivalKind.TheVariants.{End, Failure};
ghost use Rattle.connection_channel.specs.ChannelInvariant.{pass_view, times, once_below, IsHandedOut};

use crate::arrivals::{Arrival, Arrivals};
use crate::channel_protocol::{ChannelEnds, ChannelPass, Sender, send_connection};
use crate::handler::Bell;
use std::alloc::{AllocError, Global};
use std::sync::Wait;

/// What could not be sent: the channel's state and the numbers.
#[derive(Drop)]
pub struct Unsent {
    pub is_open: bool,
    pub numbers: Vec<u64>,
}

impl Unsent {
    /// No numbers, with room for `limit`.
    pub fn with_room(alloc: Global, limit: u64) -> Result<Self, AllocError>
        ensures { IfOk result (λ unsent. (unsent.numbers.items ≡ [])
            × (limit ≤ vec_capacity unsent.numbers)) }
    {
        let numbers = Vec::with_capacity(alloc, limit as usize)?;
        Ok(Unsent {
            is_open: true,
            numbers,
        })
    }

    /// Sends a connection, or notes its number where the channel is closed.
    fn hand_out<C: Drop, R: Wait>(
        &mut self,
        rt: &R,
        sender: &Sender<C>,
        pass: &mut ChannelPass<C>,
        number: u64,
        connection: C,
    )
        requires pass { IsSeatAt (sends_on sender.now) pass.old }
        requires number { ((view pass.old).sends ≡ true)
            × (self.old.is_open ≡ true → (view pass.old).sent ≡ number) }
        requires room { vec_len self.old.numbers < vec_capacity self.old.numbers }
        ensures pass { IsSeatAt (sends_on sender.now) pass.new }
        ensures moves { IsHandedOut self.new.is_open self.old.is_open number (view pass.old)
            self.old.numbers.items (view pass.new) self.new.numbers.items }
        ensures room { vec_capacity self.new.numbers ≡ vec_capacity self.old.numbers }
    {
        self.is_open = self.is_open && send_connection(rt, sender, pass, number, connection);
        if !self.is_open {
            self.numbers.push_reserved(number);
        }
    }

    /// Accepts until the limit, the end or a fault, and sends each connection. True at a fault. The
    /// numbers of those that could not be sent are noted.
    pub fn accept_all<A: Arrivals, B: Bell, R: Wait>(
        &mut self,
        rt: &R,
        ends: &ChannelEnds<A::Conn, B>,
        pass: &mut ChannelPass<A::Conn>,
        arrivals: &mut A,
        limit: u64,
    ) -> bool
        requires pass { IsSeatAt (sends_on ends.now.sender) pass.old }
        requires sends { ((view pass.old).sends ≡ true) × ((view pass.old).sent ≡ 0) }
        requires limit { 1 ≤ limit }
        requires none { (self.old.numbers.items ≡ []) × (limit ≤ vec_capacity self.old.numbers) }
        ensures pass { IsSeatAt (sends_on ends.now.sender) pass.new }
        ensures view { view pass.new ≡ pass_view (view pass.old).parts true (view pass.new).sent
            (view pass.old).stops (view pass.old).taken }
        ensures once { (k : ℕ) → A.came arrivals.new ≡ A.came arrivals.old + k
            → (x : ℕ) → once_below x (view pass.new).sent + times x self.new.numbers.items ≡ once_below x k }
        ensures room { ((view pass.new).sent + vec_len self.new.numbers ≤ limit)
            × (vec_capacity self.new.numbers ≡ vec_capacity self.old.numbers) }
        ensures came { A.came arrivals.old ≤ A.came arrivals.new }
        ensures fault { IsTrue result ↔ (A.last arrivals.new ≡ Some Failure) }
        ensures stop { (A.came arrivals.new ≡ A.came arrivals.old + limit)
            ⊎ (A.last arrivals.new ≡ Some End) ⊎ (A.last arrivals.new ≡ Some Failure) }
    {
        for number in 0..limit {
            match arrivals.arrive() {
                Arrival::Came(connection) => {
                    ends.doors.expect_least();
                    self.hand_out(rt, &ends.sender, pass, number, connection);
                    ends.doors.ring_due();
                }
                Arrival::Closed => return false,
                Arrival::Fault => return true,
            }
        }
        false
    }
}
