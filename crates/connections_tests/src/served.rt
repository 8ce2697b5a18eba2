//! Connections to clients in memory that share one executor, and what their clients are told.

use crate::devices::{Devices, Sender, Taker, TestClock};
use crate::model::{Case, MOST_TURNS};
use crate::scripts::Script;
use connections::{Buffers, Moment, Next, Visit};
use resp_wire::{FuseDrain, FuseSource, PolledDrain, PolledSource, Reading, Writing};
use session_core::Exec;
use std::alloc::Global;
use std::test::Fail;

/// A connection, and which of all turns was its last.
#[derive(Drop)]
struct Served<S, D> {
    visit: Visit<S, D, Global>,
    has_ended: bool,
    ended_at: usize,
}

impl<S: PolledSource, D: PolledDrain> Served<S, D> {
    /// The turn of this number, counted among all, if the connection has not ended before.
    fn turn<R, E: Exec<R, Global>>(
        &mut self,
        rt: &R,
        moment: &Moment<'_, TestClock>,
        buffers: &mut Buffers<Global>,
        exec: &mut E,
        number: usize,
    )
        requires { E.settled exec.old }
        ensures { E.settled exec.new }
    {
        if self.has_ended {
            return;
        }
        let next = self.visit.turn(rt, moment, buffers, exec, u64::MAX);
        self.has_ended = next == Next::Ends;
        self.ended_at = number;
    }
}

fn have_ended<S, D>(clients: &[Served<S, D>]) -> bool {
    for client in clients {
        if !client.has_ended {
            return false;
        }
    }
    true
}

/// Gives turns until all have ended.
fn play<R, E: Exec<R, Global>, S: PolledSource, D: PolledDrain>(
    rt: &R,
    exec: &mut E,
    case: &Case<'_>,
    buffers: &mut Buffers<Global>,
    clients: &mut [Served<S, D>],
)
    requires { E.settled exec.old }
{
    let clock = TestClock::new(case.pace);
    let moment = Moment::new(&clock, None, false);
    let mut order = case.order;
    for turn in 0..MOST_TURNS {
        if have_ended(clients) {
            return;
        }
        if let Some(client) = clients.get_mut(order.next()) {
            client.turn(rt, &moment, buffers, exec, turn);
        }
    }
}

/// At which of all turns the connections ended.
fn ends_of<S, D>(alloc: Global, clients: &[Served<S, D>]) -> Result<Vec<usize>, Fail> {
    if !have_ended(clients) {
        return Err(Fail::new("no end"));
    }
    let mut ends = Vec::new(alloc);
    for client in clients {
        ends.push(client.ended_at)?;
    }
    Ok(ends)
}

/// A connection to a client in memory.
type Client<'s, 't> = Served<FuseSource<Reading<Sender<'s>>>, FuseDrain<Writing<Taker<'t>>>>;

/// A connection before its first turn, and where its client takes its replies.
fn connected<'s, 't>(
    alloc: Global,
    script: &'s Script<'s>,
    devices: Devices,
    taken: &'t mut Vec<u8>,
) -> Client<'s, 't> {
    let Devices { from, to } = devices;
    let sender = Reading::new(Sender::new(&script.bytes, from));
    let taker = Writing::new(Taker::new(taken, to));
    let source = FuseSource::new(sender, from.fails_at);
    let drain = FuseDrain::new(taker, to.fails_at);
    Served {
        visit: Visit::new(alloc, source, drain, false),
        has_ended: false,
        ended_at: 0,
    }
}

/// The connections of a case.
fn begun<'s, 't>(
    alloc: Global,
    case: &Case<'s>,
    taken: &'t mut Vec<Vec<u8>>,
) -> Result<Vec<Client<'s, 't>>, Fail> {
    let mut clients = Vec::new(alloc);
    let sides = case.scripts.iter().zip(case.devices.iter());
    for ((script, devices), taken) in sides.zip(taken.iter_mut()) {
        clients.push(connected(alloc, script, *devices, taken))?;
    }
    Ok(clients)
}

/// What clients were told, and at which of all turns their connections ended.
#[derive(Drop)]
pub struct Told {
    pub bytes: Vec<Vec<u8>>,
    pub ended_at: Vec<usize>,
}

/// So many clients before their first turn.
fn untold(alloc: Global, clients: usize) -> Result<Vec<Vec<u8>>, Fail> {
    let mut bytes = Vec::new(alloc);
    for _ in 0..clients {
        bytes.push(Vec::new(alloc))?;
    }
    Ok(bytes)
}

/// What the clients are told by connections over this owner.
pub fn told_over<R, E: Exec<R, Global>>(
    rt: &R,
    alloc: Global,
    exec: &mut E,
    case: &Case<'_>,
) -> Result<Told, Fail>
    requires { E.settled exec.old }
{
    let mut buffers = Buffers::new(alloc)?;
    let mut bytes = untold(alloc, case.scripts.len())?;
    let mut clients = begun(alloc, case, &mut bytes)?;
    play(rt, exec, case, &mut buffers, &mut clients);
    drop(buffers);
    let ended_at = ends_of(alloc, &clients);
    drop(clients);
    match ended_at {
        Ok(ended_at) => Ok(Told { bytes, ended_at }),
        Err(fault) => {
            drop(bytes);
            Err(fault)
        }
    }
}
