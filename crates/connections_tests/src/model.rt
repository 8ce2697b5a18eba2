//! What three clients are to be told, by a model: an owner of sets that is asked their requests one by
//! one, in the order in which they are due.

use crate::devices::{Device, Devices, Pace};
use crate::orders::Order;
use crate::scripts::{Script, ask};
use connections::MOST_REQUESTS;
use session_core::Exec;
use std::alloc::Global;
use std::test::Fail;

/// What three clients send, on which devices, and when they have their turns.
#[derive(Clone, Copy)]
pub struct Case<'c> {
    pub scripts: &'c [Script<'c>],
    pub devices: [Devices; 3],
    pub pace: Pace,
    pub order: Order,
}

/// More turns than any of the tests has.
pub const MOST_TURNS: usize = 100_000;

/// What follows a call of a device.
#[derive(Clone, Copy, PartialEq, Eq)]
enum Call {
    Fails,
    Waits,
    Moves(usize),
}

/// What the call of this number comes to, to a device that has so many bytes to move.
fn outcome(device: Device, number: u64, bytes: usize) -> Call {
    if number == device.fails_at {
        Call::Fails
    } else if device.is_ready(number) {
        Call::Moves(device.chunk.min(bytes))
    } else {
        Call::Waits
    }
}

/// How many requests a part may run of a turn that has run so many: until 25 microseconds are over, by looks behind each
/// where they may be long, and else behind the part's second and each eighth after the turn's first. From a look that
/// comes 12 microseconds behind the one before on they are long. Where the time can't be told one is run.
fn most_of(pace: Pace, may_be_long: bool, ran: u32) -> u32 {
    let (of_long, of_short) = match pace {
        Pace::Stands | Pace::Trips(_) => (MOST_REQUESTS, MOST_REQUESTS),
        // The third look is behind the second eighth from the second request on.
        Pace::Creeps => (3, 18 - ran.wrapping_add(1) % 8),
        Pace::Ambles => (3, 4),
        Pace::Walks => (2, 3),
        Pace::Trots | Pace::Jogs | Pace::Runs => (1, 2),
        Pace::Fails => (1, 1),
    };
    let most = if may_be_long { of_long } else { of_short };
    most.min(MOST_REQUESTS.saturating_sub(ran))
}

/// Whether requests between two looks are long; None where that can't be told of all.
fn are_long(pace: Pace) -> Option<bool> {
    match pace {
        Pace::Stands | Pace::Creeps => Some(false),
        Pace::Ambles | Pace::Walks | Pace::Trots | Pace::Jogs | Pace::Runs => Some(true),
        Pace::Trips(_) | Pace::Fails => None,
    }
}

/// A connection of the model.
#[derive(Drop)]
pub struct Modelled<'c> {
    script: &'c Script<'c>,
    devices: Devices,
    replies: Vec<u8>,
    /// How many bytes of the replies were sent, and in how many calls.
    sent: usize,
    writes: u64,
    /// How many bytes were read, and in how many calls.
    read: usize,
    reads: u64,
    /// How many requests were run.
    run: usize,
    /// Some that were read may be left to run.
    is_running: bool,
    /// How many the turn has run that goes on with a further part, 0 where none does.
    ran: u32,
    /// They may be long.
    may_be_long: bool,
    /// A call of its device failed.
    has_failed: bool,
    has_ended: bool,
    /// Which of all turns was its last.
    ended_at: usize,
}

impl<'c> Modelled<'c> {
    fn new(alloc: Global, script: &'c Script<'c>, devices: Devices) -> Self {
        Modelled {
            script,
            devices,
            replies: Vec::new(alloc),
            sent: 0,
            writes: 0,
            read: 0,
            reads: 0,
            run: 0,
            is_running: false,
            ran: 0,
            may_be_long: true,
            has_failed: false,
            has_ended: false,
            ended_at: 0,
        }
    }

    /// Whether its client is to be told just this, until that of all turns.
    pub fn is_told(&self, bytes: &[u8], ended_at: usize) -> bool {
        let sent = self.replies.get(..self.sent).unwrap_or(&[]);
        bytes == sent && ended_at == self.ended_at
    }

    pub fn has_failed(&self) -> bool {
        self.has_failed
    }

    /// Whether so many of its requests were run.
    pub fn has_run(&self, requests: usize) -> bool {
        self.run == requests
    }

    /// Whether all of its requests were run.
    pub fn is_whole(&self) -> bool {
        self.run == self.script.ends.len()
    }

    /// A call failed.
    fn fail(&mut self) {
        self.has_failed = true;
        self.has_ended = true;
    }

    /// Sends replies while they are taken. True: all were.
    fn send(&mut self) -> bool {
        for _ in 0..MOST_TURNS {
            let left = self.replies.len().saturating_sub(self.sent);
            if left == 0 {
                return true;
            }
            self.writes = self.writes.saturating_add(1);
            match outcome(self.devices.to, self.writes, left) {
                Call::Moves(n) => self.sent = self.sent.saturating_add(n),
                Call::Waits => return false,
                Call::Fails => {
                    self.fail();
                    return false;
                }
            }
        }
        false
    }

    /// Reads a piece, where all that was read is answered.
    fn read_due(&mut self) {
        if self.is_running {
            return;
        }
        let left = self.script.bytes.len().saturating_sub(self.read);
        self.reads = self.reads.saturating_add(1);
        match outcome(self.devices.from, self.reads, left) {
            Call::Waits => {}
            Call::Fails => self.fail(),
            Call::Moves(0) => self.has_ended = true,
            Call::Moves(n) => {
                self.read = self.read.saturating_add(n);
                self.is_running = true;
            }
        }
    }

    /// Runs requests that were read, so many at most. How many were run.
    fn run_due<R, E: Exec<R, Global>>(
        &mut self,
        rt: &R,
        alloc: Global,
        exec: &mut E,
        most: u32,
    ) -> Result<u32, Fail>
        requires { E.settled exec.old }
        ensures { E.settled exec.new }
    {
        for ran in 0..most {
            let Some(text) = self.script.due(self.run, self.read) else {
                self.is_running = false;
                return Ok(ran);
            };
            ask(rt, alloc, exec, text, &mut self.replies)?;
            self.run = self.run.saturating_add(1);
        }
        Ok(most)
    }

    /// Notes whether requests are long, where so many were run in a turn: where they may be, it is seen behind the first,
    /// and else behind the second.
    fn note_time(&mut self, pace: Pace, ran: u32) {
        let looks_from = if self.may_be_long { 1 } else { 2 };
        match are_long(pace) {
            Some(are_long) if ran >= looks_from => self.may_be_long = are_long,
            _ => {}
        }
    }

    /// Whether a part that ran so many requests ends by its time before the turn does.
    fn goes_on(&self, pace: Pace, ran: u32, most: u32) -> bool {
        let is_timed = !matches!(pace, Pace::Stands | Pace::Trips(_));
        is_timed && self.is_running && ran == most && self.ran.saturating_add(ran) < MOST_REQUESTS
    }

    /// A turn, or a further part of one: what waits before it is sent, then a piece is read or what is left of the last one
    /// is run, and behind the last part the replies are sent.
    fn turn<R, E: Exec<R, Global>>(
        &mut self,
        rt: &R,
        alloc: Global,
        exec: &mut E,
        pace: Pace,
    ) -> Result<(), Fail>
        requires { E.settled exec.old }
        ensures { E.settled exec.new }
    {
        if self.ran == 0 && !self.send() {
            return Ok(());
        }
        self.read_due();
        if !self.has_ended {
            let most = most_of(pace, self.may_be_long, self.ran);
            let ran = self.run_due(rt, alloc, exec, most)?;
            self.note_time(pace, ran);
            if self.goes_on(pace, ran, most) {
                self.ran = self.ran.saturating_add(ran);
            } else {
                self.ran = 0;
                self.send();
            }
        }
        Ok(())
    }

    /// The turn of this number, counted among all, if its connection has not ended before.
    fn take_turn<R, E: Exec<R, Global>>(
        &mut self,
        rt: &R,
        alloc: Global,
        exec: &mut E,
        pace: Pace,
        number: usize,
    ) -> Result<(), Fail>
        requires { E.settled exec.old }
        ensures { E.settled exec.new }
    {
        if self.has_ended {
            return Ok(());
        }
        self.ended_at = number;
        self.turn(rt, alloc, exec, pace)
    }
}

/// The connections of a case before the first turn.
fn begun<'c>(alloc: Global, case: &Case<'c>) -> Result<Vec<Modelled<'c>>, Fail> {
    let mut clients = Vec::new(alloc);
    for (script, devices) in case.scripts.iter().zip(case.devices.iter()) {
        clients.push(Modelled::new(alloc, script, *devices))?;
    }
    Ok(clients)
}

fn have_ended(clients: &[Modelled<'_>]) -> bool {
    for client in clients {
        if !client.has_ended {
            return false;
        }
    }
    true
}

/// Gives turns until all have ended.
fn play<R, E: Exec<R, Global>>(
    rt: &R,
    alloc: Global,
    exec: &mut E,
    case: &Case<'_>,
    clients: &mut [Modelled<'_>],
) -> Result<(), Fail>
    requires { E.settled exec.old }
{
    let mut order = case.order;
    for turn in 0..MOST_TURNS {
        if have_ended(clients) {
            return Ok(());
        }
        if let Some(client) = clients.get_mut(order.next()) {
            client.take_turn(rt, alloc, exec, case.pace, turn)?;
        }
    }
    Err(Fail::new("no end"))
}

/// The connections over this owner when all have ended.
pub fn played<'c, R, E: Exec<R, Global>>(
    rt: &R,
    alloc: Global,
    exec: &mut E,
    case: &Case<'c>,
) -> Result<Vec<Modelled<'c>>, Fail>
    requires { E.settled exec.old }
{
    let mut clients = begun(alloc, case)?;
    match play(rt, alloc, exec, case, &mut clients) {
        Ok(()) => Ok(clients),
        Err(fault) => {
            drop(clients);
            Err(fault)
        }
    }
}
