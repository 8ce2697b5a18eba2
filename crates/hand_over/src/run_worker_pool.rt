//! A hand-over as a whole.

ghost use Rattle.std.specs.Prelude.{ℕ, ◌≡◌, ◌+◌, ◌<◌, ◌≤◌, ◌^◌, ◌++◌, true, [], IfOk, OnErr, All, map, vec_len, vec_capacity};
ghost use Rattle.crossbeam_channel.specs.Claims.{view, IsSeatAt};
ghost use Rattle.crossbeam_channel.specs.Ends.{sends_on, receives_on, ruled_capacity};
ghost use Rattle.connection_channel.specs.ChannelInvariant.{pass_view};
ghost use Rattle.hand_over.specs.Outcome.{IsHandedOver};

use crate::outcome::{HandOverFault, HandedOver};
use crate::starting_workers::start_all;
use connection_channel::{
    Arrivals, ChannelEnds, ChannelPass, Crew, Handler, crew_of, drain, rooms,
};
use crossbeam_channel::bounded_with;
use std::alloc::Global;
use std::sync::Wait;
use std::thread;
use std::thread::{Scope, Threads};

/// How many messages wait in the channel at most.
const WAITING: usize = 16;

/// Accepts connections while workers handle them. All lists have their room before the first worker
/// starts, so that nothing is refused while one waits for its stop message.
fn run<'s, E, A: Arrivals, H: Handler<A::Conn> + Drop + Send + 's, R: Wait + Threads + Sync>(
    scope: &Scope<'s, E>,
    rt: &'s R,
    ends: &'s ChannelEnds<A::Conn, H::Bell>,
    mut pass: ChannelPass<A::Conn>,
    arrivals: &mut A,
    crew: Crew<H>,
) -> Result<HandedOver<H>, HandOverFault>
where
    A::Conn: Send + 's,
    H::Bell: Sync,
    requires pass { IsSeatAt (sends_on ends.now.sender) pass
        × (receives_on ends.now.receiver ≡ sends_on ends.now.sender) }
    requires view { view pass ≡ pass_view 1024 true 0 0 [] }
    requires parts { vec_len crew.desks ≤ 64 }
    requires limit { 1 ≤ crew.limit }
    requires room { All (λ d. H.handled d.handler + d.limit < 2 ^ 64) crew.desks.items }
    ensures ok { IfOk result
        (λ handed. IsHandedOver A.came A.last H.keeps H.handled arrivals.old
        (map (λ d. d.handler) crew.desks.items) crew.limit arrivals.new handed) }
    ensures err { OnErr result (arrivals.new ≡ arrivals.old) }
{
    let Crew {
        alloc,
        desks,
        limit,
    } = crew;
    let (mut children, mut returned, mut unsent) = rooms(alloc, desks.len(), limit)?;
    match start_all(scope, rt, ends, &mut pass, desks, &mut children) {
        Err(fault) => {
            returned.recall(rt, ends, &mut pass, children);
            Err(fault)
        }
        Ok(()) => {
            let fault = unsent.accept_all(rt, ends, &mut pass, arrivals, limit);
            arrivals.close();
            returned.recall(rt, ends, &mut pass, children);
            drain(rt, &ends.receiver, &mut pass, &mut unsent.numbers);
            Ok(HandedOver {
                handlers: returned.handlers,
                taken: returned.taken,
                left: unsent.numbers,
                fault,
            })
        }
    }
}

/// Opens the scope in which the workers run, and gives the arrivals back.
fn in_scope<'a, A: Arrivals, H: Handler<A::Conn> + Drop + Send, R: Wait + Threads + Sync>(
    rt: &R,
    ends: &ChannelEnds<A::Conn, H::Bell>,
    pass: ChannelPass<A::Conn>,
    arrivals: &'a mut A,
    crew: Crew<H>,
) -> (&'a mut A, Result<HandedOver<H>, HandOverFault>)
where
    A::Conn: Send,
    H::Bell: Sync,
    requires pass { IsSeatAt (sends_on ends.now.sender) pass
        × (receives_on ends.now.receiver ≡ sends_on ends.now.sender) }
    requires view { view pass ≡ pass_view 1024 true 0 0 [] }
    requires parts { vec_len crew.desks ≤ 64 }
    requires limit { 1 ≤ crew.limit }
    requires room { All (λ d. H.handled d.handler + d.limit < 2 ^ 64) crew.desks.items }
    ensures name { result.0.ghost_name ≡ arrivals.entry.ghost_name }
    ensures ok { IfOk result.1
        (λ handed. IsHandedOver A.came A.last H.keeps H.handled arrivals.entry.now
        (map (λ d. d.handler) crew.desks.items) crew.limit result.0.now handed) }
    ensures err { OnErr result.1 (result.0.now ≡ arrivals.entry.now) }
{
    thread::scope(
        thread::scope_env(),
        rt,
        move |scope| -> (&mut A, Result<HandedOver<H>, HandOverFault>)
            requires pass { IsSeatAt (sends_on ends.now.sender) pass
                × (receives_on ends.now.receiver ≡ sends_on ends.now.sender) }
            requires view { view pass ≡ pass_view 1024 true 0 0 [] }
            requires parts { vec_len crew.desks ≤ 64 }
            requires limit { 1 ≤ crew.limit }
            requires room { All (λ d. H.handled d.handler + d.limit < 2 ^ 64) crew.desks.items }
            ensures name { result.0.ghost_name ≡ arrivals.entry.ghost_name }
            ensures ok { IfOk result.1
                (λ handed. IsHandedOver A.came A.last H.keeps H.handled arrivals.entry.now
                (map (λ d. d.handler) crew.desks.items) crew.limit result.0.now handed) }
            ensures err { OnErr result.1 (result.0.now ≡ arrivals.entry.now) }
        {
            let given = run(scope, rt, ends, pass, arrivals, crew);
            (arrivals, given)
        },
    )
}

/// Ends a borrow.
fn end<A>(last: &mut A)
    ensures { last.new ≡ last.old }
{
    let _ = last;
}

/// Hands connections over to workers, one for each handler, 64 at most. It accepts `limit`
/// connections, fewer where the arrivals close or accepting fails, and answers once each worker has
/// handled what it took. A handler may hold several at a time; the next one goes to the worker that
/// holds the fewest. Once no more are accepted the arrivals are closed. Where accepting fails, the
/// answer says so (`fault`) and tells all that was handled before. Before the first connection it
/// takes memory for `limit` numbers, and as many again for each handler.
///
/// The connections that came are numbered from 0. Each number stands exactly once, in the list of the
/// handler that took it or in `left`; lists rise; each handler kept what it promises and handled as
/// many connections as its list has numbers. That it returns is not promised: without a handler it may
/// wait for ever.
///
/// # Errors
///
/// The handlers are dropped. [`HandOverFault::NoMemory`] before a connection was accepted;
/// [`HandOverFault::Spawn`] where a thread can't be had: no connection was accepted then either.
pub fn hand_over<A: Arrivals, H: Handler<A::Conn> + Drop + Send, R: Wait + Threads + Sync>(
    rt: &R,
    alloc: Global,
    arrivals: &mut A,
    handlers: Vec<H>,
    limit: u64,
) -> Result<HandedOver<H>, HandOverFault>
where
    A::Conn: Send,
    H::Bell: Sync,
    requires workers { vec_len handlers ≤ 64 }
    requires limit { 1 ≤ limit }
    requires room { All (λ handler. H.handled handler + limit < 2 ^ 64) handlers.items }
    ensures ok { IfOk result
        (λ handed. IsHandedOver A.came A.last H.keeps H.handled arrivals.old handlers.items limit
        arrivals.new handed) }
    ensures err { OnErr result (arrivals.new ≡ arrivals.old) }
{
    let (doors, crew) = crew_of(alloc, handlers, limit)?;
    let (sender, receiver, pass) = bounded_with(alloc, WAITING)?;
    let ends = ChannelEnds {
        sender,
        receiver,
        doors,
    };
    let (arrivals, given) = in_scope(rt, &ends, pass, arrivals, crew);
    end(arrivals);
    given
}
