//! Starting the workers.

ghost use Rattle.std.specs.Prelude.{ℕ, ◌≡◌, ◌+◌, ◌<◌, ◌≤◌, ◌^◌, true, false, [], IfOk, IfSome, All, map, vec_len, vec_capacity};
ghost use Rattle.crossbeam_channel.specs.Claims.{view, IsSeatAt};
ghost use Rattle.crossbeam_channel.specs.Ends.{sends_on, receives_on, ruled_capacity};
ghost use Rattle.connection_channel.specs.ChannelInvariant.{pass_view};

use crate::outcome::HandOverFault;
use crate::worker::work;
use connection_channel::{
    ChannelEnds, ChannelPass, Child, Desk, Handler, Post, Receiver, SplitPass, Worked,
};
use std::snapshot::Snapshot;
use std::sync::Wait;
use std::thread::Scope;

/// Starts one worker, whose pass is this one.
fn start<'s, E, C: Drop + Send + 's, H: Handler<C> + Drop + Send + 's, R: Wait + Sync>(
    scope: &Scope<'s, E>,
    rt: &'s R,
    receiver: &'s Receiver<C>,
    pass: ChannelPass<C>,
    desk: Desk<H>,
    post: Post<'s, H::Bell>,
) -> Option<Child<C, H>>
where
    H::Bell: Sync,
    requires pass { IsSeatAt (receives_on receiver.now) pass × (view pass ≡ pass_view 1 false 0 0 []) }
    requires room { H.handled desk.handler + desk.limit < 2 ^ 64 }
    ensures { IfSome result (λ h. (h.promise.channel.value ≡ receiver.entry.now)
        × (h.promise.handler.value ≡ desk.handler)) }
{
    let promise = Worked {
        channel: Snapshot::of(receiver),
        handler: Snapshot::of(&desk.handler),
    };
    let started = scope.spawn_with(promise, move || work(rt, receiver, pass, desk, &post));
    started.ok()
}

/// Starts the worker of one desk, with a pass cut off from this one.
fn start_one<'s, E, C: Drop + Send + 's, H: Handler<C> + Drop + Send + 's, R: Wait + Sync>(
    scope: &Scope<'s, E>,
    rt: &'s R,
    ends: &'s ChannelEnds<C, H::Bell>,
    pass: &mut ChannelPass<C>,
    desk: Desk<H>,
    post: Post<'s, H::Bell>,
) -> Result<Child<C, H>, HandOverFault>
where
    H::Bell: Sync,
    requires pass { IsSeatAt (sends_on ends.now.sender) pass.old
        × (receives_on ends.now.receiver ≡ sends_on ends.now.sender) }
    requires parts { 1 < (view pass.old).parts }
    requires room { H.handled desk.handler + desk.limit < 2 ^ 64 }
    ensures pass { IsSeatAt (sends_on ends.now.sender) pass.new }
    ensures view { view pass.new ≡ pass_view (view pass.new).parts (view pass.old).sends
        (view pass.old).sent (view pass.old).stops (view pass.old).taken }
    ensures parts { (view pass.new).parts + 1 ≡ (view pass.old).parts }
    ensures ok { IfOk result (λ h. (receives_on h.promise.channel.value ≡ sends_on ends.now.sender)
        × (h.promise.handler.value ≡ desk.handler)) }
{
    let own = ends.sender.another::<SplitPass>(pass);
    start(scope, rt, &ends.receiver, own, desk, post).ok_or(HandOverFault::Spawn)
}

/// Starts one worker for each desk.
pub fn start_all<'s, E, C: Drop + Send + 's, H: Handler<C> + Drop + Send + 's, R: Wait + Sync>(
    scope: &Scope<'s, E>,
    rt: &'s R,
    ends: &'s ChannelEnds<C, H::Bell>,
    pass: &mut ChannelPass<C>,
    desks: Vec<Desk<H>>,
    children: &mut Vec<Child<C, H>>,
) -> Result<(), HandOverFault>
where
    H::Bell: Sync,
    requires pass { IsSeatAt (sends_on ends.now.sender) pass.old
        × (receives_on ends.now.receiver ≡ sends_on ends.now.sender) }
    requires parts { vec_len desks < (view pass.old).parts }
    requires children { (children.old.items ≡ []) × (vec_len desks ≤ vec_capacity children.old) }
    requires room { All (λ d. H.handled d.handler + d.limit < 2 ^ 64) desks.items }
    ensures pass { IsSeatAt (sends_on ends.now.sender) pass.new }
    ensures view { view pass.new ≡ pass_view (view pass.new).parts (view pass.old).sends
        (view pass.old).sent (view pass.old).stops (view pass.old).taken }
    ensures parts { (view pass.new).parts + vec_len children.new ≤ (view pass.old).parts }
    ensures channel { All (λ h. receives_on h.promise.channel.value
        ≡ sends_on ends.now.sender) children.new.items }
    ensures few { vec_len children.new ≤ vec_len desks }
    ensures all { IfOk result (λ _. ((view pass.new).parts + vec_len desks ≡ (view pass.old).parts)
        × (map (λ h. h.promise.handler.value) children.new.items
        ≡ map (λ d. d.handler) desks.items)) }
{
    for desk in desks {
        let post = Post {
            doors: &ends.doors,
            worker: children.len(),
        };
        let child = start_one(scope, rt, ends, pass, desk, post)?;
        children.push_reserved(child);
    }
    Ok(())
}
