//! Ending the workers, and taking back what they hand back.

ghost use Rattle.std.specs.Prelude.{ℕ, ◌≡◌, ◌+◌, ◌<◌, ◌≤◌, ◌++◌, ◌∷◌, [], IfOk, All, map, Vec, vec_len, vec_capacity};
ghost use Rattle.crossbeam_channel.specs.Claims.{view, IsSeatAt};
ghost use Rattle.crossbeam_channel.specs.Ends.{sends_on, receives_on, ruled_capacity};
ghost use Rattle.std.specs.List.Sorted.{IsStrictlyIncreasing};
ghost use Rattle.connection_channel.specs.ChannelInvariant.{pass_view, with_pass};
ghost use Rattle.connection_channel.specs.TakenBack.{all_of, HandlersServed};

use crate::channel_protocol::{ChannelEnds, ChannelPass, Sender, SplitPass, dismiss};
use crate::handler::Handler;
use crate::promise::{Child, Finished};
use std::alloc::{AllocError, Global};
use std::sync::Wait;
use std::thread::Threads;

/// What the workers handed back: their handlers, and the numbers that each took.
#[derive(Drop)]
pub struct Returned<H> {
    pub handlers: Vec<H>,
    pub taken: Vec<Vec<u64>>,
}

impl<H: Drop> Returned<H> {
    /// Nothing, with room for what so many workers hand back.
    pub fn with_room(alloc: Global, workers: usize) -> Result<Self, AllocError>
        ensures { IfOk result (λ r. (r.handlers.items ≡ []) × (r.taken.items ≡ [])
            × (workers ≤ vec_capacity r.handlers) × (workers ≤ vec_capacity r.taken)) }
    {
        let handlers = Vec::with_capacity(alloc, workers)?;
        let taken = Vec::with_capacity(alloc, workers)?;
        Ok(Returned { handlers, taken })
    }

    /// Takes back the pass of one worker, with its handler and its list.
    fn take_back<C: Drop + Send, R: Threads>(
        &mut self,
        rt: &R,
        sender: &Sender<C>,
        pass: &mut ChannelPass<C>,
        child: Child<C, H>,
    )
    where
        H: Handler<C> + Send,
        requires pass { IsSeatAt (sends_on sender.now) pass.old }
        requires channel { receives_on child.promise.channel.value ≡ sends_on sender.now }
        requires room { (vec_len self.old.handlers < vec_capacity self.old.handlers)
            × (vec_len self.old.taken < vec_capacity self.old.taken) }
        ensures pass { IsSeatAt (sends_on sender.now) pass.new }
        ensures room { (vec_capacity self.new.handlers ≡ vec_capacity self.old.handlers)
            × (vec_capacity self.new.taken ≡ vec_capacity self.old.taken) }
        ensures back { (h : H) × (v : Vec ℕ Global)
            × (view pass.new ≡ with_pass (view pass.old) v.items) × IsStrictlyIncreasing v.items
            × (self.new.handlers.items ≡ self.old.handlers.items ++ h ∷ [])
            × (self.new.taken.items ≡ self.old.taken.items ++ v ∷ [])
            × H.keeps child.promise.handler.value h
            × (H.handled h ≡ H.handled child.promise.handler.value + vec_len v) }
    {
        let Finished {
            pass: other,
            handler,
            taken,
        } = child.join(rt);
        sender.absorb::<SplitPass>(pass, other);
        self.handlers.push_reserved(handler);
        self.taken.push_reserved(taken);
    }

    /// Takes back the passes of all workers, with their handlers and lists. Each ends at a stop
    /// message of its own: `refused` is how many of them the channel handed back.
    fn gather<C: Drop + Send, R: Threads>(
        &mut self,
        rt: &R,
        sender: &Sender<C>,
        pass: &mut ChannelPass<C>,
        children: Vec<Child<C, H>>,
        refused: usize,
    )
    where
        H: Handler<C> + Send,
        requires pass { IsSeatAt (sends_on sender.now) pass.old }
        requires stops { vec_len children ≤ (view pass.old).stops + refused }
        requires channel { All (λ h. receives_on h.promise.channel.value
            ≡ sends_on sender.now) children.items }
        requires empty { (self.old.handlers.items ≡ []) × (self.old.taken.items ≡ []) }
        requires room { (vec_len children ≤ vec_capacity self.old.handlers)
            × (vec_len children ≤ vec_capacity self.old.taken) }
        ensures pass { IsSeatAt (sends_on sender.now) pass.new }
        ensures view { view pass.new ≡ pass_view ((view pass.old).parts + vec_len children)
            (view pass.old).sends (view pass.old).sent (view pass.old).stops
            ((view pass.old).taken ++ all_of self.new.taken.items) }
        ensures rises { All (λ v. IsStrictlyIncreasing v.items) self.new.taken.items }
        ensures lists { (vec_len self.new.taken ≡ vec_len children)
            × (vec_len self.new.handlers ≡ vec_len children) }
        ensures served { HandlersServed H.keeps H.handled
            (map (λ h. h.promise.handler.value) children.items) self.new.handlers.items
            self.new.taken.items }
    {
        let _ = refused;
        for child in children {
            self.take_back(rt, sender, pass, child);
        }
    }

    /// Ends all workers by a stop message each, and takes back their passes, with their handlers and
    /// lists.
    pub fn recall<C: Drop + Send, R: Threads + Wait>(
        &mut self,
        rt: &R,
        ends: &ChannelEnds<C, H::Bell>,
        pass: &mut ChannelPass<C>,
        children: Vec<Child<C, H>>,
    )
    where
        H: Handler<C> + Send,
        requires pass { IsSeatAt (sends_on ends.now.sender) pass.old }
        requires channel { All (λ h. receives_on h.promise.channel.value
            ≡ sends_on ends.now.sender) children.items }
        requires empty { (self.old.handlers.items ≡ []) × (self.old.taken.items ≡ []) }
        requires room { (vec_len children ≤ vec_capacity self.old.handlers)
            × (vec_len children ≤ vec_capacity self.old.taken) }
        ensures pass { IsSeatAt (sends_on ends.now.sender) pass.new }
        ensures view { view pass.new ≡ pass_view ((view pass.old).parts + vec_len children)
            (view pass.old).sends (view pass.old).sent (view pass.new).stops
            ((view pass.old).taken ++ all_of self.new.taken.items) }
        ensures rises { All (λ v. IsStrictlyIncreasing v.items) self.new.taken.items }
        ensures lists { (vec_len self.new.taken ≡ vec_len children)
            × (vec_len self.new.handlers ≡ vec_len children) }
        ensures served { HandlersServed H.keeps H.handled
            (map (λ h. h.promise.handler.value) children.items) self.new.handlers.items
            self.new.taken.items }
    {
        ends.doors.expect_each();
        let refused = dismiss(rt, &ends.sender, pass, children.len());
        ends.doors.ring_due();
        self.gather(rt, &ends.sender, pass, children, refused);
    }
}
