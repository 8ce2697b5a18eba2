//! What a worker promises, and what it hands back.

ghost use Rattle.std.specs.Prelude.{◌≡◌, ◌+◌, false, vec_len};
ghost use Rattle.crossbeam_channel.specs.Claims.{view, IsSeatAt};
ghost use Rattle.crossbeam_channel.specs.Ends.{receives_on, ruled_capacity};
ghost use Rattle.std.specs.List.Sorted.{IsStrictlyIncreasing};
ghost use Rattle.connection_channel.specs.ChannelInvariant.{pass_view};

use crate::channel_protocol::{ChannelPass, Receiver};
use crate::handler::Handler;
use std::snapshot::Snapshot;
use std::thread::{Promise, PromisedHandle};

/// What a worker hands back.
#[derive(Drop)]
pub struct Finished<C, H> {
    pub pass: ChannelPass<C>,
    pub handler: H,
    pub taken: Vec<u64>,
}

/// What a worker promises, of the channel and of the handler that it was given: its pass took the
/// numbers of its list, which rises, and its handler handled as many.
#[derive(Drop)]
pub struct Worked<C: Drop, H> {
    pub channel: Snapshot<Receiver<C>>,
    pub handler: Snapshot<H>,
}

impl<C: Drop, H: Handler<C>> Promise<Finished<C, H>> for Worked<C, H> {
    ghost kept_by = { λ p r. IsSeatAt (receives_on p.channel.value) r.pass
        × (view r.pass ≡ pass_view 1 false 0 0 r.taken.items) × IsStrictlyIncreasing r.taken.items
        × H.keeps p.handler.value r.handler
        × (H.handled r.handler ≡ H.handled p.handler.value + vec_len r.taken) };
}

/// A worker that was started.
pub type Child<C, H> = PromisedHandle<Finished<C, H>, Worked<C, H>>;
