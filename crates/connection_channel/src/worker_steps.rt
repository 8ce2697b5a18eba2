//! Steps of a worker.

ghost use Rattle.std.specs.Prelude.{◌≡◌, ◌<◌};
ghost use Rattle.crossbeam_channel.specs.Claims.{view, IsSeatAt};
ghost use Rattle.crossbeam_channel.specs.Ends.{receives_on, ruled_capacity};
ghost use Rattle.connection_channel.specs.Finding.{IsFound};

use crate::channel_protocol::{ChannelPass, Found, Receiver, take_message};
use crate::handler::{Bell, Handler};
use crate::load_balancing::Post;
use std::sync::Wait;

/// The next message for a worker: one that holds no connection waits for it; another looks for one where it is due.
pub fn next_message<C: Drop, B: Bell, R: Wait>(
    rt: &R,
    receiver: &Receiver<C>,
    pass: &mut ChannelPass<C>,
    post: &Post<'_, B>,
    live: usize,
) -> Found<C>
    requires pass { IsSeatAt (receives_on receiver.now) pass.old }
    requires part { 0 < (view pass.old).parts }
    ensures pass { IsSeatAt (receives_on receiver.now) pass.new }
    ensures found { IsFound result (view pass.old) (view pass.new) }
{
    post.tell_live(live);
    let is_idle = live == 0;
    if !is_idle && !post.is_due() {
        return Found::Nothing;
    }
    take_message(rt, receiver, pass, is_idle)
}

/// Goes on with the connections that a handler holds, until all have ended.
pub fn finish<C: Drop, H: Handler<C>, R: Wait>(rt: &R, handler: &mut H)
    ensures keeps { H.keeps handler.old handler.new }
    ensures handled { H.handled handler.new ≡ H.handled handler.old }
{
    for _ in rt.forever() {
        if handler.live() == 0 {
            break;
        }
        handler.turn(rt);
    }
}
