//! The channel of numbered connections and its rule.

ghost use Rattle.std.specs.Prelude.{◌≡◌, ℕ, ◌+◌, ◌-◌, ◌<◌, ◌≤◌, ◌++◌, true, false, [], List, IfSome, IfNone, ⊤, vec_len, vec_capacity};
ghost use Rattle.crossbeam_channel.specs.Claims.{view, IsSeatAt};
ghost use Rattle.crossbeam_channel.specs.Ends.{sends_on, receives_on, ruled_capacity};
ghost use Rattle.connection_channel.specs.ChannelInvariant.{pass_view, times, once_below, AllBelow, numbers_of, IsNumbered, after_sending, after_taking, IsAboveTaken, TakesFew, with_taken, after_send, after_stop};
ghost use Rattle.connection_channel.specs.Finding.{IsFound};

use crate::load_balancing::Doors;
use crossbeam_channel::protocol::{Join, Lesson, Outcome, Protocol, Split};
use crossbeam_channel::{Pass, RuledReceiver, RuledSender, TryRecvError};
use std::collections::LinkedList;
use std::sync::Wait;

/// What goes through the channel.
#[derive(Drop)]
pub enum Message<C> {
    /// A connection and its number.
    Connection(u64, C),
    /// The worker that takes it ends.
    Stop,
}

/// What a pass knows: how many parts it has of the right to know the whole, whether it is the one
/// that sends, how many connections and stop messages it sent, and which numbers it took. No value of
/// it is made.
pub struct ChannelPassView {
    pub parts: u64,
    pub sends: bool,
    pub sent: u64,
    pub stops: u64,
    pub taken: LinkedList<u64>,
}

/// The channel's rule.
pub struct Numbered;

impl<C> Protocol<Message<C>, ChannelPassView> for Numbered {
    ghost holds = { IsNumbered };

    ghost first = { pass_view 1024 true 0 0 [] };
}

/// How a pass is cut in two for a worker, and how two passes are joined.
pub struct SplitPass;

impl Split<ChannelPassView> for SplitPass {
    ghost left = { λ v. pass_view (v.parts - 1) v.sends v.sent v.stops v.taken };

    ghost right = { λ v. pass_view 1 false 0 0 [] };
}

impl Join<ChannelPassView> for SplitPass {
    ghost both = { λ v w. pass_view (v.parts + w.parts) v.sends v.sent v.stops (v.taken ++ w.taken) };

    ghost spent = { pass_view 0 false 0 0 [] };
}

/// The step of sending.
pub struct Sends;

impl<C> Outcome<Message<C>, ChannelPassView> for Sends {
    ghost then = { λ v x w. w ≡ after_sending v x };
}

impl<C> Lesson<Message<C>, ChannelPassView> for Sends {
    ghost fact = { λ v items. ⊤ };
}

/// The step of a worker that takes a message.
pub struct Takes;

impl<C> Outcome<Message<C>, ChannelPassView> for Takes {
    ghost then = { λ v x w. (w ≡ after_taking v x) × IsAboveTaken v x };
}

impl<C> Lesson<Message<C>, ChannelPassView> for Takes {
    ghost fact = { λ v items. ⊤ };
}

/// The step of the whole pass, which takes what no worker took.
pub struct Drains;

impl<C> Outcome<Message<C>, ChannelPassView> for Drains {
    ghost then = { λ v x w. TakesFew v x w };
}

impl<C> Lesson<Message<C>, ChannelPassView> for Drains {
    ghost fact = { λ v items.
        (x : ℕ) → times x v.taken + times x (numbers_of items) ≡ once_below x v.sent };
}

pub type Sender<C> = RuledSender<Message<C>, ChannelPassView, Numbered>;

pub type Receiver<C> = RuledReceiver<Message<C>, ChannelPassView, Numbered>;

pub type ChannelPass<C> = Pass<Message<C>, ChannelPassView>;

/// Both ends of a channel, and the doors of the workers that take from it.
#[derive(Drop)]
pub struct ChannelEnds<C: Drop, B> {
    pub sender: Sender<C>,
    pub receiver: Receiver<C>,
    pub doors: Doors<B>,
}

/// What a worker finds in the channel.
#[derive(Drop)]
pub enum Found<C> {
    /// A connection and its number.
    Connection(u64, C),
    /// A stop message, or the channel has failed.
    Stop,
    /// No message now.
    Nothing,
}

/// The next message for a worker. One that waits finds some message, unless the channel has failed; another finds nothing
/// where none is there.
pub fn take_message<C: Drop, R: Wait>(
    rt: &R,
    receiver: &Receiver<C>,
    pass: &mut ChannelPass<C>,
    waits: bool,
) -> Found<C>
    requires pass { IsSeatAt (receives_on receiver.now) pass.old }
    requires part { 0 < (view pass.old).parts }
    ensures pass { IsSeatAt (receives_on receiver.now) pass.new }
    ensures found { IsFound result (view pass.old) (view pass.new) }
{
    if waits {
        return match receiver.recv_as::<Takes, R>(rt, pass) {
            Ok(Message::Connection(number, connection)) => Found::Connection(number, connection),
            Ok(Message::Stop) | Err(_) => Found::Stop,
        };
    }
    match receiver.try_recv_as::<Takes, R>(rt, pass) {
        Ok(Message::Connection(number, connection)) => Found::Connection(number, connection),
        Ok(Message::Stop) | Err(TryRecvError::Disconnected) => Found::Stop,
        Err(TryRecvError::Empty) => Found::Nothing,
    }
}

/// Sends a connection. False where the channel hands it back: it is then dropped.
pub fn send_connection<C: Drop, R: Wait>(
    rt: &R,
    sender: &Sender<C>,
    pass: &mut ChannelPass<C>,
    number: u64,
    connection: C,
) -> bool
    requires pass { IsSeatAt (sends_on sender.now) pass.old }
    requires number { ((view pass.old).sends ≡ true) × (number ≡ (view pass.old).sent) }
    ensures pass { IsSeatAt (sends_on sender.now) pass.new }
    ensures view { view pass.new ≡ after_send result (view pass.old) }
{
    sender
        .send_as::<Sends, R>(rt, pass, Message::Connection(number, connection))
        .is_ok()
}

/// Sends a stop message. False where the channel hands it back.
pub fn send_stop<C: Drop, R: Wait>(rt: &R, sender: &Sender<C>, pass: &mut ChannelPass<C>) -> bool
    requires pass { IsSeatAt (sends_on sender.now) pass.old }
    ensures pass { IsSeatAt (sends_on sender.now) pass.new }
    ensures view { view pass.new ≡ after_stop result (view pass.old) }
{
    sender.send_as::<Sends, R>(rt, pass, Message::Stop).is_ok()
}

/// Sends a stop message for each worker, and tells how many the channel handed back.
pub fn dismiss<C: Drop, R: Wait>(
    rt: &R,
    sender: &Sender<C>,
    pass: &mut ChannelPass<C>,
    workers: usize,
) -> usize
    requires pass { IsSeatAt (sends_on sender.now) pass.old }
    ensures pass { IsSeatAt (sends_on sender.now) pass.new }
    ensures view { view pass.new ≡ pass_view (view pass.old).parts (view pass.old).sends
        (view pass.old).sent (view pass.new).stops (view pass.old).taken }
    ensures each { (view pass.new).stops + result ≡ (view pass.old).stops + workers }
{
    let mut refused = 0;
    for _ in 0..workers {
        if !send_stop(rt, sender, pass) {
            refused += 1;
        }
    }
    refused
}

/// Takes what no worker took.
pub fn drain<C: Drop, R: Wait>(
    rt: &R,
    receiver: &Receiver<C>,
    pass: &mut ChannelPass<C>,
    left: &mut Vec<u64>,
)
    requires pass { IsSeatAt (receives_on receiver.now) pass.old }
    requires whole { ((view pass.old).parts ≡ 1024) × ((view pass.old).sends ≡ true) }
    requires room { (view pass.old).sent + vec_len left.old ≤ vec_capacity left.old }
    ensures once { (x : ℕ) → times x (view pass.old).taken + times x left.new.items
        ≡ once_below x (view pass.old).sent + times x left.old.items }
{
    for _ in rt.forever() {
        match receiver.try_recv_as::<Drains, R>(rt, pass) {
            Ok(Message::Connection(number, _connection)) => left.push_reserved(number),
            Ok(Message::Stop) => {}
            Err(_) => return,
        }
    }
}
