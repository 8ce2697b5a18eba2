//! One connection of many.

ghost use Rattle.std.specs.Prelude.{◌≡◌, ◌≤◌, ◌<◌, ◌^◌, ◌⊎◌, false, length};
ghost use Rattle.session_core.specs.Interleaved.{StateMoves};
ghost use Rattle.connection_turns.specs.declared.connection_in_turns.Next.TheVariants.{Ends, Settles};
ghost use Rattle.connection_turns.specs.declared.connection_in_turns.Stage.TheVariants.{Reads, Runs};
ghost use Rattle.connection_turns.specs.ConnectionTurnState.{VisitIsSound, IsTaken, GoesOn, WaitsForTold, visit_state, new_state};

mod sending;

use resp_wire::{ByteDrain, ByteSource, MAX_READS, PolledDrain, PolledSource};
use session_core::{Ended, Exec, Session, SessionFault, takes_turns};
use std::alloc::Allocator;
use std::time::Clock;
use turn_resources::{
    Buffers, MOST_HELD, MOST_REQUESTS, Moment, PART_MICROS, PartTime, Replies, SETTLED_PART_MICROS,
    UNWAITED_PARTS,
};

/// How far a visit is.
#[derive(Clone, Copy, Debug, PartialEq, Eq)]
pub enum Stage {
    /// All requests that were read whole are answered.
    Reads,
    /// Requests that were read may be left to run.
    Runs,
    /// The session has ended. Replies may be left to send.
    Ended(Result<Ended, SessionFault>),
}

/// What follows a turn.
#[derive(Clone, Copy, Debug, PartialEq, Eq)]
pub enum Next {
    /// Nothing can be done before the device is ready again.
    Waits,
    /// Its turn has a further part, which can follow at once. What is held waits for that.
    Underway,
    /// More can be done at once.
    Again,
    /// Its replies wait until their records are settled.
    Settles,
    /// The connection has ended.
    Ends,
}

/// A connection: its session, where its bytes come from, and its replies on their way.
#[derive(Drop)]
pub struct Visit<S, D, A: Allocator> {
    session: Session<A>,
    source: S,
    replies: Replies<D, A>,
    stage: Stage,
    /// The number of the last record that the replies held may tell of, where they wait until it is settled. 0: they
    /// wait for none.
    awaited: u64,
    /// How many pieces were read.
    pieces: u64,
    /// It is noted when the device becomes ready.
    is_watched: bool,
    /// The last read left nothing to read, and nothing was noted since.
    is_drained: bool,
    /// The peer sends no more.
    is_closed: bool,
    /// Bytes came or went since that was last asked.
    has_moved: bool,
    /// How many requests were run in the turn that is under way. None: no turn is.
    underway: Option<u32>,
    /// Its requests may be long, as [`PartTime`] says.
    may_be_long: bool,
    /// How many parts in a row were without replies that waited for records.
    unwaited: u32,
    ghost sound: { VisitIsSound stage session.decoder session.progress pieces },
}

impl<S: PolledSource, D: PolledDrain, A: Allocator + Copy> Visit<S, D, A> {
    /// A connection that was just accepted. It takes no memory. One that is not watched, so that
    /// nobody notes when its device becomes ready, is always ready.
    pub fn new(alloc: A, source: S, drain: D, is_watched: bool) -> Self
        ensures awaited { result.awaited ≡ 0 }
        ensures state { (visit_state result.stage (S.told result.source)
            (⟦<Replies<D, A> as ByteDrain>⟧.told result.replies) result.session.decoder result.session.progress)
            ≡ new_state (S.told source) (D.told drain) }
    {
        Visit {
            session: Session::new(alloc),
            source,
            replies: Replies::new(alloc, drain),
            stage: Stage::Reads,
            awaited: 0,
            pieces: 0,
            is_watched,
            is_drained: false,
            is_closed: false,
            has_moved: false,
            underway: None,
            may_be_long: true,
            unwaited: 0,
        }
    }

    /// Notes that the device became ready, and whether the peer sends no more.
    pub fn note(&mut self, is_closed: bool)
        ensures same { (visit_state self.new.stage (S.told self.new.source)
            (⟦<Replies<D, A> as ByteDrain>⟧.told self.new.replies) self.new.session.decoder self.new.session.progress)
            ≡ (visit_state self.old.stage (S.told self.old.source)
            (⟦<Replies<D, A> as ByteDrain>⟧.told self.old.replies) self.old.session.decoder self.old.session.progress) }
        ensures replies { self.new.replies ≡ self.old.replies }
        ensures awaited { self.new.awaited ≡ self.old.awaited }
    {
        self.is_closed = self.is_closed || is_closed;
        self.is_drained = false;
    }

    /// Where its bytes come from.
    pub fn source(&self) -> &S
        ensures source { result.now ≡ self.now.source }
    {
        &self.source
    }

    /// Whether bytes came or went since this was last asked.
    pub fn take_moved(&mut self) -> bool
        ensures same { (visit_state self.new.stage (S.told self.new.source)
            (⟦<Replies<D, A> as ByteDrain>⟧.told self.new.replies) self.new.session.decoder self.new.session.progress)
            ≡ (visit_state self.old.stage (S.told self.old.source)
            (⟦<Replies<D, A> as ByteDrain>⟧.told self.old.replies) self.old.session.decoder self.old.session.progress) }
        ensures replies { self.new.replies ≡ self.old.replies }
        ensures awaited { self.new.awaited ≡ self.old.awaited }
    {
        let moved = self.has_moved;
        self.has_moved = false;
        moved
    }

    /// How many requests were run since it began.
    pub fn requests(&self) -> u64
        ensures requests { result ≡ self.now.session.progress.requests }
    {
        self.session.progress.requests
    }

    /// Whether all its requests are answered, and no further one is there whole.
    pub fn waits_for_requests(&self) -> bool {
        self.stage == Stage::Reads && self.is_drained && self.replies.len() == 0
    }

    /// Takes a piece that was read. Its requests are to be run, or the session has ended.
    fn take_piece(&mut self, piece: &[u8])
        requires stage { self.old.stage ≡ Reads }
        requires pieces { self.old.pieces < 2 ^ 40 }
        requires short { length piece.now ≤ 65536 }
        ensures source { S.told self.new.source ≡ S.told self.old.source }
        ensures drain { ⟦<Replies<D, A> as ByteDrain>⟧.told self.new.replies ≡ ⟦<Replies<D, A> as ByteDrain>⟧.told self.old.replies }
        ensures taken { IsTaken piece.now self.new.stage self.old.session.decoder
            self.new.session.decoder }
        ensures progress { self.new.session.progress ≡ self.old.session.progress }
    {
        self.pieces += 1;
        self.has_moved = true;
        match self.session.feed(piece) {
            Ok(()) => self.stage = Stage::Runs,
            Err(end) => self.stage = Stage::Ended(Err(end)),
        }
    }

    /// Reads once. What is read is to be run, or the session has ended.
    fn read<R, E: Exec<R, A>>(&mut self, buffer: &mut [u8], exec: &E)
        requires reads { self.old.stage ≡ Reads }
        requires buffer { (1 ≤ length buffer.old) × (length buffer.old ≤ 65536) }
        ensures goes_on { GoesOn E.allows (visit_state self.old.stage (S.told self.old.source)
            (⟦<Replies<D, A> as ByteDrain>⟧.told self.old.replies) self.old.session.decoder self.old.session.progress) exec.now (visit_state self.new.stage (S.told self.new.source)
            (⟦<Replies<D, A> as ByteDrain>⟧.told self.new.replies) self.new.session.decoder self.new.session.progress) exec.now }
        ensures buffer { length buffer.new ≡ length buffer.old }
    {
        takes_turns::<R, A, E>();
        let _exec = exec;
        if self.pieces >= MAX_READS {
            self.stage = Stage::Ended(Err(SessionFault::TooManyReads));
            return;
        }
        match self.source.read_now(buffer) {
            Err(_) => self.stage = Stage::Ended(Err(SessionFault::ReadFault)),
            Ok(read) => match read {
                None => self.is_drained = true,
                Some(0) => self.stage = Stage::Ended(Ok(self.session.ended())),
                Some(n) => {
                    self.is_drained = n < buffer.len() && self.is_watched && !self.is_closed;
                    self.take_piece(&buffer[..n]);
                }
            },
        }
    }

    /// Runs requests, as many as a part of a turn may have, whose first `ran` are run. How many are then, where the part's
    /// time was over before the turn was.
    fn run<R, C: Clock, E: Exec<R, A>>(
        &mut self,
        rt: &R,
        ran: u32,
        time: &mut PartTime<'_, C>,
        exec: &mut E,
    ) -> Option<u32>
        requires settled { E.settled exec.old }
        requires runs { self.old.stage ≡ Runs }
        ensures settled { E.settled exec.new }
        ensures moves { StateMoves E.allows exec.old exec.new }
        ensures goes_on { GoesOn E.allows (visit_state self.old.stage (S.told self.old.source)
            (⟦<Replies<D, A> as ByteDrain>⟧.told self.old.replies) self.old.session.decoder self.old.session.progress) exec.old (visit_state self.new.stage (S.told self.new.source)
            (⟦<Replies<D, A> as ByteDrain>⟧.told self.new.replies) self.new.session.decoder self.new.session.progress) exec.new }
    {
        takes_turns::<R, A, E>();
        for count in ran..MOST_REQUESTS {
            match self.session.turn(rt, 1, &mut self.replies, exec) {
                Err(end) => {
                    self.stage = Stage::Ended(Err(end));
                    return None;
                }
                Ok(is_all) => {
                    if is_all {
                        self.stage = Stage::Reads;
                        return None;
                    }
                }
            }
            if self.replies.len() >= MOST_HELD {
                return None;
            }
            if time.is_over(count) {
                return Some(count + 1);
            }
        }
        None
    }

    /// Reads where all that was read is answered.
    fn read_due<R, E: Exec<R, A>>(&mut self, buffers: &mut Buffers<A>, exec: &E)
        ensures goes_on { GoesOn E.allows (visit_state self.old.stage (S.told self.old.source)
            (⟦<Replies<D, A> as ByteDrain>⟧.told self.old.replies) self.old.session.decoder self.old.session.progress) exec.now (visit_state self.new.stage (S.told self.new.source)
            (⟦<Replies<D, A> as ByteDrain>⟧.told self.new.replies) self.new.session.decoder self.new.session.progress) exec.now }
    {
        if self.stage == Stage::Reads {
            self.read::<R, E>(&mut buffers.input, exec);
        }
    }

    /// How many microseconds the next part of a turn takes.
    fn part_micros<C>(&self, moment: &Moment<'_, C>) -> u64 {
        if moment.settles_later && self.unwaited < UNWAITED_PARTS {
            SETTLED_PART_MICROS
        } else {
            PART_MICROS
        }
    }

    /// Runs requests where some are held, unless the turn is to end.
    fn run_held<R, C: Clock, E: Exec<R, A>>(&mut self, rt: &R, moment: &Moment<'_, C>, exec: &mut E)
        requires settled { E.settled exec.old }
        ensures settled { E.settled exec.new }
        ensures moves { StateMoves E.allows exec.old exec.new }
        ensures goes_on { GoesOn E.allows (visit_state self.old.stage (S.told self.old.source)
            (⟦<Replies<D, A> as ByteDrain>⟧.told self.old.replies) self.old.session.decoder self.old.session.progress) exec.old (visit_state self.new.stage (S.told self.new.source)
            (⟦<Replies<D, A> as ByteDrain>⟧.told self.new.replies) self.new.session.decoder self.new.session.progress) exec.new }
    {
        let ran = self.underway.take().unwrap_or(0);
        if self.stage == Stage::Runs && !moment.ends_turn {
            let micros = self.part_micros(moment);
            let mut time = PartTime::new(moment.clock, micros, ran, self.may_be_long);
            let ran = self.run(rt, ran, &mut time, exec);
            self.may_be_long = time.next_may_be_long();
            self.underway = ran.filter(|ran| *ran < MOST_REQUESTS);
        }
    }

    /// Takes the memory for replies that is shared.
    fn lend(&mut self, buffers: &mut Buffers<A>)
        ensures same { (visit_state self.new.stage (S.told self.new.source)
            (⟦<Replies<D, A> as ByteDrain>⟧.told self.new.replies) self.new.session.decoder self.new.session.progress)
            ≡ (visit_state self.old.stage (S.told self.old.source)
            (⟦<Replies<D, A> as ByteDrain>⟧.told self.old.replies) self.old.session.decoder self.old.session.progress) }
    {
        let (text, replies) = buffers.lend();
        self.session.lend(text);
        self.replies.lend(replies);
    }

    /// Gives the memory for replies back, but for what holds some.
    fn give_back(&mut self, buffers: &mut Buffers<A>)
        ensures same { (visit_state self.new.stage (S.told self.new.source)
            (⟦<Replies<D, A> as ByteDrain>⟧.told self.new.replies) self.new.session.decoder self.new.session.progress)
            ≡ (visit_state self.old.stage (S.told self.old.source)
            (⟦<Replies<D, A> as ByteDrain>⟧.told self.old.replies) self.old.session.decoder self.old.session.progress) }
        ensures awaited { self.new.awaited ≡ self.old.awaited }
    {
        buffers.take_back(self.session.take_memory(), self.replies.take_memory());
    }

    /// The number of the last record that the replies held wait for, 0 for none.
    pub fn awaited(&self) -> u64
        ensures awaited { result ≡ self.now.awaited }
    {
        self.awaited
    }

    /// One turn, or a further part of one: what was held before it is sent; then one piece is read, or requests that are
    /// left from the last one are run, and behind the last part their replies sent. They wait where they may tell of a
    /// record behind the first `settled`: [`Visit::let_go`] sends them.
    pub fn turn<R, C: Clock, E: Exec<R, A>>(
        &mut self,
        rt: &R,
        moment: &Moment<'_, C>,
        buffers: &mut Buffers<A>,
        exec: &mut E,
        settled: u64,
    ) -> Next
        requires settled { E.settled exec.old }
        ensures settled { E.settled exec.new }
        // Requests were run, and no more was done to what the connections share;
        ensures moves { StateMoves E.allows exec.old exec.new }
        // they are the connection's own, in turn, and their replies stand behind those before.
        ensures goes_on { GoesOn E.allows (visit_state self.old.stage (S.told self.old.source)
            (⟦<Replies<D, A> as ByteDrain>⟧.told self.old.replies) self.old.session.decoder self.old.session.progress) exec.old (visit_state self.new.stage (S.told self.new.source)
            (⟦<Replies<D, A> as ByteDrain>⟧.told self.new.replies) self.new.session.decoder self.new.session.progress) exec.new }
        // Where replies were made, they wait if they may tell of a record that is not settled;
        ensures told { (self.new.session.progress ≡ self.old.session.progress)
            ⊎ WaitsForTold (E.tells exec.new) settled result self.new.awaited }
        // they wait for no other;
        ensures waits { result ≡ Settles → settled < self.new.awaited }
        // and while they do, all stays.
        ensures held { settled < self.old.awaited → self.new ≡ self.old }
    {
        if self.awaited > settled {
            return Next::Settles;
        }
        let cleared = self.send_before_turn();
        if cleared != Some(true) || matches!(self.stage, Stage::Ended(_)) {
            return self.next(cleared);
        }
        self.lend(buffers);
        self.read_due::<R, E>(buffers, exec);
        self.run_held(rt, moment, exec);
        let told = exec.take_told();
        let next = self.send_settled(told, settled);
        self.give_back(buffers);
        next
    }

    /// Sends replies that waited for their records, where these are among the first `settled`. Else nothing leaves, and
    /// the connection is to end.
    pub fn let_go(&mut self, buffers: &mut Buffers<A>, settled: u64) -> Next
        ensures same { (visit_state self.new.stage (S.told self.new.source)
            (⟦<Replies<D, A> as ByteDrain>⟧.told self.new.replies) self.new.session.decoder self.new.session.progress)
            ≡ (visit_state self.old.stage (S.told self.old.source)
            (⟦<Replies<D, A> as ByteDrain>⟧.told self.old.replies) self.old.session.decoder self.old.session.progress) }
        ensures held { settled < self.old.awaited → self.new ≡ self.old }
        ensures ends { settled < self.old.awaited → result ≡ Ends }
        ensures sent { result ≡ Settles → ⊥ }
    {
        if self.awaited > settled {
            return Next::Ends;
        }
        self.awaited = 0;
        let sent = self.send();
        buffers.take_replies(self.replies.take_memory());
        self.next(sent)
    }
}
