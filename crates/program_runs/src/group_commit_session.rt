//! A session whose changes share their syncs: its replies leave behind a sync of all that was written before them.

ghost use Rattle.std.specs.Prelude.{◌≡◌, true, None};
ghost use Rattle.resp_wire.specs.Device.{Rose};
ghost use Rattle.exit_lines.specs.DeviceStates.{drain_state, source_state};
ghost use Rattle.program_runs.specs.SessionFinish.{held_state};
ghost use Rattle.program_runs.specs.FileRunOutcomes.{ServesFile, ServesFrom};

use crate::file_sessions_and_rewrites::{MAX_SESSION_RECORDS, Opened, open_session};
use crate::stdio::after_session;
use append_file::LockFile;
use append_log::{Log, LogSink, LoggedOwner};
use exit_lines::Finish;
use held_replies::HeldReplies;
use lone_sessions::serve_deferred;
use resp_wire::{ByteDrain, ByteSource};
use std::alloc::{AllocGlobal, Global};
use std::fs::Files;
use std::hash::RandomState;
use std::marker::Brand;
use std::sync::ledger::{Blank, Ledger};

/// Serves the source from an open file, as `serve_logged` does, but many changes share a sync.
fn serve_shared<L: Ledger, R, K: LogSink + Drop, S: ByteSource, D: ByteDrain>(
    rt: &R,
    alloc: Global,
    blank: Blank,
    opened: Opened<K>,
    source: &mut S,
    replies: &mut HeldReplies<D, Global>,
) -> Finish
    requires name { blank.name ≡ L.name }
    requires parts { blank.parts ≡ L.parts }
    requires two { blank.parts ≡ 2 }
    requires idle { opened.owner.next ≡ None }
    ensures { ServesFrom true opened.owner.world
        (source_state S.told S.calls S.failures source.old)
        (source_state S.told S.calls S.failures source.new)
        (held_state ⟦<HeldReplies<D, Global> as ByteDrain>⟧.told D.flushed replies.old)
        (held_state ⟦<HeldReplies<D, Global> as ByteDrain>⟧.told D.flushed replies.new)
        result }
{
    let Opened { owner, sink } = opened;
    let log = Log::<_, L>::deferred(blank, sink, MAX_SESSION_RECORDS);
    let mut logged = LoggedOwner::new(alloc, owner, log);
    after_session(serve_deferred(rt, alloc, source, replies, &mut logged))
}

/// Serves the source from the sets of an append file, as `serve_file` does, but many changes share a sync: replies leave
/// behind a sync of all changes that were made before them. Where it fails they never leave, and the session ends. What is
/// held in the end counts as written.
pub fn serve_group<R: Files + AllocGlobal, S: ByteSource, D: ByteDrain, E: ByteDrain>(
    rt: &R,
    hasher: RandomState,
    path: &str,
    source: &mut S,
    replies: &mut HeldReplies<D, Global>,
    errors: &mut E,
) -> Finish
where
    R::File: LockFile,
    ensures { ServesFile true
        (source_state S.told S.calls S.failures source.old)
        (source_state S.told S.calls S.failures source.new)
        (held_state ⟦<HeldReplies<D, Global> as ByteDrain>⟧.told D.flushed replies.old)
        (held_state ⟦<HeldReplies<D, Global> as ByteDrain>⟧.told D.flushed replies.new)
        (drain_state E.told E.flushed E.failures errors.old)
        (drain_state E.told E.flushed E.failures errors.new)
        result }
{
    let alloc = rt.alloc();
    match open_session(rt, alloc, hasher, path, errors) {
        Ok(opened) => {
            serve_shared::<Brand, _, _, _, _>(rt, alloc, Blank::new(2), opened, source, replies)
        }
        Err(line) => Finish::by(line),
    }
}
