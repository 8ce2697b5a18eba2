//! One command on a cell's set, its record appended before the set becomes another.

ghost use Rattle.std.specs.Prelude.{◌≡◌, ◌≢◌, None, false, IfSome, IfOk, IfErr, OnOk, OnErr, IsSome, IsTrue};
ghost use Rattle.resp_wire.specs.Response.{response_of};
ghost use Rattle.zset_commands.specs.AbstractCommand.{key_of, is_writing};
ghost use Rattle.sorted_sets.specs.SetAndOwnerViews.{IsPreparedFor};
ghost use Rattle.append_log.specs.LogViewAndSteps.{share_after};
ghost use Rattle.set_table.specs.LoggedStep.{IsAppendRefusal, IsHindered, IsLogged, SetStepped};

use crate::member_change_counts::OwnCounts;
use append_log::{Log, LogSink, Record, RecordShare};
use resp_wire::Reply;
use sorted_sets::ZSet;
use std::alloc::{AllocError, Allocator};
use std::hash::BuildHasher;
use std::sync::ledger::Ledger;
use std::sync::{Mutex, Wait};
use zset_commands::{Command, Refusal};

/// Runs a command on a set. One that changes sets is prepared, its record is appended where the set will change, under
/// the log's lock, and then it is committed. Refused: set and share stay.
pub(crate) fn take_step<R: Wait, H: BuildHasher, S: LogSink, L: Ledger, A: Allocator + Copy>(
    rt: &R,
    alloc: A,
    set: &mut ZSet<H, A>,
    share: &mut RecordShare<L>,
    log: &Mutex<Log<S, L>>,
    command: &Command<A>,
) -> Result<(Reply<A>, OwnCounts), Refusal>
    requires idle { set.old.next ≡ None }
    requires keyed { IsSome (key_of command.now.meaning) }
    ensures idle { set.new.next ≡ None }
    ensures ok { IfOk result (λ done. SetStepped set.old.members set.new.members command.now
        (response_of done.0) done.1) }
    ensures logged { OnOk result (IsLogged set.old.members set.new.members share.old share.new) }
    ensures err { OnErr result ((set.new.members ≡ set.old.members) × (share.new ≡ share.old)) }
    ensures cause { IfErr result (λ refusal. IsHindered refusal set.old.members command.now) }
{
    if !command.writes() {
        return Ok(read(set, command)?);
    }
    let outline = set.prepare(command)?;
    if outline.changed {
        if let Err(refusal) = append(rt, alloc, set, share, log, command) {
            set.drop_prepared();
            return Err(refusal);
        }
    }
    let reply = set.commit();
    let own = OwnCounts {
        added: outline.added as u64,
        removed: outline.removed as u64,
    };
    Ok((reply, own))
}

/// Appends the record of the change that a set has prepared, under the log's lock.
fn append<R: Wait, H: BuildHasher, S: LogSink, L: Ledger, A: Allocator + Copy>(
    rt: &R,
    alloc: A,
    set: &ZSet<H, A>,
    share: &mut RecordShare<L>,
    log: &Mutex<Log<S, L>>,
    command: &Command<A>,
) -> Result<(), Refusal>
    requires writing { IsTrue (is_writing command.now.meaning) }
    requires prepared { IsPreparedFor set.now.members command.now.meaning set.now.next }
    requires changes { IfSome set.now.next (λ next. next.members ≢ set.now.members) }
    ensures share { share.new ≡ share_after share.old result }
    ensures err { IfErr result IsAppendRefusal }
{
    let record = Record::of(alloc, command, set)?;
    log.lock(rt).append(share, &record)
}

/// Runs a command that reads. Its column may merge and crack for it.
fn read<H: BuildHasher, A: Allocator + Copy>(
    set: &mut ZSet<H, A>,
    command: &Command<A>,
) -> Result<(Reply<A>, OwnCounts), AllocError>
    requires idle { set.old.next ≡ None }
    requires reading { is_writing command.now.meaning ≡ false }
    requires keyed { IsSome (key_of command.now.meaning) }
    ensures idle { set.new.next ≡ None }
    ensures members { set.new.members ≡ set.old.members }
    ensures ok { IfOk result (λ done. SetStepped set.old.members set.old.members command.now
        (response_of done.0) done.1) }
{
    let reply = set.answer(command)?;
    Ok((reply, OwnCounts::none()))
}
