//! What stands behind a place's lock.

ghost use Rattle.std.specs.Prelude.{◌≡◌, ◌<◌, ◌≤◌, ◌↔◌, length, None, Some, IfOk, IfErr, IfNone, IfSome, OnErr, IsSome, IsTrue, MatchResult};
ghost use Rattle.std.proofs.Math.ListN.{get_or, set};
ghost use Rattle.std.specs.FinMap as map;
ghost use Rattle.crack_kernel.specs.PivotList.{ObeysPivots};
ghost use Rattle.ripple_column.specs.Content.{Holds};
ghost use Rattle.zset_commands.specs.AbstractCommand.{key_of};
ghost use Rattle.resp_wire.specs.Response.{response_of};
ghost use Rattle.zset_core.specs.Semantics.{step};
ghost use Rattle.sorted_sets.specs.AnswerableAsItStands.{IsReadyFor, ListsWindow};
ghost use Rattle.zset_core.specs.SortedSet.{pairs};
ghost use Rattle.set_table.specs.CellViewAndRuns.{HasNoReading, HasRead, HasRun, InStep, RunIsRefused, CellIsWhole, WasRun, counts_of, new_cell};
ghost use Rattle.set_table.specs.TableAnswers.{IsSetRefusal};
ghost use Rattle.set_table.specs.PassTallies.{TallyHasRoom, runs_of, share_after_run, tally_after};

mod closing_numbers;
mod logged_step;

use crate::answer_with_counts::Answer;
use crate::cell::logged_step::take_step;
use crate::limits::MAX_RUNS;
use crate::member_change_counts::{Counts, OwnCounts, Tally};
use crate::pass_tally_at_place::Shares;
use append_log::{Log, LogSink, RecordShare};
pub use closing_numbers::CellNumbers;
use resp_wire::Reply;
use sorted_sets::ZSet;
use std::alloc::{AllocError, Allocator};
use std::hash::BuildHasher;
use std::marker::Model;
use std::sync::ledger::Ledger;
use std::sync::{Mutex, Wait};
use zset_commands::{Command, Refusal};

/// What stands behind a place's lock: a sorted set, the members that it had at opening, for each
/// pass a tally of what it was answered here, and how many records were appended for the set's
/// changes. The members are those at opening and what the passes were told since.
#[derive(Drop)]
pub struct Cell<H: BuildHasher, L: Ledger, A: Allocator + Copy> {
    place: usize,
    sorted_set: ZSet<H, A>,
    opened: u64,
    max_runs: u64,
    tallies: Vec<Tally, A>,
    total: Tally,
    share: RecordShare<L>,
    // The last field: with it first the search for what threads may share gives up.
    alloc: A,
}

impl<H: BuildHasher, L: Ledger, A: Allocator + Copy> Model for Cell<H, L, A> {
    ghost use Rattle.std.specs.Prelude.{◌≡◌};
    ghost use Rattle.set_table.specs.CellViewAndRuns.{CellView, CellIsWhole};
    ghost use Rattle.set_table.specs.PassTallies.{total_of};

    ghost Value = { CellView };

    ghost use Rattle.std.specs.Coded.{codes};
    ghost use Rattle.sorted_sets.specs.SetAndOwnerViews.{coded_members};

    ghost coded = { Prim.hlevel (codes, coded_members) };

    ghost view = { λ c. record { place = c.place; sorted_set = c.sorted_set; opened = c.opened; max_runs = c.max_runs; tallies = c.tallies.items; appended = c.share } };

    ghost invariant = { λ c. CellIsWhole (record { place = c.place; sorted_set = c.sorted_set; opened = c.opened; max_runs = c.max_runs; tallies = c.tallies.items; appended = c.share }) × (c.total ≡ total_of c.tallies.items) };
}

impl<H: BuildHasher + Drop, L: Ledger, A: Allocator + Copy> Cell<H, L, A> {
    /// A cell of a set at a place, of which none of so many passes was told anything yet. It may answer
    /// `max_runs` runs, and takes a share of a log's records that tells of none yet. A table makes its
    /// own cells.
    ///
    /// # Errors
    ///
    /// [`AllocError`] where there is no memory for the passes' tallies.
    pub fn new(
        alloc: A,
        place: usize,
        sorted_set: ZSet<H, A>,
        max_runs: u64,
        passes: usize,
        share: RecordShare<L>,
    ) -> Result<Self, AllocError>
        requires idle { sorted_set.next ≡ None }
        requires max_runs { max_runs ≤ MAX_RUNS }
        ensures { IfOk result
            (λ cell. cell ≡ new_cell place sorted_set max_runs passes share) }
    {
        let opened = sorted_set.card() as u64;
        let none = Tally {
            runs: 0,
            added: 0,
            removed: 0,
        };
        match Vec::from_elem(alloc, none, passes) {
            Ok(tallies) => Ok(Cell {
                place,
                sorted_set,
                opened,
                max_runs,
                tallies,
                total: none,
                share,
                alloc,
            }),
            Err(refused) => {
                drop(sorted_set);
                Err(refused)
            }
        }
    }
}

impl<H: BuildHasher, L: Ledger, A: Allocator + Copy> Cell<H, L, A> {
    /// Runs a command, and tells the pass of it: members, tally and shares move by the same
    /// numbers.
    ///
    /// # Errors
    ///
    /// Members, tallies, shares and the log's count stay. [`Refusal::OutOfStep`] exactly where the
    /// cell and the pass's shares tell different numbers; then [`Refusal::Spent`] exactly where as
    /// many runs were answered as may be; then those of the command: [`Refusal::ScoreOverflow`];
    /// [`Refusal::LogBroken`], [`Refusal::LogFull`] or [`Refusal::LogRefused`] where it would
    /// change the set and its record was not appended; [`Refusal::NoMemory`].
    #[tactic(auto, using(crate::proofs::StepLemmas::told_of))]
    pub fn run<'c, S: LogSink, R: Wait>(
        &mut self,
        rt: &R,
        command: &'c Command<A>,
        shares: &mut Shares,
        log: &Mutex<Log<S, L>>,
    ) -> Result<Answer<'c, A>, Refusal>
        requires keyed { IsSome (key_of command.now.meaning) }
        ensures ok { IfOk result
            (λ answer. HasRun self.old self.new shares.old shares.new command.now answer) }
        ensures err { IfErr result
            (λ refusal. RunIsRefused self.old self.new shares.old shares.new command.now refusal) }
        // The same to a caller who sees the shares and not the cell.
        ensures told { IfOk result (λ answer. WasRun shares.old shares.new command.now answer) }
        ensures not_told { OnErr result (shares.new ≡ shares.old) }
        ensures refused { IfErr result (IsSetRefusal command.now.meaning) }
    {
        if !self.is_in_step(shares) {
            return Err(Refusal::OutOfStep);
        }
        if self.total.runs >= self.max_runs {
            return Err(Refusal::Spent);
        }
        let found = self.found();
        let (reply, own) = take_step(
            rt,
            self.alloc,
            &mut self.sorted_set,
            &mut self.share,
            log,
            command,
        )?;
        count_run(&mut self.total, &mut self.tallies, shares, own);
        Ok(Answer::new(command, self.place, reply, found, own))
    }

    /// Answers a command that reads, where the set can answer it as it stands: so the cell may be
    /// behind a lock that other readers share. None for a command that changes sets, and where the
    /// set's column isn't ready for a range.
    ///
    /// # Errors
    ///
    /// [`Refusal::OutOfStep`] exactly where the cell and the pass's shares tell different numbers,
    /// then [`Refusal::NoMemory`].
    pub fn ready<'c>(
        &self,
        command: &'c Command<A>,
        shares: &Shares,
    ) -> Option<Result<Answer<'c, A>, Refusal>>
        requires keyed { IsSome (key_of command.now.meaning) }
        ensures some { IsSome result ↔ IsReadyFor self.now.sorted_set.column command.now.meaning }
        ensures read { IfSome result (λ read. MatchResult read
            (λ answer. HasRead self.now shares.now command.now answer)
            (λ refusal. HasNoReading refusal self.now shares.now)) }
    {
        let reply = self.sorted_set.ready(command)?;
        Some(self.answer_of(command, shares, reply))
    }

    /// As `ready`, but none too for a command that had better be run: it lists a window for which `ready` would read
    /// many rows and later commands few after a run, and a run is to be had. That is a hint: no reply depends on it. So
    /// only a listing by LIMIT that `ready` would answer is run.
    pub fn read_few<'c>(
        &self,
        command: &'c Command<A>,
        shares: &Shares,
    ) -> Option<Result<Answer<'c, A>, Refusal>>
        requires keyed { IsSome (key_of command.now.meaning) }
        ensures ready { IsSome result → IsReadyFor self.now.sorted_set.column command.now.meaning }
        ensures run { IfNone result (IsReadyFor self.now.sorted_set.column command.now.meaning
            → ListsWindow self.now.sorted_set.column command.now.meaning
            × runs_of self.now.tallies < self.now.max_runs) }
        ensures read { IfSome result (λ read. MatchResult read
            (λ answer. HasRead self.now shares.now command.now answer)
            (λ refusal. HasNoReading refusal self.now shares.now)) }
    {
        let reply = if self.total.runs < self.max_runs {
            self.sorted_set.ready_by_few(command)?
        } else {
            self.sorted_set.ready(command)?
        };
        Some(self.answer_of(command, shares, reply))
    }

    /// The answer to a command that reads, from the set's reply as it stands.
    fn answer_of<'c>(
        &self,
        command: &'c Command<A>,
        shares: &Shares,
        reply: Result<Reply<A>, AllocError>,
    ) -> Result<Answer<'c, A>, Refusal>
        requires reply { IfOk reply (λ reply. step self.now.sorted_set.members command.now.meaning
            ≡ Some (self.now.sorted_set.members, response_of reply)) }
        ensures read { MatchResult result
            (λ answer. HasRead self.now shares.now command.now answer)
            (λ refusal. HasNoReading refusal self.now shares.now) }
    {
        if !self.is_in_step(shares) {
            return Err(Refusal::OutOfStep);
        }
        match reply {
            Err(_) => Err(Refusal::NoMemory),
            Ok(reply) => {
                let own = OwnCounts::none();
                Ok(Answer::new(command, self.place, reply, self.found(), own))
            }
        }
    }

    /// The log's number of the last record that was appended for the set's changes, 0 where there is none: what an answer
    /// may tell of.
    pub(crate) fn last_record(&self) -> u64 {
        self.share.last()
    }

    /// A law: what holds of every cell whose lock is free. The rows of its column are those of its members, and each
    /// pivot parts the rows with smaller scores from the others. The body changes nothing.
    pub fn whole(&self)
        ensures whole { CellIsWhole self.now }
        ensures content { Holds self.now.sorted_set.column (pairs self.now.sorted_set.members) }
        ensures pivots { ObeysPivots self.now.sorted_set.column.pivots
            self.now.sorted_set.column.rows }
    {
        let _pivots = self.sorted_set.column().pivot_list();
    }

    /// Whether the cell and a pass's shares tell the same numbers. Public only for `table_lifetime`.
    pub fn is_in_step(&self, shares: &Shares) -> bool
        ensures { IsTrue result ↔ InStep self.now shares.now }
    {
        self.place == shares.place
            && self.opened == shares.opened
            && match self.tallies.get(shares.pass) {
                Some(tally) => *tally == shares.tally,
                None => false,
            }
    }

    /// The counts that a command finds.
    fn found(&self) -> Counts
        ensures { result ≡ counts_of self.now }
    {
        Counts {
            opened: self.opened,
            added: self.total.added,
            removed: self.total.removed,
        }
    }
}

/// Counts a run for the cell and for the pass.
fn count_run<A: Allocator>(
    total: &mut Tally,
    tallies: &mut Vec<Tally, A>,
    shares: &mut Shares,
    own: OwnCounts,
)
    requires within { shares.old.pass < length tallies.old.items }
    requires total { TallyHasRoom total.old own }
    requires shares { TallyHasRoom shares.old.tally own }
    ensures total { total.new ≡ tally_after total.old own }
    ensures tallies { tallies.new.items
        ≡ set tallies.old.items shares.old.pass (tally_after shares.old.tally own) }
    ensures shares { shares.new ≡ share_after_run shares.old own }
{
    let tally = shares.tally.after(own);
    *total = total.after(own);
    tallies[shares.pass] = tally;
    shares.tally = tally;
}
