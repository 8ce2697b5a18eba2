//! What is prepared in a set, and how the plan for it is made.
ghost use Rattle.std.specs.Prelude.{◌≡◌, ◌+◌, ◌-◌, ◌<◌, ◌≤◌, ◌∷◌, [], true, max, length, take, pos, IfOk, IfErr, OnOk, OnErr};
ghost use Rattle.std.specs.FinMap as map;
ghost use Rattle.resp_wire.specs.Response.{Integer, response_of};
ghost use Rattle.sorted_sets.specs.CommandEffectsOnColumn.{MakesReady, MakesRoom, increase_edits};
ghost use Rattle.zset_core.specs.Semantics.{counted, outcome_of, put_one, put_all, count_all, remove_all, increase, changed_by};
ghost use Rattle.zset_commands.specs.AbstractCommand.{range_of_change};
ghost use Rattle.resp_wire.specs.RequestEncoding.{most_arguments};
ghost use Rattle.zset_commands.specs.MeaningOfForm.{change_of, given_pairs, IsWholeChange};
ghost use Rattle.ripple_column.specs.Content.{Holds, SameContent};
ghost use Rattle.zset_core.specs.RowEdits.{most_edits};
ghost use Rattle.sorted_sets.specs.MembersWithStagedScores.{current_score, staged_score, rows_by, members_by, ScoresAreSettled, IsBack, IsWaiting, Grows};
ghost use Rattle.zset_core.specs.SortedSet.{names_of, pairs};
ghost use Rattle.zset_commands.specs.RequestLimits.{names_of_change};
ghost use Rattle.sorted_sets.specs.Plan.{NeedsAtMost, Prepares, Plans, Moves, MovesTo, IsCounted, moved_places, outline_of, range_of, count_coming, count_leaving};
ghost use Rattle.sorted_sets.specs.declared.set.plan.Plan.TheVariants.{Scores, Removal};
ghost use Rattle.sorted_sets.specs.SetViewAndInvariant.{HasRoomForPlan, IsReadyForPlan};
ghost use Rattle.zset_commands.specs.Refusal.{IsRefused};

use crate::score_and_count_replies::increase_reply;
use crate::set::change_counts::{Outline, outline_staged};
use crate::set::draft::Draft;
use crate::set::member_removal::plan_remove;
use crate::set::members_with_staged_scores::{MemberMap, score_of};
use crate::set::range_removal::plan_range;
use resp_wire::{Bytes, Reply};
use ripple_column::Column;
use score_bounds::Range;
use std::alloc::{AllocError, Allocator};
use std::collections::BTreeSet;
use std::hash::BuildHasher;
use zset_commands::{ChangeForm, Flags, GivenPairs, Refusal};
use zset_core::{Outcome, is_barred, sum};

/// A range whose members leave. The column's rows tell which these are: from the first place on and before the second.
#[derive(Clone, Copy)]
pub struct LeavingRange {
    pub range: Range,
    pub from: usize,
    pub to: usize,
}

/// Members come in or get other scores.
#[derive(Drop)]
pub struct ScoresPlan<A: Allocator + Copy> {
    pub draft: Draft<A>,
    pub reply: Reply<A>,
    pub outline: Outline,
}

/// Members leave by their names.
#[derive(Drop)]
pub struct RemovalPlan<A: Allocator + Copy> {
    /// Their places, each once.
    pub places: BTreeSet<usize, A>,
    /// The same places in the order in which the members are first named.
    pub order: Vec<usize, A>,
    pub reply: Reply<A>,
    pub outline: Outline,
}

/// The members of a range leave.
#[derive(Drop)]
pub struct RangeRemovalPlan<A: Allocator + Copy> {
    pub leaving: LeavingRange,
    pub reply: Reply<A>,
    pub outline: Outline,
}

/// What a commit does to a set.
#[derive(Drop)]
pub enum Plan<A: Allocator + Copy> {
    Scores(ScoresPlan<A>),
    Removal(RemovalPlan<A>),
    RangeRemoval(RangeRemovalPlan<A>),
}

impl<A: Allocator + Copy> Plan<A> {
    /// What it does in numbers.
    pub fn outline(&self) -> Outline
        ensures { result ≡ outline_of self.now }
    {
        match self {
            Plan::Scores(plan) => plan.outline,
            Plan::Removal(plan) => plan.outline,
            Plan::RangeRemoval(plan) => plan.outline,
        }
    }
}

/// The plan of a ZADD.
pub fn plan_add<H: BuildHasher, A: Allocator + Copy>(
    alloc: A,
    members: &mut MemberMap<H, A>,
    flags: Flags,
    changed: bool,
    pairs: &GivenPairs<A>,
) -> Result<ScoresPlan<A>, AllocError>
    requires settled { ScoresAreSettled members.old.entries }
    requires few { length pairs.now.scores.now ≤ most_edits }
    ensures ok { IfOk result (λ plan. Prepares members.old.entries members.new.entries (Scores plan)
        (put_all flags (members_by current_score members.old.entries) (given_pairs pairs.now))
        (Integer (pos (count_all flags changed (members_by current_score members.old.entries)
        (given_pairs pairs.now))))) }
    ensures rows { IfOk result
        (λ plan. NeedsAtMost (count_all flags true (members_by current_score members.old.entries)
        (given_pairs pairs.now)) (Scores plan)) }
    ensures moved { IfOk result (λ plan. MovesTo members.old.entries members.new.entries (Scores plan)
        (names_of (given_pairs pairs.now))
        (put_all flags (members_by current_score members.old.entries) (given_pairs pairs.now))) }
    ensures err { OnErr result (IsBack members.old.entries members.new.entries) }
{
    let mut draft = Draft::new(alloc, members.len());
    match draft.stage_all(members, flags, changed, pairs) {
        Ok(count) => {
            draft.settle_moved(members);
            let outline = outline_staged(members, &draft);
            Ok(ScoresPlan {
                draft,
                reply: Reply::Int(count as i64),
                outline,
            })
        }
        Err(refused) => {
            draft.roll_back(members);
            Err(refused)
        }
    }
}

/// The plan that gives a member a score, as ZADD with INCR does once the sum is formed, with this reply.
fn plan_score<H: BuildHasher, A: Allocator + Copy>(
    alloc: A,
    members: &mut MemberMap<H, A>,
    flags: Flags,
    score: i64,
    member: &[u8],
    reply: Reply<A>,
) -> Result<ScoresPlan<A>, AllocError>
    requires { ScoresAreSettled members.old.entries }
    ensures ok { IfOk result (λ plan. Prepares members.old.entries members.new.entries (Scores plan)
        (put_one flags (members_by current_score members.old.entries) member.now score)
        (response_of reply)) }
    ensures rows { IfOk result
        (λ plan. NeedsAtMost (counted true (outcome_of flags
        (map.get (members_by current_score members.old.entries) member.now) score)) (Scores plan)) }
    ensures moved { IfOk result (λ plan. MovesTo members.old.entries members.new.entries (Scores plan)
        (member.now ∷ [])
        (put_one flags (members_by current_score members.old.entries) member.now score)) }
    ensures err { OnErr result (IsBack members.old.entries members.new.entries) }
{
    let mut draft = Draft::new(alloc, members.len());
    match draft.stage_one(members, flags, score, member) {
        Ok(_) => {
            draft.settle_moved(members);
            let outline = outline_staged(members, &draft);
            Ok(ScoresPlan {
                draft,
                reply,
                outline,
            })
        }
        Err(refused) => {
            draft.roll_back(members);
            Err(refused)
        }
    }
}

/// The plan that changes nothing.
fn plan_nothing<H: BuildHasher, A: Allocator + Copy>(
    alloc: A,
    members: &MemberMap<H, A>,
    reply: Reply<A>,
) -> ScoresPlan<A>
    requires { ScoresAreSettled members.now.entries }
    ensures plan { Prepares members.now.entries members.now.entries (Scores result)
        (members_by current_score members.now.entries) (response_of reply) }
    ensures rows { NeedsAtMost 0 (Scores result) }
    ensures counted { IsCounted result.draft members.now.entries }
    ensures moved { moved_places result.draft ≡ [] }
{
    ScoresPlan {
        draft: Draft::new(alloc, members.len()),
        reply,
        outline: Outline {
            added: 0,
            removed: 0,
            changed: false,
        },
    }
}

/// The plan of a ZADD with INCR.
pub fn plan_increase<H: BuildHasher, A: Allocator + Copy>(
    alloc: A,
    members: &mut MemberMap<H, A>,
    flags: Flags,
    given: i64,
    member: &[u8],
) -> Result<ScoresPlan<A>, Refusal>
    requires { ScoresAreSettled members.old.entries }
    ensures ok { IfOk result (λ plan. Plans members.old.entries members.new.entries (Scores plan)
        (increase flags (members_by current_score members.old.entries) member.now given)) }
    ensures rows { IfOk result
        (λ plan. NeedsAtMost (increase_edits flags (members_by current_score members.old.entries) member.now
        given) (Scores plan)) }
    ensures moved { IfOk result (λ plan. Moves members.old.entries members.new.entries (Scores plan) (member.now ∷ [])
        (increase flags (members_by current_score members.old.entries) member.now given)) }
    ensures err { OnErr result (IsBack members.old.entries members.new.entries) }
    ensures refused { IfErr result
        (λ refusal. IsRefused refusal
        (increase flags (members_by current_score members.old.entries) member.now given)) }
{
    let old = score_of(members, member);
    if is_barred(flags, old) {
        return Ok(plan_nothing(alloc, members, Reply::Null));
    }
    match sum(old, given) {
        None => Err(Refusal::ScoreOverflow),
        Some(score) => {
            let reply = increase_reply(alloc, Outcome::of(flags, old, score), score)?;
            Ok(plan_score(alloc, members, flags, score, member, reply)?)
        }
    }
}

/// Makes room in the column for the rows of a plan of scores. Where it is refused the entries are what they
/// were before the plan, and the column holds what it held.
fn make_room<H: BuildHasher, A: Allocator + Copy>(
    members: &mut MemberMap<H, A>,
    column: &mut Column<A>,
    plan: ScoresPlan<A>,
) -> Result<Plan<A>, AllocError>
    requires waiting { IsWaiting plan.draft.touched.items members.old.entries }
    requires few { NeedsAtMost most_edits (Scores plan) }
    ensures content { SameContent column.old column.new }
    ensures ok { IfOk result (λ kept. (kept ≡ Scores plan) × (members.new ≡ members.old)) }
    ensures room { OnOk result (HasRoomForPlan column.new (Scores plan)) }
    ensures column { MakesRoom (max (count_coming (Scores plan)) (count_leaving (Scores plan)))
        column.old column.new }
    ensures current { OnErr result (rows_by current_score members.new.entries
        ≡ take plan.draft.kept (rows_by current_score members.old.entries)) }
    ensures settled { OnErr result (ScoresAreSettled members.new.entries) }
{
    let edits = &plan.draft.edits;
    match column.reserve_write(edits.coming.len().max(edits.leaving.len())) {
        Ok(()) => Ok(Plan::Scores(plan)),
        Err(refused) => {
            plan.draft.roll_back(members);
            Err(refused)
        }
    }
}

/// Makes room in the column for the rows of members that leave. Where it is refused the column holds what it held.
fn make_room_for_removal<A: Allocator + Copy>(
    column: &mut Column<A>,
    plan: RemovalPlan<A>,
) -> Result<Plan<A>, AllocError>
    requires few { NeedsAtMost most_edits (Removal plan) }
    ensures content { SameContent column.old column.new }
    ensures ok { IfOk result (λ kept. kept ≡ Removal plan) }
    ensures room { OnOk result (HasRoomForPlan column.new (Removal plan)) }
    ensures column { MakesRoom (max (count_coming (Removal plan)) (count_leaving (Removal plan)))
        column.old column.new }
{
    match column.reserve_write(plan.places.len()) {
        Ok(()) => Ok(Plan::Removal(plan)),
        Err(refused) => Err(refused),
    }
}

/// The plan of a change that stands beside its command's words, and the column made ready for it. Where it is refused the
/// entries are what they were, and the column holds what it held.
pub fn make_plan<H: BuildHasher, A: Allocator + Copy>(
    alloc: A,
    members: &mut MemberMap<H, A>,
    column: &mut Column<A>,
    words: &[Bytes<A>],
    change: &ChangeForm<A>,
) -> Result<Plan<A>, Refusal>
    requires settled { ScoresAreSettled members.old.entries }
    requires whole { IsWholeChange words.now change.now }
    requires few { length words.now ≤ most_arguments }
    requires content { Holds column.old (pairs (members_by current_score members.old.entries)) }
    ensures ok { IfOk result (λ plan. Plans members.old.entries members.new.entries plan
        (changed_by (members_by current_score members.old.entries) (change_of words.now change.now))) }
    ensures ready { IfOk result (λ plan. IsReadyForPlan column.new plan) }
    ensures range { IfOk result (λ plan. range_of plan ≡ range_of_change (change_of words.now change.now)) }
    ensures moved { IfOk result (λ plan. Moves members.old.entries members.new.entries plan
        (names_of_change (change_of words.now change.now))
        (changed_by (members_by current_score members.old.entries) (change_of words.now change.now))) }
    ensures content { SameContent column.old column.new }
    ensures column { MakesReady (change_of words.now change.now)
        (members_by current_score members.old.entries) result column.old column.new }
    ensures err { OnErr result (IsBack members.old.entries members.new.entries) }
    ensures refused { IfErr result
        (λ refusal. IsRefused refusal
        (changed_by (members_by current_score members.old.entries) (change_of words.now change.now))) }
{
    match change {
        ChangeForm::Add {
            flags,
            changed,
            first,
            scores,
        } => {
            let pairs = GivenPairs {
                scores: scores.as_slice(),
                arguments: &words[*first..],
            };
            let plan = plan_add(alloc, members, *flags, *changed, &pairs)?;
            Ok(make_room(members, column, plan)?)
        }
        ChangeForm::Increase {
            flags,
            given,
            member,
        } => {
            let member = words[*member].as_slice();
            let plan = plan_increase(alloc, members, *flags, *given, member)?;
            Ok(make_room(members, column, plan)?)
        }
        ChangeForm::Remove => {
            let plan = plan_remove(alloc, members, words.split_at(2).1)?;
            Ok(make_room_for_removal(column, plan)?)
        }
        ChangeForm::RemoveRange { range } => {
            Ok(Plan::RangeRemoval(plan_range(members, column, range)?))
        }
    }
}
