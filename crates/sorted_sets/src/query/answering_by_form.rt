//! Answers to questions of a set.
ghost use Rattle.std.specs.Prelude.{◌≡◌, ◌≤◌, ◌⊎◌, ℤ, pos, Bool, Some, None, false, length, filter, slice_get, slice_range, IfOk, IfNone, IfSome, IsSome, OnErr, OnOk};
ghost use Rattle.crack_kernel.specs.RowBag.{SameBag};
ghost use Rattle.resp_wire.specs.Response.{Array, Integer, response_of};
ghost use Rattle.ripple_column.specs.Content.{Holds, IsUnchanged, SameContent};
ghost use Rattle.sorted_sets.specs.CommandEffectsOnColumn.{Reads};
ghost use Rattle.sorted_sets.specs.AnswerableAsItStands.{IsReady, ListsAWindow};
ghost use Rattle.zset_commands.specs.MeaningOfForm.{question_of, IsWholeQuestion};
ghost use Rattle.zset_core.specs.SortedSet.{Members, listing, pairs};
ghost use Rattle.zset_core.specs.Semantics.{answer, elements, apply_limit};
ghost use Rattle.sorted_sets.specs.MembersWithStagedScores.{current_score, members_by, ScoresAreSettled, same_bytes};

use crate::query::listing::elements_of;
use crate::query::window::{
    is_wide, least_rows, piece_end, piece_start, ranks_of, select_listed, window_of,
};
use crate::score_and_count_replies::{count_reply, score_reply};
use crate::set::members_with_staged_scores::{MemberMap, card_of, score_of};
use resp_wire::{Bytes, Reply};
use ripple_column::Column;
use std::alloc::{AllocError, Allocator};
use std::hash::BuildHasher;
use zset_commands::{Limit, QuestionForm};

/// The reply to a question that stands beside its command's words.
pub fn answer_from<H: BuildHasher, A: Allocator + Copy>(
    alloc: A,
    members: &MemberMap<H, A>,
    column: &mut Column<A>,
    words: &[Bytes<A>],
    question: &QuestionForm,
) -> Result<Reply<A>, AllocError>
    requires whole { IsWholeQuestion words.now question.now }
    requires content { Holds column.old (pairs (members_by current_score members.now.entries)) }
    ensures content { SameContent column.old column.new }
    ensures ready { OnOk result (IsReady column.new (question_of words.now question.now)) }
    ensures column { OnOk result (Reads (question_of words.now question.now) column.old column.new) }
    ensures refused { OnErr result (IsUnchanged column.old column.new
        ⊎ Reads (question_of words.now question.now) column.old column.new) }
    ensures reply { IfOk result (λ reply. response_of reply
        ≡ answer (members_by current_score members.now.entries) (question_of words.now question.now)) }
{
    match question {
        QuestionForm::Score => score_reply(alloc, score_of(members, words[2].as_slice())),
        QuestionForm::Card => Ok(count_reply(card_of(members))),
        QuestionForm::Count { range } => {
            let rows = column.select(range)?;
            Ok(count_rows(column, rows))
        }
        QuestionForm::ListRange {
            range,
            with_scores,
            limit,
        } => {
            let rows = select_listed(column, range, limit)?;
            list_rows(alloc, column, rows, limit, *with_scores)
        }
    }
}

/// The reply to a question, where the column need not change for it. Where many rows may not be read, it is none too
/// for a window that `answer_from` would let be listed by few.
pub fn ready_from<H: BuildHasher, A: Allocator + Copy>(
    alloc: A,
    members: &MemberMap<H, A>,
    column: &Column<A>,
    words: &[Bytes<A>],
    question: &QuestionForm,
    may_read_many: bool,
) -> Option<Result<Reply<A>, AllocError>>
    requires whole { IsWholeQuestion words.now question.now }
    requires content { Holds column.now (pairs (members_by current_score members.now.entries)) }
    ensures reply { IfSome result (λ answered. IfOk answered (λ reply. response_of reply
        ≡ answer (members_by current_score members.now.entries) (question_of words.now question.now))) }
    ensures ready { IsSome result → IsReady column.now (question_of words.now question.now) }
    ensures none { IfNone result (IsReady column.now (question_of words.now question.now)
        → (may_read_many ≡ false) × ListsAWindow column.now (question_of words.now question.now)) }
{
    match question {
        QuestionForm::Score => Some(score_reply(alloc, score_of(members, words[2].as_slice()))),
        QuestionForm::Card => Some(Ok(count_reply(card_of(members)))),
        QuestionForm::Count { range } => {
            let rows = column.ready(range)?;
            Some(Ok(count_rows(column, rows)))
        }
        QuestionForm::ListRange {
            range,
            with_scores,
            limit,
        } => {
            let rows = column.ready(range)?;
            if !may_read_many && is_wide(column, rows, limit) {
                return None;
            }
            Some(list_rows(alloc, column, rows, limit, *with_scores))
        }
    }
}

/// The reply to ZCOUNT from the places of its range's rows: the first, and the one behind the last.
fn count_rows<A: Allocator + Copy>(column: &Column<A>, rows: (usize, usize)) -> Reply<A>
    requires order { rows.0 ≤ rows.1 }
    requires within { rows.1 ≤ length column.now.rows }
    ensures { (test : ℤ → Bool) (members : Members)
        → SameBag (slice_range column.now.rows rows.0 rows.1) (filter (λ p. test p.0) (pairs members))
        → response_of result ≡ Integer (pos (length (listing test members))) }
{
    count_reply(column.rows(rows.0, rows.1).len())
}

/// The reply to ZRANGEBYSCORE from the places of its range's rows: the first, and the one behind
/// the last. Only the pieces that the limit's window touches are looked into.
fn list_rows<A: Allocator + Copy>(
    alloc: A,
    column: &Column<A>,
    rows: (usize, usize),
    limit: &Option<Limit>,
    with_scores: bool,
) -> Result<Reply<A>, AllocError>
    requires order { rows.0 ≤ rows.1 }
    requires within { rows.1 ≤ length column.now.rows }
    ensures { IfOk result (λ reply. (test : ℤ → Bool) (members : Members)
        → SameBag (slice_range column.now.rows rows.0 rows.1) (filter (λ p. test p.0) (pairs members))
        → response_of reply ≡ Array (elements with_scores (apply_limit limit.now (listing test
        members)))) }
{
    let (from, to) = rows;
    let (start, end) = ranks_of(limit, to - from);
    if start == end {
        return Ok(Reply::List(elements_of(alloc, &[], with_scores)?));
    }
    let pivots = column.piece_list();
    let low = piece_start(pivots, from, from + start);
    let high = piece_end(pivots, to, from + end);
    let mut shown = least_rows(alloc, column.rows(low, high), from + end - low)?;
    let window = window_of(&mut shown, from + start - low, from + end - low);
    Ok(Reply::List(elements_of(alloc, window, with_scores)?))
}
