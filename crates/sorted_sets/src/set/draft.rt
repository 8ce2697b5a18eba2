//! A change of a set in the making: new members go last among the entries, and new scores wait in
//! their slots.
ghost use Rattle.std.specs.Prelude.{◌≡◌, ℕ, ◌<◌, ◌≤◌, ◌+◌, ◌^◌, ◌++◌, ◌∷◌, true, None, Some, [], length, slice_get, take, List, OnOk, IfOk};
ghost use Rattle.sorted_sets.specs.NamesTouchedByPlan.{IsLed, mention, mentions, noted_places};
ghost use Rattle.std.specs.FinMap as map;
ghost use Rattle.sorted_sets.specs.declared.set.members_with_staged_scores.ScoreSlot.{ScoreSlot as SlotType};
ghost use Rattle.zset_core.specs.Semantics.{outcome_of, counted, put_one, put_all, count_all};
ghost use Rattle.zset_commands.specs.MeaningOfForm.{given_pairs};
ghost use Rattle.zset_core.specs.RowEdits.{Notes};
ghost use Rattle.sorted_sets.specs.MembersWithStagedScores.{Entry, current_score, staged_score, rows_by, members_by, name_at, names_at, slot_at, slots, ScoresAreSettled, IsWaiting, Grows};

use crate::set::members_with_staged_scores::{
    MemberMap, ScoreSlot, discard_staged, find_slot, share_name,
};
use short_bytes::ShortBytes;
use std::alloc::{AllocError, Allocator};
use std::hash::BuildHasher;
use zset_commands::{Flags, GivenPairs};
use zset_core::{Edits, Outcome};

/// What a command has staged in a set so far.
#[derive(Drop)]
pub struct Draft<A: Allocator + Copy> {
    alloc: A,
    /// How many entries stand whatever becomes of the draft. New members stand behind them.
    pub kept: usize,
    /// How many of the new members were named before any that was there. Their places are known by it.
    pub leading: usize,
    /// The places of the members that were named from then on, which alone may get another score.
    pub touched: Vec<usize, A>,
    /// How many of `touched`, from its start, are places of members that move and do not lead, each once.
    pub moved: usize,
    /// The rows that come into the column and that leave it.
    pub edits: Edits<A>,
}

impl<A: Allocator + Copy> Draft<A> {
    /// Nothing is staged behind the entries that stand.
    pub fn new(alloc: A, kept: usize) -> Self
        ensures kept { result.kept ≡ kept }
        ensures leading { result.leading ≡ 0 }
        ensures touched { result.touched.items ≡ [] }
        ensures moved { result.moved ≡ 0 }
        ensures coming { result.edits.coming.items ≡ [] }
        ensures leaving { result.edits.leaving.items ≡ [] }
    {
        Draft {
            alloc,
            kept,
            leading: 0,
            touched: Vec::new(alloc),
            moved: 0,
            edits: Edits::none(alloc),
        }
    }

    /// Notes the place of a new member, the last there is. While no other place was noted it leads.
    fn note_new(&mut self, place: usize) -> Result<(), AllocError>
        requires led { IsLed self.old place }
        requires small { place < 2 ^ 63 }
        ensures noted { OnOk result (noted_places self.new ≡ noted_places self.old ++ place ∷ []) }
        ensures led { OnOk result (IsLed self.new (place + 1)) }
        ensures waiting { (entries : List Entry) → place < length entries
            → IsWaiting self.old.touched.items entries → IsWaiting self.new.touched.items entries }
        ensures kept { self.new.kept ≡ self.old.kept }
        ensures edits { self.new.edits ≡ self.old.edits }
    {
        if self.touched.is_empty() {
            self.leading += 1;
        } else {
            self.touched.push(place)?;
        }
        Ok(())
    }

    /// Stages one pair, with the rows by which it changes the column.
    pub fn stage_one<H: BuildHasher>(
        &mut self,
        members: &mut MemberMap<H, A>,
        flags: Flags,
        score: i64,
        member: &[u8],
    ) -> Result<Outcome, AllocError>
        requires waiting { IsWaiting self.old.touched.items members.old.entries }
        requires led { IsLed self.old (length members.old.entries) }
        ensures outcome { IfOk result
            (λ what. what ≡ outcome_of flags
            (map.get (members_by staged_score members.old.entries) member.now) score) }
        ensures staged { OnOk result (members_by staged_score members.new.entries
            ≡ put_one flags (members_by staged_score members.old.entries) member.now score) }
        ensures edits { IfOk result
            (λ what. Notes (counted true what) (members_by staged_score members.old.entries)
            (members_by staged_score members.new.entries) self.old.edits self.new.edits) }
        ensures grows { Grows members.old.entries members.new.entries }
        ensures waiting { IsWaiting self.new.touched.items members.new.entries }
        ensures kept { self.new.kept ≡ self.old.kept }
        ensures led { OnOk result (IsLed self.new (length members.new.entries)) }
        ensures named { OnOk result (names_at members.new.entries (noted_places self.new)
            ≡ names_at members.old.entries (noted_places self.old)
            ++ mention flags (members_by staged_score members.old.entries) member.now) }
    {
        match find_slot(members, member) {
            None => {
                let what = Outcome::of(flags, None, score);
                if what == Outcome::Added {
                    let place = members.len();
                    let name = put_new(self.alloc, members, member, score)?;
                    self.edits.add(score, name)?;
                    self.note_new(place)?;
                }
                Ok(what)
            }
            Some((place, slot)) => {
                let what = Outcome::of(flags, Some(slot.staged), score);
                if what == Outcome::Changed {
                    let before = share_name(members, place)?;
                    let after = share_name(members, place)?;
                    put_staged(members, &mut self.touched, place, score)?;
                    self.edits.take(slot.staged, before)?;
                    self.edits.add(score, after)?;
                } else {
                    self.touched.push(place)?;
                }
                Ok(what)
            }
        }
    }

    /// Stages each pair in turn: a score, and the second of two arguments as its member. Gives what
    /// is counted in the reply.
    pub fn stage_all<H: BuildHasher>(
        &mut self,
        members: &mut MemberMap<H, A>,
        flags: Flags,
        changed: bool,
        pairs: &GivenPairs<A>,
    ) -> Result<u64, AllocError>
        requires waiting { IsWaiting self.old.touched.items members.old.entries }
        requires led { IsLed self.old (length members.old.entries) }
        ensures count { IfOk result (λ n. n
            ≡ count_all flags changed (members_by staged_score members.old.entries)
            (given_pairs pairs.now)) }
        ensures few { IfOk result (λ n. n ≤ length pairs.now.scores.now) }
        ensures staged { OnOk result (members_by staged_score members.new.entries
            ≡ put_all flags (members_by staged_score members.old.entries)
            (given_pairs pairs.now)) }
        ensures edits { OnOk result
            (Notes (count_all flags true (members_by staged_score members.old.entries) (given_pairs pairs.now))
            (members_by staged_score members.old.entries)
            (members_by staged_score members.new.entries) self.old.edits self.new.edits) }
        ensures grows { Grows members.old.entries members.new.entries }
        ensures waiting { IsWaiting self.new.touched.items members.new.entries }
        ensures kept { self.new.kept ≡ self.old.kept }
        ensures led { OnOk result (IsLed self.new (length members.new.entries)) }
        ensures named { OnOk result (names_at members.new.entries (noted_places self.new)
            ≡ names_at members.old.entries (noted_places self.old)
            ++ mentions flags (members_by staged_score members.old.entries) (given_pairs pairs.now)) }
    {
        let mut count: u64 = 0;
        for (index, score) in pairs.scores.iter().enumerate() {
            let member = pairs.arguments[2 * index + 1].as_slice();
            let what = self.stage_one(members, flags, *score, member)?;
            count += what.counted_in(changed);
        }
        Ok(count)
    }

    /// Discards the draft: the entries become what they were before it. It takes no memory.
    pub fn roll_back<H: BuildHasher>(&self, members: &mut MemberMap<H, A>)
        requires { IsWaiting self.now.touched.items members.old.entries }
        ensures current { rows_by current_score members.new.entries
            ≡ take self.now.kept (rows_by current_score members.old.entries) }
        ensures settled { ScoresAreSettled members.new.entries }
    {
        discard_staged(members, self.touched.as_slice());
        members.truncate(self.kept);
    }
}

/// A new member goes last. Gives it once more, for its row.
fn put_new<H: BuildHasher, A: Allocator + Copy>(
    alloc: A,
    members: &mut MemberMap<H, A>,
    member: &[u8],
    score: i64,
) -> Result<ShortBytes<A>, AllocError>
    requires absent { slot_at members.old.entries member.now ≡ None }
    ensures name { IfOk result (λ name. name ≡ member.now) }
    ensures staged { OnOk result (members_by staged_score members.new.entries
        ≡ map.insert (members_by staged_score members.old.entries) member.now score) }
    ensures grows { Grows members.old.entries members.new.entries }
    ensures waiting { (places : List ℕ) → IsWaiting places members.old.entries
        → IsWaiting places members.new.entries }
    ensures longer { OnOk result (length members.new.entries ≡ length members.old.entries + 1) }
    ensures place { OnOk result (name_at members.new.entries (length members.old.entries) ≡ member.now) }
    ensures names { OnOk result ((p : ℕ) → p < length members.old.entries
        → name_at members.new.entries p ≡ name_at members.old.entries p) }
{
    let key = ShortBytes::from_slice(alloc, member)?;
    let name = key.share()?;
    let slot = ScoreSlot {
        current: score,
        staged: score,
    };
    members.insert(key, slot)?;
    Ok(name)
}

/// A member that stands at a place gets another score.
fn put_staged<H: BuildHasher, A: Allocator + Copy>(
    members: &mut MemberMap<H, A>,
    touched: &mut Vec<usize, A>,
    place: usize,
    score: i64,
) -> Result<(), AllocError>
    requires within { place < length members.old.entries }
    requires waiting { IsWaiting touched.old.items members.old.entries }
    ensures staged { OnOk result ((q : List ℕ) (slot : SlotType)
        → slice_get (slots members.old.entries) place ≡ Some (q, slot)
        → members_by staged_score members.new.entries
        ≡ map.insert (members_by staged_score members.old.entries) q score) }
    ensures grows { Grows members.old.entries members.new.entries }
    ensures waiting { IsWaiting touched.new.items members.new.entries }
    ensures noted { OnOk result (touched.new.items ≡ touched.old.items ++ place ∷ []) }
    ensures names { (places : List ℕ) → names_at members.new.entries places ≡ names_at members.old.entries places }
    ensures len { length members.new.entries ≡ length members.old.entries }
{
    let _count = members.len();
    let current = members[place].current;
    touched.push(place)?;
    members[place] = ScoreSlot {
        current,
        staged: score,
    };
    Ok(())
}
