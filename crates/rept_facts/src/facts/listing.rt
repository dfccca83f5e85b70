//! The list of the rows that may write, in the order of their moments.

ghost use Rattle.rept_timeline.specs.Paths.{timeline};
ghost use Rattle.std.specs.Prelude.{◌≡◌, ◌∷◌, ◌++◌, [], ◌+◌, ◌^◌, ◌<◌, ◌≤◌, ℕ, length, true, false, Some, None, IsSome, set, slice_get};
ghost use Rattle.rept_alias.specs.Accesses.{call_hits};
ghost use Rattle.rept_facts.specs.State.{state_of, with_writing};
ghost use Rattle.rept_facts.specs.Inferring.{past, Grows, IsFitted, AreWritings, AreWritingsBefore, AreExact, IsUncut};
ghost use Rattle.rept_isa.specs.declared.row.StepRow.{StepRow};
ghost use Rattle.rept_report.specs.Reach.Reaching.{IsExtent};
ghost use Rattle.rept_report.specs.Timeline.{IsRowAt};
ghost use Rattle.rept_writing.specs.Hits.{AreInOrder, IsNextHitBelow, IsNextMeeting, IsPastHitFrom, IsSplitAt, IsFreeSince, IsFreeUntil};
ghost use Rattle.rept_writing.specs.declared.list.Writing.{Writing};

use super::CrashFacts;
use crate::rows::is_store;
use rept_alias::CallAccess;
use rept_isa::{StepRow, is_call};
use rept_reason::{RowRules, When};
use rept_span::Transfer;
use rept_versions::ByteFacts;
use rept_writing::Writing;

/// Whether an access has no address.
fn is_none(access: &CallAccess) -> bool
    ensures { result ≡ true → (a : ℕ) → call_hits access.now a ≡ false }
{
    access.first.is_none() && access.second.is_none()
}

impl<'a, B: ByteFacts, W: Transfer, R: RowRules> CrashFacts<'a, B, W, R> {
    /// The index of the first row from index k to before another one that may write the byte, in
    /// the list of those that may write.
    pub fn next_hit(&self, k: usize, end: usize, a: u32) -> Option<usize>
        ensures next { IsNextHitBelow self.now.work.writing k end a result }
        ensures few { length self.now.work.writing < 2 ^ 64 }
    {
        // for the proof alone
        let _count = self.writing.len();
        self.writing.next_hit(k, end, a)
    }

    /// The index of the first row from index k on in that list that may write the byte and may act
    /// between two numbers.
    pub fn next_meeting(&self, k: usize, m: u32, w: u32, a: u32) -> Option<usize>
        ensures next { IsNextMeeting self.now.work.writing k (record { from = m; to = w; address = a }) result }
        ensures few { length self.now.work.writing < 2 ^ 64 }
    {
        // for the proof alone
        let _count = self.writing.len();
        self.writing.next_meeting(k, m, w, a)
    }

    /// A number at which and after which no row of that list may act that stands at a lower number
    /// and may write the byte.
    pub fn free_since(&self, number: u32, a: u32) -> u32
        ensures { AreInOrder self.now.work.writing → IsFreeSince self.now.work.writing number a result }
    {
        self.writing.free_since(number, a)
    }

    /// A number before which no row of that list may act that stands at this one or a higher one
    /// and may write the byte.
    pub fn free_until(&self, number: u32, a: u32) -> u32
        ensures { AreInOrder self.now.work.writing → IsFreeUntil self.now.work.writing number a result }
    {
        self.writing.free_until(number, a)
    }

    /// The row that may write, at an index.
    fn writing_at(&self, k: usize) -> Writing
        requires { k < length self.now.work.writing }
        ensures { slice_get self.now.work.writing k ≡ Some result }
    {
        self.writing.at(k)
    }

    /// The index in that list after the last row from an index on before a moment that may write
    /// the byte, or that index.
    pub fn past_hit(&self, low: usize, point: u32, a: u32) -> usize
        requires { low ≤ length self.now.work.writing }
        ensures bound { result ≤ length self.now.work.writing }
        ensures past { AreInOrder self.now.work.writing → IsPastHitFrom self.now.work.writing low point a result }
    {
        self.writing.past_hit(low, point, a)
    }

    /// How many rows that list has.
    pub fn writing_count(&self) -> usize
        ensures { result ≡ length self.now.work.writing }
    {
        self.writing.len()
    }

    /// How many rows of that list stand at lower numbers.
    pub fn listed_before(&self, number: u32) -> usize
        ensures bound { result ≤ length self.now.work.writing }
        ensures split { AreInOrder self.now.work.writing → IsSplitAt self.now.work.writing number result }
    {
        self.writing.before(number)
    }

    /// Puts a row in the place of the one at an index of that list, if by the list that one may
    /// write many addresses.
    fn put_writing(&mut self, k: usize, writing: Writing) -> bool
        requires open { self.old.complete ≡ false }
        requires within { k < length self.old.work.writing }
        ensures put { result ≡ true → (state_of W.sets W.moves R.rules B.store self.new) ≡ with_writing (state_of W.sets W.moves R.rules B.store self.old) (set self.old.work.writing k writing) }
        ensures same { result ≡ false → (state_of W.sets W.moves R.rules B.store self.new) ≡ (state_of W.sets W.moves R.rules B.store self.old) }
    {
        self.writing.replace(k, writing)
    }

    /// Keeps that a row was put in the list anew.
    fn note_put(&mut self)
        ensures { self.new ≡ self.old }
    {
        self.is_freed = true;
        self.has_put = true;
    }

    /// Keeps that no row was since the store that is looked at.
    pub fn note_store(&mut self)
        ensures { self.new ≡ self.old }
    {
        self.is_freed = false;
    }

    /// Keeps that a pass over all rows begins.
    pub fn note_pass(&mut self)
        ensures { self.new ≡ self.old }
    {
        self.has_put = false;
    }

    /// Whether a row was put in the list anew since the last store of unknown address that was
    /// looked at: then bytes may be carried that weren't before.
    pub fn is_freed(&self) -> bool {
        self.is_freed
    }

    /// Whether a row was since the last pass over all rows began.
    pub fn has_put(&self) -> bool {
        self.has_put
    }

    /// Makes the rows of the list found by the byte again, where many were put in it anew.
    fn renew_index(&mut self)
        requires open { self.old.complete ≡ false }
        ensures { (state_of W.sets W.moves R.rules B.store self.new) ≡ (state_of W.sets W.moves R.rules B.store self.old) }
    {
        if self.writing.is_worn() {
            self.index_writing();
        }
    }

    /// An entry of that list: row i, which stands at a number and may write these bytes, with the
    /// numbers between which it may act.
    fn writing_of(&self, i: u32, row: &StepRow, at: u32, access: CallAccess) -> Writing
        requires row { (timeline self.now.paths).legs.row i ≡ Some row.now }
        ensures row { result.row ≡ i }
        ensures at { result.at ≡ at }
        ensures access { result.access ≡ access }
        ensures extent { IsExtent (timeline self.now.paths).moments i (record { from = result.from; to = result.to }) }
    {
        let extent = self.paths.extent(i);
        Writing {
            row: i,
            at,
            from: extent.from,
            to: extent.to,
            is_call: is_call(&row.instr),
            access,
        }
    }

    /// Puts the bytes that row i may write by all that is known by now in the list, where it may
    /// write many by the list.
    fn list_anew(&mut self, k: usize, i: u32, row: &StepRow)
        requires inside { i < (timeline self.old.paths).legs.count }
        requires row { (timeline self.old.paths).legs.row i ≡ Some row.now }
        requires listed { (w : Writing) → slice_get self.old.work.writing k ≡ Some w → w.row ≡ i }
        requires within { k < length self.old.work.writing }
        requires writings { AreWritings (state_of W.sets W.moves R.rules B.store self.old) }
        requires open { self.old.complete ≡ false }
        ensures grows { Grows (state_of W.sets W.moves R.rules B.store self.old) (state_of W.sets W.moves R.rules B.store self.new) }
        ensures uncut { IsUncut (state_of W.sets W.moves R.rules B.store self.old) → IsUncut (state_of W.sets W.moves R.rules B.store self.new) }
    {
        let access = self.access_now(i, row);
        let at = self.moment_at(i, When::Before);
        let put = self.put_writing(k, self.writing_of(i, row, at, access));
        if put {
            self.note_put();
            self.renew_index();
        }
    }

    /// Puts the bytes that row i may write in the list, for a store that may stand in the list or
    /// not. For another row, and in the first round, it does nothing.
    pub fn free(&mut self, i: u32, row: &StepRow)
        requires inside { i < (timeline self.old.paths).legs.count }
        requires row { (timeline self.old.paths).legs.row i ≡ Some row.now }
        requires writings { AreWritings (state_of W.sets W.moves R.rules B.store self.old) }
        requires open { self.old.complete ≡ false }
        ensures grows { Grows (state_of W.sets W.moves R.rules B.store self.old) (state_of W.sets W.moves R.rules B.store self.new) }
        ensures uncut { IsUncut (state_of W.sets W.moves R.rules B.store self.old) → IsUncut (state_of W.sets W.moves R.rules B.store self.new) }
    {
        let before = self.moment_at(i, When::Before);
        let k = self.listed_before(before);
        if !is_store(&row.instr) || self.is_first_round() || k >= self.writing_count() {
            return;
        }
        let listed = self.writing_at(k);
        if listed.row == i {
            self.list_anew(k, i, row);
        }
    }

    /// The row that may write, at an index, which stands at a moment.
    pub fn entry(&self, k: usize) -> Writing
        requires writings { AreWritings (state_of W.sets W.moves R.rules B.store self.now) }
        requires within { k < length self.now.work.writing }
        ensures found { slice_get self.now.work.writing k ≡ Some result }
        ensures there { IsSome ((timeline self.now.paths).legs.row result.row) }
        ensures early { result.at ≤ (timeline self.now.paths).moments.end }
    {
        // for the proof alone
        let _end = self.end();
        self.writing_at(k)
    }

    /// The number after that of the entry before an index in that list, or the first one.
    pub fn number_past(&self, k: usize) -> u32
        requires writings { AreWritings (state_of W.sets W.moves R.rules B.store self.now) }
        requires within { k ≤ length self.now.work.writing }
        ensures value { result ≡ past self.now.work.writing k }
    {
        // for the proof alone
        let _end = self.end();
        if k == 0 {
            return 0;
        }
        let number = self.entry(k - 1).at;
        number + 1
    }

    /// Takes all rows out of the list of those that may write.
    fn clear_writing(&mut self)
        requires open { self.old.complete ≡ false }
        ensures { (state_of W.sets W.moves R.rules B.store self.new) ≡ with_writing (state_of W.sets W.moves R.rules B.store self.old) [] }
    {
        self.writing.clear();
    }

    /// Adds a row to it.
    fn add_writing(&mut self, writing: Writing)
        requires open { self.old.complete ≡ false }
        requires room { length self.old.work.writing ≤ (timeline self.old.paths).moments.end }
        ensures { (state_of W.sets W.moves R.rules B.store self.new) ≡ with_writing (state_of W.sets W.moves R.rules B.store self.old) (self.old.work.writing ++ writing ∷ []) }
    {
        self.writing.add(writing);
    }

    /// Makes the rows of the list found by the byte that they may write.
    fn index_writing(&mut self)
        requires open { self.old.complete ≡ false }
        ensures { (state_of W.sets W.moves R.rules B.store self.new) ≡ (state_of W.sets W.moves R.rules B.store self.old) }
    {
        self.writing.index();
    }

    /// The row before which a moment lies, if there is one.
    pub fn row_at(&self, number: u32) -> Option<u32>
        ensures { IsRowAt (timeline self.now.paths) number result }
    {
        self.paths.row_at(number)
    }

    /// Adds the row before which a moment lies, if there is one and it may write, by the facts of
    /// which the sets are.
    fn list_at(&mut self, number: u32)
        requires open { self.old.complete ≡ false }
        requires inside { number ≤ (timeline self.old.paths).moments.end }
        requires room { length self.old.work.writing ≤ number }
        requires fitted { IsFitted (state_of W.sets W.moves R.rules B.store self.old) }
        requires before { AreWritingsBefore number self.old.work.writing (state_of W.sets W.moves R.rules B.store self.old) }
        ensures same { (state_of W.sets W.moves R.rules B.store self.new) ≡ with_writing (state_of W.sets W.moves R.rules B.store self.old) self.new.work.writing }
        ensures room { length self.new.work.writing ≤ number + 1 }
        ensures listed { AreWritingsBefore (number + 1) self.new.work.writing (state_of W.sets W.moves R.rules B.store self.old) }
    {
        match self.row_at(number) {
            None => {}
            Some(i) => self.list_row(number, i),
        }
    }

    /// Adds the row that leads from a point, if it may write.
    fn list_row(&mut self, number: u32, i: u32)
        requires open { self.old.complete ≡ false }
        requires inside { number ≤ (timeline self.old.paths).moments.end }
        requires row { IsRowAt (timeline self.old.paths) number (Some i) }
        requires room { length self.old.work.writing ≤ number }
        requires fitted { IsFitted (state_of W.sets W.moves R.rules B.store self.old) }
        requires before { AreWritingsBefore number self.old.work.writing (state_of W.sets W.moves R.rules B.store self.old) }
        ensures same { (state_of W.sets W.moves R.rules B.store self.new) ≡ with_writing (state_of W.sets W.moves R.rules B.store self.old) self.new.work.writing }
        ensures room { length self.new.work.writing ≤ number + 1 }
        ensures listed { AreWritingsBefore (number + 1) self.new.work.writing (state_of W.sets W.moves R.rules B.store self.old) }
    {
        match self.row(i) {
            None => {}
            Some(row) => self.list_there(number, i, &row),
        }
    }

    /// Adds this row, if it may write.
    fn list_there(&mut self, number: u32, i: u32, row: &StepRow)
        requires open { self.old.complete ≡ false }
        requires inside { number ≤ (timeline self.old.paths).moments.end }
        requires point { i < (timeline self.old.paths).legs.count }
        requires at { IsRowAt (timeline self.old.paths) number (Some i) }
        requires row { (timeline self.old.paths).legs.row i ≡ Some row.now }
        requires room { length self.old.work.writing ≤ number }
        requires fitted { IsFitted (state_of W.sets W.moves R.rules B.store self.old) }
        requires before { AreWritingsBefore number self.old.work.writing (state_of W.sets W.moves R.rules B.store self.old) }
        ensures same { (state_of W.sets W.moves R.rules B.store self.new) ≡ with_writing (state_of W.sets W.moves R.rules B.store self.old) self.new.work.writing }
        ensures room { length self.new.work.writing ≤ number + 1 }
        ensures listed { AreWritingsBefore (number + 1) self.new.work.writing (state_of W.sets W.moves R.rules B.store self.old) }
    {
        let access = self.access(i, row);
        if !is_none(&access) {
            self.add_writing(self.writing_of(i, row, number, access));
        }
    }

    /// Lists the rows that may write, by the facts of which the sets are.
    pub fn list_writing(&mut self)
        requires open { self.old.complete ≡ false }
        requires fitted { IsFitted (state_of W.sets W.moves R.rules B.store self.old) }
        ensures same { (state_of W.sets W.moves R.rules B.store self.new) ≡ with_writing (state_of W.sets W.moves R.rules B.store self.old) self.new.work.writing }
        ensures listed { AreWritings (state_of W.sets W.moves R.rules B.store self.new) }
        ensures exact { AreExact (state_of W.sets W.moves R.rules B.store self.new) }
    {
        self.held();
        let count = self.end() + 1;
        self.clear_writing();
        for number in 0..count {
            self.list_at(number);
        }
        self.index_writing();
    }
}
