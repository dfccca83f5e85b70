//! Which rows keep bytes from being carried.
#![tactic(auto, using(rept_timeline::specs::Paths::lawful))]

ghost use Rattle.rept_timeline.specs.Paths.{timeline};
ghost use Rattle.std.specs.Prelude.{◌≡◌, ℕ, ◌+◌, ◌<◌, true, false, Some, IsSome, IfSome};
ghost use Rattle.rept_facts.specs.State.{state_of};
ghost use Rattle.rept_facts.specs.Inferring.{AreWritings, AreBlocked, IsBlocker, IsBridged, IsBlocked, IsHitBy};

use super::Propagation;
use rept_reason::{RowRules, When};
use rept_span::Transfer;
use rept_versions::ByteFacts;

impl<'a, B: ByteFacts, W: Transfer, R: RowRules> Propagation<'a, B, W, R> {
    /// Whether a number is before a row and another one after it, and the row can't write: then no
    /// row may act between the two.
    fn is_unwritten(&self, m: u32, w: u32) -> bool
        requires next { (timeline self.now.facts.paths).moments.next m w ≡ true }
        ensures { result ≡ true → (i : ℕ) → i < (timeline self.now.facts.paths).legs.count → (timeline self.now.facts.paths).moments.may_act i m w ≡ false }
    {
        let Some(row) = self.facts.row_at(m) else {
            return false;
        };
        if self.facts.moment_at(row, When::After) != w {
            return false;
        }
        match self.facts.first_acting(m, w) {
            Some(_) => false,
            None => true,
        }
    }

    /// The index of the first row of the list that may write a byte and may act between a number
    /// and one that is next to it, if there is one.
    pub(super) fn blocker(&self, a: u32, m: u32, w: u32) -> Option<usize>
        requires writings { AreWritings (state_of W.sets W.moves R.rules B.store self.now.facts) }
        requires next { (timeline self.now.facts.paths).moments.next m w ≡ true }
        ensures { IsBlocker (record { address = a; from = m; to = w }) (state_of W.sets W.moves R.rules B.store self.now.facts) result }
    {
        if self.is_unwritten(m, w) {
            return None;
        }
        let mut k = 0;
        loop {
            let Some(hit) = self.facts.next_meeting(k, m, w, a) else {
                return None;
            };
            let row = self.facts.entry(hit).row;
            if self.facts.may_act(row, m, w) {
                return Some(hit);
            }
            k = hit + 1;
        }
    }

    /// Whether a byte is carried from a number to one that is next to it: whether nothing that
    /// isn't told may act between, and no row of the list that may write it.
    pub(super) fn is_carried(&self, a: u32, m: u32, w: u32) -> bool
        requires writings { AreWritings (state_of W.sets W.moves R.rules B.store self.now.facts) }
        requires next { (timeline self.now.facts.paths).moments.next m w ≡ true }
        ensures yes { result ≡ true → IsBridged (record { address = a; from = m; to = w }) (state_of W.sets W.moves R.rules B.store self.now.facts) }
        ensures no { result ≡ false → IsBlocked (record { address = a; from = m; to = w }) (state_of W.sets W.moves R.rules B.store self.now.facts) }
    {
        if self.facts.is_untraced_between(m, w) {
            return false;
        }
        self.blocker(a, m, w).is_none()
    }

    /// The row at an index of the list, if one is named and is there, and may write a byte.
    pub(super) fn listed_hit(&self, a: u32, index: Option<usize>) -> Option<u32>
        requires writings { AreWritings (state_of W.sets W.moves R.rules B.store self.now.facts) }
        ensures there { IfSome result (λ row. IsSome ((timeline self.now.facts.paths).legs.row row)) }
        ensures hits { IfSome result (λ row. IsHitBy a row (state_of W.sets W.moves R.rules B.store self.now.facts)) }
    {
        let Some(k) = index else {
            return None;
        };
        if k >= self.facts.writing_count() {
            return None;
        }
        let entry = self.facts.entry(k);
        let access = entry.access;
        if access.may_hit(a) {
            Some(entry.row)
        } else {
            None
        }
    }

    /// Whether the row at an index of the list, if one is named, may write a byte and may act
    /// between a number and one that is next to it.
    pub(super) fn blocks(&self, a: u32, m: u32, w: u32, index: Option<usize>) -> bool
        requires writings { AreWritings (state_of W.sets W.moves R.rules B.store self.now.facts) }
        requires next { (timeline self.now.facts.paths).moments.next m w ≡ true }
        ensures { result ≡ true → IsBlocked (record { address = a; from = m; to = w }) (state_of W.sets W.moves R.rules B.store self.now.facts) }
    {
        match self.listed_hit(a, index) {
            None => false,
            Some(row) => self.facts.may_act(row, m, w),
        }
    }

    /// Whether it is sure that the row at an index of the list, if one is named, may write a byte
    /// and may act between a number and each one that is next to it.
    pub(super) fn is_blocked(&self, a: u32, m: u32, index: Option<usize>) -> bool
        requires writings { AreWritings (state_of W.sets W.moves R.rules B.store self.now.facts) }
        ensures { result ≡ true → AreBlocked a m (state_of W.sets W.moves R.rules B.store self.now.facts) }
    {
        match self.listed_hit(a, index) {
            None => false,
            Some(row) => self.facts.surely_blocks(row, m),
        }
    }

    /// The index of a row of the list that may stop a byte at a number: the one at which a byte
    /// stopped there, or else the one at which any stopped last. No clause rests on which it is.
    pub(super) fn wall(&self, a: u32, m: u32) -> Option<usize>
        requires writings { AreWritings (state_of W.sets W.moves R.rules B.store self.now.facts) }
    {
        let index = self.walls.at(m);
        if self.is_blocked(a, m, index) {
            return index;
        }
        let stop = self.walls.stop(m);
        if self.listed_hit(a, stop).is_some() {
            stop
        } else {
            self.walls.last()
        }
    }

    /// Whether a row at which a byte stopped before may write this one and may act between a number
    /// and each one that is next to it.
    pub(super) fn is_walled(&self, a: u32, m: u32) -> bool
        requires writings { AreWritings (state_of W.sets W.moves R.rules B.store self.now.facts) }
        ensures { result ≡ true → AreBlocked a m (state_of W.sets W.moves R.rules B.store self.now.facts) }
    {
        if self.is_blocked(a, m, self.walls.at(m)) {
            return true;
        }
        self.is_blocked(a, m, self.walls.last())
    }

    /// Keeps at which row of the list, if one is named, a byte stopped at a number.
    pub(super) fn note_wall(&mut self, m: u32, index: Option<usize>)
        ensures { self.new.facts ≡ self.old.facts }
    {
        if let Some(k) = index {
            self.walls.note(m, k);
        }
    }

    /// Keeps from which number a byte came back to one to which it is next.
    pub(super) fn note_open(&mut self, number: u32)
        ensures { self.new.facts ≡ self.old.facts }
    {
        self.walls.note_open(number);
    }

    /// Keeps which row of the list, if one is named, kept a byte from going on from a number to one
    /// that is next to it.
    pub(super) fn note_stop(&mut self, m: u32, index: Option<usize>)
        ensures { self.new.facts ≡ self.old.facts }
    {
        if let Some(k) = index {
            self.walls.note_stop(m, k);
        }
    }

    /// Whether a byte is carried from a number to the one after it, which is next to it; where a
    /// row of the list keeps it from that, that is kept.
    pub(super) fn is_carried_on(&mut self, a: u32, m: u32) -> bool
        requires writings { AreWritings (state_of W.sets W.moves R.rules B.store self.old.facts) }
        requires next { (timeline self.old.facts.paths).moments.next m (m + 1) ≡ true }
        ensures yes { result ≡ true → IsBridged (record { address = a; from = m; to = m + 1 }) (state_of W.sets W.moves R.rules B.store self.old.facts) }
        ensures no { result ≡ false → IsBlocked (record { address = a; from = m; to = m + 1 }) (state_of W.sets W.moves R.rules B.store self.old.facts) }
        ensures same { self.new.facts ≡ self.old.facts }
    {
        // for the proof alone
        let _end = self.facts.end();
        if self.facts.is_untraced_between(m, m + 1) {
            return false;
        }
        let blocker = self.blocker(a, m, m + 1);
        self.note_wall(m, blocker);
        blocker.is_none()
    }

    /// Whether it is seen at once that a byte isn't carried from a number to the one after it,
    /// which is next to it: the row that the number is before may write it, or one at which a byte
    /// stopped before.
    pub(super) fn is_stopped(&self, a: u32, m: u32) -> bool
        requires writings { AreWritings (state_of W.sets W.moves R.rules B.store self.now.facts) }
        requires next { (timeline self.now.facts.paths).moments.next m (m + 1) ≡ true }
        ensures { result ≡ true → IsBlocked (record { address = a; from = m; to = m + 1 }) (state_of W.sets W.moves R.rules B.store self.now.facts) }
    {
        // for the proof alone
        let _end = self.facts.end();
        let own = self.facts.listed_before(m);
        if self.blocks(a, m, m + 1, Some(own)) {
            return true;
        }
        self.is_walled(a, m)
    }

    /// Whether a row, if one is named, which may write a byte, may act between a number and one
    /// that is next to it.
    fn is_crossed(&self, a: u32, m: u32, w: u32, row: Option<u32>) -> bool
        requires writings { AreWritings (state_of W.sets W.moves R.rules B.store self.now.facts) }
        requires next { (timeline self.now.facts.paths).moments.next m w ≡ true }
        requires there { IfSome row (λ i. IsSome ((timeline self.now.facts.paths).legs.row i)) }
        requires hits { IfSome row (λ i. IsHitBy a i (state_of W.sets W.moves R.rules B.store self.now.facts)) }
        ensures { result ≡ true → IsBlocked (record { address = a; from = m; to = w }) (state_of W.sets W.moves R.rules B.store self.now.facts) }
    {
        match row {
            None => false,
            Some(i) => self.facts.may_act(i, m, w),
        }
    }

    /// Whether it is sure that a byte isn't carried between the two: such a row does, or writers
    /// that aren't told.
    pub(super) fn is_shut(&self, a: u32, m: u32, w: u32, row: Option<u32>) -> bool
        requires writings { AreWritings (state_of W.sets W.moves R.rules B.store self.now.facts) }
        requires next { (timeline self.now.facts.paths).moments.next m w ≡ true }
        requires there { IfSome row (λ i. IsSome ((timeline self.now.facts.paths).legs.row i)) }
        requires hits { IfSome row (λ i. IsHitBy a i (state_of W.sets W.moves R.rules B.store self.now.facts)) }
        ensures { result ≡ true → IsBlocked (record { address = a; from = m; to = w }) (state_of W.sets W.moves R.rules B.store self.now.facts) }
    {
        if self.is_crossed(a, m, w, row) {
            return true;
        }
        self.facts.is_untraced_between(m, w)
    }
}
