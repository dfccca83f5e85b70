//! Sets and lists anew, only where more became known since they were made.

ghost use Rattle.rept_timeline.specs.Paths.{timeline};
ghost use Rattle.std.specs.Prelude.{◌≡◌, ◌+◌, ◌≤◌, ℕ, length, true, false, OnOk, IfSome};
ghost use Rattle.rept_reason.specs.declared.fact.Cell.TheVariants.{Register};
ghost use Rattle.rept_reason.specs.Facts.{told};
ghost use Rattle.rept_span.specs.Filled.{AllReadBelow, IsFilled, NoneIsEmpty, SameAt};
ghost use Rattle.rept_span.specs.Points.{HasPoint, KeepsPoints};
ghost use Rattle.rept_report.specs.Setting.{way_of};
ghost use Rattle.rept_report.specs.Conflicts.{IsQuiet, IsWrongTurn};
ghost use Rattle.rept_report.specs.Log.{oldest};
ghost use Rattle.rept_facts.specs.State.{setting_of, state_of, with_writing};
ghost use Rattle.rept_facts.specs.Inferring.{AreWritings, IsFitted, SameFacts};

use super::CrashFacts;
use crate::trail::PathTrail;
use rept_log::Below;
use rept_reason::{Cell, Fact, RowRules};
use rept_span::{EmptyAt, PointSet, SetChanges, Transfer};
use rept_versions::ByteFacts;
use rept_writing::Writing;

/// Marks the point of a fact on a register, if it is among the points up to the last one.
fn mark_fact(points: &mut PointSet, last: u32, fact: &Fact)
    requires { length points.old ≡ last + 1 }
    ensures count { length points.new ≡ length points.old }
    ensures kept { KeepsPoints points.old points.new }
    ensures here { (r : ℕ) → fact.now.cell ≡ Register r → fact.now.point ≤ last → HasPoint points.new fact.now.point }
{
    match fact.cell {
        Cell::Register(_) => {
            if fact.point <= last {
                points.add(fact.point);
            }
        }
        Cell::Byte(_) => {}
    }
}

impl<'a, B: ByteFacts, W: Transfer, R: RowRules> CrashFacts<'a, B, W, R> {
    /// None of the points, to be marked as more becomes known; `None` where the room for their
    /// marks can't be had.
    pub fn changes(&self) -> Option<SetChanges<W>>
        ensures { IfSome result (λ c. length c.points ≡ (timeline self.now.paths).legs.count + 1) }
    {
        match SetChanges::new(self.alloc, self.count() + 1) {
            Ok(changes) => Some(changes),
            Err(_) => None,
        }
    }

    /// Marks the points at which registers became known at places of the log from the one up to
    /// which the sets were filled, up to a limit, and no other ones.
    fn mark_news(&self, limit: u32, points: &mut PointSet)
        requires within { limit ≤ length self.now.known.log }
        requires since { self.now.filled ≤ limit }
        requires marks { length points.old ≡ (timeline self.now.paths).legs.count + 1 }
        ensures count { length points.new ≡ length points.old }
        ensures news { (p : ℕ) → p ≤ (timeline self.now.paths).legs.count → (HasPoint points.new p → ⊥) → SameAt (told (oldest self.now.filled self.now.known.log)) (told (oldest limit self.now.known.log)) p }
    {
        let last = self.count();
        points.clear();
        for place in self.filled..limit {
            mark_fact(points, last, &self.known.entry(place));
        }
    }

    /// The sets from the facts at places below the limit, where they are those of the facts at
    /// places below `filled`. Points are marked at which more is known or a set changed.
    fn fill_since(&mut self, limit: u32, changes: &mut SetChanges<W>) -> Result<(), EmptyAt>
        requires open { self.old.complete ≡ false }
        requires within { limit ≤ length self.old.known.log }
        requires since { self.old.filled ≤ limit }
        requires fitted { IsFitted (state_of W.sets W.moves R.rules B.store self.old) }
        requires reads { AllReadBelow (timeline self.old.paths).legs ((timeline self.old.paths).legs.count + 1) }
        requires marks { length changes.old.points ≡ (timeline self.old.paths).legs.count + 1 }
        ensures same { SameFacts (state_of W.sets W.moves R.rules B.store self.old) (state_of W.sets W.moves R.rules B.store self.new) }
        ensures work { self.new.work ≡ self.old.work }
        ensures limit { self.new.filled ≡ limit }
        ensures filled { OnOk result (IsFilled (way_of (setting_of W.sets W.moves R.rules self.old)) self.new.spans (told (oldest limit self.old.known.log))) }
        ensures some { OnOk result (NoneIsEmpty (way_of (setting_of W.sets W.moves R.rules self.old)) (told (oldest limit self.old.known.log))) }
        ensures marks { length changes.new.points ≡ length changes.old.points }
        ensures news { (p : ℕ) → p ≤ (timeline self.old.paths).legs.count → (HasPoint changes.new.points p → ⊥) → SameAt (told (oldest self.old.filled self.old.known.log)) (told (oldest limit self.old.known.log)) p }
    {
        self.mark_news(limit, &mut changes.points);
        let trail = PathTrail { paths: self.paths };
        let view = Below {
            facts: &self.known,
            limit,
        };
        let filled = self.spans.fill_since(&trail, &view, changes);
        self.filled = limit;
        filled
    }

    /// Whether row i, if there is one, went the way that the facts at places below the limit say.
    fn is_right(&self, limit: u32, i: u32) -> bool
        ensures { result ≡ true → IsWrongTurn (setting_of W.sets W.moves R.rules self.now) (told (oldest limit self.now.known.log)) i → ⊥ }
    {
        // for the proof alone
        let _paths = self.paths;
        if i >= self.count() {
            return true;
        }
        !self.is_wrong(limit, i)
    }

    /// Whether each row from a marked point went the way that the facts at places below the limit
    /// say.
    fn are_right(&self, limit: u32, points: &PointSet) -> bool
        ensures { result ≡ true → (i : ℕ) → HasPoint points.now i → IsWrongTurn (setting_of W.sets W.moves R.rules self.now) (told (oldest limit self.now.known.log)) i → ⊥ }
    {
        let mut from = 0;
        loop {
            let Some(point) = points.next(from) else {
                return true;
            };
            let right = self.is_right(limit, point);
            if !right {
                return false;
            }
            from = point + 1;
        }
    }

    /// Whether the facts at places below the limit leave no set empty and no turn wrong, where
    /// those at places below `filled` leave none and the sets are theirs. The sets are then those
    /// of the facts below the limit, the rows that are listed are still all that may write, and
    /// points are marked at which more is known or a set changed.
    pub fn is_quiet_since(&mut self, limit: u32, changes: &mut SetChanges<W>) -> bool
        requires open { self.old.complete ≡ false }
        requires within { limit ≤ length self.old.known.log }
        requires since { self.old.filled ≤ limit }
        requires writings { AreWritings (state_of W.sets W.moves R.rules B.store self.old) }
        requires quiet { IsQuiet (setting_of W.sets W.moves R.rules self.old) (told (oldest self.old.filled self.old.known.log)) }
        requires reads { AllReadBelow (timeline self.old.paths).legs ((timeline self.old.paths).legs.count + 1) }
        requires marks { length changes.old.points ≡ (timeline self.old.paths).legs.count + 1 }
        ensures same { SameFacts (state_of W.sets W.moves R.rules B.store self.old) (state_of W.sets W.moves R.rules B.store self.new) }
        ensures limit { self.new.filled ≡ limit }
        ensures writings { result ≡ true → AreWritings (state_of W.sets W.moves R.rules B.store self.new) }
        ensures quiet { result ≡ true → IsQuiet (setting_of W.sets W.moves R.rules self.old) (told (oldest limit self.old.known.log)) }
        ensures marks { length changes.new.points ≡ length changes.old.points }
    {
        self.held();
        match self.fill_since(limit, changes) {
            Err(_) => false,
            Ok(()) => self.are_right(limit, &changes.points),
        }
    }

    /// Whether an entry of the list is what the facts of which the sets are tell of its row.
    fn is_current(&self, writing: &Writing) -> bool
        requires fitted { IsFitted (state_of W.sets W.moves R.rules B.store self.now) }
    {
        match self.row(writing.row) {
            None => false,
            Some(row) => self.access(writing.row, &row) == writing.access,
        }
    }

    /// Whether each entry of the list is.
    fn are_current(&self) -> bool
        requires fitted { IsFitted (state_of W.sets W.moves R.rules B.store self.now) }
    {
        for k in 0..self.writing.len() {
            if !self.is_current(&self.writing.at(k)) {
                return false;
            }
        }
        true
    }

    /// Lists the rows that may write, by the facts of which the sets are, where they were listed by
    /// fewer facts and an entry would be another one now.
    pub fn list_since(&mut self)
        requires open { self.old.complete ≡ false }
        requires writings { AreWritings (state_of W.sets W.moves R.rules B.store self.old) }
        ensures same { (state_of W.sets W.moves R.rules B.store self.new) ≡ with_writing (state_of W.sets W.moves R.rules B.store self.old) self.new.work.writing }
        ensures listed { AreWritings (state_of W.sets W.moves R.rules B.store self.new) }
    {
        if !self.are_current() {
            self.list_writing();
        }
    }
}
