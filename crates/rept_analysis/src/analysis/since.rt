//! Rounds that go only where something became known, so that a round in which little is learnt
//! costs little.

ghost use Rattle.rept_timeline.specs.Paths.{timeline};
ghost use Rattle.std.specs.Prelude.{⊤, ◌≡◌, ◌+◌, length, true, false, IfOk, IfErr};
ghost use Rattle.rept_span.specs.Filled.{AllReadBelow};
ghost use Rattle.rept_facts.specs.State.{state_of};
ghost use Rattle.rept_facts.specs.Inferring.{Grows, HasInferred, IsHalt, IsFitted, SameFacts, AreWritings, IsUncut};
ghost use Rattle.rept_propagate.specs.Likeness.{IsCurrent};
ghost use Rattle.rept_analysis.specs.Since.{GoesFurther, IsFilledQuiet};

use super::Analysis;
use rept_facts::LearnError;
use rept_reason::RowRules;
use rept_span::{PointSet, SetChanges, Transfer};
use rept_versions::ByteFacts;

impl<'a, B: ByteFacts, W: Transfer, R: RowRules> Analysis<'a, B, W, R> {
    /// Whether all facts leave no set empty and no turn wrong, where the sets are those of fewer
    /// facts, which leave none. The sets are then those of all facts, the rows that may write are
    /// listed, points are marked at which more is known or a set changed, and the rows beside these
    /// are to be looked at.
    fn ready_since(&mut self, changes: &mut SetChanges<W>) -> bool
        requires open { self.old.propagation.facts.complete ≡ false }
        requires writings { AreWritings (state_of W.sets W.moves R.rules B.store self.old.propagation.facts) }
        requires quiet { IsFilledQuiet (state_of W.sets W.moves R.rules B.store self.old.propagation.facts) }
        requires reads { AllReadBelow (timeline self.old.propagation.facts.paths).legs ((timeline self.old.propagation.facts.paths).legs.count + 1) }
        requires marks { length changes.old.points ≡ (timeline self.old.propagation.facts.paths).legs.count + 1 }
        ensures same { SameFacts (state_of W.sets W.moves R.rules B.store self.old.propagation.facts) (state_of W.sets W.moves R.rules B.store self.new.propagation.facts) }
        ensures writings { result ≡ true → AreWritings (state_of W.sets W.moves R.rules B.store self.new.propagation.facts) }
        ensures current { result ≡ true → IsCurrent (state_of W.sets W.moves R.rules B.store self.new.propagation.facts) }
        ensures quiet { result ≡ true → IsFilledQuiet (state_of W.sets W.moves R.rules B.store self.new.propagation.facts) }
        ensures marks { length changes.new.points ≡ length changes.old.points }
    {
        // for the proof alone
        let _count = self.propagation.facts.count();
        let len = self.propagation.facts.len();
        let quiet = self.propagation.facts.is_quiet_since(len, changes);
        if !quiet {
            return false;
        }
        self.propagation.facts.list_since();
        self.mark_all_late(&changes.points);
        true
    }

    /// Keeps that something was learnt at a point, so that the rows beside it are to be looked at.
    fn mark_late(&mut self, point: u32)
        ensures { self.new.propagation.facts ≡ self.old.propagation.facts }
    {
        if let Some(number) = self.number_of(point.wrapping_sub(1)) {
            self.fresh.mark_late(number);
        }
        if let Some(number) = self.number_of(point) {
            self.fresh.mark_late(number);
        }
    }

    /// Keeps that of all marked points.
    fn mark_all_late(&mut self, points: &PointSet)
        ensures { self.new.propagation.facts ≡ self.old.propagation.facts }
    {
        let mut from = 0;
        loop {
            let Some(point) = points.next(from) else {
                return;
            };
            self.mark_late(point);
            from = point + 1;
        }
    }

    /// The sets of one value at marked points.
    fn infer_singles_at(&mut self, points: &PointSet) -> Result<bool, LearnError>
        requires fitted { IsFitted (state_of W.sets W.moves R.rules B.store self.old.propagation.facts) }
        requires open { self.old.propagation.facts.complete ≡ false }
        requires marks { length points.now ≡ (timeline self.old.propagation.facts.paths).legs.count + 1 }
        ensures grows { Grows (state_of W.sets W.moves R.rules B.store self.old.propagation.facts) (state_of W.sets W.moves R.rules B.store self.new.propagation.facts) }
        ensures inferred { IfOk result (λ learnt. HasInferred (state_of W.sets W.moves R.rules B.store self.old.propagation.facts) (state_of W.sets W.moves R.rules B.store self.new.propagation.facts) learnt (λ _. ⊤)) }
        ensures halt { IfErr result (λ h. IsHalt (state_of W.sets W.moves R.rules B.store self.new.propagation.facts) h) }
    {
        let mut learnt = false;
        let mut from = 0;
        loop {
            let Some(point) = points.next(from) else {
                return Ok(learnt);
            };
            let new = self.infer_point(point)?;
            learnt = learnt | new;
            from = point + 1;
        }
    }

    /// The row before which a moment lies, if there is one.
    fn infer_late_at(&mut self, number: u32) -> Result<bool, LearnError>
        requires writings { AreWritings (state_of W.sets W.moves R.rules B.store self.old.propagation.facts) }
        requires open { self.old.propagation.facts.complete ≡ false }
        requires uncut { IsUncut (state_of W.sets W.moves R.rules B.store self.old.propagation.facts) }
        ensures grows { Grows (state_of W.sets W.moves R.rules B.store self.old.propagation.facts) (state_of W.sets W.moves R.rules B.store self.new.propagation.facts) }
        ensures inferred { IfOk result (λ learnt. HasInferred (state_of W.sets W.moves R.rules B.store self.old.propagation.facts) (state_of W.sets W.moves R.rules B.store self.new.propagation.facts) learnt (λ _. ⊤)) }
        ensures halt { IfErr result (λ h. IsHalt (state_of W.sets W.moves R.rules B.store self.new.propagation.facts) h) }
    {
        match self.propagation.facts.row_at(number) {
            None => {
                self.fresh.note_none(number);
                Ok(false)
            }
            Some(i) => self.infer_noted(i),
        }
    }

    /// All rows that may tell something new, or beside which something was learnt since they were
    /// looked at, from the last to the first; no row of several threads, whose rows don't stand in
    /// the order of their moments.
    fn infer_late_back(&mut self) -> Result<bool, LearnError>
        requires writings { AreWritings (state_of W.sets W.moves R.rules B.store self.old.propagation.facts) }
        requires open { self.old.propagation.facts.complete ≡ false }
        requires uncut { IsUncut (state_of W.sets W.moves R.rules B.store self.old.propagation.facts) }
        ensures grows { Grows (state_of W.sets W.moves R.rules B.store self.old.propagation.facts) (state_of W.sets W.moves R.rules B.store self.new.propagation.facts) }
        ensures inferred { IfOk result (λ learnt. HasInferred (state_of W.sets W.moves R.rules B.store self.old.propagation.facts) (state_of W.sets W.moves R.rules B.store self.new.propagation.facts) learnt (λ _. ⊤)) }
        ensures halt { IfErr result (λ h. IsHalt (state_of W.sets W.moves R.rules B.store self.new.propagation.facts) h) }
    {
        let mut learnt = false;
        let mut end = self.late_end();
        while end > 0 {
            let new = self.infer_late_at(end - 1)?;
            learnt = learnt | new;
            end = self.fresh.late_end_below(end - 1);
        }
        Ok(learnt)
    }

    /// The number after the last one before which such a row lies; 0 of several threads.
    fn late_end(&self) -> u32 {
        let last = self.propagation.facts.end();
        if last == self.propagation.facts.count() {
            self.fresh.late_end_below(last)
        } else {
            0
        }
    }

    /// Last values, rows and bytes once, those that may tell something new, and the sets of one
    /// value at marked points.
    fn sweep_fresh_since(&mut self, points: &PointSet) -> Result<bool, LearnError>
        requires writings { AreWritings (state_of W.sets W.moves R.rules B.store self.old.propagation.facts) }
        requires open { self.old.propagation.facts.complete ≡ false }
        requires uncut { IsUncut (state_of W.sets W.moves R.rules B.store self.old.propagation.facts) }
        requires marks { length points.now ≡ (timeline self.old.propagation.facts.paths).legs.count + 1 }
        ensures grows { Grows (state_of W.sets W.moves R.rules B.store self.old.propagation.facts) (state_of W.sets W.moves R.rules B.store self.new.propagation.facts) }
        ensures inferred { IfOk result (λ learnt. HasInferred (state_of W.sets W.moves R.rules B.store self.old.propagation.facts) (state_of W.sets W.moves R.rules B.store self.new.propagation.facts) learnt (λ _. ⊤)) }
        ensures halt { IfErr result (λ h. IsHalt (state_of W.sets W.moves R.rules B.store self.new.propagation.facts) h) }
    {
        let rows = self.sweep_rows()?;
        let singles = self.infer_singles_at(points)?;
        Ok(rows | singles)
    }

    /// The same rules once, and where they tell nothing all bytes, and then the rows beside which
    /// something was learnt.
    fn sweep_since(&mut self, points: &PointSet) -> Result<bool, LearnError>
        requires writings { AreWritings (state_of W.sets W.moves R.rules B.store self.old.propagation.facts) }
        requires current { IsCurrent (state_of W.sets W.moves R.rules B.store self.old.propagation.facts) }
        requires open { self.old.propagation.facts.complete ≡ false }
        requires uncut { IsUncut (state_of W.sets W.moves R.rules B.store self.old.propagation.facts) }
        requires marks { length points.now ≡ (timeline self.old.propagation.facts.paths).legs.count + 1 }
        ensures grows { Grows (state_of W.sets W.moves R.rules B.store self.old.propagation.facts) (state_of W.sets W.moves R.rules B.store self.new.propagation.facts) }
        ensures inferred { IfOk result (λ learnt. HasInferred (state_of W.sets W.moves R.rules B.store self.old.propagation.facts) (state_of W.sets W.moves R.rules B.store self.new.propagation.facts) learnt (λ _. ⊤)) }
        ensures halt { IfErr result (λ h. IsHalt (state_of W.sets W.moves R.rules B.store self.new.propagation.facts) h) }
    {
        let fresh = self.sweep_fresh_since(points)?;
        if fresh {
            return Ok(true);
        }
        let carried = self.carry_through()?;
        if carried {
            return Ok(true);
        }
        let rows = self.infer_late_back()?;
        Ok(rows)
    }

    /// Rounds until nothing is new, or a set is empty or a turn wrong, each with the sets of the
    /// facts before it.
    fn settle_at(&mut self, changes: &mut SetChanges<W>) -> Result<(), LearnError>
        requires open { self.old.propagation.facts.complete ≡ false }
        requires uncut { IsUncut (state_of W.sets W.moves R.rules B.store self.old.propagation.facts) }
        requires writings { AreWritings (state_of W.sets W.moves R.rules B.store self.old.propagation.facts) }
        requires quiet { IsFilledQuiet (state_of W.sets W.moves R.rules B.store self.old.propagation.facts) }
        requires reads { AllReadBelow (timeline self.old.propagation.facts.paths).legs ((timeline self.old.propagation.facts.paths).legs.count + 1) }
        requires marks { length changes.old.points ≡ (timeline self.old.propagation.facts.paths).legs.count + 1 }
        ensures goes { GoesFurther (state_of W.sets W.moves R.rules B.store self.old.propagation.facts) (state_of W.sets W.moves R.rules B.store self.new.propagation.facts) }
        ensures uncut { IfOk result (λ _. IsUncut (state_of W.sets W.moves R.rules B.store self.new.propagation.facts)) }
        ensures halt { IfErr result (λ h. IsHalt (state_of W.sets W.moves R.rules B.store self.new.propagation.facts) h) }
    {
        loop {
            let quiet = self.ready_since(changes);
            if !quiet {
                return Ok(());
            }
            let learnt = self.sweep_since(&changes.points)?;
            if !learnt {
                return Ok(());
            }
        }
    }

    /// Such rounds, where the room for the marks of points can be had.
    pub(super) fn settle_since(&mut self) -> Result<(), LearnError>
        requires open { self.old.propagation.facts.complete ≡ false }
        requires uncut { IsUncut (state_of W.sets W.moves R.rules B.store self.old.propagation.facts) }
        requires writings { AreWritings (state_of W.sets W.moves R.rules B.store self.old.propagation.facts) }
        requires quiet { IsFilledQuiet (state_of W.sets W.moves R.rules B.store self.old.propagation.facts) }
        requires reads { AllReadBelow (timeline self.old.propagation.facts.paths).legs ((timeline self.old.propagation.facts.paths).legs.count + 1) }
        ensures goes { GoesFurther (state_of W.sets W.moves R.rules B.store self.old.propagation.facts) (state_of W.sets W.moves R.rules B.store self.new.propagation.facts) }
        ensures uncut { IfOk result (λ _. IsUncut (state_of W.sets W.moves R.rules B.store self.new.propagation.facts)) }
        ensures halt { IfErr result (λ h. IsHalt (state_of W.sets W.moves R.rules B.store self.new.propagation.facts) h) }
    {
        match self.propagation.facts.changes() {
            None => Ok(()),
            Some(mut changes) => self.settle_at(&mut changes),
        }
    }
}
