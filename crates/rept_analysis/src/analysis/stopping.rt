//! What is answered after a conflict, and where memory ran out.
#![tactic(auto, using(rept_timeline::specs::Paths::lawful))]

ghost use Rattle.rept_timeline.specs.Paths.{timeline};
ghost use Rattle.std.specs.Prelude.{◌≡◌, ◌+◌, ◌<◌, ◌≤◌, length, true, false};
ghost use Rattle.rept_reason.specs.declared.fact.Cell.{Cell};
ghost use Rattle.rept_reason.specs.Facts.{told};
ghost use Rattle.rept_report.specs.Conflicts.{IsQuiet};
ghost use Rattle.rept_report.specs.declared.conflict.ConflictKind.{ConflictKind};
ghost use Rattle.rept_report.specs.Log.{oldest};
ghost use Rattle.rept_facts.specs.Begun.{ends_told, KnowsEnds, HasEndsFirst, LearnsEndsFirst};
ghost use Rattle.rept_facts.specs.State.{IsLined, setting_of, state_of};
ghost use Rattle.rept_report.specs.Why.{fact_of};
ghost use Rattle.rept_facts.specs.Inferring.{IsHalt, SameFacts, IsClash};
ghost use Rattle.rept_facts.specs.Refined.{QuietBelow, IsStopped, IsHalted, clash_kind};

use super::Analysis;
use rept_facts::{LearnError, Stop};
use rept_reason::{Cell, RowRules};
use rept_report::ConflictKind;
use rept_span::Transfer;
use rept_versions::ByteFacts;

/// The conflict of two values, the smaller one first.
fn clash_kind(point: u32, cell: Cell, known: u32, value: u32) -> ConflictKind
    ensures { result ≡ clash_kind point cell known value }
{
    if known < value {
        ConflictKind::TwoValues {
            point,
            cell,
            v: known,
            w: value,
        }
    } else {
        ConflictKind::TwoValues {
            point,
            cell,
            v: value,
            w: known,
        }
    }
}

impl<'a, B: ByteFacts, W: Transfer, R: RowRules> Analysis<'a, B, W, R> {
    /// The least place such that the facts at places below it leave a set empty or a turn wrong.
    fn bisect(&mut self) -> u32
        requires open { self.old.propagation.facts.complete ≡ false }
        requires loud { IsQuiet (setting_of W.sets W.moves R.rules self.old.propagation.facts) (told self.old.propagation.facts.known.log) → ⊥ }
        ensures same { SameFacts (state_of W.sets W.moves R.rules B.store self.old.propagation.facts) (state_of W.sets W.moves R.rules B.store self.new.propagation.facts) }
        ensures within { result ≤ length self.old.propagation.facts.known.log }
        ensures quiet { QuietBelow (state_of W.sets W.moves R.rules B.store self.old.propagation.facts) result }
        ensures loud { IsQuiet (setting_of W.sets W.moves R.rules self.old.propagation.facts) (told (oldest result self.old.propagation.facts.known.log)) → ⊥ }
    {
        self.propagation.facts.held();
        let mut low = 0;
        let mut high = self.propagation.facts.len();
        while low < high {
            let middle = low + (high - low) / 2;
            let quiet = self.propagation.facts.is_quiet(middle);
            if quiet {
                low = middle + 1;
            } else {
                high = middle;
            }
        }
        low
    }

    /// Rolls back to the least place at which the facts show a conflict, and names it.
    pub(super) fn stop_least(&mut self) -> ConflictKind
        requires open { self.old.propagation.facts.complete ≡ false }
        requires loud { IsQuiet (setting_of W.sets W.moves R.rules self.old.propagation.facts) (told self.old.propagation.facts.known.log) → ⊥ }
        ensures ended { IsStopped (state_of W.sets W.moves R.rules B.store self.old.propagation.facts) (state_of W.sets W.moves R.rules B.store self.new.propagation.facts) result }
        ensures still { self.new.propagation.facts.work.infers ≡ self.old.propagation.facts.work.infers }
        ensures log { self.new.propagation.facts.known.log ≡ self.old.propagation.facts.known.log }
        ensures ends { LearnsEndsFirst (state_of W.sets W.moves R.rules B.store self.old.propagation.facts) → IsQuiet (setting_of W.sets W.moves R.rules self.old.propagation.facts) (ends_told (setting_of W.sets W.moves R.rules self.old.propagation.facts)) → KnowsEnds (setting_of W.sets W.moves R.rules self.old.propagation.facts) (told (oldest self.new.propagation.facts.shown self.new.propagation.facts.known.log)) }
    {
        self.propagation.facts.held();
        let limit = self.bisect();
        let kind = self.propagation.facts.look(limit).unwrap();
        let named = kind;
        self.propagation.facts.stop_at(limit, kind);
        named
    }

    /// Names the clash, where the facts show no other conflict, and else their least one.
    fn stop_clash(&mut self, point: u32, cell: Cell, known: u32, value: u32) -> ConflictKind
        requires open { self.old.propagation.facts.complete ≡ false }
        requires clash { IsClash (state_of W.sets W.moves R.rules B.store self.old.propagation.facts) (fact_of point cell value) known }
        ensures ended { IsStopped (state_of W.sets W.moves R.rules B.store self.old.propagation.facts) (state_of W.sets W.moves R.rules B.store self.new.propagation.facts) result }
        ensures still { self.new.propagation.facts.work.infers ≡ self.old.propagation.facts.work.infers }
        ensures log { self.new.propagation.facts.known.log ≡ self.old.propagation.facts.known.log }
        ensures ends { HasEndsFirst (state_of W.sets W.moves R.rules B.store self.old.propagation.facts) → IsQuiet (setting_of W.sets W.moves R.rules self.old.propagation.facts) (ends_told (setting_of W.sets W.moves R.rules self.old.propagation.facts)) → KnowsEnds (setting_of W.sets W.moves R.rules self.old.propagation.facts) (told (oldest self.new.propagation.facts.shown self.new.propagation.facts.known.log)) }
    {
        self.propagation.facts.held();
        let len = self.propagation.facts.len();
        let quiet = self.propagation.facts.is_quiet(len);
        if !quiet {
            return self.stop_least();
        }
        let kind = clash_kind(point, cell, known, value);
        let named = kind;
        self.propagation.facts.stop_at(len, kind);
        named
    }

    /// Where memory ran out: answers all facts, where these show no conflict, and else names their
    /// least one.
    fn stop_memory(&mut self) -> Stop
        requires open { self.old.propagation.facts.complete ≡ false }
        ensures ended { IsHalted (state_of W.sets W.moves R.rules B.store self.old.propagation.facts) (state_of W.sets W.moves R.rules B.store self.new.propagation.facts) result }
        ensures still { self.new.propagation.facts.work.infers ≡ self.old.propagation.facts.work.infers }
        ensures log { self.new.propagation.facts.known.log ≡ self.old.propagation.facts.known.log }
        ensures ends { HasEndsFirst (state_of W.sets W.moves R.rules B.store self.old.propagation.facts) → IsQuiet (setting_of W.sets W.moves R.rules self.old.propagation.facts) (ends_told (setting_of W.sets W.moves R.rules self.old.propagation.facts)) → (kind : ConflictKind) → result ≡ Stop.Conflict kind → KnowsEnds (setting_of W.sets W.moves R.rules self.old.propagation.facts) (told (oldest self.new.propagation.facts.shown self.new.propagation.facts.known.log)) }
    {
        self.propagation.facts.held();
        let len = self.propagation.facts.len();
        let quiet = self.propagation.facts.is_quiet(len);
        if !quiet {
            return Stop::Conflict(self.stop_least());
        }
        self.propagation.facts.show(len);
        Stop::OutOfMemory
    }

    /// What a halt comes to.
    pub(super) fn stop(&mut self, halt: &LearnError) -> Stop
        requires open { self.old.propagation.facts.complete ≡ false }
        requires halt { IsHalt (state_of W.sets W.moves R.rules B.store self.old.propagation.facts) halt.now }
        ensures ended { IsHalted (state_of W.sets W.moves R.rules B.store self.old.propagation.facts) (state_of W.sets W.moves R.rules B.store self.new.propagation.facts) result }
        ensures still { self.new.propagation.facts.work.infers ≡ self.old.propagation.facts.work.infers }
        ensures log { self.new.propagation.facts.known.log ≡ self.old.propagation.facts.known.log }
        ensures ends { HasEndsFirst (state_of W.sets W.moves R.rules B.store self.old.propagation.facts) → IsQuiet (setting_of W.sets W.moves R.rules self.old.propagation.facts) (ends_told (setting_of W.sets W.moves R.rules self.old.propagation.facts)) → (kind : ConflictKind) → result ≡ Stop.Conflict kind → KnowsEnds (setting_of W.sets W.moves R.rules self.old.propagation.facts) (told (oldest self.new.propagation.facts.shown self.new.propagation.facts.known.log)) }
        ensures plain { result ≡ Stop.OutOfMemory → B.JOINS ≡ true → IsLined (timeline self.old.propagation.facts.paths) → ⊥ }
    {
        self.propagation.facts.counted();
        match halt {
            LearnError::Clash {
                point,
                cell,
                known,
                value,
            } => Stop::Conflict(self.stop_clash(*point, *cell, *known, *value)),
            LearnError::OutOfMemory => self.stop_memory(),
        }
    }
}
