//! Learning all that follows.
#![tactic(auto, using(rept_timeline::specs::Paths::lawful))]

ghost use Rattle.rept_timeline.specs.Paths.{timeline};
ghost use Rattle.std.specs.Prelude.{◌≡◌, ◌<◌, ◌+◌, ◌*◌, ◌≤◌, length, true, false, IsOk, IfErr, Some, None, Ok, Err};
ghost use Rattle.rept_reason.specs.Facts.{told};
ghost use Rattle.rept_span.specs.Filled.{AllReadBelow};
ghost use Rattle.rept_report.specs.Conflicts.{IsQuiet};
ghost use Rattle.rept_report.specs.declared.conflict.ConflictKind.{ConflictKind};
ghost use Rattle.rept_facts.specs.Begun.{ends_told, KnowsEnds, HasEndsFirst, LearnsEndsFirst};
ghost use Rattle.rept_facts.specs.State.{IsLined, setting_of, state_of};
ghost use Rattle.rept_facts.specs.Inferring.{IsHalt, IsSettled, IsFitted, SameFacts, Continues, AreWritings, AreExact, IsUncut};
ghost use Rattle.rept_facts.specs.Work.{left};
ghost use Rattle.rept_report.specs.Log.{oldest};
ghost use Rattle.rept_facts.specs.Refined.{KeepsKnown, Outcome};

use super::Analysis;
use rept_facts::{LearnError, Stop};
use rept_reason::RowRules;
use rept_report::ConflictKind;
use rept_span::Transfer;
use rept_versions::ByteFacts;

impl<'a, B: ByteFacts, W: Transfer, R: RowRules> Analysis<'a, B, W, R> {
    /// Whether the facts at places below the limit leave no set empty and no turn wrong. The sets
    /// are then theirs, and the rows that may write are listed.
    fn ready(&mut self, limit: u32) -> bool
        requires open { self.old.propagation.facts.complete ≡ false }
        requires within { limit ≤ length self.old.propagation.facts.known.log }
        ensures same { SameFacts (state_of W.sets W.moves R.rules B.store self.old.propagation.facts) (state_of W.sets W.moves R.rules B.store self.new.propagation.facts) }
        ensures limit { self.new.propagation.facts.filled ≡ limit }
        ensures fitted { result ≡ true → IsFitted (state_of W.sets W.moves R.rules B.store self.new.propagation.facts) }
        ensures writings { result ≡ true → AreWritings (state_of W.sets W.moves R.rules B.store self.new.propagation.facts) }
        ensures exact { result ≡ true → AreExact (state_of W.sets W.moves R.rules B.store self.new.propagation.facts) }
        ensures quiet { result ≡ true → IsQuiet (setting_of W.sets W.moves R.rules self.old.propagation.facts) (told (oldest limit self.old.propagation.facts.known.log)) }
        ensures loud { result ≡ false → IsQuiet (setting_of W.sets W.moves R.rules self.old.propagation.facts) (told (oldest limit self.old.propagation.facts.known.log)) → ⊥ }
        ensures reads { result ≡ true → AllReadBelow (timeline self.old.propagation.facts.paths).legs ((timeline self.old.propagation.facts.paths).legs.count + 1) }
    {
        let quiet = self.propagation.facts.is_quiet(limit);
        if !quiet {
            return false;
        }
        self.propagation.facts.list_writing();
        true
    }

    /// Rounds until nothing is new, each with the sets of the facts before it. Answers whether
    /// these have values.
    fn settle(&mut self) -> Result<bool, LearnError>
        requires open { self.old.propagation.facts.complete ≡ false }
        requires uncut { IsUncut (state_of W.sets W.moves R.rules B.store self.old.propagation.facts) }
        ensures spent { self.new.propagation.facts.work.infers ≤ self.old.propagation.facts.work.infers + left self.old.propagation.facts.work.inferred }
        ensures continues { Continues (state_of W.sets W.moves R.rules B.store self.old.propagation.facts) (state_of W.sets W.moves R.rules B.store self.new.propagation.facts) }
        ensures more { KeepsKnown (state_of W.sets W.moves R.rules B.store self.old.propagation.facts) (state_of W.sets W.moves R.rules B.store self.new.propagation.facts) }
        ensures settled { result ≡ Ok true → IsSettled (state_of W.sets W.moves R.rules B.store self.new.propagation.facts) }
        ensures loud { result ≡ Ok false → IsQuiet (setting_of W.sets W.moves R.rules self.new.propagation.facts) (told self.new.propagation.facts.known.log) → ⊥ }
        ensures halt { IfErr result (λ h. IsHalt (state_of W.sets W.moves R.rules B.store self.new.propagation.facts) h) }
        ensures begins { LearnsEndsFirst (state_of W.sets W.moves R.rules B.store self.old.propagation.facts) → LearnsEndsFirst (state_of W.sets W.moves R.rules B.store self.new.propagation.facts) }
        ensures halted { LearnsEndsFirst (state_of W.sets W.moves R.rules B.store self.old.propagation.facts) → IfErr result (λ _. HasEndsFirst (state_of W.sets W.moves R.rules B.store self.new.propagation.facts)) }
    {
        loop {
            let len = self.propagation.facts.len();
            let quiet = self.ready(len);
            if !quiet {
                return Ok(false);
            }
            let learnt = self.sweep()?;
            if !learnt {
                break;
            }
            self.settle_since()?;
        }
        Ok(true)
    }

    /// Learns all that follows, where nothing is known to be complete or contradictory yet.
    fn run(&mut self) -> Result<(), Stop>
        requires open { self.old.propagation.facts.complete ≡ false }
        requires calm { self.old.propagation.facts.conflict ≡ None }
        ensures outcome { Outcome (state_of W.sets W.moves R.rules B.store self.old.propagation.facts) (state_of W.sets W.moves R.rules B.store self.new.propagation.facts) result }
        ensures plain { result ≡ Err Stop.OutOfMemory → B.JOINS ≡ true → IsLined (timeline self.old.propagation.facts.paths) → ⊥ }
        ensures infers { self.new.propagation.facts.work.infers ≤ self.old.propagation.facts.work.infers + 12 * (timeline self.old.propagation.facts.paths).legs.count }
        ensures begins { LearnsEndsFirst (state_of W.sets W.moves R.rules B.store self.old.propagation.facts) → LearnsEndsFirst (state_of W.sets W.moves R.rules B.store self.new.propagation.facts) }
        ensures ends { LearnsEndsFirst (state_of W.sets W.moves R.rules B.store self.old.propagation.facts) → IsQuiet (setting_of W.sets W.moves R.rules self.old.propagation.facts) (ends_told (setting_of W.sets W.moves R.rules self.old.propagation.facts)) → (kind : ConflictKind) → result ≡ Err (Stop.Conflict kind) → KnowsEnds (setting_of W.sets W.moves R.rules self.old.propagation.facts) (told (oldest self.new.propagation.facts.shown self.new.propagation.facts.known.log)) }
    {
        self.propagation.facts.restart();
        match self.settle() {
            Ok(true) => {
                self.propagation.facts.finish();
                Ok(())
            }
            Ok(false) => Err(Stop::Conflict(self.stop_least())),
            Err(halt) => Err(self.stop(&halt)),
        }
    }

    /// Learns all that follows. A second call answers as the first did, but where memory ran out it
    /// goes on.
    pub(super) fn outcome(&mut self) -> Result<(), Stop>
        ensures outcome { Outcome (state_of W.sets W.moves R.rules B.store self.old.propagation.facts) (state_of W.sets W.moves R.rules B.store self.new.propagation.facts) result }
        ensures plain { result ≡ Err Stop.OutOfMemory → B.JOINS ≡ true → IsLined (timeline self.old.propagation.facts.paths) → ⊥ }
        ensures infers { self.new.propagation.facts.work.infers ≤ self.old.propagation.facts.work.infers + 12 * (timeline self.old.propagation.facts.paths).legs.count }
        ensures begins { LearnsEndsFirst (state_of W.sets W.moves R.rules B.store self.old.propagation.facts) → LearnsEndsFirst (state_of W.sets W.moves R.rules B.store self.new.propagation.facts) }
        ensures ends { self.old.propagation.facts.conflict ≡ None → LearnsEndsFirst (state_of W.sets W.moves R.rules B.store self.old.propagation.facts) → IsQuiet (setting_of W.sets W.moves R.rules self.old.propagation.facts) (ends_told (setting_of W.sets W.moves R.rules self.old.propagation.facts)) → (kind : ConflictKind) → result ≡ Err (Stop.Conflict kind) → KnowsEnds (setting_of W.sets W.moves R.rules self.old.propagation.facts) (told (oldest self.new.propagation.facts.shown self.new.propagation.facts.known.log)) }
        ensures again { (kind : ConflictKind) → self.old.propagation.facts.conflict ≡ Some kind → (result ≡ Err (Stop.Conflict kind)) × ((state_of W.sets W.moves R.rules B.store self.new.propagation.facts) ≡ (state_of W.sets W.moves R.rules B.store self.old.propagation.facts)) }
        ensures settled { self.old.propagation.facts.complete ≡ true → self.old.propagation.facts.conflict ≡ None → IsOk result × ((state_of W.sets W.moves R.rules B.store self.new.propagation.facts) ≡ (state_of W.sets W.moves R.rules B.store self.old.propagation.facts)) }
    {
        if let Some(kind) = self.propagation.facts.found_conflict() {
            return Err(Stop::Conflict(kind));
        }
        if self.propagation.facts.ended() {
            return Ok(());
        }
        self.run()
    }
}
