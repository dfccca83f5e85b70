//! What holds of an analysis as a whole.
#![tactic(auto, using(rept_timeline::specs::Paths::lawful))]

ghost use Rattle.rept_timeline.specs.Ends.{last_values_in};
ghost use Rattle.rept_timeline.specs.Paths.{timeline};
ghost use Rattle.std.specs.Prelude.{◌≡◌, ◌≤◌, ◌<◌, ℕ, Some, true};
ghost use Rattle.rept_reason.specs.Facts.{register_known};
ghost use Rattle.rept_facts.specs.State.{setting_of, state_of};
ghost use Rattle.rept_facts.specs.Kept.{answers, register_answer};
ghost use Rattle.rept_analysis.specs.Logged.{IsLogOf};

use super::Analysis;
use rept_reason::RowRules;
use rept_span::Transfer;
use rept_versions::ByteFacts;

impl<'a, B: ByteFacts, W: Transfer, R: RowRules> Analysis<'a, B, W, R> {
    /// For callers whose contracts speak of the report: what `reg` answers of registers is what the
    /// report has, once all is learnt, and the facts were learnt one by one. The call does nothing.
    pub fn account(&self)
        ensures few { (timeline self.now.propagation.facts.paths).legs.count ≤ 66560 }
        ensures last { (p r v : ℕ) → last_values_in self.now.propagation.facts.last p r ≡ Some v → r < 32 }
        ensures registers { self.now.propagation.facts.complete ≡ true → (p r : ℕ) → register_answer (state_of W.sets W.moves R.rules B.store self.now.propagation.facts) p r ≡ register_known (answers (state_of W.sets W.moves R.rules B.store self.now.propagation.facts)) p r }
        ensures log { self.now.propagation.facts.complete ≡ true → IsLogOf (setting_of W.sets W.moves R.rules self.now.propagation.facts) (answers (state_of W.sets W.moves R.rules B.store self.now.propagation.facts)) self.now.propagation.facts.known.log }
    {
        // for the proof alone
        let _ended = self.propagation.facts.ended();
    }
}
