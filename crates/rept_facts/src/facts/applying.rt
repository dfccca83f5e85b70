//! What the rules of a row and the sets let one infer, and how far rules were applied.

ghost use Rattle.rept_timeline.specs.Paths.{timeline};
ghost use Rattle.std.specs.Prelude.{◌≡◌, ◌≤◌, set, ◌+◌, ◌<◌, length, false, IfOk, IfErr, Some, None, Ok, slice_get};
ghost use Rattle.rept_isa.specs.declared.row.StepRow.{StepRow};
ghost use Rattle.rept_reason.specs.declared.view.inferred.Conclusion.{Conclusion};
ghost use Rattle.rept_log.specs.Around.{around};
ghost use Rattle.rept_writing.specs.declared.passes.pass.Pass.{Pass};
ghost use Rattle.rept_facts.specs.Kept.{IsPass};
ghost use Rattle.rept_facts.specs.State.{state_of, with_infers, with_inferred};
ghost use Rattle.rept_facts.specs.Inferring.{Grows, HasInferred, IsHalt, IsUncut, IsFitted, Continues, SingleKnown};
ghost use Rattle.rept_log.specs.Known.{known_of};

use super::CrashFacts;
use crate::halt::LearnError;
use rept_isa::{Reg, StepRow};
use rept_log::Around;
use rept_partial::Flat;
use rept_reason::{Conclusion, RowRules};
use rept_span::Transfer;
use rept_versions::ByteFacts;
use rept_writing::Pass;
use smallvec::SmallVec;

impl<'a, B: ByteFacts, W: Transfer, R: RowRules> CrashFacts<'a, B, W, R> {
    /// What row i lets one infer.
    pub fn list_inferred(&mut self, i: u32, row: &StepRow) -> SmallVec<Conclusion, 16>
        requires inside { i < (timeline self.old.paths).legs.count }
        requires row { (timeline self.old.paths).legs.row i ≡ Some row.now }
        requires open { self.old.complete ≡ false }
        ensures list { result.items ≡ R.rules.infer row.now (around (timeline self.old.paths).moments (known_of B.store self.old.known) i) }
        ensures same { (state_of W.sets W.moves R.rules B.store self.new) ≡ with_infers (state_of W.sets W.moves R.rules B.store self.old) self.new.work.infers }
        ensures once { self.new.work.infers ≤ self.old.work.infers + 1 }
    {
        // for the proof alone
        let _len = self.known.len();
        let _paths = self.paths;
        let view = Around {
            facts: &self.known,
            paths: self.paths,
            row: i,
        };
        self.rules.infer(self.alloc, row, &view)
    }

    /// How far row i's rules were applied.
    pub fn pass(&self, i: u32) -> Pass
        requires { i < (timeline self.now.paths).legs.count }
        ensures { slice_get self.now.work.inferred i ≡ Some result }
    {
        // for the proof alone
        let _paths = self.paths;
        self.inferred.at(i)
    }

    /// Keeps how far they were.
    pub fn keep_pass(&mut self, i: u32, pass: Pass)
        requires inside { i < (timeline self.old.paths).legs.count }
        requires pass { (row : StepRow) → (timeline self.old.paths).legs.row i ≡ Some row → IsPass row i pass (state_of W.sets W.moves R.rules B.store self.old) }
        requires open { self.old.complete ≡ false }
        ensures { (state_of W.sets W.moves R.rules B.store self.new) ≡ with_inferred (state_of W.sets W.moves R.rules B.store self.old) (set self.old.work.inferred i pass) }
    {
        // for the proof alone
        let _paths = self.paths;
        self.inferred.put(i, pass);
    }

    /// Forgets how far rules were applied.
    pub fn restart(&mut self)
        requires open { self.old.complete ≡ false }
        ensures continues { Continues (state_of W.sets W.moves R.rules B.store self.old) (state_of W.sets W.moves R.rules B.store self.new) }
        ensures facts { self.new.known ≡ self.old.known }
        ensures infers { self.new.work.infers ≡ self.old.work.infers }
        ensures rows { length self.new.work.inferred ≡ (timeline self.old.paths).legs.count }
        ensures uncut { IsUncut (state_of W.sets W.moves R.rules B.store self.new) }
    {
        // for the proof alone
        let _paths = self.paths;
        self.inferred.clear();
    }

    /// A set of one value, as the sets were filled.
    pub fn infer_single(&mut self, point: u32, r: Reg) -> Result<bool, LearnError>
        requires point { point ≤ (timeline self.old.paths).legs.count }
        requires fitted { IsFitted (state_of W.sets W.moves R.rules B.store self.old) }
        requires open { self.old.complete ≡ false }
        ensures grows { Grows (state_of W.sets W.moves R.rules B.store self.old) (state_of W.sets W.moves R.rules B.store self.new) }
        ensures inferred { IfOk result (λ learnt. HasInferred (state_of W.sets W.moves R.rules B.store self.old) (state_of W.sets W.moves R.rules B.store self.new) learnt (SingleKnown point r)) }
        ensures halt { IfErr result (λ h. IsHalt (state_of W.sets W.moves R.rules B.store self.new) h) }
    {
        self.held();
        // for the proof alone
        let _number = r.number();
        if self.known.is_known_below(self.filled, point, r) {
            return Ok(false);
        }
        let span = self.span(point, r);
        match span.as_exact() {
            None => Ok(false),
            Some(v) => self.learn_if(point, r, Flat::Known(v)),
        }
    }
}
