//! Bytes of which something is learnt, and that this is noted.

ghost use Rattle.rept_timeline.specs.Paths.{timeline};
ghost use Rattle.std.specs.Prelude.{◌≡◌, ◌≤◌, true, false, IfOk, IfErr};
ghost use Rattle.rept_reason.specs.declared.fact.Cell.TheVariants.{Byte};
ghost use Rattle.rept_facts.specs.State.{state_of};
ghost use Rattle.rept_report.specs.Why.{fact_of};
ghost use Rattle.rept_facts.specs.Inferring.{Knows, IsTracked, Grows, HasInferred, IsFollowing, IsBrought, IsHalt, HasPlace};

use super::Propagation;
use rept_facts::LearnError;
use rept_reason::RowRules;
use rept_span::Transfer;
use rept_versions::ByteFacts;

impl<'a, B: ByteFacts, W: Transfer, R: RowRules> Propagation<'a, B, W, R> {
    /// Keeps that something was learnt of a byte.
    pub(super) fn note_byte(&mut self, a: u32)
        ensures { self.new.facts ≡ self.old.facts }
    {
        self.recent.note(a);
    }

    /// Adds a byte's value that follows, says whether it was new, and notes the byte if so.
    pub fn learn_byte(
        &mut self,
        point: u32,
        a: u32,
        value: u8,
        keep: bool,
    ) -> Result<bool, LearnError>
        requires point { point ≤ (timeline self.old.facts.paths).moments.end }
        requires tracked { IsTracked a (state_of W.sets W.moves R.rules B.store self.old.facts) }
        requires follows { IsFollowing (state_of W.sets W.moves R.rules B.store self.old.facts) (fact_of point (Byte a) value) }
        requires brought { keep ≡ false → IsBrought (state_of W.sets W.moves R.rules B.store self.old.facts) (fact_of point (Byte a) value) }
        requires place { HasPlace keep point a (state_of W.sets W.moves R.rules B.store self.old.facts) }
        requires open { self.old.facts.complete ≡ false }
        ensures grows { Grows (state_of W.sets W.moves R.rules B.store self.old.facts) (state_of W.sets W.moves R.rules B.store self.new.facts) }
        ensures inferred { IfOk result (λ learnt. HasInferred (state_of W.sets W.moves R.rules B.store self.old.facts) (state_of W.sets W.moves R.rules B.store self.new.facts) learnt (Knows point (Byte a) value)) }
        ensures known { IfOk result (λ _. Knows point (Byte a) value (state_of W.sets W.moves R.rules B.store self.new.facts)) }
        ensures still { self.new.facts.work ≡ self.old.facts.work }
        ensures halt { IfErr result (λ h. IsHalt (state_of W.sets W.moves R.rules B.store self.new.facts) h) }
    {
        let new = self.facts.add_byte(point, a, value, keep)?;
        if !new {
            return Ok(false);
        }
        self.note_byte(a);
        Ok(true)
    }
}
