//! The bytes of a word go together: where something new is told of the first, the same step is
//! taken with the others.

ghost use Rattle.rept_timeline.specs.Paths.{timeline};
ghost use Rattle.std.specs.Prelude.{◌≡◌, ◌<◌, ◌≤◌, false, IfOk, IfErr, ⊤};
ghost use Rattle.rept_report.specs.Timeline.{IsStrip};
ghost use Rattle.rept_facts.specs.State.{state_of};
ghost use Rattle.rept_facts.specs.Inferring.{IsTracked, Grows, HasInferred, IsHalt, AreWritings};
ghost use Rattle.rept_propagate.specs.Steps.{IsStepWithin};

use super::Propagation;
use super::likeness::WORD;
use crate::step::WordStep;
use rept_facts::LearnError;
use rept_reason::RowRules;
use rept_report::NumberWindow;
use rept_report::paths::Strip;
use rept_span::Transfer;
use rept_versions::ByteFacts;

impl<'a, B: ByteFacts, W: Transfer, R: RowRules> Propagation<'a, B, W, R> {
    /// The value of a byte in the strip around a number, up from it, and on to the numbers next to
    /// its last one.
    fn carry_at(&mut self, a: u32, number: u32) -> Result<bool, LearnError>
        requires inside { number ≤ (timeline self.old.facts.paths).moments.end }
        requires tracked { IsTracked a (state_of W.sets W.moves R.rules B.store self.old.facts) }
        requires writings { AreWritings (state_of W.sets W.moves R.rules B.store self.old.facts) }
        requires open { self.old.facts.complete ≡ false }
        ensures grows { Grows (state_of W.sets W.moves R.rules B.store self.old.facts) (state_of W.sets W.moves R.rules B.store self.new.facts) }
        ensures inferred { IfOk result (λ learnt. HasInferred (state_of W.sets W.moves R.rules B.store self.old.facts) (state_of W.sets W.moves R.rules B.store self.new.facts) learnt (λ _. ⊤)) }
        ensures halt { IfErr result (λ h. IsHalt (state_of W.sets W.moves R.rules B.store self.new.facts) h) }
    {
        let strip = self.facts.strip(number);
        let inside = self.carry_strip(a, strip)?;
        let up = self.leap_end(a, strip.last)?;
        let links = self.carry_links(a, strip.last)?;
        Ok(inside | up | links)
    }

    /// A step with a byte that is known anywhere.
    fn take_step(&mut self, a: u32, step: WordStep) -> Result<bool, LearnError>
        requires within { IsStepWithin (timeline self.old.facts.paths).moments.end step }
        requires tracked { IsTracked a (state_of W.sets W.moves R.rules B.store self.old.facts) }
        requires writings { AreWritings (state_of W.sets W.moves R.rules B.store self.old.facts) }
        requires open { self.old.facts.complete ≡ false }
        ensures grows { Grows (state_of W.sets W.moves R.rules B.store self.old.facts) (state_of W.sets W.moves R.rules B.store self.new.facts) }
        ensures inferred { IfOk result (λ learnt. HasInferred (state_of W.sets W.moves R.rules B.store self.old.facts) (state_of W.sets W.moves R.rules B.store self.new.facts) learnt (λ _. ⊤)) }
        ensures halt { IfErr result (λ h. IsHalt (state_of W.sets W.moves R.rules B.store self.new.facts) h) }
    {
        match step {
            WordStep::Down { number } => {
                let down = self.leap_down(a, number)?;
                Ok(down.0)
            }
            WordStep::Former { first, known } => {
                let former = self.carry_former(a, first, known)?;
                Ok(former.0)
            }
            WordStep::Later { first } => {
                let later = self.carry_later(a, first)?;
                Ok(later.0)
            }
            WordStep::Onward { number } => self.carry_at(a, number),
        }
    }

    /// Takes the step with a byte of which something may be known.
    fn follow_with(&mut self, a: u32, step: WordStep) -> Result<bool, LearnError>
        requires within { IsStepWithin (timeline self.old.facts.paths).moments.end step }
        requires writings { AreWritings (state_of W.sets W.moves R.rules B.store self.old.facts) }
        requires open { self.old.facts.complete ≡ false }
        ensures grows { Grows (state_of W.sets W.moves R.rules B.store self.old.facts) (state_of W.sets W.moves R.rules B.store self.new.facts) }
        ensures inferred { IfOk result (λ learnt. HasInferred (state_of W.sets W.moves R.rules B.store self.old.facts) (state_of W.sets W.moves R.rules B.store self.new.facts) learnt (λ _. ⊤)) }
        ensures halt { IfErr result (λ h. IsHalt (state_of W.sets W.moves R.rules B.store self.new.facts) h) }
    {
        if !self.has_value(a) {
            return Ok(false);
        }
        self.take_step(a, step)
    }

    /// Takes the step with the other bytes of a word, after it told something new of the word's
    /// first byte. After another byte it does nothing. That this is done at once saves that these
    /// are gone over, too: no clause rests on it.
    fn follow(&mut self, a: u32, step: WordStep) -> Result<bool, LearnError>
        requires within { IsStepWithin (timeline self.old.facts.paths).moments.end step }
        requires writings { AreWritings (state_of W.sets W.moves R.rules B.store self.old.facts) }
        requires open { self.old.facts.complete ≡ false }
        ensures grows { Grows (state_of W.sets W.moves R.rules B.store self.old.facts) (state_of W.sets W.moves R.rules B.store self.new.facts) }
        ensures inferred { IfOk result (λ learnt. HasInferred (state_of W.sets W.moves R.rules B.store self.old.facts) (state_of W.sets W.moves R.rules B.store self.new.facts) learnt (λ _. ⊤)) }
        ensures halt { IfErr result (λ h. IsHalt (state_of W.sets W.moves R.rules B.store self.new.facts) h) }
    {
        if a % WORD != 0 {
            return Ok(false);
        }
        let mut learnt = false;
        for k in 1..WORD {
            let new = self.follow_with(a.wrapping_add(k), step)?;
            learnt = learnt | new;
        }
        Ok(learnt)
    }

    /// Takes the step with the other bytes of a word, where there are news of the first one.
    pub(super) fn follow_if(
        &mut self,
        has_news: bool,
        a: u32,
        step: WordStep,
    ) -> Result<bool, LearnError>
        requires within { IsStepWithin (timeline self.old.facts.paths).moments.end step }
        requires writings { AreWritings (state_of W.sets W.moves R.rules B.store self.old.facts) }
        requires open { self.old.facts.complete ≡ false }
        ensures grows { Grows (state_of W.sets W.moves R.rules B.store self.old.facts) (state_of W.sets W.moves R.rules B.store self.new.facts) }
        ensures inferred { IfOk result (λ learnt. HasInferred (state_of W.sets W.moves R.rules B.store self.old.facts) (state_of W.sets W.moves R.rules B.store self.new.facts) learnt (λ _. ⊤)) }
        ensures halt { IfErr result (λ h. IsHalt (state_of W.sets W.moves R.rules B.store self.new.facts) h) }
    {
        if !has_news {
            return Ok(false);
        }
        self.follow(a, step)
    }

    /// The value of a byte around a number, down as far as it goes at once; and so with the others
    /// of its word, where it was new. Answers whether it was, and the first number of it.
    pub(super) fn down_together(&mut self, a: u32, number: u32) -> Result<(bool, u32), LearnError>
        requires inside { number ≤ (timeline self.old.facts.paths).moments.end }
        requires writings { AreWritings (state_of W.sets W.moves R.rules B.store self.old.facts) }
        requires open { self.old.facts.complete ≡ false }
        ensures grows { Grows (state_of W.sets W.moves R.rules B.store self.old.facts) (state_of W.sets W.moves R.rules B.store self.new.facts) }
        ensures inferred { IfOk result (λ ended. HasInferred (state_of W.sets W.moves R.rules B.store self.old.facts) (state_of W.sets W.moves R.rules B.store self.new.facts) ended.0 (λ _. ⊤)) }
        ensures halt { IfErr result (λ h. IsHalt (state_of W.sets W.moves R.rules B.store self.new.facts) h) }
        ensures down { IfOk result (λ ended. ended.1 ≤ number) }
    {
        let down = self.leap_down(a, number)?;
        let others = self.follow_if(down.0, a, WordStep::Down { number })?;
        Ok((down.0 | others, down.1))
    }

    /// The value of a byte to the end of the strip before a number from those of a window that are
    /// next to it, and down from there, where it isn't known there; and so with the others of its
    /// word, where it was new. Answers whether it was, and a number up to which it was looked for.
    pub(super) fn former_together(
        &mut self,
        a: u32,
        first: u32,
        known: NumberWindow,
    ) -> Result<(bool, u32), LearnError>
        requires some { 0 < first }
        requires inside { first ≤ (timeline self.old.facts.paths).moments.end }
        requires tracked { IsTracked a (state_of W.sets W.moves R.rules B.store self.old.facts) }
        requires writings { AreWritings (state_of W.sets W.moves R.rules B.store self.old.facts) }
        requires open { self.old.facts.complete ≡ false }
        ensures grows { Grows (state_of W.sets W.moves R.rules B.store self.old.facts) (state_of W.sets W.moves R.rules B.store self.new.facts) }
        ensures inferred { IfOk result (λ ended. HasInferred (state_of W.sets W.moves R.rules B.store self.old.facts) (state_of W.sets W.moves R.rules B.store self.new.facts) ended.0 (λ _. ⊤)) }
        ensures halt { IfErr result (λ h. IsHalt (state_of W.sets W.moves R.rules B.store self.new.facts) h) }
        ensures down { IfOk result (λ ended. ended.1 < first) }
    {
        let former = self.carry_former(a, first, known)?;
        let others = self.follow_if(former.0, a, WordStep::Former { first, known })?;
        Ok((former.0 | others, former.1))
    }

    /// The value of a byte in the strip around a number, up from it, and on to the numbers next to
    /// it, where it is known there; and so with the others of its word, where it was new. Answers
    /// whether it was, and its last number.
    pub(super) fn later_together(&mut self, a: u32, first: u32) -> Result<(bool, u32), LearnError>
        requires inside { first ≤ (timeline self.old.facts.paths).moments.end }
        requires tracked { IsTracked a (state_of W.sets W.moves R.rules B.store self.old.facts) }
        requires writings { AreWritings (state_of W.sets W.moves R.rules B.store self.old.facts) }
        requires open { self.old.facts.complete ≡ false }
        ensures grows { Grows (state_of W.sets W.moves R.rules B.store self.old.facts) (state_of W.sets W.moves R.rules B.store self.new.facts) }
        ensures inferred { IfOk result (λ ended. HasInferred (state_of W.sets W.moves R.rules B.store self.old.facts) (state_of W.sets W.moves R.rules B.store self.new.facts) ended.0 (λ _. ⊤)) }
        ensures halt { IfErr result (λ h. IsHalt (state_of W.sets W.moves R.rules B.store self.new.facts) h) }
        ensures up { IfOk result (λ ended. (first ≤ ended.1) × (ended.1 ≤ (timeline self.old.facts.paths).moments.end)) }
    {
        let later = self.carry_later(a, first)?;
        let others = self.follow_if(later.0, a, WordStep::Later { first })?;
        Ok((later.0 | others, later.1))
    }

    /// The value of a byte from a number to those that are next to it, where it is known there; and
    /// where it was new, the others of its word in the strip around the number, and on from it.
    pub(super) fn links_together(&mut self, a: u32, number: u32) -> Result<bool, LearnError>
        requires inside { number ≤ (timeline self.old.facts.paths).moments.end }
        requires tracked { IsTracked a (state_of W.sets W.moves R.rules B.store self.old.facts) }
        requires writings { AreWritings (state_of W.sets W.moves R.rules B.store self.old.facts) }
        requires open { self.old.facts.complete ≡ false }
        ensures grows { Grows (state_of W.sets W.moves R.rules B.store self.old.facts) (state_of W.sets W.moves R.rules B.store self.new.facts) }
        ensures inferred { IfOk result (λ learnt. HasInferred (state_of W.sets W.moves R.rules B.store self.old.facts) (state_of W.sets W.moves R.rules B.store self.new.facts) learnt (λ _. ⊤)) }
        ensures halt { IfErr result (λ h. IsHalt (state_of W.sets W.moves R.rules B.store self.new.facts) h) }
    {
        let links = self.carry_links_on(a, number)?;
        let others = self.follow_if(links, a, WordStep::Onward { number })?;
        Ok(links | others)
    }

    /// The value of a byte in a strip; and where it was new, the others of its word in it, and on
    /// from it.
    pub(super) fn strip_together(&mut self, a: u32, strip: Strip) -> Result<bool, LearnError>
        requires strip { IsStrip (timeline self.old.facts.paths) strip.first strip }
        requires writings { AreWritings (state_of W.sets W.moves R.rules B.store self.old.facts) }
        requires open { self.old.facts.complete ≡ false }
        ensures grows { Grows (state_of W.sets W.moves R.rules B.store self.old.facts) (state_of W.sets W.moves R.rules B.store self.new.facts) }
        ensures inferred { IfOk result (λ learnt. HasInferred (state_of W.sets W.moves R.rules B.store self.old.facts) (state_of W.sets W.moves R.rules B.store self.new.facts) learnt (λ _. ⊤)) }
        ensures halt { IfErr result (λ h. IsHalt (state_of W.sets W.moves R.rules B.store self.new.facts) h) }
    {
        let inside = self.carry_strip(a, strip)?;
        let number = strip.first;
        let others = self.follow_if(inside, a, WordStep::Onward { number })?;
        Ok(inside | others)
    }
}
