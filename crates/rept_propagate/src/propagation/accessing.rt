//! The bytes that a row or the dump names, carried over the numbers around it, and from there away.

ghost use Rattle.rept_timeline.specs.Paths.{timeline};
ghost use Rattle.std.specs.Prelude.{◌≡◌, ◌≤◌, false, IfOk, IfErr, ⊤};
ghost use Rattle.rept_report.specs.Timeline.{IsStrip};
ghost use Rattle.rept_facts.specs.State.{state_of};
ghost use Rattle.rept_facts.specs.Inferring.{Grows, HasInferred, IsHalt, AreWritings};

use super::Propagation;
use super::carrying::has_all;
use super::likeness::WORD;
use rept_facts::LearnError;
use rept_reason::RowRules;
use rept_report::paths::Strip;
use rept_span::Transfer;
use rept_versions::ByteFacts;

impl<'a, B: ByteFacts, W: Transfer, R: RowRules> Propagation<'a, B, W, R> {
    /// Whether the same is known of a byte at all numbers of a strip, so that nothing is carried in
    /// it. Of a run that is one strip it isn't asked.
    fn is_even_in(&self, a: u32, strip: Strip) -> bool
        requires { strip.first ≤ (timeline self.now.facts.paths).moments.end }
    {
        !self.is_whole(strip) && self.even_to(a, strip.first) >= strip.last
    }

    /// The number of a strip after the last row before a number that may write a byte: the strip's
    /// first one, if none may in it.
    fn since_hit(&self, a: u32, number: u32, strip: Strip) -> u32
        requires writings { AreWritings (state_of W.sets W.moves R.rules B.store self.now.facts) }
        ensures { strip.first ≤ result }
    {
        let low = self.facts.listed_before(strip.first);
        let k = self.facts.past_hit(low, number, a);
        self.facts.number_past(k).max(strip.first)
    }

    /// The number of a strip before the next row from a number on that may write a byte: the
    /// strip's last one, if none may in it.
    fn until_hit(&self, a: u32, number: u32, strip: Strip) -> u32
        requires writings { AreWritings (state_of W.sets W.moves R.rules B.store self.now.facts) }
    {
        let low = self.facts.listed_before(number);
        let last = self.facts.listed_before(strip.last);
        match self.facts.next_hit(low, last, a) {
            None => strip.last,
            Some(hit) => self.facts.entry(hit).at.min(strip.last),
        }
    }

    /// Whether nothing would be new of a byte if it were carried over the numbers of a strip around
    /// one, between the rows next to it that may write it: nothing is known of it at any of them,
    /// or its value at all. Of a strip without a pause it isn't asked.
    fn is_idle_around(&self, a: u32, number: u32, strip: Strip) -> bool
        requires writings { AreWritings (state_of W.sets W.moves R.rules B.store self.now.facts) }
    {
        if strip.pause.is_none() {
            return false;
        }
        let from = self.since_hit(a, number, strip);
        let to = self.until_hit(a, number, strip);
        match self.facts.stretch(a, from) {
            None => true,
            Some(stretch) => to < stretch.first || has_all(&stretch, from, to),
        }
    }

    /// The value of a byte from where it is known around a number of a strip, down and up in the
    /// strip, number by number, as long as it is new.
    fn carry_beyond(&mut self, a: u32, number: u32, strip: Strip) -> Result<bool, LearnError>
        requires strip { IsStrip (timeline self.old.facts.paths) number strip }
        requires writings { AreWritings (state_of W.sets W.moves R.rules B.store self.old.facts) }
        requires open { self.old.facts.complete ≡ false }
        ensures grows { Grows (state_of W.sets W.moves R.rules B.store self.old.facts) (state_of W.sets W.moves R.rules B.store self.new.facts) }
        ensures inferred { IfOk result (λ learnt. HasInferred (state_of W.sets W.moves R.rules B.store self.old.facts) (state_of W.sets W.moves R.rules B.store self.new.facts) learnt (λ _. ⊤)) }
        ensures halt { IfErr result (λ h. IsHalt (state_of W.sets W.moves R.rules B.store self.new.facts) h) }
    {
        let from = self.since_hit(a, number, strip);
        let Some(stretch) = self.facts.stretch(a, from) else {
            return Ok(false);
        };
        if stretch.first > strip.last {
            return Ok(false);
        }
        let down = self.carry_down(a, strip, stretch.first)?;
        let up = self.carry_up(a, strip, stretch.last)?;
        Ok(down | up)
    }

    /// The value of a byte over the numbers around one, as far as it is carried in their strip.
    pub fn carry_around(&mut self, a: u32, point: u32) -> Result<bool, LearnError>
        requires writings { AreWritings (state_of W.sets W.moves R.rules B.store self.old.facts) }
        requires open { self.old.facts.complete ≡ false }
        ensures grows { Grows (state_of W.sets W.moves R.rules B.store self.old.facts) (state_of W.sets W.moves R.rules B.store self.new.facts) }
        ensures inferred { IfOk result (λ learnt. HasInferred (state_of W.sets W.moves R.rules B.store self.old.facts) (state_of W.sets W.moves R.rules B.store self.new.facts) learnt (λ _. ⊤)) }
        ensures halt { IfErr result (λ h. IsHalt (state_of W.sets W.moves R.rules B.store self.new.facts) h) }
    {
        let number = point.min(self.facts.end());
        let strip = self.facts.strip(number);
        if self.is_even_in(a, strip) || self.is_idle_around(a, number, strip) {
            return Ok(false);
        }
        if !self.is_calm(a, strip) {
            return self.carry_beyond(a, number, strip);
        }
        let piece = self.piece(a, number, strip);
        self.carry_segment(a, piece.from, piece.to)
    }

    /// Whether a byte is known from the same number on up to the same one as another byte, each by
    /// its first stretch that ends at a number or later.
    fn is_known_with(&self, a: u32, b: u32, number: u32) -> bool {
        let Some(stretch) = self.facts.stretch(a, number) else {
            return false;
        };
        let Some(other) = self.facts.stretch(b, number) else {
            return false;
        };
        stretch.first == other.first && stretch.last == other.last
    }

    /// Whether a byte isn't the first one of its word, and is known where that one is at both ends
    /// of a strip, so that it follows that one.
    fn goes_with_first(&self, a: u32, strip: Strip) -> bool {
        let first = a - a % WORD;
        first != a
            && self.is_known_with(first, a, strip.first)
            && self.is_known_with(first, a, strip.last)
    }

    /// The value of a byte from the strip around a number back and forth, unless it is known where
    /// the first one of its word is, which it follows.
    pub fn carry_away(&mut self, a: u32, point: u32) -> Result<bool, LearnError>
        requires writings { AreWritings (state_of W.sets W.moves R.rules B.store self.old.facts) }
        requires open { self.old.facts.complete ≡ false }
        ensures grows { Grows (state_of W.sets W.moves R.rules B.store self.old.facts) (state_of W.sets W.moves R.rules B.store self.new.facts) }
        ensures inferred { IfOk result (λ learnt. HasInferred (state_of W.sets W.moves R.rules B.store self.old.facts) (state_of W.sets W.moves R.rules B.store self.new.facts) learnt (λ _. ⊤)) }
        ensures halt { IfErr result (λ h. IsHalt (state_of W.sets W.moves R.rules B.store self.new.facts) h) }
    {
        let strip = self.facts.strip(point.min(self.facts.end()));
        if self.is_whole(strip) || !self.has_value(a) || self.goes_with_first(a, strip) {
            return Ok(false);
        }
        let back = self.carry_back(a, strip.first)?;
        let forth = self.carry_forth(a, strip.last)?;
        Ok(back | forth)
    }

    /// Carries a byte of which something was learnt lately from the strip around a number back and
    /// forth. Any other byte was carried there before.
    fn carry_recent(&mut self, a: u32, point: u32) -> Result<bool, LearnError>
        requires writings { AreWritings (state_of W.sets W.moves R.rules B.store self.old.facts) }
        requires open { self.old.facts.complete ≡ false }
        ensures grows { Grows (state_of W.sets W.moves R.rules B.store self.old.facts) (state_of W.sets W.moves R.rules B.store self.new.facts) }
        ensures inferred { IfOk result (λ learnt. HasInferred (state_of W.sets W.moves R.rules B.store self.old.facts) (state_of W.sets W.moves R.rules B.store self.new.facts) learnt (λ _. ⊤)) }
        ensures halt { IfErr result (λ h. IsHalt (state_of W.sets W.moves R.rules B.store self.new.facts) h) }
    {
        if !self.recent.has(a) {
            return Ok(false);
        }
        self.carry_around(a, point)
    }

    /// Carries each of some bytes from an address on in the strip around a number, where something
    /// was learnt of it lately.
    fn carry_near(&mut self, point: u32, start: u32, count: u32) -> Result<bool, LearnError>
        requires writings { AreWritings (state_of W.sets W.moves R.rules B.store self.old.facts) }
        requires open { self.old.facts.complete ≡ false }
        ensures grows { Grows (state_of W.sets W.moves R.rules B.store self.old.facts) (state_of W.sets W.moves R.rules B.store self.new.facts) }
        ensures inferred { IfOk result (λ learnt. HasInferred (state_of W.sets W.moves R.rules B.store self.old.facts) (state_of W.sets W.moves R.rules B.store self.new.facts) learnt (λ _. ⊤)) }
        ensures halt { IfErr result (λ h. IsHalt (state_of W.sets W.moves R.rules B.store self.new.facts) h) }
    {
        let mut learnt = false;
        for k in 0..count {
            let new = self.carry_recent(start.wrapping_add(k), point)?;
            learnt = learnt | new;
        }
        Ok(learnt)
    }

    /// Carries each of some bytes from an address on back and forth from the strip around a number.
    fn carry_far(&mut self, point: u32, start: u32, count: u32) -> Result<bool, LearnError>
        requires writings { AreWritings (state_of W.sets W.moves R.rules B.store self.old.facts) }
        requires open { self.old.facts.complete ≡ false }
        ensures grows { Grows (state_of W.sets W.moves R.rules B.store self.old.facts) (state_of W.sets W.moves R.rules B.store self.new.facts) }
        ensures inferred { IfOk result (λ learnt. HasInferred (state_of W.sets W.moves R.rules B.store self.old.facts) (state_of W.sets W.moves R.rules B.store self.new.facts) learnt (λ _. ⊤)) }
        ensures halt { IfErr result (λ h. IsHalt (state_of W.sets W.moves R.rules B.store self.new.facts) h) }
    {
        let mut learnt = false;
        for k in 0..count {
            let new = self.carry_away(start.wrapping_add(k), point)?;
            learnt = learnt | new;
        }
        Ok(learnt)
    }

    /// Carries bytes in the strip around a number, and where that told something new, back and
    /// forth. In the first round it does nothing.
    pub fn carry_bytes(&mut self, point: u32, start: u32, count: u32) -> Result<bool, LearnError>
        requires writings { AreWritings (state_of W.sets W.moves R.rules B.store self.old.facts) }
        requires open { self.old.facts.complete ≡ false }
        ensures grows { Grows (state_of W.sets W.moves R.rules B.store self.old.facts) (state_of W.sets W.moves R.rules B.store self.new.facts) }
        ensures inferred { IfOk result (λ learnt. HasInferred (state_of W.sets W.moves R.rules B.store self.old.facts) (state_of W.sets W.moves R.rules B.store self.new.facts) learnt (λ _. ⊤)) }
        ensures halt { IfErr result (λ h. IsHalt (state_of W.sets W.moves R.rules B.store self.new.facts) h) }
    {
        if self.facts.is_first_round() {
            return Ok(false);
        }
        let near = self.carry_near(point, start, count)?;
        if !near {
            return Ok(false);
        }
        let far = self.carry_far(point, start, count)?;
        Ok(near | far)
    }
}
