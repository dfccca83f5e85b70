//! How far a byte's value goes at once, and over all moments.
#![tactic(auto, using(rept_timeline::specs::Paths::lawful))]

ghost use Rattle.rept_timeline.specs.Paths.{timeline};
ghost use Rattle.std.specs.Prelude.{◌≡◌, ◌+◌, ◌<◌, ◌≤◌, ℕ, length, false, true, IsSome, IfSome, IfOk, IfErr, ⊤};
ghost use Rattle.rept_reason.specs.declared.fact.Cell.TheVariants.{Byte};
ghost use Rattle.rept_report.specs.Timeline.{IsStrip};
ghost use Rattle.rept_facts.specs.State.{state_of};
ghost use Rattle.rept_facts.specs.Inferring.{Knows, IsTracked, Grows, HasInferred, IsHalt, AreWritings, IsEven, IsCarriedUpTo, IsCarriedAlong, AllCarried, AreLinks, IsCarriedIf, IsHitBy, IsLeapUp, IsLeapDown, IsEvenAround};
ghost use Rattle.rept_propagate.specs.Likeness.{IsCurrent};

use super::Propagation;
use super::carrying::border;
use crate::step::WordStep;
use rept_facts::{ByteLeap, LearnError};
use rept_reason::RowRules;
use rept_report::NumberWindow;
use rept_report::paths::Strip;
use rept_span::Transfer;
use rept_versions::ByteFacts;

/// How far back one looks at first for numbers at which the same is known.
const FAR: u32 = 4096;

/// How far back one looks where `FAR` was too far.
const NEAR: u32 = 256;

impl<'a, B: ByteFacts, W: Transfer, R: RowRules> Propagation<'a, B, W, R> {
    /// A number up to which from another one on the same is known of a byte: the last before its
    /// value begins or at which it ends.
    pub(super) fn even_to(&self, a: u32, from: u32) -> u32
        requires { from ≤ (timeline self.now.facts.paths).moments.end }
        ensures even { IsEven a from result (state_of W.sets W.moves R.rules B.store self.now.facts) }
        ensures order { from ≤ result }
        ensures inside { result ≤ (timeline self.now.facts.paths).moments.end }
    {
        let end = self.facts.end();
        match self.facts.stretch(a, from) {
            None => end,
            Some(stretch) => end.min(border(&stretch, from)),
        }
    }

    /// Numbers around one at which the same is known of a byte, by the first stretch that ends at
    /// another one or later.
    fn window_from(&self, a: u32, since: u32, number: u32) -> Option<NumberWindow>
        requires order { since ≤ number }
        requires inside { number ≤ (timeline self.now.facts.paths).moments.end }
        ensures window { IfSome result (λ known. IsEvenAround a number known (state_of W.sets W.moves R.rules B.store self.now.facts)) }
    {
        let end = self.facts.end();
        match self.facts.stretch(a, since) {
            None => Some(NumberWindow {
                from: since,
                to: end + 1,
            }),
            Some(stretch) if stretch.last < number => None,
            Some(stretch) if number < stretch.first => Some(NumberWindow {
                from: since,
                to: stretch.first.min(end + 1),
            }),
            Some(stretch) => Some(NumberWindow {
                from: since.max(stretch.first),
                to: stretch.last.min(end) + 1,
            }),
        }
    }

    /// Numbers around one at which the same is known of a byte: those before it are looked for a
    /// while back.
    fn even_around(&self, a: u32, number: u32) -> NumberWindow
        requires inside { number ≤ (timeline self.now.facts.paths).moments.end }
        ensures { IsEvenAround a number result (state_of W.sets W.moves R.rules B.store self.now.facts) }
    {
        if let Some(known) = self.window_from(a, number.saturating_sub(FAR), number) {
            return known;
        }
        match self.window_from(a, number.saturating_sub(NEAR), number) {
            Some(known) => known,
            None => NumberWindow {
                from: number,
                to: self.even_to(a, number) + 1,
            },
        }
    }

    /// A number from one on, before which a byte goes over the end of no strip: the same is known
    /// from the one up to another one, and at the last number of each strip on the way a byte
    /// stopped at a row that may write this one, too.
    fn walled_to(&self, a: u32, from: u32, last: u32) -> u32
        requires order { from ≤ last }
        requires inside { last ≤ (timeline self.now.facts.paths).moments.end }
        requires even { IsEven a from last (state_of W.sets W.moves R.rules B.store self.now.facts) }
        requires writings { AreWritings (state_of W.sets W.moves R.rules B.store self.now.facts) }
        ensures order { from ≤ result }
        ensures up { IsCarriedUpTo a from (state_of W.sets W.moves R.rules B.store self.now.facts) → IsCarriedUpTo a result (state_of W.sets W.moves R.rules B.store self.now.facts) }
    {
        let mut number = from;
        while number <= last {
            let strip = self.facts.strip(number);
            if last < strip.last || !self.is_walled(a, strip.last) {
                return number;
            }
            number = strip.last + 1;
        }
        number
    }

    /// A number from one on, before which a byte is carried no further: the same is known of it at
    /// each number from there on and at those next to it, or a row that may write it may act
    /// between them.
    fn uneven_from(&self, a: u32, from: u32) -> u32
        requires writings { AreWritings (state_of W.sets W.moves R.rules B.store self.now.facts) }
        ensures order { from ≤ result }
        ensures up { IsCarriedUpTo a from (state_of W.sets W.moves R.rules B.store self.now.facts) → IsCarriedUpTo a result (state_of W.sets W.moves R.rules B.store self.now.facts) }
    {
        if from > self.facts.end() {
            return from;
        }
        let known = self.even_around(a, from);
        let walled = self.walled_to(a, from, known.to - 1);
        self.shut_to(a, walled, known)
    }

    /// A number from one on that is next to another one, which stands in a window, before which
    /// from there on the byte goes nowhere: the same is known in the window, or a row may act
    /// between.
    fn idle_past(&self, a: u32, m: u32, next: u32, known: NumberWindow, row: Option<u32>) -> u32
        requires even { IsEvenAround a m known (state_of W.sets W.moves R.rules B.store self.now.facts) }
        requires writings { AreWritings (state_of W.sets W.moves R.rules B.store self.now.facts) }
        requires next { (timeline self.now.facts.paths).moments.next m next ≡ true }
        requires there { IfSome row (λ i. IsSome ((timeline self.now.facts.paths).legs.row i)) }
        requires hits { IfSome row (λ i. IsHitBy a i (state_of W.sets W.moves R.rules B.store self.now.facts)) }
        ensures order { next ≤ result }
        ensures idle { (v : ℕ) → next ≤ v → v < result → IsCarriedIf (record { address = a; from = m; to = v }) (state_of W.sets W.moves R.rules B.store self.now.facts) }
    {
        if known.from <= next && next < known.to {
            return known.to;
        }
        if self.is_shut(a, m, next, row) {
            next + 1
        } else {
            next
        }
    }

    /// Whether it is seen at once that a byte goes from a number of a window, at all of whose
    /// numbers the same is known of it, to none that is next to it: a row of the list that may
    /// write it, if one is named, may act before those outside.
    fn is_idle(&self, a: u32, m: u32, known: NumberWindow, index: Option<usize>) -> bool
        requires even { IsEvenAround a m known (state_of W.sets W.moves R.rules B.store self.now.facts) }
        requires inside { m ≤ (timeline self.now.facts.paths).moments.end }
        requires writings { AreWritings (state_of W.sets W.moves R.rules B.store self.now.facts) }
        ensures { result ≡ true → AreLinks a m (state_of W.sets W.moves R.rules B.store self.now.facts) }
    {
        let end = self.facts.end();
        let row = self.listed_hit(a, index);
        let mut least = 0;
        while least <= end {
            let Some(next) = self.facts.next_from(m, least) else {
                return true;
            };
            least = self.idle_past(a, m, next, known, row);
            if least == next {
                return false;
            }
        }
        true
    }

    /// A number from one of a window on, at all of whose numbers the same is known of a byte,
    /// before which it is carried no further: the same is known at those next to them, too, or a
    /// row may act between that may write it, as the one of the list that stands at the window's
    /// end.
    fn shut_to(&self, a: u32, from: u32, known: NumberWindow) -> u32
        requires since { known.from ≤ from }
        requires even { (number : ℕ) × IsEvenAround a number known (state_of W.sets W.moves R.rules B.store self.now.facts) }
        requires writings { AreWritings (state_of W.sets W.moves R.rules B.store self.now.facts) }
        ensures order { from ≤ result }
        ensures up { IsCarriedUpTo a from (state_of W.sets W.moves R.rules B.store self.now.facts) → IsCarriedUpTo a result (state_of W.sets W.moves R.rules B.store self.now.facts) }
    {
        let hit = Some(self.facts.listed_before(known.to - 1));
        let mut number = from;
        while number < known.to {
            let leaving = self.facts.leaving_from(number, known);
            if !self.is_idle(a, leaving, known, hit) {
                return leaving;
            }
            number = leaving + 1;
        }
        number
    }

    /// Whether a byte is known anywhere, so that it is tracked.
    pub(super) fn has_value(&self, a: u32) -> bool
        ensures { result ≡ true → IsTracked a (state_of W.sets W.moves R.rules B.store self.now.facts) }
    {
        self.facts.held();
        self.facts.stretch(a, 0).is_some()
    }

    /// Whether all numbers stand in this strip.
    pub(super) fn is_whole(&self, strip: Strip) -> bool {
        strip.first == 0 && strip.last == self.facts.end()
    }

    /// How far up a byte goes from the numbers between two, if its value is known at them.
    fn reach_up(&self, a: u32, first: u32, last: u32) -> u32
        requires order { first ≤ last }
        requires inside { last ≤ (timeline self.now.facts.paths).moments.end }
        requires writings { AreWritings (state_of W.sets W.moves R.rules B.store self.now.facts) }
        ensures { IsLeapUp (record { address = a; first = first; last = last; to = result }) (state_of W.sets W.moves R.rules B.store self.now.facts) }
    {
        let from = self.facts.free_since(last, a).max(first);
        let until = self.facts.free_until(last, a);
        if from > last || until <= last + 1 {
            return last;
        }
        let known = NumberWindow { from, to: last + 1 };
        self.facts.reached_up(known, until - 1)
    }

    /// How far down it goes.
    fn reach_down(&self, a: u32, first: u32, last: u32) -> u32
        requires order { first ≤ last }
        requires inside { last ≤ (timeline self.now.facts.paths).moments.end }
        requires writings { AreWritings (state_of W.sets W.moves R.rules B.store self.now.facts) }
        ensures { IsLeapDown (record { address = a; first = first; last = last; to = result }) (state_of W.sets W.moves R.rules B.store self.now.facts) }
    {
        let since = self.facts.free_since(first, a);
        let until = self.facts.free_until(first, a).min(last + 1);
        if until <= first || since >= first {
            return first;
        }
        let known = NumberWindow {
            from: first,
            to: until,
        };
        self.facts.reached_down(known, since)
    }

    /// The value of a byte at the numbers between two, at those after them to which it goes.
    fn spread_up(&mut self, leap: ByteLeap, value: u8) -> Result<bool, LearnError>
        requires order { leap.first ≤ leap.last }
        requires known { (q : ℕ) → leap.first ≤ q → q ≤ leap.last → Knows q (Byte leap.address) value (state_of W.sets W.moves R.rules B.store self.old.facts) }
        requires led { IsLeapUp leap (state_of W.sets W.moves R.rules B.store self.old.facts) }
        requires open { self.old.facts.complete ≡ false }
        ensures grows { Grows (state_of W.sets W.moves R.rules B.store self.old.facts) (state_of W.sets W.moves R.rules B.store self.new.facts) }
        ensures inferred { IfOk result (λ learnt. HasInferred (state_of W.sets W.moves R.rules B.store self.old.facts) (state_of W.sets W.moves R.rules B.store self.new.facts) learnt (λ _. ⊤)) }
        ensures halt { IfErr result (λ h. IsHalt (state_of W.sets W.moves R.rules B.store self.new.facts) h) }
    {
        self.spread_led(leap.address, leap.last, leap.to, value)
    }

    /// At those before them.
    fn spread_down(&mut self, leap: ByteLeap, value: u8) -> Result<bool, LearnError>
        requires order { leap.first ≤ leap.last }
        requires inside { leap.last ≤ (timeline self.old.facts.paths).moments.end }
        requires known { (q : ℕ) → leap.first ≤ q → q ≤ leap.last → Knows q (Byte leap.address) value (state_of W.sets W.moves R.rules B.store self.old.facts) }
        requires led { IsLeapDown leap (state_of W.sets W.moves R.rules B.store self.old.facts) }
        requires open { self.old.facts.complete ≡ false }
        ensures grows { Grows (state_of W.sets W.moves R.rules B.store self.old.facts) (state_of W.sets W.moves R.rules B.store self.new.facts) }
        ensures inferred { IfOk result (λ learnt. HasInferred (state_of W.sets W.moves R.rules B.store self.old.facts) (state_of W.sets W.moves R.rules B.store self.new.facts) learnt (λ _. ⊤)) }
        ensures halt { IfErr result (λ h. IsHalt (state_of W.sets W.moves R.rules B.store self.new.facts) h) }
    {
        self.spread_led(leap.address, leap.first, leap.to, value)
    }

    /// The value of a byte around a number, up as far as it goes at once. Answers whether it was
    /// new, and the last number of it.
    fn leap_up(&mut self, a: u32, number: u32) -> Result<(bool, u32), LearnError>
        requires inside { number ≤ (timeline self.old.facts.paths).moments.end }
        requires writings { AreWritings (state_of W.sets W.moves R.rules B.store self.old.facts) }
        requires open { self.old.facts.complete ≡ false }
        ensures grows { Grows (state_of W.sets W.moves R.rules B.store self.old.facts) (state_of W.sets W.moves R.rules B.store self.new.facts) }
        ensures inferred { IfOk result (λ ended. HasInferred (state_of W.sets W.moves R.rules B.store self.old.facts) (state_of W.sets W.moves R.rules B.store self.new.facts) ended.0 (λ _. ⊤)) }
        ensures halt { IfErr result (λ h. IsHalt (state_of W.sets W.moves R.rules B.store self.new.facts) h) }
        ensures up { IfOk result (λ ended. (number ≤ ended.1) × (ended.1 ≤ (timeline self.old.facts.paths).moments.end)) }
    {
        let Some(stretch) = self.facts.stretch(a, number) else {
            return Ok((false, number));
        };
        if stretch.first > number {
            return Ok((false, number));
        }
        let last = self.facts.end().min(stretch.last);
        let to = self.reach_up(a, stretch.first, last);
        if to == last {
            return Ok((false, last));
        }
        let leap = ByteLeap {
            address: a,
            first: stretch.first,
            last,
            to,
        };
        let new = self.spread_up(leap, stretch.value)?;
        Ok((new, to))
    }

    /// Carries the value of a byte around a number down as far as it goes at once. Answers whether
    /// it was new, and the first number to which it went.
    pub(super) fn leap_down(&mut self, a: u32, number: u32) -> Result<(bool, u32), LearnError>
        requires inside { number ≤ (timeline self.old.facts.paths).moments.end }
        requires writings { AreWritings (state_of W.sets W.moves R.rules B.store self.old.facts) }
        requires open { self.old.facts.complete ≡ false }
        ensures grows { Grows (state_of W.sets W.moves R.rules B.store self.old.facts) (state_of W.sets W.moves R.rules B.store self.new.facts) }
        ensures inferred { IfOk result (λ ended. HasInferred (state_of W.sets W.moves R.rules B.store self.old.facts) (state_of W.sets W.moves R.rules B.store self.new.facts) ended.0 (λ _. ⊤)) }
        ensures halt { IfErr result (λ h. IsHalt (state_of W.sets W.moves R.rules B.store self.new.facts) h) }
        ensures down { IfOk result (λ ended. ended.1 ≤ number) }
    {
        let Some(stretch) = self.facts.stretch(a, number) else {
            return Ok((false, number));
        };
        if stretch.first > number {
            return Ok((false, number));
        }
        let last = self.facts.end().min(stretch.last);
        let to = self.reach_down(a, stretch.first, last);
        if to == stretch.first {
            return Ok((false, to));
        }
        let leap = ByteLeap {
            address: a,
            first: stretch.first,
            last,
            to,
        };
        let new = self.spread_down(leap, stretch.value)?;
        Ok((new, to))
    }

    /// The value of a byte in a strip, and down from it. Answers whether it was new, and the first
    /// number of it.
    fn carry_under(&mut self, a: u32, strip: Strip) -> Result<(bool, u32), LearnError>
        requires strip { IsStrip (timeline self.old.facts.paths) strip.first strip }
        requires writings { AreWritings (state_of W.sets W.moves R.rules B.store self.old.facts) }
        requires open { self.old.facts.complete ≡ false }
        ensures grows { Grows (state_of W.sets W.moves R.rules B.store self.old.facts) (state_of W.sets W.moves R.rules B.store self.new.facts) }
        ensures inferred { IfOk result (λ ended. HasInferred (state_of W.sets W.moves R.rules B.store self.old.facts) (state_of W.sets W.moves R.rules B.store self.new.facts) ended.0 (λ _. ⊤)) }
        ensures halt { IfErr result (λ h. IsHalt (state_of W.sets W.moves R.rules B.store self.new.facts) h) }
        ensures down { IfOk result (λ ended. ended.1 ≤ strip.first) }
    {
        let inside = self.carry_strip(a, strip)?;
        let down = self.leap_down(a, strip.first)?;
        Ok((inside | down.0, down.1))
    }

    /// The value of a byte to a number from those of a window that are next to it, until it is new.
    fn carry_from(&mut self, a: u32, m: u32, known: NumberWindow) -> Result<bool, LearnError>
        requires inside { m ≤ (timeline self.old.facts.paths).moments.end }
        requires tracked { IsTracked a (state_of W.sets W.moves R.rules B.store self.old.facts) }
        requires writings { AreWritings (state_of W.sets W.moves R.rules B.store self.old.facts) }
        requires open { self.old.facts.complete ≡ false }
        ensures grows { Grows (state_of W.sets W.moves R.rules B.store self.old.facts) (state_of W.sets W.moves R.rules B.store self.new.facts) }
        ensures inferred { IfOk result (λ learnt. HasInferred (state_of W.sets W.moves R.rules B.store self.old.facts) (state_of W.sets W.moves R.rules B.store self.new.facts) learnt (λ _. ⊤)) }
        ensures halt { IfErr result (λ h. IsHalt (state_of W.sets W.moves R.rules B.store self.new.facts) h) }
    {
        let mut learnt = false;
        let mut least = known.from;
        let mut blocker = self.walls.last();
        while least < known.to {
            let Some(next) = self.facts.next_from(m, least) else {
                return Ok(learnt);
            };
            if next >= known.to {
                return Ok(learnt);
            }
            let done = self.carry_next(a, m, next, blocker)?;
            learnt = learnt | done.0.has_news;
            if learnt {
                self.note_open(next);
                return Ok(learnt);
            }
            blocker = done.0.blocker;
            least = done.1;
        }
        Ok(learnt)
    }

    /// Carries the value of a byte to a number from the window's number from which a byte came back
    /// last, if it is there. The other bytes of a word mostly come from there, too.
    fn carry_open(&mut self, a: u32, m: u32, known: NumberWindow) -> Result<bool, LearnError>
        requires inside { m ≤ (timeline self.old.facts.paths).moments.end }
        requires tracked { IsTracked a (state_of W.sets W.moves R.rules B.store self.old.facts) }
        requires writings { AreWritings (state_of W.sets W.moves R.rules B.store self.old.facts) }
        requires open { self.old.facts.complete ≡ false }
        ensures grows { Grows (state_of W.sets W.moves R.rules B.store self.old.facts) (state_of W.sets W.moves R.rules B.store self.new.facts) }
        ensures inferred { IfOk result (λ learnt. HasInferred (state_of W.sets W.moves R.rules B.store self.old.facts) (state_of W.sets W.moves R.rules B.store self.new.facts) learnt (λ _. ⊤)) }
        ensures halt { IfErr result (λ h. IsHalt (state_of W.sets W.moves R.rules B.store self.new.facts) h) }
    {
        let Some(open) = self.walls.open() else {
            return Ok(false);
        };
        if open < known.from {
            return Ok(false);
        }
        let Some(next) = self.facts.next_from(m, open) else {
            return Ok(false);
        };
        if next >= known.to {
            return Ok(false);
        }
        let blocker = self.walls.last();
        let done = self.carry_next(a, m, next, blocker)?;
        Ok(done.0.has_news)
    }

    /// Carries the value of a byte to a number from the one from which a byte came back last, and
    /// where that told nothing new, from each of the window.
    fn carry_over(&mut self, a: u32, m: u32, known: NumberWindow) -> Result<bool, LearnError>
        requires inside { m ≤ (timeline self.old.facts.paths).moments.end }
        requires tracked { IsTracked a (state_of W.sets W.moves R.rules B.store self.old.facts) }
        requires writings { AreWritings (state_of W.sets W.moves R.rules B.store self.old.facts) }
        requires open { self.old.facts.complete ≡ false }
        ensures grows { Grows (state_of W.sets W.moves R.rules B.store self.old.facts) (state_of W.sets W.moves R.rules B.store self.new.facts) }
        ensures inferred { IfOk result (λ learnt. HasInferred (state_of W.sets W.moves R.rules B.store self.old.facts) (state_of W.sets W.moves R.rules B.store self.new.facts) learnt (λ _. ⊤)) }
        ensures halt { IfErr result (λ h. IsHalt (state_of W.sets W.moves R.rules B.store self.new.facts) h) }
    {
        let open = self.carry_open(a, m, known)?;
        if open {
            return Ok(open);
        }
        self.carry_from(a, m, known)
    }

    /// The value of a byte to the end of the strip before a number from those of a window that are
    /// next to it, and down from there, where it isn't known there. Answers whether it was new, and
    /// a number up to which it was looked for: the first one, where writers that aren't told don't
    /// lie before that strip's end, since they may act between all that come before.
    pub(super) fn carry_former(
        &mut self,
        a: u32,
        first: u32,
        known: NumberWindow,
    ) -> Result<(bool, u32), LearnError>
        requires some { 0 < first }
        requires inside { first ≤ (timeline self.old.facts.paths).moments.end }
        requires tracked { IsTracked a (state_of W.sets W.moves R.rules B.store self.old.facts) }
        requires writings { AreWritings (state_of W.sets W.moves R.rules B.store self.old.facts) }
        requires open { self.old.facts.complete ≡ false }
        ensures grows { Grows (state_of W.sets W.moves R.rules B.store self.old.facts) (state_of W.sets W.moves R.rules B.store self.new.facts) }
        ensures inferred { IfOk result (λ ended. HasInferred (state_of W.sets W.moves R.rules B.store self.old.facts) (state_of W.sets W.moves R.rules B.store self.new.facts) ended.0 (λ _. ⊤)) }
        ensures halt { IfErr result (λ h. IsHalt (state_of W.sets W.moves R.rules B.store self.new.facts) h) }
        ensures down { IfOk result (λ ended. ended.1 < first) }
    {
        let former = self.facts.strip(first - 1);
        if !self.facts.is_untraced_past(former.last) {
            return Ok((false, 0));
        }
        if self.facts.known_byte(former.last, a).is_some() || self.is_walled(a, former.last) {
            return Ok((false, former.first));
        }
        let new = self.carry_over(a, former.last, known)?;
        if !new {
            return Ok((false, former.first));
        }
        let under = self.carry_under(a, former)?;
        Ok((true, under.1))
    }

    /// The value of a byte, if it is known there, down from the first number of a strip, and back
    /// through the strips before it that lead to one where it was new. That this is done at once
    /// saves rounds: no clause rests on it.
    pub(super) fn carry_back(&mut self, a: u32, number: u32) -> Result<bool, LearnError>
        requires inside { number ≤ (timeline self.old.facts.paths).moments.end }
        requires tracked { IsTracked a (state_of W.sets W.moves R.rules B.store self.old.facts) }
        requires writings { AreWritings (state_of W.sets W.moves R.rules B.store self.old.facts) }
        requires open { self.old.facts.complete ≡ false }
        ensures grows { Grows (state_of W.sets W.moves R.rules B.store self.old.facts) (state_of W.sets W.moves R.rules B.store self.new.facts) }
        ensures inferred { IfOk result (λ learnt. HasInferred (state_of W.sets W.moves R.rules B.store self.old.facts) (state_of W.sets W.moves R.rules B.store self.new.facts) learnt (λ _. ⊤)) }
        ensures halt { IfErr result (λ h. IsHalt (state_of W.sets W.moves R.rules B.store self.new.facts) h) }
    {
        if self.facts.known_byte(number, a).is_none() {
            return Ok(false);
        }
        let down = self.down_together(a, number)?;
        let to = self.even_to(a, number) + 1;
        let mut learnt = down.0;
        let mut first = down.1;
        let mut from = first;
        let mut low = self.facts.least_former(first);
        while first > low {
            let former = self.former_together(a, first, NumberWindow { from, to })?;
            learnt = learnt | former.0;
            first = former.1;
            if former.0 {
                from = first;
                low = low.min(self.facts.least_former(first));
            }
        }
        Ok(learnt)
    }

    /// The value of a byte from a number to those that are next to it, where it is known there.
    pub(super) fn carry_links_on(&mut self, a: u32, m: u32) -> Result<bool, LearnError>
        requires inside { m ≤ (timeline self.old.facts.paths).moments.end }
        requires tracked { IsTracked a (state_of W.sets W.moves R.rules B.store self.old.facts) }
        requires writings { AreWritings (state_of W.sets W.moves R.rules B.store self.old.facts) }
        requires open { self.old.facts.complete ≡ false }
        ensures grows { Grows (state_of W.sets W.moves R.rules B.store self.old.facts) (state_of W.sets W.moves R.rules B.store self.new.facts) }
        ensures inferred { IfOk result (λ learnt. HasInferred (state_of W.sets W.moves R.rules B.store self.old.facts) (state_of W.sets W.moves R.rules B.store self.new.facts) learnt (λ _. ⊤)) }
        ensures halt { IfErr result (λ h. IsHalt (state_of W.sets W.moves R.rules B.store self.new.facts) h) }
    {
        if self.facts.known_byte(m, a).is_none() {
            return Ok(false);
        }
        self.carry_links(a, m)
    }

    /// The value of a byte in the strip around a number, up from it, and on to the numbers next to
    /// it, where it is known there. Answers whether it was new, and its last number.
    pub(super) fn carry_later(&mut self, a: u32, first: u32) -> Result<(bool, u32), LearnError>
        requires inside { first ≤ (timeline self.old.facts.paths).moments.end }
        requires tracked { IsTracked a (state_of W.sets W.moves R.rules B.store self.old.facts) }
        requires writings { AreWritings (state_of W.sets W.moves R.rules B.store self.old.facts) }
        requires open { self.old.facts.complete ≡ false }
        ensures grows { Grows (state_of W.sets W.moves R.rules B.store self.old.facts) (state_of W.sets W.moves R.rules B.store self.new.facts) }
        ensures inferred { IfOk result (λ ended. HasInferred (state_of W.sets W.moves R.rules B.store self.old.facts) (state_of W.sets W.moves R.rules B.store self.new.facts) ended.0 (λ _. ⊤)) }
        ensures halt { IfErr result (λ h. IsHalt (state_of W.sets W.moves R.rules B.store self.new.facts) h) }
        ensures up { IfOk result (λ ended. (first ≤ ended.1) × (ended.1 ≤ (timeline self.old.facts.paths).moments.end)) }
    {
        let later = self.facts.strip(first);
        let inside = self.carry_strip(a, later)?;
        let up = self.leap_up(a, later.last)?;
        let number = self.facts.strip(up.1).last;
        let links = self.carry_links_on(a, number)?;
        Ok((inside | up.0 | links, number))
    }

    /// The value of a byte at the last number of a strip, on through those strips to which one
    /// leads where it was new.
    pub(super) fn carry_forth(&mut self, a: u32, number: u32) -> Result<bool, LearnError>
        requires inside { number ≤ (timeline self.old.facts.paths).moments.end }
        requires tracked { IsTracked a (state_of W.sets W.moves R.rules B.store self.old.facts) }
        requires writings { AreWritings (state_of W.sets W.moves R.rules B.store self.old.facts) }
        requires open { self.old.facts.complete ≡ false }
        ensures grows { Grows (state_of W.sets W.moves R.rules B.store self.old.facts) (state_of W.sets W.moves R.rules B.store self.new.facts) }
        ensures inferred { IfOk result (λ learnt. HasInferred (state_of W.sets W.moves R.rules B.store self.old.facts) (state_of W.sets W.moves R.rules B.store self.new.facts) learnt (λ _. ⊤)) }
        ensures halt { IfErr result (λ h. IsHalt (state_of W.sets W.moves R.rules B.store self.new.facts) h) }
    {
        let mut learnt = self.links_together(a, number)?;
        let mut last = number;
        let mut high = self.facts.greatest_next(last);
        while last < high {
            let later = self.later_together(a, last + 1)?;
            learnt = learnt | later.0;
            last = later.1;
            if later.0 {
                high = high.max(self.facts.greatest_next(last));
            }
        }
        Ok(learnt)
    }

    /// The value of a byte up from a number, where it is known there and not at the one after it.
    pub(super) fn leap_end(&mut self, a: u32, number: u32) -> Result<bool, LearnError>
        requires inside { number ≤ (timeline self.old.facts.paths).moments.end }
        requires writings { AreWritings (state_of W.sets W.moves R.rules B.store self.old.facts) }
        requires open { self.old.facts.complete ≡ false }
        ensures grows { Grows (state_of W.sets W.moves R.rules B.store self.old.facts) (state_of W.sets W.moves R.rules B.store self.new.facts) }
        ensures inferred { IfOk result (λ learnt. HasInferred (state_of W.sets W.moves R.rules B.store self.old.facts) (state_of W.sets W.moves R.rules B.store self.new.facts) learnt (λ _. ⊤)) }
        ensures halt { IfErr result (λ h. IsHalt (state_of W.sets W.moves R.rules B.store self.new.facts) h) }
    {
        if self.even_to(a, number) > number {
            return Ok(false);
        }
        let up = self.leap_up(a, number)?;
        Ok(up.0)
    }

    /// The value of a byte back from the beginning of each of its stretches.
    fn carry_edges(&mut self, a: u32) -> Result<bool, LearnError>
        requires tracked { IsTracked a (state_of W.sets W.moves R.rules B.store self.old.facts) }
        requires writings { AreWritings (state_of W.sets W.moves R.rules B.store self.old.facts) }
        requires open { self.old.facts.complete ≡ false }
        ensures grows { Grows (state_of W.sets W.moves R.rules B.store self.old.facts) (state_of W.sets W.moves R.rules B.store self.new.facts) }
        ensures inferred { IfOk result (λ learnt. HasInferred (state_of W.sets W.moves R.rules B.store self.old.facts) (state_of W.sets W.moves R.rules B.store self.new.facts) learnt (λ _. ⊤)) }
        ensures halt { IfErr result (λ h. IsHalt (state_of W.sets W.moves R.rules B.store self.new.facts) h) }
    {
        let end = self.facts.end();
        let mut learnt = false;
        let mut from = 0;
        while from <= end {
            let Some(stretch) = self.facts.stretch(a, from) else {
                return Ok(learnt);
            };
            let strip = self.facts.strip(end.min(from.max(stretch.first)));
            let inside = self.strip_together(a, strip)?;
            let back = self.carry_back(a, strip.first)?;
            learnt = learnt | inside | back;
            from = strip.last.max(end.min(stretch.last)) + 1;
        }
        Ok(learnt)
    }

    /// The value of a byte over all that may not write it: strip by strip, and from the last number
    /// of each to those next to it.
    fn carry_onward(&mut self, a: u32) -> Result<bool, LearnError>
        requires tracked { IsTracked a (state_of W.sets W.moves R.rules B.store self.old.facts) }
        requires writings { AreWritings (state_of W.sets W.moves R.rules B.store self.old.facts) }
        requires open { self.old.facts.complete ≡ false }
        ensures grows { Grows (state_of W.sets W.moves R.rules B.store self.old.facts) (state_of W.sets W.moves R.rules B.store self.new.facts) }
        ensures inferred { IfOk result (λ learnt. HasInferred (state_of W.sets W.moves R.rules B.store self.old.facts) (state_of W.sets W.moves R.rules B.store self.new.facts) learnt (IsCarriedAlong a)) }
        ensures halt { IfErr result (λ h. IsHalt (state_of W.sets W.moves R.rules B.store self.new.facts) h) }
    {
        let end = self.facts.end();
        let mut learnt = false;
        let mut from = 0;
        while from <= end {
            self.facts.held();
            let strip = self.facts.strip(from);
            let inside = self.carry_strip(a, strip)?;
            let up = self.leap_end(a, strip.last)?;
            let links = self.carry_links(a, strip.last)?;
            let number = strip.first;
            let others = self.follow_if(inside | up | links, a, WordStep::Onward { number })?;
            learnt = learnt | inside | up | links | others;
            from = self.uneven_from(a, strip.last + 1);
        }
        Ok(learnt)
    }

    /// Carries the value of a byte back from the beginning of each of its stretches, and then over
    /// all that may not write it.
    fn carry_address(&mut self, a: u32) -> Result<bool, LearnError>
        requires tracked { IsTracked a (state_of W.sets W.moves R.rules B.store self.old.facts) }
        requires writings { AreWritings (state_of W.sets W.moves R.rules B.store self.old.facts) }
        requires open { self.old.facts.complete ≡ false }
        ensures grows { Grows (state_of W.sets W.moves R.rules B.store self.old.facts) (state_of W.sets W.moves R.rules B.store self.new.facts) }
        ensures inferred { IfOk result (λ learnt. HasInferred (state_of W.sets W.moves R.rules B.store self.old.facts) (state_of W.sets W.moves R.rules B.store self.new.facts) learnt (λ _. ⊤)) }
        ensures halt { IfErr result (λ h. IsHalt (state_of W.sets W.moves R.rules B.store self.new.facts) h) }
    {
        let back = self.carry_edges(a)?;
        let onward = self.carry_onward(a)?;
        Ok(back | onward)
    }

    /// The value of a tracked byte, where something was learnt of it lately, and it isn't like the
    /// first one of its word, which it follows.
    fn carry_told(&mut self, k: usize) -> Result<bool, LearnError>
        requires within { k < length (state_of W.sets W.moves R.rules B.store self.old.facts).known.store.tracked }
        requires writings { AreWritings (state_of W.sets W.moves R.rules B.store self.old.facts) }
        requires open { self.old.facts.complete ≡ false }
        ensures grows { Grows (state_of W.sets W.moves R.rules B.store self.old.facts) (state_of W.sets W.moves R.rules B.store self.new.facts) }
        ensures inferred { IfOk result (λ learnt. HasInferred (state_of W.sets W.moves R.rules B.store self.old.facts) (state_of W.sets W.moves R.rules B.store self.new.facts) learnt (λ _. ⊤)) }
        ensures halt { IfErr result (λ h. IsHalt (state_of W.sets W.moves R.rules B.store self.new.facts) h) }
    {
        let a = self.facts.address(k);
        if !self.recent.has(a) || self.is_like_first(a) {
            return Ok(false);
        }
        self.carry_address(a)
    }

    /// The values of the tracked bytes of which something was learnt lately.
    pub fn carry_all_told(&mut self) -> Result<bool, LearnError>
        requires writings { AreWritings (state_of W.sets W.moves R.rules B.store self.old.facts) }
        requires open { self.old.facts.complete ≡ false }
        ensures grows { Grows (state_of W.sets W.moves R.rules B.store self.old.facts) (state_of W.sets W.moves R.rules B.store self.new.facts) }
        ensures inferred { IfOk result (λ learnt. HasInferred (state_of W.sets W.moves R.rules B.store self.old.facts) (state_of W.sets W.moves R.rules B.store self.new.facts) learnt (λ _. ⊤)) }
        ensures halt { IfErr result (λ h. IsHalt (state_of W.sets W.moves R.rules B.store self.new.facts) h) }
    {
        let count = self.facts.tracked_count();
        let mut learnt = false;
        self.note_carrying();
        for k in 0..count {
            let new = self.carry_told(k)?;
            learnt = learnt | new;
        }
        Ok(learnt)
    }

    /// Keeps that a pass over the tracked bytes begins.
    fn note_carrying(&mut self)
        ensures { self.new.facts ≡ self.old.facts }
    {
        self.recent.begin();
    }

    /// The values of all tracked bytes. One that is like the last that was gone over is carried as
    /// that one is.
    pub fn carry_tracked(&mut self) -> Result<bool, LearnError>
        requires writings { AreWritings (state_of W.sets W.moves R.rules B.store self.old.facts) }
        requires current { IsCurrent (state_of W.sets W.moves R.rules B.store self.old.facts) }
        requires open { self.old.facts.complete ≡ false }
        ensures grows { Grows (state_of W.sets W.moves R.rules B.store self.old.facts) (state_of W.sets W.moves R.rules B.store self.new.facts) }
        ensures inferred { IfOk result (λ learnt. HasInferred (state_of W.sets W.moves R.rules B.store self.old.facts) (state_of W.sets W.moves R.rules B.store self.new.facts) learnt (AllCarried)) }
        ensures halt { IfErr result (λ h. IsHalt (state_of W.sets W.moves R.rules B.store self.new.facts) h) }
    {
        let count = self.facts.tracked_count();
        let mut learnt = false;
        let mut leader = None;
        for k in 0..count {
            let a = self.facts.address(k);
            if self.is_like_any(leader, a) {
                continue;
            }
            let new = self.carry_onward(a)?;
            learnt = learnt | new;
            leader = Some(a);
        }
        Ok(learnt)
    }
}
