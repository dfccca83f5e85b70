//! The carrying of bytes over rows that may not write them.
#![tactic(auto, using(rept_timeline::specs::Paths::lawful))]

ghost use Rattle.rept_timeline.specs.Paths.{timeline};
ghost use Rattle.std.specs.Prelude.{◌≡◌, ◌+◌, ◌<◌, ◌≤◌, ◌^◌, ◌⊎◌, ℕ, if◌then◌else◌, length, true, false, Some, None, IsSome, IfSome, IfOk, IfErr, ⊤};
ghost use Rattle.rept_reason.specs.declared.fact.Cell.TheVariants.{Byte};
ghost use Rattle.rept_versions.specs.Facts.{KnownValues, Nexts};
ghost use Rattle.rept_facts.specs.State.{IsLined, state_of};
ghost use Rattle.rept_facts.specs.Inferring.{Knows, IsTracked, Grows, HasInferred, IsHalt, AreWritings, IsBridged, IsSparedBetween, IsLed, IsSpreadTo, IsCarriedFrom, IsCalm, IsLooseEnd, IsLooseBefore, IsPiece, IsCarriedIf, IsCarriedBeside, IsCarriedIn, AreLinks, AreLinksBelow, IsBrought, IsHitBy};
ghost use Rattle.rept_report.specs.Timeline.{IsStrip};
ghost use Rattle.rept_report.specs.Why.{fact_of};

use super::Propagation;
use crate::link::Link;
use rept_facts::{LearnError, Piece};
use rept_reason::{Cell, RowRules};
use rept_report::paths::Strip;
use rept_span::Transfer;
use rept_versions::{ByteFacts, Carried, ValueStretch};
use std::alloc::AllocError as OutOfMemory;

/// Where the value of a stretch begins, or where it ends if it begins at a point or before.
fn edge(stretch: &ValueStretch, from: u32) -> u32
    ensures { ((from < stretch.now.first) × (result ≡ stretch.now.first)) ⊎ ((stretch.now.first ≤ from) × (result ≡ stretch.now.last)) }
{
    if from < stretch.first {
        stretch.first
    } else {
        stretch.last
    }
}

/// The number after which the value of a stretch begins, or at which it ends if it begins at a
/// number or before.
pub(super) fn border(stretch: &ValueStretch, from: u32) -> u32
    ensures { ((from < stretch.now.first) × (result + 1 ≡ stretch.now.first)) ⊎ ((stretch.now.first ≤ from) × (result ≡ stretch.now.last)) }
{
    if from < stretch.first {
        stretch.first - 1
    } else {
        stretch.last
    }
}

/// Whether a number is the one after another.
fn is_after(m: u32, w: u32) -> bool
    ensures yes { result ≡ true → w ≡ m + 1 }
    ensures no { result ≡ false → w ≡ m + 1 → ⊥ }
{
    if m < w { w - m == 1 } else { false }
}

/// Whether a stretch has each point from one to another one.
pub(super) fn has_all(stretch: &ValueStretch, from: u32, to: u32) -> bool
    ensures { result ≡ true → (stretch.now.first ≤ from) × (to ≤ stretch.now.last) }
{
    stretch.first <= from && to <= stretch.last
}

/// A number where what is known differs, and else another one.
fn like_unless(differs: bool, like: u32, from: u32) -> u32
    ensures { result ≡ (if differs then from else like) }
{
    if differs { from } else { like }
}

/// A link over which nothing new went.
fn unchanged(blocker: Option<usize>) -> Link
    ensures news { result.has_news ≡ false }
    ensures blocker { result.blocker ≡ blocker }
{
    Link {
        has_news: false,
        blocker,
    }
}

/// Whether a value is known, and is that one.
fn is_value(here: Option<u8>, value: u8) -> bool
    ensures { result ≡ true → here ≡ Some value }
{
    match here {
        None => false,
        Some(known) => known == value,
    }
}

/// A number from one on, no further than after the end, before which from there on a value is
/// known, or none, by the first stretch that ends at the one or later.
fn like_along(stretch: &ValueStretch, here: Option<u8>, from: u32, end: u32) -> u32
    requires from { from ≤ end }
    requires end { end + 1 < 2 ^ 32 }
    requires reaches { from ≤ stretch.now.last }
    ensures order { from ≤ result }
    ensures alike { (f : KnownValues) (a : ℕ) → Nexts f a from (Some stretch.now) → (w : ℕ) → from ≤ w → w < result → f w a ≡ here }
{
    if from < stretch.first {
        return like_unless(here.is_some(), stretch.first, from);
    }
    let last = stretch.last.min(end);
    if is_value(here, stretch.value) {
        last + 1
    } else {
        from
    }
}

impl<'a, B: ByteFacts, W: Transfer, R: RowRules> Propagation<'a, B, W, R> {
    /// Carries a byte's value along a way of numbers, each of which comes from a known one, and
    /// answers whether it was new.
    pub(super) fn spread_led(
        &mut self,
        a: u32,
        from: u32,
        to: u32,
        value: u8,
    ) -> Result<bool, LearnError>
        requires from { from ≤ (timeline self.old.facts.paths).moments.end }
        requires to { to ≤ (timeline self.old.facts.paths).moments.end }
        requires known { Knows from (Byte a) value (state_of W.sets W.moves R.rules B.store self.old.facts) }
        requires led { IsLed (record { address = a; from = from; to = to; value = value }) (state_of W.sets W.moves R.rules B.store self.old.facts) }
        requires open { self.old.facts.complete ≡ false }
        ensures grows { Grows (state_of W.sets W.moves R.rules B.store self.old.facts) (state_of W.sets W.moves R.rules B.store self.new.facts) }
        ensures inferred { IfOk result (λ learnt. HasInferred (state_of W.sets W.moves R.rules B.store self.old.facts) (state_of W.sets W.moves R.rules B.store self.new.facts) learnt (IsSpreadTo (record { address = a; from = from; to = to; value = value }))) }
        ensures halt { IfErr result (λ h. IsHalt (state_of W.sets W.moves R.rules B.store self.new.facts) h) }
    {
        match self.facts.send(a, from, to, value) {
            Ok(Carried::Same) => Ok(false),
            Ok(Carried::More) => {
                self.note_byte(a);
                Ok(true)
            }
            Ok(Carried::Stop(point, _, found)) => {
                let cell = Cell::Byte(a);
                Err(LearnError::Clash {
                    point,
                    cell,
                    known: found as u32,
                    value: value as u32,
                })
            }
            Err(_) => Err(LearnError::OutOfMemory),
        }
    }

    /// The value of a byte at a number, at those from there to another one, where no row between
    /// may write it.
    fn spread(&mut self, a: u32, from: u32, to: u32, value: u8) -> Result<bool, LearnError>
        requires from { from ≤ (timeline self.old.facts.paths).moments.end }
        requires to { to ≤ (timeline self.old.facts.paths).moments.end }
        requires known { Knows from (Byte a) value (state_of W.sets W.moves R.rules B.store self.old.facts) }
        requires spared { IsSparedBetween from to a (state_of W.sets W.moves R.rules B.store self.old.facts) }
        requires open { self.old.facts.complete ≡ false }
        ensures grows { Grows (state_of W.sets W.moves R.rules B.store self.old.facts) (state_of W.sets W.moves R.rules B.store self.new.facts) }
        ensures inferred { IfOk result (λ learnt. HasInferred (state_of W.sets W.moves R.rules B.store self.old.facts) (state_of W.sets W.moves R.rules B.store self.new.facts) learnt (IsSpreadTo (record { address = a; from = from; to = to; value = value }))) }
        ensures halt { IfErr result (λ h. IsHalt (state_of W.sets W.moves R.rules B.store self.new.facts) h) }
    {
        self.spread_led(a, from, to, value)
    }

    /// The value of a byte from a point to another one, where no row between may write it.
    pub(super) fn carry_segment(&mut self, a: u32, from: u32, to: u32) -> Result<bool, LearnError>
        requires order { from ≤ to }
        requires to { to ≤ (timeline self.old.facts.paths).moments.end }
        requires spared { IsSparedBetween from to a (state_of W.sets W.moves R.rules B.store self.old.facts) }
        requires open { self.old.facts.complete ≡ false }
        ensures grows { Grows (state_of W.sets W.moves R.rules B.store self.old.facts) (state_of W.sets W.moves R.rules B.store self.new.facts) }
        ensures inferred { IfOk result (λ learnt. HasInferred (state_of W.sets W.moves R.rules B.store self.old.facts) (state_of W.sets W.moves R.rules B.store self.new.facts) learnt (IsCarriedFrom a from to)) }
        ensures halt { IfErr result (λ h. IsHalt (state_of W.sets W.moves R.rules B.store self.new.facts) h) }
    {
        match self.facts.stretch(a, from) {
            None => Ok(false),
            Some(stretch) => {
                if to < stretch.first {
                    return Ok(false);
                }
                if has_all(&stretch, from, to) {
                    return Ok(false);
                }
                let at = stretch.first.max(from);
                let right = self.spread(a, at, to, stretch.value)?;
                self.facts.held();
                let left = self.spread(a, at, from, stretch.value)?;
                Ok(right | left)
            }
        }
    }

    /// Whether nothing that may write the byte may act at the pause of a strip, if it has one.
    pub(super) fn is_calm(&self, a: u32, strip: Strip) -> bool
        requires writings { AreWritings (state_of W.sets W.moves R.rules B.store self.now.facts) }
        requires strip { (number : ℕ) × IsStrip (timeline self.now.facts.paths) number strip }
        ensures { result ≡ true → IsCalm a strip (state_of W.sets W.moves R.rules B.store self.now.facts) }
    {
        match strip.pause {
            None => true,
            Some(pause) => {
                // for the proof alone
                let _end = self.facts.end();
                if self.is_walled(a, pause) {
                    return false;
                }
                self.is_carried(a, pause, pause + 1)
            }
        }
    }

    /// The number of an entry of the list from which it isn't known whether the byte is carried on
    /// in a strip: none, where the row of the entry may act there.
    fn loose_end(&self, strip: Strip, k: usize) -> Option<u32>
        requires writings { AreWritings (state_of W.sets W.moves R.rules B.store self.now.facts) }
        requires strip { (number : ℕ) × IsStrip (timeline self.now.facts.paths) number strip }
        requires within { k < length self.now.facts.work.writing }
        ensures { IsLooseEnd strip k result (state_of W.sets W.moves R.rules B.store self.now.facts) }
    {
        // for the proof alone
        let _end = self.facts.end();
        let entry = self.facts.entry(k);
        if entry.at < strip.first {
            return None;
        }
        if entry.at >= strip.last {
            return None;
        }
        if self.facts.may_act(entry.row, entry.at, entry.at + 1) {
            None
        } else {
            Some(entry.at)
        }
    }

    /// That of the entry before an index, if there is one.
    fn loose_before(&self, strip: Strip, k: usize) -> Option<u32>
        requires writings { AreWritings (state_of W.sets W.moves R.rules B.store self.now.facts) }
        requires strip { (number : ℕ) × IsStrip (timeline self.now.facts.paths) number strip }
        requires within { k ≤ length self.now.facts.work.writing }
        ensures { IsLooseBefore strip k result (state_of W.sets W.moves R.rules B.store self.now.facts) }
    {
        if k == 0 {
            None
        } else {
            self.loose_end(strip, k - 1)
        }
    }

    /// The numbers of a strip around one, from one row that may write the byte to the next one.
    pub(super) fn piece(&self, a: u32, point: u32, strip: Strip) -> Piece
        requires writings { AreWritings (state_of W.sets W.moves R.rules B.store self.now.facts) }
        requires strip { IsStrip (timeline self.now.facts.paths) point strip }
        requires calm { IsCalm a strip (state_of W.sets W.moves R.rules B.store self.now.facts) }
        ensures { IsPiece a strip point result (state_of W.sets W.moves R.rules B.store self.now.facts) }
    {
        let low = self.facts.listed_before(strip.first);
        let last = self.facts.listed_before(strip.last);
        let k = self.facts.past_hit(low, point, a);
        let from = self.facts.number_past(k).max(strip.first);
        let before = self.loose_before(strip, k);
        match self.facts.next_hit(k, last, a) {
            None => Piece {
                from,
                to: strip.last,
                before,
                after: None,
            },
            Some(hit) => Piece {
                from,
                to: self.facts.entry(hit).at.min(strip.last),
                before,
                after: self.loose_end(strip, hit),
            },
        }
    }

    /// The value of a byte from a number to the one after it, and back, if it is carried.
    fn carry_step(&mut self, a: u32, m: u32) -> Result<bool, LearnError>
        requires writings { AreWritings (state_of W.sets W.moves R.rules B.store self.old.facts) }
        requires next { (timeline self.old.facts.paths).moments.next m (m + 1) ≡ true }
        requires open { self.old.facts.complete ≡ false }
        ensures grows { Grows (state_of W.sets W.moves R.rules B.store self.old.facts) (state_of W.sets W.moves R.rules B.store self.new.facts) }
        ensures inferred { IfOk result (λ learnt. HasInferred (state_of W.sets W.moves R.rules B.store self.old.facts) (state_of W.sets W.moves R.rules B.store self.new.facts) learnt (IsCarriedIf (record { address = a; from = m; to = m + 1 }))) }
        ensures halt { IfErr result (λ h. IsHalt (state_of W.sets W.moves R.rules B.store self.new.facts) h) }
    {
        let end = self.facts.end();
        self.facts.held();
        if m >= end {
            return Ok(false);
        }
        if self.is_stopped(a, m) {
            return Ok(false);
        }
        if !self.is_carried_on(a, m) {
            return Ok(false);
        }
        self.carry_segment(a, m, m + 1)
    }

    /// Carries the value of a byte from a number, if one is named, to the one after it, and back.
    fn carry_end(&mut self, a: u32, m: Option<u32>) -> Result<bool, LearnError>
        requires writings { AreWritings (state_of W.sets W.moves R.rules B.store self.old.facts) }
        requires next { (i : ℕ) → m ≡ Some i → (timeline self.old.facts.paths).moments.next i (i + 1) ≡ true }
        requires open { self.old.facts.complete ≡ false }
        ensures grows { Grows (state_of W.sets W.moves R.rules B.store self.old.facts) (state_of W.sets W.moves R.rules B.store self.new.facts) }
        ensures inferred { IfOk result (λ learnt. HasInferred (state_of W.sets W.moves R.rules B.store self.old.facts) (state_of W.sets W.moves R.rules B.store self.new.facts) learnt (λ s. (i : ℕ) → m ≡ Some i → IsCarriedIf (record { address = a; from = i; to = i + 1 }) s)) }
        ensures halt { IfErr result (λ h. IsHalt (state_of W.sets W.moves R.rules B.store self.new.facts) h) }
    {
        let Some(m) = m else {
            return Ok(false);
        };
        self.carry_step(a, m)
    }

    /// The value of a byte from the last row before a number that may write it to the next one, in
    /// a strip in which no other may. Answers whether it was new, and how far it is carried.
    fn carry_beside(&mut self, a: u32, point: u32, strip: Strip) -> Result<(bool, u32), LearnError>
        requires strip { IsStrip (timeline self.old.facts.paths) point strip }
        requires calm { IsCalm a strip (state_of W.sets W.moves R.rules B.store self.old.facts) }
        requires writings { AreWritings (state_of W.sets W.moves R.rules B.store self.old.facts) }
        requires open { self.old.facts.complete ≡ false }
        ensures grows { Grows (state_of W.sets W.moves R.rules B.store self.old.facts) (state_of W.sets W.moves R.rules B.store self.new.facts) }
        ensures inferred { IfOk result (λ ended. HasInferred (state_of W.sets W.moves R.rules B.store self.old.facts) (state_of W.sets W.moves R.rules B.store self.new.facts) ended.0 (IsCarriedBeside a strip point ended.1)) }
        ensures halt { IfErr result (λ h. IsHalt (state_of W.sets W.moves R.rules B.store self.new.facts) h) }
        ensures onward { IfOk result (λ ended. (point ≤ ended.1) × (ended.1 ≤ strip.last)) }
    {
        let piece = self.piece(a, point, strip);
        let inside = self.carry_segment(a, piece.from, piece.to)?;
        let before = self.carry_end(a, piece.before)?;
        let after = self.carry_end(a, piece.after)?;
        Ok((inside | before | after, piece.to))
    }

    /// The value of a byte in a strip in which no row may write it but those of its own numbers:
    /// from each number at which its value begins or ends, and nowhere else, so that a path on
    /// which many rows may write something takes no longer.
    fn carry_calm(&mut self, a: u32, strip: Strip) -> Result<bool, LearnError>
        requires strip { IsStrip (timeline self.old.facts.paths) strip.first strip }
        requires calm { IsCalm a strip (state_of W.sets W.moves R.rules B.store self.old.facts) }
        requires writings { AreWritings (state_of W.sets W.moves R.rules B.store self.old.facts) }
        requires open { self.old.facts.complete ≡ false }
        ensures grows { Grows (state_of W.sets W.moves R.rules B.store self.old.facts) (state_of W.sets W.moves R.rules B.store self.new.facts) }
        ensures inferred { IfOk result (λ learnt. HasInferred (state_of W.sets W.moves R.rules B.store self.old.facts) (state_of W.sets W.moves R.rules B.store self.new.facts) learnt (IsCarriedIn a strip)) }
        ensures halt { IfErr result (λ h. IsHalt (state_of W.sets W.moves R.rules B.store self.new.facts) h) }
    {
        // for the proof alone
        let _end = self.facts.end();
        let mut learnt = false;
        let mut from = strip.first;
        while from <= strip.last {
            let Some(stretch) = self.facts.stretch(a, from) else {
                return Ok(learnt);
            };
            let point = edge(&stretch, from);
            if point > strip.last {
                return Ok(learnt);
            }
            self.facts.held();
            let beside = self.carry_beside(a, point, strip)?;
            learnt = learnt | beside.0;
            from = beside.1 + 1;
        }
        Ok(learnt)
    }

    /// The value of a byte from a number of a strip down, number by number, as long as it is new
    /// there. That this is done at once saves rounds: no clause rests on it.
    pub(super) fn carry_down(
        &mut self,
        a: u32,
        strip: Strip,
        number: u32,
    ) -> Result<bool, LearnError>
        requires strip { IsStrip (timeline self.old.facts.paths) strip.first strip }
        requires inside { number ≤ strip.last }
        requires writings { AreWritings (state_of W.sets W.moves R.rules B.store self.old.facts) }
        requires open { self.old.facts.complete ≡ false }
        ensures grows { Grows (state_of W.sets W.moves R.rules B.store self.old.facts) (state_of W.sets W.moves R.rules B.store self.new.facts) }
        ensures inferred { IfOk result (λ learnt. HasInferred (state_of W.sets W.moves R.rules B.store self.old.facts) (state_of W.sets W.moves R.rules B.store self.new.facts) learnt (λ _. ⊤)) }
        ensures halt { IfErr result (λ h. IsHalt (state_of W.sets W.moves R.rules B.store self.new.facts) h) }
    {
        let mut learnt = false;
        let mut m = number;
        while m > strip.first {
            m -= 1;
            let new = self.carry_step(a, m)?;
            learnt = learnt | new;
            if !new {
                return Ok(learnt);
            }
        }
        Ok(learnt)
    }

    /// The value of a byte from a number of a strip up, number by number, as long as it is new
    /// there. That this is done at once saves rounds: no clause rests on it.
    pub(super) fn carry_up(&mut self, a: u32, strip: Strip, number: u32) -> Result<bool, LearnError>
        requires strip { IsStrip (timeline self.old.facts.paths) strip.first strip }
        requires inside { strip.first ≤ number }
        requires writings { AreWritings (state_of W.sets W.moves R.rules B.store self.old.facts) }
        requires open { self.old.facts.complete ≡ false }
        ensures grows { Grows (state_of W.sets W.moves R.rules B.store self.old.facts) (state_of W.sets W.moves R.rules B.store self.new.facts) }
        ensures inferred { IfOk result (λ learnt. HasInferred (state_of W.sets W.moves R.rules B.store self.old.facts) (state_of W.sets W.moves R.rules B.store self.new.facts) learnt (λ _. ⊤)) }
        ensures halt { IfErr result (λ h. IsHalt (state_of W.sets W.moves R.rules B.store self.new.facts) h) }
    {
        let mut learnt = false;
        let mut m = number;
        while m < strip.last {
            let new = self.carry_step(a, m)?;
            learnt = learnt | new;
            if !new {
                return Ok(learnt);
            }
            m += 1;
        }
        Ok(learnt)
    }

    /// The value of a byte between a number of a strip and the one after it; where it is new, down
    /// from there, too.
    fn carry_border(&mut self, a: u32, strip: Strip, m: u32) -> Result<bool, LearnError>
        requires strip { IsStrip (timeline self.old.facts.paths) strip.first strip }
        requires inside { m < strip.last }
        requires from { strip.first ≤ m }
        requires writings { AreWritings (state_of W.sets W.moves R.rules B.store self.old.facts) }
        requires open { self.old.facts.complete ≡ false }
        ensures grows { Grows (state_of W.sets W.moves R.rules B.store self.old.facts) (state_of W.sets W.moves R.rules B.store self.new.facts) }
        ensures inferred { IfOk result (λ learnt. HasInferred (state_of W.sets W.moves R.rules B.store self.old.facts) (state_of W.sets W.moves R.rules B.store self.new.facts) learnt (IsCarriedIf (record { address = a; from = m; to = m + 1 }))) }
        ensures halt { IfErr result (λ h. IsHalt (state_of W.sets W.moves R.rules B.store self.new.facts) h) }
    {
        let new = self.carry_step(a, m)?;
        if !new {
            return Ok(new);
        }
        let down = self.carry_down(a, strip, m)?;
        Ok(new | down)
    }

    /// Carries the value of a byte in any strip, number by number, from each number at which the
    /// value ends or before which it begins.
    fn carry_singly(&mut self, a: u32, strip: Strip) -> Result<bool, LearnError>
        requires strip { IsStrip (timeline self.old.facts.paths) strip.first strip }
        requires writings { AreWritings (state_of W.sets W.moves R.rules B.store self.old.facts) }
        requires open { self.old.facts.complete ≡ false }
        ensures grows { Grows (state_of W.sets W.moves R.rules B.store self.old.facts) (state_of W.sets W.moves R.rules B.store self.new.facts) }
        ensures inferred { IfOk result (λ learnt. HasInferred (state_of W.sets W.moves R.rules B.store self.old.facts) (state_of W.sets W.moves R.rules B.store self.new.facts) learnt (IsCarriedIn a strip)) }
        ensures halt { IfErr result (λ h. IsHalt (state_of W.sets W.moves R.rules B.store self.new.facts) h) }
    {
        // for the proof alone
        let _end = self.facts.end();
        let mut learnt = false;
        let mut from = strip.first;
        while from < strip.last {
            let Some(stretch) = self.facts.stretch(a, from) else {
                return Ok(learnt);
            };
            let m = border(&stretch, from);
            if m >= strip.last {
                return Ok(learnt);
            }
            let new = self.carry_border(a, strip, m)?;
            learnt = learnt | new;
            from = m + 1;
        }
        Ok(learnt)
    }

    /// The value of a byte in a strip.
    pub(super) fn carry_strip(&mut self, a: u32, strip: Strip) -> Result<bool, LearnError>
        requires strip { IsStrip (timeline self.old.facts.paths) strip.first strip }
        requires writings { AreWritings (state_of W.sets W.moves R.rules B.store self.old.facts) }
        requires open { self.old.facts.complete ≡ false }
        ensures grows { Grows (state_of W.sets W.moves R.rules B.store self.old.facts) (state_of W.sets W.moves R.rules B.store self.new.facts) }
        ensures inferred { IfOk result (λ learnt. HasInferred (state_of W.sets W.moves R.rules B.store self.old.facts) (state_of W.sets W.moves R.rules B.store self.new.facts) learnt (IsCarriedIn a strip)) }
        ensures halt { IfErr result (λ h. IsHalt (state_of W.sets W.moves R.rules B.store self.new.facts) h) }
    {
        if self.even_to(a, strip.first) >= strip.last {
            return Ok(false);
        }
        if self.is_calm(a, strip) {
            self.carry_calm(a, strip)
        } else {
            self.carry_singly(a, strip)
        }
    }

    /// Tells the value of a byte at a number to which it is carried from one that isn't before or
    /// after it by one.
    fn tell_across(&mut self, a: u32, to: u32, value: u8) -> Result<bool, LearnError>
        requires to { to ≤ (timeline self.old.facts.paths).moments.end }
        requires tracked { IsTracked a (state_of W.sets W.moves R.rules B.store self.old.facts) }
        requires brought { IsBrought (state_of W.sets W.moves R.rules B.store self.old.facts) (fact_of to (Byte a) value) }
        requires room { IsLined (timeline self.old.facts.paths) → ⊥ }
        requires open { self.old.facts.complete ≡ false }
        ensures grows { Grows (state_of W.sets W.moves R.rules B.store self.old.facts) (state_of W.sets W.moves R.rules B.store self.new.facts) }
        ensures inferred { IfOk result (λ learnt. HasInferred (state_of W.sets W.moves R.rules B.store self.old.facts) (state_of W.sets W.moves R.rules B.store self.new.facts) learnt (Knows to (Byte a) value)) }
        ensures halt { IfErr result (λ h. IsHalt (state_of W.sets W.moves R.rules B.store self.new.facts) h) }
    {
        self.learn_byte(to, a, value, false)
    }

    /// Tells the value of a byte at a number that is known at one that is next to it, over which it
    /// is carried, if it is known there.
    fn tell_back(&mut self, a: u32, m: u32, w: u32) -> Result<bool, LearnError>
        requires tracked { IsTracked a (state_of W.sets W.moves R.rules B.store self.old.facts) }
        requires bridged { IsBridged (record { address = a; from = m; to = w }) (state_of W.sets W.moves R.rules B.store self.old.facts) }
        requires unknown { (B.store self.old.facts.known.bytes).fact m a ≡ None }
        requires room { IsLined (timeline self.old.facts.paths) → ⊥ }
        requires open { self.old.facts.complete ≡ false }
        ensures grows { Grows (state_of W.sets W.moves R.rules B.store self.old.facts) (state_of W.sets W.moves R.rules B.store self.new.facts) }
        ensures inferred { IfOk result (λ learnt. HasInferred (state_of W.sets W.moves R.rules B.store self.old.facts) (state_of W.sets W.moves R.rules B.store self.new.facts) learnt (IsCarriedIf (record { address = a; from = m; to = w }))) }
        ensures halt { IfErr result (λ h. IsHalt (state_of W.sets W.moves R.rules B.store self.new.facts) h) }
    {
        self.facts.held();
        let Some(value) = self.facts.known_byte(w, a) else {
            return Ok(false);
        };
        self.tell_across(a, m, value)
    }

    /// Tells the value of a byte at one of two numbers that are next to each other, if it is known
    /// at the other and carried between them.
    fn tell_either(&mut self, a: u32, m: u32, w: u32) -> Result<bool, LearnError>
        requires tracked { IsTracked a (state_of W.sets W.moves R.rules B.store self.old.facts) }
        requires bridged { IsBridged (record { address = a; from = m; to = w }) (state_of W.sets W.moves R.rules B.store self.old.facts) }
        requires room { IsLined (timeline self.old.facts.paths) → ⊥ }
        requires open { self.old.facts.complete ≡ false }
        ensures grows { Grows (state_of W.sets W.moves R.rules B.store self.old.facts) (state_of W.sets W.moves R.rules B.store self.new.facts) }
        ensures inferred { IfOk result (λ learnt. HasInferred (state_of W.sets W.moves R.rules B.store self.old.facts) (state_of W.sets W.moves R.rules B.store self.new.facts) learnt (IsCarriedIf (record { address = a; from = m; to = w }))) }
        ensures halt { IfErr result (λ h. IsHalt (state_of W.sets W.moves R.rules B.store self.new.facts) h) }
    {
        self.facts.held();
        match self.facts.known_byte(m, a) {
            None => self.tell_back(a, m, w),
            Some(value) => self.tell_across(a, w, value),
        }
    }

    /// The value of a byte from a number to one that is next to it, and back, where it is carried.
    fn cross(&mut self, a: u32, m: u32, w: u32) -> Result<bool, LearnError>
        requires tracked { IsTracked a (state_of W.sets W.moves R.rules B.store self.old.facts) }
        requires bridged { IsBridged (record { address = a; from = m; to = w }) (state_of W.sets W.moves R.rules B.store self.old.facts) }
        requires open { self.old.facts.complete ≡ false }
        ensures grows { Grows (state_of W.sets W.moves R.rules B.store self.old.facts) (state_of W.sets W.moves R.rules B.store self.new.facts) }
        ensures inferred { IfOk result (λ learnt. HasInferred (state_of W.sets W.moves R.rules B.store self.old.facts) (state_of W.sets W.moves R.rules B.store self.new.facts) learnt (IsCarriedIf (record { address = a; from = m; to = w }))) }
        ensures halt { IfErr result (λ h. IsHalt (state_of W.sets W.moves R.rules B.store self.new.facts) h) }
    {
        if is_after(m, w) {
            return self.carry_segment(a, m, m + 1);
        }
        self.tell_either(a, m, w)
    }

    /// The value of a byte from a number to one that is next to it, and back, if it is carried.
    fn carry_link(
        &mut self,
        a: u32,
        m: u32,
        w: u32,
        blocker: Option<usize>,
    ) -> Result<Link, LearnError>
        requires tracked { IsTracked a (state_of W.sets W.moves R.rules B.store self.old.facts) }
        requires next { (timeline self.old.facts.paths).moments.next m w ≡ true }
        requires writings { AreWritings (state_of W.sets W.moves R.rules B.store self.old.facts) }
        requires open { self.old.facts.complete ≡ false }
        ensures grows { Grows (state_of W.sets W.moves R.rules B.store self.old.facts) (state_of W.sets W.moves R.rules B.store self.new.facts) }
        ensures inferred { IfOk result (λ link. HasInferred (state_of W.sets W.moves R.rules B.store self.old.facts) (state_of W.sets W.moves R.rules B.store self.new.facts) link.has_news (IsCarriedIf (record { address = a; from = m; to = w }))) }
        ensures halt { IfErr result (λ h. IsHalt (state_of W.sets W.moves R.rules B.store self.new.facts) h) }
    {
        if self.facts.is_untraced_between(m, w) {
            return Ok(unchanged(blocker));
        }
        let found = self.blocker(a, m, w);
        if found.is_some() {
            self.note_stop(m, found);
            return Ok(unchanged(found));
        }
        let has_news = self.cross(a, m, w)?;
        Ok(Link { has_news, blocker })
    }

    /// A number from one on, before which from there on a value is known of a byte, or none.
    fn like_to(&self, a: u32, here: Option<u8>, from: u32) -> u32
        requires inside { from ≤ (timeline self.now.facts.paths).moments.end }
        ensures order { from ≤ result }
        ensures alike { (w : ℕ) → from ≤ w → w < result → (B.store self.now.facts.known.bytes).fact w a ≡ here }
    {
        let end = self.facts.end();
        match self.facts.stretch(a, from) {
            None => like_unless(here.is_some(), end + 1, from),
            Some(stretch) => like_along(&stretch, here, from, end),
        }
    }

    /// A number from one on that is next to another one, before which from there on the byte goes
    /// nowhere: the same is known as at that one, or it isn't carried.
    fn idle_from(&self, a: u32, m: u32, w: u32, here: Option<u8>, row: Option<u32>) -> u32
        requires inside { w ≤ (timeline self.now.facts.paths).moments.end }
        requires writings { AreWritings (state_of W.sets W.moves R.rules B.store self.now.facts) }
        requires next { (timeline self.now.facts.paths).moments.next m w ≡ true }
        requires here { here ≡ (B.store self.now.facts.known.bytes).fact m a }
        requires there { IfSome row (λ i. IsSome ((timeline self.now.facts.paths).legs.row i)) }
        requires hits { IfSome row (λ i. IsHitBy a i (state_of W.sets W.moves R.rules B.store self.now.facts)) }
        ensures order { w ≤ result }
        ensures idle { (v : ℕ) → w ≤ v → v < result → IsCarriedIf (record { address = a; from = m; to = v }) (state_of W.sets W.moves R.rules B.store self.now.facts) }
    {
        let like = self.like_to(a, here, w);
        if like > w {
            return like;
        }
        if self.is_shut(a, m, w, row) { w + 1 } else { w }
    }

    /// A number from one on, before which from there on a byte goes to none that is next to another
    /// number: by what is known, and a row of the list, if one is named.
    fn idle_to(&self, a: u32, m: u32, least: u32, index: Option<usize>) -> u32
        requires inside { m ≤ (timeline self.now.facts.paths).moments.end }
        requires writings { AreWritings (state_of W.sets W.moves R.rules B.store self.now.facts) }
        ensures order { least ≤ result }
        ensures below { AreLinksBelow a m least (state_of W.sets W.moves R.rules B.store self.now.facts) → AreLinksBelow a m result (state_of W.sets W.moves R.rules B.store self.now.facts) }
    {
        let end = self.facts.end();
        let here = self.facts.known_byte(m, a);
        let row = self.listed_hit(a, index);
        let mut from = least;
        while from <= end {
            let Some(next) = self.facts.next_from(m, from) else {
                return end + 1;
            };
            from = self.idle_from(a, m, next, here, row);
            if from == next {
                return next;
            }
        }
        from
    }

    /// The value of a byte from a number to one that is next to it, and back, if it is carried.
    /// Answers a number up to which, from the next one on, there is none to which it would go.
    pub(super) fn carry_next(
        &mut self,
        a: u32,
        m: u32,
        next: u32,
        blocker: Option<usize>,
    ) -> Result<(Link, u32), LearnError>
        requires inside { m ≤ (timeline self.old.facts.paths).moments.end }
        requires tracked { IsTracked a (state_of W.sets W.moves R.rules B.store self.old.facts) }
        requires next { (timeline self.old.facts.paths).moments.next m next ≡ true }
        requires writings { AreWritings (state_of W.sets W.moves R.rules B.store self.old.facts) }
        requires open { self.old.facts.complete ≡ false }
        ensures grows { Grows (state_of W.sets W.moves R.rules B.store self.old.facts) (state_of W.sets W.moves R.rules B.store self.new.facts) }
        ensures inferred { IfOk result (λ done. HasInferred (state_of W.sets W.moves R.rules B.store self.old.facts) (state_of W.sets W.moves R.rules B.store self.new.facts) done.0.has_news (λ s. (w : ℕ) → next ≤ w → w < done.1 → IsCarriedIf (record { address = a; from = m; to = w }) s)) }
        ensures onward { IfOk result (λ done. next < done.1) }
        ensures halt { IfErr result (λ h. IsHalt (state_of W.sets W.moves R.rules B.store self.new.facts) h) }
    {
        if self.blocks(a, m, next, blocker) {
            return Ok((unchanged(blocker), next + 1));
        }
        let here = self.facts.known_byte(m, a);
        let like = self.like_to(a, here, next);
        if like > next {
            return Ok((unchanged(blocker), like));
        }
        let link = self.carry_link(a, m, next, blocker)?;
        Ok((link, next + 1))
    }

    /// The value of a byte from a number to all that are next to it, and back. Where a row of the
    /// list, one at which a byte stopped before or one that is found, may act between it and all of
    /// them, these are gone over no further.
    pub(super) fn carry_links(&mut self, a: u32, m: u32) -> Result<bool, LearnError>
        requires inside { m ≤ (timeline self.old.facts.paths).moments.end }
        requires tracked { IsTracked a (state_of W.sets W.moves R.rules B.store self.old.facts) }
        requires writings { AreWritings (state_of W.sets W.moves R.rules B.store self.old.facts) }
        requires open { self.old.facts.complete ≡ false }
        ensures grows { Grows (state_of W.sets W.moves R.rules B.store self.old.facts) (state_of W.sets W.moves R.rules B.store self.new.facts) }
        ensures inferred { IfOk result (λ has_news. HasInferred (state_of W.sets W.moves R.rules B.store self.old.facts) (state_of W.sets W.moves R.rules B.store self.new.facts) has_news (AreLinks a m)) }
        ensures halt { IfErr result (λ h. IsHalt (state_of W.sets W.moves R.rules B.store self.new.facts) h) }
    {
        let end = self.facts.end();
        let mut has_news = false;
        let mut blocker = self.wall(a, m);
        let mut least = 0;
        while least <= end {
            if self.is_blocked(a, m, blocker) {
                self.note_wall(m, blocker);
                return Ok(has_news);
            }
            let from = self.idle_to(a, m, least, blocker);
            let Some(next) = self.facts.next_from(m, from) else {
                return Ok(has_news);
            };
            let done = self.carry_next(a, m, next, blocker)?;
            has_news = has_news | done.0.has_news;
            blocker = done.0.blocker;
            least = done.1;
        }
        Ok(has_news)
    }
}
