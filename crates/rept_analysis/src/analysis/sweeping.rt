//! All rules once: rows, last values and bytes, and sets of one value.
#![tactic(auto, using(rept_timeline::specs::Paths::lawful))]

ghost use Rattle.rept_timeline.specs.Ends.{last_values_in};
ghost use Rattle.rept_timeline.specs.Paths.{timeline};
ghost use Rattle.std.specs.Prelude.{⊤, ◌≡◌, ◌+◌, ◌<◌, ◌≤◌, false, IfOk, IfErr, Some, None, Ok};
ghost use Rattle.rept_dump.specs.Memory.{crash_byte};
ghost use Rattle.rept_dump.specs.Program.{contents};
ghost use Rattle.rept_report.specs.Setting.{IsLast};
ghost use Rattle.rept_facts.specs.Begun.{HasEndsAlone, HasEndsFirst, LearnsEndsFirst};
ghost use Rattle.rept_facts.specs.State.{setting_of, state_of};
ghost use Rattle.rept_facts.specs.Inferring.{IsTracked, Grows, HasInferred, IsHalt, IsFitted, LastKnownAt, LastPointKnown, AreWritings, AreExact, IsUncut, RowsClosed, LastByteKnown, LastBytesKnown, PointSingles, SinglesKnown, AllCarried, IsInferredAll, LastKnownBelow};
ghost use Rattle.rept_propagate.specs.Likeness.{IsCurrent};

use super::Analysis;
use rept_facts::LearnError;
use rept_isa::{Reg, register};
use rept_reason::RowRules;
use rept_span::Transfer;
use rept_versions::ByteFacts;

/// How many times at most all rows are gone over back and onward again in a round.
const PASSES: u32 = 16;

impl<'a, B: ByteFacts, W: Transfer, R: RowRules> Analysis<'a, B, W, R> {
    /// All rows, from the last to the first.
    fn infer_back(&mut self) -> Result<bool, LearnError>
        requires writings { AreWritings (state_of W.sets W.moves R.rules B.store self.old.propagation.facts) }
        requires open { self.old.propagation.facts.complete ≡ false }
        requires uncut { IsUncut (state_of W.sets W.moves R.rules B.store self.old.propagation.facts) }
        ensures grows { Grows (state_of W.sets W.moves R.rules B.store self.old.propagation.facts) (state_of W.sets W.moves R.rules B.store self.new.propagation.facts) }
        ensures inferred { IfOk result (λ learnt. HasInferred (state_of W.sets W.moves R.rules B.store self.old.propagation.facts) (state_of W.sets W.moves R.rules B.store self.new.propagation.facts) learnt (RowsClosed)) }
        ensures halt { IfErr result (λ h. IsHalt (state_of W.sets W.moves R.rules B.store self.new.propagation.facts) h) }
    {
        let count = self.propagation.facts.count();
        let mut learnt = false;
        for i in (0..count).rev() {
            let new = self.infer_noted(i)?;
            learnt = learnt | new;
        }
        Ok(learnt)
    }

    /// The row before which a moment lies, if there is one and it may tell something new.
    fn infer_at(&mut self, number: u32) -> Result<bool, LearnError>
        requires writings { AreWritings (state_of W.sets W.moves R.rules B.store self.old.propagation.facts) }
        requires open { self.old.propagation.facts.complete ≡ false }
        requires uncut { IsUncut (state_of W.sets W.moves R.rules B.store self.old.propagation.facts) }
        ensures grows { Grows (state_of W.sets W.moves R.rules B.store self.old.propagation.facts) (state_of W.sets W.moves R.rules B.store self.new.propagation.facts) }
        ensures inferred { IfOk result (λ learnt. HasInferred (state_of W.sets W.moves R.rules B.store self.old.propagation.facts) (state_of W.sets W.moves R.rules B.store self.new.propagation.facts) learnt (λ _. ⊤)) }
        ensures halt { IfErr result (λ h. IsHalt (state_of W.sets W.moves R.rules B.store self.new.propagation.facts) h) }
    {
        match self.propagation.facts.row_at(number) {
            None => {
                self.fresh.note_none(number);
                Ok(false)
            }
            Some(i) => self.infer_fresh(number, i),
        }
    }

    /// All rows that may tell something new, in the order of their moments.
    fn infer_onward(&mut self) -> Result<bool, LearnError>
        requires writings { AreWritings (state_of W.sets W.moves R.rules B.store self.old.propagation.facts) }
        requires open { self.old.propagation.facts.complete ≡ false }
        requires uncut { IsUncut (state_of W.sets W.moves R.rules B.store self.old.propagation.facts) }
        ensures grows { Grows (state_of W.sets W.moves R.rules B.store self.old.propagation.facts) (state_of W.sets W.moves R.rules B.store self.new.propagation.facts) }
        ensures inferred { IfOk result (λ learnt. HasInferred (state_of W.sets W.moves R.rules B.store self.old.propagation.facts) (state_of W.sets W.moves R.rules B.store self.new.propagation.facts) learnt (λ _. ⊤)) }
        ensures halt { IfErr result (λ h. IsHalt (state_of W.sets W.moves R.rules B.store self.new.propagation.facts) h) }
    {
        let end = self.propagation.facts.end();
        let mut learnt = false;
        let mut number = self.fresh.next(0);
        while number < end {
            let new = self.infer_at(number)?;
            learnt = learnt | new;
            number = self.fresh.next(number + 1);
        }
        Ok(learnt)
    }

    /// All of them in the opposite order.
    fn infer_fresh_back(&mut self) -> Result<bool, LearnError>
        requires writings { AreWritings (state_of W.sets W.moves R.rules B.store self.old.propagation.facts) }
        requires open { self.old.propagation.facts.complete ≡ false }
        requires uncut { IsUncut (state_of W.sets W.moves R.rules B.store self.old.propagation.facts) }
        ensures grows { Grows (state_of W.sets W.moves R.rules B.store self.old.propagation.facts) (state_of W.sets W.moves R.rules B.store self.new.propagation.facts) }
        ensures inferred { IfOk result (λ learnt. HasInferred (state_of W.sets W.moves R.rules B.store self.old.propagation.facts) (state_of W.sets W.moves R.rules B.store self.new.propagation.facts) learnt (λ _. ⊤)) }
        ensures halt { IfErr result (λ h. IsHalt (state_of W.sets W.moves R.rules B.store self.new.propagation.facts) h) }
    {
        let mut learnt = false;
        let mut end = self.fresh.end_below(self.propagation.facts.end());
        while end > 0 {
            let new = self.infer_at(end - 1)?;
            learnt = learnt | new;
            end = self.fresh.end_below(end - 1);
        }
        Ok(learnt)
    }

    /// The value of a register other than x0 at the last point of a thread, if it has one there.
    fn infer_last(&mut self, point: u32, r: Reg) -> Result<bool, LearnError>
        requires point { IsLast (setting_of W.sets W.moves R.rules self.old.propagation.facts) point }
        requires named { 0 < r }
        requires open { self.old.propagation.facts.complete ≡ false }
        ensures grows { Grows (state_of W.sets W.moves R.rules B.store self.old.propagation.facts) (state_of W.sets W.moves R.rules B.store self.new.propagation.facts) }
        ensures inferred { IfOk result (λ learnt. HasInferred (state_of W.sets W.moves R.rules B.store self.old.propagation.facts) (state_of W.sets W.moves R.rules B.store self.new.propagation.facts) learnt (LastKnownAt point r)) }
        ensures known { IfOk result (λ _. LastKnownAt point r (state_of W.sets W.moves R.rules B.store self.new.propagation.facts)) }
        ensures ends { HasEndsAlone (state_of W.sets W.moves R.rules B.store self.old.propagation.facts) → HasEndsAlone (state_of W.sets W.moves R.rules B.store self.new.propagation.facts) }
        ensures calm { IfErr result (λ _. HasEndsAlone (state_of W.sets W.moves R.rules B.store self.old.propagation.facts) → ⊥) }
        ensures halt { IfErr result (λ h. IsHalt (state_of W.sets W.moves R.rules B.store self.new.propagation.facts) h) }
    {
        match self.propagation.facts.last_value(point, r) {
            None => Ok(false),
            Some(value) => self.learn_last(point, r, value),
        }
    }

    /// The value that a register other than x0 has at the last point of a thread.
    fn learn_last(&mut self, point: u32, r: Reg, value: u32) -> Result<bool, LearnError>
        requires point { IsLast (setting_of W.sets W.moves R.rules self.old.propagation.facts) point }
        requires named { 0 < r }
        requires found { last_values_in self.old.propagation.facts.last point r ≡ Some value }
        requires open { self.old.propagation.facts.complete ≡ false }
        ensures grows { Grows (state_of W.sets W.moves R.rules B.store self.old.propagation.facts) (state_of W.sets W.moves R.rules B.store self.new.propagation.facts) }
        ensures inferred { IfOk result (λ learnt. HasInferred (state_of W.sets W.moves R.rules B.store self.old.propagation.facts) (state_of W.sets W.moves R.rules B.store self.new.propagation.facts) learnt (LastKnownAt point r)) }
        ensures known { IfOk result (λ _. LastKnownAt point r (state_of W.sets W.moves R.rules B.store self.new.propagation.facts)) }
        ensures ends { HasEndsAlone (state_of W.sets W.moves R.rules B.store self.old.propagation.facts) → HasEndsAlone (state_of W.sets W.moves R.rules B.store self.new.propagation.facts) }
        ensures calm { IfErr result (λ _. HasEndsAlone (state_of W.sets W.moves R.rules B.store self.old.propagation.facts) → ⊥) }
        ensures halt { IfErr result (λ h. IsHalt (state_of W.sets W.moves R.rules B.store self.new.propagation.facts) h) }
    {
        // for the proof alone
        let _number = r.number();
        let learnt = self.propagation.facts.learn(point, r, value)?;
        Ok(learnt)
    }

    /// The values of all registers at the last point of a thread. Where nothing but such values is
    /// known, none clashes.
    fn infer_last_point(&mut self, point: u32) -> Result<bool, LearnError>
        requires point { IsLast (setting_of W.sets W.moves R.rules self.old.propagation.facts) point }
        requires open { self.old.propagation.facts.complete ≡ false }
        ensures grows { Grows (state_of W.sets W.moves R.rules B.store self.old.propagation.facts) (state_of W.sets W.moves R.rules B.store self.new.propagation.facts) }
        ensures inferred { IfOk result (λ learnt. HasInferred (state_of W.sets W.moves R.rules B.store self.old.propagation.facts) (state_of W.sets W.moves R.rules B.store self.new.propagation.facts) learnt (LastPointKnown 32 point)) }
        ensures known { IfOk result (λ _. LastPointKnown 32 point (state_of W.sets W.moves R.rules B.store self.new.propagation.facts)) }
        ensures ends { HasEndsAlone (state_of W.sets W.moves R.rules B.store self.old.propagation.facts) → HasEndsAlone (state_of W.sets W.moves R.rules B.store self.new.propagation.facts) }
        ensures calm { IfErr result (λ _. HasEndsAlone (state_of W.sets W.moves R.rules B.store self.old.propagation.facts) → ⊥) }
        ensures halt { IfErr result (λ h. IsHalt (state_of W.sets W.moves R.rules B.store self.new.propagation.facts) h) }
    {
        let mut learnt = false;
        for r in 1..32u8 {
            let new = self.infer_last(point, register(r))?;
            learnt = learnt | new;
        }
        Ok(learnt)
    }

    /// The last values of all registers of all threads.
    fn infer_all_last(&mut self) -> Result<bool, LearnError>
        requires open { self.old.propagation.facts.complete ≡ false }
        ensures grows { Grows (state_of W.sets W.moves R.rules B.store self.old.propagation.facts) (state_of W.sets W.moves R.rules B.store self.new.propagation.facts) }
        ensures inferred { IfOk result (λ learnt. HasInferred (state_of W.sets W.moves R.rules B.store self.old.propagation.facts) (state_of W.sets W.moves R.rules B.store self.new.propagation.facts) learnt (LastKnownBelow 32)) }
        ensures begun { LearnsEndsFirst (state_of W.sets W.moves R.rules B.store self.old.propagation.facts) → HasEndsFirst (state_of W.sets W.moves R.rules B.store self.new.propagation.facts) }
        ensures halt { IfErr result (λ h. IsHalt (state_of W.sets W.moves R.rules B.store self.new.propagation.facts) h) }
    {
        let mut learnt = false;
        let mut least = 0;
        loop {
            self.propagation.facts.held();
            let Some(point) = self.propagation.facts.next_last(least) else {
                return Ok(learnt);
            };
            let new = self.infer_last_point(point)?;
            learnt = learnt | new;
            least = point + 1;
        }
    }

    /// The byte of the dump at a tracked address.
    pub(super) fn infer_last_byte(&mut self, a: u32) -> Result<bool, LearnError>
        requires tracked { IsTracked a (state_of W.sets W.moves R.rules B.store self.old.propagation.facts) }
        requires open { self.old.propagation.facts.complete ≡ false }
        ensures grows { Grows (state_of W.sets W.moves R.rules B.store self.old.propagation.facts) (state_of W.sets W.moves R.rules B.store self.new.propagation.facts) }
        ensures inferred { IfOk result (λ learnt. HasInferred (state_of W.sets W.moves R.rules B.store self.old.propagation.facts) (state_of W.sets W.moves R.rules B.store self.new.propagation.facts) learnt (LastByteKnown a)) }
        ensures halt { IfErr result (λ h. IsHalt (state_of W.sets W.moves R.rules B.store self.new.propagation.facts) h) }
    {
        let byte = self.propagation.facts.last_byte(a);
        self.learn_last_byte(a, byte)
    }

    /// The byte of the dump at a tracked address, which was looked up.
    fn learn_last_byte(&mut self, a: u32, byte: Option<u8>) -> Result<bool, LearnError>
        requires tracked { IsTracked a (state_of W.sets W.moves R.rules B.store self.old.propagation.facts) }
        requires open { self.old.propagation.facts.complete ≡ false }
        requires byte { byte ≡ crash_byte (contents self.old.propagation.facts.exe) self.old.propagation.facts.core a }
        ensures grows { Grows (state_of W.sets W.moves R.rules B.store self.old.propagation.facts) (state_of W.sets W.moves R.rules B.store self.new.propagation.facts) }
        ensures inferred { IfOk result (λ learnt. HasInferred (state_of W.sets W.moves R.rules B.store self.old.propagation.facts) (state_of W.sets W.moves R.rules B.store self.new.propagation.facts) learnt (LastByteKnown a)) }
        ensures halt { IfErr result (λ h. IsHalt (state_of W.sets W.moves R.rules B.store self.new.propagation.facts) h) }
    {
        let point = self.propagation.facts.end();
        match byte {
            None => Ok(false),
            Some(v) => self.propagation.learn_byte(point, a, v, false),
        }
    }

    /// The bytes of the dump at all tracked addresses.
    fn infer_last_bytes(&mut self) -> Result<bool, LearnError>
        requires open { self.old.propagation.facts.complete ≡ false }
        ensures grows { Grows (state_of W.sets W.moves R.rules B.store self.old.propagation.facts) (state_of W.sets W.moves R.rules B.store self.new.propagation.facts) }
        ensures inferred { IfOk result (λ learnt. HasInferred (state_of W.sets W.moves R.rules B.store self.old.propagation.facts) (state_of W.sets W.moves R.rules B.store self.new.propagation.facts) learnt (LastBytesKnown)) }
        ensures halt { IfErr result (λ h. IsHalt (state_of W.sets W.moves R.rules B.store self.new.propagation.facts) h) }
    {
        let count = self.propagation.facts.tracked_count();
        let mut learnt = false;
        for k in 0..count {
            let a = self.propagation.facts.address(k);
            let new = self.infer_last_byte(a)?;
            learnt = learnt | new;
        }
        Ok(learnt)
    }

    /// The sets of one value at a point.
    pub(super) fn infer_point(&mut self, point: u32) -> Result<bool, LearnError>
        requires point { point ≤ (timeline self.old.propagation.facts.paths).legs.count }
        requires fitted { IsFitted (state_of W.sets W.moves R.rules B.store self.old.propagation.facts) }
        requires open { self.old.propagation.facts.complete ≡ false }
        ensures grows { Grows (state_of W.sets W.moves R.rules B.store self.old.propagation.facts) (state_of W.sets W.moves R.rules B.store self.new.propagation.facts) }
        ensures inferred { IfOk result (λ learnt. HasInferred (state_of W.sets W.moves R.rules B.store self.old.propagation.facts) (state_of W.sets W.moves R.rules B.store self.new.propagation.facts) learnt (PointSingles 32 point)) }
        ensures halt { IfErr result (λ h. IsHalt (state_of W.sets W.moves R.rules B.store self.new.propagation.facts) h) }
    {
        let mut learnt = false;
        for r in 0..32u8 {
            let new = self.propagation.facts.infer_single(point, register(r))?;
            learnt = learnt | new;
        }
        Ok(learnt)
    }

    /// All sets of one value.
    fn infer_singles(&mut self) -> Result<bool, LearnError>
        requires fitted { IsFitted (state_of W.sets W.moves R.rules B.store self.old.propagation.facts) }
        requires open { self.old.propagation.facts.complete ≡ false }
        ensures grows { Grows (state_of W.sets W.moves R.rules B.store self.old.propagation.facts) (state_of W.sets W.moves R.rules B.store self.new.propagation.facts) }
        ensures inferred { IfOk result (λ learnt. HasInferred (state_of W.sets W.moves R.rules B.store self.old.propagation.facts) (state_of W.sets W.moves R.rules B.store self.new.propagation.facts) learnt (SinglesKnown)) }
        ensures halt { IfErr result (λ h. IsHalt (state_of W.sets W.moves R.rules B.store self.new.propagation.facts) h) }
    {
        let count = self.propagation.facts.count();
        let mut learnt = false;
        for point in 0..count + 1 {
            let new = self.infer_point(point)?;
            learnt = learnt | new;
        }
        Ok(learnt)
    }

    /// All rows, onward, and back and onward again as long as rows are put in the list anew, but so
    /// many times at most.
    fn infer_on(&mut self, most: u32) -> Result<(), LearnError>
        requires writings { AreWritings (state_of W.sets W.moves R.rules B.store self.old.propagation.facts) }
        requires open { self.old.propagation.facts.complete ≡ false }
        requires uncut { IsUncut (state_of W.sets W.moves R.rules B.store self.old.propagation.facts) }
        ensures grows { Grows (state_of W.sets W.moves R.rules B.store self.old.propagation.facts) (state_of W.sets W.moves R.rules B.store self.new.propagation.facts) }
        ensures uncut { IfOk result (λ _. IsUncut (state_of W.sets W.moves R.rules B.store self.new.propagation.facts)) }
        ensures halt { IfErr result (λ h. IsHalt (state_of W.sets W.moves R.rules B.store self.new.propagation.facts) h) }
    {
        self.propagation.facts.note_pass();
        self.infer_onward()?;
        if most == 0 || !self.propagation.facts.has_put() {
            return Ok(());
        }
        self.infer_fresh_back()?;
        self.infer_on(most - 1)
    }

    /// All rows that may tell something new, back and, where that told something, onward.
    fn infer_through(&mut self) -> Result<bool, LearnError>
        requires writings { AreWritings (state_of W.sets W.moves R.rules B.store self.old.propagation.facts) }
        requires open { self.old.propagation.facts.complete ≡ false }
        requires uncut { IsUncut (state_of W.sets W.moves R.rules B.store self.old.propagation.facts) }
        ensures grows { Grows (state_of W.sets W.moves R.rules B.store self.old.propagation.facts) (state_of W.sets W.moves R.rules B.store self.new.propagation.facts) }
        ensures inferred { IfOk result (λ learnt. HasInferred (state_of W.sets W.moves R.rules B.store self.old.propagation.facts) (state_of W.sets W.moves R.rules B.store self.new.propagation.facts) learnt (λ _. ⊤)) }
        ensures halt { IfErr result (λ h. IsHalt (state_of W.sets W.moves R.rules B.store self.new.propagation.facts) h) }
    {
        let back = self.infer_fresh_back()?;
        if !back {
            return Ok(false);
        }
        self.infer_on(PASSES)?;
        Ok(true)
    }

    /// The values of the tracked bytes of which something was learnt lately; where that told
    /// nothing, the bytes of the dump.
    fn carry_and_end(&mut self) -> Result<bool, LearnError>
        requires writings { AreWritings (state_of W.sets W.moves R.rules B.store self.old.propagation.facts) }
        requires open { self.old.propagation.facts.complete ≡ false }
        ensures grows { Grows (state_of W.sets W.moves R.rules B.store self.old.propagation.facts) (state_of W.sets W.moves R.rules B.store self.new.propagation.facts) }
        ensures inferred { IfOk result (λ learnt. HasInferred (state_of W.sets W.moves R.rules B.store self.old.propagation.facts) (state_of W.sets W.moves R.rules B.store self.new.propagation.facts) learnt (LastBytesKnown)) }
        ensures halt { IfErr result (λ h. IsHalt (state_of W.sets W.moves R.rules B.store self.new.propagation.facts) h) }
    {
        let carried = self.propagation.carry_all_told()?;
        if carried {
            return Ok(true);
        }
        self.infer_last_bytes()
    }

    /// Bytes and rows by turns, as long as the bytes tell something new, but so many times at most:
    /// so the sets are filled seldom where little is learnt at a time.
    fn carry_by_turns(&mut self, most: u32) -> Result<bool, LearnError>
        requires writings { AreWritings (state_of W.sets W.moves R.rules B.store self.old.propagation.facts) }
        requires open { self.old.propagation.facts.complete ≡ false }
        requires uncut { IsUncut (state_of W.sets W.moves R.rules B.store self.old.propagation.facts) }
        ensures grows { Grows (state_of W.sets W.moves R.rules B.store self.old.propagation.facts) (state_of W.sets W.moves R.rules B.store self.new.propagation.facts) }
        ensures inferred { IfOk result (λ learnt. HasInferred (state_of W.sets W.moves R.rules B.store self.old.propagation.facts) (state_of W.sets W.moves R.rules B.store self.new.propagation.facts) learnt (LastBytesKnown)) }
        ensures halt { IfErr result (λ h. IsHalt (state_of W.sets W.moves R.rules B.store self.new.propagation.facts) h) }
    {
        let bytes = self.carry_and_end()?;
        if !bytes || most == 0 {
            return Ok(bytes);
        }
        self.infer_through()?;
        self.carry_by_turns(most - 1)?;
        Ok(true)
    }

    /// Bytes and rows by turns; nothing in the first round where the rows told news, since rows
    /// carry the bytes that they look at by themselves.
    fn carry_rest(&mut self, has_news: bool) -> Result<bool, LearnError>
        requires writings { AreWritings (state_of W.sets W.moves R.rules B.store self.old.propagation.facts) }
        requires open { self.old.propagation.facts.complete ≡ false }
        requires uncut { IsUncut (state_of W.sets W.moves R.rules B.store self.old.propagation.facts) }
        ensures grows { Grows (state_of W.sets W.moves R.rules B.store self.old.propagation.facts) (state_of W.sets W.moves R.rules B.store self.new.propagation.facts) }
        ensures inferred { IfOk result (λ learnt. HasInferred (state_of W.sets W.moves R.rules B.store self.old.propagation.facts) (state_of W.sets W.moves R.rules B.store self.new.propagation.facts) learnt (λ s. has_news ≡ false → LastBytesKnown s)) }
        ensures halt { IfErr result (λ h. IsHalt (state_of W.sets W.moves R.rules B.store self.new.propagation.facts) h) }
    {
        if has_news && self.propagation.facts.is_first_round() {
            return Ok(false);
        }
        self.carry_by_turns(PASSES)
    }

    /// Last values, rows, carried bytes and last bytes, once, with the rows and bytes that may tell
    /// something new. Bytes are carried before the dump tells its own, so that most of those are
    /// known by then and take no place of their own.
    pub(super) fn sweep_rows(&mut self) -> Result<bool, LearnError>
        requires writings { AreWritings (state_of W.sets W.moves R.rules B.store self.old.propagation.facts) }
        requires open { self.old.propagation.facts.complete ≡ false }
        requires uncut { IsUncut (state_of W.sets W.moves R.rules B.store self.old.propagation.facts) }
        ensures grows { Grows (state_of W.sets W.moves R.rules B.store self.old.propagation.facts) (state_of W.sets W.moves R.rules B.store self.new.propagation.facts) }
        ensures inferred { IfOk result (λ learnt. HasInferred (state_of W.sets W.moves R.rules B.store self.old.propagation.facts) (state_of W.sets W.moves R.rules B.store self.new.propagation.facts) learnt (λ s. LastKnownBelow 32 s × LastBytesKnown s)) }
        ensures begun { LearnsEndsFirst (state_of W.sets W.moves R.rules B.store self.old.propagation.facts) → HasEndsFirst (state_of W.sets W.moves R.rules B.store self.new.propagation.facts) }
        ensures halt { IfErr result (λ h. IsHalt (state_of W.sets W.moves R.rules B.store self.new.propagation.facts) h) }
    {
        let last = self.infer_all_last()?;
        let rows = self.infer_through()?;
        let bytes = self.carry_rest(last | rows)?;
        Ok(last | rows | bytes)
    }

    /// All rules once, with the rows and bytes that may tell something new: last values, rows,
    /// carried bytes, last bytes, and sets of one value.
    fn sweep_fresh(&mut self) -> Result<bool, LearnError>
        requires writings { AreWritings (state_of W.sets W.moves R.rules B.store self.old.propagation.facts) }
        requires open { self.old.propagation.facts.complete ≡ false }
        requires uncut { IsUncut (state_of W.sets W.moves R.rules B.store self.old.propagation.facts) }
        ensures grows { Grows (state_of W.sets W.moves R.rules B.store self.old.propagation.facts) (state_of W.sets W.moves R.rules B.store self.new.propagation.facts) }
        ensures inferred { IfOk result (λ learnt. HasInferred (state_of W.sets W.moves R.rules B.store self.old.propagation.facts) (state_of W.sets W.moves R.rules B.store self.new.propagation.facts) learnt (λ s. LastKnownBelow 32 s × LastBytesKnown s × SinglesKnown s)) }
        ensures begun { LearnsEndsFirst (state_of W.sets W.moves R.rules B.store self.old.propagation.facts) → HasEndsFirst (state_of W.sets W.moves R.rules B.store self.new.propagation.facts) }
        ensures halt { IfErr result (λ h. IsHalt (state_of W.sets W.moves R.rules B.store self.new.propagation.facts) h) }
    {
        let rows = self.sweep_rows()?;
        let singles = self.infer_singles()?;
        Ok(rows | singles)
    }

    /// The values of all tracked bytes; where that told something new, rows and bytes by turns, so
    /// that the sets aren't filled for each.
    pub(super) fn carry_through(&mut self) -> Result<bool, LearnError>
        requires writings { AreWritings (state_of W.sets W.moves R.rules B.store self.old.propagation.facts) }
        requires current { IsCurrent (state_of W.sets W.moves R.rules B.store self.old.propagation.facts) }
        requires open { self.old.propagation.facts.complete ≡ false }
        requires uncut { IsUncut (state_of W.sets W.moves R.rules B.store self.old.propagation.facts) }
        ensures grows { Grows (state_of W.sets W.moves R.rules B.store self.old.propagation.facts) (state_of W.sets W.moves R.rules B.store self.new.propagation.facts) }
        ensures inferred { IfOk result (λ learnt. HasInferred (state_of W.sets W.moves R.rules B.store self.old.propagation.facts) (state_of W.sets W.moves R.rules B.store self.new.propagation.facts) learnt (AllCarried)) }
        ensures halt { IfErr result (λ h. IsHalt (state_of W.sets W.moves R.rules B.store self.new.propagation.facts) h) }
    {
        let carried = self.propagation.carry_tracked()?;
        if !carried {
            return Ok(carried);
        }
        let rows = self.infer_through()?;
        let bytes = self.carry_by_turns(PASSES)?;
        Ok(carried | rows | bytes)
    }

    /// All rules once, and with all bytes and rows where those that may tell something new tell
    /// nothing.
    pub(super) fn sweep(&mut self) -> Result<bool, LearnError>
        requires writings { AreWritings (state_of W.sets W.moves R.rules B.store self.old.propagation.facts) }
        requires exact { AreExact (state_of W.sets W.moves R.rules B.store self.old.propagation.facts) }
        requires current { IsCurrent (state_of W.sets W.moves R.rules B.store self.old.propagation.facts) }
        requires open { self.old.propagation.facts.complete ≡ false }
        requires uncut { IsUncut (state_of W.sets W.moves R.rules B.store self.old.propagation.facts) }
        ensures grows { Grows (state_of W.sets W.moves R.rules B.store self.old.propagation.facts) (state_of W.sets W.moves R.rules B.store self.new.propagation.facts) }
        ensures inferred { IfOk result (λ learnt. HasInferred (state_of W.sets W.moves R.rules B.store self.old.propagation.facts) (state_of W.sets W.moves R.rules B.store self.new.propagation.facts) learnt (IsInferredAll)) }
        ensures begun { LearnsEndsFirst (state_of W.sets W.moves R.rules B.store self.old.propagation.facts) → HasEndsFirst (state_of W.sets W.moves R.rules B.store self.new.propagation.facts) }
        ensures halt { IfErr result (λ h. IsHalt (state_of W.sets W.moves R.rules B.store self.new.propagation.facts) h) }
    {
        let fresh = self.sweep_fresh()?;
        if fresh {
            return Ok(true);
        }
        let carried = self.carry_through()?;
        if carried {
            return Ok(true);
        }
        let rows = self.infer_back()?;
        Ok(rows)
    }
}
