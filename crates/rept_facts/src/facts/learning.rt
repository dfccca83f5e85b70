//! What learning one fact does to an analysis.

ghost use Rattle.rept_timeline.specs.Paths.{timeline};
ghost use Rattle.std.specs.Prelude.{◌≡◌, ◌+◌, ◌<◌, ◌≤◌, ◌^◌, ℕ, true, false, Some, IfOk, IfErr, ◌≢◌, Ok, Err};
ghost use Rattle.rept_reason.specs.declared.fact.Cell.TheVariants.{Byte, Register};
ghost use Rattle.rept_facts.specs.State.{state_of};
ghost use Rattle.rept_facts.specs.Inferring.{Knows, IsTracked, Grows, HasInferred, IsHalt, IsLed, IsBrought, IsFollowing, IsLearntAt, IsRowAddress, HasPlace};
ghost use Rattle.rept_facts.specs.Told.{Sends, ByteToldAs, ToldAs, Tracks};
ghost use Rattle.rept_report.specs.Why.{fact_of};
ghost use Rattle.rept_reason.specs.declared.fact.Cell.{Cell};
ghost use Rattle.rept_reason.specs.Facts.{told};
ghost use Rattle.rept_facts.specs.Begun.{IsLogWith};

use super::CrashFacts;
use crate::halt::LearnError;
use rept_isa::Reg;
use rept_log::LearnOutcome;
use rept_partial::Flat;
use rept_reason::{Cell, RowRules};
use rept_span::Transfer;
use rept_versions::{ByteFacts, Carried};
use std::alloc::AllocError as OutOfMemory;

impl<'a, B: ByteFacts, W: Transfer, R: RowRules> CrashFacts<'a, B, W, R> {
    /// Carries a byte's value from a number at which it is known to another one, where each number
    /// on the way comes from a known one or from one before it on the way.
    pub fn send(&mut self, a: u32, from: u32, to: u32, value: u8) -> Result<Carried, OutOfMemory>
        requires open { self.old.complete ≡ false }
        requires from { from ≤ (timeline self.old.paths).moments.end }
        requires to { to ≤ (timeline self.old.paths).moments.end }
        requires known { Knows from (Byte a) value (state_of W.sets W.moves R.rules B.store self.old) }
        requires led { IsLed (record { address = a; from = from; to = to; value = value }) (state_of W.sets W.moves R.rules B.store self.old) }
        ensures { Sends (state_of W.sets W.moves R.rules B.store self.old) (state_of W.sets W.moves R.rules B.store self.new) (record { address = a; from = from; to = to; value = value }) result }
    {
        // for the proof alone
        let _value = value;
        let _paths = self.paths;
        self.known.carry(a, from, to)
    }

    /// Learns a register's value that follows.
    fn tell(&mut self, point: u32, r: Reg, value: u32) -> LearnOutcome
        requires point { point ≤ (timeline self.old.paths).legs.count }
        requires named { 0 < r }
        requires follows { value < 2 ^ 32 → IsFollowing (state_of W.sets W.moves R.rules B.store self.old) (fact_of point (Register r) value) }
        requires open { self.old.complete ≡ false }
        ensures { ToldAs (state_of W.sets W.moves R.rules B.store self.old) (state_of W.sets W.moves R.rules B.store self.new) (fact_of point (Register r) value) result }
    {
        // for the proof alone
        let _number = r.number();
        let answer = self.known.learn_register(point, r, value);
        // for the proof alone
        let _len = self.known.len();
        answer
    }

    /// Learns a byte's value that follows.
    fn tell_byte(
        &mut self,
        point: u32,
        a: u32,
        value: u8,
        keep: bool,
    ) -> Result<LearnOutcome, OutOfMemory>
        requires point { point ≤ (timeline self.old.paths).moments.end }
        requires tracked { IsTracked a (state_of W.sets W.moves R.rules B.store self.old) }
        requires follows { IsFollowing (state_of W.sets W.moves R.rules B.store self.old) (fact_of point (Byte a) value) }
        requires brought { keep ≡ false → IsBrought (state_of W.sets W.moves R.rules B.store self.old) (fact_of point (Byte a) value) }
        requires place { HasPlace keep point a (state_of W.sets W.moves R.rules B.store self.old) }
        requires open { self.old.complete ≡ false }
        ensures { ByteToldAs (state_of W.sets W.moves R.rules B.store self.old) (state_of W.sets W.moves R.rules B.store self.new) (fact_of point (Byte a) value) result }
    {
        let answer = self.known.learn_byte(point, a, value, keep);
        // for the proof alone
        let _len = self.known.len();
        answer
    }

    /// Makes an address one of those that are tracked. Answers whether it wasn't.
    pub fn track(&mut self, a: u32) -> Result<bool, OutOfMemory>
        requires row { IsRowAddress a (state_of W.sets W.moves R.rules B.store self.old) }
        requires open { self.old.complete ≡ false }
        ensures { Tracks (state_of W.sets W.moves R.rules B.store self.old) (state_of W.sets W.moves R.rules B.store self.new) a result }
    {
        self.known.track(a)
    }

    /// Adds a value that follows, and says whether it was new.
    pub fn learn(&mut self, point: u32, r: Reg, value: u32) -> Result<bool, LearnError>
        requires point { point ≤ (timeline self.old.paths).legs.count }
        requires named { 0 < r }
        requires follows { value < 2 ^ 32 → IsFollowing (state_of W.sets W.moves R.rules B.store self.old) (fact_of point (Register r) value) }
        requires open { self.old.complete ≡ false }
        ensures grows { Grows (state_of W.sets W.moves R.rules B.store self.old) (state_of W.sets W.moves R.rules B.store self.new) }
        ensures inferred { IfOk result (λ learnt. HasInferred (state_of W.sets W.moves R.rules B.store self.old) (state_of W.sets W.moves R.rules B.store self.new) learnt (Knows point (Register r) value)) }
        ensures known { IfOk result (λ _. Knows point (Register r) value (state_of W.sets W.moves R.rules B.store self.new)) }
        ensures log { IsLogWith (fact_of point (Register r) value) self.old.known.log self.new.known.log }
        ensures loud { IfErr result (λ _. (w : ℕ) × ((told self.old.known.log point (Register r) ≡ Some w) × (w ≢ value))) }
        ensures still { self.new.work ≡ self.old.work }
        ensures halt { IfErr result (λ h. IsHalt (state_of W.sets W.moves R.rules B.store self.new) h) }
    {
        match self.tell(point, r, value) {
            LearnOutcome::Old => Ok(false),
            LearnOutcome::New => Ok(true),
            LearnOutcome::Clash(known) => {
                let cell = Cell::Register(r);
                Err(LearnError::Clash {
                    point,
                    cell,
                    known,
                    value,
                })
            }
        }
    }

    /// Adds a byte's value that follows, and says whether it was new.
    pub fn add_byte(
        &mut self,
        point: u32,
        a: u32,
        value: u8,
        keep: bool,
    ) -> Result<bool, LearnError>
        requires point { point ≤ (timeline self.old.paths).moments.end }
        requires tracked { IsTracked a (state_of W.sets W.moves R.rules B.store self.old) }
        requires follows { IsFollowing (state_of W.sets W.moves R.rules B.store self.old) (fact_of point (Byte a) value) }
        requires brought { keep ≡ false → IsBrought (state_of W.sets W.moves R.rules B.store self.old) (fact_of point (Byte a) value) }
        requires place { HasPlace keep point a (state_of W.sets W.moves R.rules B.store self.old) }
        requires open { self.old.complete ≡ false }
        ensures grows { Grows (state_of W.sets W.moves R.rules B.store self.old) (state_of W.sets W.moves R.rules B.store self.new) }
        ensures inferred { IfOk result (λ learnt. HasInferred (state_of W.sets W.moves R.rules B.store self.old) (state_of W.sets W.moves R.rules B.store self.new) learnt (Knows point (Byte a) value)) }
        ensures known { IfOk result (λ _. Knows point (Byte a) value (state_of W.sets W.moves R.rules B.store self.new)) }
        ensures still { self.new.work ≡ self.old.work }
        ensures halt { IfErr result (λ h. IsHalt (state_of W.sets W.moves R.rules B.store self.new) h) }
    {
        match self.tell_byte(point, a, value, keep) {
            Err(_) => Err(LearnError::OutOfMemory),
            Ok(LearnOutcome::Old) => Ok(false),
            Ok(LearnOutcome::New) => Ok(true),
            Ok(LearnOutcome::Clash(known)) => {
                let cell = Cell::Byte(a);
                Err(LearnError::Clash {
                    point,
                    cell,
                    known,
                    value: value as u32,
                })
            }
        }
    }

    /// Adds the value if there is one, and the register is not x0.
    pub fn learn_if(&mut self, point: u32, r: Reg, value: Flat) -> Result<bool, LearnError>
        requires point { point ≤ (timeline self.old.paths).legs.count }
        requires follows { (v : ℕ) → value ≡ Flat.Known v → 0 < r → r < 32 → v < 2 ^ 32 → IsFollowing (state_of W.sets W.moves R.rules B.store self.old) (fact_of point (Register r) v) }
        requires open { self.old.complete ≡ false }
        ensures grows { Grows (state_of W.sets W.moves R.rules B.store self.old) (state_of W.sets W.moves R.rules B.store self.new) }
        ensures inferred { IfOk result (λ learnt. HasInferred (state_of W.sets W.moves R.rules B.store self.old) (state_of W.sets W.moves R.rules B.store self.new) learnt (IsLearntAt point r value)) }
        ensures halt { IfErr result (λ h. IsHalt (state_of W.sets W.moves R.rules B.store self.new) h) }
    {
        if r.number() == 0 {
            return Ok(false);
        }
        match value {
            Flat::Known(value) => self.learn(point, r, value),
            Flat::Unknown => Ok(false),
        }
    }
}
