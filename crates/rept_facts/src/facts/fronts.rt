//! Fronts of the log of an analysis, and the reasons that rest on them.

ghost use Rattle.rept_timeline.specs.Paths.{timeline};
ghost use Rattle.std.specs.Prelude.{◌≡◌, ◌+◌, ◌<◌, ◌≤◌, length, true, IfOk, IfSome, IfNone};
ghost use Rattle.rept_reason.specs.declared.fact.Cell.TheVariants.{Register, Byte};
ghost use Rattle.rept_report.specs.Log.{oldest};
ghost use Rattle.rept_report.specs.Why.{Because, IsInferredBecause, IsKnownBecause, IsCarriedBecause};
ghost use Rattle.rept_log.specs.Fronts.{IsInPlace, IsNotKept, basis_of, front_of, stands, told_by, setting_in};
ghost use Rattle.rept_facts.specs.State.{setting_of};
ghost use Rattle.rept_facts.specs.Reasoned.{front_below, AreSetsOf};

use super::CrashFacts;
use crate::front_sets::FrontSets;
use crate::trail::PathTrail;
use rept_isa::Reg;
use rept_log::{Below, Front, RegisterFront};
use rept_reason::{Fact, Reason, RowRules};
use rept_span::{Spans, Transfer};
use rept_versions::ByteFacts;
use std::alloc::{AllocError as OutOfMemory, Global};

impl<'a, B: ByteFacts, W: Transfer, R: RowRules> CrashFacts<'a, B, W, R> {
    /// Fills sets from the facts at places below a limit.
    fn fill_sets(&self, spans: &mut Spans<W>, limit: u32)
        requires sized { spans.old.points ≡ (timeline self.now.paths).legs.count + 1 }
        requires complete { self.now.complete ≡ true }
        ensures sets { AreSetsOf (setting_of W.sets W.moves R.rules self.now) (oldest limit self.now.known.log) spans.new }
        ensures sized { spans.new.points ≡ (timeline self.now.paths).legs.count + 1 }
    {
        self.held();
        let trail = PathTrail { paths: self.paths };
        let view = Below {
            facts: &self.known,
            limit,
        };
        spans.fill_along(&trail, &view).unwrap();
    }

    /// Sets that are filled from the facts at places below a limit.
    fn sets_below(&self, limit: u32) -> Result<Spans<W>, OutOfMemory>
        requires complete { self.now.complete ≡ true }
        ensures sets { IfOk result (λ spans. AreSetsOf (setting_of W.sets W.moves R.rules self.now) (oldest limit self.now.known.log) spans) }
        ensures sized { IfOk result (λ spans. spans.points ≡ (timeline self.now.paths).legs.count + 1) }
    {
        let mut spans = Spans::new(self.alloc, self.count() + 1)?;
        self.fill_sets(&mut spans, limit);
        Ok(spans)
    }

    /// Sets that are filled from the facts at places below a limit, which they name.
    pub fn front_sets(&self, limit: u32) -> Result<FrontSets<W>, OutOfMemory>
        requires complete { self.now.complete ≡ true }
        ensures sets { IfOk result (λ sets. AreSetsOf (setting_of W.sets W.moves R.rules self.now) (oldest sets.limit self.now.known.log) sets.spans) }
    {
        let spans = self.sets_below(limit)?;
        Ok(FrontSets { spans, limit })
    }

    /// Fills sets from the facts at places below another limit. Where it is theirs, they stay.
    pub fn fill_to(&self, sets: &mut FrontSets<W>, limit: u32)
        requires complete { self.now.complete ≡ true }
        requires sets { AreSetsOf (setting_of W.sets W.moves R.rules self.now) (oldest sets.old.limit self.now.known.log) sets.old.spans }
        ensures sets { AreSetsOf (setting_of W.sets W.moves R.rules self.now) (oldest sets.new.limit self.now.known.log) sets.new.spans }
        ensures limit { sets.new.limit ≡ limit }
    {
        if sets.limit != limit {
            self.fill_sets(&mut sets.spans, limit);
            sets.limit = limit;
        }
    }

    /// What stands in the prefix of the log below a limit, with the sets that are filled from it.
    fn front<'k>(&'k self, spans: &'k Spans<W>, limit: u32) -> Front<'k, 'a, B, W, R>
        requires within { limit ≤ length self.now.known.log }
        requires sets { AreSetsOf (setting_of W.sets W.moves R.rules self.now) (oldest limit self.now.known.log) spans.now }
        requires complete { self.now.complete ≡ true }
        ensures { front_of W.sets W.moves R.rules (basis_of result) ≡ front_below W.sets W.moves R.rules self.now limit }
    {
        // for the proof alone
        let _len = self.known.len();
        Front::new(&self.known, limit, self.paths, self.last, &self.dump, spans)
    }

    /// The byte that stands in the prefix of the log below a limit. `OutOfMemory` says that the
    /// room for the search can't be had.
    pub fn byte_below(
        &self,
        spans: &Spans<W>,
        limit: u32,
        moment: u32,
        a: u32,
    ) -> Result<Option<u8>, OutOfMemory>
        requires within { limit ≤ length self.now.known.log }
        requires sets { AreSetsOf (setting_of W.sets W.moves R.rules self.now) (oldest limit self.now.known.log) spans.now }
        requires moment { moment ≤ (timeline self.now.paths).moments.end }
        requires complete { self.now.complete ≡ true }
        ensures { IfOk result (λ byte. byte ≡ stands (front_below W.sets W.moves R.rules self.now limit) moment (Byte a)) }
    {
        let front = self.front(spans, limit);
        front.byte(self.alloc, moment, a)
    }

    /// What the facts at places below a limit tell of registers.
    fn registers(&self, limit: u32) -> RegisterFront<'_, 'a, B, W, R>
        ensures { front_of W.sets W.moves R.rules (basis_of result) ≡ front_below W.sets W.moves R.rules self.now limit }
    {
        RegisterFront::new(&self.known, limit, self.paths, self.last, &self.dump)
    }

    /// The reason of a register's value by what stands in the front, where that isn't its own
    /// value.
    fn known_by_sets(
        &self,
        alloc: Global,
        limit: u32,
        fact: &Fact,
        r: Reg,
    ) -> Result<Option<Reason>, OutOfMemory>
        requires within { limit ≤ length self.now.known.log }
        requires point { fact.now.point ≤ (timeline self.now.paths).legs.count }
        requires cell { fact.now.cell ≡ Register r }
        requires kept { IsNotKept (front_below W.sets W.moves R.rules self.now limit) fact.now r }
        requires complete { self.now.complete ≡ true }
        ensures found { IfOk result (λ found. IfSome found (λ reason. IsKnownBecause (setting_in (front_below W.sets W.moves R.rules self.now limit)) (stands (front_below W.sets W.moves R.rules self.now limit)) fact.now (told_by reason))) }
        ensures none { IfOk result (λ found. IfNone found ((why : Because) → IsKnownBecause (setting_in (front_below W.sets W.moves R.rules self.now limit)) (stands (front_below W.sets W.moves R.rules self.now limit)) fact.now why → ⊥)) }
        ensures room { IfOk result (λ found. IfSome found IsInPlace) }
    {
        let spans = self.sets_below(limit)?;
        let front = self.front(&spans, limit);
        let mut rules = R::new();
        front.of_register(&mut rules, alloc, fact, r)
    }

    /// The reason of a register's value by what stands in the front. Sets are filled only where
    /// neither its own value nor a row that looks at no byte gives one. `OutOfMemory` says that
    /// their room, or that for finding bytes, can't be had.
    pub fn known_below(
        &self,
        alloc: Global,
        limit: u32,
        fact: &Fact,
        r: Reg,
    ) -> Result<Option<Reason>, OutOfMemory>
        requires within { limit ≤ length self.now.known.log }
        requires point { fact.now.point ≤ (timeline self.now.paths).legs.count }
        requires cell { fact.now.cell ≡ Register r }
        requires named { 0 < r }
        requires complete { self.now.complete ≡ true }
        ensures found { IfOk result (λ found. IfSome found (λ reason. IsKnownBecause (setting_in (front_below W.sets W.moves R.rules self.now limit)) (stands (front_below W.sets W.moves R.rules self.now limit)) fact.now (told_by reason))) }
        ensures none { IfOk result (λ found. IfNone found ((why : Because) → IsKnownBecause (setting_in (front_below W.sets W.moves R.rules self.now limit)) (stands (front_below W.sets W.moves R.rules self.now limit)) fact.now why → ⊥)) }
        ensures room { IfOk result (λ found. IfSome found IsInPlace) }
    {
        let registers = self.registers(limit);
        let mut rules = R::new();
        let found = registers.of_register(&mut rules, alloc, fact, r);
        if found.is_some() {
            return Ok(found);
        }
        self.known_by_sets(alloc, limit, fact, r)
    }

    /// The reason of a byte's fact by what a row lets one infer from what stands in the front.
    pub fn inferred_below(
        &self,
        alloc: Global,
        spans: &Spans<W>,
        limit: u32,
        fact: &Fact,
        a: u32,
    ) -> Result<Option<Reason>, OutOfMemory>
        requires within { limit ≤ length self.now.known.log }
        requires sets { AreSetsOf (setting_of W.sets W.moves R.rules self.now) (oldest limit self.now.known.log) spans.now }
        requires cell { fact.now.cell ≡ Byte a }
        requires complete { self.now.complete ≡ true }
        ensures found { IfOk result (λ found. IfSome found (λ reason. IsInferredBecause (setting_in (front_below W.sets W.moves R.rules self.now limit)) (stands (front_below W.sets W.moves R.rules self.now limit)) fact.now (told_by reason))) }
        ensures none { IfOk result (λ found. IfNone found ((why : Because) → IsInferredBecause (setting_in (front_below W.sets W.moves R.rules self.now limit)) (stands (front_below W.sets W.moves R.rules self.now limit)) fact.now why → ⊥)) }
        ensures room { IfOk result (λ found. IfSome found IsInPlace) }
    {
        let front = self.front(spans, limit);
        let mut rules = R::new();
        front.of_inferred_byte(&mut rules, alloc, fact, a)
    }

    /// The reason by which a byte is carried in the front.
    pub fn carried_below(
        &self,
        alloc: Global,
        spans: &Spans<W>,
        limit: u32,
        fact: &Fact,
        a: u32,
    ) -> Result<Option<Reason>, OutOfMemory>
        requires within { limit ≤ length self.now.known.log }
        requires sets { AreSetsOf (setting_of W.sets W.moves R.rules self.now) (oldest limit self.now.known.log) spans.now }
        requires moment { fact.now.point ≤ (timeline self.now.paths).moments.end }
        requires cell { fact.now.cell ≡ Byte a }
        requires complete { self.now.complete ≡ true }
        ensures found { IfOk result (λ found. IfSome found (λ reason. IsCarriedBecause (setting_in (front_below W.sets W.moves R.rules self.now limit)) (front_below W.sets W.moves R.rules self.now limit).facts fact.now (told_by reason))) }
        ensures none { IfOk result (λ found. IfNone found ((why : Because) → IsCarriedBecause (setting_in (front_below W.sets W.moves R.rules self.now limit)) (front_below W.sets W.moves R.rules self.now limit).facts fact.now why → ⊥)) }
        ensures room { IfOk result (λ found. IfSome found IsInPlace) }
    {
        let front = self.front(spans, limit);
        front.carried(alloc, fact, a)
    }
}
