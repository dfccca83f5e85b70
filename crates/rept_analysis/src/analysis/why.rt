//! Reasons of facts.
#![tactic(auto, using(rept_timeline::specs::Paths::lawful))]

ghost use Rattle.rept_timeline.specs.Paths.{timeline};
ghost use Rattle.std.specs.Prelude.{◌<◌, ◌≤◌, ◌≡◌, ◌≢◌, ℕ, ◌+◌, ◌-◌, ◌↔◌, length, true, false, Some, IfOk, IfSome, IfNone, IsTrue};
ghost use Rattle.rept_reason.specs.declared.fact.Cell.TheVariants.{Register, Byte};
ghost use Rattle.rept_report.specs.Log.{entry, oldest};
ghost use Rattle.rept_report.specs.Reasons.{StandsIn};
ghost use Rattle.rept_report.specs.Why.{because, IsReason, IsLeastFront};
ghost use Rattle.rept_log.specs.Fronts.{IsInPlace, told_by};
ghost use Rattle.rept_facts.specs.State.{setting_of, state_of};
ghost use Rattle.rept_facts.specs.Kept.{answers};
ghost use Rattle.rept_facts.specs.Reasoned.{AreSetsOf, IsNotLast};

use super::Analysis;
use rept_facts::FrontSets;
use rept_isa::Reg;
use rept_reason::{Cell, Fact, Reason, RowRules};
use rept_span::{Spans, Transfer};
use rept_versions::ByteFacts;
use std::alloc::{AllocError as OutOfMemory, Global};

/// A number from `low` on below `high`: the one before a guess, the guess itself once that is the
/// least, and else the middle.
fn probe(low: u32, high: u32, guess: u32) -> u32
    requires { low < high }
    ensures from { low ≤ result }
    ensures below { result < high }
{
    if low < guess && guess <= high {
        return guess - 1;
    }
    if low == guess {
        return low;
    }
    low + (high - low) / 2
}

impl<'a, B: ByteFacts, W: Transfer, R: RowRules> Analysis<'a, B, W, R> {
    /// The place in the log of a register's fact.
    fn place(&self, fact: &Fact, r: Reg) -> Option<u32>
        requires point { fact.now.point ≤ (timeline self.now.propagation.facts.paths).legs.count }
        requires cell { fact.now.cell ≡ Register r }
        requires complete { self.now.propagation.facts.complete ≡ true }
        ensures found { IfSome result (λ t. entry self.now.propagation.facts.known.log t ≡ Some fact.now) }
        ensures named { IfSome result (λ _. 0 < r) }
        ensures none { IfNone result (answers (state_of W.sets W.moves R.rules B.store self.now.propagation.facts) fact.now.point fact.now.cell ≢ Some fact.now.value) }
    {
        self.propagation.facts.held();
        if r.number() == 0 {
            return None;
        }
        let place = self.propagation.facts.place_at(fact.point, r)?;
        if self.propagation.facts.is_entry(place, fact) {
            Some(place)
        } else {
            None
        }
    }

    /// The reason of a register's fact, by what stands before its place.
    fn why_register(
        &self,
        alloc: Global,
        fact: &Fact,
        r: Reg,
    ) -> Result<Option<Reason>, OutOfMemory>
        requires point { fact.now.point ≤ (timeline self.now.propagation.facts.paths).legs.count }
        requires cell { fact.now.cell ≡ Register r }
        requires complete { self.now.propagation.facts.complete ≡ true }
        ensures none { IfOk result (λ found. IfNone found (answers (state_of W.sets W.moves R.rules B.store self.now.propagation.facts) fact.now.point fact.now.cell ≢ Some fact.now.value)) }
        ensures reason { IfOk result (λ found. IfSome found (λ reason. IsReason (setting_of W.sets W.moves R.rules self.now.propagation.facts) self.now.propagation.facts.known.log fact.now (told_by reason))) }
        ensures room { IfOk result (λ found. IfSome found IsInPlace) }
    {
        self.propagation.facts.held();
        match self.place(fact, r) {
            None => Ok(None),
            Some(place) => self.propagation.facts.known_below(alloc, place, fact, r),
        }
    }

    /// Whether a byte's fact stands in the prefix of the log below a limit. `OutOfMemory` says that
    /// the room for the search can't be had.
    fn stands_below(
        &self,
        spans: &Spans<W>,
        limit: u32,
        fact: &Fact,
        a: u32,
    ) -> Result<bool, OutOfMemory>
        requires within { limit ≤ length self.now.propagation.facts.known.log }
        requires sets { AreSetsOf (setting_of W.sets W.moves R.rules self.now.propagation.facts) (oldest limit self.now.propagation.facts.known.log) spans.now }
        requires moment { fact.now.point ≤ (timeline self.now.propagation.facts.paths).moments.end }
        requires cell { fact.now.cell ≡ Byte a }
        requires complete { self.now.propagation.facts.complete ≡ true }
        ensures { IfOk result (λ stands. IsTrue stands ↔ StandsIn (setting_of W.sets W.moves R.rules self.now.propagation.facts) (oldest limit self.now.propagation.facts.known.log) fact.now) }
    {
        self.propagation.facts.held();
        let found = self
            .propagation
            .facts
            .byte_below(spans, limit, fact.point, a)?;
        match found {
            Some(byte) => Ok(u32::from(byte) == fact.value),
            None => Ok(false),
        }
    }

    /// How many facts in the log, from the oldest on, are enough for a byte's fact to stand in
    /// them. The search begins at a guess. `OutOfMemory` says that the room for it can't be had.
    fn least_front(
        &self,
        sets: &mut FrontSets<W>,
        guess: u32,
        fact: &Fact,
        a: u32,
    ) -> Result<u32, OutOfMemory>
        requires sets { AreSetsOf (setting_of W.sets W.moves R.rules self.now.propagation.facts) (oldest sets.old.limit self.now.propagation.facts.known.log) sets.old.spans }
        requires moment { fact.now.point ≤ (timeline self.now.propagation.facts.paths).moments.end }
        requires cell { fact.now.cell ≡ Byte a }
        requires complete { self.now.propagation.facts.complete ≡ true }
        requires known { answers (state_of W.sets W.moves R.rules B.store self.now.propagation.facts) fact.now.point fact.now.cell ≡ Some fact.now.value }
        ensures least { IfOk result (λ t. IsLeastFront (setting_of W.sets W.moves R.rules self.now.propagation.facts) self.now.propagation.facts.known.log fact.now t) }
        ensures within { IfOk result (λ t. t ≤ length self.now.propagation.facts.known.log) }
        ensures sets { AreSetsOf (setting_of W.sets W.moves R.rules self.now.propagation.facts) (oldest sets.new.limit self.now.propagation.facts.known.log) sets.new.spans }
    {
        self.propagation.facts.held();
        let mut low = 0;
        let mut high = self.propagation.facts.len();
        while low < high {
            let limit = probe(low, high, guess);
            self.propagation.facts.fill_to(sets, limit);
            let stands = self.stands_below(&sets.spans, limit, fact, a)?;
            if stands {
                high = limit;
            } else {
                low = limit + 1;
            }
        }
        Ok(low)
    }

    /// The reason of a byte's fact that is the last one of its least front.
    fn why_inferred(
        &self,
        alloc: Global,
        sets: &mut FrontSets<W>,
        place: u32,
        fact: &Fact,
        a: u32,
    ) -> Result<Option<Reason>, OutOfMemory>
        requires sets { AreSetsOf (setting_of W.sets W.moves R.rules self.now.propagation.facts) (oldest sets.old.limit self.now.propagation.facts.known.log) sets.old.spans }
        requires moment { fact.now.point ≤ (timeline self.now.propagation.facts.paths).moments.end }
        requires cell { fact.now.cell ≡ Byte a }
        requires complete { self.now.propagation.facts.complete ≡ true }
        requires least { IsLeastFront (setting_of W.sets W.moves R.rules self.now.propagation.facts) self.now.propagation.facts.known.log fact.now (place + 1) }
        requires entry { entry self.now.propagation.facts.known.log place ≡ Some fact.now }
        ensures none { IfOk result (λ found. IfNone found (answers (state_of W.sets W.moves R.rules B.store self.now.propagation.facts) fact.now.point fact.now.cell ≢ Some fact.now.value)) }
        ensures reason { IfOk result (λ found. IfSome found (λ reason. IsReason (setting_of W.sets W.moves R.rules self.now.propagation.facts) self.now.propagation.facts.known.log fact.now (told_by reason))) }
        ensures room { IfOk result (λ found. IfSome found IsInPlace) }
    {
        self.propagation.facts.held();
        self.propagation.facts.fill_to(sets, place);
        self.propagation
            .facts
            .inferred_below(alloc, &sets.spans, place, fact, a)
    }

    /// The reason of any other byte's fact.
    fn why_carried(
        &self,
        alloc: Global,
        sets: &mut FrontSets<W>,
        limit: u32,
        fact: &Fact,
        a: u32,
    ) -> Result<Option<Reason>, OutOfMemory>
        requires sets { AreSetsOf (setting_of W.sets W.moves R.rules self.now.propagation.facts) (oldest sets.old.limit self.now.propagation.facts.known.log) sets.old.spans }
        requires within { limit ≤ length self.now.propagation.facts.known.log }
        requires moment { fact.now.point ≤ (timeline self.now.propagation.facts.paths).moments.end }
        requires cell { fact.now.cell ≡ Byte a }
        requires complete { self.now.propagation.facts.complete ≡ true }
        requires least { IsLeastFront (setting_of W.sets W.moves R.rules self.now.propagation.facts) self.now.propagation.facts.known.log fact.now limit }
        requires other { IsNotLast self.now.propagation.facts.known.log fact.now limit }
        ensures none { IfOk result (λ found. IfNone found (answers (state_of W.sets W.moves R.rules B.store self.now.propagation.facts) fact.now.point fact.now.cell ≢ Some fact.now.value)) }
        ensures reason { IfOk result (λ found. IfSome found (λ reason. IsReason (setting_of W.sets W.moves R.rules self.now.propagation.facts) self.now.propagation.facts.known.log fact.now (told_by reason))) }
        ensures room { IfOk result (λ found. IfSome found IsInPlace) }
    {
        self.propagation.facts.held();
        self.propagation.facts.fill_to(sets, limit);
        self.propagation
            .facts
            .carried_below(alloc, &sets.spans, limit, fact, a)
    }

    /// Whether a byte's fact is answered.
    fn is_answered(&self, fact: &Fact, a: u32) -> bool
        requires moment { fact.now.point ≤ (timeline self.now.propagation.facts.paths).moments.end }
        requires cell { fact.now.cell ≡ Byte a }
        requires complete { self.now.propagation.facts.complete ≡ true }
        ensures { IsTrue result ↔ (answers (state_of W.sets W.moves R.rules B.store self.now.propagation.facts) fact.now.point fact.now.cell ≡ Some fact.now.value) }
    {
        match self.byte(fact.point, a) {
            Some(byte) => u32::from(byte) == fact.value,
            None => false,
        }
    }

    /// Whether the fact is the last one of the prefix of the log below a limit.
    fn is_last(&self, limit: u32, fact: &Fact) -> bool
        requires { limit ≤ length self.now.propagation.facts.known.log }
        ensures last { result ≡ true → (0 < limit) × (entry self.now.propagation.facts.known.log (limit - 1) ≡ Some fact.now) }
        ensures other { result ≡ false → IsNotLast self.now.propagation.facts.known.log fact.now limit }
    {
        limit > 0 && self.propagation.facts.is_entry(limit - 1, fact)
    }

    /// The reason of a byte's fact, by the least prefix in which it stands.
    fn why_byte(&self, alloc: Global, fact: &Fact, a: u32) -> Result<Option<Reason>, OutOfMemory>
        requires moment { fact.now.point ≤ (timeline self.now.propagation.facts.paths).moments.end }
        requires cell { fact.now.cell ≡ Byte a }
        requires complete { self.now.propagation.facts.complete ≡ true }
        ensures none { IfOk result (λ found. IfNone found (answers (state_of W.sets W.moves R.rules B.store self.now.propagation.facts) fact.now.point fact.now.cell ≢ Some fact.now.value)) }
        ensures reason { IfOk result (λ found. IfSome found (λ reason. IsReason (setting_of W.sets W.moves R.rules self.now.propagation.facts) self.now.propagation.facts.known.log fact.now (told_by reason))) }
        ensures room { IfOk result (λ found. IfSome found IsInPlace) }
    {
        if !self.is_answered(fact, a) {
            return Ok(None);
        }
        let guess = self.propagation.facts.guess(fact.point, a)?;
        let mut sets = self.propagation.facts.front_sets(guess.saturating_sub(1))?;
        let limit = self.least_front(&mut sets, guess, fact, a)?;
        if self.is_last(limit, fact) {
            return self.why_inferred(alloc, &mut sets, limit - 1, fact, a);
        }
        self.why_carried(alloc, &mut sets, limit, fact, a)
    }

    /// A reason of a fact: the rule that gives it, the facts that the rule rests on, which were
    /// known before it, and the ranges that the rule looked at, by those facts. `None` exactly
    /// where the fact isn't answered. `OutOfMemory` says that the room for the search can't be had.
    pub fn why(&self, alloc: Global, fact: Fact) -> Result<Option<Reason>, OutOfMemory>
        requires point { (r : ℕ) → fact.cell ≡ Register r → fact.point ≤ (timeline self.now.propagation.facts.paths).legs.count }
        requires moment { (a : ℕ) → fact.cell ≡ Byte a → fact.point ≤ (timeline self.now.propagation.facts.paths).moments.end }
        requires complete { self.now.propagation.facts.complete ≡ true }
        ensures none { IfOk result (λ found. IfNone found (answers (state_of W.sets W.moves R.rules B.store self.now.propagation.facts) fact.point fact.cell ≢ Some fact.value)) }
        ensures reason { IfOk result (λ found. IfSome found (λ reason. IsReason (setting_of W.sets W.moves R.rules self.now.propagation.facts) self.now.propagation.facts.known.log fact (because reason.rule reason.premises.items reason.ranges.items))) }
        ensures room { IfOk result (λ found. IfSome found IsInPlace) }
    {
        match &fact.cell {
            Cell::Register(r) => self.why_register(alloc, &fact, *r),
            Cell::Byte(a) => self.why_byte(alloc, &fact, *a),
        }
    }
}
