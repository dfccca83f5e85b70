//! Reasons by a register's own value: its last one, or that on the other side of a row that doesn't
//! write it.

ghost use Rattle.rept_timeline.specs.Paths.{timeline};
ghost use Rattle.std.specs.Prelude.{◌≡◌, ◌<◌, ◌≤◌, ◌↔◌, [], ◌∷◌, IfSome, IfNone, IsTrue};
ghost use Rattle.rept_reason.specs.declared.fact.Cell.TheVariants.{Register};
ghost use Rattle.rept_reason.specs.Facts.{told};
ghost use Rattle.rept_report.specs.Why.{because, IsKnownBecause};
ghost use Rattle.rept_log.specs.Fronts.{basis_of, front_of, stands, told_by, IsInPlace, IsRegisterKept, IsNotOnward, IsNotBack, IsNotLast, IsNotKept, setting_in};

use super::RegisterFront;
use crate::front::reasons::{bare, fact_at, resting};
use rept_isa::{Reg, writes};
use rept_partial::Flat;
use rept_reason::{Fact, Reason, RowRules};
use rept_span::Transfer;
use rept_versions::ByteFacts;
use std::alloc::Global;

impl<'k, 'd, B: ByteFacts, W: Transfer, R: RowRules> RegisterFront<'k, 'd, B, W, R> {
    /// Whether row i leaves a register as it is, and the register has the fact's value at its
    /// point, before or after the row.
    fn is_kept(&self, i: u32, r: Reg, fact: &Fact) -> bool
        requires point { fact.now.point ≤ (timeline self.now.paths).legs.count }
        requires named { 0 < r }
        ensures { IsTrue result ↔ IsRegisterKept (front_of W.sets W.moves R.rules (basis_of self.now)) i r fact.now }
    {
        match self.row(i) {
            None => false,
            Some(row) => {
                writes(&row.instr) != Some(r)
                    && self.known(fact.point, r) == Flat::Known(fact.value)
            }
        }
    }

    /// The reason by a register's value on the other side of row i, which doesn't write it.
    fn kept(&self, alloc: Global, rule: u8, i: u32, premise: &Fact, r: Reg) -> Option<Reason>
        requires point { premise.now.point ≤ (timeline self.now.paths).legs.count }
        requires named { 0 < r }
        ensures found { IfSome result (λ reason. IsRegisterKept (front_of W.sets W.moves R.rules (basis_of self.now)) i r premise.now × (told_by reason ≡ because rule (premise.now ∷ []) [])) }
        ensures none { IfNone result (IsRegisterKept (front_of W.sets W.moves R.rules (basis_of self.now)) i r premise.now → ⊥) }
        ensures room { IfSome result IsInPlace }
    {
        if !self.is_kept(i, r, premise) {
            return None;
        }
        Some(resting(alloc, rule, *premise))
    }

    /// The reason by a register's value before a row that doesn't write it.
    fn kept_onward(&self, alloc: Global, fact: &Fact, r: Reg) -> Option<Reason>
        requires point { fact.now.point ≤ (timeline self.now.paths).legs.count }
        requires cell { fact.now.cell ≡ Register r }
        requires named { 0 < r }
        ensures found { IfSome result (λ reason. IsKnownBecause (setting_in (front_of W.sets W.moves R.rules (basis_of self.now))) (stands (front_of W.sets W.moves R.rules (basis_of self.now))) fact.now (told_by reason)) }
        ensures none { IfNone result (IsNotOnward (front_of W.sets W.moves R.rules (basis_of self.now)) fact.now r) }
        ensures room { IfSome result IsInPlace }
    {
        if fact.point == 0 {
            return None;
        }
        let i = fact.point - 1;
        let premise = fact_at(i, fact);
        self.kept(alloc, 3, i, &premise, r)
    }

    /// The reason by its value after such a row.
    fn kept_back(&self, alloc: Global, fact: &Fact, r: Reg) -> Option<Reason>
        requires point { fact.now.point ≤ (timeline self.now.paths).legs.count }
        requires cell { fact.now.cell ≡ Register r }
        requires named { 0 < r }
        ensures found { IfSome result (λ reason. IsKnownBecause (setting_in (front_of W.sets W.moves R.rules (basis_of self.now))) (stands (front_of W.sets W.moves R.rules (basis_of self.now))) fact.now (told_by reason)) }
        ensures none { IfNone result (IsNotBack (front_of W.sets W.moves R.rules (basis_of self.now)) fact.now r) }
        ensures room { IfSome result IsInPlace }
    {
        if fact.point == self.count() {
            return None;
        }
        let i = fact.point;
        let premise = fact_at(i + 1, fact);
        self.kept(alloc, 4, i, &premise, r)
    }

    /// The reason by a register's last value.
    fn last(&self, alloc: Global, fact: &Fact, r: Reg) -> Option<Reason>
        requires point { fact.now.point ≤ (timeline self.now.paths).legs.count }
        requires cell { fact.now.cell ≡ Register r }
        ensures found { IfSome result (λ reason. IsKnownBecause (setting_in (front_of W.sets W.moves R.rules (basis_of self.now))) (stands (front_of W.sets W.moves R.rules (basis_of self.now))) fact.now (told_by reason)) }
        ensures none { IfNone result (IsNotLast (front_of W.sets W.moves R.rules (basis_of self.now)) fact.now r) }
        ensures room { IfSome result IsInPlace }
    {
        match self.row(fact.point) {
            Some(_) => None,
            None => {
                if self.is_last(fact.point, r, fact.value) {
                    Some(bare(alloc, 1))
                } else {
                    None
                }
            }
        }
    }

    /// The reason by a register's own value: its last one, or that before or after a row that
    /// doesn't write it.
    pub(super) fn own(&self, alloc: Global, fact: &Fact, r: Reg) -> Option<Reason>
        requires point { fact.now.point ≤ (timeline self.now.paths).legs.count }
        requires cell { fact.now.cell ≡ Register r }
        requires named { 0 < r }
        ensures found { IfSome result (λ reason. IsKnownBecause (setting_in (front_of W.sets W.moves R.rules (basis_of self.now))) (stands (front_of W.sets W.moves R.rules (basis_of self.now))) fact.now (told_by reason)) }
        ensures none { IfNone result (IsNotKept (front_of W.sets W.moves R.rules (basis_of self.now)) fact.now r) }
        ensures room { IfSome result IsInPlace }
    {
        let found = self.last(alloc, fact, r);
        if found.is_some() {
            return found;
        }
        let found = self.kept_onward(alloc, fact, r);
        if found.is_some() {
            return found;
        }
        self.kept_back(alloc, fact, r)
    }
}
