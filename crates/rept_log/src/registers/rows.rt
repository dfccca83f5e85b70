//! Reasons by what rows let one infer from registers alone.

ghost use Rattle.rept_timeline.specs.Paths.{timeline};
ghost use Rattle.std.specs.Prelude.{◌≡◌, ◌<◌, ◌≤◌, ◌^◌, ℕ, true, Some, IsSome, IfSome, IfNone};
ghost use Rattle.rept_reason.specs.declared.fact.Cell.TheVariants.{Register};
ghost use Rattle.rept_reason.specs.Facts.{told};
ghost use Rattle.rept_report.specs.Why.{IsInferredBecause, IsKnownBecause};
ghost use Rattle.rept_log.specs.Fronts.{basis_of, front_of, stands, told_by, IsInPlace, IsNotKept, setting_in};
ghost use Rattle.rept_log.specs.Concluding.{bare_in, LooksAtNoByte};

use super::RegisterFront;
use crate::concluding::PlacedRow;
use crate::views::{known_or, point_at};
use rept_isa::{Reg, StepRow, reads, writes};
use rept_partial::{Flat, Partial, Range};
use rept_reason::{Fact, Reason, RowRules, RowView, When};
use rept_span::Transfer;
use rept_versions::ByteFacts;
use std::alloc::Global;

/// What the facts tell of registers around a row. Of ranges it says nothing but a known value.
#[derive(Drop)]
struct KnownRegisters<'f, 'k, 'd, B: ByteFacts, W: Transfer, R: RowRules> {
    /// the facts
    front: &'f RegisterFront<'k, 'd, B, W, R>,
    /// the row's number
    row: u32,
    ghost inside: { row < (timeline front.now.paths).legs.count },
    ghost few: { (timeline front.now.paths).legs.count ≤ 66560 },
    ghost words: { (p r v : ℕ) → told front.now.facts p (Register r) ≡ Some v → v < 2 ^ 32 },
}

impl<'f, 'k, 'd, B: ByteFacts, W: Transfer, R: RowRules> RowView
    for KnownRegisters<'f, 'k, 'd, B, W, R> {
    ghost use Rattle.rept_log.specs.Fronts.{basis_of, front_of};
    ghost use Rattle.rept_log.specs.Concluding.{bare_in, bare_in_lawful};

    ghost seen = { λ v. bare_in (front_of W.sets W.moves R.rules (basis_of v.front.now)) v.row };

    ghost lawful = { λ v. bare_in_lawful (front_of W.sets W.moves R.rules (basis_of v.front.now)) v.row v.words };

    fn reg(&self, when: When, r: Reg) -> Flat {
        self.front.known(point_at(self.row, when), r)
    }

    fn byte(&self, when: When, a: u32) -> Option<u8> {
        let _asked = (when, a);
        None
    }

    fn range(&self, when: When, r: Reg) -> Range {
        known_or(
            self.front.known(point_at(self.row, when), r),
            Range::unknown(),
        )
    }
}

impl<'k, 'd, B: ByteFacts, W: Transfer, R: RowRules> RegisterFront<'k, 'd, B, W, R> {
    /// Whether row i's rules look at no byte: it has no places for bytes, or its base isn't known.
    fn is_bare(&self, i: u32, row: &StepRow) -> bool
        requires { IsSome ((timeline self.now.paths).legs.row i) }
        ensures { result ≡ true → LooksAtNoByte R.rules row.now (bare_in (front_of W.sets W.moves R.rules (basis_of self.now)) i) }
    {
        // for the proof alone
        let _count = self.count();
        match reads(&row.instr).0 {
            None => true,
            Some(base) => R::places(row) == 0 || self.known(i, base) == Flat::Unknown,
        }
    }

    /// The reason by what row i lets one infer, where its rules look at no byte.
    fn inferred_by(
        &self,
        rules: &mut R,
        alloc: Global,
        i: u32,
        row: &StepRow,
        fact: &Fact,
    ) -> Option<Reason>
        requires { (timeline self.now.paths).legs.row i ≡ Some row.now }
        ensures found { IfSome result (λ reason. IsInferredBecause (setting_in (front_of W.sets W.moves R.rules (basis_of self.now))) (stands (front_of W.sets W.moves R.rules (basis_of self.now))) fact.now (told_by reason)) }
        ensures room { IfSome result IsInPlace }
    {
        // for the proof alone
        let _count = self.count();
        if !self.is_bare(i, row) {
            return None;
        }
        let view = KnownRegisters {
            front: self,
            row: i,
        };
        let placed = PlacedRow {
            paths: self.paths,
            number: i,
            row,
        };
        placed.concluded(rules, alloc, &view, fact)
    }

    /// The reason by what the row that leads to the fact's point lets one infer from registers.
    fn inferred_to(&self, rules: &mut R, alloc: Global, fact: &Fact) -> Option<Reason>
        ensures found { IfSome result (λ reason. IsInferredBecause (setting_in (front_of W.sets W.moves R.rules (basis_of self.now))) (stands (front_of W.sets W.moves R.rules (basis_of self.now))) fact.now (told_by reason)) }
        ensures room { IfSome result IsInPlace }
    {
        if fact.point == 0 {
            return None;
        }
        let row = self.row(fact.point - 1)?;
        self.inferred_by(rules, alloc, fact.point - 1, &row, fact)
    }

    /// The reason by what the row that leads on from there lets one infer from registers.
    fn inferred_on(&self, rules: &mut R, alloc: Global, fact: &Fact) -> Option<Reason>
        ensures found { IfSome result (λ reason. IsInferredBecause (setting_in (front_of W.sets W.moves R.rules (basis_of self.now))) (stands (front_of W.sets W.moves R.rules (basis_of self.now))) fact.now (told_by reason)) }
        ensures room { IfSome result IsInPlace }
    {
        let row = self.row(fact.point)?;
        self.inferred_by(rules, alloc, fact.point, &row, fact)
    }

    /// Whether the row that leads to a point writes the register and looks at bytes.
    fn is_from_bytes(&self, point: u32, r: Reg) -> bool {
        if point == 0 {
            return false;
        }
        match self.row(point - 1) {
            None => false,
            Some(row) => writes(&row.instr) == Some(r) && !self.is_bare(point - 1, &row),
        }
    }

    /// The reason by what a row beside the fact's point lets one infer from registers: the row that
    /// leads there first. Nothing of the other one where that row writes the register and looks at
    /// bytes.
    fn inferred(&self, rules: &mut R, alloc: Global, fact: &Fact, r: Reg) -> Option<Reason>
        ensures found { IfSome result (λ reason. IsInferredBecause (setting_in (front_of W.sets W.moves R.rules (basis_of self.now))) (stands (front_of W.sets W.moves R.rules (basis_of self.now))) fact.now (told_by reason)) }
        ensures room { IfSome result IsInPlace }
    {
        let found = self.inferred_to(rules, alloc, fact);
        if found.is_some() || self.is_from_bytes(fact.point, r) {
            return found;
        }
        self.inferred_on(rules, alloc, fact)
    }

    /// The reason by which the facts make a register's value known, where they need neither sets
    /// nor bytes for it: the register's own value, or what a row beside its point lets one infer
    /// from registers alone.
    pub fn of_register(&self, rules: &mut R, alloc: Global, fact: &Fact, r: Reg) -> Option<Reason>
        requires point { fact.now.point ≤ (timeline self.now.paths).legs.count }
        requires cell { fact.now.cell ≡ Register r }
        requires named { 0 < r }
        ensures found { IfSome result (λ reason. IsKnownBecause (setting_in (front_of W.sets W.moves R.rules (basis_of self.now))) (stands (front_of W.sets W.moves R.rules (basis_of self.now))) fact.now (told_by reason)) }
        ensures kept { IfNone result (IsNotKept (front_of W.sets W.moves R.rules (basis_of self.now)) fact.now r) }
        ensures room { IfSome result IsInPlace }
    {
        let found = self.own(alloc, fact, r);
        if found.is_some() {
            return found;
        }
        self.inferred(rules, alloc, fact, r)
    }
}
