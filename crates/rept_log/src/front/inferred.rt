//! Reasons by what rows let one infer in a prefix of a log.

ghost use Rattle.rept_timeline.specs.Paths.{timeline};
ghost use Rattle.std.specs.Prelude.{◌≡◌, ◌-◌, ◌<◌, ◌≤◌, Some, IsSome, IfOk, IfSome, IfNone};
ghost use Rattle.rept_reason.specs.declared.fact.Cell.TheVariants.{Register, Byte};
ghost use Rattle.rept_report.specs.Why.{IsInferredBecause};
ghost use Rattle.rept_log.specs.Fronts.{basis_of, front_of, stands, told_by, IsInPlace, IsNotInferred, IsNotInferredBy, AreNotInferredBefore, AreNotInferredAfter, setting_in};

use super::Front;
use super::views::Standing;
use crate::concluding::PlacedRow;
use rept_isa::{Reg, StepRow};
use rept_reason::{Fact, Reason, RowRules};
use rept_span::Transfer;
use rept_versions::ByteFacts;
use std::alloc::{AllocError as OutOfMemory, Global};

impl<'k, 'd, B: ByteFacts, W: Transfer, R: RowRules> Front<'k, 'd, B, W, R> {
    /// The reason by what row i lets one infer.
    fn inferred_by(
        &self,
        rules: &mut R,
        alloc: Global,
        i: u32,
        row: &StepRow,
        fact: &Fact,
    ) -> Result<Option<Reason>, OutOfMemory>
        requires { (timeline self.now.paths).legs.row i ≡ Some row.now }
        ensures found { IfOk result (λ found. IfSome found (λ reason. IsInferredBecause (setting_in (front_of W.sets W.moves R.rules (basis_of self.now))) (stands (front_of W.sets W.moves R.rules (basis_of self.now))) fact.now (told_by reason))) }
        ensures none { IfOk result (λ found. IfNone found (IsNotInferredBy (front_of W.sets W.moves R.rules (basis_of self.now)) i fact.now)) }
        ensures room { IfOk result (λ found. IfSome found IsInPlace) }
    {
        // for the proof alone
        let _count = self.count();
        let bytes = self.row_bytes(alloc, i, row)?;
        let view = Standing {
            front: self,
            row: i,
            bytes: bytes.as_slice(),
        };
        let placed = PlacedRow {
            paths: self.paths,
            number: i,
            row,
        };
        Ok(placed.concluded(rules, alloc, &view, fact))
    }

    /// The reason by what row i lets one infer, if there is such a row.
    fn inferred_at(
        &self,
        rules: &mut R,
        alloc: Global,
        i: u32,
        fact: &Fact,
    ) -> Result<Option<Reason>, OutOfMemory>
        ensures found { IfOk result (λ found. IfSome found (λ reason. IsInferredBecause (setting_in (front_of W.sets W.moves R.rules (basis_of self.now))) (stands (front_of W.sets W.moves R.rules (basis_of self.now))) fact.now (told_by reason))) }
        ensures none { IfOk result (λ found. IfNone found (IsNotInferredBy (front_of W.sets W.moves R.rules (basis_of self.now)) i fact.now)) }
        ensures room { IfOk result (λ found. IfSome found IsInPlace) }
    {
        match self.row(i) {
            None => Ok(None),
            Some(row) => self.inferred_by(rules, alloc, i, &row, fact),
        }
    }

    /// The reason by what the row that leads to the fact's point lets one infer.
    fn inferred_to(
        &self,
        rules: &mut R,
        alloc: Global,
        fact: &Fact,
    ) -> Result<Option<Reason>, OutOfMemory>
        ensures found { IfOk result (λ found. IfSome found (λ reason. IsInferredBecause (setting_in (front_of W.sets W.moves R.rules (basis_of self.now))) (stands (front_of W.sets W.moves R.rules (basis_of self.now))) fact.now (told_by reason))) }
        ensures none { IfOk result (λ found. IfNone found (0 < fact.now.point → IsNotInferredBy (front_of W.sets W.moves R.rules (basis_of self.now)) (fact.now.point - 1) fact.now)) }
        ensures room { IfOk result (λ found. IfSome found IsInPlace) }
    {
        if fact.point == 0 {
            return Ok(None);
        }
        self.inferred_at(rules, alloc, fact.point - 1, fact)
    }

    /// The reason of a register's fact by what a row beside its point lets one infer, the one that
    /// leads there first.
    pub(super) fn inferred_register(
        &self,
        rules: &mut R,
        alloc: Global,
        fact: &Fact,
        r: Reg,
    ) -> Result<Option<Reason>, OutOfMemory>
        requires { fact.now.cell ≡ Register r }
        ensures found { IfOk result (λ found. IfSome found (λ reason. IsInferredBecause (setting_in (front_of W.sets W.moves R.rules (basis_of self.now))) (stands (front_of W.sets W.moves R.rules (basis_of self.now))) fact.now (told_by reason))) }
        ensures none { IfOk result (λ found. IfNone found (IsNotInferred (front_of W.sets W.moves R.rules (basis_of self.now)) fact.now)) }
        ensures room { IfOk result (λ found. IfSome found IsInPlace) }
    {
        let found = self.inferred_to(rules, alloc, fact)?;
        if found.is_some() {
            return Ok(found);
        }
        self.inferred_at(rules, alloc, fact.point, fact)
    }

    /// The reason of a byte's fact by what a row after which its moment lies lets one infer.
    fn inferred_before(
        &self,
        rules: &mut R,
        alloc: Global,
        fact: &Fact,
    ) -> Result<Option<Reason>, OutOfMemory>
        ensures found { IfOk result (λ found. IfSome found (λ reason. IsInferredBecause (setting_in (front_of W.sets W.moves R.rules (basis_of self.now))) (stands (front_of W.sets W.moves R.rules (basis_of self.now))) fact.now (told_by reason))) }
        ensures none { IfOk result (λ found. IfNone found (AreNotInferredBefore (front_of W.sets W.moves R.rules (basis_of self.now)) (timeline self.now.paths).legs.count fact.now)) }
        ensures room { IfOk result (λ found. IfSome found IsInPlace) }
    {
        let count = self.count();
        let mut least = 0;
        while least < count {
            let Some(i) = self.row_to(fact.point, least) else {
                return Ok(None);
            };
            let found = self.inferred_at(rules, alloc, i, fact)?;
            if found.is_some() {
                return Ok(found);
            }
            least = i + 1;
        }
        Ok(None)
    }

    /// The reason of a byte's fact by what the row before which its moment lies lets one infer.
    fn inferred_after(
        &self,
        rules: &mut R,
        alloc: Global,
        fact: &Fact,
    ) -> Result<Option<Reason>, OutOfMemory>
        ensures found { IfOk result (λ found. IfSome found (λ reason. IsInferredBecause (setting_in (front_of W.sets W.moves R.rules (basis_of self.now))) (stands (front_of W.sets W.moves R.rules (basis_of self.now))) fact.now (told_by reason))) }
        ensures none { IfOk result (λ found. IfNone found (AreNotInferredAfter (front_of W.sets W.moves R.rules (basis_of self.now)) fact.now)) }
        ensures room { IfOk result (λ found. IfSome found IsInPlace) }
    {
        match self.row_at(fact.point) {
            None => Ok(None),
            Some(i) => self.inferred_at(rules, alloc, i, fact),
        }
    }

    /// The reason of a byte's fact by what a row beside its moment lets one infer, one after which
    /// it lies first. `OutOfMemory` says that the room for finding the bytes that a row's rules
    /// look at can't be had; the reason takes none.
    pub fn of_inferred_byte(
        &self,
        rules: &mut R,
        alloc: Global,
        fact: &Fact,
        a: u32,
    ) -> Result<Option<Reason>, OutOfMemory>
        requires { fact.now.cell ≡ Byte a }
        ensures found { IfOk result (λ found. IfSome found (λ reason. IsInferredBecause (setting_in (front_of W.sets W.moves R.rules (basis_of self.now))) (stands (front_of W.sets W.moves R.rules (basis_of self.now))) fact.now (told_by reason))) }
        ensures none { IfOk result (λ found. IfNone found (IsNotInferred (front_of W.sets W.moves R.rules (basis_of self.now)) fact.now)) }
        ensures room { IfOk result (λ found. IfSome found IsInPlace) }
    {
        // for the proof alone
        let _count = self.count();
        let found = self.inferred_before(rules, alloc, fact)?;
        if found.is_some() {
            return Ok(found);
        }
        self.inferred_after(rules, alloc, fact)
    }
}
