//! Reasons by what a row lets one conclude.

ghost use Rattle.rept_timeline.specs.Paths.{timeline};
ghost use Rattle.std.specs.Prelude.{◌≡◌, ◌<◌, ◌≤◌, length, map, Some, IfSome, IfNone, Contains};
ghost use Rattle.rept_reason.specs.declared.view.inferred.Conclusion.{Conclusion};
ghost use Rattle.rept_reason.specs.View.Seen.{seen_cell};
ghost use Rattle.rept_report.specs.Views.{instant_of};
ghost use Rattle.rept_report.specs.Why.{premise_of};
ghost use Rattle.rept_log.specs.Fronts.{told_by, Gives, IsInPlace};
ghost use Rattle.rept_log.specs.Concluding.{seen_row, IsConcluded, IsNotConcluded};

use crate::views::instant_at;
use rept_isa::StepRow;
use rept_partial::Partial;
use rept_reason::{Cell, Conclusion, Fact, Premise, Reason, RowRules, RowView, When};
use rept_timeline::RunPaths;
use smallvec::SmallVec;
use std::alloc::Global;

/// What is seen of a cell before or after a row.
fn seen_by<V: RowView>(view: &V, when: When, cell: &Cell) -> Option<u32>
    ensures { result ≡ seen_cell (V.seen view.now) when cell.now }
{
    match cell {
        Cell::Register(r) => view.reg(when, *r).as_exact(),
        Cell::Byte(a) => match view.byte(when, *a) {
            Some(v) => Some(u32::from(v)),
            None => None,
        },
    }
}

/// A row of the paths.
#[derive(Drop)]
pub(crate) struct PlacedRow<'f> {
    /// the paths
    pub paths: &'f RunPaths<'f>,
    /// the row's number
    pub number: u32,
    /// the row
    pub row: &'f StepRow,
    ghost is_row: { (timeline paths.now).legs.row number ≡ Some row.now },
    ghost early: { number < 4294967295 },
}

impl<'f> PlacedRow<'f> {
    /// Where a cell is looked at before or after the row: of a register the point, of a byte the
    /// number of the moment.
    fn instant(&self, when: When, cell: &Cell) -> u32
        ensures { result ≡ instant_of (timeline self.now.paths.now).moments self.now.number when cell.now }
    {
        instant_at(self.paths, self.number, when, cell)
    }

    /// Of conclusions of the row the first one that says what the fact says.
    fn matching(&self, list: &[Conclusion], fact: &Fact) -> Option<Conclusion>
        ensures found { IfSome result (λ d. Contains list.now d × Gives (timeline self.now.paths.now).moments self.now.number d fact.now) }
        ensures none { IfNone result ((d : Conclusion) → Contains list.now d → Gives (timeline self.now.paths.now).moments self.now.number d fact.now → ⊥) }
    {
        for inferred in list {
            if fact.point == self.instant(inferred.when, &inferred.cell)
                && fact.cell == inferred.cell
                && fact.value == inferred.value
            {
                return Some(*inferred);
            }
        }
        None
    }

    /// What a conclusion of the row rests on, as a fact.
    fn premise<V: RowView>(&self, view: &V, need: &Premise) -> Fact
        ensures { result ≡ premise_of (timeline self.now.paths.now).moments (V.seen view.now) self.now.number need.now }
    {
        let cell = need.cell;
        let value = match seen_by(view, need.when, &cell) {
            Some(value) => value,
            None => 0,
        };
        Fact {
            point: self.instant(need.when, &cell),
            cell,
            value,
        }
    }

    /// What conclusions of the row rest on, as facts.
    fn premises<V: RowView>(&self, alloc: Global, view: &V, needs: &[Premise]) -> SmallVec<Fact, 10>
        requires few { length needs.now ≤ 10 }
        ensures facts { result.items ≡ map (premise_of (timeline self.now.paths.now).moments (V.seen view.now) self.now.number) needs.now }
        ensures room { result.capacity ≡ 10 }
    {
        let mut premises = SmallVec::new(alloc);
        for need in needs {
            let premise = self.premise(view, need);
            premises.push_reserved(premise);
        }
        premises
    }

    /// The reason by a conclusion of the row that says what the fact says.
    pub fn concluded<R: RowRules, V: RowView>(
        &self,
        rules: &mut R,
        alloc: Global,
        view: &V,
        fact: &Fact,
    ) -> Option<Reason>
        ensures found { IfSome result (λ reason. IsConcluded R.rules (seen_row (timeline self.now.paths.now).moments self.now.number self.now.row.now (V.seen view.now)) fact.now (told_by reason)) }
        ensures none { IfNone result (IsNotConcluded R.rules (seen_row (timeline self.now.paths.now).moments self.now.number self.now.row.now (V.seen view.now)) fact.now) }
        ensures room { IfSome result IsInPlace }
    {
        let list = rules.infer(alloc, self.row, view);
        let inferred = self.matching(list.as_slice(), fact)?;
        let needs = R::needs(alloc, self.row, view, &inferred);
        let premises = self.premises(alloc, view, needs.as_slice());
        Some(Reason {
            rule: inferred.rule,
            premises,
            ranges: SmallVec::new(alloc),
        })
    }
}
