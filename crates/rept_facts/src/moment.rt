//! What the facts at places below a limit, and the sets filled from them, tell of registers around
//! a row.

ghost use Rattle.std.specs.Prelude.{◌≡◌, ◌+◌, ◌<◌, ◌≤◌, ◌^◌, ℕ, Some};
ghost use Rattle.rept_reason.specs.declared.fact.Cell.TheVariants.{Register};
ghost use Rattle.rept_reason.specs.Facts.{told};
ghost use Rattle.rept_report.specs.Log.{oldest};

use rept_isa::Reg;
use rept_log::FactLog;
use rept_log::views::{known_or, point_at};
use rept_partial::{Flat, Range};
use rept_reason::{RowView, When};
use rept_report::bounds;
use rept_span::{Spans, Transfer};
use rept_versions::ByteFacts;

/// What the facts at places below a limit tell of registers around a row, with sets of values. Of
/// bytes it says nothing.
#[derive(Drop)]
pub struct RegisterView<'k, B: ByteFacts, W: Transfer> {
    /// the facts
    pub facts: &'k FactLog<B>,
    /// the sets
    pub spans: &'k Spans<W>,
    /// the limit
    pub limit: u32,
    /// the row's number
    pub row: u32,
    ghost inside: { row < facts.now.last },
    ghost near: { facts.now.last ≤ 66560 },
    ghost sized: { spans.now.points ≡ facts.now.last + 1 },
    ghost words: { (p r v : ℕ) → told (oldest limit facts.now.log) p (Register r) ≡ Some v → v < 2 ^ 32 },
}

impl<'k, B: ByteFacts, W: Transfer> RowView for RegisterView<'k, B, W> {
    ghost use Rattle.rept_facts.specs.Moments.{moment, moment_lawful};

    ghost seen = { λ v. moment W.sets (oldest v.limit v.facts.now.log) v.spans.now v.row };

    ghost lawful = { λ v. moment_lawful W.sets (oldest v.limit v.facts.now.log) v.spans.now v.row v.words };

    fn reg(&self, when: When, r: Reg) -> Flat {
        self.facts
            .known_below(self.limit, point_at(self.row, when), r)
    }

    fn byte(&self, when: When, a: u32) -> Option<u8> {
        let _asked = (when, a);
        None
    }

    fn range(&self, when: When, r: Reg) -> Range {
        let point = point_at(self.row, when);
        let set = self.spans.at(point, r);
        known_or(self.facts.known_below(self.limit, point, r), bounds(set))
    }
}
