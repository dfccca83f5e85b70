//! The rules of a row.

ghost use Rattle.std.specs.Prelude.{◌≡◌, ℕ, ◌+◌, ◌<◌, ◌≤◌, ◌^◌, min, Contains};
ghost use Rattle.rept_alias.specs.Accesses.{call_hits};
ghost use Rattle.rept_reason.specs.View.Rules.{Rules, AreLawfulRules};

use crate::view::inferred::{Conclusion, Premise, RegisterAt};
use crate::view::view::RowView;
use rept_alias::CallAccess;
use rept_isa::StepRow;
use smallvec::SmallVec;
use std::alloc::Global;

/// The rules by which a row lets facts on its own registers and bytes be applied, and which bytes
/// it may write. Beside them an analysis asks an instruction for its turn, the registers that it
/// reads and writes, the offset at which its bytes begin, whether it stores or calls, whether the
/// row's exit fits, and what it makes of sets of values. `rules` names the answers as functions of
/// the row and of what is seen, and each implementation proves their laws. No call takes memory:
/// each list keeps within the room that it has in place.
pub trait RowRules: Drop {
    ghost rules: { Rules };

    /// How often rules were applied by this value: a number that never falls, and stays at its
    /// greatest one.
    ghost infers: { Self → ℕ };

    /// The rules, by which nothing was inferred yet.
    fn new() -> Self
        ensures fresh { infers result ≡ 0 };

    /// All that the row lets one conclude.
    fn infer<V: RowView>(
        &mut self,
        alloc: Global,
        row: &StepRow,
        view: &V,
    ) -> SmallVec<Conclusion, 16>
        ensures list { result.items ≡ rules.infer row.now (V.seen view.now) }
        ensures inline { result.capacity ≡ 16 }
        ensures raised { infers self.new ≡ min (infers self.old + 1) 18446744073709551615 };

    /// What one of these conclusions rests on, in the rule's order.
    fn needs<V: RowView>(
        alloc: Global,
        row: &StepRow,
        view: &V,
        inferred: &Conclusion,
    ) -> SmallVec<Premise, 10>
        requires { Contains (rules.infer row.now (V.seen view.now)) inferred.now }
        ensures list { result.items ≡ rules.needs row.now (V.seen view.now) inferred.now }
        ensures inline { result.capacity ≡ 10 };

    /// The bytes that the row may write, where the program's own memory ends at `image_end`.
    fn touched<V: RowView>(row: &StepRow, view: &V, image_end: u64) -> CallAccess
        ensures { (a : ℕ) → a < 2 ^ 32 → call_hits result a ≡ rules.touched row.now (V.seen view.now) image_end a };

    /// The registers before and after the row whose ranges tell which bytes it may write.
    fn tells(alloc: Global, row: &StepRow) -> SmallVec<RegisterAt, 8>
        ensures list { result.items ≡ rules.tells row.now }
        ensures inline { result.capacity ≡ 8 };

    /// Whether the row writes all bytes that it may write.
    fn sure<V: RowView>(row: &StepRow, view: &V) -> bool
        ensures { result ≡ rules.sure row.now (V.seen view.now) };

    /// A bound on how many byte facts the row lets one conclude.
    fn places(row: &StepRow) -> u32
        ensures value { result ≡ rules.places row.now }
        ensures few { result ≤ 8 };

    ghost lawful: { AreLawfulRules rules };
}
