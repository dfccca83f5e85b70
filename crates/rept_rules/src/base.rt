//! The rules of RV32IM.

ghost use Rattle.std.specs.Prelude.{◌≡◌, ℕ, ◌+◌, ◌^◌, ◌<◌, min, Contains};
ghost use Rattle.rept_alias.specs.Accesses.{call_hits};
ghost use Rattle.rept_machine.specs.Calls.{may_change};
ghost use Rattle.rept_reason.specs.declared.view.inferred.Conclusion.{Conclusion};
ghost use Rattle.rept_rules.specs.Conclusions.{ConcludesByRow};
ghost use Rattle.rept_rules.specs.Listing.{conclusions};
ghost use Rattle.rept_rules.specs.MayWrite.{IsKnownCall, instr_may_write};

use crate::infer::{infer_others, infer_result, load_width};
use crate::rest::add_needs;
use crate::tell::add_tells;
use crate::touch::{is_sure, touched};
use rept_alias::CallAccess;
use rept_isa::{Instr, StepRow};
use rept_machine::store_width;
use rept_reason::{Conclusion, Premise, RegisterAt, RowRules, RowView};
use smallvec::SmallVec;
use std::alloc::Global;

/// The rules of RV32IM: the results of operations, loads and stores, the operands and bytes that
/// follow from them, the equal operands of branches, and copies.
#[derive(Drop)]
pub struct Base {
    infers: u64,
}

impl RowRules for Base {
    ghost use Rattle.rept_rules.specs.Base.{base_rules};
    ghost use Rattle.rept_rules.specs.Laws.BaseLaws.{base_lawful};

    ghost rules = { base_rules };

    ghost infers = { λ b. b.infers };

    ghost lawful = { base_lawful };

    fn new() -> Self {
        Base { infers: 0 }
    }

    fn infer<V: RowView>(
        &mut self,
        alloc: Global,
        row: &StepRow,
        view: &V,
    ) -> SmallVec<Conclusion, 16>
        ensures list { result.items ≡ conclusions row.now (V.seen view.now) }
        ensures inline { result.capacity ≡ 16 }
        ensures raised { self.new.infers ≡ min (self.old.infers + 1) 18446744073709551615 }
        ensures listed { (d : Conclusion) → Contains result.items d → ConcludesByRow row.now (V.seen view.now) d }
        ensures all { (d : Conclusion) → ConcludesByRow row.now (V.seen view.now) d → Contains result.items d }
    {
        self.infers = self.infers.saturating_add(1);
        let mut inferred = SmallVec::new(alloc);
        infer_result(&mut inferred, row, view);
        infer_others(&mut inferred, row, view);
        inferred
    }

    fn needs<V: RowView>(
        alloc: Global,
        row: &StepRow,
        view: &V,
        inferred: &Conclusion,
    ) -> SmallVec<Premise, 10> {
        let mut needs = SmallVec::new(alloc);
        add_needs(&mut needs, &row.instr, view, inferred);
        needs
    }

    fn touched<V: RowView>(row: &StepRow, view: &V, image_end: u64) -> CallAccess
        ensures hits { (a : ℕ) → a < 2 ^ 32 → call_hits result a ≡ instr_may_write row.now.instr (V.seen view.now) image_end a }
        // Of a call that is known, exactly the bytes of the table of calls.
        ensures exact { row.now.instr ≡ Instr.Ecall → (register : ℕ → ℕ) (answer a : ℕ) → IsKnownCall (V.seen view.now) register answer → a < 2 ^ 32 → call_hits result a ≡ may_change image_end register answer a }
    {
        touched(&row.instr, view, image_end)
    }

    fn tells(alloc: Global, row: &StepRow) -> SmallVec<RegisterAt, 8> {
        let mut tells = SmallVec::new(alloc);
        add_tells(&mut tells, &row.instr);
        tells
    }

    fn sure<V: RowView>(row: &StepRow, view: &V) -> bool {
        is_sure(&row.instr, view)
    }

    fn places(row: &StepRow) -> u32 {
        match row.instr {
            Instr::Load { op, .. } => load_width(op),
            Instr::Store { op, .. } => store_width(op),
            _ => 0,
        }
    }
}
