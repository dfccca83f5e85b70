//! The rules of RV32IMA.

ghost use Rattle.std.specs.Prelude.{◌≡◌, ◌+◌, ◌++◌, ◌<◌, min, Contains, Some};
ghost use Rattle.rept_reason.specs.declared.view.inferred.Conclusion.{Conclusion};
ghost use Rattle.rept_amo.specs.Conclusions.{AtomicConcludes, form_of};
ghost use Rattle.rept_amo.specs.Listing.{inferred_of, access_inferred};
ghost use Rattle.rept_amo.specs.Needs.{needs_at};
ghost use Rattle.rept_amo.specs.declared.form.Form.{Form};
ghost use Rattle.rept_rules.specs.Listing.{known_at};
ghost use Rattle.smallvec.specs.SmallVec.{HasRoomFor};

use crate::form::{AtomicAccess, Form, form_of};
use crate::infer::infer_access;
use crate::rest::add_needs;
use crate::sure::{is_sure, places_by};
use rept_alias::CallAccess;
use rept_isa::StepRow;
use rept_partial::Flat;
use rept_reason::{Conclusion, Premise, RegisterAt, RowRules, RowView, When};
use rept_rules::Base;
use rept_rules::infer::Conclusions;
use rept_rules::rest::Needs;
use smallvec::SmallVec;
use std::alloc::Global;

/// The rules of RV32IMA: of rows of atomic instructions its own, and of all other rows those of
/// RV32IM.
#[derive(Drop)]
pub struct Atomic {
    base: Base,
    infers: u64,
}

/// All that a row of this form gives, where its address is known.
fn infer_form<V: RowView>(inferred: &mut Conclusions, form: &Form, view: &V)
    requires { HasRoomFor inferred.old 14 }
    ensures items { inferred.new.items ≡ inferred.old.items ++ access_inferred form.now (known_at (V.seen view.now) When.Before form.now.rs1) (V.seen view.now) }
    ensures capacity { inferred.new.capacity ≡ inferred.old.capacity }
{
    match view.reg(When::Before, form.rs1) {
        Flat::Unknown => {}
        Flat::Known(base) => infer_access(inferred, &AtomicAccess { form: *form, base }, view),
    }
}

/// What a conclusion of a row of this form rests on.
fn need_form<V: RowView>(needs: &mut Needs, form: &Form, view: &V, rule: u8)
    requires { HasRoomFor needs.old 9 }
    ensures items { needs.new.items ≡ needs.old.items ++ needs_at form.now (known_at (V.seen view.now) When.Before form.now.rs1) rule }
    ensures capacity { needs.new.capacity ≡ needs.old.capacity }
{
    match view.reg(When::Before, form.rs1) {
        Flat::Unknown => {}
        Flat::Known(base) => add_needs(needs, &AtomicAccess { form: *form, base }, rule),
    }
}

impl RowRules for Atomic {
    ghost use Rattle.rept_amo.specs.Atomic.{atomic_rules};
    ghost use Rattle.rept_amo.specs.Laws.AtomicLaws.{atomic_lawful};

    ghost rules = { atomic_rules };

    ghost infers = { λ a. a.infers };

    ghost lawful = { atomic_lawful };

    fn new() -> Self {
        Atomic {
            base: Base::new(),
            infers: 0,
        }
    }

    fn infer<V: RowView>(
        &mut self,
        alloc: Global,
        row: &StepRow,
        view: &V,
    ) -> SmallVec<Conclusion, 16>
        ensures list { result.items ≡ inferred_of (form_of row.now.instr) row.now (V.seen view.now) }
        ensures inline { result.capacity ≡ 16 }
        ensures raised { self.new.infers ≡ min (self.old.infers + 1) 18446744073709551615 }
        ensures listed { (form : Form) (d : Conclusion) → form_of row.now.instr ≡ Some form → Contains result.items d → AtomicConcludes row.now (V.seen view.now) d }
        ensures all { (form : Form) (d : Conclusion) → form_of row.now.instr ≡ Some form → AtomicConcludes row.now (V.seen view.now) d → Contains result.items d }
    {
        self.infers = self.infers.saturating_add(1);
        match form_of(&row.instr) {
            None => self.base.infer(alloc, row, view),
            Some(form) => {
                let mut inferred = SmallVec::new(alloc);
                infer_form(&mut inferred, &form, view);
                inferred
            }
        }
    }

    fn needs<V: RowView>(
        alloc: Global,
        row: &StepRow,
        view: &V,
        inferred: &Conclusion,
    ) -> SmallVec<Premise, 10> {
        match form_of(&row.instr) {
            None => Base::needs(alloc, row, view, inferred),
            Some(form) => {
                let mut needs = SmallVec::new(alloc);
                need_form(&mut needs, &form, view, inferred.rule);
                needs
            }
        }
    }

    fn touched<V: RowView>(row: &StepRow, view: &V, image_end: u64) -> CallAccess {
        Base::touched(row, view, image_end)
    }

    fn tells(alloc: Global, row: &StepRow) -> SmallVec<RegisterAt, 8> {
        Base::tells(alloc, row)
    }

    fn sure<V: RowView>(row: &StepRow, view: &V) -> bool {
        match form_of(&row.instr) {
            None => Base::sure(row, view),
            Some(form) => is_sure(&form, row, view),
        }
    }

    fn places(row: &StepRow) -> u32 {
        match form_of(&row.instr) {
            None => Base::places(row),
            Some(form) => places_by(form.op),
        }
    }
}
