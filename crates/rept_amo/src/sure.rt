//! Whether an atomic instruction writes its word.

ghost use Rattle.std.specs.Prelude.{◌≡◌, Some};
ghost use Rattle.rept_amo.specs.Writes.{form_is_sure, has_succeeded, is_done, places_by};

use crate::form::Form;
use rept_isa::{AmoOp, Reg, StepRow};
use rept_partial::Flat;
use rept_reason::{RowView, When};
use rept_rules::look::is_known;

/// Whether an SC is known to have succeeded: its answer is 0, in another register than x0.
fn has_succeeded<V: RowView>(rd: Reg, view: &V) -> bool
    ensures { result ≡ has_succeeded rd (V.seen view.now) }
{
    if rd.number() == 0 {
        return false;
    }
    match view.reg(When::After, rd) {
        Flat::Unknown => false,
        Flat::Known(v) => v == 0,
    }
}

/// An atomic memory operation always writes; an SC where it succeeded.
fn is_done<V: RowView>(op: AmoOp, rd: Reg, view: &V) -> bool
    ensures { result ≡ is_done op rd (V.seen view.now) }
{
    match op {
        AmoOp::Lr => false,
        AmoOp::Sc => has_succeeded(rd, view),
        _ => true,
    }
}

/// Whether a row of this form writes the bytes of its word, at a known address.
pub fn is_sure<V: RowView>(form: &Form, row: &StepRow, view: &V) -> bool
    ensures { result ≡ form_is_sure (Some form.now) row.now (V.seen view.now) }
{
    let _ = row;
    is_known(view, form.rs1) && is_done(form.op, form.rd, view)
}

/// How many byte facts a row of this operation gives at most.
pub fn places_by(op: AmoOp) -> u32
    ensures { result ≡ places_by op }
{
    match op {
        AmoOp::Lr | AmoOp::Sc => 4,
        _ => 8,
    }
}
