//! Which bytes a row may write, by the ranges of registers around it.

ghost use Rattle.std.specs.Prelude.{◌≡◌, ◌<◌, ◌≤◌, ◌^◌, ◌&&◌, ℕ, pos};
ghost use Rattle.rept_alias.specs.Accesses.{hits, call_hits, access_of};
ghost use Rattle.rept_havoc.specs.Havoc.{changed};
ghost use Rattle.rept_machine.specs.Arithmetic.{store_width};
ghost use Rattle.rept_partial.specs.declared.flat.Flat.{Flat};
ghost use Rattle.rept_reason.specs.declared.view.inferred.When.TheVariants.{Before, After};
ghost use Rattle.rept_rules.specs.MayWrite.{range_of, only_value, is_failure, has_failed, writes_word, instr_may_write, instr_is_sure};

use crate::look::is_known;
use rept_alias::{Access, CallAccess, access};
use rept_havoc::havoc;
use rept_isa::{AmoOp, Instr, Reg, StoreOp, register};
use rept_machine::store_width;
use rept_partial::{Flat, Partial, Range};
use rept_reason::{RowView, When};

/// The bytes that the row of this instruction may write, where the program's own memory ends at
/// `image_end`.
pub fn touched<V: RowView>(instr: &Instr, view: &V, image_end: u64) -> CallAccess
    ensures { (a : ℕ) → call_hits result a ≡ instr_may_write instr.now (V.seen view.now) image_end a }
{
    match *instr {
        Instr::Store { op, rs1, imm, .. } => stored(op, range_before(view, rs1), imm),
        Instr::Amo { op, rd, rs1, .. } => atomic(op, rd, rs1, view),
        Instr::Ecall => called(view, image_end),
        Instr::Lui { .. }
        | Instr::Auipc { .. }
        | Instr::Jal { .. }
        | Instr::Jalr { .. }
        | Instr::Branch { .. }
        | Instr::Load { .. }
        | Instr::Imm { .. }
        | Instr::Op { .. }
        | Instr::Fence
        | Instr::Ebreak
        | Instr::Counter { .. } => CallAccess {
            first: None,
            second: None,
        },
    }
}

/// The range of a register before the row.
fn range_before<V: RowView>(view: &V, r: Reg) -> Range
    ensures { result ≡ range_of (V.seen view.now) When.Before r }
{
    // for the proof alone
    let _number = r.number();
    view.range(When::Before, r)
}

/// The bytes of a store, over the range of its base.
fn stored(op: StoreOp, base: Range, imm: i32) -> CallAccess
    ensures { (a : ℕ) → call_hits result a ≡ hits (access_of base imm (store_width op)) a }
{
    CallAccess {
        first: Some(access(base, imm, width(op))),
        second: None,
    }
}

fn width(op: StoreOp) -> u8
    ensures { result ≡ store_width op }
{
    store_width(op) as u8
}

/// The word of an atomic instruction, over the range of its address.
fn atomic<V: RowView>(op: AmoOp, rd: Reg, rs1: Reg, view: &V) -> CallAccess
    ensures { (a : ℕ) → call_hits result a ≡ (writes_word op rd (V.seen view.now) && hits (access_of (range_of (V.seen view.now) When.Before rs1) (pos 0) 4) a) }
{
    if writes_word(op, rd, view) {
        CallAccess {
            first: Some(access(range_before(view, rs1), 0, 4)),
            second: None,
        }
    } else {
        CallAccess {
            first: None,
            second: None,
        }
    }
}

/// Whether an atomic instruction with this destination may write its word.
fn writes_word<V: RowView>(op: AmoOp, rd: Reg, view: &V) -> bool
    ensures { result ≡ writes_word op rd (V.seen view.now) }
{
    match op {
        AmoOp::Lr => false,
        AmoOp::Sc => !has_failed(rd, view),
        _ => true,
    }
}

/// Whether an SC is known to have failed.
fn has_failed<V: RowView>(rd: Reg, view: &V) -> bool
    ensures { result ≡ has_failed rd (V.seen view.now) }
{
    if rd.number() == 0 {
        return false;
    }
    is_failure(only_value(view.range(When::After, rd)))
}

fn is_failure(answer: Flat) -> bool
    ensures { result ≡ is_failure answer }
{
    match answer {
        Flat::Unknown => false,
        Flat::Known(v) => v != 0,
    }
}

/// The bytes of a call, over the ranges of its number, its arguments and its answer.
#[tactic(auto, using(rept_havoc::specs::Laws::HavocLemmas::changed_of_six))]
fn called<V: RowView>(view: &V, image_end: u64) -> CallAccess
    ensures { result ≡ changed (only_value ((V.seen view.now).range When.Before 17)) ((V.seen view.now).range When.Before) ((V.seen view.now).range When.After 10) image_end }
{
    let number = only_value(view.range(When::Before, register(17)));
    let args = [
        view.range(When::Before, register(10)),
        view.range(When::Before, register(11)),
        view.range(When::Before, register(12)),
        view.range(When::Before, register(13)),
        view.range(When::Before, register(14)),
        view.range(When::Before, register(15)),
    ];
    havoc(
        number,
        &args,
        view.range(When::After, register(10)),
        image_end,
    )
}

/// The only value of a range. Unknown where there are several.
fn only_value(range: Range) -> Flat
    ensures { result ≡ only_value range }
{
    if range.lo() == range.hi() {
        Flat::Known(range.lo())
    } else {
        Flat::Unknown
    }
}

/// Whether the row of this instruction writes all bytes that it may write: a store of known base
/// does.
pub fn is_sure<V: RowView>(instr: &Instr, view: &V) -> bool
    ensures { result ≡ instr_is_sure instr.now (V.seen view.now) }
{
    match *instr {
        Instr::Store { rs1, .. } => is_known(view, rs1),
        _ => false,
    }
}
