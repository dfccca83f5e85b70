//! What a conclusion of a row rests on.

ghost use Rattle.std.specs.Prelude.{◌≡◌, ◌+◌, ◌<◌, ◌≤◌, ◌^◌, ◌++◌, ℕ, Option, length};
ghost use Rattle.smallvec.specs.SmallVec.{HasRoomFor};
ghost use Rattle.rept_machine.specs.Arithmetic.{register_form};
ghost use Rattle.rept_isa.specs.Numbers.{word};
ghost use Rattle.rept_rules.specs.Results.{absorbs};
ghost use Rattle.rept_rules.specs.Conclusions.{load_width};
ghost use Rattle.rept_rules.specs.Listing.{known_at};
ghost use Rattle.rept_rules.specs.Needs.{register_need, both_needs, byte_needs, known_byte_needs, decides, result_needs, other_register, source_need, immediate_needs, operation_needs, load_needs, store_needs, copy_needs, needs_of};

use crate::infer::load_width;
use crate::number;
use crate::operand::copied_register;
use crate::outcome::{absorbs, cancels, operand};
use rept_isa::number::{plus, word};
use rept_isa::{ImmOp, Instr, LoadOp, Reg, RegOp};
use rept_machine::arithmetic::register_form;
use rept_partial::Flat;
use rept_reason::{Cell, Conclusion, Premise, RowView, When};
use smallvec::SmallVec;

/// A list of what a conclusion rests on, which keeps within the room that it has in place.
pub type Needs = SmallVec<Premise, 10>;

/// A register, unless it is x0.
pub fn need_register(needs: &mut Needs, when: When, r: Reg)
    requires { HasRoomFor needs.old 1 }
    ensures items { needs.new.items ≡ needs.old.items ++ register_need when r }
    ensures capacity { needs.new.capacity ≡ needs.old.capacity }
    ensures few { length needs.new.items ≤ length needs.old.items + 1 }
{
    if r.number() != 0 {
        needs.push_reserved(Premise {
            when,
            cell: Cell::Register(r),
        });
    }
}

/// Two registers before the row, each once.
pub fn need_both(needs: &mut Needs, r: Reg, q: Reg)
    requires { HasRoomFor needs.old 2 }
    ensures items { needs.new.items ≡ needs.old.items ++ both_needs r q }
    ensures capacity { needs.new.capacity ≡ needs.old.capacity }
{
    let same = r.number() == q.number();
    need_register(needs, When::Before, r);
    if !same {
        need_register(needs, When::Before, q);
    }
}

/// The bytes from a base on, this many.
pub fn need_bytes(needs: &mut Needs, when: When, base: u32, width: u32)
    requires few { width ≤ 4 }
    requires room { HasRoomFor needs.old width }
    ensures items { needs.new.items ≡ needs.old.items ++ byte_needs when base width }
    ensures capacity { needs.new.capacity ≡ needs.old.capacity }
{
    for k in 0..width {
        needs.push_reserved(Premise {
            when,
            cell: Cell::Byte(base.wrapping_add(k)),
        });
    }
}

fn need_known_bytes(needs: &mut Needs, when: When, base: Flat, imm: i32, width: u32)
    requires few { width ≤ 4 }
    requires room { HasRoomFor needs.old width }
    ensures items { needs.new.items ≡ needs.old.items ++ known_byte_needs when base imm width }
    ensures capacity { needs.new.capacity ≡ needs.old.capacity }
{
    match base {
        Flat::Unknown => {}
        Flat::Known(b) => need_bytes(needs, when, plus(b, imm), width),
    }
}

/// Adds what the conclusion rests on.
pub fn add_needs<V: RowView>(needs: &mut Needs, instr: &Instr, view: &V, inferred: &Conclusion)
    requires { HasRoomFor needs.old 6 }
    ensures items { needs.new.items ≡ needs.old.items ++ needs_of instr.now (V.seen view.now) inferred.now }
    ensures capacity { needs.new.capacity ≡ needs.old.capacity }
{
    match *instr {
        Instr::Imm { op, rd, rs1, imm } => need_immediate(needs, op, rd, rs1, imm, inferred),
        Instr::Op { op, rd, rs1, rs2 } => need_operation(needs, op, rd, rs1, rs2, view, inferred),
        Instr::Branch { rs1, rs2, .. } => {
            need_register(needs, When::Before, other_register(inferred.cell, rs1, rs2));
        }
        Instr::Load { op, rd, rs1, imm } => need_load(needs, op, rd, rs1, imm, view, inferred.when),
        Instr::Store { rs1, rs2, imm, .. } => need_store(needs, rs1, rs2, imm, view, inferred.when),
        Instr::Lui { .. }
        | Instr::Auipc { .. }
        | Instr::Jal { .. }
        | Instr::Jalr { .. }
        | Instr::Amo { .. }
        | Instr::Fence
        | Instr::Ecall
        | Instr::Ebreak
        | Instr::Counter { .. } => {}
    }
}

/// Of two registers the one that the conclusion isn't on.
fn other_register(cell: Cell, rs1: Reg, rs2: Reg) -> Reg
    ensures { result ≡ other_register cell rs1 rs2 }
{
    match cell {
        Cell::Register(r) => { if r.number() == rs1.number() { rs2 } else { rs1 } }
        Cell::Byte(_) => rs1,
    }
}

/// The result, the copy or the operand of an operation with an immediate.
fn need_immediate(needs: &mut Needs, op: ImmOp, rd: Reg, rs1: Reg, imm: i32, inferred: &Conclusion)
    requires { HasRoomFor needs.old 1 }
    ensures items { needs.new.items ≡ needs.old.items ++ immediate_needs op rd rs1 imm inferred.now }
    ensures capacity { needs.new.capacity ≡ needs.old.capacity }
{
    if inferred.rule == number::RESULT {
        if !absorbs(register_form(op), word(imm)) {
            need_register(needs, When::Before, rs1);
        }
    } else {
        match inferred.when {
            When::Before => need_register(needs, When::After, rd),
            When::After => need_register(needs, When::Before, rs1),
        }
    }
}

/// The result, the copy or an operand of an operation on registers.
fn need_operation<V: RowView>(
    needs: &mut Needs,
    op: RegOp,
    rd: Reg,
    rs1: Reg,
    rs2: Reg,
    view: &V,
    inferred: &Conclusion,
)
    requires { HasRoomFor needs.old 2 }
    ensures items { needs.new.items ≡ needs.old.items ++ operation_needs op rd rs1 rs2 (V.seen view.now) inferred.now }
    ensures capacity { needs.new.capacity ≡ needs.old.capacity }
{
    if inferred.rule == number::RESULT {
        need_result(needs, op, rs1, rs2, view);
    } else if inferred.rule == number::COPY {
        need_copy(needs, inferred.when, rd, copied_register(op, rs1, rs2));
    } else {
        let other = other_register(inferred.cell, rs1, rs2);
        need_register(needs, When::After, rd);
        need_register(needs, When::Before, other);
    }
}

/// The source of a copy, or the copy.
fn need_copy(needs: &mut Needs, when: When, rd: Reg, source: Option<Reg>)
    requires { HasRoomFor needs.old 1 }
    ensures items { needs.new.items ≡ needs.old.items ++ copy_needs when rd source }
    ensures capacity { needs.new.capacity ≡ needs.old.capacity }
{
    match when {
        When::Before => need_register(needs, When::After, rd),
        When::After => match source {
            None => {}
            Some(register) => need_register(needs, When::Before, register),
        },
    }
}

/// The operands of a result: none where they cancel, the one that decides it, or both.
fn need_result<V: RowView>(needs: &mut Needs, op: RegOp, rs1: Reg, rs2: Reg, view: &V)
    requires { HasRoomFor needs.old 2 }
    ensures items { needs.new.items ≡ needs.old.items ++ result_needs op rs1 rs2 (V.seen view.now) }
    ensures capacity { needs.new.capacity ≡ needs.old.capacity }
{
    let first = operand(rs1, view.reg(When::Before, rs1));
    let second = operand(rs2, view.reg(When::Before, rs2));
    if cancels(op, rs1, rs2) {
        return;
    }
    if decides(op, first) {
        need_register(needs, When::Before, rs1);
        return;
    }
    if decides(op, second) {
        need_register(needs, When::Before, rs2);
        return;
    }
    need_both(needs, rs1, rs2);
}

/// Whether an operand decides the result alone.
fn decides(op: RegOp, x: Flat) -> bool
    ensures { result ≡ decides op x }
{
    match x {
        Flat::Unknown => false,
        Flat::Known(a) => absorbs(op, a),
    }
}

/// The bytes of a load, or its result, each from the base and the other.
fn need_load<V: RowView>(
    needs: &mut Needs,
    op: LoadOp,
    rd: Reg,
    rs1: Reg,
    imm: i32,
    view: &V,
    when: When,
)
    requires { HasRoomFor needs.old 5 }
    ensures items { needs.new.items ≡ needs.old.items ++ load_needs op rd rs1 imm (V.seen view.now) when }
    ensures capacity { needs.new.capacity ≡ needs.old.capacity }
{
    match when {
        When::Before => {
            need_register(needs, When::After, rd);
            need_register(needs, When::Before, rs1);
        }
        When::After => {
            let base = view.reg(When::Before, rs1);
            need_register(needs, When::Before, rs1);
            need_known_bytes(needs, When::Before, base, imm, load_width(op));
        }
    }
}

/// The source of a stored word, or a stored byte, each from the base and the other.
fn need_store<V: RowView>(needs: &mut Needs, rs1: Reg, rs2: Reg, imm: i32, view: &V, when: When)
    requires { HasRoomFor needs.old 5 }
    ensures items { needs.new.items ≡ needs.old.items ++ store_needs rs1 rs2 imm (V.seen view.now) when }
    ensures capacity { needs.new.capacity ≡ needs.old.capacity }
{
    match when {
        When::Before => {
            let base = view.reg(When::Before, rs1);
            need_register(needs, When::Before, rs1);
            need_known_bytes(needs, When::After, base, imm, 4);
        }
        When::After => need_both(needs, rs1, rs2),
    }
}
