//! The conclusions of a row, one after another into a list.

ghost use Rattle.std.specs.Prelude.{◌≡◌, ◌+◌, ◌<◌, ◌≤◌, ◌^◌, ◌++◌, ℕ, Option, length};
ghost use Rattle.smallvec.specs.SmallVec.{HasRoomFor};
ghost use Rattle.rept_isa.specs.Operands.{turn_of};
ghost use Rattle.rept_rules.specs.Conclusions.{load_width, operation_rule, solving_rule, equates};
ghost use Rattle.rept_rules.specs.Listing.{register_inferred, some_inferred, bytes_inferred, known_bytes_inferred, known_at, known_after, result_inferred, solve_known, by_rule, solved_inferred, both_inferred, copied_between, copy_inferred, operation_inferred, load_inferred, store_back_inferred, store_inferred, branch_inferred, others_inferred};

use crate::look::{destination_after, loaded, operand_before, result_after, word};
use crate::number;
use crate::operand::{Side, copied, operand_of, opposite, solve};
use crate::outcome::forward;
use rept_isa::number::plus;
use rept_isa::{BranchOp, Instr, LoadOp, Reg, RegOp, StepRow, StoreOp, Turn, reads, turn, writes};
use rept_machine::arithmetic::register_form;
use rept_machine::store_width;
use rept_partial::Flat;
use rept_reason::{Cell, Conclusion, RowView, When};
use smallvec::SmallVec;

/// A list of conclusions, which keeps within the room that it has in place.
pub type Conclusions = SmallVec<Conclusion, 16>;

/// A register other than x0 has a known value.
pub fn infer_register(inferred: &mut Conclusions, rule: u8, when: When, r: Reg, x: Flat)
    requires { HasRoomFor inferred.old 1 }
    ensures items { inferred.new.items ≡ inferred.old.items ++ register_inferred rule when r x }
    ensures capacity { inferred.new.capacity ≡ inferred.old.capacity }
    ensures few { length inferred.new.items ≤ length inferred.old.items + 1 }
{
    let register = r.number();
    match x {
        Flat::Unknown => {}
        Flat::Known(value) => {
            if register > 0 {
                inferred.push_reserved(Conclusion {
                    rule,
                    when,
                    cell: Cell::Register(r),
                    value,
                    slot: 0,
                });
            }
        }
    }
}

/// A register that there may be has a known value, if it isn't x0.
fn infer_some(inferred: &mut Conclusions, rule: u8, when: When, r: Option<Reg>, x: Flat)
    requires { HasRoomFor inferred.old 1 }
    ensures items { inferred.new.items ≡ inferred.old.items ++ some_inferred rule when r x }
    ensures capacity { inferred.new.capacity ≡ inferred.old.capacity }
    ensures few { length inferred.new.items ≤ length inferred.old.items + 1 }
{
    match r {
        None => {}
        Some(register) => infer_register(inferred, rule, when, register, x),
    }
}

/// The low bytes of a value from a base on.
fn infer_bytes(inferred: &mut Conclusions, rule: u8, when: When, base: u32, v: u32, width: u32)
    requires few { width ≤ 4 }
    requires room { HasRoomFor inferred.old width }
    ensures items { inferred.new.items ≡ inferred.old.items ++ bytes_inferred rule when base v width }
    ensures capacity { inferred.new.capacity ≡ inferred.old.capacity }
    ensures few { length inferred.new.items ≤ length inferred.old.items + width }
{
    for k in 0..width {
        inferred.push_reserved(Conclusion {
            rule,
            when,
            cell: Cell::Byte(base.wrapping_add(k)),
            value: (v >> (8 * k)) % 256,
            slot: k,
        });
    }
}

/// The low bytes of a value from a base on, where base and value are known.
fn infer_known_bytes(
    inferred: &mut Conclusions,
    rule: u8,
    when: When,
    base: Flat,
    imm: i32,
    v: Flat,
    width: u32,
)
    requires few { width ≤ 4 }
    requires room { HasRoomFor inferred.old width }
    ensures items { inferred.new.items ≡ inferred.old.items ++ known_bytes_inferred rule when base imm v width }
    ensures capacity { inferred.new.capacity ≡ inferred.old.capacity }
    ensures few { length inferred.new.items ≤ length inferred.old.items + width }
{
    match base {
        Flat::Unknown => {}
        Flat::Known(b) => match v {
            Flat::Unknown => {}
            Flat::Known(value) => infer_bytes(inferred, rule, when, plus(b, imm), value, width),
        },
    }
}

/// The result of the instruction, from what is known of its operands.
pub fn infer_result<V: RowView>(inferred: &mut Conclusions, row: &StepRow, view: &V)
    requires { HasRoomFor inferred.old 1 }
    ensures items { inferred.new.items ≡ inferred.old.items ++ result_inferred row.now (V.seen view.now) }
    ensures capacity { inferred.new.capacity ≡ inferred.old.capacity }
    ensures few { length inferred.new.items ≤ length inferred.old.items + 1 }
{
    let (first, second) = reads(&row.instr);
    let a = operand_before(view, first);
    let b = operand_before(view, second);
    let value = forward(&row.instr, row.from(), a, b);
    infer_some(
        inferred,
        number::RESULT,
        When::After,
        writes(&row.instr),
        value,
    );
}

/// What the row's own rules give, beside its result.
pub fn infer_others<V: RowView>(inferred: &mut Conclusions, row: &StepRow, view: &V)
    requires { HasRoomFor inferred.old 5 }
    ensures items { inferred.new.items ≡ inferred.old.items ++ others_inferred row.now.instr (turn_of row.now) (V.seen view.now) }
    ensures capacity { inferred.new.capacity ≡ inferred.old.capacity }
{
    match row.instr {
        Instr::Load { op, rd, rs1, imm } => {
            infer_load(inferred, op, rd, rs1, imm, view);
        }
        Instr::Store { op, rs1, rs2, imm } => infer_store(inferred, op, rs1, rs2, imm, view),
        Instr::Imm { .. } | Instr::Op { .. } => infer_operation(inferred, &row.instr, view),
        Instr::Branch { op, rs1, rs2, .. } => {
            infer_branch(inferred, op, rs1, rs2, turn(row), view);
        }
        Instr::Lui { .. }
        | Instr::Auipc { .. }
        | Instr::Jal { .. }
        | Instr::Jalr { .. }
        | Instr::Amo { .. }
        | Instr::Fence
        | Instr::Ecall
        | Instr::Ebreak
        | Instr::Counter { .. } => {}
    }
}

/// The loaded value, and the bytes that were loaded.
fn infer_load<V: RowView>(
    inferred: &mut Conclusions,
    op: LoadOp,
    rd: Reg,
    rs1: Reg,
    imm: i32,
    view: &V,
)
    requires { HasRoomFor inferred.old 5 }
    ensures items { inferred.new.items ≡ inferred.old.items ++ load_inferred op rd rs1 imm (V.seen view.now) }
    ensures capacity { inferred.new.capacity ≡ inferred.old.capacity }
{
    let base = view.reg(When::Before, rs1);
    infer_register(
        inferred,
        number::LOAD,
        When::After,
        rd,
        loaded(view, op, base, imm),
    );
    let value = destination_after(view, rd);
    infer_known_bytes(
        inferred,
        number::LOAD_BACK,
        When::Before,
        base,
        imm,
        value,
        load_width(op),
    );
}

/// How many bytes a load reads.
pub fn load_width(op: LoadOp) -> u32
    ensures value { result ≡ load_width op }
    ensures few { result ≤ 4 }
{
    match op {
        LoadOp::Lb | LoadOp::Lbu => 1,
        LoadOp::Lh | LoadOp::Lhu => 2,
        LoadOp::Lw => 4,
    }
}

/// The stored bytes, and the source of a stored word.
fn infer_store<V: RowView>(
    inferred: &mut Conclusions,
    op: StoreOp,
    rs1: Reg,
    rs2: Reg,
    imm: i32,
    view: &V,
)
    requires { HasRoomFor inferred.old 5 }
    ensures items { inferred.new.items ≡ inferred.old.items ++ store_inferred op rs1 rs2 imm (V.seen view.now) }
    ensures capacity { inferred.new.capacity ≡ inferred.old.capacity }
{
    let base = view.reg(When::Before, rs1);
    let source = view.reg(When::Before, rs2);
    infer_known_bytes(
        inferred,
        number::STORE,
        When::After,
        base,
        imm,
        source,
        store_width(op),
    );
    infer_store_back(inferred, op, base, rs2, imm, view);
}

fn infer_store_back<V: RowView>(
    inferred: &mut Conclusions,
    op: StoreOp,
    base: Flat,
    rs2: Reg,
    imm: i32,
    view: &V,
)
    requires { HasRoomFor inferred.old 1 }
    ensures items { inferred.new.items ≡ inferred.old.items ++ store_back_inferred op base rs2 imm (V.seen view.now) }
    ensures capacity { inferred.new.capacity ≡ inferred.old.capacity }
{
    match op {
        StoreOp::Sb | StoreOp::Sh => {}
        StoreOp::Sw => {
            let stored = word(view, When::After, base, imm);
            infer_register(inferred, number::STORE_BACK, When::Before, rs2, stored);
        }
    }
}

/// Both operands of a branch that went the way of equal ones.
fn infer_branch<V: RowView>(
    inferred: &mut Conclusions,
    op: BranchOp,
    rs1: Reg,
    rs2: Reg,
    turn: Turn,
    view: &V,
)
    requires { HasRoomFor inferred.old 2 }
    ensures items { inferred.new.items ≡ inferred.old.items ++ branch_inferred op rs1 rs2 turn (V.seen view.now) }
    ensures capacity { inferred.new.capacity ≡ inferred.old.capacity }
{
    if equates(op, turn) {
        let first = view.reg(When::Before, rs1);
        let second = view.reg(When::Before, rs2);
        infer_register(inferred, number::EQUAL, When::Before, rs2, first);
        infer_register(inferred, number::EQUAL, When::Before, rs1, second);
    }
}

/// Whether a branch that went this way had equal operands.
fn equates(op: BranchOp, turn: Turn) -> bool
    ensures { result ≡ equates op turn }
{
    match op {
        BranchOp::Beq => matches!(turn, Turn::Taken),
        BranchOp::Bne => matches!(turn, Turn::NotTaken),
        _ => false,
    }
}

/// Both operands of an operation, and a copy and its source.
fn infer_operation<V: RowView>(inferred: &mut Conclusions, instr: &Instr, view: &V)
    requires { HasRoomFor inferred.old 4 }
    ensures items { inferred.new.items ≡ inferred.old.items ++ operation_inferred instr.now (V.seen view.now) }
    ensures capacity { inferred.new.capacity ≡ inferred.old.capacity }
{
    infer_solved(inferred, instr, Side::First, view);
    infer_solved(inferred, instr, Side::Second, view);
    infer_copy(inferred, instr, view);
}

/// The operand on one side, from the result and the other operand.
fn infer_solved<V: RowView>(inferred: &mut Conclusions, instr: &Instr, side: Side, view: &V)
    requires { HasRoomFor inferred.old 1 }
    ensures items { inferred.new.items ≡ inferred.old.items ++ solved_inferred instr.now side (V.seen view.now) }
    ensures capacity { inferred.new.capacity ≡ inferred.old.capacity }
    ensures few { length inferred.new.items ≤ length inferred.old.items + 1 }
{
    let other = operand_before(view, operand_of(instr, opposite(side)));
    let value = solve_known(instr, side, result_after(view, instr), other);
    match solving_rule(instr) {
        None => {}
        Some(rule) => infer_some(inferred, rule, When::Before, operand_of(instr, side), value),
    }
}

fn solve_known(instr: &Instr, side: Side, v: Flat, other: Flat) -> Flat
    ensures { result ≡ solve_known instr.now side v other }
{
    match v {
        Flat::Unknown => Flat::Unknown,
        Flat::Known(value) => solve(instr, side, value, other),
    }
}

/// The number of the rule by which an operand follows from the result.
fn solving_rule(instr: &Instr) -> Option<u8>
    ensures { result ≡ solving_rule instr.now }
{
    match *instr {
        Instr::Imm { op, .. } => operation_rule(register_form(op)),
        Instr::Op { op, .. } => operation_rule(op),
        _ => None,
    }
}

fn operation_rule(op: RegOp) -> Option<u8>
    ensures { result ≡ operation_rule op }
{
    match op {
        RegOp::Add => Some(number::ADD),
        RegOp::Sub => Some(number::SUB),
        RegOp::Xor => Some(number::XOR),
        RegOp::Mul => Some(number::MUL),
        _ => None,
    }
}

/// A copy from its source, and the source from the copy.
fn infer_copy<V: RowView>(inferred: &mut Conclusions, instr: &Instr, view: &V)
    requires { HasRoomFor inferred.old 2 }
    ensures items { inferred.new.items ≡ inferred.old.items ++ copy_inferred instr.now (V.seen view.now) }
    ensures capacity { inferred.new.capacity ≡ inferred.old.capacity }
{
    match writes(instr) {
        None => {}
        Some(rd) => match copied(instr) {
            None => {}
            Some(source) => infer_both(inferred, rd, source, view),
        },
    }
}

fn infer_both<V: RowView>(inferred: &mut Conclusions, rd: Reg, source: Reg, view: &V)
    requires { HasRoomFor inferred.old 2 }
    ensures items { inferred.new.items ≡ inferred.old.items ++ both_inferred rd source (V.seen view.now) }
    ensures capacity { inferred.new.capacity ≡ inferred.old.capacity }
{
    let before = view.reg(When::Before, source);
    let after = view.reg(When::After, rd);
    infer_register(inferred, number::COPY, When::After, rd, before);
    infer_register(inferred, number::COPY, When::Before, source, after);
}
