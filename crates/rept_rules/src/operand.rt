//! An operand, from the result of an instruction and the other operand.

ghost use Rattle.std.specs.Prelude.{◌≡◌, ◌%◌, ℕ, Some};
ghost use Rattle.rept_isa.specs.Operands.{written_by};
ghost use Rattle.rept_isa.specs.Rows.{Addresses};
ghost use Rattle.rept_machine.specs.State.{State, IsState};
ghost use Rattle.rept_machine.specs.Step.{HasEffect};
ghost use Rattle.rept_rules.specs.Results.{HoldsIn};
ghost use Rattle.rept_rules.specs.Inverse.{inverse};
ghost use Rattle.rept_rules.specs.Operands.{solved, solved_by, is_neutral, copied_register, on, opposite, if_copied, immediate_solved, registers_solved, copied, solve_of, operand_of};

use crate::outcome::operand;
use rept_isa::number::word;
use rept_isa::{ImmOp, Instr, Reg, RegOp, reads};
use rept_machine::arithmetic::register_form;
use rept_partial::Flat;
use rept_word::number::inverse_odd;

/// Which operand of an operation.
#[derive(Clone, Copy, PartialEq, Eq, Debug)]
pub enum Side {
    /// the register in the place of rs1
    First,
    /// the register in the place of rs2
    Second,
}

/// The operand on the side `which` of the instruction, where its result is `v`, from what is known
/// of the operand on the other side; x0 is 0. Known only where no other operand gives this result:
/// for ADD, SUB and XOR with a known other operand or an immediate, for MUL with a known odd one,
/// and where the result is a copy of the operand. Unknown for all else.
pub fn solve(instr: &Instr, which: Side, v: u32, other: Flat) -> Flat
    ensures value { result ≡ solve_of instr.now which v other }
    ensures sound { (image_end rd r w : ℕ) (place : Addresses) (s t : State) → IsState s → HasEffect instr.now image_end place s t → written_by instr.now ≡ Some rd → t.register rd ≡ v → operand_of instr.now which ≡ Some r → HoldsIn s (operand_of instr.now (opposite which)) other → result ≡ Flat.Known w → s.register r ≡ w }
{
    match *instr {
        Instr::Imm { op, imm, .. } => match which {
            Side::First => of_immediate(op, imm, v),
            Side::Second => Flat::Unknown,
        },
        Instr::Op { op, rs1, rs2, .. } => of_registers(op, which, rs1, rs2, v, other),
        Instr::Lui { .. }
        | Instr::Auipc { .. }
        | Instr::Jal { .. }
        | Instr::Jalr { .. }
        | Instr::Branch { .. }
        | Instr::Load { .. }
        | Instr::Store { .. }
        | Instr::Amo { .. }
        | Instr::Fence
        | Instr::Ecall
        | Instr::Ebreak
        | Instr::Counter { .. } => Flat::Unknown,
    }
}

fn of_immediate(op: ImmOp, imm: i32, v: u32) -> Flat
    ensures { result ≡ immediate_solved op imm v }
{
    if is_neutral(op, imm) {
        Flat::Known(v)
    } else {
        solved(register_form(op), Side::First, v, word(imm))
    }
}

/// Whether the operation with this immediate leaves its operand as it is.
pub(crate) fn is_neutral(op: ImmOp, imm: i32) -> bool
    ensures { result ≡ is_neutral op imm }
{
    match op {
        ImmOp::Slli | ImmOp::Srli | ImmOp::Srai | ImmOp::Ori => word(imm) == 0,
        ImmOp::Andi => word(imm) == u32::MAX,
        _ => false,
    }
}

fn of_registers(op: RegOp, which: Side, rs1: Reg, rs2: Reg, v: u32, other: Flat) -> Flat
    ensures { result ≡ registers_solved op which rs1 rs2 v other }
{
    match copied_register(op, rs1, rs2) {
        Some(source) => {
            if source.number() == on(which, rs1, rs2).number() {
                Flat::Known(v)
            } else {
                solved_by(op, which, v, operand(on(opposite(which), rs1, rs2), other))
            }
        }
        None => solved_by(op, which, v, operand(on(opposite(which), rs1, rs2), other)),
    }
}

/// The register of which the operation's result is a copy.
pub(crate) fn copied_register(op: RegOp, rs1: Reg, rs2: Reg) -> Option<Reg>
    ensures { result ≡ copied_register op rs1 rs2 }
{
    match op {
        RegOp::Or => {
            if rs1.number() == rs2.number() {
                Some(rs1)
            } else if rs1.number() == 0 {
                Some(rs2)
            } else if rs2.number() == 0 {
                Some(rs1)
            } else {
                None
            }
        }
        RegOp::And => {
            if rs1.number() == rs2.number() {
                Some(rs1)
            } else {
                None
            }
        }
        _ => None,
    }
}

/// The register on one side of an operation.
fn on(which: Side, rs1: Reg, rs2: Reg) -> Reg
    ensures { result ≡ on which rs1 rs2 }
{
    match which {
        Side::First => rs1,
        Side::Second => rs2,
    }
}

pub(crate) fn opposite(which: Side) -> Side
    ensures { result ≡ opposite which }
{
    match which {
        Side::First => Side::Second,
        Side::Second => Side::First,
    }
}

/// The register on one side of the instruction, if its form has one there.
pub(crate) fn operand_of(instr: &Instr, which: Side) -> Option<Reg>
    ensures { result ≡ operand_of instr.now which }
{
    let (first, second) = reads(instr);
    match which {
        Side::First => first,
        Side::Second => second,
    }
}

/// The register of which the instruction's result is a copy.
pub(crate) fn copied(instr: &Instr) -> Option<Reg>
    ensures { result ≡ copied instr.now }
{
    match *instr {
        Instr::Imm { op, rs1, imm, .. } => { if is_neutral(op, imm) { Some(rs1) } else { None } }
        Instr::Op { op, rs1, rs2, .. } => copied_register(op, rs1, rs2),
        _ => None,
    }
}

fn solved_by(op: RegOp, which: Side, v: u32, other: Flat) -> Flat
    ensures { result ≡ solved_by op which v other }
{
    match other {
        Flat::Unknown => Flat::Unknown,
        Flat::Known(o) => solved(op, which, v, o),
    }
}

fn solved(op: RegOp, which: Side, v: u32, o: u32) -> Flat
    ensures { result ≡ solved op which v o }
{
    match op {
        RegOp::Add => Flat::Known(v.wrapping_sub(o)),
        RegOp::Sub => match which {
            Side::First => Flat::Known(v.wrapping_add(o)),
            Side::Second => Flat::Known(o.wrapping_sub(v)),
        },
        RegOp::Xor => Flat::Known(v ^ o),
        RegOp::Mul => {
            if o % 2 == 1 {
                Flat::Known(v.wrapping_mul(inverse(o)))
            } else {
                Flat::Unknown
            }
        }
        _ => Flat::Unknown,
    }
}

/// The number by which an odd one is multiplied to give 1 modulo 2^32.
fn inverse(o: u32) -> u32
    requires { o % 2 ≡ 1 }
    ensures { result ≡ inverse o }
{
    inverse_odd(o)
}
