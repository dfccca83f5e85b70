//! The result of an instruction, from what is known of its operands.

ghost use Rattle.std.specs.Prelude.{◌≡◌, ℕ, Some};
ghost use Rattle.rept_isa.specs.Operands.{written_by, first_read, second_read};
ghost use Rattle.rept_machine.specs.State.{State, IsState};
ghost use Rattle.rept_machine.specs.Step.{HasEffect};
ghost use Rattle.rept_rules.specs.Results.{operand, absorbs, cancels, absorbed, result_of, registers_result, forward_of, Admits, HoldsIn};

use rept_isa::number::{following, word};
use rept_isa::{Instr, Reg, RegOp};
use rept_machine::arithmetic::{computed, register_form};
use rept_partial::Flat;

/// What the instruction that is followed four bytes from `from` puts into its destination, from
/// what is known of the registers in the places of rs1 and rs2; x0 is 0, and an operand that the
/// form doesn't have isn't looked at. LUI, AUIPC, JAL and JALR always give their value, the
/// operations on registers and immediates where their operands are known, or where one of them
/// decides. Unknown for all else.
pub fn forward(instr: &Instr, from: u32, a: Flat, b: Flat) -> Flat
    ensures value { result ≡ forward_of instr.now from a b }
    ensures sound { (image_end at next rd : ℕ) (s t : State) → IsState s → HasEffect instr.now image_end (record { at = at; from = from; next = next }) s t → HoldsIn s (first_read instr.now) a → HoldsIn s (second_read instr.now) b → written_by instr.now ≡ Some rd → Admits result (t.register rd) }
{
    match *instr {
        Instr::Lui { imm, .. } => Flat::Known(imm),
        Instr::Auipc { imm, .. } => Flat::Known(from.wrapping_add(imm)),
        Instr::Jal { .. } | Instr::Jalr { .. } => Flat::Known(following(from)),
        Instr::Imm { op, rs1, imm, .. } => {
            of_two(register_form(op), operand(rs1, a), Flat::Known(word(imm)))
        }
        Instr::Op { op, rs1, rs2, .. } => of_registers(op, rs1, rs2, a, b),
        Instr::Branch { .. }
        | Instr::Load { .. }
        | Instr::Store { .. }
        | Instr::Amo { .. }
        | Instr::Fence
        | Instr::Ecall
        | Instr::Ebreak
        | Instr::Counter { .. } => Flat::Unknown,
    }
}

fn of_registers(op: RegOp, rs1: Reg, rs2: Reg, a: Flat, b: Flat) -> Flat
    ensures { result ≡ registers_result op rs1 rs2 a b }
{
    if cancels(op, rs1, rs2) {
        Flat::Known(0)
    } else {
        of_two(op, operand(rs1, a), operand(rs2, b))
    }
}

/// What is known of the register in an operand's place.
pub(crate) fn operand(r: Reg, given: Flat) -> Flat
    ensures { result ≡ operand r given }
{
    if r.number() == 0 {
        Flat::Known(0)
    } else {
        given
    }
}

/// Whether the operation gives 0 because it has one register twice.
pub(crate) fn cancels(op: RegOp, rs1: Reg, rs2: Reg) -> bool
    ensures { result ≡ cancels op rs1 rs2 }
{
    match op {
        RegOp::Sub | RegOp::Xor => rs1.number() == rs2.number(),
        _ => false,
    }
}

fn of_two(op: RegOp, a: Flat, b: Flat) -> Flat
    ensures { result ≡ result_of op a b }
{
    match a {
        Flat::Known(first) => match b {
            Flat::Known(second) => Flat::Known(computed(op, first, second)),
            Flat::Unknown => absorbed(op, first),
        },
        Flat::Unknown => match b {
            Flat::Known(second) => absorbed(op, second),
            Flat::Unknown => Flat::Unknown,
        },
    }
}

fn absorbed(op: RegOp, a: u32) -> Flat
    ensures { result ≡ absorbed op a }
{
    if absorbs(op, a) {
        Flat::Known(a)
    } else {
        Flat::Unknown
    }
}

/// Whether the operand decides the result whatever the other one is.
pub(crate) fn absorbs(op: RegOp, a: u32) -> bool
    ensures { result ≡ absorbs op a }
{
    match op {
        RegOp::And | RegOp::Mul => a == 0,
        RegOp::Or => a == u32::MAX,
        _ => false,
    }
}
