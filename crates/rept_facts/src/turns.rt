//! Whether a row went another way than its operands say.

ghost use Rattle.std.specs.Prelude.{◌≡◌};
ghost use Rattle.rept_report.specs.Conflicts.{is_against, branch_against, jump_against, is_wrong_turn};

use rept_isa::number::plus;
use rept_isa::{BranchOp, Instr, StepRow, Turn, turn};
use rept_machine::arithmetic::branch_holds;
use rept_partial::Flat;

/// Whether the row went another way than the registers in the places of rs1 and rs2 say, as far as
/// they are known.
pub fn is_wrong_turn(row: &StepRow, first: Flat, second: Flat) -> bool
    ensures { result ≡ is_wrong_turn row.now first second }
{
    match row.instr {
        Instr::Branch { op, .. } => branch_against(op, turn(row), first, second),
        Instr::Jalr { imm, .. } => jump_against(imm, row.next, first),
        Instr::Lui { .. }
        | Instr::Auipc { .. }
        | Instr::Jal { .. }
        | Instr::Load { .. }
        | Instr::Store { .. }
        | Instr::Imm { .. }
        | Instr::Op { .. }
        | Instr::Amo { .. }
        | Instr::Fence
        | Instr::Ecall
        | Instr::Ebreak
        | Instr::Counter { .. } => false,
    }
}

fn branch_against(op: BranchOp, turn: Turn, first: Flat, second: Flat) -> bool
    ensures { result ≡ branch_against op turn first second }
{
    match (first, second) {
        (Flat::Known(a), Flat::Known(b)) => is_against(turn, branch_holds(op, a, b)),
        (Flat::Known(_), Flat::Unknown) | (Flat::Unknown, _) => false,
    }
}

fn is_against(turn: Turn, holds: bool) -> bool
    ensures { result ≡ is_against turn holds }
{
    match turn {
        Turn::Taken => !holds,
        Turn::NotTaken => holds,
        Turn::Either | Turn::NoBranch => false,
    }
}

fn jump_against(imm: i32, next: u32, base: Flat) -> bool
    ensures { result ≡ jump_against imm next base }
{
    match base {
        Flat::Known(base) => next != plus(base, imm) / 2 * 2,
        Flat::Unknown => false,
    }
}
