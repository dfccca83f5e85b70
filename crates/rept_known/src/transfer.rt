//! Known bits as sets that instructions change.

ghost use Rattle.std.specs.Prelude.{◌≡◌};
ghost use Rattle.rept_known.specs.Operations.{left_bits, with_both, tells_equal};

use crate::bits::Bits;
use crate::operation::{all_known, all_open, loaded_bits, operation_bits};
use rept_isa::number::{following, word};
use rept_isa::{BranchOp, Instr, StepRow, Turn, turn};
use rept_machine::arithmetic::register_form;
use rept_partial::Partial;
use rept_span::Transfer;

impl Transfer for Bits {
    ghost use Rattle.rept_known.specs.BitsMoves.{bits_moves, bits_covers};

    ghost moves = { bits_moves };

    ghost covers = { bits_covers };

    fn apply(instr: &Instr, from: u32, a: Bits, b: Bits) -> Bits {
        match *instr {
            Instr::Lui { imm, .. } => all_known(imm),
            Instr::Auipc { imm, .. } => all_known(from.wrapping_add(imm)),
            Instr::Jal { .. } | Instr::Jalr { .. } => all_known(following(from)),
            Instr::Load { op, .. } => loaded_bits(op),
            Instr::Imm { op, imm, .. } => operation_bits(
                register_form(op),
                a,
                all_known(word(imm)),
            ),
            Instr::Op { op, .. } => operation_bits(op, a, b),
            Instr::Branch { .. }
            | Instr::Store { .. }
            | Instr::Amo { .. }
            | Instr::Fence
            | Instr::Ecall
            | Instr::Ebreak
            | Instr::Counter { .. } => all_open(),
        }
    }

    fn narrow(row: &StepRow, a: Bits, b: Bits) -> Option<(Bits, Bits)> {
        match row.instr {
            Instr::Branch { op, .. } => {
                if tells_equal(op, turn(row)) {
                    with_both(a.meet(b))
                } else {
                    Some((a, b))
                }
            }
            Instr::Lui { .. }
            | Instr::Auipc { .. }
            | Instr::Jal { .. }
            | Instr::Jalr { .. }
            | Instr::Load { .. }
            | Instr::Store { .. }
            | Instr::Imm { .. }
            | Instr::Op { .. }
            | Instr::Amo { .. }
            | Instr::Fence
            | Instr::Ecall
            | Instr::Ebreak
            | Instr::Counter { .. } => Some((a, b)),
        }
    }

    fn is_same(self, other: Bits) -> bool {
        self == other
    }

    fn note(self) -> Option<(u32, u32)> {
        Some((!self.loose(), self.value()))
    }
}

/// Whether the way of a branch tells that its operands are equal.
fn tells_equal(op: BranchOp, turn: Turn) -> bool
    ensures { result ≡ tells_equal op turn }
{
    match turn {
        Turn::Taken => matches!(op, BranchOp::Beq),
        Turn::NotTaken => matches!(op, BranchOp::Bne),
        Turn::Either | Turn::NoBranch => false,
    }
}

fn with_both(common: Option<Bits>) -> Option<(Bits, Bits)>
    ensures { result ≡ with_both common }
{
    common.map(|bits| (bits, bits))
}
