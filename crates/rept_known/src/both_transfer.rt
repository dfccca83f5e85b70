//! Ranges and known bits together as sets that instructions change.

ghost use Rattle.std.specs.Prelude.{◌≡◌};
ghost use Rattle.rept_known.specs.BothMoves.{or_all, both_common, first_common};

use crate::bits::Bits;
use crate::both::Both;
use crate::reduce::{common, whole};
use rept_isa::{Instr, StepRow};
use rept_partial::{Partial, Range};
use rept_span::Transfer;

impl Transfer for Both {
    ghost use Rattle.rept_known.specs.BothMoves.{both_moves, both_covers};

    ghost moves = { both_moves };

    ghost covers = { both_covers };

    fn apply(instr: &Instr, from: u32, a: Both, b: Both) -> Both {
        let range = Range::apply(instr, from, a.range(), b.range());
        let bits = Bits::apply(instr, from, a.bits(), b.bits());
        or_all(common(range, bits))
    }

    fn narrow(row: &StepRow, a: Both, b: Both) -> Option<(Both, Both)> {
        match row.instr {
            Instr::Branch { .. } => both_common(
                Range::narrow(row, a.range(), b.range()),
                Bits::narrow(row, a.bits(), b.bits()),
            ),
            Instr::Jalr { .. } => first_common(Range::narrow(row, a.range(), b.range()), a, b),
            Instr::Lui { .. }
            | Instr::Auipc { .. }
            | Instr::Jal { .. }
            | Instr::Load { .. }
            | Instr::Store { .. }
            | Instr::Imm { .. }
            | Instr::Op { .. }
            | Instr::Amo { .. }
            | Instr::Fence
            | Instr::Ecall
            | Instr::Ebreak
            | Instr::Counter { .. } => Some((a, b)),
        }
    }

    fn is_same(self, other: Both) -> bool {
        self == other
    }

    fn note(self) -> Option<(u32, u32)> {
        self.bits().note()
    }
}

/// The set, or all words. The parts of what an instruction gives always have a common word.
fn or_all(set: Option<Both>) -> Both
    ensures { result ≡ or_all set }
{
    match set {
        None => whole(Bits::unknown()),
        Some(set) => set,
    }
}

/// What both parts of the operands leave, if they leave a common word of each.
fn both_common(ranges: Option<(Range, Range)>, bits: Option<(Bits, Bits)>) -> Option<(Both, Both)>
    ensures { result ≡ both_common ranges bits }
{
    let (r, s) = match ranges {
        None => return None,
        Some(pair) => pair,
    };
    let (b, c) = match bits {
        None => return None,
        Some(pair) => pair,
    };
    match common(r, b) {
        None => None,
        Some(first) => match common(s, c) {
            None => None,
            Some(second) => Some((first, second)),
        },
    }
}

/// What a range leaves of the first operand.
fn first_common(ranges: Option<(Range, Range)>, a: Both, b: Both) -> Option<(Both, Both)>
    ensures { result ≡ first_common ranges a b }
{
    match ranges {
        None => None,
        Some((range, _)) => match common(range, a.bits()) {
            None => None,
            Some(first) => Some((first, b)),
        },
    }
}
