//! From halves to instructions.

ghost use Rattle.std.specs.Prelude.{◌≡◌, IfSome, IfNone};
ghost use Rattle.rept_isa.specs.declared.instr.Instr.{Instr};
ghost use Rattle.rept_isa.specs.Range.{InRange};
ghost use Rattle.rept_rvc.specs.Halves.{IsHalf, quadrant, function};
ghost use Rattle.rept_rvc.specs.Reading.{read_by};

use crate::field::field;
use crate::quadrant_one::quadrant_one;
use crate::quadrant_two::quadrant_two;
use crate::quadrant_zero::quadrant_zero;
use rept_isa::Instr;

/// The instruction of RV32IM that the half stands for: the expansion of a compressed instruction
/// (unprivileged manual, chapter 16; tables 16.5 to 16.7), hints too. None exactly where the half
/// is none: its lowest two bits are 3, or it is reserved or one of floating point.
pub fn expand(half: u16) -> Option<Instr>
    ensures some { IfSome result (λ i. IsHalf half i) }
    ensures only { (i : Instr) → IsHalf half i → result ≡ Some i }
    ensures none { IfNone result ((i : Instr) → IsHalf half i → ⊥) }
    ensures in_range { IfSome result (λ i. InRange i) }
{
    by_quadrant(half)
}

fn by_quadrant(half: u16) -> Option<Instr>
    ensures { result ≡ read_by (quadrant half) (function half) half }
{
    let function = field(half, 13, 3);
    match field(half, 0, 2) {
        0 => quadrant_zero(half, function),
        1 => quadrant_one(half, function),
        2 => quadrant_two(half, function),
        _ => None,
    }
}
