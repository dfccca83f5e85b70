//! Where a row's bytes begin.

ghost use Rattle.std.specs.Prelude.{◌≡◌};
ghost use Rattle.rept_reason.specs.View.Rules.{offset_of};

use rept_isa::Instr;

/// The offset from the register in the place of rs1 at which an instruction's bytes begin. 0 where
/// its form has none.
pub fn offset_of(instr: &Instr) -> i32
    ensures { result ≡ offset_of instr.now }
{
    match *instr {
        Instr::Load { imm, .. } | Instr::Store { imm, .. } => imm,
        _ => 0,
    }
}
