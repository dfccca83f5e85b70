//! What is asked of a row's instruction.

ghost use Rattle.std.specs.Prelude.{◌≡◌};
ghost use Rattle.rept_isa.specs.Numbers.{plus};
ghost use Rattle.rept_reason.specs.View.Rules.{offset_of};

use rept_isa::Instr;
use rept_isa::number::plus;
use rept_reason::offset_of;

/// Whether it is a store or an atomic instruction, which may write the bytes that it names. It only
/// saves work: no clause rests on it.
pub fn is_store(instr: &Instr) -> bool {
    matches!(*instr, Instr::Store { .. } | Instr::Amo { .. })
}

/// The address at which its bytes begin, from the value of the register in the place of rs1.
pub fn address(base: u32, instr: &Instr) -> u32
    ensures { result ≡ plus base (offset_of instr.now) }
{
    plus(base, offset_of(instr))
}
