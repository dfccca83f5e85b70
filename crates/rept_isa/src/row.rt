//! One executed step.

ghost use Rattle.std.specs.Prelude.{◌≡◌};
ghost use Rattle.rept_isa.specs.Rows.{from_at};

use crate::instr::Instr;

/// One executed step: the address of its instruction, the instruction, and the address of the next
/// step. `call` is true exactly for ECALL; `short` is true where the instruction is the expansion
/// of a compressed one, which takes two bytes.
#[derive(Clone, Copy)]
pub struct StepRow {
    pub at: u32,
    pub instr: Instr,
    pub next: u32,
    pub call: bool,
    pub short: bool,
}

impl StepRow {
    ghost use Rattle.rept_isa.specs.Rows.{from_of};

    /// The address four bytes before the instruction that follows, modulo 2^32: its own, or two
    /// bytes before it where it is short. Links and AUIPC are reckoned from here, and targets of
    /// jumps and branches from `at`.
    pub fn from(&self) -> u32
        ensures { result ≡ from_of self.now }
    {
        from_address(self.at, self.short)
    }
}

/// The address four bytes before the instruction that follows the one at `at`, modulo 2^32: `at`,
/// or two bytes before it where that one is short.
pub fn from_address(at: u32, short: bool) -> u32
    ensures { result ≡ from_at at short }
{
    if short { at.wrapping_sub(2) } else { at }
}
