//! A set of words, with a constant added to each.

ghost use Rattle.std.specs.Prelude.{◌≡◌, ℕ, true};
ghost use Rattle.rept_isa.specs.Numbers.{beside};
ghost use Rattle.rept_known.specs.Both.{both_has};

use rept_isa::{Instr, RegOp, register};
use rept_known::Both;
use rept_partial::Partial;
use rept_span::Transfer;

/// A set that has each word of `set` with `by` added to it, modulo 2^32: that which ADD makes of
/// it (RISC-V unprivileged manual 20191213, chapter 2.4).
pub fn shifted(set: Both, by: u32) -> Both
    ensures { (v : ℕ) → both_has set v ≡ true → both_has result (beside v by) ≡ true }
{
    if by == 0 {
        return set;
    }
    let add = Instr::Op {
        op: RegOp::Add,
        rd: register(3),
        rs1: register(1),
        rs2: register(2),
    };
    Both::apply(&add, 0, set, Both::exact(by))
}
