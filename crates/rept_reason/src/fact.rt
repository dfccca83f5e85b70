//! A fact: a register has a value at a point of a path, or a byte at a moment of the memory.

ghost use Rattle.std.specs.Prelude.{◌≡◌};
ghost use Rattle.rept_reason.specs.declared.fact.Cell.TheVariants.{Byte};

use rept_isa::Reg;
use std::default::Default;

/// What holds a value: a register, or the byte at an address.
#[derive(Clone, Copy, PartialEq, Eq, Debug)]
pub enum Cell {
    Register(Reg),
    Byte(u32),
}

impl Default for Cell {
    fn default() -> Cell
        ensures { result ≡ Byte 0 }
    {
        Cell::Byte(0)
    }
}

/// A cell has a value: a register at a point, a byte at a moment. Row i leads from point i to i +
/// 1; the points of all threads are numbered one after the other, and the moments of the memory
/// have numbers of their own. Of one thread in one slice, with n rows, both are the numbers 0 to n.
#[derive(Clone, Copy, Default, PartialEq, Eq, Debug)]
pub struct Fact {
    /// of a register the number of the point, of a byte that of the moment
    pub point: u32,
    /// the register or byte
    pub cell: Cell,
    /// the value: a word of a register, or a byte
    pub value: u32,
}
