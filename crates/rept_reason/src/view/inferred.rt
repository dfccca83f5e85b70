//! What the rules of a row conclude, and what a conclusion rests on.

ghost use Rattle.std.specs.Prelude.{◌≡◌};

use crate::Cell;
use rept_isa::Reg;
use std::default::Default;

/// Before a row, or after it: of a register at the point there, of a byte at the moment there.
#[derive(Clone, Copy, PartialEq, Eq, Debug)]
pub enum When {
    /// of row i at point i, or at the moment before it
    Before,
    /// of row i at point i + 1, or at the moment after it
    After,
}

impl Default for When {
    fn default() -> When {
        When::Before
    }
}

/// A conclusion of a row: a register or a byte has a value before or after it.
#[derive(Clone, Copy, Default, PartialEq, Eq, Debug)]
pub struct Conclusion {
    /// the number of the rule that it comes by
    pub rule: u8,
    /// before or after the row
    pub when: When,
    /// the register or byte
    pub cell: Cell,
    /// the value: a word of a register, or a byte
    pub value: u32,
    /// of a byte, which of the row's places for bytes it takes; 0 for a register
    pub slot: u32,
}

/// A register or byte before or after a row that a conclusion rests on.
#[derive(Clone, Copy, Default, PartialEq, Eq, Debug)]
pub struct Premise {
    /// before or after the row
    pub when: When,
    /// the register or byte
    pub cell: Cell,
}

/// A register before or after a row.
#[derive(Clone, Copy)]
pub struct RegisterAt {
    /// before or after the row
    pub when: When,
    /// the register
    pub register: Reg,
}

impl Default for RegisterAt {
    fn default() -> RegisterAt
        ensures register { result.register ≡ 0 }
    {
        RegisterAt {
            when: When::Before,
            register: Reg::new(0).unwrap(),
        }
    }
}
