//! Questions that leave the cursor where it is and want no reason.

use rept_isa::Reg;

/// What a line asks of the path, and of what is known at its points.
#[derive(Clone, Copy, Debug)]
pub enum Question {
    /// `at`: tells the step at the cursor, with the values of its registers.
    At,
    /// `around K`: tells so many steps to each side as well, 3 where no number is given.
    Around(u32),
    /// `visits A`: tells at which points the path is at an address.
    Visits(u32),
    /// `find R V`: tells at which points a register is known to have a value.
    Find {
        /// the register
        register: Reg,
        /// its value
        value: u32,
    },
    /// `reg pc`: tells the address at the cursor.
    Pc,
    /// `list`: tells the last 16 steps before the cursor.
    Recent,
    /// `from R`: tells where the value of a register came from.
    FromRegister(Reg),
    /// `from A`: tells where the byte at an address came from.
    FromByte(u32),
    /// `writers A LEN`: tells the steps that wrote one of these bytes, or may have, by instruction;
    /// one byte where no number is given.
    Writers {
        /// the address of the first byte
        address: u32,
        /// how many bytes, 1 to 256
        count: u32,
    },
    /// `premises`: tells what was taken for granted beyond what a report takes.
    Premises,
    /// `calls K`: tells the last calls before the cursor, so many at most, 16 where no number is
    /// given.
    Calls(u32),
    /// `lost R`: tells what keeps the value of a register from being known.
    LostRegister(Reg),
    /// `lost A`: tells what keeps the byte at an address from being known.
    LostByte(u32),
    /// `help`: tells the commands, and what each `? N` means.
    Help,
}
