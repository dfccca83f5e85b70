//! Why a conclusion wasn't learnt.

use rept_reason::Cell;

/// Why a conclusion wasn't learnt.
#[derive(Clone, Copy)]
pub enum LearnError {
    /// Another value is known.
    Clash {
        /// the point
        point: u32,
        /// the register or byte
        cell: Cell,
        /// the value that is known
        known: u32,
        /// the value that follows too
        value: u32,
    },
    /// Memory ran out.
    OutOfMemory,
}
