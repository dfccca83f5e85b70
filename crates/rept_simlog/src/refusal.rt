//! Why a log isn't recorded.

use rept_elf::ElfFault;
use rept_path::PathFault;
use thiserror::Error;

/// Why a log isn't recorded. Lines are numbered from 1.
#[derive(Clone, Copy, Debug, Error)]
pub enum SimLogRefusal {
    /// The executable is refused.
    #[error("executable: {0}")]
    Executable(ElfFault),
    /// The line of this number isn't an address: decimal digits, or `0x` and hexadecimal ones,
    /// below 2^32.
    #[error("line {0}: no number")]
    NoNumber(u32),
    /// No instruction can have run at the address of the line of this number.
    #[error("line {0}: {1}")]
    NoInstruction(u32, PathFault),
    /// The code can't have come to the address of the line of this number from that of the line
    /// before it.
    #[error("line {0}: the code can't have come here")]
    NoStep(u32),
    /// The line of this number is a call that directly follows an uninferable jump.
    #[error("line {0}: a call directly follows an uninferable jump")]
    JumpEnds(u32),
    /// The log has fewer than two lines.
    #[error("no step is logged")]
    NoSteps,
    /// No memory was left.
    #[error("out of memory")]
    OutOfMemory,
}
