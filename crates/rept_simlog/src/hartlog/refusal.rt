//! Why a log of several harts isn't recorded.

ghost use Rattle.std.specs.Prelude.{ℕ, List};
ghost use Rattle.rept_simlog.specs.Lines.{IsLogFault};
ghost use Rattle.rept_simlog.specs.Hartlog.Log.{IsHartEntry};
ghost use Rattle.rept_simlog.specs.Hartlog.Recorded.{IsRefusedSeveralHarts};

use crate::LogFault;
use rept_elf::ElfFault;
use rept_path::PathFault;
use thiserror::Error;

/// Why a log of several harts isn't recorded. Lines are numbered from 1.
#[derive(Clone, Copy, Debug, Error)]
pub enum HartLogRefusal {
    /// The executable is refused.
    #[error("executable: {0}")]
    Executable(ElfFault),
    /// The line of this number isn't three numbers below 2^32 with one space between each two: a
    /// hart, a thread and an address.
    #[error("line {0}: no hart, thread and address")]
    NoNumbers(u32),
    /// No instruction can have run at the address of the line of this number.
    #[error("line {0}: {1}")]
    NoInstruction(u32, PathFault),
    /// The thread of the line of this number can't have gone on from its address to that of its
    /// next line.
    #[error("line {0}: the code can't go on from here")]
    NoStep(u32),
    /// The line of this number is a call that directly follows an uninferable jump.
    #[error("line {0}: a call directly follows an uninferable jump")]
    JumpEnds(u32),
    /// No thread has two lines.
    #[error("no step is logged")]
    NoSteps,
    /// The packets of the trace take 2^32 bytes or more.
    #[error("the trace is too long")]
    TooLong,
    /// No memory was left.
    #[error("out of memory")]
    OutOfMemory,
}

/// The refusal of a log that isn't read.
pub(crate) fn refusal_of(fault: LogFault) -> HartLogRefusal
    ensures { (exe log : List ℕ) → IsLogFault IsHartEntry exe log fault → IsRefusedSeveralHarts exe log result }
{
    match fault {
        LogFault::Executable(fault) => HartLogRefusal::Executable(fault),
        LogFault::NoEntry(line) => HartLogRefusal::NoNumbers(line),
        LogFault::OutOfMemory => HartLogRefusal::OutOfMemory,
    }
}
