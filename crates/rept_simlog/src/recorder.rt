//! The trace of a log.

ghost use Rattle.std.specs.Prelude.{◌≡◌, ◌<◌, ◌≤◌, ◌^◌, length, slice_get, Some, IfOk, IfErr};
ghost use Rattle.rept_simlog.specs.declared.entry.LogLine.{LogLine};
ghost use Rattle.rept_simlog.specs.Program.{program_of};
ghost use Rattle.rept_simlog.specs.Recorded.{IsWalkFault, IsRecordedOneHart, IsRefusedOneHart};
ghost use Rattle.rept_simlog.specs.Walk.{RecordsOneHart};

use crate::entry::LogLine;
use crate::log::{LogFault, last_entries, read_log};
use crate::program::LoggedProgram;
use crate::refusal::SimLogRefusal;
use crate::walk::steps_of;
use rept_encode::{EncodeFault, encode};
use rept_word::Text;
use std::alloc::Global;

/// The trace of the steps of entries.
fn record_entries(
    alloc: Global,
    program: &LoggedProgram<'_>,
    entries: &[LogLine],
) -> Result<Text, SimLogRefusal>
    requires { length entries.now ≤ 65537 }
    ensures ok { IfOk result (λ trace. RecordsOneHart (program_of program.now) entries.now trace) }
    ensures err { IfErr result (λ refusal. IsWalkFault (program_of program.now) entries.now refusal) }
{
    if entries.len() < 2 {
        return Err(SimLogRefusal::NoSteps);
    }
    let steps = steps_of(alloc, program, entries)?;
    match encode(alloc, program.halves, &steps) {
        Ok(trace) => Ok(trace),
        Err(fault) => match fault {
            EncodeFault::JumpEnds(i) => Err(SimLogRefusal::JumpEnds(line_of(entries, i))),
            EncodeFault::OutOfMemory => Err(SimLogRefusal::OutOfMemory),
        },
    }
}

/// The line of an entry.
fn line_of(entries: &[LogLine], i: u32) -> u32
    requires { i < length entries.now }
    ensures { (entry : LogLine) → slice_get entries.now i ≡ Some entry → entry.line ≡ result }
{
    entries[i as usize].line
}

/// The trace of the last 65,536 steps of a log over an executable. The log gives one executed
/// address a line, of which the last is where the program stopped. Code may be compressed where bit
/// 0 of the executable's `e_flags` says so (`EF_RISCV_RVC`); byte 5 of the trace is 1 then, and
/// addresses are sent with 31 bits. What is written is read back as exactly these steps, with none
/// skipped. A refusal names the first line that is no number, from which the code can't go on, to
/// which it can't come, or that is a call after an uninferable jump; or it is a want of memory and
/// no other fault.
pub fn record(alloc: Global, exe: &[u8], log: &[u8]) -> Result<Text, SimLogRefusal>
    requires { length log.now < 2 ^ 32 }
    ensures ok { IfOk result (λ trace. IsRecordedOneHart exe.now log.now trace) }
    ensures err { IfErr result (λ refusal. IsRefusedOneHart exe.now log.now refusal) }
{
    match read_log::<LogLine>(alloc, exe, log) {
        Ok(log) => record_entries(alloc, &log.program, last_entries(log.entries.as_slice())),
        Err(fault) => match fault {
            LogFault::Executable(fault) => Err(SimLogRefusal::Executable(fault)),
            LogFault::NoEntry(line) => Err(SimLogRefusal::NoNumber(line)),
            LogFault::OutOfMemory => Err(SimLogRefusal::OutOfMemory),
        },
    }
}
