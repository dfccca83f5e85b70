//! The trace of a log.

ghost use Rattle.std.specs.Prelude.{◌<◌, ◌≤◌, ◌+◌, ◌-◌, ◌^◌, ◌∷◌, [], length, IfOk, IfErr};
ghost use Rattle.std.specs.List.{All};
ghost use Rattle.rept_encode.specs.Walkable.{IsWalkable, IsFirstJumpEnd, AreStraight};
ghost use Rattle.rept_encode.specs.Weaving.Woven.{IsAtPlace, IsWoven};
ghost use Rattle.rept_simlog.specs.Program.{program_of};
ghost use Rattle.rept_simlog.specs.Hartlog.Log.{AreLines};
ghost use Rattle.rept_simlog.specs.Hartlog.Recorded.{IsTraceFault, RecordsSeveralHarts, IsNotRecorded, IsRecordedSeveralHarts, IsRefusedSeveralHarts};
ghost use Rattle.rept_simlog.specs.Hartlog.Stretches.{IsJumpEndAt};

use crate::hartlog::log::HartLogLine;
use crate::hartlog::refusal::{HartLogRefusal, refusal_of};
use crate::hartlog::threads::stretches_of;
use crate::{LoggedProgram, last_entries, read_log};
use rept_encode::{Hart, HartPlace, Harts, WeaveFault, weave};
use rept_word::Text;
use std::alloc::Global;

/// The line of the step that ends a jump.
fn line_of(harts: &Harts, place: HartPlace) -> u32
    requires there { IsAtPlace harts.now place IsFirstJumpEnd }
    requires short { All (All (λ s. s.begin + length s.steps ≤ 2 ^ 32)) harts.now }
    ensures { IsJumpEndAt harts.now place result }
{
    let all = harts.all();
    let stretches = all[place.hart].all();
    let begin = stretches[place.stretch].begin;
    (begin + place.step as u64) as u32
}

/// The trace of one stream of these stretches.
fn trace_of(alloc: Global, halves: bool, stretches: Hart) -> Result<Text, HartLogRefusal>
    requires walkable { All (λ s. IsWalkable halves s.steps) stretches }
    requires straight { All (λ s. AreStraight s.steps (length s.steps - 1)) stretches }
    requires short { All (λ s. s.begin + length s.steps ≤ 2 ^ 32) stretches }
    ensures ok { IfOk result (λ trace. IsWoven halves (stretches ∷ []) trace) }
    ensures err { IfErr result (λ refusal. IsTraceFault halves stretches refusal) }
{
    let mut harts = Harts::new(alloc);
    if let Err(_) = harts.push(stretches) {
        return Err(HartLogRefusal::OutOfMemory);
    }
    match weave(alloc, halves, &harts) {
        Ok(trace) => Ok(trace),
        Err(fault) => match fault {
            WeaveFault::JumpEnds(place) => Err(HartLogRefusal::JumpEnds(line_of(&harts, place))),
            WeaveFault::TooLong(_) => Err(HartLogRefusal::TooLong),
            WeaveFault::OutOfMemory => Err(HartLogRefusal::OutOfMemory),
            WeaveFault::InnerCall(_) => unreachable!(),
            WeaveFault::HartCount => unreachable!(),
        },
    }
}

/// The trace of the steps of entries.
fn record_entries(
    alloc: Global,
    program: &LoggedProgram<'_>,
    entries: &[HartLogLine],
) -> Result<Text, HartLogRefusal>
    requires few { length entries.now ≤ 65537 }
    requires lines { AreLines entries.now }
    ensures ok { IfOk result (λ trace. RecordsSeveralHarts (program_of program.now) entries.now trace) }
    ensures err { IfErr result (λ refusal. IsNotRecorded (program_of program.now) entries.now refusal) }
{
    let stretches = match stretches_of(alloc, program, entries) {
        Ok(stretches) => stretches,
        Err(refusal) => return Err(refusal),
    };
    if stretches.all().is_empty() {
        return Err(HartLogRefusal::NoSteps);
    }
    trace_of(alloc, program.halves, stretches)
}

/// The trace of the last 65,537 lines of a log over an executable. A line gives a hart, the number
/// of a thread's process, and the address that was executed; lines stand in the order of execution,
/// and the last one of each thread is where it stopped. All lines go into one stream, since the log
/// has them in one order: a slice has the steps of lines that follow one another and are of one
/// hart and one thread, up to a call, and its times are the numbers of its first and its last line.
/// Code may be compressed where bit 0 of the executable's `e_flags` says so (`EF_RISCV_RVC`). A
/// refusal names the first line that isn't three numbers, at which no instruction can have run, or
/// from which the code can't go on; or a line that is a call after an uninferable jump; or no
/// thread has two lines, or the packets take 2^32 bytes; or it is a want of memory.
pub fn record(alloc: Global, exe: &[u8], log: &[u8]) -> Result<Text, HartLogRefusal>
    requires { length log.now < 2 ^ 32 }
    ensures ok { IfOk result (λ trace. IsRecordedSeveralHarts exe.now log.now trace) }
    ensures err { IfErr result (λ refusal. IsRefusedSeveralHarts exe.now log.now refusal) }
{
    let log = match read_log::<HartLogLine>(alloc, exe, log) {
        Ok(log) => log,
        Err(fault) => return Err(refusal_of(fault)),
    };
    record_entries(alloc, &log.program, last_entries(log.entries.as_slice()))
}
