//! The stretches that a log's lines make.

ghost use Rattle.std.specs.Prelude.{◌≡◌, ◌≤◌, ◌<◌, ◌+◌, ◌^◌, ◌↔◌, ℕ, length, slice_get, Some, IsTrue, IfOk, IfErr, OnOk};
ghost use Rattle.std.specs.List.{All};
ghost use Rattle.rept_isa.specs.declared.row.StepRow.{StepRow as Row};
ghost use Rattle.rept_steps.specs.Linked.{EndBefore};
ghost use Rattle.rept_encode.specs.Walkable.{IsStepped, IsWalkable};
ghost use Rattle.rept_simlog.specs.Program.{program_of};
ghost use Rattle.rept_simlog.specs.Hartlog.Log.{AreLines};
ghost use Rattle.rept_simlog.specs.Hartlog.Steps.{AddsLoggedRow, next_address};
ghost use Rattle.rept_simlog.specs.Hartlog.Stretches.{AreStretchesOf, IsHartPiece};
ghost use Rattle.rept_simlog.specs.Hartlog.Recorded.{IsStepRefused, IsStepsFault};

use crate::LoggedProgram;
use crate::hartlog::log::HartLogLine;
use crate::hartlog::refusal::HartLogRefusal;
use rept_encode::{Hart, HartStretch, StepFault, push_step};
use rept_isa::StepRow;
use rept_steps::Steps;
use std::alloc::Global;

/// The address of the thread's next entry. None of the last one, where the thread stopped.
fn next_address(entries: &[HartLogLine], thread: u32) -> Option<u32>
    ensures { result ≡ next_address entries.now thread }
{
    for entry in entries {
        if entry.thread == thread {
            return Some(entry.address);
        }
    }
    None
}

/// Adds the step of an entry to this address, for which there is room.
fn add_step(
    steps: &mut Steps,
    program: &LoggedProgram<'_>,
    from: &HartLogLine,
    to: u32,
) -> Result<(), HartLogRefusal>
    requires steps { All (IsStepped program.now.halves) steps.old }
    requires ends { EndBefore steps.old from.now.address }
    requires few { length steps.old < 65536 }
    ensures steps { All (IsStepped program.now.halves) steps.new }
    ensures ends { OnOk result (EndBefore steps.new to) }
    ensures ok { OnOk result (AddsLoggedRow (program_of program.now) steps.old steps.new from.now to) }
    ensures err { IfErr result (λ refusal. IsStepRefused (program_of program.now) from.now to refusal) }
{
    let near = program.near(from.address);
    let site = match near.site_at(from.address) {
        Ok(site) => site,
        Err(fault) => return Err(HartLogRefusal::NoInstruction(from.line, fault)),
    };
    match push_step(steps, program.halves, &site, to) {
        Ok(()) => Ok(()),
        Err(fault) => match fault {
            StepFault::NoStep => Err(HartLogRefusal::NoStep(from.line)),
            StepFault::Full => unreachable!(),
            StepFault::OutOfMemory => Err(HartLogRefusal::OutOfMemory),
        },
    }
}

/// Whether two entries are of one hart and one thread.
fn goes_on(entry: &HartLogLine, other: &HartLogLine) -> bool
    ensures { IsTrue result ↔ (entry.now.hart ≡ other.now.hart) × (entry.now.thread ≡ other.now.thread) }
{
    entry.hart == other.hart && entry.thread == other.thread
}

/// Whether the last of the rows is a call.
fn ends_with_call(rows: &[StepRow]) -> bool
    requires { 0 < length rows.now }
    ensures { (i : ℕ) (row : Row) → i + 1 ≡ length rows.now → slice_get rows.now i ≡ Some row → row.call ≡ result }
{
    rows[rows.len() - 1].call
}

/// The steps of the first entries that are of one hart and one thread, up to a call or the thread's
/// last entry, and how many entries that are.
fn steps_of(
    alloc: Global,
    program: &LoggedProgram<'_>,
    entries: &[HartLogLine],
) -> Result<(Steps, usize), HartLogRefusal>
    requires some { 0 < length entries.now }
    requires few { length entries.now ≤ 65537 }
    requires lines { AreLines entries.now }
    ensures piece { IfOk result (λ piece. IsHartPiece (program_of program.now) entries.now piece.0 piece.1) }
    ensures steps { IfOk result (λ piece. All (IsStepped program.now.halves) piece.0) }
    ensures err { IfErr result (λ refusal. IsStepsFault (program_of program.now) entries.now refusal) }
{
    let mut steps = Steps::new(alloc);
    for i in 0..entries.len() {
        let entry = &entries[i];
        if !goes_on(&entries[0], entry) {
            return Ok((steps, i));
        }
        let Some(to) = next_address(&entries[i + 1..], entry.thread) else {
            return Ok((steps, i + 1));
        };
        if let Err(refusal) = add_step(&mut steps, program, entry, to) {
            return Err(refusal);
        }
        if ends_with_call(steps.rows()) {
            return Ok((steps, i + 1));
        }
    }
    Ok((steps, entries.len()))
}

/// The stretch of these steps, which begin at an entry.
fn stretch_of(first: &HartLogLine, steps: Steps) -> HartStretch
    requires { 0 < length steps }
    ensures process { result.process ≡ first.now.thread }
    ensures begin { result.begin ≡ first.now.line }
    ensures end { result.end + 1 ≡ first.now.line + length steps }
    ensures steps { result.steps ≡ steps }
{
    let begin = u64::from(first.line);
    let end = begin + u64::from(steps.len()) - 1;
    HartStretch {
        process: first.thread,
        begin,
        end,
        steps,
    }
}

/// The stretches of the entries, in the order of the log. The time of a step is the number of its
/// line.
pub fn stretches_of(
    alloc: Global,
    program: &LoggedProgram<'_>,
    entries: &[HartLogLine],
) -> Result<Hart, HartLogRefusal>
    requires few { length entries.now ≤ 65537 }
    requires lines { AreLines entries.now }
    ensures cut { IfOk result (λ stretches. AreStretchesOf (program_of program.now) entries.now stretches) }
    ensures walkable { IfOk result (λ stretches. All (λ s. IsWalkable program.now.halves s.steps) stretches) }
    ensures short { IfOk result (λ stretches. All (λ s. s.begin + length s.steps ≤ 2 ^ 32) stretches) }
    ensures err { IfErr result (λ refusal. IsStepsFault (program_of program.now) entries.now refusal) }
{
    let mut stretches = Hart::new(alloc);
    let mut rest = entries;
    while rest.len() > 0 {
        let (steps, count) = match steps_of(alloc, program, rest) {
            Ok(piece) => piece,
            Err(refusal) => return Err(refusal),
        };
        let first = &rest[0];
        rest = &rest[count..];
        if steps.len() == 0 {
            continue;
        }
        if let Err(_) = stretches.push(stretch_of(first, steps)) {
            return Err(HartLogRefusal::OutOfMemory);
        }
    }
    Ok(stretches)
}
