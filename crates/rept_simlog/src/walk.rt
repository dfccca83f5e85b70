//! The steps that a log's addresses make.

ghost use Rattle.std.specs.Prelude.{◌≡◌, ◌≤◌, ◌<◌, ℕ, length, IfOk, IfErr, OnOk};
ghost use Rattle.std.specs.List.{All};
ghost use Rattle.rept_steps.specs.Linked.{EndBefore};
ghost use Rattle.rept_encode.specs.Walkable.{IsStepped, IsWalkable};
ghost use Rattle.rept_simlog.specs.Program.{program_of};
ghost use Rattle.rept_simlog.specs.Recorded.{IsStepRefused, IsWalkFault};
ghost use Rattle.rept_simlog.specs.Walk.{AddsRow, GoAlong, MayStep};

use crate::entry::LogLine;
use crate::program::LoggedProgram;
use crate::refusal::SimLogRefusal;
use rept_encode::{StepFault, push_step};
use rept_steps::Steps;
use std::alloc::Global;

/// Adds the step from an entry to the next one, for which there is room.
fn add_step(
    steps: &mut Steps,
    program: &LoggedProgram<'_>,
    from: &LogLine,
    to: &LogLine,
) -> Result<(), SimLogRefusal>
    requires steps { All (IsStepped program.now.halves) steps.old }
    requires ends { EndBefore steps.old from.now.address }
    requires few { length steps.old < 65536 }
    ensures steps { All (IsStepped program.now.halves) steps.new }
    ensures ends { OnOk result (EndBefore steps.new to.now.address) }
    ensures ok { OnOk result (AddsRow (program_of program.now) steps.old steps.new from.now to.now) }
    ensures leads { OnOk result (MayStep (program_of program.now) from.now to.now) }
    ensures err { IfErr result (λ refusal. IsStepRefused (program_of program.now) from.now to.now refusal) }
{
    let site = match program.site_at(from.address) {
        Ok(site) => site,
        Err(fault) => return Err(SimLogRefusal::NoInstruction(from.line, fault)),
    };
    match push_step(steps, program.halves, &site, to.address) {
        Ok(()) => Ok(()),
        Err(fault) => match fault {
            StepFault::NoStep => Err(SimLogRefusal::NoStep(to.line)),
            StepFault::Full => unreachable!(),
            StepFault::OutOfMemory => Err(SimLogRefusal::OutOfMemory),
        },
    }
}

/// The steps of entries, of which there are two or more, and no more than the longest path has
/// places.
pub fn steps_of(
    alloc: Global,
    program: &LoggedProgram<'_>,
    entries: &[LogLine],
) -> Result<Steps, SimLogRefusal>
    requires some { 2 ≤ length entries.now }
    requires few { length entries.now ≤ 65537 }
    ensures along { IfOk result (λ steps. GoAlong (program_of program.now) entries.now steps) }
    ensures walkable { IfOk result (λ steps. IsWalkable program.now.halves steps) }
    ensures err { IfErr result (λ refusal. IsWalkFault (program_of program.now) entries.now refusal) }
{
    let mut steps = Steps::new(alloc);
    let mut program = *program;
    for i in 0..entries.len() - 1 {
        program = program.near(entries[i].address);
        if let Err(refusal) = add_step(&mut steps, &program, &entries[i], &entries[i + 1]) {
            return Err(refusal);
        }
    }
    Ok(steps)
}
