//! The run of a made crash.

ghost use Rattle.std.specs.Prelude.{◌≡◌, ◌+◌, ◌<◌, ◌≤◌, List, ℕ, length, IfOk, OnOk};
ghost use Rattle.rept_make.specs.Start.{start_registers};
ghost use Rattle.rept_make.specs.Ran.{RanRows};
ghost use Rattle.rept_make.specs.Words.{IsCode};

use rept_machine::{Halt, Machine};
use rept_steps::{PushFault, Steps};
use rept_word::OutOfMemory;
use std::alloc::{AllocError, Global};

/// Makes one step and notes it. A seed's code never halts, so nothing but memory can be wanting.
fn step(machine: &mut Machine<'_>, steps: &mut Steps) -> Result<(), OutOfMemory>
    requires made { (seed : ℕ) × (words : List ℕ) × IsCode seed words × RanRows seed words machine.old steps.old }
    requires few { length steps.old < 65536 }
    ensures ran { OnOk result ((seed : ℕ) (words : List ℕ) → IsCode seed words → RanRows seed words machine.old steps.old → RanRows seed words machine.new steps.new) }
    ensures size { OnOk result (length steps.new ≡ length steps.old + 1) }
{
    let row = match machine.step() {
        Ok(row) => row,
        Err(halt) => match halt {
            Halt::OutOfMemory => return Err(AllocError),
            Halt::NotCode(_) | Halt::NotRunnable(_) => unreachable!(),
        },
    };
    match steps.push(row) {
        Ok(()) => Ok(()),
        Err(fault) => match fault {
            PushFault::OutOfMemory => Err(AllocError),
            PushFault::Full => unreachable!(),
        },
    }
}

/// A machine that has run, and its steps.
#[derive(Drop)]
pub struct MachineRun<'a> {
    pub machine: Machine<'a>,
    pub steps: Steps,
}

/// The first steps of a seed's code, from its registers and a memory of zeros.
pub fn make_run<'a>(
    alloc: Global,
    seed: u32,
    code: &'a [u32],
    registers: [u32; 32],
    count: u32,
) -> Result<MachineRun<'a>, OutOfMemory>
    requires code { IsCode seed code.now }
    requires registers { registers ≡ start_registers seed }
    requires few { count ≤ 65536 }
    ensures ran { IfOk result (λ run. RanRows seed code.now run.machine run.steps) }
    ensures count { IfOk result (λ run. length run.steps ≡ count) }
{
    let mut machine = Machine::new(alloc, code, 0x10000, 0x10000, registers);
    let mut steps = Steps::new(alloc);
    for i in 0..count {
        step(&mut machine, &mut steps)?;
    }
    Ok(MachineRun { machine, steps })
}
