//! A made crash as a whole.

ghost use Rattle.std.specs.Prelude.{◌≡◌, ◌+◌, ◌^◌, ◌<◌, ◌≤◌, ℕ, false, length, slice_index, IfOk};
ghost use Rattle.rept_machine.specs.Machine.{state_of, pc_of};
ghost use Rattle.rept_encode.specs.Walkable.{IsWalkable, IsJumpEnd};
ghost use Rattle.rept_encode.specs.Encoded.{TellsRows};
ghost use Rattle.rept_make.specs.Made.{IsMade};
ghost use Rattle.rept_make.specs.Ran.{RanRows};
ghost use Rattle.rept_make.specs.Words.{IsCode};

use crate::code::{made_code, start_registers};
use crate::files::{core_file, executable};
use crate::run::{MachineRun, make_run};
use rept_encode::{EncodeFault, encode};
use rept_isa::register;
use rept_machine::Machine;
use rept_steps::Steps;
use rept_word::{OutOfMemory, Text};
use std::alloc::{AllocError, Global};

/// The three files of a made crash.
#[derive(Drop)]
pub struct Made {
    /// The executable.
    pub exe: Text,
    /// The core file.
    pub core: Text,
    /// The trace.
    pub trace: Text,
}

/// The program counter, and the registers x1 to x31.
fn saved_registers(machine: &Machine<'_>) -> [u32; 32]
    ensures size { length result ≡ 32 }
    ensures pc { slice_index result 0 ≡ pc_of machine.now }
    ensures saved { (r : ℕ) → 0 < r → r < 32 → slice_index result r ≡ (state_of machine.now).register r }
{
    let mut saved = [machine.pc(); 32];
    for r in 1..32u8 {
        saved[usize::from(r)] = machine.reg(register(r));
    }
    saved
}

/// How many bytes of data there are, from 0x20000 on.
pub fn saved_bytes(alloc: Global, machine: &Machine<'_>, count: u32) -> Result<Vec<u8>, AllocError>
    requires { count ≤ 2 ^ 16 }
    ensures size { IfOk result (λ bytes. length bytes.items ≡ count) }
    ensures bytes { IfOk result (λ bytes. (i : ℕ) → i < count → slice_index bytes.items i ≡ (state_of machine.now).memory (131072 + i)) }
{
    let mut bytes = Vec::new(alloc);
    for i in 0..count {
        bytes.push(machine.byte(0x20000 + i))?;
    }
    Ok(bytes)
}

/// The trace of steps of which no call directly follows an uninferable jump, so that nothing but
/// memory can be wanting.
fn trace_of(alloc: Global, steps: &Steps) -> Result<Text, OutOfMemory>
    requires walkable { IsWalkable false steps.now }
    requires entered { (i : ℕ) → IsJumpEnd steps.now i → ⊥ }
    ensures tells { IfOk result (λ trace. TellsRows false trace steps.now) }
    ensures few { IfOk result (λ trace. length trace < 2 ^ 32) }
{
    match encode(alloc, false, steps) {
        Ok(trace) => Ok(trace),
        Err(fault) => match fault {
            EncodeFault::OutOfMemory => Err(AllocError),
            EncodeFault::JumpEnds(_) => unreachable!(),
        },
    }
}

/// The files of a run.
fn save(alloc: Global, code: &[u32], run: &MachineRun<'_>) -> Result<Made, OutOfMemory>
    requires made { (seed : ℕ) × IsCode seed code.now × RanRows seed code.now run.now.machine run.now.steps }
    requires some { 0 < length run.now.steps }
    ensures { (seed : ℕ) → IsCode seed code.now → RanRows seed code.now run.now.machine run.now.steps → IfOk result (λ made. IsMade seed (length run.now.steps) made) }
{
    let trace = trace_of(alloc, &run.steps)?;
    let exe = executable(alloc, 1024, 5, code)?;
    let registers = saved_registers(&run.machine);
    let bytes = saved_bytes(alloc, &run.machine, 1024)?;
    let core = core_file(alloc, &registers, bytes.as_slice())?;
    Ok(Made { exe, core, trace })
}

/// The made crash of a seed: a program of 256 words from 0x10000 on that is drawn from it, the core
/// file after so many of its steps, from 1 to 20,000, and the trace of these steps. The files are
/// read back as the path of these steps, of which an execution exists that ends in the dump: the
/// run itself. The code never halts, and the trace of each of its runs can be written: an `Err` is
/// a want of memory and no other fault.
pub fn make(alloc: Global, seed: u32, steps: u32) -> Result<Made, OutOfMemory>
    requires some { 1 ≤ steps }
    requires few { steps ≤ 20000 }
    ensures { IfOk result (λ made. IsMade seed steps made) }
{
    let (registers, state) = start_registers(seed);
    let code = made_code(alloc, seed, state)?;
    let run = make_run(alloc, seed, code.as_slice(), registers, steps)?;
    save(alloc, code.as_slice(), &run)
}
