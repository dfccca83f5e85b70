//! All rows of a play, on one machine.

ghost use Rattle.std.specs.Prelude.{◌≡◌, ◌<◌, ◌≤◌, ◌+◌, ℕ, List, length, slice_index, IfOk, OnOk};
ghost use Rattle.rept_isa.specs.declared.instr.Instr.{Instr};
ghost use Rattle.rept_machine.specs.Machine.{state_of};
ghost use Rattle.test_kit.specs.declared.threads.turns.turn.Turn.{Turn};
ghost use Rattle.test_kit.specs.Threads.Turns.Turns.{all_rows};
ghost use Rattle.test_kit.specs.Threads.Play.Code.{IsPlayable, AreWords};
ghost use Rattle.test_kit.specs.Threads.Play.Ran.{RanTurns, IsStartState};

use crate::threads::play::code::word_in;
use crate::threads::play::count::{all_rows, steps_before, thread_at};
use crate::threads::turns::Turn;
use rept_isa::{Instr, register};
use rept_machine::{Halt, Machine};
use std::alloc::{AllocError, Global};

/// The words of all rows, one after the other.
pub fn program(alloc: Global, code: &[Instr], turns: &[Turn]) -> Result<Vec<u32>, AllocError>
    requires { IsPlayable code.now turns.now }
    ensures { IfOk result (λ words. AreWords code.now turns.now words.items) }
{
    let mut words = Vec::new(alloc);
    for k in 0..all_rows(turns) {
        let thread = thread_at(turns, k);
        let slot = steps_before(thread, turns, k) % 16;
        words.push(word_in(code, thread, slot))?;
    }
    Ok(words)
}

/// Makes one step more. The code never halts, so nothing but memory can be wanting.
fn step(machine: &mut Machine<'_>) -> Result<(), AllocError>
    requires { (code : List Instr) × (turns : List Turn) × (k : ℕ) × IsPlayable code turns × (k < all_rows turns) × RanTurns code turns k machine.old }
    ensures { OnOk result ((code : List Instr) (turns : List Turn) (k : ℕ) → IsPlayable code turns → k < all_rows turns → (ran : RanTurns code turns k machine.old) → (next : RanTurns code turns (k + 1) machine.new) × (next.states 0 ≡ ran.states 0)) }
{
    match machine.step() {
        Ok(_) => Ok(()),
        Err(halt) => match halt {
            Halt::OutOfMemory => Err(AllocError),
            Halt::NotCode(_) | Halt::NotRunnable(_) => unreachable!(),
        },
    }
}

/// A machine that has made all steps of the words.
pub fn run<'a>(
    alloc: Global,
    words: &'a [u32],
    registers: [u32; 32],
) -> Result<Machine<'a>, AllocError>
    requires { (code : List Instr) × (turns : List Turn) × IsPlayable code turns × AreWords code turns words.now }
    ensures { IfOk result (λ machine. (code : List Instr) (turns : List Turn) → IsPlayable code turns → AreWords code turns words.now → (ran : RanTurns code turns (all_rows turns) machine) × IsStartState registers (ran.states 0)) }
{
    let mut machine = Machine::new(alloc, words, 0x1_0000, 0x1_0000, registers);
    for k in 0..words.len() {
        step(&mut machine)?;
    }
    Ok(machine)
}

/// The registers of the machine.
pub fn registers_of(machine: &Machine<'_>) -> [u32; 32]
    ensures size { length result ≡ 32 }
    ensures value { (r : ℕ) → r < 32 → slice_index result r ≡ (state_of machine.now).register r }
{
    let mut registers = [0; 32];
    for r in 0..32u8 {
        registers[usize::from(r)] = machine.reg(register(r));
    }
    registers
}
