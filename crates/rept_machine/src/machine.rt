//! The machine that executes code step by step.

ghost use Rattle.std.specs.Prelude.{◌≡◌, ◌+◌, ◌*◌, ◌%◌, ◌^◌, ◌<◌, ◌≤◌, ◌==◌, ◌↔◌, ℕ, List, IfOk, OnOk, OnErr, IfErr, Some, None, Err, IsTrue, length, slice_index, if◌then◌else◌, false};
ghost use Rattle.rept_machine.specs.State.{IsState};
ghost use Rattle.rept_machine.specs.Step.{IsStep};
ghost use Rattle.rept_machine.specs.Choices.{Picks};

use crate::execute::execute;
use crate::memory::Memory;
use crate::registers::read;
use rept_isa::{Instr, Reg, StepRow, decode, is_call};
use std::alloc::Global;
use thiserror::Error;

/// Why a machine doesn't go on. Its state stays.
#[derive(Clone, Copy, PartialEq, Eq, Debug, Error)]
pub enum Halt {
    /// No code word stands at the pc.
    #[error("no code at {0:#010x}")]
    NotCode(u32),
    /// The word at the pc spells no instruction of RV32IMA, or is EBREAK.
    #[error("no instruction to run at {0:#010x}")]
    NotRunnable(u32),
    #[error("out of memory")]
    OutOfMemory,
}

/// A hart of RV32IMA with code that doesn't change. Memory has bytes at all 32-bit addresses, 0 at
/// first, and takes room only where a store wrote.
#[derive(Drop)]
pub struct Machine<'a> {
    code: &'a [u32],
    base: u32,
    pc: u32,
    registers: [u32; 32],
    memory: Memory,
    ghost zero: { slice_index registers 0 ≡ 0 },
    ghost words: { (r : ℕ) → slice_index registers r < 2 ^ 32 },
}

impl<'a> Machine<'a> {
    ghost use Rattle.rept_machine.specs.Machine.{state_of, pc_of, code_of, base_of, next_word, word_of_code, IsNextInstr, IsUnchanged, IsNotRunnable, Halts};
    ghost use Rattle.rept_machine.specs.Runs.{RunsOwnCode};
    ghost use Rattle.rept_machine.specs.declared.machine.Machine.{Machine};
    ghost use Rattle.rept_isa.specs.declared.row.StepRow.{StepRow};

    /// A machine whose word i of code stands at `base + 4 * i`. Its registers are `regs`, but x0 is
    /// 0, and its memory is all 0.
    pub fn new(alloc: Global, code: &'a [u32], base: u32, pc: u32, regs: [u32; 32]) -> Machine<'a>
        requires aligned { base % 4 ≡ 0 }
        requires within { base + 4 * length code.now ≤ 2 ^ 32 }
        ensures code { code_of result ≡ code.now }
        ensures base { base_of result ≡ base }
        ensures pc { pc_of result ≡ pc }
        ensures registers { (r : ℕ) → (state_of result).register r ≡ (if r == 0 then 0 else slice_index regs r) }
        ensures memory { (a : ℕ) → (state_of result).memory a ≡ 0 }
        ensures state { IsState (state_of result) }
    {
        let mut registers = regs;
        registers[0] = 0;
        Machine {
            code,
            base,
            pc,
            registers,
            memory: Memory::new(alloc),
        }
    }

    /// Makes one step and gives its row. A call answers 0 in x10 and changes no byte, and a counter
    /// reads as 0.
    pub fn step(&mut self) -> Result<StepRow, Halt>
        ensures lawful { IfOk result (λ row. (image_end : ℕ) → IsStep image_end row (state_of self.old) (state_of self.new)) }
        ensures state { IsState (state_of self.new) }
        ensures picks { IfOk result (λ row. Picks row.instr (state_of self.old) (state_of self.new)) }
        ensures at { IfOk result (λ row. row.at ≡ pc_of self.old) }
        ensures next { IfOk result (λ row. pc_of self.new ≡ row.next) }
        ensures instr { IfOk result (λ row. IsNextInstr self.old row.instr) }
        ensures call { IfOk result (λ row. IsTrue row.call ↔ (row.instr ≡ Instr.Ecall)) }
        ensures long { IfOk result (λ row. row.short ≡ false) }
        ensures code { code_of self.new ≡ code_of self.old }
        ensures base { base_of self.new ≡ base_of self.old }
        ensures cause { IfErr result (λ halt. Halts self.old halt) }
        ensures not_code { next_word self.old ≡ None → result ≡ Err (Halt.NotCode (pc_of self.old)) }
        ensures not_runnable { (word : ℕ) → next_word self.old ≡ Some word → IsNotRunnable word → result ≡ Err (Halt.NotRunnable (pc_of self.old)) }
        ensures halt { OnErr result (IsUnchanged self.old self.new) }
    {
        let at = self.pc;
        let word = self.word_at(at).ok_or(Halt::NotCode(at))?;
        let instr = decode(word).ok_or(Halt::NotRunnable(at))?;
        if matches!(instr, Instr::Ebreak) {
            return Err(Halt::NotRunnable(at));
        }
        let done = execute(&mut self.registers, &mut self.memory, &instr, at);
        let next = done.map_err(|_| Halt::OutOfMemory)?;
        self.pc = next;
        let call = is_call(&instr);
        Ok(StepRow {
            at,
            instr,
            next,
            call,
            short: false,
        })
    }

    /// Makes so many steps, unless the machine halts before. The steps that it makes are an
    /// execution of the path of their rows, whatever of the last registers and bytes a dump has.
    pub fn run(&mut self, count: u32) -> Result<(), Halt>
        ensures ran { OnOk result ((rows : List StepRow) × (length rows ≡ count) × RunsOwnCode self.old self.new rows) }
        ensures halted { IfErr result (λ halt. (rows : List StepRow) × (mid : Machine) × (length rows < count) × RunsOwnCode self.old mid rows × Halts mid halt × IsUnchanged mid self.new) }
    {
        for _ in 0..count {
            if let Err(halt) = self.step() {
                return Err(halt);
            }
        }
        Ok(())
    }

    fn word_at(&self, address: u32) -> Option<u32>
        ensures { result ≡ word_of_code (code_of self.now) (base_of self.now) address }
    {
        if address < self.base || (address - self.base) % 4 != 0 {
            return None;
        }
        self.code.get(((address - self.base) / 4) as usize).copied()
    }

    /// The value of a register.
    pub fn reg(&self, r: Reg) -> u32
        ensures { result ≡ (state_of self.now).register r }
    {
        read(&self.registers, r)
    }

    /// The byte at an address.
    pub fn byte(&self, a: u32) -> u8
        ensures { result ≡ (state_of self.now).memory a }
    {
        self.memory.byte(a)
    }

    /// The address of the next instruction.
    pub fn pc(&self) -> u32
        ensures { result ≡ pc_of self.now }
    {
        self.pc
    }
}
