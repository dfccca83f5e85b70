//! What each instruction does.

ghost use Rattle.std.specs.Prelude.{◌≡◌, ◌≢◌, ◌<◌, ◌^◌, ℕ, IfOk, OnOk, OnErr, slice_index};
ghost use Rattle.rept_isa.specs.Rows.{of_word};
ghost use Rattle.rept_machine.specs.Step.{HasEffect, Computes, Exchanges, Acts, Jumps, Calls, far_target};
ghost use Rattle.rept_machine.specs.Choices.{Picks, IsRunnable, WritesMemory};
ghost use Rattle.rept_machine.specs.declared.memory.Memory.{Memory};
ghost use Rattle.rept_machine.specs.Bytes.{shown_by, SameBytes};

use crate::arithmetic::{branch_holds, combined, computed, computed_imm};
use crate::memory::Memory;
use crate::registers::{read, write};
use crate::store::store;
use rept_isa::number::{following, plus};
use rept_isa::{AmoOp, Instr, Reg, StoreOp};
use std::alloc::AllocError;

/// Does what the instruction of four bytes at this address does, and answers the next address.
/// Where there is no memory for what is written nothing changes. An SC always succeeds.
pub fn execute(
    registers: &mut [u32; 32],
    memory: &mut Memory,
    instr: &Instr,
    at: u32,
) -> Result<u32, AllocError>
    requires { IsRunnable instr.now }
    ensures effect { IfOk result (λ next. (image_end : ℕ) → HasEffect instr.now image_end (of_word at next) (shown_by registers.old memory.old) (shown_by registers.new memory.new)) }
    ensures picks { OnOk result (Picks instr.now (shown_by registers.old memory.old) (shown_by registers.new memory.new)) }
    ensures words { (r : ℕ) → slice_index registers.new r < 2 ^ 32 }
    ensures kept { slice_index registers.new 0 ≡ slice_index registers.old 0 }
    ensures store { OnErr result (WritesMemory instr.now) }
    ensures registers { OnErr result (registers.new ≡ registers.old) }
    ensures memory { OnErr result (SameBytes memory.old memory.new) }
{
    match *instr {
        Instr::Lui { rd, imm } => Ok(put(registers, rd, imm, at)),
        Instr::Auipc { rd, imm } => Ok(put(registers, rd, at.wrapping_add(imm), at)),
        Instr::Jal { rd, imm } => Ok(jump(registers, rd, plus(at, imm), at)),
        Instr::Jalr { rd, rs1, imm } => {
            let target = far_target(read(registers, rs1), imm);
            Ok(jump(registers, rd, target, at))
        }
        Instr::Branch { op, rs1, rs2, imm } => {
            let taken = branch_holds(op, read(registers, rs1), read(registers, rs2));
            Ok(if taken { plus(at, imm) } else { following(at) })
        }
        Instr::Load { op, rd, rs1, imm } => {
            let value = memory.load(op, plus(read(registers, rs1), imm));
            Ok(put(registers, rd, value, at))
        }
        Instr::Store { op, rs1, rs2, imm } => {
            let base = plus(read(registers, rs1), imm);
            store(memory, op, base, read(registers, rs2))?;
            Ok(following(at))
        }
        Instr::Imm { op, rd, rs1, imm } => {
            let value = computed_imm(op, read(registers, rs1), imm);
            Ok(put(registers, rd, value, at))
        }
        Instr::Op { op, rd, rs1, rs2 } => {
            let value = computed(op, read(registers, rs1), read(registers, rs2));
            Ok(put(registers, rd, value, at))
        }
        Instr::Amo { op, rd, rs1, rs2 } => {
            let operands = (read(registers, rs1), read(registers, rs2));
            act(registers, memory, (op, rd), operands, at)
        }
        Instr::Fence => Ok(following(at)),
        Instr::Ecall => Ok(answer(registers, at)),
        Instr::Ebreak => unreachable!(),
        Instr::Counter { rd, .. } => Ok(put(registers, rd, 0, at)),
    }
}

/// Writes the value and answers the next address.
fn put(registers: &mut [u32; 32], rd: Reg, value: u32, at: u32) -> u32
    ensures words { (r : ℕ) → slice_index registers.new r < 2 ^ 32 }
    ensures kept { slice_index registers.new 0 ≡ slice_index registers.old 0 }
    ensures done { (m : Memory) → Computes rd value (of_word at result) (shown_by registers.old m) (shown_by registers.new m) }
{
    write(registers, rd, value);
    following(at)
}

/// Does what an atomic instruction with this destination does; `operands` are its address and the
/// value of its source. Where there is no memory for what is written nothing changes.
fn act(
    registers: &mut [u32; 32],
    memory: &mut Memory,
    form: (AmoOp, Reg),
    operands: (u32, u32),
    at: u32,
) -> Result<u32, AllocError>
    ensures effect { IfOk result (λ next. Acts form.0 form.1 operands.1 operands.0 (of_word at next) (shown_by registers.old memory.old) (shown_by registers.new memory.new)) }
    ensures picks { OnOk result (form.0 ≡ AmoOp.Sc → form.1 ≢ 0 → slice_index registers.new form.1 ≡ 0) }
    ensures words { (r : ℕ) → slice_index registers.new r < 2 ^ 32 }
    ensures kept { slice_index registers.new 0 ≡ slice_index registers.old 0 }
    ensures store { OnErr result (form.0 ≢ AmoOp.Lr) }
    ensures registers { OnErr result (registers.new ≡ registers.old) }
    ensures memory { OnErr result (SameBytes memory.old memory.new) }
{
    let (op, rd) = form;
    let (base, source) = operands;
    let held = memory.word(base);
    match op {
        AmoOp::Lr => Ok(put(registers, rd, held, at)),
        AmoOp::Sc => exchange(registers, memory, (rd, 0), (source, base), at),
        _ => {
            let value = combined(op, held, source);
            exchange(registers, memory, (rd, held), (value, base), at)
        }
    }
}

/// Writes an answer into a register and a value into the word at an address, and answers the next
/// address.
fn exchange(
    registers: &mut [u32; 32],
    memory: &mut Memory,
    answer: (Reg, u32),
    written: (u32, u32),
    at: u32,
) -> Result<u32, AllocError>
    ensures done { IfOk result (λ next. Exchanges answer.0 answer.1 written.0 written.1 (of_word at next) (shown_by registers.old memory.old) (shown_by registers.new memory.new)) }
    ensures words { (r : ℕ) → slice_index registers.new r < 2 ^ 32 }
    ensures kept { slice_index registers.new 0 ≡ slice_index registers.old 0 }
    ensures registers { OnErr result (registers.new ≡ registers.old) }
    ensures memory { OnErr result (SameBytes memory.old memory.new) }
{
    store(memory, StoreOp::Sw, written.1, written.0)?;
    Ok(put(registers, answer.0, answer.1, at))
}

/// Writes the address after this one and answers the target.
fn jump(registers: &mut [u32; 32], rd: Reg, target: u32, at: u32) -> u32
    ensures words { (r : ℕ) → slice_index registers.new r < 2 ^ 32 }
    ensures kept { slice_index registers.new 0 ≡ slice_index registers.old 0 }
    ensures done { (m : Memory) → Jumps rd target (of_word at result) (shown_by registers.old m) (shown_by registers.new m) }
{
    write(registers, rd, following(at));
    target
}

/// Answers a call: 0 in a0.
fn answer(registers: &mut [u32; 32], at: u32) -> u32
    ensures call { (m : Memory) (image_end : ℕ) → Calls image_end (of_word at result) (shown_by registers.old m) (shown_by registers.new m) }
    ensures words { (r : ℕ) → slice_index registers.new r < 2 ^ 32 }
    ensures kept { slice_index registers.new 0 ≡ slice_index registers.old 0 }
    ensures zero { slice_index registers.new 10 ≡ 0 }
{
    registers[10] = 0;
    following(at)
}

fn far_target(base: u32, imm: i32) -> u32
    ensures { result ≡ far_target base imm }
{
    plus(base, imm) / 2 * 2
}
