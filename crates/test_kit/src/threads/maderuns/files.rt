//! The core file.

ghost use Rattle.std.specs.Prelude.{◌≡◌, ◌+◌, ◌++◌, ◌<◌, ◌≤◌, ℕ, length, slice_index, suc, if◌then◌else◌, OnOk, IfOk};
ghost use Rattle.test_kit.specs.Threads.Turns.Turns.{rows_in};
ghost use Rattle.test_kit.specs.Threads.Play.Shares.{sees};
ghost use Rattle.rept_make.specs.Files.{bytes_of_words, status_note};
ghost use Rattle.test_kit.specs.Threads.Maderuns.Files.{saved_of, core_file, pc_in};

use crate::threads::play::rows_in;
use crate::threads::turns::Turn;
use rept_make::{push_core_header, push_note_start};
use rept_word::{OutOfMemory, Text};
use std::alloc::Global;

/// What a register is to a thread: its own and x17 are those of the machine, others are 0.
fn share(thread: u32, register: u32, registers: &[u32; 32]) -> u32
    requires thread { thread < 4 }
    requires register { register < 32 }
    ensures { result ≡ (if sees thread register then slice_index registers.now register else 0) }
{
    let own = 18 + 3 * thread;
    if (own <= register && register < own + 3) || register == 17 {
        registers[register as usize]
    } else {
        0
    }
}

/// Adds a program counter and a thread's registers x1 to x31.
fn push_saved(
    file: &mut Text,
    thread: u32,
    pc: u32,
    registers: &[u32; 32],
) -> Result<(), OutOfMemory>
    requires { thread < 4 }
    ensures { OnOk result (file.new ≡ file.old ++ bytes_of_words (saved_of thread pc registers.now)) }
{
    file.push(&pc.to_le_bytes())?;
    for i in 0..31 {
        file.push(&share(thread, i + 1, registers).to_le_bytes())?;
    }
    Ok(())
}

/// Where a thread stands after its turns.
fn pc_in(thread: u32, turns: &[Turn]) -> u32
    requires thread { thread < 4 }
    requires few { rows_in thread turns.now ≤ 65536 }
    ensures { result ≡ pc_in turns.now thread }
{
    0x1_0000 + 64 * thread + 4 * (rows_in(thread, turns) % 16)
}

/// Adds the register note of a thread. Processes are counted from 1.
fn push_status(
    file: &mut Text,
    thread: u32,
    pc: u32,
    registers: &[u32; 32],
) -> Result<(), OutOfMemory>
    requires { thread < 4 }
    ensures { OnOk result (file.new ≡ file.old ++ status_note (thread + 1) (saved_of thread pc registers.now)) }
{
    push_note_start(file, thread as u8 + 1)?;
    push_saved(file, thread, pc, registers)?;
    file.push(&[0, 0, 0, 0])?;
    Ok(())
}

/// The core file of what a play left: the registers of each thread, and the data.
pub fn core_file(
    alloc: Global,
    turns: &[Turn],
    registers: &[u32; 32],
    saved_bytes: &[u8],
) -> Result<Text, OutOfMemory>
    requires { (t : ℕ) → rows_in t turns.now ≤ 65536 }
    ensures { IfOk result (λ file. file ≡ core_file turns.now registers.now saved_bytes.now) }
{
    let mut file = Text::new(alloc);
    push_core_header(&mut file, 896, 32)?;
    push_status(&mut file, 0, pc_in(0, turns), registers)?;
    push_status(&mut file, 1, pc_in(1, turns), registers)?;
    push_status(&mut file, 2, pc_in(2, turns), registers)?;
    push_status(&mut file, 3, pc_in(3, turns), registers)?;
    file.push(saved_bytes)?;
    Ok(file)
}
