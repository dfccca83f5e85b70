//! Plays of several threads on one machine.

ghost use Rattle.std.specs.Prelude.{IfOk};
ghost use Rattle.test_kit.specs.Threads.Play.Code.{IsPlayable};
ghost use Rattle.test_kit.specs.Threads.Play.Played.{IsPlayed};

use crate::threads::play::machine::{program, registers_of, run};
use crate::threads::play::threads::threads_of;
use crate::threads::turns::Turn;
use rept_isa::Instr;
use rept_make::saved_bytes;
use rept_steps::Run;
use std::alloc::{AllocError as OutOfMemory, Global};

/// A run that was played, and what it left.
#[derive(Drop)]
pub struct Played {
    /// What each of the four threads executed, and in which slices. All of it is told.
    pub run: Run,
    /// The registers of the machine at the end. Thread t has x18 + 3t to x20 + 3t of them, all have
    /// x17, and a thread's others are 0.
    pub registers: [u32; 32],
    /// The bytes from 0x20000 to 0x2001f at the end.
    pub bytes: Vec<u8>,
}

/// Plays turns of four threads on one machine that begins with these registers and a memory of
/// zeros. Each thread has 15 instructions, those of thread t from number 15t on, at 0x10000 + 64t
/// and after it, and then a jump back to the first. A call changes nothing of theirs. There is an
/// execution of the run that ends in what is left. An `Err` is a want of memory alone.
pub fn play(
    alloc: Global,
    code: &[Instr],
    turns: &[Turn],
    registers: [u32; 32],
) -> Result<Played, OutOfMemory>
    requires { IsPlayable code.now turns.now }
    ensures { IfOk result (λ played. IsPlayed code.now turns.now registers played) }
{
    let words = program(alloc, code, turns)?;
    let machine = run(alloc, words.as_slice(), registers)?;
    let threads = threads_of(alloc, code, turns)?;
    let bytes = saved_bytes(alloc, &machine, 32)?;
    Ok(Played {
        run: Run {
            threads,
            untraced: None,
            skipped: 0,
        },
        registers: registers_of(&machine),
        bytes,
    })
}
