//! The words of the code.

ghost use Rattle.std.specs.Prelude.{◌≡◌, ◌<◌, IfOk};
ghost use Rattle.rept_isa.specs.Words.{IsWord};
ghost use Rattle.test_kit.specs.Threads.Play.Code.{IsPlayCode, instr_in};
ghost use Rattle.test_kit.specs.Threads.Maderuns.Words.{AreCode};

use crate::threads::play::instr_in;
use rept_isa::{Instr, encode};
use std::alloc::{AllocError as OutOfMemory, Global};

/// The word of a thread's slot: that of its instruction, and in the last one that of the jump back.
fn word_in(code: &[Instr], thread: u32, slot: u32) -> u32
    requires code { IsPlayCode code.now }
    requires thread { thread < 4 }
    requires slot { slot < 16 }
    ensures { IsWord result (instr_in code.now thread slot) }
{
    encode(&instr_in(code, thread, slot))
}

/// The words of all four threads, 16 each.
pub fn words_of(alloc: Global, code: &[Instr]) -> Result<Vec<u32>, OutOfMemory>
    requires { IsPlayCode code.now }
    ensures { IfOk result (λ words. AreCode code.now words.items) }
{
    let mut words = Vec::new(alloc);
    for i in 0..64 {
        words.push(word_in(code, i / 16, i % 16))?;
    }
    Ok(words)
}
