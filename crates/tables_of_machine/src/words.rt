//! Words and halves.

use rept_isa::{Shown, decode, encode};
use rept_rvc::expand;
use std::alloc::{AllocError, Global};

/// The text of the instruction that a word at an address spells, and the word that spells it.
pub fn word(alloc: Global, word: u32, at: u32) -> Result<String, AllocError> {
    match decode(word) {
        None => String::from_str(alloc, "none"),
        Some(instr) => {
            let word = encode(&instr);
            format!(in alloc; "{} is {word:#010x}", Shown { at, instr })
        }
    }
}

/// The word of the instruction that a half stands for.
pub fn half(alloc: Global, half: u32) -> Result<String, AllocError> {
    match expand((half % 0x1_0000) as u16) {
        None => String::from_str(alloc, "none"),
        Some(instr) => format!(in alloc; "{:#010x}", encode(&instr)),
    }
}
