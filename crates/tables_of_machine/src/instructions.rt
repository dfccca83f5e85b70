//! What an instruction does to the path, its registers, and which way a row went.

use rept_isa::{Reg, StepRow, decode, kind, reads, turn, writes};
use std::alloc::{AllocError, Global};
use test_kit::Numbers;

fn number(register: Option<Reg>) -> Option<u8> {
    match register {
        Some(register) => Some(register.number()),
        None => None,
    }
}

/// What an instruction does to the path, the register that it writes, and those in the places of
/// rs1 and rs2.
pub fn registers(alloc: Global, word: u32) -> Result<String, AllocError> {
    match decode(word) {
        None => String::from_str(alloc, "none"),
        Some(instr) => {
            let (first, second) = reads(&instr);
            let (first, second) = (number(first), number(second));
            let written = number(writes(&instr));
            format!(in alloc;
                "{:?}, writes {written:?}, reads {first:?} and {second:?}",
                kind(&instr)
            )
        }
    }
}

/// Which way a row of a word, an address, a next address and a length went, and where it begins.
pub fn way(alloc: Global, n: &Numbers) -> Result<String, AllocError> {
    match decode(n.word(0)) {
        None => String::from_str(alloc, "none"),
        Some(instr) => {
            let row = StepRow {
                at: n.word(1),
                instr,
                next: n.word(2),
                call: n.word(0) == 0x73,
                short: n.word(3) == 2,
            };
            format!(in alloc; "{:?} from {:#x}", turn(&row), row.from())
        }
    }
}
