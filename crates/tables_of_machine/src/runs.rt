//! Steps of a machine over two words from given registers.

use rept_isa::Reg;
use rept_machine::Machine;
use std::alloc::{AllocError, Global};
use test_kit::Numbers;

/// Where the code stands.
const START: u32 = 0x10000;

/// 0, 1, -1, the least and the greatest number.
const EDGES: [u32; 5] = [0, 1, 0xffff_ffff, 0x8000_0000, 0x7fff_ffff];

/// The value of a register.
fn value(machine: &Machine<'_>, number: u8) -> u32 {
    match Reg::new(number) {
        None => 0,
        Some(register) => machine.reg(register),
    }
}

/// The word in memory at an address.
fn stored(machine: &Machine<'_>, base: u32) -> u32 {
    let mut word = 0;
    for k in 0..4u32 {
        word |= u32::from(machine.byte(base.wrapping_add(k))) << (8 * k);
    }
    word
}

/// Registers before the first step: 77 is given for x0, and x10 is 9.
fn registers(x6: u32, x7: u32, x8: u32) -> [u32; 32] {
    let mut registers = [0; 32];
    registers[0] = 77;
    registers[6] = x6;
    registers[7] = x7;
    registers[8] = x8;
    registers[10] = 9;
    registers
}

/// x5 and the pc after so many steps, with each edge in x6 or x7, whichever has no number.
pub fn edges(alloc: Global, n: &Numbers) -> Result<String, AllocError> {
    let mut text = String::new(alloc);
    for edge in EDGES {
        let x6 = n.known(3).unwrap_or(edge);
        let x7 = n.known(4).unwrap_or(edge);
        text.push_str(ended(alloc, n, registers(x6, x7, 0))?.as_str())?;
    }
    Ok(text)
}

fn ended(alloc: Global, n: &Numbers, registers: [u32; 32]) -> Result<String, AllocError> {
    let code = [n.word(1), n.word(2)];
    let mut machine = Machine::new(alloc, &code, START, START, registers);
    match machine.run(n.word(0)) {
        Err(halt) => format!(in alloc; " {halt};"),
        Ok(()) => format!(in alloc; " {:#x} at {:#x};", value(&machine, 5), machine.pc()),
    }
}

/// Whether so many steps can be made; the row of one more, or why there is none; and x0, x5, x6,
/// x7, x10 and a word in memory then.
pub fn run(alloc: Global, n: &Numbers) -> Result<String, AllocError> {
    let code = [n.word(1), n.word(2)];
    let registers = registers(n.word(3), n.word(4), n.word(5));
    let mut machine = Machine::new(alloc, &code, START, START, registers);
    let ran = machine.run(n.word(0)).is_ok();
    let last = match machine.step() {
        Err(halt) => format!(in alloc; "{halt}")?,
        Ok(row) if row.call => format!(in alloc; "call {:#x} to {:#x}", row.at, row.next)?,
        Ok(row) => format!(in alloc; "row {:#x} to {:#x}", row.at, row.next)?,
    };
    let state = state(alloc, &machine, n.word(6))?;
    format!(in alloc; "{ran}; {last}; {state}")
}

fn state(alloc: Global, machine: &Machine<'_>, base: u32) -> Result<String, AllocError> {
    let (x0, x5) = (value(machine, 0), value(machine, 5));
    let (x6, x7) = (value(machine, 6), value(machine, 7));
    let (x10, word) = (value(machine, 10), stored(machine, base));
    format!(in alloc;
        "pc {:#x}, x0 {x0}, x5 {x5:#x}, x6 {x6:#x}, x7 {x7:#x}, x10 {x10}, word {word:#x}",
        machine.pc()
    )
}
