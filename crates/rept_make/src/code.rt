//! The registers and the code of a made crash.

ghost use Rattle.std.specs.Prelude.{◌≡◌, IfOk};
ghost use Rattle.rept_make.specs.Draws.{drawn_times};
ghost use Rattle.rept_make.specs.Start.{start_registers};
ghost use Rattle.rept_make.specs.Words.{IsCode};

use crate::draw::{draw_slot, drawn};
use crate::slot::slot_instr;
use rept_isa::encode;
use std::alloc::{AllocError, Global};

/// The registers at the start of a made run, and the state after their draws.
#[tactic(auto, unfolding(crate::specs::Draws::drawn_times))]
pub fn start_registers(seed: u32) -> ([u32; 32], u32)
    ensures registers { result.0 ≡ start_registers seed }
    ensures state { result.1 ≡ drawn_times 11 seed }
{
    let x5 = drawn(seed);
    let x6 = drawn(x5);
    let x7 = drawn(x6);
    let x8 = drawn(x7);
    let x9 = drawn(x8);
    let x10 = drawn(x9);
    let x11 = drawn(x10);
    let x12 = drawn(x11);
    let x13 = drawn(x12);
    let x14 = drawn(x13);
    let x15 = drawn(x14);
    let registers = [
        0, 0, 0, 0, 0, x5, x6, x7, x8, x9, x10, x11, x12, x13, x14, x15, 0, 172, 0, 0, 0x20000, 0,
        0x20000, 0x10108, 0, 0, 0, 0, 0, 0, 0, 0,
    ];
    (registers, x15)
}

/// The words of a seed's code, where the state is that after the draws of its registers.
pub fn made_code(alloc: Global, seed: u32, state: u32) -> Result<Vec<u32>, AllocError>
    requires { state ≡ drawn_times 11 seed }
    ensures { IfOk result (λ code. IsCode seed code.items) }
{
    let mut state = state;
    let mut code = Vec::new(alloc);
    for i in 0..256 {
        let (slot, next) = draw_slot(state);
        let word = encode(&slot_instr(i, slot));
        code.push(word)?;
        state = next;
    }
    Ok(code)
}
