//! Made runs of several threads.

ghost use Rattle.std.specs.Prelude.{◌≡◌, ◌≤◌, IfOk};
ghost use Rattle.test_kit.specs.Threads.Play.Drawn.{start_registers};
ghost use Rattle.test_kit.specs.Threads.Play.Made.{IsPlayMade};

use crate::threads::play::draw::draw;
use crate::threads::play::playing::{Played, play};
use crate::threads::play::score::{Sizes, made_code, made_turns};
use crate::threads::turns::Turn;
use rept_isa::Instr;
use std::alloc::{AllocError as OutOfMemory, Global};

/// A made run of several threads.
#[derive(Drop)]
pub struct Made {
    /// The 15 instructions of each thread, one thread after the other.
    pub code: Vec<Instr>,
    /// The turns, in the order in which they happened.
    pub turns: Vec<Turn>,
    /// The run, and what it left.
    pub played: Played,
}

/// The registers at the start: the number of getpid (172) in x17, 0x20000 in the first register of
/// each thread, and drawn numbers in the others.
fn start_registers(seed: u32) -> [u32; 32]
    ensures { result ≡ start_registers seed }
{
    let a = draw(seed, 600, 0x1_0000);
    let b = draw(seed, 601, 0x1_0000);
    let c = draw(seed, 602, 0x1_0000);
    let d = draw(seed, 603, 0x1_0000);
    [
        0, 0, 0, 0, 0, 0, 0, 0, 0, 0, 0, 0, 0, 0, 0, 0, 0, 172, 0x2_0000, a, 0, 0x2_0000, b, 0,
        0x2_0000, c, 0, 0x2_0000, d, 0, 0, 0,
    ]
}

/// The made run of a seed: code and turns that are drawn from it, and their play. There is an
/// execution of the run, which is sound. No turn of a stream overlaps another one of it, and all
/// streams begin at time 0. An `Err` is a want of memory alone.
pub fn make_play(alloc: Global, seed: u32, sizes: Sizes) -> Result<Made, OutOfMemory>
    requires some { 1 ≤ sizes.threads }
    requires threads { sizes.threads ≤ 4 }
    requires streams { 1 ≤ sizes.streams }
    requires fewer { sizes.streams ≤ sizes.threads }
    requires turns { sizes.turns ≤ 64 }
    ensures { IfOk result (λ made. IsPlayMade seed sizes made) }
{
    let code = made_code(alloc, seed)?;
    let turns = made_turns(alloc, seed, sizes)?;
    let played = play(
        alloc,
        code.as_slice(),
        turns.as_slice(),
        start_registers(seed),
    )?;
    Ok(Made {
        code,
        turns,
        played,
    })
}
