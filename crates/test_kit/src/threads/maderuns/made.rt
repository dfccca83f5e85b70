//! A made run as a whole.

ghost use Rattle.std.specs.Prelude.{◌≤◌, ◌<◌, ◌^◌, ℕ, slice_index, IfOk};
ghost use Rattle.test_kit.specs.Threads.Play.Made.{IsPlayMade};
ghost use Rattle.test_kit.specs.Threads.Maderuns.Made.{IsMadeRun};
ghost use Rattle.test_kit.specs.Threads.Maderuns.Told.{IsToldByFiles};

use crate::threads::maderuns::code::words_of;
use crate::threads::maderuns::files::core_file;
use crate::threads::maderuns::harts::harts_of;
use crate::threads::maderuns::trace::trace_of;
use crate::threads::play::{Made, Sizes, make_play};
use crate::threads::woven::laws::runs_are_whole;
use rept_make::executable;
use rept_word::{OutOfMemory, Text};
use std::alloc::Global;

/// A made run of several threads, and its files.
#[derive(Drop)]
pub struct MadeRun {
    /// The code, the turns, the run, and what it left.
    pub made: Made,
    /// The executable.
    pub exe: Text,
    /// The core file, with a register note for each of four threads.
    pub core: Text,
    /// The trace, with a stream for each of the streams that were asked for.
    pub trace: Text,
}

/// That each register is a word.
fn are_words(registers: &[u32; 32])
    ensures { (i : ℕ) → slice_index registers.now i < 2 ^ 32 }
{
    let _ = registers.as_slice();
}

/// The files of a made run.
fn save(alloc: Global, seed: u32, sizes: Sizes, made: Made) -> Result<MadeRun, OutOfMemory>
    requires made { IsPlayMade seed sizes made }
    requires streams { 1 ≤ sizes.streams }
    requires few { sizes.streams ≤ 4 }
    requires turns { 1 ≤ sizes.turns }
    ensures made { IfOk result (λ made. IsMadeRun seed sizes made) }
    ensures told { IfOk result (λ made. IsToldByFiles seed made) }
{
    runs_are_whole();
    are_words(&made.played.registers);
    let turns = made.turns.as_slice();
    let words = words_of(alloc, made.code.as_slice())?;
    let exe = executable(alloc, 256, 7, words.as_slice())?;
    let core = core_file(
        alloc,
        turns,
        &made.played.registers,
        made.played.bytes.as_slice(),
    )?;
    let harts = harts_of(alloc, made.played.run.threads.all(), turns, sizes.streams)?;
    let trace = trace_of(alloc, &harts)?;
    Ok(MadeRun {
        made,
        exe,
        core,
        trace,
    })
}

/// The made run of a seed as files: an executable of the code of four threads, a core file with a
/// register note for each of them and the data, and a trace of as many streams as were asked for,
/// all of which begin at time 0. The files are read as that run, and there is an execution of it,
/// from the start registers of the seed and a memory of zeros, that ends in the core file. An `Err`
/// is a want of memory; a stream of 2^32 bytes or more is one too.
pub fn make_run(alloc: Global, seed: u32, sizes: Sizes) -> Result<MadeRun, OutOfMemory>
    requires some { 1 ≤ sizes.threads }
    requires threads { sizes.threads ≤ 4 }
    requires streams { 1 ≤ sizes.streams }
    requires fewer { sizes.streams ≤ sizes.threads }
    requires some_turns { 1 ≤ sizes.turns }
    requires turns { sizes.turns ≤ 64 }
    ensures made { IfOk result (λ made. IsMadeRun seed sizes made) }
    ensures told { IfOk result (λ made. IsToldByFiles seed made) }
{
    let made = make_play(alloc, seed, sizes)?;
    save(alloc, seed, sizes, made)
}
