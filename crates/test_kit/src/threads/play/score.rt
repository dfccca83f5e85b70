//! Drawn turns and drawn code.

ghost use Rattle.std.specs.Prelude.{◌≡◌, ◌<◌, ◌≤◌, ◌/◌, ◌%◌, ℕ, nat_lt, if◌then◌else◌, length, slice_index_or, IfOk};
ghost use Rattle.rept_isa.specs.declared.instr.Instr.{Instr};
ghost use Rattle.test_kit.specs.Threads.Turns.Turns.{rows_in, all_rows};
ghost use Rattle.test_kit.specs.Threads.Play.Code.{IsPlayCode, IsPlayable, drawn_in};
ghost use Rattle.test_kit.specs.Threads.Play.Drawn.{thread_end, stream_end, last_end, last_begin, to_call, drawn_early, begin_of, next_turn, drawn_turns, made_instr};

use crate::threads::play::count::rows_in;
use crate::threads::play::draw::{draw, made_instr};
use crate::threads::turns::Turn;
use rept_isa::Instr;
use std::alloc::{AllocError as OutOfMemory, Global};

/// How much is drawn.
#[derive(Clone, Copy)]
pub struct Sizes {
    /// Of how many threads turns are drawn, from 1 to 4.
    pub threads: u32,
    /// By how many streams they are told, 1 at least and no more than threads.
    pub streams: u32,
    /// How many turns there are, at most 64.
    pub turns: u32,
}

/// The latest end of a thread's turns.
fn thread_end(thread: u32, turns: &[Turn]) -> u64
    ensures { result ≡ thread_end thread turns.now }
{
    let mut latest = 0;
    for turn in turns {
        if turn.thread == thread {
            latest = turn.end.max(latest);
        }
    }
    latest
}

/// The latest end of a stream's turns.
fn stream_end(stream: u32, turns: &[Turn]) -> u64
    ensures { result ≡ stream_end stream turns.now }
{
    let mut latest = 0;
    for turn in turns {
        if turn.stream == stream {
            latest = turn.end.max(latest);
        }
    }
    latest
}

/// The latest begin of all turns.
fn last_begin(turns: &[Turn]) -> u64
    ensures { result ≡ last_begin turns.now }
{
    let mut latest = 0;
    for turn in turns {
        latest = turn.begin.max(latest);
    }
    latest
}

/// How many rows lead from a place in the code to the end of the next call.
fn to_call(place: u32) -> u32
    requires { place < 16 }
    ensures { result ≡ to_call place }
{
    if place <= 7 { 8 - place } else { 24 - place }
}

/// The thread or the stream of the turn of this number: what is drawn, but for the first turn of
/// each stream the stream's number.
fn own_or(sizes: Sizes, number: u32, drawn: u32) -> u32
    ensures { result ≡ (if nat_lt number sizes.streams then number else drawn) }
{
    if number < sizes.streams {
        number
    } else {
        drawn
    }
}

/// From when on the turn of this number may begin.
fn drawn_early(seed: u32, sizes: Sizes, number: u32) -> u64
    requires number { number < 64 }
    ensures { result ≡ drawn_early sizes seed number }
{
    if number < sizes.streams {
        return 0;
    }
    (8 * u64::from(number)).saturating_sub(u64::from(draw(seed, 243 + 5 * number, 16)))
}

/// When a turn begins that may begin from `early` on, after these.
fn begin_of(early: u64, thread: u32, stream: u32, turns: &[Turn]) -> u64
    ensures { result ≡ begin_of early thread stream turns.now }
{
    early.max(thread_end(thread, turns).max(stream_end(stream, turns)))
}

/// The turn of this number, after these.
fn next_turn(seed: u32, sizes: Sizes, number: u32, turns: &[Turn]) -> Turn
    requires threads { 1 ≤ sizes.threads }
    requires streams { 1 ≤ sizes.streams }
    requires number { number < 64 }
    requires few { all_rows turns.now ≤ 65536 }
    requires soon { last_end turns.now ≤ 65536 }
    ensures { result ≡ next_turn sizes seed number turns.now }
{
    let thread = own_or(sizes, number, draw(seed, 240 + 5 * number, sizes.threads));
    let stream = own_or(sizes, number, draw(seed, 241 + 5 * number, sizes.streams));
    let rows = 1 + draw(seed, 242 + 5 * number, 8);
    let place = rows_in(thread, turns) % 16;
    let early = drawn_early(seed, sizes, number);
    let late = 8 * u64::from(number) + u64::from(draw(seed, 244 + 5 * number, 16));
    let begin = begin_of(early, thread, stream, turns);
    let end = late.max((begin + 1).max(last_begin(turns)));
    Turn {
        thread,
        stream,
        count: rows.min(to_call(place)),
        begin,
        end,
    }
}

/// The turns of a seed.
pub fn made_turns(alloc: Global, seed: u32, sizes: Sizes) -> Result<Vec<Turn>, OutOfMemory>
    requires threads { 1 ≤ sizes.threads }
    requires streams { 1 ≤ sizes.streams }
    requires turns { sizes.turns ≤ 64 }
    ensures { IfOk result (λ turns. turns.items ≡ drawn_turns sizes seed sizes.turns) }
{
    let mut turns = Vec::new(alloc);
    for number in 0..sizes.turns {
        let turn = next_turn(seed, sizes, number, turns.as_slice());
        turns.push(turn)?;
    }
    Ok(turns)
}

/// The code of a seed.
pub fn made_code(alloc: Global, seed: u32) -> Result<Vec<Instr>, OutOfMemory>
    ensures code { IfOk result (λ code. IsPlayCode code.items) }
    ensures drawn { IfOk result (λ code. (t s : ℕ) → t < 4 → s < 15 → drawn_in code.items t s ≡ made_instr seed t s) }
{
    let mut code = Vec::new(alloc);
    for i in 0..60 {
        let instr = made_instr(seed, i / 15, i % 15);
        if let Err(_) = code.push(instr) {
            return Err(OutOfMemory);
        }
    }
    Ok(code)
}
