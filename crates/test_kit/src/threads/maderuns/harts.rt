//! What harts did in a play.

ghost use Rattle.std.specs.Prelude.{◌≡◌, ◌+◌, ◌<◌, ◌≤◌, ℕ, [], List, length, take, drop, IfOk};
ghost use Rattle.std.specs.List.{All};
ghost use Rattle.rept_steps.specs.Linked.{AreLinked};
ghost use Rattle.test_kit.specs.declared.threads.turns.turn.Turn.{Turn};
ghost use Rattle.test_kit.specs.Threads.Turns.Turns.{rows_in};
ghost use Rattle.test_kit.specs.Threads.Maderuns.Harts.{HaveRows, steps_in, stretch_in, stretches_of, harts_of};

use crate::threads::play::rows_in;
use crate::threads::turns::Turn;
use rept_encode::{Hart, HartStretch, Harts};
use rept_isa::StepRow;
use rept_steps::{PushFault, Steps, ThreadRows};
use std::alloc::{AllocError as OutOfMemory, Global};

/// These rows as steps.
fn steps_of(alloc: Global, rows: &[StepRow]) -> Result<Steps, OutOfMemory>
    requires linked { AreLinked rows.now }
    requires few { length rows.now ≤ 65536 }
    ensures { IfOk result (λ steps. steps ≡ rows.now) }
{
    let mut steps = Steps::new(alloc);
    for i in 0..rows.len() {
        match steps.push(rows[i]) {
            Ok(()) => (),
            Err(fault) => match fault {
                PushFault::OutOfMemory => return Err(OutOfMemory),
                PushFault::Full => unreachable!(),
            },
        }
    }
    Ok(steps)
}

/// The rows of a thread.
fn rows_of(threads: &[ThreadRows], thread: u32) -> &[StepRow]
    requires { thread < length threads.now }
    ensures rows { result.now ≡ steps_in threads.now thread }
    ensures linked { AreLinked result.now }
{
    threads[thread as usize].steps.rows()
}

/// The rows from one on, `count` of them.
fn part(rows: &[StepRow], first: usize, count: usize) -> &[StepRow]
    requires { first + count ≤ length rows.now }
    ensures { result.now ≡ take count (drop first rows.now) }
{
    let rest = &rows[first..];
    &rest[..count]
}

/// A turn as a stretch. The first row of it has this number in its thread. Processes are counted
/// from 1.
fn stretch_of(
    alloc: Global,
    threads: &[ThreadRows],
    first: u32,
    turn: &Turn,
) -> Result<HartStretch, OutOfMemory>
    requires threads { length threads.now ≤ 4 }
    requires thread { turn.now.thread < length threads.now }
    requires rows { first + turn.now.count ≤ length (steps_in threads.now turn.now.thread) }
    requires few { length (steps_in threads.now turn.now.thread) ≤ 65536 }
    ensures { IfOk result (λ stretch. stretch ≡ stretch_in threads.now first turn.now) }
{
    let rows = rows_of(threads, turn.thread);
    let own = part(rows, first as usize, turn.count as usize);
    let steps = steps_of(alloc, own)?;
    Ok(HartStretch {
        process: turn.thread + 1,
        begin: turn.begin,
        end: turn.end,
        steps,
    })
}

/// The hart of a stream: its turns as stretches.
fn hart_of(
    alloc: Global,
    threads: &[ThreadRows],
    stream: u32,
    turns: &[Turn],
) -> Result<Hart, OutOfMemory>
    requires { HaveRows threads.now turns.now }
    ensures { IfOk result (λ hart. hart ≡ stretches_of threads.now stream [] turns.now) }
{
    let mut hart = Hart::new(alloc);
    for i in 0..turns.len() {
        let turn = turns[i];
        if turn.stream == stream {
            let first = rows_in(turn.thread, &turns[..i]);
            hart.push(stretch_of(alloc, threads, first, &turn)?)?;
        }
    }
    Ok(hart)
}

/// The harts of so many streams.
pub fn harts_of(
    alloc: Global,
    threads: &[ThreadRows],
    turns: &[Turn],
    streams: u32,
) -> Result<Harts, OutOfMemory>
    requires { HaveRows threads.now turns.now }
    ensures { IfOk result (λ harts. harts ≡ harts_of threads.now turns.now streams 0) }
{
    let mut harts = Harts::new(alloc);
    for stream in 0..streams {
        harts.push(hart_of(alloc, threads, stream, turns)?)?;
    }
    Ok(harts)
}
