//! What each thread of a play executed.

ghost use Rattle.std.specs.Prelude.{◌≡◌, ◌<◌, ◌≤◌, ℕ, length, slice_get, Some, IfOk};
ghost use Rattle.rept_steps.specs.declared.threads.ThreadRows.{ThreadRows};
ghost use Rattle.test_kit.specs.Threads.Turns.Turns.{rows_in, slices_from};
ghost use Rattle.test_kit.specs.Threads.Play.Code.{IsPlayCode, IsPlayable, IsThread, AreThreads, row_in};

use crate::threads::play::code::row_in;
use crate::threads::play::count::rows_in;
use crate::threads::turns::Turn;
use rept_isa::Instr;
use rept_steps::{PushFault, Slice, Slices, Steps, ThreadRows, Threads};
use std::alloc::{AllocError as OutOfMemory, Global};

/// The first rows of a thread.
fn steps_of(alloc: Global, code: &[Instr], thread: u32, count: u32) -> Result<Steps, OutOfMemory>
    requires code { IsPlayCode code.now }
    requires thread { thread < 4 }
    requires few { count ≤ 65536 }
    ensures size { IfOk result (λ steps. length steps ≡ count) }
    ensures rows { IfOk result (λ steps. (i : ℕ) → i < count → slice_get steps i ≡ Some (row_in code.now thread i)) }
{
    let mut steps = Steps::new(alloc);
    for i in 0..count {
        match steps.push(row_in(code, thread, i)) {
            Ok(()) => (),
            Err(fault) => match fault {
                PushFault::OutOfMemory => return Err(OutOfMemory),
                PushFault::Full => unreachable!(),
            },
        }
    }
    Ok(steps)
}

/// The turns of a thread as slices.
fn slices_of(alloc: Global, thread: u32, turns: &[Turn]) -> Result<Slices, OutOfMemory>
    requires { rows_in thread turns.now ≤ 65536 }
    ensures { IfOk result (λ slices. slices ≡ slices_from thread 0 turns.now) }
{
    let mut slices = Slices::new(alloc);
    let mut first = 0;
    for turn in turns {
        if turn.thread == thread {
            slices.push(Slice {
                stream: turn.stream,
                begin: turn.begin,
                end: turn.end,
                first,
                count: turn.count,
            })?;
            first += turn.count;
        }
    }
    Ok(slices)
}

/// One thread.
fn thread_of(
    alloc: Global,
    code: &[Instr],
    thread: u32,
    turns: &[Turn],
) -> Result<ThreadRows, OutOfMemory>
    requires playable { IsPlayable code.now turns.now }
    requires thread { thread < 4 }
    ensures { IfOk result (λ rows. IsThread code.now turns.now thread rows) }
{
    let count = rows_in(thread, turns);
    let steps = steps_of(alloc, code, thread, count)?;
    let slices = slices_of(alloc, thread, turns)?;
    Ok(ThreadRows { steps, slices })
}

/// The four threads.
pub fn threads_of(alloc: Global, code: &[Instr], turns: &[Turn]) -> Result<Threads, OutOfMemory>
    requires { IsPlayable code.now turns.now }
    ensures { IfOk result (λ threads. AreThreads code.now turns.now threads) }
{
    let mut threads = Threads::new(alloc);
    for thread in 0..4 {
        threads.push(thread_of(alloc, code, thread, turns)?)?;
    }
    Ok(threads)
}
