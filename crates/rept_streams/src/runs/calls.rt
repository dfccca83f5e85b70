//! The calls in which threads stand as their steps begin.

ghost use Rattle.std.specs.Prelude.{nat_le, ◌≡◌, ◌<◌, ◌+◌, ◌∷◌, ◌++◌, ◌^◌, [], ℕ, List, length, map, IfOk, IfErr, IfSome, OnOk, Some, slice_get};
ghost use Rattle.rept_path.specs.Code.{look, calls_there};
ghost use Rattle.rept_path.specs.Program.{code_of};
ghost use Rattle.rept_path.specs.declared.fault.PathFault.TheVariants.{OutOfMemory};
ghost use Rattle.rept_steps.specs.Linked.{AreLinked, BeginAt};
ghost use Rattle.rept_steps.specs.Course.{TakeRows, rows_of, slices_of};
ghost use Rattle.rept_steps.specs.declared.threads.ThreadRows.{ThreadRows};
ghost use Rattle.rept_steps.specs.Runs.{course_of};
ghost use Rattle.rept_timeline.specs.Small.{rows_in};
ghost use Rattle.rept_streams.specs.declared.threads.notes.KeptNote.{KeptNote};
ghost use Rattle.rept_streams.specs.Runs.Calls.{begin_address, call_before, entered, is_shared, later_by, with_call, with_calls, with_row};

use crate::threads::joins::add_row;
use crate::threads::notes::KeptNote;
use rept_isa::{Instr, StepRow};
use rept_path::program::Program;
use rept_path::{PathFault, by_half, by_word};
use rept_steps::{LIMIT, Run, Slice, Slices, Steps, ThreadRows, Threads};
use std::alloc::Global;

/// The slice of such a call.
const ENTRY: Slice = Slice {
    stream: 0,
    begin: 0,
    end: 0,
    first: 0,
    count: 1,
};

/// Whether this is a call.
fn is_call(found: &Result<Instr, PathFault>) -> bool
    ensures { result ≡ calls_there found.now }
{
    matches!(found, Ok(Instr::Ecall))
}

/// Whether a call stands at an address of code.
fn holds_call(program: &Program<'_>, address: u32) -> bool
    ensures { result ≡ calls_there (look (code_of program.now) address) }
{
    if address % program.alignment() != 0 {
        return false;
    }
    match program.short_half(address) {
        Some(half) => is_call(&by_half(address, half)),
        None => is_call(&by_word(address, program.dump.word_of_code(address))),
    }
}

/// The step of the call that stands right before an address, if one does.
fn call_before(program: &Program<'_>, address: u32) -> Option<StepRow>
    ensures value { result ≡ call_before (code_of program.now) address }
    ensures next { IfSome result (λ row. row.next ≡ address) }
{
    if address < 4 || !holds_call(program, address - 4) {
        return None;
    }
    Some(StepRow {
        at: address - 4,
        instr: Instr::Ecall,
        next: address,
        call: true,
        short: program.is_short(address - 4),
    })
}

/// Where the steps of a thread begin: at the first one; of a thread without steps at its program
/// counter.
fn begin_address(rows: &[StepRow], pc: u32) -> u32
    ensures value { result ≡ begin_address rows.now pc }
    ensures begins { BeginAt rows.now result }
{
    match rows.first() {
        Some(row) => row.at,
        None => pc,
    }
}

/// Adds steps after others, which lead to them.
fn add_rows(steps: &mut Steps, rows: &[StepRow]) -> Result<(), PathFault>
    requires { AreLinked (steps.old ++ rows.now) }
    ensures ok { OnOk result (steps.new ≡ steps.old ++ rows.now) }
    ensures err { IfErr result (λ e. e ≡ OutOfMemory) }
{
    for row in rows {
        add_row(steps, row)?;
    }
    Ok(())
}

/// Adds a slice.
fn add_slice(slices: &mut Slices, slice: Slice) -> Result<(), PathFault>
    ensures ok { OnOk result (slices.new ≡ slices.old ++ slice ∷ []) }
    ensures err { IfErr result (λ e. e ≡ OutOfMemory) }
{
    match slices.push(slice) {
        Ok(()) => Ok(()),
        Err(_) => Err(PathFault::OutOfMemory),
    }
}

/// A slice whose steps have numbers greater by `places` than they had.
fn later(slice: &Slice, places: u32) -> Slice
    ensures { slice.now.first + places < 2 ^ 32 → result ≡ later_by places slice.now }
{
    Slice {
        stream: slice.stream,
        begin: slice.begin,
        end: slice.end,
        first: slice.first.saturating_add(places),
        count: slice.count,
    }
}

/// Adds slices whose steps have numbers greater by `places` than they had.
fn add_slices(slices: &mut Slices, own: &[Slice], places: u32) -> Result<(), PathFault>
    ensures ok { (n : ℕ) → TakeRows 0 own.now n → n + places < 2 ^ 32 → OnOk result (slices.new ≡ slices.old ++ map (later_by places) own.now) }
    ensures err { IfErr result (λ e. e ≡ OutOfMemory) }
{
    for slice in own {
        add_slice(slices, later(slice, places))?;
    }
    Ok(())
}

/// The steps and the slices of a thread once more.
#[tactic(auto, using(crate::proofs::RunsLemmas::Adding::in_place))]
fn copy_of(alloc: Global, thread: &ThreadRows) -> Result<ThreadRows, PathFault>
    ensures ok { TakeRows 0 thread.now.slices (length thread.now.steps) → IfOk result (λ t. t ≡ thread.now) }
    ensures err { IfErr result (λ e. e ≡ OutOfMemory) }
{
    let mut steps = Steps::new(alloc);
    let mut slices = Slices::new(alloc);
    add_rows(&mut steps, thread.steps.rows())?;
    add_slices(&mut slices, thread.slices.all(), 0)?;
    Ok(ThreadRows { steps, slices })
}

/// Those after a step in a slice of its own, which leads to them.
fn after_row(alloc: Global, row: StepRow, thread: &ThreadRows) -> Result<ThreadRows, PathFault>
    requires { BeginAt thread.now.steps row.next }
    ensures ok { TakeRows 0 thread.now.slices (length thread.now.steps) → IfOk result (λ t. t ≡ with_row row thread.now) }
    ensures err { IfErr result (λ e. e ≡ OutOfMemory) }
{
    let mut steps = Steps::new(alloc);
    let mut slices = Slices::new(alloc);
    add_row(&mut steps, &row)?;
    add_slice(&mut slices, ENTRY)?;
    add_rows(&mut steps, thread.steps.rows())?;
    add_slices(&mut slices, thread.slices.all(), 1)?;
    Ok(ThreadRows { steps, slices })
}

/// A thread that ends at this program counter, with the call in which it stands as its steps begin.
fn with_call(
    alloc: Global,
    program: &Program<'_>,
    pc: u32,
    thread: &ThreadRows,
) -> Result<ThreadRows, PathFault>
    ensures ok { TakeRows 0 thread.now.slices (length thread.now.steps) → IfOk result (λ t. t ≡ with_call (code_of program.now) pc thread.now) }
    ensures err { IfErr result (λ e. e ≡ OutOfMemory) }
{
    let address = begin_address(thread.steps.rows(), pc);
    match call_before(program, address) {
        None => copy_of(alloc, thread),
        Some(row) => after_row(alloc, row, thread),
    }
}

/// Where a thread stands at the end.
fn pc_at(notes: &[KeptNote], t: usize) -> u32
    ensures { (n : KeptNote) → slice_get notes.now t ≡ Some n → result ≡ n.pc }
{
    match notes.get(t) {
        Some(note) => note.pc,
        None => 0,
    }
}

/// Threads that end as these notes have it, with the calls in which they stand as their steps
/// begin.
fn with_calls(
    alloc: Global,
    program: &Program<'_>,
    notes: &[KeptNote],
    old: &[ThreadRows],
) -> Result<Threads, PathFault>
    ensures ok { ((t : ℕ) (th : ThreadRows) → slice_get old.now t ≡ Some th → TakeRows 0 th.slices (length th.steps)) → length notes.now ≡ length old.now → IfOk result (λ new. new ≡ with_calls (code_of program.now) (map (λ (n : KeptNote). n.pc) notes.now) old.now) }
    ensures err { IfErr result (λ e. e ≡ OutOfMemory) }
{
    let mut threads = Threads::new(alloc);
    for t in 0..old.len() {
        let thread = with_call(alloc, program, pc_at(notes, t), &old[t])?;
        if let Err(_) = threads.push(thread) {
            return Err(PathFault::OutOfMemory);
        }
    }
    Ok(threads)
}

/// Whether threads have at most so many steps together.
fn are_few(threads: &[ThreadRows], most: usize) -> bool
    ensures { result ≡ nat_le (rows_in threads.now) most }
{
    let mut room = most;
    for thread in threads {
        let taken = thread.steps.len() as usize;
        if taken > room {
            return false;
        }
        room -= taken;
    }
    true
}

/// Whether a run is more than one thread of which all is traced.
fn is_shared(run: &Run) -> bool
    ensures { result ≡ is_shared run.now }
{
    run.threads.all().len() > 1 || run.untraced.is_some()
}

/// A run of threads that end as these notes have it, with the calls in which they stand as their
/// steps begin. A run of one thread without an untraced prefix stays as it is, and one that would
/// have more than 65,536 steps with these calls.
#[tactic(auto, using(crate::proofs::RunsLemmas::Entering::entered_full))]
pub fn entered(
    alloc: Global,
    program: &Program<'_>,
    notes: &[KeptNote],
    run: Run,
) -> Result<Run, PathFault>
    ensures ok { ((t : ℕ) → TakeRows 0 (slices_of (course_of run) t) (length (rows_of (course_of run) t))) → length notes.now ≡ length run.threads →
        IfOk result (λ new. new ≡ entered (code_of program.now) (map (λ (n : KeptNote). n.pc) notes.now) run) }
    ensures err { IfErr result (λ e. e ≡ OutOfMemory) }
{
    if !is_shared(&run) {
        return Ok(run);
    }
    // With as many steps as there may be nothing is added, and no thread could take one more.
    if !are_few(run.threads.all(), LIMIT - 1) {
        return Ok(run);
    }
    let threads = with_calls(alloc, program, notes, run.threads.all())?;
    if !are_few(threads.all(), LIMIT) {
        return Ok(run);
    }
    Ok(Run {
        threads,
        untraced: run.untraced,
        skipped: run.skipped,
    })
}
