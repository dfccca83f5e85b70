//! The bytes that are told at the first point.

ghost use Rattle.std.specs.Prelude.{◌≡◌, ◌+◌, ◌<◌, ◌≤◌, ℕ, length, true, IfSome, OnOk};
ghost use Rattle.rept_machine.specs.State.{State};
ghost use Rattle.rept_narrow.specs.Lanes.{IsTrueSweep};
ghost use Rattle.rept_narrow.specs.Admitted.{Story};
ghost use Rattle.rept_narrow.specs.Rules.{HasSets};
ghost use Rattle.rept_narrow.specs.Sweeps.{memory_of};

use crate::asked::AskedWindows;
use crate::sweeping::accesses;
use rept_isa::{StepRow, register};
use rept_narrow::naming::{is_window_held, window_of};
use rept_narrow::{PathPremises, Sweep, Table};
use rept_partial::Partial;
use std::alloc::AllocError as OutOfMemory;

/// Whether an address is below each value that the stack pointer may have at the first point.
fn is_below_stack(table: &Table, address: u32) -> bool
    requires inside { 0 < table.now.points }
    ensures { result ≡ true → (story : Story) (run : ℕ → State) → HasSets story table.now run → address < (run 0).register 2 }
{
    address < table.at(0, register(2)).lo()
}

/// Whether an address is in the stack's area and below each value that the stack pointer may have
/// at the first point, where the path begins with the program's first instruction.
fn is_clear<P: PathPremises>(premises: &P, table: &Table, address: u32) -> bool
    requires inside { 0 < table.now.points }
    ensures { result ≡ true → (story : Story) (run : ℕ → State) → story.premises ≡ P.premises premises.now → HasSets story table.now run → (run 0).memory address ≡ 0 }
{
    match premises.clear_from() {
        None => false,
        Some(from) => from <= address && is_below_stack(table, address),
    }
}

/// The byte at an address at the first point, if it is told there.
fn first_byte<P: PathPremises>(premises: &P, table: &Table, address: u32) -> Option<u8>
    requires inside { 0 < table.now.points }
    ensures { IfSome result (λ v. (story : Story) (run : ℕ → State) → story.premises ≡ P.premises premises.now → HasSets story table.now run → (run 0).memory address ≡ v) }
{
    match premises.first_byte(address) {
        Some(value) => Some(value),
        None => {
            if is_clear(premises, table, address) {
                Some(0)
            } else {
                None
            }
        }
    }
}

/// Holds the byte at an address at the first point, if it is told there.
fn note_first<P: PathPremises>(
    sweep: &mut Sweep,
    premises: &P,
    table: &Table,
    address: u32,
) -> Result<(), OutOfMemory>
    requires here { sweep.old.point ≡ 0 }
    requires inside { 0 < table.now.points }
    ensures point { sweep.new.point ≡ sweep.old.point }
    ensures holds { OnOk result ((story : Story) (run : ℕ → State) → story.premises ≡ P.premises premises.now → HasSets story table.now run → IsTrueSweep (memory_of run) sweep.old → IsTrueSweep (memory_of run) sweep.new) }
{
    match first_byte(premises, table, address) {
        None => Ok(()),
        Some(value) => sweep.note(address, value),
    }
}

/// Holds 32 bytes at the first point, as far as they are told there.
fn note_window<P: PathPremises>(
    sweep: &mut Sweep,
    premises: &P,
    table: &Table,
    first: u32,
) -> Result<(), OutOfMemory>
    requires here { sweep.old.point ≡ 0 }
    requires inside { 0 < table.now.points }
    ensures point { sweep.new.point ≡ sweep.old.point }
    ensures holds { OnOk result ((story : Story) (run : ℕ → State) → story.premises ≡ P.premises premises.now → HasSets story table.now run → IsTrueSweep (memory_of run) sweep.old → IsTrueSweep (memory_of run) sweep.new) }
{
    for k in 0..32u32 {
        note_first(sweep, premises, table, first.wrapping_add(k))?;
    }
    Ok(())
}

/// Holds 32 bytes, if there are any, at the first point, as far as they are told there, unless they
/// are held.
fn note_window_first<P: PathPremises>(
    sweep: &mut Sweep,
    premises: &P,
    table: &Table,
    window: Option<u32>,
) -> Result<(), OutOfMemory>
    requires here { sweep.old.point ≡ 0 }
    requires inside { 0 < table.now.points }
    ensures point { sweep.new.point ≡ sweep.old.point }
    ensures holds { OnOk result ((story : Story) (run : ℕ → State) → story.premises ≡ P.premises premises.now → HasSets story table.now run → IsTrueSweep (memory_of run) sweep.old → IsTrueSweep (memory_of run) sweep.new) }
{
    match window {
        None => Ok(()),
        Some(first) => {
            if is_window_held(sweep, first) {
                Ok(())
            } else {
                note_window(sweep, premises, table, first)
            }
        }
    }
}

/// Holds the bytes around those that rows name at the first point, as far as they are told there.
pub fn start_on<P: PathPremises>(
    sweep: &mut Sweep,
    premises: &P,
    table: &Table,
    rows: &[StepRow],
) -> Result<(), OutOfMemory>
    requires here { sweep.old.point ≡ 0 }
    requires points { table.now.points ≡ length rows.now + 1 }
    ensures point { sweep.new.point ≡ sweep.old.point }
    ensures holds { OnOk result ((story : Story) (run : ℕ → State) → story.premises ≡ P.premises premises.now → HasSets story table.now run → IsTrueSweep (memory_of run) sweep.old → IsTrueSweep (memory_of run) sweep.new) }
{
    let mut asked = AskedWindows::new();
    for index in 0..table.points() - 1 {
        let row = &rows[index as usize];
        if accesses(row) {
            let window = asked.fresh(window_of(table, index, row));
            note_window_first(sweep, premises, table, window)?;
        }
    }
    Ok(())
}
