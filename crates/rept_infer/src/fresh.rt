//! The bytes of pages that calls hand out.

ghost use Rattle.std.specs.Prelude.{◌≡◌, ◌+◌, ◌<◌, ◌≤◌, ◌^◌, ℕ, length, true, Some, IfSome, OnOk, slice_get};
ghost use Rattle.rept_machine.specs.State.{State};
ghost use Rattle.rept_narrow.specs.Lanes.{IsTrueSweep};
ghost use Rattle.rept_narrow.specs.Admitted.{Story, IsCallAt, is_anonymous, page_from};
ghost use Rattle.rept_infer.specs.Fresh.{AreHandedOut, AreZero, IsHeapEnd};
ghost use Rattle.rept_narrow.specs.Rules.{HasSets};
ghost use Rattle.rept_narrow.specs.Sweeps.{memory_of};

use crate::asked::AskedWindows;
use crate::sweeping::accesses;
use rept_isa::{Instr, StepRow, register};
use rept_narrow::naming::{is_window_held, window_of};
use rept_narrow::{Sweep, Table};
use rept_partial::Partial;
use std::alloc::AllocError as OutOfMemory;

/// The number of brk.
const BRK: u32 = 214;
/// The number of mmap2.
const MMAP: u32 = 222;
/// The least answer that is an error.
const FIRST_ERROR: u32 = 0xffff_f001;

/// Bytes from an address to before another one, all of which are 0.
#[derive(Clone, Copy)]
struct ZeroBytes {
    from: u64,
    to: u64,
}

/// The value of a register at a point, if its set has only one.
fn value_at(table: &Table, point: u32, number: u8) -> Option<u32>
    requires inside { point < table.now.points }
    requires register { number < 32 }
    ensures { IfSome result (λ v. (story : Story) (run : ℕ → State) → point ≤ length story.rows → HasSets story table.now run → (run point).register number ≡ v) }
{
    match table.at(point, register(number)).as_exact() {
        None => None,
        Some(value) => Some(value),
    }
}

/// Whether a row is known to be a call of this number.
fn is_call(table: &Table, index: u32, row: &StepRow, number: u32) -> bool
    requires inside { index + 1 < table.now.points }
    ensures { result ≡ true → (story : Story) (run : ℕ → State) → slice_get story.rows index ≡ Some row.now → HasSets story table.now run → IsCallAt story run index number }
{
    match row.instr {
        Instr::Ecall => match value_at(table, index, 17) {
            None => false,
            Some(called) => called == number,
        },
        _ => false,
    }
}

/// Whether a row is known to be no call of this number.
fn is_no_call(table: &Table, index: u32, row: &StepRow, number: u32) -> bool
    requires inside { index + 1 < table.now.points }
    ensures { result ≡ true → (story : Story) (run : ℕ → State) → slice_get story.rows index ≡ Some row.now → HasSets story table.now run → IsCallAt story run index number → ⊥ }
{
    match row.instr {
        Instr::Ecall => match value_at(table, index, 17) {
            None => false,
            Some(called) => called != number,
        },
        _ => true,
    }
}

/// What brk answers at a row, if the row is known to call it.
fn brk_answer(table: &Table, index: u32, row: &StepRow) -> Option<u32>
    requires inside { index + 1 < table.now.points }
    ensures { IfSome result (λ v. (story : Story) (run : ℕ → State) → slice_get story.rows index ≡ Some row.now → HasSets story table.now run → IsCallAt story run index 214 × ((run (index + 1)).register 10 ≡ v)) }
{
    // for the proof alone
    let _points = table.points();
    if is_call(table, index, row, BRK) {
        value_at(table, index + 1, 10)
    } else {
        None
    }
}

/// Where the heap ended by the last call of brk before a row.
fn heap_end(table: &Table, rows: &[StepRow], index: u32) -> Option<u32>
    requires points { table.now.points ≡ length rows.now + 1 }
    requires inside { index < length rows.now }
    ensures { IfSome result (λ v. (story : Story) (run : ℕ → State) → story.rows ≡ rows.now → HasSets story table.now run → IsHeapEnd story run index v) }
{
    // for the proof alone
    let _points = table.points();
    for back in 0..index {
        let before = index - 1 - back;
        let row = rows[before as usize];
        if !is_no_call(table, before, &row, BRK) {
            return brk_answer(table, before, &row);
        }
    }
    None
}

/// The first address of a page that isn't below an address.
fn page_from(address: u32) -> u64
    ensures { result ≡ page_from address }
{
    (u64::from(address) + 4095) / 4096 * 4096
}

/// An address as a number of 64 bits.
fn wide(address: u32) -> u64
    ensures { result ≡ address }
{
    u64::from(address)
}

/// Whether mmap2's flags name pages of no file.
fn is_anonymous(flags: u32) -> bool
    ensures { result ≡ is_anonymous flags }
{
    flags & 32 != 0
}

/// The bytes of the pages that brk hands out at a row.
fn fresh_heap(table: &Table, rows: &[StepRow], index: u32) -> Option<ZeroBytes>
    requires points { table.now.points ≡ length rows.now + 1 }
    requires inside { index < length rows.now }
    ensures { IfSome result (λ z. (story : Story) (run : ℕ → State) → story.rows ≡ rows.now → HasSets story table.now run → IsCallAt story run index 214 → AreZero run (index + 1) z.from z.to) }
{
    // for the proof alone
    let _points = table.points();
    match heap_end(table, rows, index) {
        None => None,
        Some(old) => match value_at(table, index + 1, 10) {
            None => None,
            Some(new) => Some(ZeroBytes {
                from: page_from(old),
                to: wide(new),
            }),
        },
    }
}

/// The bytes that mmap2 hands out by these flags and this answer, when so many are asked for, if
/// they are of no file.
fn handed_out(flags: u32, answer: u32, asked: u32) -> Option<ZeroBytes>
    ensures { IfSome result (λ z. AreHandedOut z.from z.to flags answer asked) }
{
    if is_anonymous(flags) && answer < FIRST_ERROR {
        let from = u64::from(answer);
        Some(ZeroBytes {
            from,
            to: from + u64::from(asked),
        })
    } else {
        None
    }
}

/// The bytes of the pages of no file that mmap2 hands out at a row.
fn fresh_map(table: &Table, index: u32) -> Option<ZeroBytes>
    requires inside { index + 1 < table.now.points }
    ensures { IfSome result (λ z. (story : Story) (run : ℕ → State) → index < length story.rows → HasSets story table.now run → IsCallAt story run index 222 → AreZero run (index + 1) z.from z.to) }
{
    // for the proof alone
    let _points = table.points();
    match value_at(table, index, 13) {
        None => None,
        Some(flags) => match value_at(table, index + 1, 10) {
            None => None,
            Some(answer) => match value_at(table, index, 11) {
                None => None,
                Some(asked) => handed_out(flags, answer, asked),
            },
        },
    }
}

/// The bytes that are 0 after a row since it handed them out.
fn fresh_at(table: &Table, rows: &[StepRow], index: u32) -> Option<ZeroBytes>
    requires points { table.now.points ≡ length rows.now + 1 }
    requires inside { index < length rows.now }
    ensures { IfSome result (λ z. (story : Story) (run : ℕ → State) → story.rows ≡ rows.now → HasSets story table.now run → AreZero run (index + 1) z.from z.to) }
{
    let row = rows[index as usize];
    if is_call(table, index, &row, BRK) {
        fresh_heap(table, rows, index)
    } else if is_call(table, index, &row, MMAP) {
        fresh_map(table, index)
    } else {
        None
    }
}

/// Whether the byte at an address is one of those that are 0.
fn is_zero(zero: ZeroBytes, address: u32) -> bool
    ensures from { result ≡ true → zero.from ≤ address }
    ensures to { result ≡ true → address < zero.to }
{
    let place = u64::from(address);
    zero.from <= place && place < zero.to
}

/// Holds the byte at an address, if it is one of those that are 0.
fn note_zero(sweep: &mut Sweep, zero: ZeroBytes, address: u32) -> Result<(), OutOfMemory>
    ensures point { sweep.new.point ≡ sweep.old.point }
    ensures holds { OnOk result ((run : ℕ → State) → AreZero run sweep.old.point zero.from zero.to → IsTrueSweep (memory_of run) sweep.old → IsTrueSweep (memory_of run) sweep.new) }
{
    if is_zero(zero, address) {
        sweep.note(address, 0)
    } else {
        Ok(())
    }
}

/// Holds 32 bytes, as far as they are among those that are 0.
fn note_zero_window(sweep: &mut Sweep, zero: ZeroBytes, first: u32) -> Result<(), OutOfMemory>
    ensures point { sweep.new.point ≡ sweep.old.point }
    ensures holds { OnOk result ((run : ℕ → State) → AreZero run sweep.old.point zero.from zero.to → IsTrueSweep (memory_of run) sweep.old → IsTrueSweep (memory_of run) sweep.new) }
{
    for k in 0..32u32 {
        note_zero(sweep, zero, first.wrapping_add(k))?;
    }
    Ok(())
}

/// Holds 32 bytes, if there are any, as far as they are among those that are 0, unless they are
/// held.
fn note_window_zeros(
    sweep: &mut Sweep,
    zero: ZeroBytes,
    window: Option<u32>,
) -> Result<(), OutOfMemory>
    ensures point { sweep.new.point ≡ sweep.old.point }
    ensures holds { OnOk result ((run : ℕ → State) → AreZero run sweep.old.point zero.from zero.to → IsTrueSweep (memory_of run) sweep.old → IsTrueSweep (memory_of run) sweep.new) }
{
    match window {
        None => Ok(()),
        Some(first) => {
            if is_window_held(sweep, first) {
                Ok(())
            } else {
                note_zero_window(sweep, zero, first)
            }
        }
    }
}

/// The rows after one, up to so many.
#[derive(Clone, Copy)]
struct LaterRows<'a> {
    table: &'a Table,
    rows: &'a [StepRow],
    index: u32,
    most: u32,
}

/// Holds the bytes that later rows name, as far as they are among those that are 0.
fn note_zeros(sweep: &mut Sweep, zero: ZeroBytes, later: LaterRows<'_>) -> Result<(), OutOfMemory>
    requires points { later.table.now.points ≡ length later.rows.now + 1 }
    ensures point { sweep.new.point ≡ sweep.old.point }
    ensures holds { OnOk result ((run : ℕ → State) → AreZero run sweep.old.point zero.from zero.to → IsTrueSweep (memory_of run) sweep.old → IsTrueSweep (memory_of run) sweep.new) }
{
    let last = later.table.points() - 1;
    let until = later.index.saturating_add(later.most).min(last);
    let mut asked = AskedWindows::new();
    for index in later.index..until {
        let row = &later.rows[index as usize];
        if accesses(row) {
            let window = asked.fresh(window_of(later.table, index, row));
            note_window_zeros(sweep, zero, window)?;
        }
    }
    Ok(())
}

/// Whether a row is a call.
fn is_ecall(row: &StepRow) -> bool {
    matches!(row.instr, Instr::Ecall)
}

/// How many rows are gone over in one sweep for bytes that calls handed out.
const VISITS: u32 = 4_000_000;

/// How many rows are gone over after each call, so that no sweep goes over too many.
pub fn most_later(rows: &[StepRow]) -> u32
    requires few { length rows.now < 2 ^ 32 }
{
    let mut calls = 1u32;
    for index in 0..rows.len() {
        if is_ecall(&rows[index]) {
            calls = calls.saturating_add(1);
        }
    }
    VISITS / calls.max(1)
}

/// Holds those bytes after a row that are 0 since it handed them out, as far as the rows after it
/// name them, up to so many rows.
pub fn note_fresh(
    sweep: &mut Sweep,
    table: &Table,
    rows: &[StepRow],
    place: (u32, u32),
) -> Result<(), OutOfMemory>
    requires points { table.now.points ≡ length rows.now + 1 }
    requires inside { place.0 < length rows.now }
    requires here { sweep.old.point ≡ place.0 + 1 }
    ensures point { sweep.new.point ≡ sweep.old.point }
    ensures holds { OnOk result ((story : Story) (run : ℕ → State) → story.rows ≡ rows.now → HasSets story table.now run → IsTrueSweep (memory_of run) sweep.old → IsTrueSweep (memory_of run) sweep.new) }
{
    let (index, most) = place;
    match fresh_at(table, rows, index) {
        None => Ok(()),
        Some(zero) => {
            let later = LaterRows {
                table,
                rows,
                index,
                most,
            };
            note_zeros(sweep, zero, later)
        }
    }
}
