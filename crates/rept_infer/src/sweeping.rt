//! Bytes from point to point, on and back over all rows.

ghost use Rattle.std.specs.Prelude.{◌≡◌, ◌+◌, ◌<◌, ◌≤◌, ◌^◌, ℕ, length, Some, IfSome, OnOk, slice_get};
ghost use Rattle.rept_machine.specs.State.{State};
ghost use Rattle.rept_narrow.specs.Lanes.{IsTrueSweep};
ghost use Rattle.rept_narrow.specs.Admitted.{Story};
ghost use Rattle.rept_narrow.specs.Rules.{HasSets};
ghost use Rattle.rept_narrow.specs.Sweeps.{AreKept, IsAround, memory_of};

use crate::crossing::ByteCrossing;
use rept_isa::{Instr, StepRow};
use rept_narrow::naming::{loaded_byte, named, stored_byte};
use rept_narrow::told::SweptBytes;
use rept_narrow::{KnownPath, Lanes, Sweep, Table, ToldBytes};
use std::alloc::{AllocError as OutOfMemory, Global};

/// What was known before all, the spans that were found before, and the sets.
#[derive(Clone, Copy)]
pub struct BytesAround<'a, K: KnownPath> {
    /// what was known before all
    pub known: &'a K,
    /// the spans
    pub lanes: &'a Lanes,
    /// the sets
    pub table: &'a Table,
    /// where the program's own memory ends
    pub image_end: u64,
    /// how many bytes are tried at a row
    pub most: u32,
}

/// The byte at a point and an address, if it was known before all.
fn known_before<K: KnownPath>(around: &BytesAround<'_, K>, point: u32, address: u32) -> Option<u8>
    ensures { IfSome result (λ v. (story : Story) (run : ℕ → State) → point ≤ length story.rows → IsAround story run (K.byte around.now.known.now) around.now.lanes.now around.now.image_end → (run point).memory address ≡ v) }
{
    match around.known.byte(point, address) {
        None => None,
        Some(value) => Some(value),
    }
}

/// The byte at a point and an address, if a span that was found before has it, or if it was known
/// before all.
fn told_before<K: KnownPath>(around: &BytesAround<'_, K>, point: u32, address: u32) -> Option<u8>
    ensures { IfSome result (λ v. (story : Story) (run : ℕ → State) → point ≤ length story.rows → IsAround story run (K.byte around.now.known.now) around.now.lanes.now around.now.image_end → (run point).memory address ≡ v) }
{
    match around.lanes.byte(point, address) {
        Some(value) => Some(value),
        None => known_before(around, point, address),
    }
}

/// Holds the byte at an address at the point of the sweep, if it is told. Answers whether it is.
fn note_at<K: KnownPath>(
    sweep: &mut Sweep,
    around: &BytesAround<'_, K>,
    address: u32,
) -> Result<bool, OutOfMemory>
    ensures point { sweep.new.point ≡ sweep.old.point }
    ensures holds { OnOk result ((story : Story) (run : ℕ → State) → sweep.old.point ≤ length story.rows → IsAround story run (K.byte around.now.known.now) around.now.lanes.now around.now.image_end → IsTrueSweep (memory_of run) sweep.old → IsTrueSweep (memory_of run) sweep.new) }
{
    if sweep.held().get(address).is_some() {
        return Ok(true);
    }
    let point = sweep.point();
    match told_before(around, point, address) {
        None => Ok(false),
        Some(value) => {
            sweep.note(address, value)?;
            Ok(true)
        }
    }
}

/// Holds the bytes that a row names at the point of the sweep, as far as they are told. Answers
/// whether they all are.
pub fn note_named<K: KnownPath>(
    sweep: &mut Sweep,
    around: &BytesAround<'_, K>,
    index: u32,
    row: &StepRow,
) -> Result<bool, OutOfMemory>
    requires inside { index + 1 < around.now.table.now.points }
    ensures point { sweep.new.point ≡ sweep.old.point }
    ensures holds { OnOk result ((story : Story) (run : ℕ → State) → sweep.old.point ≤ length story.rows → IsAround story run (K.byte around.now.known.now) around.now.lanes.now around.now.image_end → IsTrueSweep (memory_of run) sweep.old → IsTrueSweep (memory_of run) sweep.new) }
{
    if !accesses(row) {
        return Ok(true);
    }
    let mut all = true;
    for k in 0..4u32 {
        match named(around.table, index, row, k) {
            None => return Ok(all),
            Some(address) => {
                if !note_at(sweep, around, address)? {
                    all = false;
                }
            }
        }
    }
    Ok(all)
}

/// Holds 32 bytes from an address on at the point of the sweep, as far as they are told.
pub fn note_around<K: KnownPath>(
    sweep: &mut Sweep,
    around: &BytesAround<'_, K>,
    first: u32,
) -> Result<(), OutOfMemory>
    ensures point { sweep.new.point ≡ sweep.old.point }
    ensures holds { OnOk result ((story : Story) (run : ℕ → State) → sweep.old.point ≤ length story.rows → IsAround story run (K.byte around.now.known.now) around.now.lanes.now around.now.image_end → IsTrueSweep (memory_of run) sweep.old → IsTrueSweep (memory_of run) sweep.new) }
{
    for k in 0..32u32 {
        let _told = note_at(sweep, around, first.wrapping_add(k))?;
    }
    Ok(())
}

/// Whether a row is a load or an atomic instruction.
fn loads(row: &StepRow) -> bool {
    matches!(row.instr, Instr::Load { .. } | Instr::Amo { .. })
}

/// Whether a row is a store or an atomic instruction.
pub fn stores(row: &StepRow) -> bool {
    matches!(row.instr, Instr::Store { .. } | Instr::Amo { .. })
}

/// Whether a row is a load, a store or an atomic instruction.
pub fn accesses(row: &StepRow) -> bool {
    loads(row) || stores(row)
}

/// Holds byte `k` of those that a load reads, before it, as far as its register tells it.
fn note_loaded_at(
    sweep: &mut Sweep,
    table: &Table,
    index: u32,
    row: &StepRow,
    k: u32,
) -> Result<(), OutOfMemory>
    requires inside { index + 1 < table.now.points }
    requires here { sweep.old.point ≡ index }
    ensures point { sweep.new.point ≡ sweep.old.point }
    ensures holds { OnOk result ((story : Story) (run : ℕ → State) → slice_get story.rows index ≡ Some row.now → HasSets story table.now run → IsTrueSweep (memory_of run) sweep.old → IsTrueSweep (memory_of run) sweep.new) }
{
    match loaded_byte(table, index, row, k) {
        None => Ok(()),
        Some(byte) => sweep.note(byte.address, byte.value),
    }
}

/// Holds the bytes that a load reads, before it, as far as its register tells them.
pub fn note_loaded(
    sweep: &mut Sweep,
    table: &Table,
    index: u32,
    row: &StepRow,
) -> Result<(), OutOfMemory>
    requires inside { index + 1 < table.now.points }
    requires here { sweep.old.point ≡ index }
    ensures point { sweep.new.point ≡ sweep.old.point }
    ensures holds { OnOk result ((story : Story) (run : ℕ → State) → slice_get story.rows index ≡ Some row.now → HasSets story table.now run → IsTrueSweep (memory_of run) sweep.old → IsTrueSweep (memory_of run) sweep.new) }
{
    if !loads(row) {
        return Ok(());
    }
    for k in 0..4u32 {
        note_loaded_at(sweep, table, index, row, k)?;
    }
    Ok(())
}

/// Holds byte `k` of those that a store leaves, after it, as far as its source tells it.
fn note_stored_at(
    sweep: &mut Sweep,
    table: &Table,
    index: u32,
    row: &StepRow,
    k: u32,
) -> Result<(), OutOfMemory>
    requires inside { index + 1 < table.now.points }
    requires here { sweep.old.point ≡ index + 1 }
    ensures point { sweep.new.point ≡ sweep.old.point }
    ensures holds { OnOk result ((story : Story) (run : ℕ → State) → slice_get story.rows index ≡ Some row.now → HasSets story table.now run → IsTrueSweep (memory_of run) sweep.old → IsTrueSweep (memory_of run) sweep.new) }
{
    match stored_byte(table, index, row, k) {
        None => Ok(()),
        Some(byte) => sweep.note(byte.address, byte.value),
    }
}

/// Holds the bytes that a store leaves, after it, as far as its source tells them.
pub fn note_stored(
    sweep: &mut Sweep,
    table: &Table,
    index: u32,
    row: &StepRow,
) -> Result<(), OutOfMemory>
    requires inside { index + 1 < table.now.points }
    requires here { sweep.old.point ≡ index + 1 }
    ensures point { sweep.new.point ≡ sweep.old.point }
    ensures holds { OnOk result ((story : Story) (run : ℕ → State) → slice_get story.rows index ≡ Some row.now → HasSets story table.now run → IsTrueSweep (memory_of run) sweep.old → IsTrueSweep (memory_of run) sweep.new) }
{
    if !stores(row) {
        return Ok(());
    }
    for k in 0..4u32 {
        note_stored_at(sweep, table, index, row, k)?;
    }
    Ok(())
}

/// Lets go the bytes that are held and that a row may write.
fn let_written_go<K: KnownPath>(
    alloc: Global,
    sweep: &mut Sweep,
    around: &BytesAround<'_, K>,
    index: u32,
    row: &StepRow,
) -> Result<(), OutOfMemory>
    requires inside { index + 1 < around.now.table.now.points }
    ensures point { sweep.new.point ≡ sweep.old.point }
    ensures holds { OnOk result ((story : Story) (run : ℕ → State) → IsTrueSweep (memory_of run) sweep.old → IsTrueSweep (memory_of run) sweep.new) }
    ensures rest { OnOk result ((story : Story) (run : ℕ → State) → slice_get story.rows index ≡ Some row.now → HasSets story around.now.table.now run → sweep.old.point ≤ length story.rows → IsAround story run (K.byte around.now.known.now) around.now.lanes.now around.now.image_end → IsTrueSweep (memory_of run) sweep.old → AreKept story run index sweep.new.held) }
{
    let bytes = SweptBytes {
        known: around.known,
        lanes: around.lanes,
        sweep: &*sweep,
    };
    let list = ByteCrossing {
        table: around.table,
        bytes: &bytes,
        index,
        row: *row,
        image_end: around.image_end,
        most: around.most,
    }
    .written(alloc)?;
    sweep.let_all_go(list.as_slice())?;
    Ok(())
}

/// Goes on over a row with the bytes that it doesn't write.
pub fn cross_on<K: KnownPath>(
    alloc: Global,
    sweep: &mut Sweep,
    around: &BytesAround<'_, K>,
    index: u32,
    row: &StepRow,
) -> Result<(), OutOfMemory>
    requires inside { index + 1 < around.now.table.now.points }
    requires here { sweep.old.point ≡ index }
    requires small { around.now.table.now.points < 2 ^ 32 }
    ensures point { OnOk result (sweep.new.point ≡ index + 1) }
    ensures holds { OnOk result ((story : Story) (run : ℕ → State) → slice_get story.rows index ≡ Some row.now → HasSets story around.now.table.now run → IsAround story run (K.byte around.now.known.now) around.now.lanes.now around.now.image_end → IsTrueSweep (memory_of run) sweep.old → IsTrueSweep (memory_of run) sweep.new) }
{
    let_written_go(alloc, sweep, around, index, row)?;
    sweep.go_on();
    Ok(())
}

/// Goes back over a row with the bytes that it doesn't write.
pub fn cross_back<K: KnownPath>(
    alloc: Global,
    sweep: &mut Sweep,
    around: &BytesAround<'_, K>,
    index: u32,
    row: &StepRow,
) -> Result<(), OutOfMemory>
    requires inside { index + 1 < around.now.table.now.points }
    requires here { sweep.old.point ≡ index + 1 }
    ensures point { OnOk result (sweep.new.point ≡ index) }
    ensures holds { OnOk result ((story : Story) (run : ℕ → State) → slice_get story.rows index ≡ Some row.now → HasSets story around.now.table.now run → IsAround story run (K.byte around.now.known.now) around.now.lanes.now around.now.image_end → IsTrueSweep (memory_of run) sweep.old → IsTrueSweep (memory_of run) sweep.new) }
{
    let_written_go(alloc, sweep, around, index, row)?;
    sweep.go_back();
    Ok(())
}
