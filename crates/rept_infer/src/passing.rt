//! The rules of registers and bytes over all rows, on and back.

ghost use Rattle.std.specs.Prelude.{◌≡◌, ◌+◌, ◌<◌, ◌^◌, ℕ, length, Some, Err, OnOk, OnErr, slice_get};
ghost use Rattle.rept_machine.specs.State.{State};
ghost use Rattle.rept_narrow.specs.Lanes.{IsTrueSweep};
ghost use Rattle.rept_narrow.specs.Admitted.{Story};
ghost use Rattle.rept_narrow.specs.Rules.{AreBytes, HasSets};
ghost use Rattle.rept_narrow.specs.Sweeps.{IsAround, IsFollowed, memory_of};

use crate::fresh::{most_later, note_fresh};
use crate::stop::InferStop;
use crate::sweeping::{
    BytesAround, cross_back, cross_on, note_loaded, note_named, note_stored, stores,
};
use rept_isa::StepRow;
use rept_narrow::atomic::answer_row;
use rept_narrow::memory::{load_row, store_row};
use rept_narrow::told::SweptBytes;
use rept_narrow::visiting::visit;
use rept_narrow::{Empty, KnownPath, Lanes, Sweep, Table, ToldBytes};
use std::alloc::{AllocError as OutOfMemory, Global};

/// The rows, what was known before all, and the spans that were found before.
#[derive(Clone, Copy)]
pub struct Earlier<'a, K: KnownPath> {
    /// memory
    pub alloc: Global,
    /// what was known before all
    pub known: &'a K,
    /// the spans
    pub lanes: &'a Lanes,
    /// the rows
    pub rows: &'a [StepRow],
    /// where the program's own memory ends
    pub image_end: u64,
    /// how many bytes are tried at a row
    pub most: u32,
}

/// The rules of a row's registers, by the bytes that are told. Answers whether a set changed.
fn tell<B: ToldBytes>(
    table: &mut Table,
    bytes: &B,
    index: u32,
    row: &StepRow,
) -> Result<bool, Empty>
    requires inside { index + 1 < table.old.points }
    ensures points { table.new.points ≡ table.old.points }
    ensures keeps { OnOk result ((story : Story) (run : ℕ → State) → slice_get story.rows index ≡ Some row.now → AreBytes story (B.tells bytes.now) run → HasSets story table.old run → HasSets story table.new run) }
    ensures refuses { OnErr result ((story : Story) (run : ℕ → State) → slice_get story.rows index ≡ Some row.now → AreBytes story (B.tells bytes.now) run → HasSets story table.old run → ⊥) }
{
    let made = visit(table, index, row)?;
    let loaded = load_row(table, bytes, index, row)?;
    let stored = store_row(table, bytes, index, row)?;
    let answered = answer_row(table, bytes, index, row)?;
    Ok(made || loaded || stored || answered)
}

/// The rules of a row's registers, by the bytes of a sweep. Answers whether a set changed.
fn tell_at<K: KnownPath>(
    earlier: &Earlier<'_, K>,
    sweep: &Sweep,
    table: &mut Table,
    index: u32,
) -> Result<bool, Empty>
    requires points { table.old.points ≡ length earlier.now.rows.now + 1 }
    requires inside { index < length earlier.now.rows.now }
    ensures points { table.new.points ≡ table.old.points }
    ensures keeps { OnOk result ((story : Story) (run : ℕ → State) → story.rows ≡ earlier.now.rows.now → IsAround story run (K.byte earlier.now.known.now) earlier.now.lanes.now earlier.now.image_end → IsFollowed story run table.old sweep.now → IsFollowed story run table.new sweep.now) }
    ensures refuses { OnErr result ((story : Story) (run : ℕ → State) → story.rows ≡ earlier.now.rows.now → IsAround story run (K.byte earlier.now.known.now) earlier.now.lanes.now earlier.now.image_end → IsFollowed story run table.old sweep.now → ⊥) }
{
    let bytes = SweptBytes {
        known: earlier.known,
        lanes: earlier.lanes,
        sweep,
    };
    let row = earlier.rows[index as usize];
    tell(table, &bytes, index, &row)
}

/// The bytes of a sweep go on over a row.
fn carry_on<K: KnownPath>(
    earlier: &Earlier<'_, K>,
    sweep: &mut Sweep,
    table: &Table,
    index: u32,
) -> Result<(), OutOfMemory>
    requires points { table.now.points ≡ length earlier.now.rows.now + 1 }
    requires small { table.now.points < 2 ^ 32 }
    requires inside { index < length earlier.now.rows.now }
    requires here { sweep.old.point ≡ index }
    ensures point { OnOk result (sweep.new.point ≡ index + 1) }
    ensures keeps { OnOk result ((story : Story) (run : ℕ → State) → story.rows ≡ earlier.now.rows.now → IsAround story run (K.byte earlier.now.known.now) earlier.now.lanes.now earlier.now.image_end → IsFollowed story run table.now sweep.old → IsFollowed story run table.now sweep.new) }
{
    let around = BytesAround {
        known: earlier.known,
        lanes: earlier.lanes,
        table,
        image_end: earlier.image_end,
        most: earlier.most,
    };
    let row = earlier.rows[index as usize];
    let all = note_named(sweep, &around, index, &row)?;
    // none of its bytes is left to hold, and it writes none
    if all && !stores(&row) {
        return cross_on(earlier.alloc, sweep, &around, index, &row);
    }
    note_loaded(sweep, table, index, &row)?;
    cross_on(earlier.alloc, sweep, &around, index, &row)?;
    let _all = note_named(sweep, &around, index, &row)?;
    note_stored(sweep, table, index, &row)?;
    Ok(())
}

/// The bytes of a sweep go back over a row.
fn carry_back<K: KnownPath>(
    earlier: &Earlier<'_, K>,
    sweep: &mut Sweep,
    table: &Table,
    index: u32,
) -> Result<(), OutOfMemory>
    requires points { table.now.points ≡ length earlier.now.rows.now + 1 }
    requires inside { index < length earlier.now.rows.now }
    requires here { sweep.old.point ≡ index + 1 }
    ensures point { OnOk result (sweep.new.point ≡ index) }
    ensures keeps { OnOk result ((story : Story) (run : ℕ → State) → story.rows ≡ earlier.now.rows.now → IsAround story run (K.byte earlier.now.known.now) earlier.now.lanes.now earlier.now.image_end → IsFollowed story run table.now sweep.old → IsFollowed story run table.now sweep.new) }
{
    let around = BytesAround {
        known: earlier.known,
        lanes: earlier.lanes,
        table,
        image_end: earlier.image_end,
        most: earlier.most,
    };
    let row = earlier.rows[index as usize];
    let all = note_named(sweep, &around, index, &row)?;
    // none of its bytes is left to hold, and it writes none
    if all && !stores(&row) {
        return cross_back(earlier.alloc, sweep, &around, index, &row);
    }
    note_stored(sweep, table, index, &row)?;
    cross_back(earlier.alloc, sweep, &around, index, &row)?;
    let _all = note_named(sweep, &around, index, &row)?;
    note_loaded(sweep, table, index, &row)?;
    Ok(())
}

/// One row on. Answers whether a set changed.
fn step_on<K: KnownPath>(
    earlier: &Earlier<'_, K>,
    sweep: &mut Sweep,
    table: &mut Table,
    index: u32,
) -> Result<bool, InferStop>
    requires points { table.old.points ≡ length earlier.now.rows.now + 1 }
    requires small { table.old.points < 2 ^ 32 }
    requires inside { index < length earlier.now.rows.now }
    requires here { sweep.old.point ≡ index }
    ensures points { table.new.points ≡ table.old.points }
    ensures point { OnOk result (sweep.new.point ≡ index + 1) }
    ensures keeps { OnOk result ((story : Story) (run : ℕ → State) → story.rows ≡ earlier.now.rows.now → IsAround story run (K.byte earlier.now.known.now) earlier.now.lanes.now earlier.now.image_end → IsFollowed story run table.old sweep.old → IsFollowed story run table.new sweep.new) }
    ensures refuses { (empty : Empty) → result ≡ Err (InferStop.Contradiction empty) → (story : Story) (run : ℕ → State) → story.rows ≡ earlier.now.rows.now → IsAround story run (K.byte earlier.now.known.now) earlier.now.lanes.now earlier.now.image_end → IsFollowed story run table.old sweep.old → ⊥ }
{
    match tell_at(earlier, sweep, table, index) {
        Err(empty) => Err(InferStop::Contradiction(empty)),
        Ok(changed) => match carry_on(earlier, sweep, table, index) {
            Err(_) => Err(InferStop::OutOfMemory),
            Ok(()) => Ok(changed),
        },
    }
}

/// One row back. Answers whether a set changed.
fn step_back<K: KnownPath>(
    earlier: &Earlier<'_, K>,
    sweep: &mut Sweep,
    table: &mut Table,
    index: u32,
) -> Result<bool, InferStop>
    requires points { table.old.points ≡ length earlier.now.rows.now + 1 }
    requires inside { index < length earlier.now.rows.now }
    requires here { sweep.old.point ≡ index + 1 }
    ensures points { table.new.points ≡ table.old.points }
    ensures point { OnOk result (sweep.new.point ≡ index) }
    ensures keeps { OnOk result ((story : Story) (run : ℕ → State) → story.rows ≡ earlier.now.rows.now → IsAround story run (K.byte earlier.now.known.now) earlier.now.lanes.now earlier.now.image_end → IsFollowed story run table.old sweep.old → IsFollowed story run table.new sweep.new) }
    ensures refuses { (empty : Empty) → result ≡ Err (InferStop.Contradiction empty) → (story : Story) (run : ℕ → State) → story.rows ≡ earlier.now.rows.now → IsAround story run (K.byte earlier.now.known.now) earlier.now.lanes.now earlier.now.image_end → IsFollowed story run table.old sweep.old → ⊥ }
{
    let told = match tell_at(earlier, sweep, table, index) {
        Err(empty) => return Err(InferStop::Contradiction(empty)),
        Ok(changed) => changed,
    };
    match carry_back(earlier, sweep, table, index) {
        Err(_) => return Err(InferStop::OutOfMemory),
        Ok(()) => {}
    }
    match tell_at(earlier, sweep, table, index) {
        Err(empty) => Err(InferStop::Contradiction(empty)),
        Ok(changed) => Ok(told || changed),
    }
}

/// One row on, and what it hands out, as so many rows after it name it. Answers whether a set
/// changed.
fn pass_on<K: KnownPath>(
    earlier: &Earlier<'_, K>,
    sweep: &mut Sweep,
    table: &mut Table,
    place: (u32, u32),
) -> Result<bool, InferStop>
    requires points { table.old.points ≡ length earlier.now.rows.now + 1 }
    requires small { table.old.points < 2 ^ 32 }
    requires inside { place.0 < length earlier.now.rows.now }
    requires here { sweep.old.point ≡ place.0 }
    ensures points { table.new.points ≡ table.old.points }
    ensures point { OnOk result (sweep.new.point ≡ place.0 + 1) }
    ensures keeps { OnOk result ((story : Story) (run : ℕ → State) → story.rows ≡ earlier.now.rows.now → IsAround story run (K.byte earlier.now.known.now) earlier.now.lanes.now earlier.now.image_end → IsFollowed story run table.old sweep.old → IsFollowed story run table.new sweep.new) }
    ensures refuses { (empty : Empty) → result ≡ Err (InferStop.Contradiction empty) → (story : Story) (run : ℕ → State) → story.rows ≡ earlier.now.rows.now → IsAround story run (K.byte earlier.now.known.now) earlier.now.lanes.now earlier.now.image_end → IsFollowed story run table.old sweep.old → ⊥ }
{
    match step_on(earlier, sweep, table, place.0) {
        Err(stop) => Err(stop),
        Ok(changed) => match note_fresh(sweep, table, earlier.rows, place) {
            Err(_) => Err(InferStop::OutOfMemory),
            Ok(()) => Ok(changed),
        },
    }
}

/// All rows, from the first one on. Answers whether a set changed.
pub fn all_on<K: KnownPath>(
    earlier: &Earlier<'_, K>,
    sweep: &mut Sweep,
    table: &mut Table,
) -> Result<bool, InferStop>
    requires points { table.old.points ≡ length earlier.now.rows.now + 1 }
    requires small { table.old.points < 2 ^ 32 }
    requires here { sweep.old.point ≡ 0 }
    ensures points { table.new.points ≡ table.old.points }
    ensures keeps { OnOk result ((story : Story) (run : ℕ → State) → story.rows ≡ earlier.now.rows.now → IsAround story run (K.byte earlier.now.known.now) earlier.now.lanes.now earlier.now.image_end → IsFollowed story run table.old sweep.old → IsFollowed story run table.new sweep.new) }
    ensures refuses { (empty : Empty) → result ≡ Err (InferStop.Contradiction empty) → (story : Story) (run : ℕ → State) → story.rows ≡ earlier.now.rows.now → IsAround story run (K.byte earlier.now.known.now) earlier.now.lanes.now earlier.now.image_end → IsFollowed story run table.old sweep.old → ⊥ }
{
    let most = most_later(earlier.rows);
    let mut changed = false;
    for index in 0..table.points() - 1 {
        match pass_on(earlier, sweep, table, (index, most)) {
            Err(stop) => return Err(stop),
            Ok(more) => changed = changed || more,
        }
    }
    Ok(changed)
}

/// All rows, from the last one back. Answers whether a set changed.
pub fn all_back<K: KnownPath>(
    earlier: &Earlier<'_, K>,
    sweep: &mut Sweep,
    table: &mut Table,
) -> Result<bool, InferStop>
    requires points { table.old.points ≡ length earlier.now.rows.now + 1 }
    requires here { sweep.old.point + 1 ≡ table.old.points }
    ensures points { table.new.points ≡ table.old.points }
    ensures keeps { OnOk result ((story : Story) (run : ℕ → State) → story.rows ≡ earlier.now.rows.now → IsAround story run (K.byte earlier.now.known.now) earlier.now.lanes.now earlier.now.image_end → IsFollowed story run table.old sweep.old → IsFollowed story run table.new sweep.new) }
    ensures refuses { (empty : Empty) → result ≡ Err (InferStop.Contradiction empty) → (story : Story) (run : ℕ → State) → story.rows ≡ earlier.now.rows.now → IsAround story run (K.byte earlier.now.known.now) earlier.now.lanes.now earlier.now.image_end → IsFollowed story run table.old sweep.old → ⊥ }
{
    let last = table.points() - 1;
    let mut changed = false;
    for back in 0..last {
        match step_back(earlier, sweep, table, last - 1 - back) {
            Err(stop) => return Err(stop),
            Ok(more) => changed = changed || more,
        }
    }
    Ok(changed)
}
