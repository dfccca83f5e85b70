//! A sweep on and a sweep back.

ghost use Rattle.std.specs.Prelude.{◌≡◌, ◌+◌, ◌<◌, ◌≤◌, ◌^◌, ℕ, length, Some, Err, IfOk, OnOk};
ghost use Rattle.rept_machine.specs.State.{State};
ghost use Rattle.rept_narrow.specs.Lanes.{AreTrueSpans, IsTrueSweep};
ghost use Rattle.rept_narrow.specs.Admitted.{Story};
ghost use Rattle.rept_narrow.specs.Rules.{HasSets};
ghost use Rattle.rept_narrow.specs.Sweeps.{IsAround, memory_of};

use crate::asked::AskedWindows;
use crate::first::start_on;
use crate::passing::{Earlier, all_back, all_on};
use crate::stop::InferStop;
use crate::sweeping::{BytesAround, accesses, note_around, note_named};
use rept_narrow::naming::{is_window_held, window_of};
use rept_narrow::{Empty, KnownPath, Lanes, PathPremises, Sweep, Table};
use std::alloc::AllocError as OutOfMemory;

/// What a sweep found: spans, and whether a set changed.
#[derive(Drop)]
pub struct Swept {
    /// the spans
    pub lanes: Lanes,
    /// whether a set changed
    pub changed: bool,
}

/// Holds the bytes that rows name at the point of the sweep, as far as they are told.
fn start_back<K: KnownPath>(
    earlier: &Earlier<'_, K>,
    sweep: &mut Sweep,
    table: &Table,
) -> Result<(), OutOfMemory>
    requires points { table.now.points ≡ length earlier.now.rows.now + 1 }
    ensures point { sweep.new.point ≡ sweep.old.point }
    ensures holds { OnOk result ((story : Story) (run : ℕ → State) → sweep.old.point ≤ length story.rows → IsAround story run (K.byte earlier.now.known.now) earlier.now.lanes.now earlier.now.image_end → IsTrueSweep (memory_of run) sweep.old → IsTrueSweep (memory_of run) sweep.new) }
{
    let around = BytesAround {
        known: earlier.known,
        lanes: earlier.lanes,
        table,
        image_end: earlier.image_end,
        most: earlier.most,
    };
    let rows = earlier.rows;
    for index in 0..table.points() - 1 {
        let _all = note_named(sweep, &around, index, &rows[index as usize])?;
    }
    Ok(())
}

/// Holds 32 bytes, if there are any, at the point of the sweep, as far as they are told, unless
/// they are held.
fn near_back<K: KnownPath>(
    sweep: &mut Sweep,
    bytes: &BytesAround<'_, K>,
    window: Option<u32>,
) -> Result<(), OutOfMemory>
    ensures point { sweep.new.point ≡ sweep.old.point }
    ensures holds { OnOk result ((story : Story) (run : ℕ → State) → sweep.old.point ≤ length story.rows → IsAround story run (K.byte bytes.now.known.now) bytes.now.lanes.now bytes.now.image_end → IsTrueSweep (memory_of run) sweep.old → IsTrueSweep (memory_of run) sweep.new) }
{
    match window {
        None => Ok(()),
        Some(first) => {
            if is_window_held(sweep, first) {
                Ok(())
            } else {
                note_around(sweep, bytes, first)
            }
        }
    }
}

/// Holds the bytes around those that rows name at the point of the sweep, as far as they are told.
fn start_around<K: KnownPath>(
    earlier: &Earlier<'_, K>,
    sweep: &mut Sweep,
    table: &Table,
) -> Result<(), OutOfMemory>
    requires points { table.now.points ≡ length earlier.now.rows.now + 1 }
    ensures point { sweep.new.point ≡ sweep.old.point }
    ensures holds { OnOk result ((story : Story) (run : ℕ → State) → sweep.old.point ≤ length story.rows → IsAround story run (K.byte earlier.now.known.now) earlier.now.lanes.now earlier.now.image_end → IsTrueSweep (memory_of run) sweep.old → IsTrueSweep (memory_of run) sweep.new) }
{
    let bytes = BytesAround {
        known: earlier.known,
        lanes: earlier.lanes,
        table,
        image_end: earlier.image_end,
        most: earlier.most,
    };
    let rows = earlier.rows;
    let mut asked = AskedWindows::new();
    for index in 0..table.points() - 1 {
        let row = &rows[index as usize];
        if accesses(row) {
            let window = asked.fresh(window_of(table, index, row));
            near_back(sweep, &bytes, window)?;
        }
    }
    Ok(())
}

/// Holds the bytes that rows name at the point of the sweep, and those around them, as far as they
/// are told.
fn begin_back<K: KnownPath>(
    earlier: &Earlier<'_, K>,
    sweep: &mut Sweep,
    table: &Table,
) -> Result<(), OutOfMemory>
    requires points { table.now.points ≡ length earlier.now.rows.now + 1 }
    ensures point { sweep.new.point ≡ sweep.old.point }
    ensures holds { OnOk result ((story : Story) (run : ℕ → State) → sweep.old.point ≤ length story.rows → IsAround story run (K.byte earlier.now.known.now) earlier.now.lanes.now earlier.now.image_end → IsTrueSweep (memory_of run) sweep.old → IsTrueSweep (memory_of run) sweep.new) }
{
    start_back(earlier, sweep, table)?;
    start_around(earlier, sweep, table)?;
    Ok(())
}

/// The spans of a sweep that has ended, for look-up.
fn finish(sweep: Sweep) -> Result<Lanes, OutOfMemory>
    ensures { IfOk result (λ l. (memory : ℕ → ℕ → ℕ) → IsTrueSweep memory sweep → AreTrueSpans memory l) }
{
    let spans = sweep.spans()?;
    Lanes::of(spans)
}

/// A sweep on over all rows, from what is told at the first point.
pub fn sweep_on<K: KnownPath, P: PathPremises>(
    earlier: &Earlier<'_, K>,
    premises: &P,
    table: &mut Table,
) -> Result<Swept, InferStop>
    requires points { table.old.points ≡ length earlier.now.rows.now + 1 }
    requires small { table.old.points < 2 ^ 32 }
    ensures points { table.new.points ≡ table.old.points }
    ensures keeps { IfOk result (λ s. (story : Story) (run : ℕ → State) → story.rows ≡ earlier.now.rows.now → story.premises ≡ P.premises premises.now → IsAround story run (K.byte earlier.now.known.now) earlier.now.lanes.now earlier.now.image_end → HasSets story table.old run → HasSets story table.new run × AreTrueSpans (memory_of run) s.lanes) }
    ensures refuses { (empty : Empty) → result ≡ Err (InferStop.Contradiction empty) → (story : Story) (run : ℕ → State) → story.rows ≡ earlier.now.rows.now → story.premises ≡ P.premises premises.now → IsAround story run (K.byte earlier.now.known.now) earlier.now.lanes.now earlier.now.image_end → HasSets story table.old run → ⊥ }
{
    let mut sweep = Sweep::new(earlier.alloc, 0);
    match start_on(&mut sweep, premises, table, earlier.rows) {
        Err(_) => return Err(InferStop::OutOfMemory),
        Ok(()) => {}
    }
    match all_on(earlier, &mut sweep, table) {
        Err(stop) => Err(stop),
        Ok(changed) => match finish(sweep) {
            Err(_) => Err(InferStop::OutOfMemory),
            Ok(lanes) => Ok(Swept { lanes, changed }),
        },
    }
}

/// A sweep back over all rows, from what is told at the last point.
pub fn sweep_back<K: KnownPath>(
    earlier: &Earlier<'_, K>,
    table: &mut Table,
) -> Result<Swept, InferStop>
    requires points { table.old.points ≡ length earlier.now.rows.now + 1 }
    ensures points { table.new.points ≡ table.old.points }
    ensures keeps { IfOk result (λ s. (story : Story) (run : ℕ → State) → story.rows ≡ earlier.now.rows.now → IsAround story run (K.byte earlier.now.known.now) earlier.now.lanes.now earlier.now.image_end → HasSets story table.old run → HasSets story table.new run × AreTrueSpans (memory_of run) s.lanes) }
    ensures refuses { (empty : Empty) → result ≡ Err (InferStop.Contradiction empty) → (story : Story) (run : ℕ → State) → story.rows ≡ earlier.now.rows.now → IsAround story run (K.byte earlier.now.known.now) earlier.now.lanes.now earlier.now.image_end → HasSets story table.old run → ⊥ }
{
    let mut sweep = Sweep::new(earlier.alloc, table.points() - 1);
    match begin_back(earlier, &mut sweep, table) {
        Err(_) => return Err(InferStop::OutOfMemory),
        Ok(()) => {}
    }
    match all_back(earlier, &mut sweep, table) {
        Err(stop) => Err(stop),
        Ok(changed) => match finish(sweep) {
            Err(_) => Err(InferStop::OutOfMemory),
            Ok(lanes) => Ok(Swept { lanes, changed }),
        },
    }
}
