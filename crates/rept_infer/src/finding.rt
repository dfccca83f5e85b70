//! Rounds of sweeps.

ghost use Rattle.std.specs.Prelude.{◌≡◌, ◌+◌, ◌<◌, ◌^◌, ℕ, length, Err, IfOk, OnOk};
ghost use Rattle.rept_machine.specs.State.{State};
ghost use Rattle.rept_narrow.specs.Admitted.{Story};
ghost use Rattle.rept_narrow.specs.Rules.{HasSets};
ghost use Rattle.rept_narrow.specs.Sweeps.{AreKnown, IsFound};

use crate::passing::Earlier;
use crate::relating::relate_few;
use crate::round::{sweep_back, sweep_on};
use crate::stop::InferStop;
use rept_isa::{Instr, StepRow};
use rept_narrow::answers::tell_answers;
use rept_narrow::memory::place_of;
use rept_narrow::{Empty, InferPath, KnownPath, Lanes, NarrowRule, PathPremises, Table};
use std::alloc::Global;

/// What was found so far: sets, and spans of the last sweeps on and back.
#[derive(Drop)]
pub struct Found {
    /// the sets
    pub table: Table,
    /// the spans of the last sweep on
    pub on: Lanes,
    /// the spans of the last sweep back
    pub back: Lanes,
    /// whether values that differ by constants told nothing new when they were last asked
    pub related: bool,
}

/// How many bytes are tried in one sweep.
const TRIES: u32 = 8_000_000;

/// Whether a row is a store whose address isn't known.
fn is_open(table: &Table, index: u32, row: &StepRow) -> bool
    requires inside { index + 1 < table.now.points }
{
    match row.instr {
        Instr::Store { rs1, imm, .. } => place_of(table, index, rs1, imm).is_none(),
        _ => false,
    }
}

/// How many bytes are tried at each store of unknown address, so that no sweep tries too many.
fn most_tries(table: &Table, rows: &[StepRow]) -> u32
    requires points { table.now.points ≡ length rows.now + 1 }
{
    let mut open = 1u32;
    for index in 0..table.points() - 1 {
        if is_open(table, index, &rows[index as usize]) {
            open = open.saturating_add(1);
        }
    }
    TRIES / open.max(1)
}

/// A sweep on and a sweep back. Answers whether a set changed.
fn round<K: KnownPath, P: PathPremises>(
    found: Found,
    earlier: (Global, InferPath<'_>),
    known: &K,
    premises: &P,
) -> Result<(Found, bool), InferStop>
    requires points { found.table.points ≡ length earlier.1.rows.now + 1 }
    requires small { found.table.points < 2 ^ 32 }
    ensures points { IfOk result (λ x. x.0.table.points ≡ found.table.points) }
    ensures keeps { IfOk result (λ x. (story : Story) (run : ℕ → State) → story.rows ≡ earlier.entry.1.rows.now → story.image_end ≡ earlier.entry.1.image_end → story.premises ≡ P.premises premises.now → AreKnown story run (K.byte known.now) → IsFound story run found.table found.on found.back → IsFound story run x.0.table x.0.on x.0.back) }
    ensures refuses { (empty : Empty) → result ≡ Err (InferStop.Contradiction empty) → (story : Story) (run : ℕ → State) → story.rows ≡ earlier.entry.1.rows.now → story.image_end ≡ earlier.entry.1.image_end → story.premises ≡ P.premises premises.now → AreKnown story run (K.byte known.now) → IsFound story run found.table found.on found.back → ⊥ }
{
    let Found {
        table,
        back,
        related,
        ..
    } = found;
    let mut table = table;
    table.begin(NarrowRule::Value);
    let first = Earlier {
        alloc: earlier.0,
        known,
        lanes: &back,
        rows: earlier.1.rows,
        image_end: earlier.1.image_end,
        most: most_tries(&table, earlier.1.rows),
    };
    match sweep_on(&first, premises, &mut table) {
        Err(stop) => Err(stop),
        Ok(swept) => {
            let on = swept.lanes;
            let second = Earlier {
                alloc: earlier.0,
                known,
                lanes: &on,
                rows: earlier.1.rows,
                image_end: earlier.1.image_end,
                most: most_tries(&table, earlier.1.rows),
            };
            match sweep_back(&second, &mut table) {
                Err(stop) => Err(stop),
                Ok(again) => Ok((
                    Found {
                        table,
                        on,
                        back: again.lanes,
                        related,
                    },
                    swept.changed || again.changed,
                )),
            }
        }
    }
}

/// What calls answer, and then a sweep on and a sweep back. Answers whether a set changed.
fn answered<K: KnownPath, P: PathPremises>(
    found: Found,
    earlier: (Global, InferPath<'_>),
    known: &K,
    premises: &P,
) -> Result<(Found, bool), InferStop>
    requires points { found.table.points ≡ length earlier.1.rows.now + 1 }
    requires small { found.table.points < 2 ^ 32 }
    ensures points { IfOk result (λ x. x.0.table.points ≡ found.table.points) }
    ensures keeps { IfOk result (λ x. (story : Story) (run : ℕ → State) → story.rows ≡ earlier.entry.1.rows.now → story.image_end ≡ earlier.entry.1.image_end → story.premises ≡ P.premises premises.now → AreKnown story run (K.byte known.now) → IsFound story run found.table found.on found.back → IsFound story run x.0.table x.0.on x.0.back) }
    ensures refuses { (empty : Empty) → result ≡ Err (InferStop.Contradiction empty) → (story : Story) (run : ℕ → State) → story.rows ≡ earlier.entry.1.rows.now → story.image_end ≡ earlier.entry.1.image_end → story.premises ≡ P.premises premises.now → AreKnown story run (K.byte known.now) → IsFound story run found.table found.on found.back → ⊥ }
{
    let Found {
        table,
        on,
        back,
        related,
    } = found;
    let mut table = table;
    table.begin(NarrowRule::Call);
    match tell_answers(&mut table, premises, earlier.1) {
        Err(empty) => Err(InferStop::Contradiction(empty)),
        Ok(told) => {
            let begun = Found {
                table,
                on,
                back,
                related,
            };
            match round(begun, earlier, known, premises) {
                Err(stop) => Err(stop),
                Ok((next, changed)) => Ok((next, told || changed)),
            }
        }
    }
}

/// What calls answer, a sweep on and a sweep back, and then what follows by values that differ by
/// constants, unless these told nothing new and no set has changed since. Answers whether a set
/// changed.
fn related<K: KnownPath, P: PathPremises>(
    found: Found,
    earlier: (Global, InferPath<'_>),
    known: &K,
    premises: &P,
) -> Result<(Found, bool), InferStop>
    requires points { found.table.points ≡ length earlier.1.rows.now + 1 }
    requires small { found.table.points < 2 ^ 32 }
    ensures points { IfOk result (λ x. x.0.table.points ≡ found.table.points) }
    ensures keeps { IfOk result (λ x. (story : Story) (run : ℕ → State) → story.rows ≡ earlier.entry.1.rows.now → story.image_end ≡ earlier.entry.1.image_end → story.premises ≡ P.premises premises.now → AreKnown story run (K.byte known.now) → IsFound story run found.table found.on found.back → IsFound story run x.0.table x.0.on x.0.back) }
    ensures refuses { (empty : Empty) → result ≡ Err (InferStop.Contradiction empty) → (story : Story) (run : ℕ → State) → story.rows ≡ earlier.entry.1.rows.now → story.image_end ≡ earlier.entry.1.image_end → story.premises ≡ P.premises premises.now → AreKnown story run (K.byte known.now) → IsFound story run found.table found.on found.back → ⊥ }
{
    match answered(found, earlier, known, premises) {
        Err(stop) => Err(stop),
        Ok((next, changed)) => {
            if next.related && !changed {
                return Ok((next, false));
            }
            let Found {
                table,
                on,
                back,
                ..
            } = next;
            let mut table = table;
            table.begin(NarrowRule::Class);
            match relate_few(earlier.0, &mut table, earlier.1) {
                Err(stop) => Err(stop),
                Ok(more) => {
                    let related = !more;
                    Ok((
                        Found {
                            table,
                            on,
                            back,
                            related,
                        },
                        changed || more,
                    ))
                }
            }
        }
    }
}

/// The most rounds of sweeps.
const ROUNDS: u32 = 16;

/// Sweeps on and back until no set changes, or so many times.
pub fn rounds<K: KnownPath, P: PathPremises>(
    first: Found,
    earlier: (Global, InferPath<'_>),
    known: &K,
    premises: &P,
) -> Result<Found, InferStop>
    requires points { first.table.points ≡ length earlier.1.rows.now + 1 }
    requires small { first.table.points < 2 ^ 32 }
    ensures points { IfOk result (λ f. f.table.points ≡ first.table.points) }
    ensures keeps { IfOk result (λ f. (story : Story) (run : ℕ → State) → story.rows ≡ earlier.entry.1.rows.now → story.image_end ≡ earlier.entry.1.image_end → story.premises ≡ P.premises premises.now → AreKnown story run (K.byte known.now) → IsFound story run first.table first.on first.back → IsFound story run f.table f.on f.back) }
    ensures refuses { (empty : Empty) → result ≡ Err (InferStop.Contradiction empty) → (story : Story) (run : ℕ → State) → story.rows ≡ earlier.entry.1.rows.now → story.image_end ≡ earlier.entry.1.image_end → story.premises ≡ P.premises premises.now → AreKnown story run (K.byte known.now) → IsFound story run first.table first.on first.back → ⊥ }
{
    let mut found = first;
    for _ in 0..ROUNDS {
        match related(found, earlier, known, premises) {
            Err(stop) => return Err(stop),
            Ok((next, changed)) => {
                found = next;
                if !changed {
                    return Ok(found);
                }
            }
        }
    }
    Ok(found)
}
