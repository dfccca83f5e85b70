//! What atomic instructions tell of bytes and registers.

ghost use Rattle.std.specs.Prelude.{◌≡◌, ◌≢◌, ◌+◌, ◌<◌, ◌≤◌, ℕ, length, true, IfSome, OnOk, OnErr, Some, slice_get};
ghost use Rattle.rept_isa.specs.Rows.{Addresses};
ghost use Rattle.rept_machine.specs.State.{State};
ghost use Rattle.rept_machine.specs.Step.{Acts, PutsWord};
ghost use Rattle.rept_narrow.specs.Admitted.{Story};
ghost use Rattle.rept_narrow.specs.Rules.{HasSets, AreBytes};

use crate::bytes::ToldBytes;
use crate::memory::{byte_in, place_of, told_word};
use crate::naming::ByteAt;
use crate::table::{Empty, Table};
use rept_isa::{AmoOp, Instr, StepRow};
use rept_known::Both;
use rept_machine::arithmetic::combined;
use rept_partial::Partial;

/// Whether an atomic instruction answers by the word that stood in memory before it.
fn answers_word(op: AmoOp) -> bool
    ensures { result ≡ true → op ≢ AmoOp.Sc }
{
    !matches!(op, AmoOp::Sc)
}

/// Byte `k` of the word before an atomic instruction, as its register tells it.
pub fn held_byte(table: &Table, index: u32, row: &StepRow, k: u32) -> Option<ByteAt>
    requires inside { index + 1 < table.now.points }
    ensures { IfSome result (λ b. (story : Story) (run : ℕ → State) → slice_get story.rows index ≡ Some row.now → HasSets story table.now run → (run index).memory b.address ≡ b.value) }
{
    // for the proof alone
    let _points = table.points();
    match row.instr {
        Instr::Amo { op, rd, rs1, .. } => {
            if rd.number() == 0 || k >= 4 || !answers_word(op) {
                return None;
            }
            match place_of(table, index, rs1, 0) {
                None => None,
                Some(place) => match byte_in(table.at(index + 1, rd), k) {
                    None => None,
                    Some(value) => Some(ByteAt {
                        address: place.wrapping_add(k),
                        value,
                    }),
                },
            }
        }
        _ => None,
    }
}

/// The word that an atomic instruction leaves, by its answer and its source. None where nothing is
/// written: by LR, and by an SC that fails.
fn word_after(op: AmoOp, answer: u32, source: u32) -> Option<u32>
    ensures { IfSome result (λ v. (rd base : ℕ) (a : Addresses) (s t : State) → rd ≢ 0 → Acts op rd source base a s t → t.register rd ≡ answer → PutsWord v base s t) }
{
    match op {
        AmoOp::Lr => None,
        AmoOp::Sc => { if answer == 0 { Some(source) } else { None } }
        _ => Some(combined(op, answer, source)),
    }
}

/// Byte `k` of the word after an atomic instruction, as its source and its register tell it.
pub fn left_byte(table: &Table, index: u32, row: &StepRow, k: u32) -> Option<ByteAt>
    requires inside { index + 1 < table.now.points }
    ensures { IfSome result (λ b. (story : Story) (run : ℕ → State) → slice_get story.rows index ≡ Some row.now → HasSets story table.now run → (run (index + 1)).memory b.address ≡ b.value) }
{
    // for the proof alone
    let _points = table.points();
    match row.instr {
        Instr::Amo { op, rd, rs1, rs2 } => {
            if rd.number() == 0 || k >= 4 {
                return None;
            }
            let answer = table.at(index + 1, rd).as_exact()?;
            let source = table.at(index, rs2).as_exact()?;
            let place = place_of(table, index, rs1, 0)?;
            let word = word_after(op, answer, source)?;
            Some(ByteAt {
                address: place.wrapping_add(k),
                value: ((word >> (8 * k)) & 0xff) as u8,
            })
        }
        _ => None,
    }
}

/// The register of an atomic instruction has the word that stood in memory before it. Answers
/// whether its set changed.
pub fn answer_row<B: ToldBytes>(
    table: &mut Table,
    bytes: &B,
    index: u32,
    row: &StepRow,
) -> Result<bool, Empty>
    requires inside { index + 1 < table.old.points }
    ensures points { table.new.points ≡ table.old.points }
    ensures keeps { OnOk result ((story : Story) (run : ℕ → State) → slice_get story.rows index ≡ Some row.now → AreBytes story (B.tells bytes.now) run → HasSets story table.old run → HasSets story table.new run) }
    ensures refuses { OnErr result ((story : Story) (run : ℕ → State) → slice_get story.rows index ≡ Some row.now → AreBytes story (B.tells bytes.now) run → HasSets story table.old run → ⊥) }
{
    // for the proof alone
    let _points = table.points();
    match row.instr {
        Instr::Amo { op, rd, rs1, .. } => {
            if rd.number() == 0 || !answers_word(op) {
                return Ok(false);
            }
            match place_of(table, index, rs1, 0) {
                None => Ok(false),
                Some(place) => match told_word(bytes, index, place) {
                    None => Ok(false),
                    Some(v) => table.narrow(index + 1, rd, Both::exact(v)),
                },
            }
        }
        _ => Ok(false),
    }
}
