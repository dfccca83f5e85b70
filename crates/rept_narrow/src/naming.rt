//! The bytes that loads, stores and atomic instructions name.

ghost use Rattle.std.specs.Prelude.{◌≡◌, ◌+◌, ◌<◌, ◌≤◌, ℕ, length, Some, IfSome, slice_get};
ghost use Rattle.rept_machine.specs.State.{State};
ghost use Rattle.rept_narrow.specs.Admitted.{Story};
ghost use Rattle.rept_narrow.specs.Rules.{HasSets};
ghost use Rattle.rept_narrow.specs.Sweeps.{load_width};

use crate::atomic::{held_byte, left_byte};
use crate::lanes::Sweep;
use crate::memory::{byte_in, place_of};
use crate::table::Table;
use rept_isa::{Instr, LoadOp, StepRow};
use rept_machine::store_width;

/// A byte of memory.
#[derive(Clone, Copy)]
pub struct ByteAt {
    /// the address
    pub address: u32,
    /// the value
    pub value: u8,
}

/// How many bytes a load reads.
pub fn load_width(op: LoadOp) -> u32
    ensures width { result ≡ load_width op }
    ensures small { result ≤ 4 }
{
    match op {
        LoadOp::Lb | LoadOp::Lbu => 1,
        LoadOp::Lh | LoadOp::Lhu => 2,
        LoadOp::Lw => 4,
    }
}

/// The address of byte `k` of those that a load, a store or an atomic instruction names, where its
/// base has one value.
pub fn named(table: &Table, index: u32, row: &StepRow, k: u32) -> Option<u32>
    requires inside { index + 1 < table.now.points }
{
    // for the proof alone
    let _points = table.points();
    match row.instr {
        Instr::Load { op, rs1, imm, .. } => {
            if k < load_width(op) {
                Some(place_of(table, index, rs1, imm)?.wrapping_add(k))
            } else {
                None
            }
        }
        Instr::Store { op, rs1, imm, .. } => {
            if k < store_width(op) {
                Some(place_of(table, index, rs1, imm)?.wrapping_add(k))
            } else {
                None
            }
        }
        Instr::Amo { rs1, .. } => {
            if k < 4 {
                Some(place_of(table, index, rs1, 0)?.wrapping_add(k))
            } else {
                None
            }
        }
        _ => None,
    }
}

/// The first of the 32 bytes that lie around those that a load or a store names, from a multiple of
/// 16 on, where its base has one value.
pub fn window_of(table: &Table, index: u32, row: &StepRow) -> Option<u32>
    requires inside { index + 1 < table.now.points }
{
    Some(named(table, index, row, 0)? & 0xffff_fff0)
}

/// Whether the first and the last one of such bytes are held.
pub fn is_window_held(sweep: &Sweep, first: u32) -> bool {
    sweep.held().get(first).is_some() && sweep.held().get(first.wrapping_add(31)).is_some()
}

/// Byte `k` of those that a load or an atomic instruction reads, as its register tells it.
pub fn loaded_byte(table: &Table, index: u32, row: &StepRow, k: u32) -> Option<ByteAt>
    requires inside { index + 1 < table.now.points }
    ensures { IfSome result (λ b. (story : Story) (run : ℕ → State) → slice_get story.rows index ≡ Some row.now → HasSets story table.now run → (run index).memory b.address ≡ b.value) }
{
    // for the proof alone
    let _points = table.points();
    match row.instr {
        Instr::Load { op, rd, rs1, imm } => {
            if rd.number() == 0 || k >= load_width(op) {
                return None;
            }
            match place_of(table, index, rs1, imm) {
                None => None,
                Some(place) => match byte_in(table.at(index + 1, rd), k) {
                    None => None,
                    Some(value) => Some(ByteAt {
                        address: place.wrapping_add(k),
                        value,
                    }),
                },
            }
        }
        Instr::Amo { .. } => held_byte(table, index, row, k),
        _ => None,
    }
}

/// Byte `k` of those that a store or an atomic instruction leaves, as its registers tell it.
pub fn stored_byte(table: &Table, index: u32, row: &StepRow, k: u32) -> Option<ByteAt>
    requires inside { index + 1 < table.now.points }
    ensures { IfSome result (λ b. (story : Story) (run : ℕ → State) → slice_get story.rows index ≡ Some row.now → HasSets story table.now run → (run (index + 1)).memory b.address ≡ b.value) }
{
    // for the proof alone
    let _points = table.points();
    match row.instr {
        Instr::Store { op, rs1, rs2, imm } => {
            if k >= store_width(op) {
                return None;
            }
            match place_of(table, index, rs1, imm) {
                None => None,
                Some(place) => match byte_in(table.at(index, rs2), k) {
                    None => None,
                    Some(value) => Some(ByteAt {
                        address: place.wrapping_add(k),
                        value,
                    }),
                },
            }
        }
        Instr::Amo { .. } => left_byte(table, index, row, k),
        _ => None,
    }
}
