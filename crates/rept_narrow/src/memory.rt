//! What loads and stores tell of bytes and registers.

ghost use Rattle.std.specs.Prelude.{◌≡◌, ◌≢◌, ◌+◌, ◌*◌, ◌^◌, ◌<◌, ◌≤◌, ℕ, length, true, IfSome, OnOk, OnErr, Some, slice_get};
ghost use Rattle.rept_isa.specs.Numbers.{plus, beside};
ghost use Rattle.rept_machine.specs.Arithmetic.{byte_of, extended, half_at, loaded, word_at};
ghost use Rattle.rept_machine.specs.State.{State};
ghost use Rattle.rept_known.specs.Both.{both_has};
ghost use Rattle.rept_narrow.specs.Admitted.{Story};
ghost use Rattle.rept_narrow.specs.Rules.{set_at, HasSets, AreBytes};
ghost use Rattle.rept_narrow.specs.Sweeps.{load_width};

use crate::bytes::ToldBytes;
use crate::store::byte_bits;
use crate::table::{Empty, Table};
use rept_isa::number::plus;
use rept_isa::{Instr, LoadOp, Reg, StepRow};
use rept_known::Both;
use rept_machine::store_width;
use rept_partial::Partial;

/// The address that a row names, where its base has one value.
pub fn place_of(table: &Table, index: u32, rs1: Reg, imm: i32) -> Option<u32>
    requires inside { index < table.now.points }
    ensures { IfSome result (λ a. (story : Story) (run : ℕ → State) → HasSets story table.now run → index ≤ length story.rows → plus ((run index).register rs1) imm ≡ a) }
{
    match table.at(index, rs1).as_exact() {
        None => None,
        Some(base) => Some(plus(base, imm)),
    }
}

/// Byte `k` of the values of a set, if it is the same in all of them.
pub fn byte_in(set: Both, k: u32) -> Option<u8>
    requires { k < 4 }
    ensures { IfSome result (λ b. (v : ℕ) → both_has set v ≡ true → byte_of v k ≡ b) }
{
    match byte_bits(set.bits(), k).as_exact() {
        None => None,
        Some(b) => Some(b as u8),
    }
}

/// The highest of eight bits, repeated.
fn extended_byte(n: u32) -> u32
    requires { n < 2 ^ 8 }
    ensures { result ≡ extended 8 n }
{
    if n < 128 { n } else { n + 0xffff_ff00 }
}

/// The highest of sixteen bits, repeated.
fn extended_half(n: u32) -> u32
    requires { n < 2 ^ 16 }
    ensures { result ≡ extended 16 n }
{
    if n < 32768 { n } else { n + 0xffff_0000 }
}

/// A byte that is told, so far from a place.
fn told_byte<B: ToldBytes>(bytes: &B, point: u32, place: u32, k: u32) -> Option<u32>
    ensures value { IfSome result (λ v. B.tells bytes.now point (beside place k) v) }
    ensures small { IfSome result (λ v. v < 2 ^ 8) }
{
    match bytes.byte(point, place.wrapping_add(k)) {
        None => None,
        Some(b) => Some(u32::from(b)),
    }
}

/// The number in two bytes, if they are told.
fn told_half<B: ToldBytes>(bytes: &B, point: u32, place: u32) -> Option<u32>
    ensures value { IfSome result (λ v. (story : Story) (run : ℕ → State) → AreBytes story (B.tells bytes.now) run → point ≤ length story.rows → half_at (run point).memory place ≡ v) }
    ensures small { IfSome result (λ v. v < 2 ^ 16) }
{
    match told_byte(bytes, point, place, 0) {
        None => None,
        Some(low) => match told_byte(bytes, point, place, 1) {
            None => None,
            Some(high) => Some(low + 256 * high),
        },
    }
}

/// The number in four bytes, if they are told.
pub(crate) fn told_word<B: ToldBytes>(bytes: &B, point: u32, place: u32) -> Option<u32>
    ensures { IfSome result (λ v. (story : Story) (run : ℕ → State) → AreBytes story (B.tells bytes.now) run → point ≤ length story.rows → word_at (run point).memory place ≡ v) }
{
    match told_half(bytes, point, place) {
        None => None,
        Some(low) => match told_byte(bytes, point, place, 2) {
            None => None,
            Some(third) => match told_byte(bytes, point, place, 3) {
                None => None,
                Some(high) => Some(low + 65536 * third + 16777216 * high),
            },
        },
    }
}

/// What a load puts into its register, if its bytes are told.
pub fn told_load<B: ToldBytes>(bytes: &B, point: u32, op: LoadOp, place: u32) -> Option<u32>
    ensures { IfSome result (λ v. (story : Story) (run : ℕ → State) → AreBytes story (B.tells bytes.now) run → point ≤ length story.rows → loaded op (run point).memory place ≡ v) }
{
    match op {
        LoadOp::Lw => told_word(bytes, point, place),
        LoadOp::Lhu => told_half(bytes, point, place),
        LoadOp::Lh => match told_half(bytes, point, place) {
            None => None,
            Some(n) => Some(extended_half(n)),
        },
        LoadOp::Lbu => told_byte(bytes, point, place, 0),
        LoadOp::Lb => match told_byte(bytes, point, place, 0) {
            None => None,
            Some(n) => Some(extended_byte(n)),
        },
    }
}

/// The register of a load has what its bytes are before the row. Answers whether its set changed.
pub fn load_row<B: ToldBytes>(
    table: &mut Table,
    bytes: &B,
    index: u32,
    row: &StepRow,
) -> Result<bool, Empty>
    requires inside { index + 1 < table.old.points }
    ensures points { table.new.points ≡ table.old.points }
    ensures keeps { OnOk result ((story : Story) (run : ℕ → State) → slice_get story.rows index ≡ Some row.now → AreBytes story (B.tells bytes.now) run → HasSets story table.old run → HasSets story table.new run) }
    ensures refuses { OnErr result ((story : Story) (run : ℕ → State) → slice_get story.rows index ≡ Some row.now → AreBytes story (B.tells bytes.now) run → HasSets story table.old run → ⊥) }
{
    // for the proof alone
    let _points = table.points();
    match row.instr {
        Instr::Load { op, rd, rs1, imm } => {
            if rd.number() == 0 {
                return Ok(false);
            }
            match place_of(table, index, rs1, imm) {
                None => Ok(false),
                Some(place) => match told_load(bytes, index, op, place) {
                    None => Ok(false),
                    Some(v) => table.narrow(index + 1, rd, Both::exact(v)),
                },
            }
        }
        _ => Ok(false),
    }
}

/// The source of a word's store is what its bytes are after the row. Answers whether its set
/// changed.
pub fn store_row<B: ToldBytes>(
    table: &mut Table,
    bytes: &B,
    index: u32,
    row: &StepRow,
) -> Result<bool, Empty>
    requires inside { index + 1 < table.old.points }
    ensures points { table.new.points ≡ table.old.points }
    ensures keeps { OnOk result ((story : Story) (run : ℕ → State) → slice_get story.rows index ≡ Some row.now → AreBytes story (B.tells bytes.now) run → HasSets story table.old run → HasSets story table.new run) }
    ensures refuses { OnErr result ((story : Story) (run : ℕ → State) → slice_get story.rows index ≡ Some row.now → AreBytes story (B.tells bytes.now) run → HasSets story table.old run → ⊥) }
{
    // for the proof alone
    let _points = table.points();
    match row.instr {
        Instr::Store { op, rs1, rs2, imm } => {
            if store_width(op) != 4 {
                return Ok(false);
            }
            match place_of(table, index, rs1, imm) {
                None => Ok(false),
                Some(place) => match told_word(bytes, index + 1, place) {
                    None => Ok(false),
                    Some(v) => table.narrow(index, rs2, Both::exact(v)),
                },
            }
        }
        _ => Ok(false),
    }
}
