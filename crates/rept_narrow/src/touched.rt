//! The bytes that calls and atomic instructions may write, from the sets of registers.

ghost use Rattle.std.specs.Prelude.{◌≡◌, ◌+◌, ◌<◌, ◌≤◌, ℕ, length, true, Some, slice_get};
ghost use Rattle.rept_isa.specs.declared.instr.Instr.TheVariants.{Ecall};
ghost use Rattle.rept_isa.specs.declared.row.StepRow.{StepRow};
ghost use Rattle.rept_alias.specs.Accesses.{call_hits};
ghost use Rattle.rept_havoc.specs.Havoc.{Lies};
ghost use Rattle.rept_machine.specs.State.{State};
ghost use Rattle.rept_machine.specs.Writes.{WritesAtomic};
ghost use Rattle.rept_narrow.specs.Admitted.{Story, RowWrites};
ghost use Rattle.rept_narrow.specs.Rules.{HasSets};
ghost use Rattle.rept_narrow.specs.Stores.{IsAtomicAt};

use crate::table::Table;
use rept_alias::{CallAccess, access};
use rept_havoc::havoc;
use rept_isa::{AmoOp, Instr, Reg, StepRow, register};
use rept_partial::{Flat, Partial, Range};

/// The range of a register at a point.
fn range_of(table: &Table, point: u32, number: u8) -> Range
    requires point { point < table.now.points }
    requires register { number < 32 }
    ensures { (story : Story) (run : ℕ → State) → HasSets story table.now run → point ≤ length story.rows → Lies ((run point).register number) result }
{
    table.at(point, register(number)).range()
}

/// The bytes that a call may change.
pub fn call_access(table: &Table, index: u32, image_end: u64) -> CallAccess
    requires inside { index + 1 < table.now.points }
    ensures { (story : Story) (run : ℕ → State) (row : StepRow) (a : ℕ) → story.image_end ≡ image_end → slice_get story.rows index ≡ Some row → row.instr ≡ Ecall → HasSets story table.now run → RowWrites story run index row a → call_hits result a ≡ true }
{
    // for the proof alone
    let _points = table.points();
    let number = Flat::of(table.at(index, register(17)).as_exact());
    let args = [
        range_of(table, index, 10),
        range_of(table, index, 11),
        range_of(table, index, 12),
        range_of(table, index, 13),
        range_of(table, index, 14),
        range_of(table, index, 15),
    ];
    havoc(number, &args, range_of(table, index + 1, 10), image_end)
}

/// The bytes that an atomic instruction may write.
pub fn atomic_access(table: &Table, index: u32, rs1: Reg) -> CallAccess
    requires inside { index + 1 < table.now.points }
    ensures { (story : Story) (run : ℕ → State) (row : StepRow) (a : ℕ) → slice_get story.rows index ≡ Some row → IsAtomicAt row.instr rs1 → HasSets story table.now run → RowWrites story run index row a → call_hits result a ≡ true }
{
    // for the proof alone
    let _points = table.points();
    let base = table.at(index, rs1).range();
    CallAccess {
        first: Some(access(base, 0, 4)),
        second: None,
    }
}

/// Whether an atomic instruction of this destination is known to write no byte: an LR, and an SC that
/// failed, as its register tells it (RISC-V unprivileged manual 20191213, chapter 8.2).
fn atomic_writes_none(table: &Table, index: u32, op: AmoOp, rd: Reg) -> bool
    requires inside { index + 1 < table.now.points }
    ensures { result ≡ true → (story : Story) (run : ℕ → State) (base a : ℕ) → index < length story.rows → HasSets story table.now run → WritesAtomic op rd base (run (index + 1)).register a → ⊥ }
{
    // for the proof alone
    let _points = table.points();
    match op {
        AmoOp::Lr => true,
        AmoOp::Sc => rd.number() != 0 && table.at(index + 1, rd).lo() > 0,
        _ => false,
    }
}

/// Whether a row is an atomic instruction that is known to write no byte.
pub fn writes_none(table: &Table, index: u32, row: &StepRow) -> bool
    requires inside { index + 1 < table.now.points }
    ensures { result ≡ true → (story : Story) (run : ℕ → State) (a : ℕ) → slice_get story.rows index ≡ Some row.now → HasSets story table.now run → RowWrites story run index row.now a → ⊥ }
{
    match row.instr {
        Instr::Amo { op, rd, .. } => atomic_writes_none(table, index, op, rd),
        _ => false,
    }
}
