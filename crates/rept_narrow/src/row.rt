//! What a row tells of the sets of registers before and after it.

ghost use Rattle.std.specs.Prelude.{◌≡◌, ◌≢◌, ◌+◌, ◌<◌, ◌≤◌, ℕ, length, OnOk, OnErr, Some, slice_get};
ghost use Rattle.rept_isa.specs.Operands.{written_by};
ghost use Rattle.rept_narrow.specs.Admitted.{Story};
ghost use Rattle.rept_narrow.specs.Rules.{set_at, KeepsSets, RefusesSets, IsSound};

use crate::table::{Empty, Table};
use rept_isa::{Reg, StepRow, reads, register, writes};
use rept_known::Both;
use rept_partial::Partial;
use rept_span::Transfer;

/// A row that doesn't write a register carries its set both ways. Answers whether a set changed.
fn carry_one(table: &mut Table, index: u32, row: &StepRow, r: Reg) -> Result<bool, Empty>
    requires inside { index + 1 < table.old.points }
    requires kept { written_by row.now.instr ≢ Some r }
    ensures points { table.new.points ≡ table.old.points }
    ensures keeps { OnOk result ((story : Story) → slice_get story.rows index ≡ Some row.now → KeepsSets story table.old table.new) }
    ensures refuses { OnErr result ((story : Story) → slice_get story.rows index ≡ Some row.now → RefusesSets story table.old) }
{
    // for the proof alone
    let _points = table.points();
    let before = table.at(index, r);
    let onward = table.narrow(index + 1, r, before)?;
    let after = table.at(index + 1, r);
    let back = table.narrow(index, r, after)?;
    Ok(onward || back)
}

/// Where both sets are the same, there is nothing to carry.
fn carry_apart(table: &mut Table, index: u32, row: &StepRow, r: Reg) -> Result<bool, Empty>
    requires inside { index + 1 < table.old.points }
    requires kept { written_by row.now.instr ≢ Some r }
    ensures points { table.new.points ≡ table.old.points }
    ensures keeps { OnOk result ((story : Story) → slice_get story.rows index ≡ Some row.now → KeepsSets story table.old table.new) }
    ensures refuses { OnErr result ((story : Story) → slice_get story.rows index ≡ Some row.now → RefusesSets story table.old) }
{
    // for the proof alone
    let _points = table.points();
    let before = table.at(index, r);
    let after = table.at(index + 1, r);
    if before == after {
        return Ok(false);
    }
    carry_one(table, index, row, r)
}

/// Each register but the one that the row writes has the same value before and after it: both sets
/// are cut to their common values, of these registers, by bits, and of those that are due since.
/// Answers whether a set changed.
pub fn carry(table: &mut Table, index: u32, row: &StepRow, due: u32) -> Result<bool, Empty>
    requires inside { index + 1 < table.old.points }
    ensures points { table.new.points ≡ table.old.points }
    ensures keeps { OnOk result ((story : Story) → slice_get story.rows index ≡ Some row.now → KeepsSets story table.old table.new) }
    ensures refuses { OnErr result ((story : Story) → slice_get story.rows index ≡ Some row.now → RefusesSets story table.old) }
{
    let written = writes(&row.instr);
    let due = due | table.due(index);
    let mut changed = false;
    for number in 0..32u8 {
        let rest = due >> u32::from(number);
        if rest == 0 {
            return Ok(changed);
        }
        let r = register(number);
        if rest & 1 != 0 && written != Some(r) {
            if carry_apart(table, index, row, r)? {
                changed = true;
            }
        }
    }
    Ok(changed)
}

/// The set of the register in an operand's place; all values where the form has no such place.
fn operand(table: &Table, point: u32, r: Option<Reg>) -> Both
    requires point { point < table.now.points }
    ensures { (s : ℕ) → r ≡ Some s → set_at table.now point s ≡ Some result }
{
    match r {
        None => Both::unknown(),
        Some(register) => table.at(point, register),
    }
}

/// The set of the register that a row writes is cut to what the row makes of the sets of its
/// operands. Answers whether it changed.
pub fn forward(table: &mut Table, index: u32, row: &StepRow) -> Result<bool, Empty>
    requires inside { index + 1 < table.old.points }
    ensures points { table.new.points ≡ table.old.points }
    ensures keeps { OnOk result ((story : Story) → slice_get story.rows index ≡ Some row.now → KeepsSets story table.old table.new) }
    ensures refuses { OnErr result ((story : Story) → slice_get story.rows index ≡ Some row.now → RefusesSets story table.old) }
{
    // for the proof alone
    let _points = table.points();
    match writes(&row.instr) {
        None => Ok(false),
        Some(rd) => {
            let (first, second) = reads(&row.instr);
            let a = operand(table, index, first);
            let b = operand(table, index, second);
            let made = Both::apply(&row.instr, row.from(), a, b);
            table.narrow(index + 1, rd, made)
        }
    }
}

/// Cuts the set of the register in an operand's place to another set, if the form has that place.
fn narrow_operand(table: &mut Table, point: u32, r: Option<Reg>, set: Both) -> Result<bool, Empty>
    requires point { point < table.old.points }
    ensures points { table.new.points ≡ table.old.points }
    ensures narrower { (story : Story) → KeepsSets story table.new table.old }
    ensures keeps { OnOk result ((story : Story) → ((s : ℕ) → r ≡ Some s → IsSound story table.old point s set) → KeepsSets story table.old table.new) }
    ensures refuses { OnErr result ((story : Story) → ((s : ℕ) → r ≡ Some s → IsSound story table.old point s set) → point ≤ length story.rows → RefusesSets story table.old) }
{
    match r {
        None => Ok(false),
        Some(register) => table.narrow(point, register, set),
    }
}

/// The sets of the registers that a branch or a jump reads are cut to those values from which it
/// goes the way that the row went. Answers whether a set changed.
pub fn turn(table: &mut Table, index: u32, row: &StepRow) -> Result<bool, Empty>
    requires inside { index + 1 < table.old.points }
    ensures points { table.new.points ≡ table.old.points }
    ensures keeps { OnOk result ((story : Story) → slice_get story.rows index ≡ Some row.now → KeepsSets story table.old table.new) }
    ensures refuses { OnErr result ((story : Story) → slice_get story.rows index ≡ Some row.now → RefusesSets story table.old) }
{
    let (first, second) = reads(&row.instr);
    let a = operand(table, index, first);
    let b = operand(table, index, second);
    match Both::narrow(row, a, b) {
        None => Err(Empty {
            point: index,
            reg: first_of(first),
        }),
        Some((x, y)) => {
            let one = narrow_operand(table, index, first, x)?;
            let other = narrow_operand(table, index, second, y)?;
            Ok(one || other)
        }
    }
}

/// A register to name where a row leaves nothing.
fn first_of(r: Option<Reg>) -> Reg {
    match r {
        None => register(0),
        Some(register) => register,
    }
}
