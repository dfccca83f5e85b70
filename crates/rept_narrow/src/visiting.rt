//! The rules of one row's registers.

ghost use Rattle.std.specs.Prelude.{◌≡◌, ◌+◌, ◌<◌, OnOk, OnErr, Some, slice_get};
ghost use Rattle.rept_narrow.specs.Admitted.{Story};
ghost use Rattle.rept_narrow.specs.Rules.{KeepsSets, RefusesSets};

use crate::due::bit_of;
use crate::exact::exactly;
use crate::inverse::back;
use crate::row::{carry, forward, turn};
use crate::table::{Empty, Table};
use rept_isa::{Reg, StepRow, reads, writes};

/// The bit of the register in an operand's place; none where the form has no such place.
fn bit_in(r: Option<Reg>) -> u32 {
    match r {
        None => 0,
        Some(register) => bit_of(register),
    }
}

/// The registers that a row reads or writes, by bits.
fn own_bits(row: &StepRow) -> u32 {
    let (first, second) = reads(&row.instr);
    bit_in(first) | bit_in(second) | bit_in(writes(&row.instr))
}

/// The rules of the registers that one row reads or writes, if one of them is due. Answers whether
/// a set changed.
fn tell_own(table: &mut Table, index: u32, row: &StepRow, due: u32) -> Result<bool, Empty>
    requires inside { index + 1 < table.old.points }
    ensures points { table.new.points ≡ table.old.points }
    ensures keeps { OnOk result ((story : Story) → slice_get story.rows index ≡ Some row.now → KeepsSets story table.old table.new) }
    ensures refuses { OnErr result ((story : Story) → slice_get story.rows index ≡ Some row.now → RefusesSets story table.old) }
{
    if due & own_bits(row) == 0 {
        return Ok(false);
    }
    let turned = turn(table, index, row)?;
    let made = forward(table, index, row)?;
    let known = exactly(table, index, row)?;
    let found = back(table, index, row)?;
    Ok(turned || made || known || found)
}

/// The rules of one row's registers, as far as these are due: as far as a set before or after the
/// row changed since they were tried. Answers whether a set changed.
pub fn visit(table: &mut Table, index: u32, row: &StepRow) -> Result<bool, Empty>
    requires inside { index + 1 < table.old.points }
    ensures points { table.new.points ≡ table.old.points }
    ensures keeps { OnOk result ((story : Story) → slice_get story.rows index ≡ Some row.now → KeepsSets story table.old table.new) }
    ensures refuses { OnErr result ((story : Story) → slice_get story.rows index ≡ Some row.now → RefusesSets story table.old) }
{
    let due = table.due(index);
    if due == 0 {
        return Ok(false);
    }
    table.keep_due(index, 0);
    let told = tell_own(table, index, row, due)?;
    let carried = carry(table, index, row, due)?;
    table.keep_due(index, own_bits(row));
    Ok(told || carried)
}
