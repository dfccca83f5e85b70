//! Operations on registers whose values are known.

ghost use Rattle.std.specs.Prelude.{◌≡◌, ◌≢◌, ◌+◌, ◌<◌, IfSome, OnOk, OnErr, Some, slice_get};
ghost use Rattle.rept_known.specs.Both.{both_sets};
ghost use Rattle.rept_narrow.specs.Admitted.{Story};
ghost use Rattle.rept_narrow.specs.Rules.{KeepsSets, RefusesSets};

use crate::table::{Empty, Table};
use rept_isa::{Instr, Reg, RegOp, StepRow};
use rept_known::Both;
use rept_machine::arithmetic::{computed, computed_imm};
use rept_partial::Partial;

/// An operation on registers: which one, where its result goes, and what it reads.
#[derive(Clone, Copy)]
struct ExactOperation {
    op: RegOp,
    rd: Reg,
    rs1: Reg,
    rs2: Reg,
}

/// The values of two sets, if each has one alone.
fn both_values(first: Both, second: Both) -> Option<(u32, u32)>
    ensures { IfSome result (λ v. (both_sets.as_exact first ≡ Some v.0) × (both_sets.as_exact second ≡ Some v.1)) }
{
    match first.as_exact() {
        None => None,
        Some(x) => match second.as_exact() {
            None => None,
            Some(y) => Some((x, y)),
        },
    }
}

/// The result of an operation on two registers whose values are known is known, too. Answers whether
/// its set changed.
fn operated(
    table: &mut Table,
    index: u32,
    row: &StepRow,
    operation: ExactOperation,
) -> Result<bool, Empty>
    requires inside { index + 1 < table.old.points }
    requires form { row.now.instr ≡ Instr.Op operation.op operation.rd operation.rs1 operation.rs2 }
    requires named { operation.rd ≢ 0 }
    ensures points { table.new.points ≡ table.old.points }
    ensures keeps { OnOk result ((story : Story) → slice_get story.rows index ≡ Some row.now → KeepsSets story table.old table.new) }
    ensures refuses { OnErr result ((story : Story) → slice_get story.rows index ≡ Some row.now → RefusesSets story table.old) }
{
    // for the proof alone
    let _points = table.points();
    let first = table.at(index, operation.rs1);
    let second = table.at(index, operation.rs2);
    match both_values(first, second) {
        None => Ok(false),
        Some(values) => {
            let made = Both::exact(computed(operation.op, values.0, values.1));
            table.narrow(index + 1, operation.rd, made)
        }
    }
}

/// The result of an operation on an immediate and a register whose value is known is known, too.
/// Answers whether its set changed.
fn immediate(table: &mut Table, index: u32, row: &StepRow) -> Result<bool, Empty>
    requires inside { index + 1 < table.old.points }
    ensures points { table.new.points ≡ table.old.points }
    ensures keeps { OnOk result ((story : Story) → slice_get story.rows index ≡ Some row.now → KeepsSets story table.old table.new) }
    ensures refuses { OnErr result ((story : Story) → slice_get story.rows index ≡ Some row.now → RefusesSets story table.old) }
{
    // for the proof alone
    let _points = table.points();
    match row.instr {
        Instr::Imm { op, rd, rs1, imm } => {
            if rd.number() == 0 {
                return Ok(false);
            }
            match table.at(index, rs1).as_exact() {
                None => Ok(false),
                Some(value) => {
                    let made = Both::exact(computed_imm(op, value, imm));
                    table.narrow(index + 1, rd, made)
                }
            }
        }
        _ => Ok(false),
    }
}

/// What a row makes of registers whose values are known. Answers whether a set changed.
pub fn exactly(table: &mut Table, index: u32, row: &StepRow) -> Result<bool, Empty>
    requires inside { index + 1 < table.old.points }
    ensures points { table.new.points ≡ table.old.points }
    ensures keeps { OnOk result ((story : Story) → slice_get story.rows index ≡ Some row.now → KeepsSets story table.old table.new) }
    ensures refuses { OnErr result ((story : Story) → slice_get story.rows index ≡ Some row.now → RefusesSets story table.old) }
{
    match row.instr {
        Instr::Op { op, rd, rs1, rs2 } => {
            if rd.number() == 0 {
                Ok(false)
            } else {
                operated(table, index, row, ExactOperation { op, rd, rs1, rs2 })
            }
        }
        Instr::Imm { .. } => immediate(table, index, row),
        _ => Ok(false),
    }
}
