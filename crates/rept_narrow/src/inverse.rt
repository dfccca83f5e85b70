//! What the result of a row tells of its operands.

ghost use Rattle.std.specs.Prelude.{◌≡◌, ◌+◌, ◌<◌, ◌^◌, ℕ, true, bit_and, OnOk, OnErr, Some, slice_get};
ghost use Rattle.rept_machine.specs.Arithmetic.{computed};
ghost use Rattle.rept_known.specs.Bits.{bits_has};
ghost use Rattle.rept_known.specs.Both.{both_has};
ghost use Rattle.rept_narrow.specs.Admitted.{Story};
ghost use Rattle.rept_narrow.specs.Rules.{KeepsSets, RefusesSets};

use crate::answers::words_between;
use crate::table::{Empty, Table};
use rept_isa::number::word;
use rept_isa::{Instr, RegOp, StepRow, register};
use rept_known::{Bits, Both};
use rept_machine::arithmetic::register_form;
use rept_partial::Partial;
use rept_span::Transfer;

/// A set of the results of an operation on values of two sets.
fn combined(op: RegOp, a: Both, b: Both) -> Both
    ensures { (x y : ℕ) → both_has a x ≡ true → both_has b y ≡ true → computed op x y < 2 ^ 32 → both_has result (computed op x y) ≡ true }
{
    let instr = Instr::Op {
        op,
        rd: register(3),
        rs1: register(1),
        rs2: register(2),
    };
    Both::apply(&instr, 0, a, b)
}

/// The bits that an operand of AND has: those of 1 in the result, and each bit of the result that is
/// known where the other operand has a 1.
fn unmasked(made: Bits, other: Bits) -> Bits
    ensures { (x y : ℕ) → x < 2 ^ 32 → bits_has made (bit_and x y) ≡ true → bits_has other y ≡ true → bits_has result x ≡ true }
{
    let value = made.value();
    let loose = !(value | (!made.loose() & other.value()));
    Bits::new(value & !loose, loose)
}

/// A set of the operands of AND, where its result is in one set and its other operand in another.
/// No operand is less than the result.
fn and_operand(made: Both, other: Both) -> Both
    ensures { (x y : ℕ) → x < 2 ^ 32 → both_has made (bit_and x y) ≡ true → both_has other y ≡ true → both_has result x ≡ true }
{
    words_between(made.lo(), u32::MAX, unmasked(made.bits(), other.bits()))
}

/// A set of the first operands with which an operation has a result of one set, where the second
/// operand is in another one. ADD, SUB and XOR can be undone, and AND in part; of others nothing is
/// told.
fn first_operand(op: RegOp, made: Both, second: Both) -> Both
    ensures { (x y : ℕ) → x < 2 ^ 32 → both_has made (computed op x y) ≡ true → both_has second y ≡ true → both_has result x ≡ true }
{
    match op {
        RegOp::Add => combined(RegOp::Sub, made, second),
        RegOp::Sub => combined(RegOp::Add, made, second),
        RegOp::Xor => combined(RegOp::Xor, made, second),
        RegOp::And => and_operand(made, second),
        _ => Both::unknown(),
    }
}

/// A set of the second operands with which an operation has a result of one set, where the first
/// operand is in another one.
fn second_operand(op: RegOp, made: Both, first: Both) -> Both
    ensures { (x y : ℕ) → y < 2 ^ 32 → both_has made (computed op x y) ≡ true → both_has first x ≡ true → both_has result y ≡ true }
{
    match op {
        RegOp::Add => combined(RegOp::Sub, made, first),
        RegOp::Sub => combined(RegOp::Sub, first, made),
        RegOp::Xor => combined(RegOp::Xor, made, first),
        RegOp::And => and_operand(made, first),
        _ => Both::unknown(),
    }
}

/// The operand of an operation on a register and an immediate, by its result. Answers whether its
/// set changed.
fn immediate_back(table: &mut Table, index: u32, row: &StepRow) -> Result<bool, Empty>
    requires inside { index + 1 < table.old.points }
    ensures points { table.new.points ≡ table.old.points }
    ensures keeps { OnOk result ((story : Story) → slice_get story.rows index ≡ Some row.now → KeepsSets story table.old table.new) }
    ensures refuses { OnErr result ((story : Story) → slice_get story.rows index ≡ Some row.now → RefusesSets story table.old) }
{
    // for the proof alone
    let _points = table.points();
    match row.instr {
        Instr::Imm { op, rd, rs1, imm } => {
            if rd.number() == 0 {
                return Ok(false);
            }
            let made = table.at(index + 1, rd);
            let known = Both::exact(word(imm));
            table.narrow(index, rs1, first_operand(register_form(op), made, known))
        }
        _ => Ok(false),
    }
}

/// The first operand of an operation on two registers, by its result and the second one.
/// Answers whether its set changed.
fn first_back(table: &mut Table, index: u32, row: &StepRow) -> Result<bool, Empty>
    requires inside { index + 1 < table.old.points }
    ensures points { table.new.points ≡ table.old.points }
    ensures keeps { OnOk result ((story : Story) → slice_get story.rows index ≡ Some row.now → KeepsSets story table.old table.new) }
    ensures refuses { OnErr result ((story : Story) → slice_get story.rows index ≡ Some row.now → RefusesSets story table.old) }
{
    // for the proof alone
    let _points = table.points();
    match row.instr {
        Instr::Op { op, rd, rs1, rs2 } => {
            if rd.number() == 0 {
                return Ok(false);
            }
            let made = table.at(index + 1, rd);
            let known = table.at(index, rs2);
            table.narrow(index, rs1, first_operand(op, made, known))
        }
        _ => Ok(false),
    }
}

/// The second operand of an operation on two registers, by its result and the first one.
/// Answers whether its set changed.
fn second_back(table: &mut Table, index: u32, row: &StepRow) -> Result<bool, Empty>
    requires inside { index + 1 < table.old.points }
    ensures points { table.new.points ≡ table.old.points }
    ensures keeps { OnOk result ((story : Story) → slice_get story.rows index ≡ Some row.now → KeepsSets story table.old table.new) }
    ensures refuses { OnErr result ((story : Story) → slice_get story.rows index ≡ Some row.now → RefusesSets story table.old) }
{
    // for the proof alone
    let _points = table.points();
    match row.instr {
        Instr::Op { op, rd, rs1, rs2 } => {
            if rd.number() == 0 {
                return Ok(false);
            }
            let made = table.at(index + 1, rd);
            let known = table.at(index, rs1);
            table.narrow(index, rs2, second_operand(op, made, known))
        }
        _ => Ok(false),
    }
}

/// What the result of a row tells of its operands. Answers whether a set changed.
pub fn back(table: &mut Table, index: u32, row: &StepRow) -> Result<bool, Empty>
    requires inside { index + 1 < table.old.points }
    ensures points { table.new.points ≡ table.old.points }
    ensures keeps { OnOk result ((story : Story) → slice_get story.rows index ≡ Some row.now → KeepsSets story table.old table.new) }
    ensures refuses { OnErr result ((story : Story) → slice_get story.rows index ≡ Some row.now → RefusesSets story table.old) }
{
    let base = immediate_back(table, index, row)?;
    let one = first_back(table, index, row)?;
    let other = second_back(table, index, row)?;
    Ok(base || one || other)
}
