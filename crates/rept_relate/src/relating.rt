//! What a row tells of the classes of its operands and its result.

ghost use Rattle.std.specs.Prelude.{◌≡◌, ℕ, ◌<◌, true, length, OnOk, OnErr};
ghost use Rattle.rept_isa.specs.Operands.{turn_of};
ghost use Rattle.rept_machine.specs.Arithmetic.{register_form};
ghost use Rattle.rept_relate.specs.Classes.Valuations.{IsValued};
ghost use Rattle.rept_relate.specs.Relations.{equates, IsOfRow, IsComputed, IsComputedOf, IsResult, AreResults, AreBelow, KeepsIf, RefusesIf, KeepsBoth};

use crate::classes::{Classes, Impossible, Term};
use crate::numbering::OperandNodes;
use crate::operations::{Operation, Operations};
use crate::rules::{join_result, join_sum, root_term};
use rept_isa::number::word;
use rept_isa::{BranchOp, ImmOp, Instr, RegOp, StepRow, Turn, turn};

/// Whether a branch that went this way had equal operands.
fn equates(op: BranchOp, turn: Turn) -> bool
    ensures { result ≡ equates op turn }
{
    matches!(
        (op, turn),
        (BranchOp::Beq, Turn::Taken) | (BranchOp::Bne, Turn::NotTaken)
    )
}

/// The operation on registers that does the same as one with an immediate.
fn register_form(op: ImmOp) -> RegOp
    ensures { result ≡ register_form op }
{
    match op {
        ImmOp::Addi => RegOp::Add,
        ImmOp::Slti => RegOp::Slt,
        ImmOp::Sltiu => RegOp::Sltu,
        ImmOp::Xori => RegOp::Xor,
        ImmOp::Ori => RegOp::Or,
        ImmOp::Andi => RegOp::And,
        ImmOp::Slli => RegOp::Sll,
        ImmOp::Srli => RegOp::Srl,
        ImmOp::Srai => RegOp::Sra,
    }
}

/// The classes after an operation on two terms: its result is related to its operands, and to the
/// result of an operation that did the same.
fn compute(
    classes: &mut Classes,
    operations: &mut Operations,
    operation: Operation,
) -> Result<(), Impossible>
    requires node { operation.node < length classes.old }
    requires first { operation.first.node < length classes.old }
    requires second { operation.second.node < length classes.old }
    requires below { AreBelow operations.old (length classes.old) }
    ensures len { length classes.new ≡ length classes.old }
    ensures below { (limit : ℕ) → AreBelow operations.old limit → operation.node < limit → AreBelow operations.new limit }
    ensures keeps { OnOk result (KeepsBoth (λ value. (value 0 ≡ 0) × IsResult value operation) classes.old operations.old classes.new operations.new) }
    ensures refuses { OnErr result ((value : ℕ → ℕ) → (value 0 ≡ 0) × IsResult value operation → IsValued classes.old value → AreResults operations.old value → ⊥) }
{
    join_result(classes, &operation)?;
    match operations.like(&operation) {
        None => operations.add(operation),
        Some(known) => {
            join_sum(
                classes,
                operation.node,
                Term {
                    node: known,
                    offset: 0,
                },
            )?;
        }
    }
    Ok(())
}

/// The classes after an operation on two registers.
fn compute_registers(
    classes: &mut Classes,
    operations: &mut Operations,
    op: RegOp,
    node: u32,
    nodes: OperandNodes,
) -> Result<(), Impossible>
    requires node { node < length classes.old }
    requires first { nodes.first < length classes.old }
    requires second { nodes.second < length classes.old }
    requires below { AreBelow operations.old (length classes.old) }
    ensures len { length classes.new ≡ length classes.old }
    ensures below { (limit : ℕ) → AreBelow operations.old limit → node < limit → AreBelow operations.new limit }
    ensures keeps { OnOk result (KeepsBoth (IsComputed op node nodes.first nodes.second) classes.old operations.old classes.new operations.new) }
    ensures refuses { OnErr result ((value : ℕ → ℕ) → IsComputed op node nodes.first nodes.second value → IsValued classes.old value → AreResults operations.old value → ⊥) }
{
    let first = root_term(classes, nodes.first)?;
    let second = root_term(classes, nodes.second)?;
    compute(
        classes,
        operations,
        Operation {
            op,
            first,
            second,
            node,
        },
    )
}

/// The classes after an operation on a register and a constant.
fn compute_constant(
    classes: &mut Classes,
    operations: &mut Operations,
    op: RegOp,
    node: u32,
    base: u32,
    constant: u32,
) -> Result<(), Impossible>
    requires node { node < length classes.old }
    requires base { base < length classes.old }
    requires below { AreBelow operations.old (length classes.old) }
    ensures len { length classes.new ≡ length classes.old }
    ensures below { (limit : ℕ) → AreBelow operations.old limit → node < limit → AreBelow operations.new limit }
    ensures keeps { OnOk result (KeepsBoth (IsComputedOf op node base constant) classes.old operations.old classes.new operations.new) }
    ensures refuses { OnErr result ((value : ℕ → ℕ) → IsComputedOf op node base constant value → IsValued classes.old value → AreResults operations.old value → ⊥) }
{
    let first = root_term(classes, base)?;
    compute(
        classes,
        operations,
        Operation {
            op,
            first,
            second: Term {
                node: 0,
                offset: constant,
            },
            node,
        },
    )
}

/// A branch that went the way of equal operands puts them into one class.
fn relate_branch(
    classes: &mut Classes,
    op: BranchOp,
    row: &StepRow,
    nodes: OperandNodes,
) -> Result<(), Impossible>
    requires first { nodes.first < length classes.old }
    requires second { nodes.second < length classes.old }
    ensures len { length classes.new ≡ length classes.old }
    ensures keeps { OnOk result (KeepsIf (λ value. equates op (turn_of row.now) ≡ true → value nodes.first ≡ value nodes.second) classes.old classes.new) }
    ensures refuses { OnErr result (RefusesIf (λ value. equates op (turn_of row.now) ≡ true → value nodes.first ≡ value nodes.second) classes.old) }
{
    if equates(op, turn(row)) {
        classes.join(
            Term {
                node: nodes.first,
                offset: 0,
            },
            Term {
                node: nodes.second,
                offset: 0,
            },
        )?;
    }
    Ok(())
}

/// The classes after a row: branches, and operations on registers and immediates. Of other rows
/// nothing is told.
pub fn relate_row(
    classes: &mut Classes,
    operations: &mut Operations,
    row: &StepRow,
    node: u32,
    nodes: OperandNodes,
) -> Result<(), Impossible>
    requires node { node < length classes.old }
    requires first { nodes.first < length classes.old }
    requires second { nodes.second < length classes.old }
    requires below { AreBelow operations.old (length classes.old) }
    ensures len { length classes.new ≡ length classes.old }
    ensures below { (limit : ℕ) → AreBelow operations.old limit → node < limit → AreBelow operations.new limit }
    ensures keeps { OnOk result (KeepsBoth (IsOfRow row.now node nodes) classes.old operations.old classes.new operations.new) }
    ensures refuses { OnErr result ((value : ℕ → ℕ) → IsOfRow row.now node nodes value → IsValued classes.old value → AreResults operations.old value → ⊥) }
{
    match row.instr {
        Instr::Branch { op, .. } => relate_branch(classes, op, row, nodes),
        Instr::Imm { op, rd, imm, .. } => {
            if rd.number() == 0 {
                return Ok(());
            }
            let op = register_form(op);
            compute_constant(classes, operations, op, node, nodes.first, word(imm))
        }
        Instr::Op { op, rd, .. } => {
            if rd.number() == 0 {
                return Ok(());
            }
            compute_registers(classes, operations, op, node, nodes)
        }
        _ => Ok(()),
    }
}
