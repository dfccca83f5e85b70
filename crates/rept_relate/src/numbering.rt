//! The values of a path's registers, numbered.

ghost use Rattle.std.specs.Prelude.{◌≡◌, ℕ, ◌+◌, ◌<◌, ◌≤◌, ◌^◌, List, length, IfOk, Some, slice_get, if◌then◌else◌};
ghost use Rattle.rept_isa.specs.declared.row.StepRow.{StepRow};
ghost use Rattle.rept_isa.specs.Operands.{written_by};
ghost use Rattle.rept_relate.specs.Numbering.{node_at, is_number, IsNumbered, AreNumbered};

use rept_isa::{Reg, StepRow, reads, writes};
use std::alloc::{AllocError as OutOfMemory, Global};

/// The nodes of the values in the places of rs1 and rs2; node 0 where the form has no such place.
#[derive(Clone, Copy, Debug)]
pub struct OperandNodes {
    /// in the place of rs1
    pub first: u32,
    /// in the place of rs2
    pub second: u32,
}

/// The nodes of the registers at the first point.
fn first_nodes(alloc: Global) -> Result<Vec<u32>, OutOfMemory>
    ensures length { IfOk result (λ v. length v.items ≡ 32) }
    ensures nodes { IfOk result (λ v. (r : ℕ) → r < 32 → slice_get v.items r ≡ Some r) }
{
    let mut nodes = Vec::with_capacity(alloc, 32)?;
    for r in 0..32u32 {
        nodes.push(r)?;
    }
    Ok(nodes)
}

/// The node of the register in an operand's place.
fn node_of(nodes: &[u32], r: Option<Reg>) -> u32
    requires { length nodes.now ≡ 32 }
    ensures node { (s : ℕ) → r ≡ Some s → slice_get nodes.now s ≡ Some result }
    ensures named { (s : ℕ) → r ≡ Some s → s < 32 }
    ensures below { (limit : ℕ) → 32 ≤ limit → ((s x : ℕ) → slice_get nodes.now s ≡ Some x → x < limit) → result < limit }
{
    match r {
        None => 0,
        Some(register) => nodes[usize::from(register.number())],
    }
}

/// The nodes of the operands of a row.
fn operands_of(nodes: &[u32], row: &StepRow) -> OperandNodes
    requires { length nodes.now ≡ 32 }
    ensures numbered { (rows : List StepRow) (i : ℕ) → ((r : ℕ) → r < 32 → slice_get nodes.now r ≡ Some (node_at rows i r)) → ((s x : ℕ) → slice_get nodes.now s ≡ Some x → x < 32 + i) → IsNumbered rows i row.now result }
{
    let (first, second) = reads(&row.instr);
    OperandNodes {
        first: node_of(nodes, first),
        second: node_of(nodes, second),
    }
}

/// Notes the row that writes a register as its node.
fn write(nodes: &mut Vec<u32>, row: &StepRow, node: u32)
    requires { length nodes.old.items ≡ 32 }
    ensures len { length nodes.new.items ≡ 32 }
    ensures nodes { (r x : ℕ) → slice_get nodes.old.items r ≡ Some x → slice_get nodes.new.items r ≡ Some (if is_number (written_by row.now.instr) r then node else x) }
    ensures below { (limit : ℕ) → node < limit → ((s x : ℕ) → slice_get nodes.old.items s ≡ Some x → x < limit) → (s x : ℕ) → slice_get nodes.new.items s ≡ Some x → x < limit }
{
    match writes(&row.instr) {
        None => {}
        Some(rd) => {
            nodes[usize::from(rd.number())] = node;
        }
    }
}

/// The nodes of the operands of each row.
pub fn number(alloc: Global, rows: &[StepRow]) -> Result<Vec<OperandNodes>, OutOfMemory>
    requires few { length rows.now + 33 < 2 ^ 32 }
    ensures length { IfOk result (λ v. length v.items ≡ length rows.now) }
    ensures numbered { IfOk result (λ v. AreNumbered rows.now v.items) }
{
    let mut nodes = first_nodes(alloc)?;
    let mut operands = Vec::with_capacity(alloc, rows.len())?;
    for i in 0..rows.len() {
        let row = rows[i];
        operands.push(operands_of(&nodes, &row))?;
        write(&mut nodes, &row, 32 + i as u32);
    }
    Ok(operands)
}
