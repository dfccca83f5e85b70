//! What all rows of a path tell of the classes of its values.

ghost use Rattle.std.specs.Prelude.{◌≡◌, ℕ, ◌+◌, ◌<◌, ◌^◌, length, OnOk, OnErr, Err, Some, slice_get};
ghost use Rattle.rept_machine.specs.State.{State};
ghost use Rattle.rept_relate.specs.Classes.Valuations.{IsValued};
ghost use Rattle.rept_relate.specs.Numbering.{value_in, IsWalk, AreNumbered};
ghost use Rattle.rept_relate.specs.Holding.{AreCallsWithin};

use crate::called::{CallWords, relate_words};
use crate::classes::Classes;
use crate::numbering::{OperandNodes, number};
use crate::operations::Operations;
use crate::relating::relate_row;
use crate::words::WordTable;
use rept_alias::CallAccess;
use rept_isa::StepRow;
use std::alloc::Global;

/// Why the classes aren't related.
#[derive(Clone, Copy, Debug)]
pub enum RelateStop {
    /// No words are left that the values can have: it was seen at this row, counted from 0.
    Impossible(u32),
    /// Memory ran out.
    OutOfMemory,
}

/// The rows of a path, and for each the bytes that it may write if it is a call.
#[derive(Clone, Copy)]
pub struct CalledPath<'a> {
    /// the rows
    pub rows: &'a [StepRow],
    /// an access for each row; that of a row which isn't a call says nothing
    pub calls: &'a [CallAccess],
}

/// The nodes of the operands of a row.
fn nodes_at(operands: &[OperandNodes], i: usize) -> OperandNodes
    requires { i < length operands.now }
    ensures { slice_get operands.now i ≡ Some result }
{
    operands[i]
}

/// The bytes that a row may write if it is a call.
fn access_at(calls: &[CallAccess], i: usize) -> CallAccess
    requires { i < length calls.now }
    ensures { slice_get calls.now i ≡ Some result }
{
    calls[i]
}

/// The classes after what all rows tell of them. Refuses at a row.
fn relate_rows(
    alloc: Global,
    classes: &mut Classes,
    path: CalledPath<'_>,
    operands: &[OperandNodes],
) -> Result<(), u32>
    requires few { length path.rows.now + 33 < 2 ^ 32 }
    requires nodes { length classes.old ≡ 32 + length path.rows.now }
    requires operands { length operands.now ≡ length path.rows.now }
    requires calls { length path.calls.now ≡ length path.rows.now }
    requires numbered { AreNumbered path.rows.now operands.now }
    ensures len { length classes.new ≡ length classes.old }
    ensures keeps { OnOk result ((image_end : ℕ) (run : ℕ → State) → IsWalk image_end path.entry.rows.now run → AreCallsWithin image_end path.entry.rows.now path.entry.calls.now run → IsValued classes.old (value_in path.entry.rows.now run) → IsValued classes.new (value_in path.entry.rows.now run)) }
    ensures refuses { OnErr result ((image_end : ℕ) (run : ℕ → State) → IsWalk image_end path.entry.rows.now run → AreCallsWithin image_end path.entry.rows.now path.entry.calls.now run → IsValued classes.old (value_in path.entry.rows.now run) → ⊥) }
{
    let rows = path.rows;
    let mut operations = Operations::new(alloc);
    let mut words = WordTable {
        slots: Vec::new(alloc),
        next: 0,
    };
    for i in 0..rows.len() {
        let row = rows[i];
        let nodes = nodes_at(operands, i);
        match relate_row(classes, &mut operations, &row, 32 + i as u32, nodes) {
            Err(_) => return Err(i as u32),
            Ok(()) => {}
        }
        let step = CallWords {
            row,
            node: 32 + i as u32,
            nodes,
            access: access_at(path.calls, i),
        };
        match relate_words(classes, &mut words, &step) {
            Err(_) => return Err(i as u32),
            Ok(()) => {}
        }
    }
    Ok(())
}

/// Relates the values of a path's registers by what its rows tell of them. The classes have a node
/// for each value: the registers at the first point from 0 to 31, and then one for each row. Rows
/// put values into one class: ADDI; ADD and SUB of a value that is known; SUB of two that differ by
/// a constant; branches that went the way of equal operands; operations that did the same on the
/// same operands; and loads of what was stored or loaded before. Words of an execution of these
/// rows are kept, if each call writes only the bytes that are told of it. Where it refuses for
/// another reason than memory, no execution has words that the classes had.
pub fn relate(alloc: Global, classes: &mut Classes, path: CalledPath<'_>) -> Result<(), RelateStop>
    requires few { length path.rows.now + 33 < 2 ^ 32 }
    requires nodes { length classes.old ≡ 32 + length path.rows.now }
    requires calls { length path.calls.now ≡ length path.rows.now }
    ensures len { length classes.new ≡ length classes.old }
    ensures keeps { OnOk result ((image_end : ℕ) (run : ℕ → State) → IsWalk image_end path.entry.rows.now run → AreCallsWithin image_end path.entry.rows.now path.entry.calls.now run → IsValued classes.old (value_in path.entry.rows.now run) → IsValued classes.new (value_in path.entry.rows.now run)) }
    ensures impossible { (row : ℕ) → result ≡ Err (RelateStop.Impossible row) → (image_end : ℕ) (run : ℕ → State) → IsWalk image_end path.entry.rows.now run → AreCallsWithin image_end path.entry.rows.now path.entry.calls.now run → IsValued classes.old (value_in path.entry.rows.now run) → ⊥ }
{
    let operands = match number(alloc, path.rows) {
        Err(_) => return Err(RelateStop::OutOfMemory),
        Ok(operands) => operands,
    };
    match relate_rows(alloc, classes, path, &operands) {
        Err(row) => Err(RelateStop::Impossible(row)),
        Ok(()) => Ok(()),
    }
}
