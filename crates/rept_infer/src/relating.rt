//! Sets narrowed by values that differ by constants.

ghost use Rattle.std.specs.Prelude.{◌≡◌, ℕ, ◌+◌, ◌<◌, ◌≤◌, ◌^◌, true, length, IfOk, OnOk, OnErr, Err, Some, slice_get};
ghost use Rattle.rept_machine.specs.State.{State};
ghost use Rattle.rept_known.specs.Both.{both_has};
ghost use Rattle.rept_relate.specs.Classes.Valuations.{IsValued, HaveSameWords};
ghost use Rattle.rept_relate.specs.Numbering.{value_in};
ghost use Rattle.rept_relate.specs.Holding.{AreCallsWithin, IsCallWithin};
ghost use Rattle.rept_narrow.specs.Admitted.{Story};
ghost use Rattle.rept_narrow.specs.Rules.{HasSets, KeepsSets, RefusesSets};

use crate::stop::InferStop;
use rept_alias::CallAccess;
use rept_isa::{Instr, StepRow, register, writes};
use rept_known::Both;
use rept_narrow::touched::call_access;
use rept_narrow::{Empty, InferPath, Table};
use rept_partial::Partial;
use rept_relate::{CalledPath, Classes, RelateStop, Term, relate};
use std::alloc::{AllocError as OutOfMemory, Global};

/// A node for each register at the first point, with its set there.
fn gather_first(alloc: Global, table: &Table) -> Result<Classes, OutOfMemory>
    requires { 0 < table.now.points }
    ensures len { IfOk result (λ c. length c ≡ 32) }
    ensures valued { IfOk result (λ c. (story : Story) (run : ℕ → State) → HasSets story table.now run → IsValued c (value_in story.rows run)) }
{
    let mut classes = Classes::new(alloc);
    for r in 0..32u8 {
        let _node = classes.add(table.at(0, register(r)))?;
    }
    Ok(classes)
}

/// The set of the register that a row writes, after the row.
fn set_after(table: &Table, index: u32, row: &StepRow) -> Both
    requires { index + 1 < table.now.points }
    ensures { (story : Story) (run : ℕ → State) → HasSets story table.now run → slice_get story.rows index ≡ Some row.now → both_has result (value_in story.rows run (32 + index)) ≡ true }
{
    // for the proof alone
    let _points = table.points();
    match writes(&row.instr) {
        None => Both::unknown(),
        Some(rd) => table.at(index + 1, rd),
    }
}

/// A node for each value of a register, with its set.
fn gather(alloc: Global, table: &Table, rows: &[StepRow]) -> Result<Classes, OutOfMemory>
    requires points { table.now.points ≡ length rows.now + 1 }
    requires few { length rows.now + 33 < 2 ^ 32 }
    ensures len { IfOk result (λ c. length c ≡ 32 + length rows.now) }
    ensures valued { IfOk result (λ c. (story : Story) (run : ℕ → State) → story.rows ≡ rows.now → HasSets story table.now run → IsValued c (value_in story.rows run)) }
{
    let mut classes = gather_first(alloc, table)?;
    for i in 0..rows.len() {
        let _node = classes.add(set_after(table, i as u32, &rows[i]))?;
    }
    Ok(classes)
}

/// The sets of the registers at the first point, cut to those of their classes.
fn tell_first(classes: &mut Classes, table: &mut Table) -> Result<bool, Empty>
    requires points { 0 < table.old.points }
    requires nodes { 32 ≤ length classes.old }
    ensures len { length classes.new ≡ length classes.old }
    ensures same { HaveSameWords classes.old classes.new }
    ensures points { table.new.points ≡ table.old.points }
    ensures narrower { (story : Story) → KeepsSets story table.new table.old }
    ensures keeps { OnOk result ((story : Story) (run : ℕ → State) → HasSets story table.old run → IsValued classes.old (value_in story.rows run) → HasSets story table.new run) }
    ensures refuses { OnErr result ((story : Story) (run : ℕ → State) → HasSets story table.old run → IsValued classes.old (value_in story.rows run) → ⊥) }
{
    let mut changed = false;
    for r in 0..32u8 {
        let set = classes.set_of(Term {
            node: u32::from(r),
            offset: 0,
        });
        if table.narrow(0, register(r), set)? {
            changed = true;
        }
    }
    Ok(changed)
}

/// The set of the register that a row writes, cut to that of its class.
fn tell_row(
    classes: &mut Classes,
    table: &mut Table,
    index: u32,
    row: &StepRow,
) -> Result<bool, Empty>
    requires points { index + 1 < table.old.points }
    requires few { table.old.points + 32 < 2 ^ 32 }
    requires nodes { 32 + index < length classes.old }
    ensures len { length classes.new ≡ length classes.old }
    ensures same { HaveSameWords classes.old classes.new }
    ensures points { table.new.points ≡ table.old.points }
    ensures narrower { (story : Story) → KeepsSets story table.new table.old }
    ensures keeps { OnOk result ((story : Story) (run : ℕ → State) → slice_get story.rows index ≡ Some row.now → HasSets story table.old run → IsValued classes.old (value_in story.rows run) → HasSets story table.new run) }
    ensures refuses { OnErr result ((story : Story) (run : ℕ → State) → slice_get story.rows index ≡ Some row.now → HasSets story table.old run → IsValued classes.old (value_in story.rows run) → ⊥) }
{
    match writes(&row.instr) {
        None => Ok(false),
        Some(rd) => {
            let set = classes.set_of(Term {
                node: 32 + index,
                offset: 0,
            });
            table.narrow(index + 1, rd, set)
        }
    }
}

/// The sets of all values of registers, cut to those of their classes. Answers whether one changed.
fn tell(classes: &mut Classes, table: &mut Table, rows: &[StepRow]) -> Result<bool, Empty>
    requires points { table.old.points ≡ length rows.now + 1 }
    requires few { length rows.now + 33 < 2 ^ 32 }
    requires nodes { length classes.old ≡ 32 + length rows.now }
    ensures points { table.new.points ≡ table.old.points }
    ensures narrower { (story : Story) → KeepsSets story table.new table.old }
    ensures keeps { OnOk result ((story : Story) (run : ℕ → State) → story.rows ≡ rows.now → HasSets story table.old run → IsValued classes.old (value_in story.rows run) → HasSets story table.new run) }
    ensures refuses { OnErr result ((story : Story) (run : ℕ → State) → story.rows ≡ rows.now → HasSets story table.old run → IsValued classes.old (value_in story.rows run) → ⊥) }
{
    let mut changed = tell_first(classes, table)?;
    for i in 0..rows.len() {
        if tell_row(classes, table, i as u32, &rows[i])? {
            changed = true;
        }
    }
    Ok(changed)
}

/// The bytes that a row may write if it is a call.
fn row_access(table: &Table, index: u32, row: &StepRow, image_end: u64) -> CallAccess
    requires inside { index + 1 < table.now.points }
    ensures { (story : Story) (run : ℕ → State) → story.image_end ≡ image_end → slice_get story.rows index ≡ Some row.now → HasSets story table.now run → IsCallWithin row.now result story.image_end (run index) (run (index + 1)) }
{
    match row.instr {
        Instr::Ecall => call_access(table, index, image_end),
        _ => CallAccess {
            first: None,
            second: None,
        },
    }
}

/// The bytes that each row may write if it is a call.
fn list_calls(
    alloc: Global,
    table: &Table,
    path: InferPath<'_>,
) -> Result<Vec<CallAccess>, OutOfMemory>
    requires points { table.now.points ≡ length path.rows.now + 1 }
    requires few { length path.rows.now + 33 < 2 ^ 32 }
    ensures len { IfOk result (λ v. length v.items ≡ length path.entry.rows.now) }
    ensures within { IfOk result (λ v. (story : Story) (run : ℕ → State) → story.rows ≡ path.entry.rows.now → story.image_end ≡ path.entry.image_end → HasSets story table.now run → AreCallsWithin story.image_end path.entry.rows.now v.items run) }
{
    let rows = path.rows;
    let mut calls = Vec::with_capacity(alloc, rows.len())?;
    for i in 0..rows.len() {
        calls.push(row_access(table, i as u32, &rows[i], path.image_end))?;
    }
    Ok(calls)
}

/// Relates the values of a path's registers by the sets of a table. Answers their classes.
fn related_classes(alloc: Global, table: &Table, path: InferPath<'_>) -> Result<Classes, InferStop>
    requires points { table.now.points ≡ length path.rows.now + 1 }
    requires few { length path.rows.now + 33 < 2 ^ 32 }
    ensures len { IfOk result (λ c. length c ≡ 32 + length path.entry.rows.now) }
    ensures valued { IfOk result (λ c. (story : Story) (run : ℕ → State) → story.rows ≡ path.entry.rows.now → story.image_end ≡ path.entry.image_end → HasSets story table.now run → IsValued c (value_in story.rows run)) }
    ensures impossible { (empty : Empty) → result ≡ Err (InferStop.Contradiction empty) → (story : Story) → story.rows ≡ path.entry.rows.now → story.image_end ≡ path.entry.image_end → RefusesSets story table.now }
{
    let calls = match list_calls(alloc, table, path) {
        Err(_) => return Err(InferStop::OutOfMemory),
        Ok(calls) => calls,
    };
    let mut classes = match gather(alloc, table, path.rows) {
        Err(_) => return Err(InferStop::OutOfMemory),
        Ok(classes) => classes,
    };
    let called = CalledPath {
        rows: path.rows,
        calls: &calls,
    };
    match relate(alloc, &mut classes, called) {
        Err(RelateStop::OutOfMemory) => Err(InferStop::OutOfMemory),
        Err(RelateStop::Impossible(row)) => Err(contradiction_at(row)),
        Ok(()) => Ok(classes),
    }
}

/// Narrows the sets of a path's registers by the values that differ by constants: by ADDI, by ADD
/// and SUB of a value that is known, by SUB of two that differ by a constant, by branches that went
/// the way of equal operands, by operations that did the same on the same operands, and by loads of
/// what was stored or loaded before. Answers whether a set changed. In each admitted execution in
/// which the sets held before, they hold after; at a contradiction no admitted execution has what
/// was told.
pub fn relate_registers(
    alloc: Global,
    table: &mut Table,
    path: InferPath<'_>,
) -> Result<bool, InferStop>
    requires points { table.old.points ≡ length path.rows.now + 1 }
    requires few { length path.rows.now + 33 < 2 ^ 32 }
    ensures points { table.new.points ≡ table.old.points }
    ensures narrower { (story : Story) → KeepsSets story table.new table.old }
    ensures keeps { OnOk result ((story : Story) → story.rows ≡ path.entry.rows.now → story.image_end ≡ path.entry.image_end → KeepsSets story table.old table.new) }
    ensures impossible { (empty : Empty) → result ≡ Err (InferStop.Contradiction empty) → (story : Story) → story.rows ≡ path.entry.rows.now → story.image_end ≡ path.entry.image_end → RefusesSets story table.old }
{
    match related_classes(alloc, table, path) {
        Err(stop) => Err(stop),
        Ok(classes) => {
            let mut classes = classes;
            match tell(&mut classes, table, path.rows) {
                Err(empty) => Err(InferStop::Contradiction(empty)),
                Ok(changed) => Ok(changed),
            }
        }
    }
}

/// A contradiction before a row; the register is x0, since it is one of several values.
fn contradiction_at(row: u32) -> InferStop {
    InferStop::Contradiction(Empty {
        point: row,
        reg: register(0),
    })
}

/// The classes, of a path that isn't too long for the numbers of its values.
pub fn relate_few(alloc: Global, table: &mut Table, path: InferPath<'_>) -> Result<bool, InferStop>
    requires { table.old.points ≡ length path.rows.now + 1 }
    ensures points { table.new.points ≡ table.old.points }
    ensures keeps { OnOk result ((story : Story) → story.rows ≡ path.entry.rows.now → story.image_end ≡ path.entry.image_end → KeepsSets story table.old table.new) }
    ensures impossible { (empty : Empty) → result ≡ Err (InferStop.Contradiction empty) → (story : Story) → story.rows ≡ path.entry.rows.now → story.image_end ≡ path.entry.image_end → RefusesSets story table.old }
{
    if path.rows.len() >= 0xffff_0000 {
        return Ok(false);
    }
    relate_registers(alloc, table, path)
}
