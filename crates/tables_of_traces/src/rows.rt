//! How steps are told.

use rept_isa::{Shown, StepRow};
use std::alloc::{AllocError, Global};
use std::fmt;

/// A step: its address, its instruction, and where it leads.
#[derive(Clone, Copy, Drop)]
pub struct ToldStep(pub StepRow);

impl fmt::Debug for ToldStep {
    fn fmt<W: fmt::Write>(&self, f: &mut fmt::Formatter<W>) -> fmt::Result {
        let StepRow {
            at,
            instr,
            next,
            ..
        } = self.0;
        let shown = Shown { at, instr };
        let mark = mark(self.0);
        write!(f, "{at:x} {shown}{mark} to {next:x}")
    }
}

/// Whether a step is a call, and whether its instruction is a compressed one.
fn mark(row: StepRow) -> &'static str {
    match (row.call, row.short) {
        (false, false) => "",
        (true, false) => " (call)",
        (false, true) => " (short)",
        (true, true) => " (short call)",
    }
}

/// Steps as they are told.
pub fn told(alloc: Global, rows: &[StepRow]) -> Result<Vec<ToldStep>, AllocError> {
    let mut told = Vec::new(alloc);
    for row in rows {
        told.push(ToldStep(*row))?;
    }
    Ok(told)
}

/// Whether both are there, at one address, and lead to one.
fn are_alike(one: Option<&StepRow>, other: Option<&StepRow>) -> bool {
    match (one, other) {
        (Some(one), Some(other)) => one.at == other.at && one.next == other.next,
        _ => false,
    }
}

/// How many steps from a place on are, one after another, at the address of the step so many places
/// before, and lead where it does.
fn again(rows: &[StepRow], from: usize, back: usize) -> usize {
    let mut count = 0;
    for k in from..rows.len() {
        if !are_alike(rows.get(k), rows.get(k.wrapping_sub(back))) {
            return count;
        }
        count = k.wrapping_sub(from).wrapping_add(1);
    }
    count
}

/// The steps up to a place, how many after them are a round of so many steps again, and the steps
/// after those.
pub fn rounds(
    alloc: Global,
    rows: &[StepRow],
    from: usize,
    round: usize,
) -> Result<String, AllocError> {
    let count = again(rows, from, round);
    let first = told(alloc, rows.get(..from).unwrap_or(rows))?;
    let last = told(alloc, rows.get(from.wrapping_add(count)..).unwrap_or(&[]))?;
    format!(in alloc;
        "{:?}, {count} again, {:?}",
        first.as_slice(),
        last.as_slice()
    )
}
