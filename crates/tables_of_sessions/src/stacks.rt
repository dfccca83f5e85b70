//! Calls that are open after rows.

use rept_isa::{StepRow, decode};
use rept_questions::frames_of;
use rept_rvc::expand;
use std::alloc::{AllocError, Global};
use test_kit::Numbers;

/// A row by three numbers of a line: its address, its word or half, and the next address.
fn row(n: &Numbers, k: usize) -> Option<StepRow> {
    let word = n.word(k.wrapping_add(1));
    let short = word % 4 != 3;
    let instr = if short {
        expand((word % 0x1_0000) as u16)?
    } else {
        decode(word)?
    };
    let (at, next) = (n.word(k), n.word(k.wrapping_add(2)));
    Some(StepRow {
        at,
        instr,
        next,
        call: false,
        short,
    })
}

/// How many rows there are, and the calls after them, oldest first: where each stands, and where it
/// is to go on.
pub fn stack(alloc: Global, n: &Numbers) -> Result<String, AllocError> {
    let mut rows = Vec::new(alloc);
    for k in 0..6usize {
        if let Some(row) = row(n, 3 * k) {
            rows.push(row)?;
        }
    }
    let frames = frames_of(alloc, rows.as_slice())?;
    format!(in alloc; "{} rows, {:?}", rows.len(), frames.as_slice())
}
