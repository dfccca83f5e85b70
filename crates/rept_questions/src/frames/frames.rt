//! The calls that a thread is in.

ghost use Rattle.std.specs.Prelude.{◌≡◌, IfOk, OnOk};
ghost use Rattle.rept_questions.specs.Frames.Frames.{after_row, frames_of};

use crate::frames::jumps::{calls, returns};
use crate::frames::unwind::unwind;
use rept_isa::StepRow;
use rept_isa::number::following;
use std::alloc::{AllocError, Global};

/// A call that a thread is in.
#[derive(Clone, Copy, Debug, PartialEq, Eq)]
pub struct Frame {
    /// The address of the call's instruction.
    pub at: u32,
    /// The address at which the thread goes on after the call.
    pub back: u32,
}

/// The calls after a row, of those before it. Its only refusal is of memory.
pub fn follow(frames: &mut Vec<Frame>, row: &StepRow) -> Result<(), AllocError>
    ensures { OnOk result (frames.new.items ≡ after_row frames.old.items row.now) }
{
    if calls(&row.instr) {
        frames.push(Frame {
            at: row.at,
            back: following(row.from()),
        })?;
        return Ok(());
    }
    if returns(&row.instr) {
        unwind(frames, row.next);
    }
    Ok(())
}

/// The calls that a thread is in after these rows of its path, oldest first. JAL and JALR with rd
/// x1 call; JALR with rd x0 and rs1 x1 returns from the last call that is to go on where it leads,
/// and from all after that; from all calls where none is to go on there. Calls that were entered
/// before the first row aren't told. Its only refusal is of memory.
pub fn frames_of(alloc: Global, rows: &[StepRow]) -> Result<Vec<Frame>, AllocError>
    ensures { IfOk result (λ frames. frames.items ≡ frames_of rows.now) }
{
    let mut frames = Vec::new(alloc);
    for row in rows {
        follow(&mut frames, row)?;
    }
    Ok(frames)
}
