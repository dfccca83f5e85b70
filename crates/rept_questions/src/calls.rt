//! The calls of functions that a path makes.

ghost use Rattle.std.specs.Prelude.{◌≡◌, ◌<◌, ◌≤◌, ◌++◌, length, nat_le, slice_get, IfOk, OnOk};
ghost use Rattle.std.specs.List.{flat_map};
ghost use Rattle.rept_findings.specs.Shown.{IsThreadPoint};
ghost use Rattle.rept_questions.specs.Calls.{after_step, call_at, call_line, calls_before, calls_lines, is_call_row, last_ones, place_text, return_of, told_calls};

use crate::frames::{Frame, calls, follow, frames_of};
use crate::spots::{push_point, push_where};
use crate::stack::push_function_at;
use crate::writers::push_left;
use rept_findings::pieces::push_numbered;
use rept_findings::{Findings, ThreadPoint};
use rept_isa::StepRow;
use rept_word::{OutOfMemory, Text};
use std::alloc::{AllocError, Global};

/// The last calls of a thread before a point, so many at most, the oldest first. The only refusal
/// is out of memory.
#[tactic(auto, unfolding(crate::specs::Calls::calls_lines))]
pub fn calls_text<F: Findings>(
    alloc: Global,
    findings: &F,
    at: ThreadPoint,
    count: u32,
) -> Result<Text, OutOfMemory>
    requires { IsThreadPoint (F.shown findings.now) at }
    ensures { IfOk result (λ text. text ≡ calls_lines (F.shown findings.now) at count) }
{
    let steps = calls_before(alloc, findings.rows(at.thread), at.point)?;
    told_calls(alloc, findings, at.thread, count as usize, steps.as_slice())
}

/// The steps before a point that call, the oldest first.
fn calls_before(alloc: Global, rows: &[StepRow], point: u32) -> Result<Vec<u32>, AllocError>
    ensures { IfOk result (λ steps. steps.items ≡ calls_before rows.now point) }
{
    let mut steps = Vec::new(alloc);
    for step in 0..point {
        push_where(&mut steps, step, is_call_at(rows, step))?;
    }
    Ok(steps)
}

/// Whether a step is one that calls.
fn is_call_at(rows: &[StepRow], step: u32) -> bool
    ensures { result ≡ is_call_row (slice_get rows.now step) }
{
    match rows.get(step as usize) {
        Some(row) => calls(&row.instr),
        None => false,
    }
}

/// The lines of the last ones of these calls, and how many came before them.
fn told_calls<F: Findings>(
    alloc: Global,
    findings: &F,
    thread: u32,
    count: usize,
    steps: &[u32],
) -> Result<Text, OutOfMemory>
    requires { thread < (F.shown findings.now).threads }
    ensures { IfOk result (λ text. text ≡ told_calls (F.shown findings.now) thread count steps.now) }
{
    let mut text = Text::new(alloc);
    if steps.is_empty() {
        text.push(b"none\n")?;
        return Ok(text);
    }
    push_left(&mut text, steps.len().saturating_sub(count))?;
    push_calls(alloc, &mut text, findings, thread, last_ones(steps, count))?;
    Ok(text)
}

/// The last ones of these steps.
fn last_ones(steps: &[u32], count: usize) -> &[u32]
    ensures { result.now ≡ last_ones count steps.now }
{
    &steps[steps.len().saturating_sub(count)..]
}

/// The lines of calls.
fn push_calls<F: Findings>(
    alloc: Global,
    text: &mut Text,
    findings: &F,
    thread: u32,
    steps: &[u32],
) -> Result<(), OutOfMemory>
    requires { thread < (F.shown findings.now).threads }
    ensures { OnOk result (text.new ≡ text.old ++ flat_map (call_at (F.shown findings.now) thread) steps.now) }
{
    for step in steps {
        push_call_at(alloc, text, findings, thread, *step)?;
    }
    Ok(())
}

/// The line of a call, where the thread has that step.
fn push_call_at<F: Findings>(
    alloc: Global,
    text: &mut Text,
    findings: &F,
    thread: u32,
    step: u32,
) -> Result<(), OutOfMemory>
    requires { thread < (F.shown findings.now).threads }
    ensures { OnOk result (text.new ≡ text.old ++ call_at (F.shown findings.now) thread step) }
{
    let rows = findings.rows(thread);
    match rows.get(step as usize) {
        Some(row) => {
            let back = return_of(alloc, rows, step)?;
            push_call(alloc, text, findings, step, row, back)
        }
        None => Ok(()),
    }
}

fn push_call<F: Findings>(
    alloc: Global,
    text: &mut Text,
    findings: &F,
    step: u32,
    row: &StepRow,
    back: Option<u32>,
) -> Result<(), OutOfMemory>
    requires { step < 65536 }
    ensures { OnOk result (text.new ≡ text.old ++ call_line (F.shown findings.now) step row.now back) }
{
    push_numbered(text, b"call ", step + 1)?;
    text.push(b" ")?;
    push_place(alloc, text, findings, row.next)?;
    text.push(b" from ")?;
    push_place(alloc, text, findings, row.at)?;
    push_point(text, b" return ", back)?;
    text.push(b"\n")?;
    Ok(())
}

/// An address, and the function there.
fn push_place<F: Findings>(
    alloc: Global,
    text: &mut Text,
    findings: &F,
    address: u32,
) -> Result<(), OutOfMemory>
    ensures { OnOk result (text.new ≡ text.old ++ place_text (F.shown findings.now) address) }
{
    text.push_word(address)?;
    push_function_at(alloc, text, findings, address)?;
    Ok(())
}

/// The first point after a call at which the thread is in no more calls than before it.
fn return_of(alloc: Global, rows: &[StepRow], step: u32) -> Result<Option<u32>, AllocError>
    requires few { length rows.now ≤ 65536 }
    requires step { step < length rows.now }
    ensures { IfOk result (λ back. back ≡ return_of rows.now step) }
{
    let mut frames = frames_of(alloc, &rows[..step as usize])?;
    let depth = frames.len();
    for point in step..rows.len() as u32 {
        follow_at(&mut frames, rows, point)?;
        if has_returned(frames.as_slice(), depth) {
            return Ok(Some(point + 1));
        }
    }
    Ok(None)
}

/// The calls after a step, of those before it.
fn follow_at(frames: &mut Vec<Frame>, rows: &[StepRow], step: u32) -> Result<(), AllocError>
    ensures { OnOk result (frames.new.items ≡ after_step frames.old.items (slice_get rows.now step)) }
{
    match rows.get(step as usize) {
        Some(row) => follow(frames, row),
        None => Ok(()),
    }
}

/// Whether a thread is in no more calls than so many.
fn has_returned(frames: &[Frame], depth: usize) -> bool
    ensures { result ≡ nat_le (length frames.now) depth }
{
    frames.len() <= depth
}
