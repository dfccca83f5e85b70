//! The steps that wrote some bytes, or may have, by instruction.

ghost use Rattle.std.specs.Prelude.{◌≡◌, ℕ, ◌<◌, ◌≤◌, ◌++◌, false, length, slice_get, true, IfOk, OnOk};
ghost use Rattle.std.specs.Fmt.{decimal};
ghost use Rattle.std.specs.List.{filter, flat_map};
ghost use Rattle.rept_findings.specs.Shown.{IsThreadPoint};
ghost use Rattle.rept_findings.specs.Texts.{at as at_of};
ghost use Rattle.rept_questions.specs.Texts.{group_at, group_counts, group_entry, group_line, group_of, is_of, is_sure_step, is_value, left_line, newest_of, unwritten_line, writers_lines};
ghost use Rattle.rept_questions.specs.Trail.{own_step};
ghost use Rattle.rept_questions.specs.Writers.{after_step, has_place, is_some_writer, is_step, is_store, is_sure_of_some, is_sure_writer, is_writer, may_touch, names, names_surely, quiet_after, stored, stored_by, touches, writers_before};

use crate::rows::push_named_row;
use crate::spots::{push_point, push_where};
use crate::trail::{address_at, own_step};
use rept_findings::findings::{moment_of, number_of};
use rept_findings::lines::writer_text;
use rept_findings::{Findings, ThreadPoint};
use rept_isa::{Instr, StepRow, StoreOp, is_call};
use rept_report::Writer;
use rept_word::{OutOfMemory, Text};
use std::alloc::Global;

/// The most steps of which the instructions are told.
const MOST_STEPS: usize = 8192;

/// Bytes side by side, whose addresses are told modulo 2^32.
#[derive(Clone, Copy, Debug)]
pub struct SoughtBytes {
    /// the address of the first byte
    pub address: u32,
    /// how many bytes, at most 256
    pub count: u32,
}

/// The steps before a point that wrote one of these bytes, or may have, by instruction: a line of
/// each instruction, with its newest step. Where there is no step, of one byte what is known of its
/// last writer.
pub fn writers_text<F: Findings>(
    alloc: Global,
    findings: &F,
    at: ThreadPoint,
    bytes: SoughtBytes,
) -> Result<Text, OutOfMemory>
    requires { IsThreadPoint (F.shown findings.now) at }
    ensures { IfOk result (λ text. text ≡ writers_lines (F.shown findings.now) at bytes (writers_before (F.shown findings.now) bytes at)) }
{
    let steps = steps_before(alloc, findings, at, bytes)?;
    if steps.is_empty() {
        return unwritten_text(alloc, findings, at, bytes);
    }
    let told = newest(steps.as_slice());
    let mut text = Text::new(alloc);
    let sought = ThreadBytes {
        thread: at.thread,
        bytes,
    };
    push_groups(alloc, &mut text, findings, sought, told)?;
    push_left(&mut text, steps.len().saturating_sub(told.len()))?;
    Ok(text)
}

/// Bytes, and the thread whose steps may have written them.
#[derive(Clone, Copy)]
struct ThreadBytes {
    thread: u32,
    bytes: SoughtBytes,
}

/// What is told of bytes that no step wrote.
fn unwritten_text<F: Findings>(
    alloc: Global,
    findings: &F,
    at: ThreadPoint,
    bytes: SoughtBytes,
) -> Result<Text, OutOfMemory>
    requires { IsThreadPoint (F.shown findings.now) at }
    ensures { IfOk result (λ text. text ≡ unwritten_line (F.shown findings.now) at bytes) }
{
    if bytes.count == 1 {
        return writer_text(alloc, findings, moment_of(findings, at), bytes.address);
    }
    let mut text = Text::new(alloc);
    text.push(b"no step of the thread\n")?;
    Ok(text)
}

/// The first of these steps, 8,192 at most.
fn newest(steps: &[u32]) -> &[u32]
    ensures { result.now ≡ newest_of steps.now }
{
    if steps.len() > MOST_STEPS {
        &steps[..MOST_STEPS]
    } else {
        steps
    }
}

/// The steps of a thread before a point that wrote one of these bytes, or may have, from the newest
/// on.
fn steps_before<F: Findings>(
    alloc: Global,
    findings: &F,
    at: ThreadPoint,
    bytes: SoughtBytes,
) -> Result<Vec<u32>, OutOfMemory>
    requires { IsThreadPoint (F.shown findings.now) at }
    ensures { IfOk result (λ steps. steps.items ≡ writers_before (F.shown findings.now) bytes at) }
{
    let mut steps = Vec::new(alloc);
    let mut below = at.point;
    'back: while below > 0 {
        let here = ThreadPoint {
            thread: at.thread,
            point: below,
        };
        below = look_back(&mut steps, findings, here, bytes)?;
    }
    Ok(steps)
}

/// Appends the step before a point, where it wrote one of these bytes, or may have, and answers
/// where to look on.
fn look_back<F: Findings>(
    steps: &mut Vec<u32>,
    findings: &F,
    at: ThreadPoint,
    bytes: SoughtBytes,
) -> Result<u32, OutOfMemory>
    requires point { IsThreadPoint (F.shown findings.now) at }
    requires some { 0 < at.point }
    ensures same { IfOk result (λ below. steps.old.items ++ writers_before (F.shown findings.now) bytes at ≡ steps.new.items ++ writers_before (F.shown findings.now) bytes (at_of at.thread below)) }
    ensures within { IfOk result (λ below. below < at.point) }
{
    let before = ThreadPoint {
        thread: at.thread,
        point: at.point - 1,
    };
    if !is_store(findings.rows(at.thread), before.point) {
        return Ok(before.point);
    }
    let writes = is_some_writer(findings, before, bytes);
    push_where(steps, before.point, writes)?;
    Ok(next_below(findings, before, bytes, writes))
}

/// Where to look on below a step: right below it where it may have written, else below the steps
/// that can't have.
fn next_below<F: Findings>(findings: &F, at: ThreadPoint, bytes: SoughtBytes, writes: bool) -> u32
    requires { IsThreadPoint (F.shown findings.now) at }
    ensures quiet { (k : ℕ) → result ≤ k → k < at.point → is_some_writer (F.shown findings.now) bytes (at_of at.thread k) ≡ false }
    ensures within { result ≤ at.point }
{
    if writes {
        at.point
    } else {
        quiet_from(findings, at, bytes)
    }
}

/// A point from which on up to this one no step can have written one of these bytes.
fn quiet_from<F: Findings>(findings: &F, at: ThreadPoint, bytes: SoughtBytes) -> u32
    requires { IsThreadPoint (F.shown findings.now) at }
    ensures quiet { (k : ℕ) → result ≤ k → k < at.point → is_some_writer (F.shown findings.now) bytes (at_of at.thread k) ≡ false }
    ensures within { result ≤ at.point }
{
    let mut least = 0;
    for i in 0..bytes.count {
        if least == at.point {
            return least;
        }
        least = greater_of(
            least,
            quiet_byte(findings, at, bytes.address.wrapping_add(i)),
        );
    }
    least
}

fn greater_of(a: u32, b: u32) -> u32
    ensures first { a ≤ result }
    ensures second { b ≤ result }
    ensures least { (m : ℕ) → a ≤ m → b ≤ m → result ≤ m }
{
    if a < b { b } else { a }
}

/// A point from which on up to this one no step can have written a byte.
fn quiet_byte<F: Findings>(findings: &F, at: ThreadPoint, address: u32) -> u32
    requires { IsThreadPoint (F.shown findings.now) at }
    ensures quiet { (k : ℕ) → result ≤ k → k < at.point → is_writer (F.shown findings.now) address (at_of at.thread k) ≡ false }
    ensures within { result ≤ at.point }
{
    let writer = findings.writer(moment_of(findings, at), address);
    quiet_after(findings, at, writer)
}

/// The point after the step of the thread that is told as a byte's writer: no step after it and up
/// to this point is one. It is this point where no step of the thread is told, and 0 where no step
/// wrote the byte.
fn quiet_after<F: Findings>(findings: &F, at: ThreadPoint, writer: Writer) -> u32
    ensures value { result ≡ quiet_after (F.shown findings.now) at writer }
    ensures within { result ≤ at.point }
{
    match writer {
        Writer::Writes(row) | Writer::MayWrite(row) => after_step(at, findings.point(row)),
        Writer::Several => at.point,
        Writer::None => 0,
    }
}

fn after_step(at: ThreadPoint, step: ThreadPoint) -> u32
    ensures value { result ≡ after_step at (own_step at step) }
    ensures within { result ≤ at.point }
{
    match own_step(at, step) {
        Some(own) => own + 1,
        None => at.point,
    }
}

/// Whether a step stores or calls.
fn is_store(rows: &[StepRow], step: u32) -> bool
    ensures value { result ≡ is_store (slice_get rows.now step) }
    ensures within { result ≡ true → step < length rows.now }
{
    match rows.get(step as usize) {
        Some(row) => is_call(&row.instr) || stored(&row.instr) != 0,
        None => false,
    }
}

/// Whether a step wrote one of these bytes, or may have, as far as that is known after it.
fn is_some_writer<F: Findings>(findings: &F, at: ThreadPoint, bytes: SoughtBytes) -> bool
    requires point { IsThreadPoint (F.shown findings.now) at }
    requires step { at.point < length ((F.shown findings.now).rows at.thread) }
    ensures { result ≡ is_some_writer (F.shown findings.now) bytes at }
{
    for i in 0..bytes.count {
        if is_writer(findings, at, bytes.address.wrapping_add(i)) {
            return true;
        }
    }
    false
}

/// Whether the step at a point calls, or stores to a byte as far as its address is known.
fn touches<F: Findings>(findings: &F, at: ThreadPoint, address: u32) -> bool
    requires { IsThreadPoint (F.shown findings.now) at }
    ensures { result ≡ touches (F.shown findings.now) address at }
{
    match findings.rows(at.thread).get(at.point as usize) {
        Some(row) => may_touch(findings, number_of(findings, at), address, &row.instr),
        None => false,
    }
}

fn may_touch<F: Findings>(findings: &F, point: u32, address: u32, instr: &Instr) -> bool
    requires { point < (F.shown findings.now).points }
    ensures { result ≡ may_touch (F.shown findings.now) point address instr.now }
{
    if is_call(instr) {
        return true;
    }
    let count = stored(instr);
    if count == 0 {
        return false;
    }
    match address_at(findings, point, instr) {
        Some(first) => address.wrapping_sub(first) < count,
        None => true,
    }
}

/// Whether a step of the thread wrote a byte, or may have, as far as that is known after it.
pub fn is_writer<F: Findings>(findings: &F, at: ThreadPoint, address: u32) -> bool
    requires point { IsThreadPoint (F.shown findings.now) at }
    requires step { at.point < length ((F.shown findings.now).rows at.thread) }
    ensures { result ≡ is_writer (F.shown findings.now) address at }
{
    // for the proof alone
    let _rows = findings.rows(at.thread);
    let after = ThreadPoint {
        thread: at.thread,
        point: at.point + 1,
    };
    touches(findings, at, address)
        && names(
            findings,
            at,
            findings.writer(moment_of(findings, after), address),
        )
}

/// Whether a writer that is told is this step, for certain or not.
fn names<F: Findings>(findings: &F, at: ThreadPoint, writer: Writer) -> bool
    ensures { result ≡ names (F.shown findings.now) at writer }
{
    match writer {
        Writer::Writes(row) | Writer::MayWrite(row) => is_step(at, findings.point(row)),
        Writer::Several | Writer::None => false,
    }
}

/// How many bytes an instruction stores.
fn stored(instr: &Instr) -> u32
    ensures { result ≡ stored instr.now }
{
    match *instr {
        Instr::Store { op, .. } => store_width(op),
        Instr::Amo { .. } => 4,
        _ => 0,
    }
}

fn store_width(op: StoreOp) -> u32
    ensures { result ≡ stored_by op }
{
    match op {
        StoreOp::Sb => 1,
        StoreOp::Sh => 2,
        StoreOp::Sw => 4,
    }
}

/// The line of each instruction, at its newest step.
fn push_groups<F: Findings>(
    alloc: Global,
    text: &mut Text,
    findings: &F,
    sought: ThreadBytes,
    steps: &[u32],
) -> Result<(), OutOfMemory>
    requires { sought.thread < (F.shown findings.now).threads }
    ensures { OnOk result (text.new ≡ text.old ++ flat_map (group_entry (F.shown findings.now) sought.bytes sought.thread steps.now) steps.now) }
{
    for step in steps {
        push_entry(alloc, text, findings, sought, steps, *step)?;
    }
    Ok(())
}

/// The line of a step's instruction, where it is the newest one of these steps.
fn push_entry<F: Findings>(
    alloc: Global,
    text: &mut Text,
    findings: &F,
    sought: ThreadBytes,
    steps: &[u32],
    step: u32,
) -> Result<(), OutOfMemory>
    requires { sought.thread < (F.shown findings.now).threads }
    ensures { OnOk result (text.new ≡ text.old ++ group_entry (F.shown findings.now) sought.bytes sought.thread steps.now step) }
{
    match findings.rows(sought.thread).get(step as usize) {
        Some(row) => push_group(alloc, text, findings, sought, steps, step, row),
        None => Ok(()),
    }
}

fn push_group<F: Findings>(
    alloc: Global,
    text: &mut Text,
    findings: &F,
    sought: ThreadBytes,
    steps: &[u32],
    step: u32,
    row: &StepRow,
) -> Result<(), OutOfMemory>
    requires { sought.thread < (F.shown findings.now).threads }
    ensures { OnOk result (text.new ≡ text.old ++ group_at (F.shown findings.now) sought.bytes sought.thread step row.now (group_of (F.shown findings.now) sought.thread row.now.at steps.now)) }
{
    let rows = findings.rows(sought.thread);
    if is_newest(rows, row.at, steps, step) {
        let group = group_of(alloc, rows, row.at, steps)?;
        push_line(alloc, text, findings, sought, group.as_slice(), step, row)?;
        return Ok(());
    }
    Ok(())
}

/// The line of an instruction of these steps, with its newest one.
fn push_line<F: Findings>(
    alloc: Global,
    text: &mut Text,
    findings: &F,
    sought: ThreadBytes,
    group: &[u32],
    step: u32,
    row: &StepRow,
) -> Result<(), OutOfMemory>
    requires { sought.thread < (F.shown findings.now).threads }
    ensures { OnOk result (text.new ≡ text.old ++ group_line (F.shown findings.now) sought.bytes sought.thread step row.now group.now) }
{
    let sure = sure_of(alloc, findings, sought, group)?;
    push_named_row(alloc, text, findings, step, row)?;
    push_counts(text, group, sure.as_slice())?;
    Ok(())
}

/// The steps of an instruction, among these.
fn group_of(
    alloc: Global,
    rows: &[StepRow],
    pc: u32,
    steps: &[u32],
) -> Result<Vec<u32>, OutOfMemory>
    ensures { IfOk result (λ group. group.items ≡ filter (λ k. is_of pc (slice_get rows.now k)) steps.now) }
{
    let mut group = Vec::new(alloc);
    for step in steps {
        push_where(&mut group, *step, is_of(pc, rows, *step))?;
    }
    Ok(group)
}

/// Whether a step is one of the instruction at an address.
fn is_of(pc: u32, rows: &[StepRow], step: u32) -> bool
    ensures { result ≡ is_of pc (slice_get rows.now step) }
{
    match rows.get(step as usize) {
        Some(row) => row.at == pc,
        None => false,
    }
}

/// Whether a step is the first one of the instruction at an address, among these.
fn is_newest(rows: &[StepRow], pc: u32, steps: &[u32], step: u32) -> bool
    ensures { result ≡ is_value step (slice_get (filter (λ k. is_of pc (slice_get rows.now k)) steps.now) 0) }
{
    for other in steps {
        if is_of(pc, rows, *other) {
            return *other == step;
        }
    }
    false
}

/// Those of the steps that are known to have written one of the bytes.
fn sure_of<F: Findings>(
    alloc: Global,
    findings: &F,
    sought: ThreadBytes,
    steps: &[u32],
) -> Result<Vec<u32>, OutOfMemory>
    requires { sought.thread < (F.shown findings.now).threads }
    ensures { IfOk result (λ sure. sure.items ≡ filter (is_sure_step (F.shown findings.now) sought.bytes sought.thread) steps.now) }
{
    let mut sure = Vec::new(alloc);
    for step in steps {
        push_where(&mut sure, *step, is_sure_step(findings, sought, *step))?;
    }
    Ok(sure)
}

/// Whether a step of the thread is known to have written one of the bytes.
fn is_sure_step<F: Findings>(findings: &F, sought: ThreadBytes, step: u32) -> bool
    requires { sought.thread < (F.shown findings.now).threads }
    ensures { result ≡ is_sure_step (F.shown findings.now) sought.bytes sought.thread step }
{
    let rows = findings.rows(sought.thread);
    let Some(row) = rows.get(step as usize) else {
        return false;
    };
    let here = ThreadPoint {
        thread: sought.thread,
        point: step,
    };
    has_place(findings, here, &row.instr) && is_sure_of_some(findings, here, sought.bytes)
}

/// Whether it is known where a step writes: a call tells it, and a store whose address is known.
fn has_place<F: Findings>(findings: &F, at: ThreadPoint, instr: &Instr) -> bool
    requires { IsThreadPoint (F.shown findings.now) at }
    ensures { result ≡ has_place (F.shown findings.now) at instr.now }
{
    is_call(instr) || address_at(findings, number_of(findings, at), instr).is_some()
}

/// Whether a step is known to have written one of these bytes.
fn is_sure_of_some<F: Findings>(findings: &F, at: ThreadPoint, bytes: SoughtBytes) -> bool
    requires point { IsThreadPoint (F.shown findings.now) at }
    requires step { at.point < length ((F.shown findings.now).rows at.thread) }
    ensures { result ≡ is_sure_of_some (F.shown findings.now) bytes at }
{
    for i in 0..bytes.count {
        if is_sure_writer(findings, at, bytes.address.wrapping_add(i)) {
            return true;
        }
    }
    false
}

/// Whether a step is known to have written a byte.
fn is_sure_writer<F: Findings>(findings: &F, at: ThreadPoint, address: u32) -> bool
    requires point { IsThreadPoint (F.shown findings.now) at }
    requires step { at.point < length ((F.shown findings.now).rows at.thread) }
    ensures { result ≡ is_sure_writer (F.shown findings.now) address at }
{
    // for the proof alone
    let _rows = findings.rows(at.thread);
    let after = ThreadPoint {
        thread: at.thread,
        point: at.point + 1,
    };
    touches(findings, at, address)
        && names_surely(
            findings,
            at,
            findings.writer(moment_of(findings, after), address),
        )
}

/// Whether a writer that is told is this step for certain.
fn names_surely<F: Findings>(findings: &F, at: ThreadPoint, writer: Writer) -> bool
    ensures { result ≡ names_surely (F.shown findings.now) at writer }
{
    match writer {
        Writer::Writes(row) => is_step(at, findings.point(row)),
        Writer::MayWrite(_) | Writer::Several | Writer::None => false,
    }
}

fn is_step(at: ThreadPoint, step: ThreadPoint) -> bool
    ensures { result ≡ is_step at step }
{
    step.thread == at.thread && step.point == at.point
}

/// How many steps an instruction has, how many of them are sure, and the oldest one.
fn push_counts(text: &mut Text, group: &[u32], sure: &[u32]) -> Result<(), OutOfMemory>
    ensures { OnOk result (text.new ≡ text.old ++ group_counts group.now sure.now) }
{
    push_counted(text, b" steps ", group.len())?;
    push_counted(text, b" sure ", sure.len())?;
    push_point(text, b" oldest ", group.last().copied())?;
    text.push(b"\n")?;
    Ok(())
}

/// Words as they stand, and a count.
fn push_counted(text: &mut Text, words: &[u8], count: usize) -> Result<(), OutOfMemory>
    ensures { OnOk result (text.new ≡ text.old ++ (words.now ++ decimal count)) }
{
    text.push(words)?;
    text.push_count(count as u64)?;
    Ok(())
}

/// How many steps were left out, if any.
pub fn push_left(text: &mut Text, count: usize) -> Result<(), OutOfMemory>
    ensures { OnOk result (text.new ≡ text.old ++ left_line count) }
{
    if count == 0 {
        return Ok(());
    }
    push_counted(text, b"left out ", count)?;
    text.push(b"\n")?;
    Ok(())
}
