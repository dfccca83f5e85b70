//! The answers to `from`.

ghost use Rattle.std.specs.Prelude.{◌≡◌, ◌<◌, ◌++◌, codes, is_none, length, Some, IfOk, OnOk};
ghost use Rattle.rept_isa.specs.Texts.{register_text};
ghost use Rattle.std.specs.List.{find, flat_map};
ghost use Rattle.rept_findings.specs.Shown.{IsThreadPoint};
ghost use Rattle.rept_questions.specs.Texts.{IsFromByte, IsFromRegister, IsTrailText, byte_end, bytes_end, call_text, ends_text, leaf_text, more_line, register_end, start_line, trail_at, trail_line};
ghost use Rattle.rept_questions.specs.Trail.{byte_source, bytes_from, is_constant, is_none_of, register_source, unless_zero};

use crate::rows::push_executed;
use crate::trail::{address_at, byte_source, first_value, loaded, register_source, trail_of};
use rept_findings::findings::{moment_of, number_of};
use rept_findings::lines::writer_text;
use rept_findings::pieces::{push_name, push_numbered, push_writer};
use rept_findings::{Findings, ThreadPoint};
use rept_isa::{Instr, Reg, StepRow, is_call, reads};
use rept_word::{OutOfMemory, Text};
use std::alloc::Global;

/// The steps that the value of a register came from.
pub fn register_from<F: Findings>(
    alloc: Global,
    findings: &F,
    at: ThreadPoint,
    register: Reg,
) -> Result<Text, OutOfMemory>
    requires { IsThreadPoint (F.shown findings.now) at }
    ensures { IfOk result (IsFromRegister (F.shown findings.now) at register (register_source ((F.shown findings.now).rows at.thread) at.point register)) }
{
    match register_source(findings.rows(at.thread), at.point, register) {
        Some(step) => steps_text(alloc, findings, at.thread, step),
        None => start_text(alloc, register),
    }
}

/// The steps that the byte at an address came from.
pub fn byte_from<F: Findings>(
    alloc: Global,
    findings: &F,
    at: ThreadPoint,
    address: u32,
) -> Result<Text, OutOfMemory>
    requires { IsThreadPoint (F.shown findings.now) at }
    ensures { IfOk result (IsFromByte (F.shown findings.now) at address (byte_source (F.shown findings.now) at address)) }
{
    match byte_source(findings, at, address) {
        Some(step) => steps_text(alloc, findings, at.thread, step),
        None => writer_text(alloc, findings, moment_of(findings, at), address),
    }
}

/// The line of a register that no step wrote.
fn start_text(alloc: Global, register: Reg) -> Result<Text, OutOfMemory>
    ensures { IfOk result (λ text. text ≡ start_line register) }
{
    let mut text = Text::new(alloc);
    if register.number() == 0 {
        text.push(b"constant\n")?;
    } else {
        text.push(b"start of the path\n")?;
    }
    Ok(text)
}

/// The lines of the steps that lead to a step, from the newest on.
fn steps_text<F: Findings>(
    alloc: Global,
    findings: &F,
    thread: u32,
    step: u32,
) -> Result<Text, OutOfMemory>
    requires thread { thread < (F.shown findings.now).threads }
    requires step { step < length ((F.shown findings.now).rows thread) }
    ensures { IfOk result (IsTrailText (F.shown findings.now) thread step) }
{
    let first = ThreadPoint {
        thread,
        point: step,
    };
    let trail = trail_of(alloc, findings, first)?;
    let mut text = Text::new(alloc);
    push_steps(alloc, &mut text, findings, thread, trail.rows.as_slice())?;
    push_more(&mut text, trail.more)?;
    Ok(text)
}

fn push_more(text: &mut Text, more: bool) -> Result<(), OutOfMemory>
    ensures { OnOk result (text.new ≡ text.old ++ more_line more) }
{
    if more { text.push(b"more\n") } else { Ok(()) }
}

/// The lines of the steps of a trail.
fn push_steps<F: Findings>(
    alloc: Global,
    text: &mut Text,
    findings: &F,
    thread: u32,
    steps: &[u32],
) -> Result<(), OutOfMemory>
    requires { thread < (F.shown findings.now).threads }
    ensures { OnOk result (text.new ≡ text.old ++ flat_map (trail_at (F.shown findings.now) thread) steps.now) }
{
    for step in steps {
        let here = ThreadPoint {
            thread,
            point: *step,
        };
        push_trail_step(alloc, text, findings, here)?;
    }
    Ok(())
}

/// The line of a step of a trail, where the thread has it.
fn push_trail_step<F: Findings>(
    alloc: Global,
    text: &mut Text,
    findings: &F,
    at: ThreadPoint,
) -> Result<(), OutOfMemory>
    requires { at.thread < (F.shown findings.now).threads }
    ensures { OnOk result (text.new ≡ text.old ++ trail_at (F.shown findings.now) at.thread at.point) }
{
    match findings.rows(at.thread).get(at.point as usize) {
        Some(row) => push_trail_row(alloc, text, findings, at, row),
        None => Ok(()),
    }
}

fn push_trail_row<F: Findings>(
    alloc: Global,
    text: &mut Text,
    findings: &F,
    at: ThreadPoint,
    row: &StepRow,
) -> Result<(), OutOfMemory>
    requires point { IsThreadPoint (F.shown findings.now) at }
    requires row { at.point < length ((F.shown findings.now).rows at.thread) }
    ensures { OnOk result (text.new ≡ text.old ++ trail_line (F.shown findings.now) at (Some row.now)) }
{
    push_executed(alloc, text, findings, at, row)?;
    push_ends(text, findings, at, &row.instr)?;
    text.push(b"\n")?;
    Ok(())
}

/// What a step reads that no step is known to have written.
fn push_ends<F: Findings>(
    text: &mut Text,
    findings: &F,
    at: ThreadPoint,
    instr: &Instr,
) -> Result<(), OutOfMemory>
    requires { IsThreadPoint (F.shown findings.now) at }
    ensures { OnOk result (text.new ≡ text.old ++ ends_text (F.shown findings.now) at instr.now) }
{
    push_register_end(text, findings, at, first_value(instr))?;
    push_register_end(text, findings, at, reads(instr).1)?;
    push_bytes_end(text, findings, at, instr)?;
    push_leaf(text, findings, number_of(findings, at), instr)?;
    Ok(())
}

/// A register that is read and that no step before a point wrote.
fn push_register_end<F: Findings>(
    text: &mut Text,
    findings: &F,
    at: ThreadPoint,
    register: Option<Reg>,
) -> Result<(), OutOfMemory>
    requires { IsThreadPoint (F.shown findings.now) at }
    ensures { OnOk result (text.new ≡ text.old ++ flat_map (register_end (F.shown findings.now) at) (unless_zero register)) }
{
    let Some(register) = register else {
        return Ok(());
    };
    if register.number() == 0 {
        return Ok(());
    }
    match register_source(findings.rows(at.thread), at.point, register) {
        Some(_) => Ok(()),
        None => push_start(text, register),
    }
}

fn push_start(text: &mut Text, register: Reg) -> Result<(), OutOfMemory>
    ensures { OnOk result (text.new ≡ text.old ++ (codes " " ++ register_text register ++ codes " start of the path")) }
{
    text.push(b" ")?;
    push_name(text, register)?;
    text.push(b" start of the path")?;
    Ok(())
}

/// The first byte that is read and that no step is known to have written.
fn push_bytes_end<F: Findings>(
    text: &mut Text,
    findings: &F,
    at: ThreadPoint,
    instr: &Instr,
) -> Result<(), OutOfMemory>
    requires { IsThreadPoint (F.shown findings.now) at }
    ensures { OnOk result (text.new ≡ text.old ++ bytes_end (F.shown findings.now) at instr.now) }
{
    let Some(address) = address_at(findings, number_of(findings, at), instr) else {
        return Ok(());
    };
    let lacking = first_lacking(findings, at, address, loaded(instr));
    push_byte_end(text, findings, at, lacking)?;
    Ok(())
}

/// What is known of the last writer of a byte, if there is one.
fn push_byte_end<F: Findings>(
    text: &mut Text,
    findings: &F,
    at: ThreadPoint,
    byte: Option<u32>,
) -> Result<(), OutOfMemory>
    requires { IsThreadPoint (F.shown findings.now) at }
    ensures { OnOk result (text.new ≡ text.old ++ byte_end (F.shown findings.now) at byte) }
{
    let Some(address) = byte else {
        return Ok(());
    };
    let writer = findings.writer(moment_of(findings, at), address);
    text.push(b" ")?;
    text.push_word(address)?;
    text.push(b" ")?;
    push_writer(text, findings, writer)?;
    Ok(())
}

/// The first of so many bytes from an address on that no step is known to have written.
fn first_lacking<F: Findings>(
    findings: &F,
    at: ThreadPoint,
    address: u32,
    count: u32,
) -> Option<u32>
    requires { IsThreadPoint (F.shown findings.now) at }
    ensures { result ≡ find (λ a. is_none (byte_source (F.shown findings.now) at a)) (bytes_from count (Some address)) }
{
    for i in 0..count {
        let byte = address.wrapping_add(i);
        if is_lacking(byte_source(findings, at, byte)) {
            return Some(byte);
        }
    }
    None
}

fn is_lacking(step: Option<u32>) -> bool
    ensures { result ≡ is_none step }
{
    step.is_none()
}

/// The number of a call, or that nothing but a constant is read.
fn push_leaf<F: Findings>(
    text: &mut Text,
    findings: &F,
    point: u32,
    instr: &Instr,
) -> Result<(), OutOfMemory>
    requires { point < (F.shown findings.now).points }
    ensures { OnOk result (text.new ≡ text.old ++ leaf_text (F.shown findings.now) point instr.now) }
{
    if is_call(instr) {
        push_call(text, findings.reg(point, Reg::new(17).unwrap()))
    } else if is_constant(instr) {
        text.push(b" constant")
    } else {
        Ok(())
    }
}

fn push_call(text: &mut Text, call: Option<u32>) -> Result<(), OutOfMemory>
    ensures { OnOk result (text.new ≡ text.old ++ call_text call) }
{
    match call {
        Some(call) => push_numbered(text, b" call ", call),
        None => text.push(b" call unknown"),
    }
}

/// Whether an instruction reads no register but x0, and no byte.
fn is_constant(instr: &Instr) -> bool
    ensures { result ≡ is_constant instr.now }
{
    is_zero(first_value(instr)) && is_zero(reads(instr).1) && loaded(instr) == 0
}

/// Whether a register is x0 or none.
fn is_zero(register: Option<Reg>) -> bool
    ensures { result ≡ is_none_of (unless_zero register) }
{
    match register {
        Some(register) => register.number() == 0,
        None => true,
    }
}
