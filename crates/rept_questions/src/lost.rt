//! What keeps a value from being known.

ghost use Rattle.std.specs.Prelude.{◌≡◌, ◌<◌, ◌≤◌, ◌++◌, ◌∷◌, [], codes, is_none, length, Some, IfOk, OnOk};
ghost use Rattle.std.specs.List.{find};
ghost use Rattle.rept_isa.specs.Texts.{register_text};
ghost use Rattle.rept_word.specs.Hex.{hex_word};
ghost use Rattle.rept_findings.specs.Shown.{IsThreadPoint, moment_at, number};
ghost use Rattle.rept_findings.specs.Texts.{value_line};
ghost use Rattle.rept_questions.specs.Lost.{byte_back, byte_onward, lacked, lacked_byte, lacks_text, lost_byte, lost_line, lost_lines, lost_register, lost_step, next_writer, unknown_byte, unknown_operand, unless_known};
ghost use Rattle.rept_questions.specs.Trail.{bytes_from};

use crate::rows::push_executed;
use crate::trail::{address_at, is_written, loaded, register_source};
use crate::writers::is_writer;
use rept_findings::findings::{moment_of, number_of};
use rept_findings::lines::memory_text;
use rept_findings::pieces::{push_name, push_value};
use rept_findings::{Findings, ThreadPoint};
use rept_isa::{Instr, Reg, StepRow, reads};
use rept_word::{OutOfMemory, Text};
use std::alloc::Global;

/// What keeps a register from being known at a point; where it is known its line. The only refusal
/// is out of memory.
pub fn register_lost<F: Findings>(
    alloc: Global,
    findings: &F,
    at: ThreadPoint,
    register: Reg,
) -> Result<Text, OutOfMemory>
    requires { IsThreadPoint (F.shown findings.now) at }
    ensures { IfOk result (λ text. text ≡ lost_register (F.shown findings.now) at register ((F.shown findings.now).register (number (F.shown findings.now) at) register)) }
{
    match findings.reg(number_of(findings, at), register) {
        Some(value) => known_text(alloc, register, value),
        None => {
            let rows = findings.rows(at.thread);
            let back = register_source(rows, at.point, register);
            let onward = next_writer(rows, at.point, register);
            lost_text(alloc, findings, at.thread, back, onward)
        }
    }
}

/// The line of a register that is known.
fn known_text(alloc: Global, register: Reg, value: u32) -> Result<Text, OutOfMemory>
    ensures { IfOk result (λ text. text ≡ value_line register (Some value)) }
{
    let mut text = Text::new(alloc);
    push_value(&mut text, register, Some(value))?;
    Ok(text)
}

/// What keeps a byte from being known at a point; where it is known its line. The only refusal is
/// out of memory.
pub fn byte_lost<F: Findings>(
    alloc: Global,
    findings: &F,
    at: ThreadPoint,
    address: u32,
) -> Result<Text, OutOfMemory>
    requires { IsThreadPoint (F.shown findings.now) at }
    ensures { IfOk result (λ text. text ≡ lost_byte (F.shown findings.now) at address ((F.shown findings.now).byte (moment_at (F.shown findings.now) at) address)) }
{
    let moment = moment_of(findings, at);
    match findings.byte(moment, address) {
        Some(_) => memory_text(alloc, findings, moment, address, 1),
        None => {
            let back = byte_back(findings, at, address);
            let onward = byte_onward(findings, at, address);
            lost_text(alloc, findings, at.thread, back, onward)
        }
    }
}

/// The lines of the nearest steps before and after a point.
fn lost_text<F: Findings>(
    alloc: Global,
    findings: &F,
    thread: u32,
    back: Option<u32>,
    onward: Option<u32>,
) -> Result<Text, OutOfMemory>
    requires { thread < (F.shown findings.now).threads }
    ensures { IfOk result (λ text. text ≡ lost_lines (F.shown findings.now) thread back onward) }
{
    let mut text = Text::new(alloc);
    push_lost_step(alloc, &mut text, findings, b"back ", thread, back)?;
    push_lost_step(alloc, &mut text, findings, b"onward ", thread, onward)?;
    Ok(text)
}

/// A word, and the line of a step, or `none`.
fn push_lost_step<F: Findings>(
    alloc: Global,
    text: &mut Text,
    findings: &F,
    side: &[u8],
    thread: u32,
    step: Option<u32>,
) -> Result<(), OutOfMemory>
    requires { thread < (F.shown findings.now).threads }
    ensures { OnOk result (text.new ≡ text.old ++ lost_step (F.shown findings.now) side.now thread step) }
{
    let Some(step) = step else {
        return push_none(text, side);
    };
    let here = ThreadPoint {
        thread,
        point: step,
    };
    match findings.rows(thread).get(step as usize) {
        Some(row) => push_lost_line(alloc, text, findings, side, here, row),
        None => Ok(()),
    }
}

fn push_none(text: &mut Text, side: &[u8]) -> Result<(), OutOfMemory>
    ensures { OnOk result (text.new ≡ text.old ++ (side.now ++ codes "none" ++ 10 ∷ [])) }
{
    text.push(side)?;
    text.push(b"none\n")?;
    Ok(())
}

/// A word, a step with its values, and what it lacks.
fn push_lost_line<F: Findings>(
    alloc: Global,
    text: &mut Text,
    findings: &F,
    side: &[u8],
    at: ThreadPoint,
    row: &StepRow,
) -> Result<(), OutOfMemory>
    requires point { IsThreadPoint (F.shown findings.now) at }
    requires row { at.point < length ((F.shown findings.now).rows at.thread) }
    ensures { OnOk result (text.new ≡ text.old ++ lost_line (F.shown findings.now) side.now at row.now) }
{
    text.push(side)?;
    push_executed(alloc, text, findings, at, row)?;
    push_lacks(text, findings, at, &row.instr)?;
    text.push(b"\n")?;
    Ok(())
}

/// The first register, or else the first byte, that a step reads and that isn't known before it.
fn push_lacks<F: Findings>(
    text: &mut Text,
    findings: &F,
    at: ThreadPoint,
    instr: &Instr,
) -> Result<(), OutOfMemory>
    requires { IsThreadPoint (F.shown findings.now) at }
    ensures { OnOk result (text.new ≡ text.old ++ lacks_text (F.shown findings.now) at instr.now) }
{
    let operand = unknown_operand(findings, number_of(findings, at), instr);
    let byte = unknown_byte(findings, at, instr);
    push_lacked(text, operand, byte)
}

fn push_lacked(text: &mut Text, operand: Option<Reg>, byte: Option<u32>) -> Result<(), OutOfMemory>
    ensures { OnOk result (text.new ≡ text.old ++ lacked operand byte) }
{
    match operand {
        Some(register) => push_lacked_register(text, register),
        None => push_lacked_byte(text, byte),
    }
}

fn push_lacked_byte(text: &mut Text, byte: Option<u32>) -> Result<(), OutOfMemory>
    ensures { OnOk result (text.new ≡ text.old ++ lacked_byte byte) }
{
    match byte {
        Some(address) => push_lacked_address(text, address),
        None => Ok(()),
    }
}

fn push_lacked_address(text: &mut Text, address: u32) -> Result<(), OutOfMemory>
    ensures { OnOk result (text.new ≡ text.old ++ (codes " lacks " ++ hex_word address)) }
{
    text.push(b" lacks ")?;
    text.push_word(address)?;
    Ok(())
}

fn push_lacked_register(text: &mut Text, register: Reg) -> Result<(), OutOfMemory>
    ensures { OnOk result (text.new ≡ text.old ++ (codes " lacks " ++ register_text register)) }
{
    text.push(b" lacks ")?;
    push_name(text, register)?;
    Ok(())
}

/// The first of the two registers that an instruction reads whose value isn't known.
fn unknown_operand<F: Findings>(findings: &F, point: u32, instr: &Instr) -> Option<Reg>
    requires { point < (F.shown findings.now).points }
    ensures { result ≡ unknown_operand (F.shown findings.now) point instr.now }
{
    let (first, second) = reads(instr);
    match unless_known(findings, point, first) {
        Some(register) => Some(register),
        None => unless_known(findings, point, second),
    }
}

/// A register, where its value isn't known.
fn unless_known<F: Findings>(findings: &F, point: u32, register: Option<Reg>) -> Option<Reg>
    requires { point < (F.shown findings.now).points }
    ensures { result ≡ unless_known (F.shown findings.now) point register }
{
    let register = register?;
    match findings.reg(point, register) {
        Some(_) => None,
        None => Some(register),
    }
}

/// The first of the bytes that a step reads whose value isn't known.
fn unknown_byte<F: Findings>(findings: &F, at: ThreadPoint, instr: &Instr) -> Option<u32>
    requires { IsThreadPoint (F.shown findings.now) at }
    ensures { result ≡ unknown_byte (F.shown findings.now) at instr.now }
{
    let Some(address) = address_at(findings, number_of(findings, at), instr) else {
        return None;
    };
    first_unknown(findings, moment_of(findings, at), address, loaded(instr))
}

/// The first of so many bytes from an address on whose value isn't known.
fn first_unknown<F: Findings>(findings: &F, moment: u32, address: u32, count: u32) -> Option<u32>
    requires { moment < (F.shown findings.now).moments }
    ensures { result ≡ find (λ a. is_none ((F.shown findings.now).byte moment a)) (bytes_from count (Some address)) }
{
    for i in 0..count {
        let byte = address.wrapping_add(i);
        if is_unknown(findings.byte(moment, byte)) {
            return Some(byte);
        }
    }
    None
}

fn is_unknown(byte: Option<u8>) -> bool
    ensures { result ≡ is_none byte }
{
    byte.is_none()
}

/// The first step from a point on that writes a register.
fn next_writer(rows: &[StepRow], point: u32, register: Reg) -> Option<u32>
    requires few { length rows.now ≤ 65536 }
    requires point { point ≤ length rows.now }
    ensures { result ≡ next_writer rows.now point register }
{
    for step in point..rows.len() as u32 {
        if is_written(&rows[step as usize].instr, register) {
            return Some(step);
        }
    }
    None
}

/// The last step before a point that wrote a byte, or may have.
fn byte_back<F: Findings>(findings: &F, at: ThreadPoint, address: u32) -> Option<u32>
    requires { IsThreadPoint (F.shown findings.now) at }
    ensures { result ≡ byte_back (F.shown findings.now) at address }
{
    let mut below = at.point;
    'back: while below > 0 {
        below -= 1;
        let here = ThreadPoint {
            thread: at.thread,
            point: below,
        };
        if is_writer(findings, here, address) {
            return Some(below);
        }
    }
    None
}

/// The first step from a point on that writes a byte, or may.
fn byte_onward<F: Findings>(findings: &F, at: ThreadPoint, address: u32) -> Option<u32>
    requires { IsThreadPoint (F.shown findings.now) at }
    ensures { result ≡ byte_onward (F.shown findings.now) at address }
{
    let last = findings.rows(at.thread).len() as u32;
    for step in at.point..last {
        let here = ThreadPoint {
            thread: at.thread,
            point: step,
        };
        if is_writer(findings, here, address) {
            return Some(step);
        }
    }
    None
}
