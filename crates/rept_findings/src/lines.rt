//! Answers of many lines.

ghost use Rattle.std.specs.Prelude.{◌≡◌, ◌<◌, ◌≤◌, ◌+◌, ◌++◌, codes, length, IfOk, OnOk, slice_get};
ghost use Rattle.std.specs.List.{flat_map, range_with_len};
ghost use Rattle.rept_findings.specs.Texts.{byte_piece, byte_text, memory_line, memory_lines, register_lines, step_line, step_lines, wrapped, writer_line};

use crate::findings::Findings;
use crate::pieces::{push_known_byte, push_step, push_value, push_writer};
use rept_isa::{Reg, StepRow};
use rept_word::{OutOfMemory, Text};
use std::alloc::Global;

/// How many bytes a line of memory has.
const LINE_BYTES: u32 = 16;

/// The lines of x1 to x31 at a point.
pub fn register_texts<F: Findings>(
    alloc: Global,
    findings: &F,
    point: u32,
) -> Result<Text, OutOfMemory>
    requires { point < (F.shown findings.now).points }
    ensures { IfOk result (λ text. text ≡ register_lines (F.shown findings.now) point) }
{
    let mut text = Text::new(alloc);
    for number in 1..32 {
        let Some(register) = Reg::new(number) else {
            unreachable!();
        };
        let value = findings.reg(point, register);
        push_value(&mut text, register, value)?;
    }
    Ok(text)
}

/// The lines of so many bytes from an address on, at a moment.
pub fn memory_text<F: Findings>(
    alloc: Global,
    findings: &F,
    moment: u32,
    address: u32,
    count: u32,
) -> Result<Text, OutOfMemory>
    requires moment { moment < (F.shown findings.now).moments }
    requires count { count ≤ 256 }
    ensures { IfOk result (λ text. text ≡ memory_lines (F.shown findings.now) moment address count) }
{
    let mut text = Text::new(alloc);
    let lines = (count + 15) / LINE_BYTES;
    for line in 0..lines {
        let passed = LINE_BYTES * line;
        let start = address.wrapping_add(passed);
        let bytes = LINE_BYTES.min(count - passed);
        push_memory_line(&mut text, findings, moment, start, bytes)?;
    }
    Ok(text)
}

/// One line of memory.
fn push_memory_line<F: Findings>(
    text: &mut Text,
    findings: &F,
    moment: u32,
    address: u32,
    count: u32,
) -> Result<(), OutOfMemory>
    requires { moment < (F.shown findings.now).moments }
    ensures { OnOk result (text.new ≡ text.old ++ memory_line (F.shown findings.now) moment address count) }
{
    text.push_word(address)?;
    text.push(b":")?;
    push_bytes(text, findings, moment, address, count)?;
    text.push(b"\n")?;
    Ok(())
}

/// The bytes of a line of memory, each after a space.
fn push_bytes<F: Findings>(
    text: &mut Text,
    findings: &F,
    moment: u32,
    address: u32,
    count: u32,
) -> Result<(), OutOfMemory>
    requires { moment < (F.shown findings.now).moments }
    ensures { OnOk result (text.new ≡ text.old ++ flat_map (λ i. byte_piece (F.shown findings.now) moment (wrapped (address + i))) (range_with_len 0 count)) }
{
    for i in 0..count {
        let byte = findings.byte(moment, address.wrapping_add(i));
        push_byte_piece(text, byte)?;
    }
    Ok(())
}

/// A space, and a byte.
fn push_byte_piece(text: &mut Text, byte: Option<u8>) -> Result<(), OutOfMemory>
    ensures { OnOk result (text.new ≡ text.old ++ (codes " " ++ byte_text byte)) }
{
    text.push(b" ")?;
    push_known_byte(text, byte)?;
    Ok(())
}

/// The lines of so many steps from one on, as far as a thread has them.
pub fn step_texts(
    alloc: Global,
    rows: &[StepRow],
    first: u32,
    count: u32,
) -> Result<Text, OutOfMemory>
    requires few { length rows.now ≤ 65536 }
    requires first { first ≤ length rows.now }
    requires count { count ≤ 256 }
    ensures { IfOk result (λ text. text ≡ step_lines rows.now first count) }
{
    let mut text = Text::new(alloc);
    for step in first..first + count {
        push_existing_step(alloc, &mut text, step, rows)?;
    }
    Ok(text)
}

/// The line of a step, where the thread has it.
fn push_existing_step(
    alloc: Global,
    text: &mut Text,
    step: u32,
    rows: &[StepRow],
) -> Result<(), OutOfMemory>
    ensures { OnOk result (text.new ≡ text.old ++ step_line step (slice_get rows.now step)) }
{
    match rows.get(step as usize) {
        Some(row) => push_step(alloc, text, step, row),
        None => Ok(()),
    }
}

/// The line of the last writer of a byte.
pub fn writer_text<F: Findings>(
    alloc: Global,
    findings: &F,
    moment: u32,
    address: u32,
) -> Result<Text, OutOfMemory>
    requires { moment < (F.shown findings.now).moments }
    ensures { IfOk result (λ text. text ≡ writer_line (F.shown findings.now) ((F.shown findings.now).writer moment address)) }
{
    let writer = findings.writer(moment, address);
    let mut text = Text::new(alloc);
    push_writer(&mut text, findings, writer)?;
    text.push(b"\n")?;
    Ok(text)
}
