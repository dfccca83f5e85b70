//! Steps with the values of their registers.

ghost use Rattle.std.specs.Prelude.{◌≡◌, ◌<◌, ◌++◌, codes, length, IfOk, OnOk};
ghost use Rattle.std.specs.Fmt.{decimal};
ghost use Rattle.rept_findings.specs.Shown.{IsThreadPoint};
ghost use Rattle.rept_questions.specs.Texts.{access_text, around_lines, at_line, end_line, executed_line, executed_text, named_row, operand_text, reads_text, writes_text};
ghost use Rattle.rept_word.specs.Hex.{hex_word};

use crate::stack::push_function_at;
use crate::trail::{address_at, base_of};
use rept_findings::findings::{number_after, number_of};
use rept_findings::pieces::{push_instruction, push_known, push_register};
use rept_findings::{Findings, ThreadPoint};
use rept_isa::{Instr, Reg, StepRow, reads, writes};
use rept_word::{OutOfMemory, Text};
use std::alloc::Global;

/// The line of the step at a point.
pub fn at_text<F: Findings>(
    alloc: Global,
    findings: &F,
    at: ThreadPoint,
) -> Result<Text, OutOfMemory>
    requires { IsThreadPoint (F.shown findings.now) at }
    ensures { IfOk result (λ text. text ≡ at_line (F.shown findings.now) at) }
{
    let mut text = Text::new(alloc);
    push_at(alloc, &mut text, findings, at)?;
    Ok(text)
}

/// The lines of the steps at so many points to each side of a point.
pub fn around_text<F: Findings>(
    alloc: Global,
    findings: &F,
    at: ThreadPoint,
    count: u32,
) -> Result<Text, OutOfMemory>
    requires { IsThreadPoint (F.shown findings.now) at }
    ensures { IfOk result (λ text. text ≡ around_lines (F.shown findings.now) at count) }
{
    let mut text = Text::new(alloc);
    let last = findings.rows(at.thread).len() as u32;
    let first = at.point.saturating_sub(count);
    let end = at.point.saturating_add(count).min(last) + 1;
    for point in first..end {
        let here = ThreadPoint {
            thread: at.thread,
            point,
        };
        push_at(alloc, &mut text, findings, here)?;
    }
    Ok(text)
}

/// The line of a point: of the step that begins there, or of the end of the thread.
fn push_at<F: Findings>(
    alloc: Global,
    text: &mut Text,
    findings: &F,
    at: ThreadPoint,
) -> Result<(), OutOfMemory>
    requires { IsThreadPoint (F.shown findings.now) at }
    ensures { OnOk result (text.new ≡ text.old ++ at_line (F.shown findings.now) at) }
{
    match findings.rows(at.thread).get(at.point as usize) {
        Some(row) => push_executed_line(alloc, text, findings, at, row),
        None => push_end(alloc, text, findings, at),
    }
}

/// The line of the last point of a thread.
fn push_end<F: Findings>(
    alloc: Global,
    text: &mut Text,
    findings: &F,
    at: ThreadPoint,
) -> Result<(), OutOfMemory>
    requires { IsThreadPoint (F.shown findings.now) at }
    ensures { OnOk result (text.new ≡ text.old ++ end_line (F.shown findings.now) at) }
{
    let pc = findings.end_pc(at.thread);
    push_numbered_word(text, at.point, pc)?;
    push_function_at(alloc, text, findings, pc)?;
    text.push(b" end\n")?;
    Ok(())
}

/// The line of a step that a thread has.
fn push_executed_line<F: Findings>(
    alloc: Global,
    text: &mut Text,
    findings: &F,
    at: ThreadPoint,
    row: &StepRow,
) -> Result<(), OutOfMemory>
    requires point { IsThreadPoint (F.shown findings.now) at }
    requires row { at.point < length ((F.shown findings.now).rows at.thread) }
    ensures { OnOk result (text.new ≡ text.old ++ executed_line (F.shown findings.now) at row.now) }
{
    push_executed(alloc, text, findings, at, row)?;
    text.push(b"\n")?;
    Ok(())
}

/// A step that a thread has, with its values.
pub fn push_executed<F: Findings>(
    alloc: Global,
    text: &mut Text,
    findings: &F,
    at: ThreadPoint,
    row: &StepRow,
) -> Result<(), OutOfMemory>
    requires point { IsThreadPoint (F.shown findings.now) at }
    requires row { at.point < length ((F.shown findings.now).rows at.thread) }
    ensures { OnOk result (text.new ≡ text.old ++ executed_text (F.shown findings.now) at row.now) }
{
    let number = number_of(findings, at);
    let after = number_after(findings, at);
    let (first, second) = reads(&row.instr);
    push_named_row(alloc, text, findings, at.point, row)?;
    push_reads(text, findings, number, first, second)?;
    push_access(text, findings, number, &row.instr)?;
    push_writes(text, findings, after, writes(&row.instr))?;
    Ok(())
}

/// A step, its address, the function there, and its instruction.
pub fn push_named_row<F: Findings>(
    alloc: Global,
    text: &mut Text,
    findings: &F,
    step: u32,
    row: &StepRow,
) -> Result<(), OutOfMemory>
    ensures { OnOk result (text.new ≡ text.old ++ named_row (F.shown findings.now) step row.now) }
{
    push_numbered_word(text, step, row.at)?;
    push_function_at(alloc, text, findings, row.at)?;
    text.push(b" ")?;
    push_instruction(alloc, text, row)?;
    Ok(())
}

/// A number in decimal, and an address after a space.
fn push_numbered_word(text: &mut Text, number: u32, address: u32) -> Result<(), OutOfMemory>
    ensures { OnOk result (text.new ≡ text.old ++ (decimal number ++ codes " " ++ hex_word address)) }
{
    text.push_decimal(number)?;
    text.push(b" ")?;
    text.push_word(address)?;
    Ok(())
}

/// The values that a step reads from registers.
fn push_reads<F: Findings>(
    text: &mut Text,
    findings: &F,
    point: u32,
    first: Option<Reg>,
    second: Option<Reg>,
) -> Result<(), OutOfMemory>
    requires { point < (F.shown findings.now).points }
    ensures { OnOk result (text.new ≡ text.old ++ reads_text (F.shown findings.now) point first second) }
{
    let Some(register) = first else {
        return Ok(());
    };
    text.push(b" reads")?;
    push_operand(text, findings, point, register)?;
    match second {
        Some(other) => push_operand(text, findings, point, other),
        None => Ok(()),
    }
}

/// The value that a step leaves in a register.
fn push_writes<F: Findings>(
    text: &mut Text,
    findings: &F,
    point: u32,
    register: Option<Reg>,
) -> Result<(), OutOfMemory>
    requires { point < (F.shown findings.now).points }
    ensures { OnOk result (text.new ≡ text.old ++ writes_text (F.shown findings.now) point register) }
{
    let Some(register) = register else {
        return Ok(());
    };
    text.push(b" writes")?;
    push_operand(text, findings, point, register)
}

/// A space, a register and its value.
fn push_operand<F: Findings>(
    text: &mut Text,
    findings: &F,
    point: u32,
    register: Reg,
) -> Result<(), OutOfMemory>
    requires { point < (F.shown findings.now).points }
    ensures { OnOk result (text.new ≡ text.old ++ operand_text (F.shown findings.now) point register) }
{
    let value = findings.reg(point, register);
    text.push(b" ")?;
    push_register(text, register, value)
}

/// The address at which a step loads or stores.
fn push_access<F: Findings>(
    text: &mut Text,
    findings: &F,
    point: u32,
    instr: &Instr,
) -> Result<(), OutOfMemory>
    requires { point < (F.shown findings.now).points }
    ensures { OnOk result (text.new ≡ text.old ++ access_text (F.shown findings.now) point instr.now) }
{
    let Some(_base) = base_of(instr) else {
        return Ok(());
    };
    let address = address_at(findings, point, instr);
    text.push(b" address ")?;
    push_known(text, address)
}
