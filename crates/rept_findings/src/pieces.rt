//! Pieces of answers, pushed onto a text.

ghost use Rattle.std.specs.Prelude.{◌≡◌, ◌++◌, ◌∷◌, [], IfOk, OnOk, Some, codes, map};
ghost use Rattle.std.specs.Fmt.{decimal};
ghost use Rattle.rept_isa.specs.Texts.{instruction_text, register_text};
ghost use Rattle.rept_findings.specs.Texts.{beyond_line, byte_text, cell_text, looked_line, note_text, of_thread, place_of, place_text, premise_line, premise_name, premise_names, premise_told, premises_lines, range_text, rule_line, rule_name, step_line, step_text, value_line, value_text, writer_text, thread_named, visible};
ghost use Rattle.rept_word.specs.Hex.{hex_byte, hex_word};

use crate::findings::{BeyondRule, Findings, KnownBeyond, PremisesTaken};
use crate::place::{Place, ThreadPlace};
use rept_isa::{Reg, Shown, StepRow};
use rept_partial::{Partial, Range};
use rept_reason::{Cell, Fact, RangePremise};
use rept_report::Writer;
use rept_word::{OutOfMemory, Text};
use std::alloc::Global;

/// Words as they stand, and a number in decimal.
pub fn push_numbered(text: &mut Text, words: &[u8], number: u32) -> Result<(), OutOfMemory>
    ensures { OnOk result (text.new ≡ text.old ++ (words.now ++ decimal number)) }
{
    text.push(words)?;
    text.push_decimal(number)?;
    Ok(())
}

/// The name of a register.
pub fn push_name(text: &mut Text, register: Reg) -> Result<(), OutOfMemory>
    ensures { OnOk result (text.new ≡ text.old ++ register_text register) }
{
    push_numbered(text, b"x", u32::from(register.number()))
}

/// The line of a register and its value.
pub fn push_value(text: &mut Text, register: Reg, value: Option<u32>) -> Result<(), OutOfMemory>
    ensures { OnOk result (text.new ≡ text.old ++ value_line register value) }
{
    push_name(text, register)?;
    text.push(b" ")?;
    push_known(text, value)?;
    text.push(b"\n")?;
    Ok(())
}

/// A register and its value.
pub fn push_register(text: &mut Text, register: Reg, value: Option<u32>) -> Result<(), OutOfMemory>
    ensures { OnOk result (text.new ≡ text.old ++ (register_text register ++ codes " " ++ value_text value)) }
{
    push_name(text, register)?;
    text.push(b" ")?;
    push_known(text, value)
}

/// A value as HEX, or `unknown`.
pub fn push_known(text: &mut Text, value: Option<u32>) -> Result<(), OutOfMemory>
    ensures { OnOk result (text.new ≡ text.old ++ value_text value) }
{
    match value {
        Some(value) => text.push_word(value),
        None => text.push(b"unknown"),
    }
}

/// A register and the values that it may have.
pub fn push_range(text: &mut Text, register: Reg, range: Range) -> Result<(), OutOfMemory>
    ensures { OnOk result (text.new ≡ text.old ++ range_text register range) }
{
    push_name(text, register)?;
    text.push(b" ")?;
    text.push_word(range.lo())?;
    text.push(b"..")?;
    text.push_word(range.hi())?;
    Ok(())
}

/// The bits in which all values are alike: a mask, and what they are.
pub fn push_note(text: &mut Text, note: Option<(u32, u32)>) -> Result<(), OutOfMemory>
    ensures { OnOk result (text.new ≡ text.old ++ note_text note) }
{
    match note {
        None => Ok(()),
        Some((mask, value)) => push_bits(text, mask, value),
    }
}

fn push_bits(text: &mut Text, mask: u32, value: u32) -> Result<(), OutOfMemory>
    ensures { OnOk result (text.new ≡ text.old ++ (codes " known " ++ hex_word mask ++ codes " value " ++ hex_word value)) }
{
    text.push(b" known ")?;
    text.push_word(mask)?;
    text.push(b" value ")?;
    text.push_word(value)?;
    Ok(())
}

/// A byte as two digits, or `??`.
pub fn push_known_byte(text: &mut Text, byte: Option<u8>) -> Result<(), OutOfMemory>
    ensures { OnOk result (text.new ≡ text.old ++ byte_text byte) }
{
    match byte {
        Some(byte) => text.push_byte(byte),
        None => text.push(b"??"),
    }
}

/// The thread, in a run of several.
fn push_thread<F: Findings>(text: &mut Text, findings: &F, thread: u32) -> Result<(), OutOfMemory>
    ensures { OnOk result (text.new ≡ text.old ++ of_thread (F.shown findings.now) thread) }
{
    push_thread_named(text, findings.threads(), thread)
}

/// ` of` and the thread, in a run of several threads; of one thread nothing.
pub fn push_thread_named(text: &mut Text, threads: u32, thread: u32) -> Result<(), OutOfMemory>
    ensures { OnOk result (text.new ≡ text.old ++ thread_named threads thread) }
{
    if threads > 1 {
        push_numbered(text, b" of ", thread)
    } else {
        Ok(())
    }
}

/// Words, a step, and its thread in a run of several.
fn push_step_of<F: Findings>(
    text: &mut Text,
    findings: &F,
    words: &[u8],
    step: u32,
) -> Result<(), OutOfMemory>
    ensures { OnOk result (text.new ≡ text.old ++ (words.now ++ step_text (F.shown findings.now) ((F.shown findings.now).point step))) }
{
    let at = findings.point(step);
    push_numbered(text, words, at.point)?;
    push_thread(text, findings, at.thread)?;
    Ok(())
}

/// Which step wrote a byte.
pub fn push_writer<F: Findings>(
    text: &mut Text,
    findings: &F,
    writer: Writer,
) -> Result<(), OutOfMemory>
    ensures { OnOk result (text.new ≡ text.old ++ writer_text (F.shown findings.now) writer) }
{
    match writer {
        Writer::Writes(step) => push_step_of(text, findings, b"writes ", step),
        Writer::MayWrite(step) => push_step_of(text, findings, b"may write ", step),
        Writer::Several => text.push(b"several"),
        Writer::None => text.push(b"none"),
    }
}

/// The line of a step.
pub fn push_step(
    alloc: Global,
    text: &mut Text,
    step: u32,
    row: &StepRow,
) -> Result<(), OutOfMemory>
    ensures { OnOk result (text.new ≡ text.old ++ step_line step (Some row.now)) }
{
    let shown = Shown {
        at: row.at,
        instr: row.instr,
    };
    let instruction = format!(in alloc; "{shown}")?;
    text.push_decimal(step)?;
    text.push(b" ")?;
    text.push_word(row.at)?;
    text.push(b" ")?;
    text.push(instruction.as_bytes())?;
    text.push(b"\n")?;
    Ok(())
}

/// The text of an instruction.
pub fn push_instruction(alloc: Global, text: &mut Text, row: &StepRow) -> Result<(), OutOfMemory>
    ensures { OnOk result (text.new ≡ text.old ++ instruction_text row.now.at row.now.instr) }
{
    let shown = Shown {
        at: row.at,
        instr: row.instr,
    };
    let instruction = format!(in alloc; "{shown}")?;
    text.push(instruction.as_bytes())
}

/// The line of a fact that a rule rests on.
pub fn push_premise<F: Findings>(
    text: &mut Text,
    findings: &F,
    fact: &Fact,
) -> Result<(), OutOfMemory>
    ensures { OnOk result (text.new ≡ text.old ++ premise_line (F.shown findings.now) fact.now) }
{
    let at = place_of(findings, fact.cell, fact.point);
    text.push(b"  point ")?;
    push_place(text, at.place)?;
    text.push(b" ")?;
    push_cell(text, fact.cell, fact.value)?;
    push_thread(text, findings, at.thread)?;
    text.push(b"\n")?;
    Ok(())
}

/// The thread and place at which a cell has a value, by the number of a point or moment.
fn place_of<F: Findings>(findings: &F, cell: Cell, number: u32) -> ThreadPlace
    ensures { result ≡ place_of (F.shown findings.now) cell number }
{
    match cell {
        Cell::Register(_) => {
            let at = findings.point(number);
            ThreadPlace {
                thread: at.thread,
                place: Place::Point(at.point),
            }
        }
        Cell::Byte(_) => findings.place(number),
    }
}

/// A point of a thread by its number, or what another moment is called.
pub fn push_place(text: &mut Text, place: Place) -> Result<(), OutOfMemory>
    ensures { OnOk result (text.new ≡ text.old ++ place_text place) }
{
    match place {
        Place::Point(point) => text.push_decimal(point),
        Place::After(step) => push_numbered(text, b"after-", step),
        Place::End => text.push(b"end"),
    }
}

fn push_cell(text: &mut Text, cell: Cell, value: u32) -> Result<(), OutOfMemory>
    ensures { OnOk result (text.new ≡ text.old ++ cell_text cell value) }
{
    match cell {
        Cell::Register(register) => push_held(text, register, value),
        Cell::Byte(address) => push_stored(text, address, (value % 256) as u8),
    }
}

/// A register and its value.
fn push_held(text: &mut Text, register: Reg, value: u32) -> Result<(), OutOfMemory>
    ensures { OnOk result (text.new ≡ text.old ++ (register_text register ++ codes " " ++ hex_word value)) }
{
    push_name(text, register)?;
    text.push(b" ")?;
    text.push_word(value)?;
    Ok(())
}

/// An address and the byte there.
fn push_stored(text: &mut Text, address: u32, byte: u8) -> Result<(), OutOfMemory>
    ensures { OnOk result (text.new ≡ text.old ++ (hex_word address ++ codes " " ++ hex_byte byte)) }
{
    text.push_word(address)?;
    text.push(b" ")?;
    text.push_byte(byte)?;
    Ok(())
}

/// The line of a range that a rule looked at.
pub fn push_looked<F: Findings>(
    text: &mut Text,
    findings: &F,
    looked: &RangePremise,
) -> Result<(), OutOfMemory>
    ensures { OnOk result (text.new ≡ text.old ++ looked_line (F.shown findings.now) looked.now) }
{
    let at = findings.point(looked.point);
    push_numbered(text, b"  range ", at.point)?;
    text.push(b" ")?;
    push_range(text, looked.reg, looked.range)?;
    push_thread(text, findings, at.thread)?;
    text.push(b"\n")?;
    Ok(())
}

/// The line of a value that was inferred beyond the report: the step that left it, and a rule.
pub fn push_rule(text: &mut Text, row: u32, rule: BeyondRule) -> Result<(), OutOfMemory>
    ensures { OnOk result (text.new ≡ text.old ++ rule_line row rule) }
{
    push_numbered(text, b"inferred ", row)?;
    text.push(b" ")?;
    push_rule_name(text, rule)?;
    text.push(b"\n")?;
    Ok(())
}

fn push_rule_name(text: &mut Text, rule: BeyondRule) -> Result<(), OutOfMemory>
    ensures { OnOk result (text.new ≡ text.old ++ rule_name rule) }
{
    match rule {
        BeyondRule::Value => text.push(b"value"),
        BeyondRule::Call => text.push(b"call"),
        BeyondRule::Class => text.push(b"class"),
        BeyondRule::Miss => text.push(b"miss"),
        BeyondRule::ReadOnly => text.push(b"read-only"),
        BeyondRule::FirstMemory => text.push(b"first-memory"),
    }
}

/// The line of `summary` that tells how much is known beyond the report.
pub fn push_beyond(text: &mut Text, beyond: Option<KnownBeyond>) -> Result<(), OutOfMemory>
    ensures { OnOk result (text.new ≡ text.old ++ beyond_line beyond) }
{
    match beyond {
        None => Ok(()),
        Some(known) => push_known_beyond(text, known),
    }
}

fn push_known_beyond(text: &mut Text, known: KnownBeyond) -> Result<(), OutOfMemory>
    ensures { OnOk result (text.new ≡ text.old ++ beyond_line (Some known)) }
{
    push_numbered(text, b"inferred ", known.registers)?;
    push_numbered(text, b" ", known.bytes)?;
    text.push(b" premises")?;
    push_premise_names(text, known.premises)?;
    text.push(b"\n")?;
    Ok(())
}

fn push_premise_names(text: &mut Text, premises: PremisesTaken) -> Result<(), OutOfMemory>
    ensures { OnOk result (text.new ≡ text.old ++ premise_names premises) }
{
    push_premise_name(text, premises.read_only, b" read-only")?;
    push_premise_name(text, premises.answers, b" answers")?;
    push_premise_name(text, premises.first_memory, b" first-memory")?;
    push_premise_name(text, premises.fresh_pages, b" fresh-pages")?;
    Ok(())
}

/// The name of a premise, if it was taken.
fn push_premise_name(text: &mut Text, taken: bool, name: &[u8]) -> Result<(), OutOfMemory>
    ensures { OnOk result (text.new ≡ text.old ++ premise_name taken name.now) }
{
    if taken { text.push(name) } else { Ok(()) }
}

/// The lines of the premises that were taken beyond the report.
pub fn premises_text(alloc: Global, beyond: Option<KnownBeyond>) -> Result<Text, OutOfMemory>
    ensures { IfOk result (λ text. text ≡ premises_lines beyond) }
{
    let mut text = Text::new(alloc);
    push_premise_lines(&mut text, beyond)?;
    Ok(text)
}

fn push_premise_lines(text: &mut Text, beyond: Option<KnownBeyond>) -> Result<(), OutOfMemory>
    ensures { OnOk result (text.new ≡ text.old ++ premises_lines beyond) }
{
    match beyond {
        None => text.push(b"none\n"),
        Some(known) => push_premises(text, known.premises),
    }
}

fn push_premises(text: &mut Text, premises: PremisesTaken) -> Result<(), OutOfMemory>
    ensures { OnOk result (text.new ≡ text.old ++ (premise_told premises.read_only (codes "read-only no step writes what the program can't write") ++ premise_told premises.answers (codes "answers calls answer as Linux's do") ++ premise_told premises.first_memory (codes "first-memory memory begins as the executable says") ++ premise_told premises.fresh_pages (codes "fresh-pages pages that a call hands out are 0"))) }
{
    push_premise_told(
        text,
        premises.read_only,
        b"read-only no step writes what the program can't write",
    )?;
    push_premise_told(
        text,
        premises.answers,
        b"answers calls answer as Linux's do",
    )?;
    push_premise_told(
        text,
        premises.first_memory,
        b"first-memory memory begins as the executable says",
    )?;
    push_premise_told(
        text,
        premises.fresh_pages,
        b"fresh-pages pages that a call hands out are 0",
    )?;
    Ok(())
}

/// The line of a premise, if it was taken.
fn push_premise_told(text: &mut Text, taken: bool, line: &[u8]) -> Result<(), OutOfMemory>
    ensures { OnOk result (text.new ≡ text.old ++ premise_told taken line.now) }
{
    if !taken {
        return Ok(());
    }
    text.push(line)?;
    text.push(b"\n")?;
    Ok(())
}

/// A name, with `?` for each byte that is no visible character.
pub fn push_visible(text: &mut Text, name: &[u8]) -> Result<(), OutOfMemory>
    ensures { OnOk result (text.new ≡ text.old ++ map visible name.now) }
{
    for byte in name {
        text.push(&[visible(*byte)])?;
    }
    Ok(())
}

fn visible(byte: u8) -> u8
    ensures { result ≡ visible byte }
{
    if byte.is_ascii_graphic() { byte } else { b'?' }
}
