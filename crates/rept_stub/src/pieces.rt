//! Pieces of replies.

ghost use Rattle.std.specs.Prelude.{◌≡◌, ◌++◌, ◌<◌, ◌+◌, min, map, codes, IfOk, OnOk, option_map};
ghost use Rattle.std.specs.List.{flat_map, range_with_len};
ghost use Rattle.rept_findings.specs.Shown.{IsThreadPoint};
ghost use Rattle.rept_findings.specs.Texts.{wrapped};
ghost use Rattle.rept_stub.specs.Files.{byte_shown, known_bytes};
ghost use Rattle.rept_stub.specs.Replies.{big_word, decoded, digits_of, known_run, little_word, memory_bytes, memory_digits, part_reply, register_reply, registers_reply, signal_reply, stop_part, text_reply, value_digits};

use crate::files::{ProcessFiles, constant_byte};
use crate::signal::debugger_signal;
use rept_findings::findings::{address_at, number_of};
use rept_findings::{Findings, ThreadPoint};
use rept_isa::Reg;
use rept_remote::{StopReason, byte_told, digits_value, last_point};
use rept_word::{OutOfMemory, Text};
use std::alloc::Global;

/// The most bytes of memory in one reply.
const MOST_BYTES: u32 = 2000;

/// The most bytes of a part of a text in one reply.
const MOST_PART: u32 = 2000;

/// A text that is known as a whole.
pub fn whole(alloc: Global, words: &[u8]) -> Result<Text, OutOfMemory>
    ensures { IfOk result (λ text. text ≡ words.now) }
{
    let mut text = Text::new(alloc);
    text.push(words)?;
    Ok(text)
}

/// The bytes of a word, from the lowest one on.
fn push_little(text: &mut Text, value: u32) -> Result<(), OutOfMemory>
    ensures { OnOk result (text.new ≡ text.old ++ little_word value) }
{
    text.push_byte((value % 256) as u8)?;
    text.push_byte((value / 256 % 256) as u8)?;
    text.push_byte((value / 65_536 % 256) as u8)?;
    text.push_byte((value / 16_777_216 % 256) as u8)?;
    Ok(())
}

/// The bytes of a word, from the highest one on.
pub fn push_big(text: &mut Text, value: u32) -> Result<(), OutOfMemory>
    ensures { OnOk result (text.new ≡ text.old ++ big_word value) }
{
    text.push_byte((value / 16_777_216 % 256) as u8)?;
    text.push_byte((value / 65_536 % 256) as u8)?;
    text.push_byte((value / 256 % 256) as u8)?;
    text.push_byte((value % 256) as u8)?;
    Ok(())
}

fn push_value(text: &mut Text, value: Option<u32>) -> Result<(), OutOfMemory>
    ensures { OnOk result (text.new ≡ text.old ++ value_digits value) }
{
    match value {
        Some(value) => push_little(text, value),
        None => text.push(b"xxxxxxxx"),
    }
}

/// All registers and the address at a point of a thread.
pub fn registers<F: Findings>(
    alloc: Global,
    findings: &F,
    at: ThreadPoint,
) -> Result<Text, OutOfMemory>
    requires { IsThreadPoint (F.shown findings.now) at }
    ensures { IfOk result (λ text. text ≡ registers_reply (F.shown findings.now) at) }
{
    let mut text = Text::new(alloc);
    let point = number_of(findings, at);
    for number in 0..32 {
        let Some(register) = Reg::new(number) else {
            unreachable!();
        };
        push_value(&mut text, findings.reg(point, register))?;
    }
    push_little(&mut text, address_at(findings, at))?;
    Ok(text)
}

/// One register, or the address at the point, by its number.
pub fn register<F: Findings>(
    alloc: Global,
    findings: &F,
    at: ThreadPoint,
    number: u32,
) -> Result<Text, OutOfMemory>
    requires { IsThreadPoint (F.shown findings.now) at }
    ensures { IfOk result (λ text. text ≡ register_reply (F.shown findings.now) at number) }
{
    let mut text = Text::new(alloc);
    if number < 32 {
        let Some(register) = Reg::new(number as u8) else {
            unreachable!();
        };
        push_value(&mut text, findings.reg(number_of(findings, at), register))?;
    } else if number == 32 {
        push_little(&mut text, address_at(findings, at))?;
    } else {
        text.push(b"E01")?;
    }
    Ok(text)
}

/// The byte that is shown at a moment: the one that is told, else the one that doesn't change.
fn byte_shown<F: Findings>(
    findings: &F,
    files: &ProcessFiles<'_>,
    moment: u32,
    address: u32,
) -> Option<u8>
    requires { moment < (F.shown findings.now).moments }
    ensures { result ≡ byte_shown (F.shown findings.now) files.now moment address }
{
    match byte_told(findings, moment, address) {
        Some(byte) => Some(byte),
        None => constant_byte(files, address),
    }
}

/// The bytes that are shown at a moment, up to the first one that isn't. An address is asked and how
/// many bytes from it on.
pub fn known_bytes<F: Findings>(
    alloc: Global,
    findings: &F,
    files: &ProcessFiles<'_>,
    moment: u32,
    asked: (u32, u32),
) -> Result<Text, OutOfMemory>
    requires { moment < (F.shown findings.now).moments }
    ensures { IfOk result (λ text. text ≡ known_bytes (F.shown findings.now) files.now moment asked.0 asked.1) }
{
    let mut text = Text::new(alloc);
    let most = asked.1.min(MOST_BYTES);
    for i in 0..most {
        match byte_shown(findings, files, moment, asked.0.wrapping_add(i)) {
            Some(byte) => text.push(&[byte])?,
            None => return Ok(text),
        }
    }
    Ok(text)
}

/// Bytes as pairs of digits.
pub fn push_digits(text: &mut Text, bytes: &[u8]) -> Result<(), OutOfMemory>
    ensures { OnOk result (text.new ≡ text.old ++ digits_of bytes.now) }
{
    for byte in bytes {
        text.push_byte(*byte)?;
    }
    Ok(())
}

/// Known bytes as digits.
pub fn memory_digits(alloc: Global, bytes: &[u8]) -> Result<Text, OutOfMemory>
    ensures { IfOk result (λ text. text ≡ memory_digits bytes.now) }
{
    if bytes.is_empty() {
        return whole(alloc, b"E01");
    }
    let mut text = Text::new(alloc);
    push_digits(&mut text, bytes)?;
    Ok(text)
}

/// Known bytes as they are.
pub fn memory_bytes(alloc: Global, bytes: &[u8]) -> Result<Text, OutOfMemory>
    ensures { IfOk result (λ text. text ≡ memory_bytes bytes.now) }
{
    if bytes.is_empty() {
        return whole(alloc, b"E01");
    }
    let mut text = Text::new(alloc);
    text.push(b"b")?;
    text.push(bytes)?;
    Ok(text)
}

/// Why a move stopped.
pub fn push_stop(text: &mut Text, stop: StopReason) -> Result<(), OutOfMemory>
    ensures { OnOk result (text.new ≡ text.old ++ stop_part stop) }
{
    match stop {
        StopReason::Step | StopReason::Unseen(_) => Ok(()),
        StopReason::Write(address) => push_named(text, b"watch:", address),
        StopReason::Access(address) => push_named(text, b"awatch:", address),
        StopReason::Begin => text.push(b"replaylog:begin;"),
        StopReason::End => text.push(b"replaylog:end;"),
    }
}

/// A part of a stop: its name, a word from its highest byte on, and a semicolon.
pub fn push_named(text: &mut Text, name: &[u8], value: u32) -> Result<(), OutOfMemory>
    ensures { OnOk result (text.new ≡ text.old ++ (name.now ++ big_word value ++ codes ";")) }
{
    text.push(name)?;
    push_big(text, value)?;
    text.push(b";")?;
    Ok(())
}

/// The signal that ended the process at the last point of a thread, and at others that of a stop.
pub fn push_signal<F: Findings>(
    text: &mut Text,
    findings: &F,
    signal: u16,
    at: ThreadPoint,
) -> Result<(), OutOfMemory>
    requires { IsThreadPoint (F.shown findings.now) at }
    ensures { OnOk result (text.new ≡ text.old ++ signal_reply (F.shown findings.now) signal at) }
{
    if at.point != last_point(findings, at.thread) {
        return text.push(b"T05");
    }
    text.push(b"T")?;
    text.push_byte(debugger_signal(signal))?;
    Ok(())
}

/// A part of a text, and whether it is the last one.
pub fn part(alloc: Global, all: &[u8], offset: u32, count: u32) -> Result<Text, OutOfMemory>
    ensures { IfOk result (λ text. text ≡ part_reply all.now offset count) }
{
    let start = (offset as usize).min(all.len());
    let rest = &all[start..];
    let most = count.min(MOST_PART) as usize;
    let mut text = Text::new(alloc);
    if rest.len() <= most {
        text.push(b"l")?;
        text.push(rest)?;
    } else {
        text.push(b"m")?;
        text.push(&rest[..most])?;
    }
    Ok(text)
}

/// The bytes that pairs of digits are. None exactly where they are no such pairs.
pub fn decoded(alloc: Global, digits: &[u8]) -> Result<Option<Vec<u8>>, OutOfMemory>
    ensures { IfOk result (λ found. option_map (λ v. v.items) found ≡ decoded digits.now) }
{
    let mut bytes = Vec::new(alloc);
    let mut place = 0;
    while place + 1 < digits.len() {
        match digits_value(digits[place], digits[place + 1]) {
            Some(byte) => bytes.push(byte)?,
            None => return Ok(None),
        }
        place += 2;
    }
    if place < digits.len() {
        return Ok(None);
    }
    Ok(Some(bytes))
}

/// A text of a session.
pub fn text_reply(alloc: Global, words: &[u8]) -> Result<Text, OutOfMemory>
    ensures { IfOk result (λ text. text ≡ text_reply words.now) }
{
    if words.is_empty() {
        return whole(alloc, b"OK");
    }
    let mut text = Text::new(alloc);
    push_digits(&mut text, words)?;
    Ok(text)
}
