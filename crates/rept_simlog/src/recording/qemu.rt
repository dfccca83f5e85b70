//! qemu's log of executed instructions, as a log of addresses.

ghost use Rattle.std.specs.Prelude.{◌≡◌, ◌==◌, ◌<◌, ◌≤◌, ◌+◌, drop, length, true, IfOk, IfSome};
ghost use Rattle.std.specs.List.{position};
ghost use Rattle.rept_simlog.specs.Recording.Qemu.{address_digits, address_line, after_byte, all_lines, before_byte, executed_lines, is_of_first_thread, is_step_line, is_taken_back, plain_log, with_line};
ghost use Rattle.rept_simlog.specs.Recording.QemuParts.{lines_of};

use std::alloc::{AllocError, Global};

/// The lines so far, and after them the last one, whose block may not have been begun.
#[derive(Drop)]
pub struct PlainLog {
    done: Vec<u8>,
    last: Vec<u8>,
    is_begun: bool,
}

/// Whether a line tells a step: it begins with `Trace `.
#[tactic(auto, unfolding(crate::specs::Recording::Qemu::is_step_line))]
pub fn is_step_line(line: &[u8]) -> bool
    ensures value { result ≡ is_step_line line.now }
    ensures long { result ≡ true → 6 ≤ length line.now }
{
    line.starts_with(b"Trace ")
}

/// Whether a line says that the block of the line before it wasn't begun.
#[tactic(auto, unfolding(crate::specs::Recording::Qemu::is_taken_back))]
fn is_taken_back(line: &[u8]) -> bool
    ensures { result ≡ is_taken_back line.now }
{
    line.starts_with(b"Stopped execution")
}

/// Where a byte is first.
fn first_place(text: &[u8], sought: u8) -> Option<usize>
    ensures place { result ≡ position (λ byte. byte == sought) text.now }
    ensures within { IfSome result (λ place. place < length text.now) }
{
    text.iter().position(|byte| *byte == sought)
}

/// What comes before the first such byte; all where there is none.
fn before_byte(text: &[u8], sought: u8) -> &[u8]
    ensures value { result.now ≡ before_byte sought text.now }
    ensures fewer { length result.now ≤ length text.now }
{
    match first_place(text, sought) {
        Some(place) => &text[..place],
        None => text,
    }
}

/// What comes after the byte at a place.
fn after_place(text: &[u8], place: usize) -> &[u8]
    requires { place < length text.now }
    ensures value { result.now ≡ drop (place + 1) text.now }
    ensures fewer { length result.now < length text.now }
{
    &text[place + 1..]
}

/// What comes after the first such byte; nothing where there is none.
fn after_byte(text: &[u8], sought: u8) -> &[u8]
    ensures value { result.now ≡ after_byte sought text.now }
    ensures fewer { length result.now ≤ length text.now }
{
    match first_place(text, sought) {
        Some(place) => after_place(text, place),
        None => b"",
    }
}

/// Whether a step is one of qemu's first thread.
#[tactic(auto, unfolding(crate::specs::Recording::Qemu::is_of_first_thread))]
fn is_of_first_thread(line: &[u8]) -> bool
    ensures { result ≡ is_of_first_thread line.now }
{
    line.starts_with(b"Trace 0:")
}

/// The digits of the address of a step; none of another thread's.
fn address_digits(line: &[u8]) -> &[u8]
    requires { 6 ≤ length line.now }
    ensures value { result.now ≡ address_digits line.now }
    ensures fewer { length result.now + 6 ≤ length line.now }
{
    if !is_of_first_thread(line) {
        return b"";
    }
    let fields = after_byte(&line[6..], b'[');
    before_byte(after_byte(fields, b'/'), b'/')
}

/// The line of a log of addresses.
fn address_line(alloc: Global, line: &[u8]) -> Result<Vec<u8>, AllocError>
    requires { 6 ≤ length line.now }
    ensures value { IfOk result (λ text. text.items ≡ address_line line.now) }
    ensures fewer { IfOk result (λ text. length text.items ≤ length line.now) }
{
    let mut text = Vec::new(alloc);
    text.extend_from_slice(b"0x")?;
    text.extend_from_slice(address_digits(line))?;
    text.extend_from_slice(b"\n")?;
    Ok(text)
}

/// The lines that were executed where another one follows.
fn executed_lines(lines: PlainLog) -> Result<Vec<u8>, AllocError>
    ensures value { IfOk result (λ text. text.items ≡ executed_lines (lines_of lines)) }
    ensures few { IfOk result (λ text. length text.items ≤ length (all_lines (lines_of lines))) }
{
    if !lines.is_begun {
        return Ok(lines.done);
    }
    let mut done = lines.done;
    done.extend_from_slice(lines.last.as_slice())?;
    Ok(done)
}

/// The lines with one line more.
fn add_line(alloc: Global, lines: PlainLog, line: &[u8]) -> Result<PlainLog, AllocError>
    ensures value { IfOk result (λ more. lines_of more ≡ with_line (lines_of lines) line.now) }
    ensures few { IfOk result (λ more. length (all_lines (lines_of more)) ≤ length (all_lines (lines_of lines)) + length line.now) }
{
    if is_step_line(line) {
        let last = address_line(alloc, line)?;
        let done = executed_lines(lines)?;
        return Ok(PlainLog {
            done,
            last,
            is_begun: true,
        });
    }
    if is_taken_back(line) {
        return Ok(PlainLog {
            done: lines.done,
            last: lines.last,
            is_begun: false,
        });
    }
    Ok(lines)
}

/// The lines of qemu's log.
fn read_lines(alloc: Global, log: &[u8]) -> Result<PlainLog, AllocError>
    ensures value { IfOk result (λ lines. all_lines (lines_of lines) ≡ plain_log log.now) }
    ensures few { IfOk result (λ lines. length (all_lines (lines_of lines)) ≤ length log.now) }
{
    let mut lines = PlainLog {
        done: Vec::new(alloc),
        last: Vec::new(alloc),
        is_begun: true,
    };
    let mut rest = log;
    'lines: loop {
        match first_place(rest, b'\n') {
            Some(end) => {
                lines = add_line(alloc, lines, &rest[..end])?;
                rest = after_place(rest, end);
            }
            None => {
                let all = add_line(alloc, lines, rest)?;
                return Ok(all);
            }
        }
    }
}

/// The log of addresses that qemu's log is. An address whose block wasn't begun counts only where it
/// is the last one, where the program stopped. The only refusal is of memory.
pub fn plain_log(alloc: Global, log: &[u8]) -> Result<Vec<u8>, AllocError>
    ensures value { IfOk result (λ plain. plain.items ≡ plain_log log.now) }
    ensures few { IfOk result (λ plain. length plain.items ≤ length log.now) }
{
    let lines = read_lines(alloc, log)?;
    let mut plain = lines.done;
    plain.extend_from_slice(lines.last.as_slice())?;
    Ok(plain)
}
