//! Lines of a debugger's user that are no lines of a session.

ghost use Rattle.std.specs.Prelude.{◌≡◌, ◌≤◌, ◌<◌, ◌++◌, ◌∷◌, [], length, true, IfOk, IfSome, OnOk};
ghost use Rattle.rept_stub.specs.Monitoring.{asked_of, asked_when, flush_text, help_text, is_writers, moved_words, own_before, point_in, row_before, signal_text, writers_asked, writers_text};
ghost use Rattle.rept_word.specs.Parsing.Numbers.{number_of_word};
ghost use Rattle.rept_findings.specs.Shown.{IsThreadPoint};
ghost use Rattle.rept_findings.specs.Texts.{of_thread, step_text, writer_line};

use rept_findings::{Findings, ThreadPoint, push_thread_named};
use rept_remote::{before, named_row, point_at, writer_at};
use rept_report::Writer;
use rept_word::{OutOfMemory, Text, number_in};
use std::alloc::Global;

/// The most rows that are listed.
const MOST_ROWS: u32 = 256;

/// What a line asks for.
#[derive(Clone, Copy)]
pub enum MonitorRequest {
    /// `signal`: the signal that ended the process.
    Signal,
    /// `help`: the lines that are answered.
    Help,
    /// `when`: the point and the address there, as `where` tells them in a session.
    When,
    /// `writers ADDRESS`: each row that writes a byte, or may, from the newest one on.
    Writers(u32),
    /// What a session says to it.
    Session,
}

/// What a line asks for.
pub fn asked_of(line: &[u8]) -> MonitorRequest
    ensures { result ≡ asked_of line.now }
{
    if line == b"signal".as_slice() {
        MonitorRequest::Signal
    } else if line == b"help".as_slice() {
        MonitorRequest::Help
    } else if is_writers(line) {
        writers_asked(&line[8..])
    } else {
        asked_when(line)
    }
}

fn asked_when(line: &[u8]) -> MonitorRequest
    ensures { result ≡ asked_when line.now }
{
    if line == b"when".as_slice() {
        MonitorRequest::When
    } else {
        MonitorRequest::Session
    }
}

/// Whether a line begins with `writers` and a space.
#[tactic(auto, unfolding(crate::specs::Monitoring::is_writers))]
fn is_writers(line: &[u8]) -> bool
    ensures value { result ≡ is_writers line.now }
    ensures long { result ≡ true → 8 ≤ length line.now }
{
    line.starts_with(b"writers ")
}

fn writers_asked(word: &[u8]) -> MonitorRequest
    ensures { result ≡ writers_asked (number_of_word word.now) }
{
    match number_in(word) {
        Some(address) => MonitorRequest::Writers(address),
        None => MonitorRequest::Session,
    }
}

/// `signal` and the number that Linux gives to it.
pub fn signal_text(alloc: Global, signal: u16) -> Result<Text, OutOfMemory>
    ensures { IfOk result (λ text. text ≡ signal_text signal) }
{
    let mut text = Text::new(alloc);
    text.push(b"signal ")?;
    text.push_decimal(u32::from(signal))?;
    text.push(b"\n")?;
    Ok(text)
}

/// The lines that are answered.
#[tactic(auto, unfolding(crate::specs::Monitoring::help_text))]
pub fn help_text() -> &'static [u8]
    ensures { result.now ≡ help_text }
{
    b"where | when | thread T | goto POINT | back COUNT | fwd COUNT | at | around [COUNT] | reg R | reg pc | regs | range R | mem ADDRESS [COUNT] | writer ADDRESS | writers ADDRESS [COUNT] | why R | why ADDRESS | lost R | lost ADDRESS | from R | from ADDRESS | visits ADDRESS | find R VALUE | list [STEP [COUNT]] | stack | calls [COUNT] | summary | premises | signal\n"
}

/// How gdb reads registers anew.
#[tactic(auto, unfolding(crate::specs::Monitoring::flush_text))]
fn flush_text() -> &'static [u8]
    ensures { result.now ≡ flush_text }
{
    b"maintenance flush register-cache  shows it in gdb\n"
}

/// What is told after a line that leads to a point: of another point than before, how gdb shows it.
pub fn push_moved(text: &mut Text, at: ThreadPoint, point: u32) -> Result<(), OutOfMemory>
    ensures { OnOk result (text.new ≡ text.old ++ moved_words at point) }
{
    if point == at.point {
        return Ok(());
    }
    text.push(flush_text())
}

/// The point of a cursor, where it is one of this thread; else the thread's own.
pub fn point_in(at: ThreadPoint, cursor: ThreadPoint) -> u32
    ensures { result ≡ point_in at cursor }
{
    if cursor.thread == at.thread {
        cursor.point
    } else {
        at.point
    }
}

/// The line of a writer, as a session tells it.
fn push_line<F: Findings>(text: &mut Text, findings: &F, writer: Writer) -> Result<(), OutOfMemory>
    ensures { OnOk result (text.new ≡ text.old ++ writer_line (F.shown findings.now) writer) }
{
    match writer {
        Writer::Writes(row) => push_row(text, findings, b"writes ", row),
        Writer::MayWrite(row) => push_row(text, findings, b"may write ", row),
        Writer::Several => text.push(b"several\n"),
        Writer::None => text.push(b"none\n"),
    }
}

/// Words, and a row with its thread.
fn push_row<F: Findings>(
    text: &mut Text,
    findings: &F,
    words: &[u8],
    row: u32,
) -> Result<(), OutOfMemory>
    ensures { OnOk result (text.new ≡ text.old ++ ((words.now ++ step_text (F.shown findings.now) ((F.shown findings.now).point row)) ++ 10 ∷ [])) }
{
    let step = findings.point(row);
    text.push(words)?;
    text.push_decimal(step.point)?;
    push_thread(text, findings, step.thread)?;
    text.push(b"\n")?;
    Ok(())
}

/// The thread of a row, in a run of several.
fn push_thread<F: Findings>(text: &mut Text, findings: &F, thread: u32) -> Result<(), OutOfMemory>
    ensures { OnOk result (text.new ≡ text.old ++ of_thread (F.shown findings.now) thread) }
{
    push_thread_named(text, findings.threads(), thread)
}

/// The point before a row, where that is the thread's own and before this point.
fn own_before(at: ThreadPoint, row: ThreadPoint) -> Option<u32>
    ensures value { result ≡ own_before at row }
    ensures within { IfSome result (λ point. point < at.point) }
{
    if row.thread == at.thread {
        before(at.point, row.point)
    } else {
        None
    }
}

/// The row that the report names of a byte at a point of a thread, where it is the thread's own.
fn row_before<F: Findings>(findings: &F, at: ThreadPoint, address: u32) -> Option<u32>
    requires { IsThreadPoint (F.shown findings.now) at }
    ensures value { result ≡ row_before (F.shown findings.now) at address }
    ensures within { IfSome result (λ row. row < at.point) }
{
    match named_row(writer_at(findings, at, address)) {
        Some(row) => own_before(at, findings.point(row)),
        None => None,
    }
}

/// The rows that write a byte before a point of a thread, or may, from the newest one on, 256 at
/// most: a line of each, as a session tells it, and one where no row of this thread is named.
pub fn writers_text<F: Findings>(
    alloc: Global,
    findings: &F,
    at: ThreadPoint,
    address: u32,
) -> Result<Text, OutOfMemory>
    requires { IsThreadPoint (F.shown findings.now) at }
    ensures { IfOk result (λ text. text ≡ writers_text (F.shown findings.now) at address) }
{
    let mut text = Text::new(alloc);
    let mut below = at.point;
    for _ in 0..MOST_ROWS {
        let here = point_at(at, below);
        push_line(&mut text, findings, writer_at(findings, here, address))?;
        match row_before(findings, here, address) {
            Some(row) => below = row,
            None => return Ok(text),
        }
    }
    Ok(text)
}
