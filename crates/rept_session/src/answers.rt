//! Answering a command.

ghost use Rattle.std.specs.Prelude.{◌≡◌, ℕ, ◌<◌, ◌≤◌, ◌++◌, false, length, IfOk, OnOk};
ghost use Rattle.rept_session.specs.Commands.{IsCommandWithin};
ghost use Rattle.rept_session.specs.Session.{IsReply, cursor_of, ends, said_at};
ghost use Rattle.rept_findings.specs.Shown.{IsThreadPoint, session_told};
ghost use Rattle.rept_findings.specs.Texts.{register_line};
ghost use Rattle.rept_session.specs.Texts.{IsText, cursor_after, is_quit, last_of, point_after, point_line, range_line, refusal_line, registers_line, steps_line, stores_line, summary_lines, thread_lines};

use crate::command::{BadCommand, Command};
use crate::parser::parse;
use crate::questions::question_text;
use crate::reply::Answer;
use rept_findings::findings::{address_at, moment_of, number_of};
use rept_findings::lines::{memory_text, register_texts, step_texts, writer_text};
use rept_findings::pieces::{push_beyond, push_note, push_numbered, push_range, push_value};
use rept_findings::{Findings, ThreadPoint};
use rept_isa::Reg;
use rept_questions::reasons::{why_byte, why_register};
use rept_questions::stack::stack_text;
use rept_report::Counts;
use rept_word::{OutOfMemory, Text};
use std::alloc::Global;

/// The answer to a command at a cursor. `skipped` is the count of packets that the path was read
/// without.
///
/// The only refusal is out of memory.
pub fn answer<F: Findings>(
    alloc: Global,
    findings: &F,
    skipped: u32,
    cursor: ThreadPoint,
    command: &Command,
) -> Result<Answer, OutOfMemory>
    requires cursor { IsThreadPoint (F.shown findings.now) cursor }
    requires command { IsCommandWithin (length ((F.shown findings.now).rows cursor.thread)) (F.shown findings.now).threads command.now }
    ensures text { IfOk result (λ answer. IsText (session_told (F.shown findings.now) skipped (F.reasons findings.now)) answer.cursor command.now answer.text) }
    ensures cursor { IfOk result (λ answer. answer.cursor ≡ cursor_after (F.shown findings.now) cursor command.now) }
    ensures within { IfOk result (λ answer. IsThreadPoint (F.shown findings.now) answer.cursor) }
    ensures quit { IfOk result (λ answer. answer.quit ≡ is_quit command.now) }
{
    let moved = next_cursor(findings, cursor, command);
    let text = text_of(alloc, findings, skipped, moved, command)?;
    Ok(Answer {
        cursor: moved,
        text,
        quit: is_quit(command),
    })
}

/// The answer to a line at a cursor: that to its command, or `? N` for a line that is none, which
/// leaves the cursor where it is.
///
/// The only refusal is out of memory.
pub fn answer_line<F: Findings>(
    alloc: Global,
    findings: &F,
    skipped: u32,
    cursor: ThreadPoint,
    line: &[u8],
) -> Result<Answer, OutOfMemory>
    requires { IsThreadPoint (F.shown findings.now) cursor }
    ensures text { IfOk result (λ answer. IsReply (session_told (F.shown findings.now) skipped (F.reasons findings.now)) cursor (said_at (F.shown findings.now) cursor line.now) answer.text) }
    ensures cursor { IfOk result (λ answer. answer.cursor ≡ cursor_of (F.shown findings.now) cursor (said_at (F.shown findings.now) cursor line.now)) }
    ensures within { IfOk result (λ answer. IsThreadPoint (F.shown findings.now) answer.cursor) }
    ensures quit { IfOk result (λ answer. answer.quit ≡ ends (said_at (F.shown findings.now) cursor line.now)) }
{
    let last = findings.rows(cursor.thread).len() as u32;
    let threads = findings.threads();
    match parse(findings, line, last, threads) {
        Ok(command) => answer(alloc, findings, skipped, cursor, &command),
        Err(refusal) => refuse(alloc, cursor, refusal),
    }
}

/// The answer to a line that is no command, with the cursor where it was.
fn refuse(alloc: Global, cursor: ThreadPoint, refusal: BadCommand) -> Result<Answer, OutOfMemory>
    ensures text { IfOk result (λ answer. answer.text ≡ refusal_line refusal) }
    ensures cursor { IfOk result (λ answer. answer.cursor ≡ cursor) }
    ensures quit { IfOk result (λ answer. answer.quit ≡ false) }
{
    let text = refusal_text(alloc, refusal)?;
    Ok(Answer {
        cursor,
        text,
        quit: false,
    })
}

/// The text that answers a line that is no command: `? N`.
pub fn refusal_text(alloc: Global, refusal: BadCommand) -> Result<Text, OutOfMemory>
    ensures { IfOk result (λ text. text ≡ refusal_line refusal) }
{
    let mut text = Text::new(alloc);
    push_numbered(&mut text, b"? ", refusal.number())?;
    text.push(b"\n")?;
    Ok(text)
}

/// The cursor after a command.
fn next_cursor<F: Findings>(findings: &F, cursor: ThreadPoint, command: &Command) -> ThreadPoint
    requires cursor { IsThreadPoint (F.shown findings.now) cursor }
    requires command { IsCommandWithin (length ((F.shown findings.now).rows cursor.thread)) (F.shown findings.now).threads command.now }
    ensures value { result ≡ cursor_after (F.shown findings.now) cursor command.now }
    ensures within { IsThreadPoint (F.shown findings.now) result }
{
    match command {
        Command::Thread(thread) => last_of(findings, *thread),
        _ => ThreadPoint {
            thread: cursor.thread,
            point: next_point(
                findings.rows(cursor.thread).len() as u32,
                cursor.point,
                command,
            ),
        },
    }
}

/// The last point of a thread, at which a session is first, and after `thread`.
pub fn last_of<F: Findings>(findings: &F, thread: u32) -> ThreadPoint
    requires { thread < (F.shown findings.now).threads }
    ensures value { result ≡ last_of (F.shown findings.now) thread }
    ensures within { IsThreadPoint (F.shown findings.now) result }
{
    ThreadPoint {
        thread,
        point: findings.rows(thread).len() as u32,
    }
}

/// The point after a command that leaves the cursor in its thread.
fn next_point(last: u32, point: u32, command: &Command) -> u32
    requires point { point ≤ last }
    requires command { (threads : ℕ) → IsCommandWithin last threads command.now }
    ensures value { result ≡ point_after last point command.now }
    ensures within { result ≤ last }
{
    match command {
        Command::Back(count) => point.saturating_sub(*count),
        Command::Fwd(count) => point.saturating_add(*count).min(last),
        Command::Goto(goal) => *goal,
        _ => point,
    }
}

fn is_quit(command: &Command) -> bool
    ensures { result ≡ is_quit command.now }
{
    match command {
        Command::Quit => true,
        _ => false,
    }
}

/// The text that answers a command, with the cursor after it.
fn text_of<F: Findings>(
    alloc: Global,
    findings: &F,
    skipped: u32,
    at: ThreadPoint,
    command: &Command,
) -> Result<Text, OutOfMemory>
    requires cursor { IsThreadPoint (F.shown findings.now) at }
    requires command { IsCommandWithin (length ((F.shown findings.now).rows at.thread)) (F.shown findings.now).threads command.now }
    ensures text { IfOk result (λ text. IsText (session_told (F.shown findings.now) skipped (F.reasons findings.now)) at command.now text) }
{
    match command {
        Command::Where | Command::Back(_) | Command::Fwd(_) | Command::Goto(_) => {
            point_text(alloc, findings, at)
        }
        Command::Thread(_) => thread_text(alloc, findings, at),
        Command::Regs => register_texts(alloc, findings, number_of(findings, at)),
        Command::Reg(register) => {
            register_text(alloc, findings, number_of(findings, at), *register)
        }
        Command::Range(register) => range_text(alloc, findings, number_of(findings, at), *register),
        Command::Mem { address, count } => {
            memory_text(alloc, findings, moment_of(findings, at), *address, *count)
        }
        Command::Writer(address) => {
            writer_text(alloc, findings, moment_of(findings, at), *address)
        }
        Command::WhyReg(register) => { why_register(alloc, findings, at, *register) }
        Command::WhyByte(address) => { why_byte(alloc, findings, at, *address) }
        Command::List { first, count } => {
            step_texts(alloc, findings.rows(at.thread), *first, *count)
        }
        Command::Stack => stack_text(alloc, findings, at),
        Command::Summary => summary_text(alloc, findings, skipped),
        Command::Quit | Command::Nothing => Ok(Text::new(alloc)),
        Command::Ask(question) => question_text(alloc, findings, at, *question),
    }
}

fn point_text<F: Findings>(
    alloc: Global,
    findings: &F,
    at: ThreadPoint,
) -> Result<Text, OutOfMemory>
    requires { IsThreadPoint (F.shown findings.now) at }
    ensures { IfOk result (λ text. text ≡ point_line (F.shown findings.now) at) }
{
    let mut text = Text::new(alloc);
    push_point(&mut text, findings, at)?;
    Ok(text)
}

/// The lines of a thread's process and of its point.
fn thread_text<F: Findings>(
    alloc: Global,
    findings: &F,
    at: ThreadPoint,
) -> Result<Text, OutOfMemory>
    requires { IsThreadPoint (F.shown findings.now) at }
    ensures { IfOk result (λ text. text ≡ thread_lines (F.shown findings.now) at) }
{
    let mut text = Text::new(alloc);
    push_numbered(&mut text, b"thread ", at.thread)?;
    push_numbered(&mut text, b" pid ", findings.process(at.thread))?;
    text.push(b"\n")?;
    push_point(&mut text, findings, at)?;
    Ok(text)
}

fn push_point<F: Findings>(
    text: &mut Text,
    findings: &F,
    at: ThreadPoint,
) -> Result<(), OutOfMemory>
    requires { IsThreadPoint (F.shown findings.now) at }
    ensures { OnOk result (text.new ≡ text.old ++ point_line (F.shown findings.now) at) }
{
    let last = findings.rows(at.thread).len() as u32;
    let pc = address_at(findings, at);
    push_numbered(text, b"point ", at.point)?;
    push_numbered(text, b" of ", last)?;
    text.push(b" pc ")?;
    text.push_word(pc)?;
    text.push(b"\n")?;
    Ok(())
}

fn register_text<F: Findings>(
    alloc: Global,
    findings: &F,
    point: u32,
    register: Reg,
) -> Result<Text, OutOfMemory>
    requires { point < (F.shown findings.now).points }
    ensures { IfOk result (λ text. text ≡ register_line (F.shown findings.now) point register) }
{
    let value = findings.reg(point, register);
    let mut text = Text::new(alloc);
    push_value(&mut text, register, value)?;
    Ok(text)
}

fn range_text<F: Findings>(
    alloc: Global,
    findings: &F,
    point: u32,
    register: Reg,
) -> Result<Text, OutOfMemory>
    requires { point < (F.shown findings.now).points }
    ensures { IfOk result (λ text. text ≡ range_line (F.shown findings.now) point register) }
{
    let range = findings.range(point, register);
    let note = findings.note(point, register);
    let mut text = Text::new(alloc);
    push_range(&mut text, register, range)?;
    push_note(&mut text, note)?;
    text.push(b"\n")?;
    Ok(text)
}

fn summary_text<F: Findings>(alloc: Global, findings: &F, skipped: u32) -> Result<Text, OutOfMemory>
    ensures { IfOk result (λ text. text ≡ summary_lines (F.shown findings.now) skipped) }
{
    let points = findings.points();
    let counts = findings.counts();
    let mut text = Text::new(alloc);
    push_steps(&mut text, &counts, skipped)?;
    push_registers(&mut text, counts.registers, 31 * points)?;
    push_stores(&mut text, &counts)?;
    push_beyond(&mut text, findings.beyond())?;
    Ok(text)
}

fn push_steps(text: &mut Text, counts: &Counts, skipped: u32) -> Result<(), OutOfMemory>
    ensures { OnOk result (text.new ≡ text.old ++ steps_line counts.now skipped) }
{
    push_numbered(text, b"steps ", counts.steps)?;
    push_numbered(text, b" calls ", counts.calls)?;
    push_numbered(text, b" skipped ", skipped)?;
    text.push(b"\n")?;
    Ok(())
}

fn push_registers(text: &mut Text, known: u32, all: u32) -> Result<(), OutOfMemory>
    ensures { OnOk result (text.new ≡ text.old ++ registers_line known all) }
{
    push_numbered(text, b"registers ", known)?;
    push_numbered(text, b" of ", all)?;
    text.push(b"\n")?;
    Ok(())
}

fn push_stores(text: &mut Text, counts: &Counts) -> Result<(), OutOfMemory>
    ensures { OnOk result (text.new ≡ text.old ++ stores_line counts.now) }
{
    push_numbered(text, b"stores ", counts.exact)?;
    push_numbered(text, b" exact ", counts.inexact)?;
    text.push(b" inexact\n")?;
    Ok(())
}
