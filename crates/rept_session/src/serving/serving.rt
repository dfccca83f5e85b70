//! The loop over the lines of an input.

ghost use Rattle.std.specs.Prelude.{◌≡◌, false, IfOk, IfSome};
ghost use Rattle.rept_ports.specs.Port.{move};
ghost use Rattle.rept_findings.specs.Shown.{IsThreadPoint, session_told};
ghost use Rattle.rept_session.specs.Texts.{refusal_line};
ghost use Rattle.rept_session.specs.Serving.Kept.{IsKept};
ghost use Rattle.rept_session.specs.Serving.Replies.{IsAnswer, RepliesToLine, said_of_line};
ghost use Rattle.rept_session.specs.Serving.Serving.{Serves, IsServeCaused};

use super::kept::{KeptAnswer, answer_again, keep};
use crate::{Answer, BadCommand, answer_line, last_of, refusal_text};
use rept_findings::{Findings, ThreadPoint};
use rept_ports::{BoundedLines, Line, LineFault, Sink, Source, write_all};
use rept_word::OutOfMemory;
use std::alloc::Global;

/// How a session ended.
#[derive(Clone, Copy, Debug)]
pub enum Served {
    /// At `quit`, or at the end of the input. All answers were written.
    Ended,
    /// The input failed, after the answers to the whole lines of the bytes that were taken.
    ReadFault,
    /// The input has more than 1,048,576 bytes. The whole lines of the first of them were answered.
    TooMuchInput,
    /// The output failed in the answer to a line.
    OutputFault,
    /// There is no memory for the answer to a line. Those to the lines before it were written.
    OutOfMemory,
}

/// What comes after a line.
#[derive(Clone, Copy)]
pub enum Next {
    /// The next line, with the cursor at this point.
    Line(ThreadPoint),
    /// Nothing: the line is `quit`.
    Quit,
    /// The answer can't be written.
    OutputFault,
    /// There is no memory for the answer, and nothing is written.
    OutOfMemory,
}

/// The answer to a line, which has more than 256 bytes where it is long.
fn answer_to<F: Findings>(
    alloc: Global,
    findings: &F,
    skipped: u32,
    cursor: ThreadPoint,
    line: Line<'_>,
) -> Result<Answer, OutOfMemory>
    requires { IsThreadPoint (F.shown findings.now) cursor }
    ensures answer { IfOk result (λ answer. IsAnswer (session_told (F.shown findings.now) skipped (F.reasons findings.now)) cursor (said_of_line line.entry) answer) }
{
    match line {
        Line::Text(text) => answer_line(alloc, findings, skipped, cursor, text),
        Line::Long => long_line(alloc, cursor),
    }
}

/// The answer to a line of more than 256 bytes.
fn long_line(alloc: Global, cursor: ThreadPoint) -> Result<Answer, OutOfMemory>
    ensures text { IfOk result (λ answer. answer.text ≡ refusal_line BadCommand.LongLine) }
    ensures cursor { IfOk result (λ answer. answer.cursor ≡ cursor) }
    ensures quit { IfOk result (λ answer. answer.quit ≡ false) }
{
    let text = refusal_text(alloc, BadCommand::LongLine)?;
    Ok(Answer {
        cursor,
        text,
        quit: false,
    })
}

/// The answer to a line: the one that is kept, where this line was asked at this cursor before.
fn find_answer<F: Findings>(
    alloc: Global,
    findings: &F,
    skipped: u32,
    cursor: ThreadPoint,
    line: Line<'_>,
    kept: Option<KeptAnswer>,
) -> Result<Answer, OutOfMemory>
    requires cursor { IsThreadPoint (F.shown findings.now) cursor }
    requires kept { IfSome kept (IsKept (session_told (F.shown findings.now) skipped (F.reasons findings.now))) }
    ensures answer { IfOk result (λ answer. IsAnswer (session_told (F.shown findings.now) skipped (F.reasons findings.now)) cursor (said_of_line line.entry) answer) }
{
    match answer_again(kept, cursor, line) {
        Some(answer) => Ok(answer),
        None => answer_to(alloc, findings, skipped, cursor, line),
    }
}

/// Writes the answer to a line, and keeps it.
fn reply<F: Findings, K: Sink>(
    alloc: Global,
    findings: &F,
    skipped: u32,
    cursor: ThreadPoint,
    line: Line<'_>,
    kept: &mut Option<KeptAnswer>,
    out: &mut K,
) -> Next
    requires cursor { IsThreadPoint (F.shown findings.now) cursor }
    requires kept { IfSome kept.old (IsKept (session_told (F.shown findings.now) skipped (F.reasons findings.now))) }
    ensures came { RepliesToLine (session_told (F.shown findings.now) skipped (F.reasons findings.now)) cursor (said_of_line line.entry) (move (K.port out.old) (K.port out.new)) result }
    ensures kept { IfSome kept.new (IsKept (session_told (F.shown findings.now) skipped (F.reasons findings.now))) }
{
    let Ok(answer) = find_answer(alloc, findings, skipped, cursor, line, kept.take()) else {
        return Next::OutOfMemory;
    };
    if answer.quit {
        return Next::Quit;
    }
    let next = answer.cursor;
    match write_all(out, answer.text.bytes()) {
        Ok(()) => {
            *kept = keep(alloc, cursor, line, answer);
            Next::Line(next)
        }
        Err(_) => Next::OutputFault,
    }
}

/// Answers the lines of the input, each before the next one is read, with the cursor at the last
/// point of thread 0 first. `skipped` is the count of packets that the path was read without.
pub fn serve<F: Findings, S: Source, K: Sink>(
    alloc: Global,
    findings: &F,
    skipped: u32,
    input: &mut S,
    out: &mut K,
) -> Served
    ensures text { IfSome (S.port input.old).bytes (λ bytes. Serves (session_told (F.shown findings.now) skipped (F.reasons findings.now)) (record { input = bytes; left = (S.port input.new).bytes }) (move (K.port out.old) (K.port out.new)) result) }
    ensures causes { IsServeCaused (move (S.port input.old) (S.port input.new)) (move (K.port out.old) (K.port out.new)) result }
{
    // for the proof alone
    let _threads = findings.threads();
    let mut cursor = last_of(findings, 0);
    let mut lines = BoundedLines::new(input);
    let mut kept = None;
    'session: loop {
        match lines.next_line() {
            Ok(None) => return Served::Ended,
            Ok(Some(line)) => match reply(alloc, findings, skipped, cursor, line, &mut kept, out) {
                Next::Line(next) => cursor = next,
                Next::Quit => return Served::Ended,
                Next::OutputFault => return Served::OutputFault,
                Next::OutOfMemory => return Served::OutOfMemory,
            },
            Err(LineFault::ReadFault) => return Served::ReadFault,
            Err(LineFault::TooMuchInput) => return Served::TooMuchInput,
        }
    }
}
