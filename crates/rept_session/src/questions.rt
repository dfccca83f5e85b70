//! Answers to questions.

ghost use Rattle.std.specs.Prelude.{◌≡◌, IfOk};
ghost use Rattle.rept_session.specs.Help.{help_text};
ghost use Rattle.rept_findings.specs.Shown.{IsThreadPoint};
ghost use Rattle.rept_session.specs.Texts.{IsAnswered, pc_line, recent_lines};

use crate::help::help_text;
use crate::question::Question;
use rept_findings::findings::address_at;
use rept_findings::lines::step_texts;
use rept_findings::pieces::premises_text;
use rept_findings::{Findings, ThreadPoint};
use rept_questions::calls::calls_text;
use rept_questions::lost::{byte_lost, register_lost};
use rept_questions::rows::{around_text, at_text};
use rept_questions::spots::{find_text, visits_text};
use rept_questions::trail_text::{byte_from, register_from};
use rept_questions::writers::{SoughtBytes, writers_text};
use rept_word::{OutOfMemory, Text};
use std::alloc::Global;

/// How many steps `list` tells that names none.
const RECENT_STEPS: u32 = 16;

/// The text that answers a question at a point.
pub fn question_text<F: Findings>(
    alloc: Global,
    findings: &F,
    at: ThreadPoint,
    question: Question,
) -> Result<Text, OutOfMemory>
    requires { IsThreadPoint (F.shown findings.now) at }
    ensures { IfOk result (IsAnswered (F.shown findings.now) at question) }
{
    match question {
        Question::At => at_text(alloc, findings, at),
        Question::Around(count) => around_text(alloc, findings, at, count),
        Question::Visits(address) => visits_text(alloc, findings, at, address),
        Question::Find { register, value } => find_text(alloc, findings, at, register, value),
        Question::Pc => pc_text(alloc, findings, at),
        Question::Recent => recent_text(alloc, findings, at),
        Question::FromRegister(register) => register_from(alloc, findings, at, register),
        Question::FromByte(address) => byte_from(alloc, findings, at, address),
        Question::Writers { address, count } => {
            writers_text(alloc, findings, at, SoughtBytes { address, count })
        }
        Question::Premises => premises_text(alloc, findings.beyond()),
        Question::Calls(count) => calls_text(alloc, findings, at, count),
        Question::LostRegister(register) => register_lost(alloc, findings, at, register),
        Question::LostByte(address) => byte_lost(alloc, findings, at, address),
        Question::Help => whole_help(alloc),
    }
}

fn pc_text<F: Findings>(alloc: Global, findings: &F, at: ThreadPoint) -> Result<Text, OutOfMemory>
    requires { IsThreadPoint (F.shown findings.now) at }
    ensures { IfOk result (λ text. text ≡ pc_line (F.shown findings.now) at) }
{
    let pc = address_at(findings, at);
    let mut text = Text::new(alloc);
    text.push(b"pc ")?;
    text.push_word(pc)?;
    text.push(b"\n")?;
    Ok(text)
}

/// The last steps before a point.
fn recent_text<F: Findings>(
    alloc: Global,
    findings: &F,
    at: ThreadPoint,
) -> Result<Text, OutOfMemory>
    requires { IsThreadPoint (F.shown findings.now) at }
    ensures { IfOk result (λ text. text ≡ recent_lines (F.shown findings.now) at) }
{
    let first = at.point.saturating_sub(RECENT_STEPS);
    step_texts(alloc, findings.rows(at.thread), first, at.point - first)
}

fn whole_help(alloc: Global) -> Result<Text, OutOfMemory>
    ensures { IfOk result (λ text. text ≡ help_text) }
{
    let mut text = Text::new(alloc);
    text.push(help_text())?;
    Ok(text)
}
