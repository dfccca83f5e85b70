//! Answers that tell why something is known.

ghost use Rattle.std.specs.Prelude.{◌≡◌, ◌≢◌, ℕ, ◌<◌, ◌++◌, false, IfOk, OnOk, Some};
ghost use Rattle.std.specs.List.{flat_map};
ghost use Rattle.rept_reason.specs.declared.fact.Cell.TheVariants.{Byte, Register};
ghost use Rattle.rept_findings.specs.Shown.{IsThreadPoint, explained, known_value, number, places_of, session_told};
ghost use Rattle.rept_findings.specs.Texts.{looked_line, premise_line};
ghost use Rattle.rept_questions.specs.Texts.{IsByteExplained, IsExplained, IsReasoned, IsRegisterExplained, IsRuled, byte_row, reason_lines, register_row};

use crate::trail::register_source;
use rept_findings::findings::{moment_of, number_of};
use rept_findings::pieces::{push_looked, push_numbered, push_premise, push_rule};
use rept_findings::{BeyondRule, Findings, ThreadPoint};
use rept_isa::Reg;
use rept_reason::{Cell, Fact, RangePremise, Reason};
use rept_report::Writer;
use rept_word::{OutOfMemory, Text};
use std::alloc::Global;

/// Why a register's value is known at a point.
pub fn why_register<F: Findings>(
    alloc: Global,
    findings: &F,
    at: ThreadPoint,
    register: Reg,
) -> Result<Text, OutOfMemory>
    requires { IsThreadPoint (F.shown findings.now) at }
    ensures text { (skipped : ℕ) → IfOk result (IsRegisterExplained (session_told (F.shown findings.now) skipped (F.reasons findings.now)) at register) }
{
    if register.number() == 0 {
        return whole_text(alloc, b"constant\n");
    }
    why_value(alloc, findings, at, register)
}

/// Why a register other than x0 has its value at a point.
fn why_value<F: Findings>(
    alloc: Global,
    findings: &F,
    at: ThreadPoint,
    register: Reg,
) -> Result<Text, OutOfMemory>
    requires point { IsThreadPoint (F.shown findings.now) at }
    requires named { register ≢ 0 }
    ensures text { (skipped : ℕ) → IfOk result (IsExplained (session_told (F.shown findings.now) skipped (F.reasons findings.now)) (register_row (F.shown findings.now) at register) (number (F.shown findings.now) at) (Register register) ((F.shown findings.now).register (number (F.shown findings.now) at) register)) }
{
    let row = register_row(findings, at, register);
    let point = number_of(findings, at);
    match findings.reg(point, register) {
        Some(value) => {
            let fact = Fact {
                point,
                cell: Cell::Register(register),
                value,
            };
            explain(alloc, findings, row, fact)
        }
        None => whole_text(alloc, b"unknown\n"),
    }
}

/// The step that left a register's value at a point; 0 where none wrote it.
fn register_row<F: Findings>(findings: &F, at: ThreadPoint, register: Reg) -> u32
    requires { IsThreadPoint (F.shown findings.now) at }
    ensures { result ≡ register_row (F.shown findings.now) at register }
{
    match register_source(findings.rows(at.thread), at.point, register) {
        Some(step) => step,
        None => 0,
    }
}

/// Why the byte at an address is known at a point.
pub fn why_byte<F: Findings>(
    alloc: Global,
    findings: &F,
    at: ThreadPoint,
    address: u32,
) -> Result<Text, OutOfMemory>
    requires { IsThreadPoint (F.shown findings.now) at }
    ensures text { (skipped : ℕ) → IfOk result (IsByteExplained (session_told (F.shown findings.now) skipped (F.reasons findings.now)) at address) }
{
    let moment = moment_of(findings, at);
    let row = byte_row(findings, moment, address);
    match findings.byte(moment, address) {
        Some(value) => {
            let fact = Fact {
                point: moment,
                cell: Cell::Byte(address),
                value: u32::from(value),
            };
            explain(alloc, findings, row, fact)
        }
        None => whole_text(alloc, b"unknown\n"),
    }
}

/// The step that is named as the last writer of a byte at a moment; 0 where none is.
fn byte_row<F: Findings>(findings: &F, moment: u32, address: u32) -> u32
    requires { moment < (F.shown findings.now).moments }
    ensures { result ≡ byte_row (F.shown findings.now) moment address }
{
    match findings.writer(moment, address) {
        Writer::Writes(step) | Writer::MayWrite(step) => findings.point(step).point,
        Writer::Several | Writer::None => 0,
    }
}

/// A text that is known as a whole.
fn whole_text(alloc: Global, words: &[u8]) -> Result<Text, OutOfMemory>
    ensures { IfOk result (λ text. text ≡ words.now) }
{
    let mut text = Text::new(alloc);
    text.push(words)?;
    Ok(text)
}

/// Why a known fact holds that a step left: it was inferred, or has a reason.
fn explain<F: Findings>(
    alloc: Global,
    findings: &F,
    row: u32,
    fact: Fact,
) -> Result<Text, OutOfMemory>
    requires place { fact.point < places_of (F.shown findings.now) fact.cell }
    requires named { fact.cell ≢ Register 0 }
    requires known { known_value (F.shown findings.now) fact.point fact.cell ≡ Some fact.value }
    ensures text { (skipped : ℕ) → IfOk result (IsExplained (session_told (F.shown findings.now) skipped (F.reasons findings.now)) row fact.point fact.cell (Some fact.value)) }
{
    if findings.is_inferred(fact.point, fact.cell) {
        return rule_text(alloc, row, findings.rule(fact.point, fact.cell));
    }
    explain_reported(alloc, findings, fact)
}

/// The line of a value that was inferred beyond the report.
fn rule_text(alloc: Global, row: u32, rule: BeyondRule) -> Result<Text, OutOfMemory>
    ensures { IfOk result (IsRuled row) }
{
    let mut text = Text::new(alloc);
    push_rule(&mut text, row, rule)?;
    Ok(text)
}

/// A reason of a known fact of the report.
fn explain_reported<F: Findings>(
    alloc: Global,
    findings: &F,
    fact: Fact,
) -> Result<Text, OutOfMemory>
    requires place { fact.point < places_of (F.shown findings.now) fact.cell }
    requires named { fact.cell ≢ Register 0 }
    requires known { known_value (F.shown findings.now) fact.point fact.cell ≡ Some fact.value }
    requires reported { (F.shown findings.now).is_inferred fact.point fact.cell ≡ false }
    ensures text { (skipped : ℕ) → IfOk result (IsReasoned (session_told (F.shown findings.now) skipped (F.reasons findings.now)) fact) }
{
    match findings.why(alloc, fact)? {
        Some(reason) => reason_text(alloc, findings, &reason),
        None => unreachable!(),
    }
}

fn reason_text<F: Findings>(
    alloc: Global,
    findings: &F,
    reason: &Reason,
) -> Result<Text, OutOfMemory>
    ensures { IfOk result (λ text. text ≡ reason_lines (F.shown findings.now) (explained reason.now)) }
{
    let mut text = Text::new(alloc);
    push_numbered(&mut text, b"rule ", u32::from(reason.rule))?;
    text.push(b"\n")?;
    push_premises(&mut text, findings, reason.premises.as_slice())?;
    push_ranges(&mut text, findings, reason.ranges.as_slice())?;
    Ok(text)
}

fn push_premises<F: Findings>(
    text: &mut Text,
    findings: &F,
    premises: &[Fact],
) -> Result<(), OutOfMemory>
    ensures { OnOk result (text.new ≡ text.old ++ flat_map (premise_line (F.shown findings.now)) premises.now) }
{
    for premise in premises {
        push_premise(text, findings, premise)?;
    }
    Ok(())
}

fn push_ranges<F: Findings>(
    text: &mut Text,
    findings: &F,
    ranges: &[RangePremise],
) -> Result<(), OutOfMemory>
    ensures { OnOk result (text.new ≡ text.old ++ flat_map (looked_line (F.shown findings.now)) ranges.now) }
{
    for looked in ranges {
        push_looked(text, findings, looked)?;
    }
    Ok(())
}
