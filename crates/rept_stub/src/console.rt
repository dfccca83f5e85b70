//! What gdb's console tells of the row at which a move stops.

ghost use Rattle.std.specs.Prelude.{◌≡◌, ◌≤◌, ◌<◌, ◌++◌, codes, length, IfOk, OnOk};
ghost use Rattle.std.specs.Fmt.{decimal};
ghost use Rattle.rept_word.specs.Hex.{hex_word};
ghost use Rattle.rept_findings.specs.Shown.{IsThreadPoint};
ghost use Rattle.rept_findings.specs.Texts.{step_text};
ghost use Rattle.rept_stub.specs.Consoles.{base_at, base_text, console_line, is_back, past, row_told, told_address, unless_known, writer_told};

use rept_findings::findings::number_of;
use rept_findings::{Findings, ThreadPoint, push_thread_named};
use rept_isa::{Reg, reads};
use rept_remote::{
    MoveEnd, Movement, StopReason, is_stepped_over, last_point, point_at, writer_at,
};
use rept_report::Writer;
use rept_word::{OutOfMemory, Text};
use std::alloc::Global;

/// The line of the row at which a move of a thread stops: whether it surely writes the watched
/// byte, and which register of its address isn't known. Of any other stop it is empty.
pub fn console_line<F: Findings>(
    alloc: Global,
    findings: &F,
    way: Movement,
    thread: u32,
    end: MoveEnd,
) -> Result<Text, OutOfMemory>
    requires thread { thread < (F.shown findings.now).threads }
    requires within { end.point ≤ length ((F.shown findings.now).rows thread) }
    ensures { IfOk result (λ text. text ≡ console_line (F.shown findings.now) way thread end) }
{
    let last = last_point(findings, thread);
    let point = past(way, end, last);
    let mut text = Text::new(alloc);
    if point > last {
        return Ok(text);
    }
    if let Some(address) = told_address(end.stop) {
        let at = ThreadPoint { thread, point };
        push_writer(
            &mut text,
            findings,
            address,
            writer_at(findings, at, address),
        )?;
    }
    Ok(text)
}

/// The byte of which gdb itself tells no change.
fn told_address(stop: StopReason) -> Option<u32>
    ensures { result ≡ told_address stop }
{
    match stop {
        StopReason::Access(address) | StopReason::Unseen(address) => Some(address),
        _ => None,
    }
}

fn is_back(way: Movement) -> bool
    ensures { result ≡ is_back way }
{
    matches!(way, Movement::StepBack | Movement::ContinueBack)
}

/// The point after the row at which a move stops. `last` is the last one of the thread.
fn past(way: Movement, end: MoveEnd, last: u32) -> u32
    requires within { end.point ≤ last }
    requires few { last ≤ 65536 }
    ensures { result ≡ past way end }
{
    if is_back(way) == is_stepped_over(end.stop) {
        end.point
    } else {
        end.point + 1
    }
}

/// What is told of a row that writes a byte, or may.
fn push_writer<F: Findings>(
    text: &mut Text,
    findings: &F,
    address: u32,
    writer: Writer,
) -> Result<(), OutOfMemory>
    ensures { OnOk result (text.new ≡ text.old ++ writer_told (F.shown findings.now) address writer) }
{
    match writer {
        Writer::Writes(row) => {
            push_row(text, findings, b" writes ", address, row)?;
            text.push(b"\n")?;
            Ok(())
        }
        Writer::MayWrite(row) => {
            push_row(text, findings, b" may write ", address, row)?;
            push_base(text, base_at(findings, findings.point(row)))?;
            text.push(b"\n")?;
            Ok(())
        }
        Writer::Several | Writer::None => Ok(()),
    }
}

fn push_row<F: Findings>(
    text: &mut Text,
    findings: &F,
    words: &[u8],
    address: u32,
    row: u32,
) -> Result<(), OutOfMemory>
    ensures { OnOk result (text.new ≡ text.old ++ row_told (F.shown findings.now) words.now address row) }
{
    let step = findings.point(row);
    text.push(b"step ")?;
    text.push_decimal(step.point)?;
    push_thread_named(text, findings.threads(), step.thread)?;
    text.push(words)?;
    text.push_word(address)?;
    Ok(())
}

/// The register from which the address of a step's access is reckoned, unless it is known there.
fn base_at<F: Findings>(findings: &F, step: ThreadPoint) -> Option<Reg>
    ensures { result ≡ base_at (F.shown findings.now) step }
{
    if step.thread >= findings.threads() {
        return None;
    }
    match findings.rows(step.thread).get(step.point as usize) {
        Some(row) => unless_known(findings, step, reads(&row.instr).0),
        None => None,
    }
}

/// A register, unless it is known at a point.
fn unless_known<F: Findings>(findings: &F, at: ThreadPoint, register: Option<Reg>) -> Option<Reg>
    requires { IsThreadPoint (F.shown findings.now) at }
    ensures { result ≡ unless_known (F.shown findings.now) at register }
{
    match register {
        Some(register) => {
            if findings.reg(number_of(findings, at), register).is_some() {
                None
            } else {
                Some(register)
            }
        }
        None => None,
    }
}

fn push_base(text: &mut Text, register: Option<Reg>) -> Result<(), OutOfMemory>
    ensures { OnOk result (text.new ≡ text.old ++ base_text register) }
{
    match register {
        Some(register) => push_unknown(text, u32::from(register.number())),
        None => Ok(()),
    }
}

fn push_unknown(text: &mut Text, register: u32) -> Result<(), OutOfMemory>
    ensures { OnOk result (text.new ≡ text.old ++ (codes ": the address in x" ++ decimal register ++ codes " isn't known")) }
{
    text.push(b": the address in x")?;
    text.push_decimal(register)?;
    text.push(b" isn't known")?;
    Ok(())
}
