//! One arrival, and what is written then.

ghost use Rattle.std.specs.Prelude.{◌≡◌, ◌++◌, [], codes, IfOk, OnOk, if◌then◌else◌};
ghost use Rattle.rept_remote.specs.Escapes.{packet_of};
ghost use Rattle.rept_remote.specs.Frames.{arrived};
ghost use Rattle.rept_remote.specs.Frames.Arrived.{packet};
ghost use Rattle.rept_findings.specs.Shown.{session_told};
ghost use Rattle.rept_stub.specs.Standing.{IsStandLawful};
ghost use Rattle.rept_debug.specs.Dialog.Dialog.{IsTurn, acknowledges_after, console_packet, early_at, is_last, sign, written_to};

use crate::dialog::early::EarlyDialog;
use rept_findings::Findings;
use rept_remote::{Arrival, GdbRequest, parse, push_packet};
use rept_stub::{PacketReply, Setting, Stand, answer_packet, push_digits, start};
use rept_word::{OutOfMemory, Text};
use std::alloc::Global;

/// A dialog with a debugger.
#[derive(Drop)]
pub struct Dialog {
    /// where the debugger stands
    pub stand: Stand,
    /// whether packets are acknowledged
    pub acknowledges: bool,
    /// the packet of the last reply, empty where there was none
    pub last: Text,
    /// whether the debugger has left
    pub is_over: bool,
}

/// A dialog of which no report was needed yet over what was found, with each thread's cursor at its
/// last point and without breakpoints. The only refusal is out of memory.
pub fn begin<F: Findings>(
    alloc: Global,
    findings: &F,
    early: &EarlyDialog,
) -> Result<Dialog, OutOfMemory>
    ensures dialog { IfOk result (λ dialog. dialog ≡ early_at (F.shown findings.now) early.now) }
    ensures within { IfOk result (λ dialog. IsStandLawful (F.shown findings.now) dialog.stand) }
{
    let stand = start(alloc, findings)?;
    let last = copy_of(alloc, early.last.bytes())?;
    Ok(Dialog {
        stand,
        acknowledges: early.acknowledges,
        last,
        is_over: false,
    })
}

/// What is written at an arrival. The only refusal is out of memory.
pub fn take_turn<F: Findings>(
    alloc: Global,
    findings: &F,
    setting: Setting<'_>,
    dialog: &mut Dialog,
    arrival: Arrival,
    carried: &[u8],
) -> Result<Text, OutOfMemory>
    requires { IsStandLawful (F.shown findings.now) dialog.old.stand }
    ensures turn { IfOk result (λ text. IsTurn (session_told (F.shown findings.now) setting.entry.skipped (F.reasons findings.now)) setting.entry dialog.old (arrived arrival carried.now) text dialog.new) }
    ensures within { IsStandLawful (F.shown findings.now) dialog.new.stand }
{
    match arrival {
        Arrival::Packet => answer(alloc, findings, setting, dialog, carried),
        Arrival::Broken => signed(alloc, dialog.acknowledges, b"-"),
        Arrival::Large => refuse(alloc, dialog),
        Arrival::Again => signed(alloc, dialog.acknowledges, dialog.last.bytes()),
        Arrival::Interrupt => Ok(Text::new(alloc)),
    }
}

/// The answer to a packet.
fn answer<F: Findings>(
    alloc: Global,
    findings: &F,
    setting: Setting<'_>,
    dialog: &mut Dialog,
    carried: &[u8],
) -> Result<Text, OutOfMemory>
    requires { IsStandLawful (F.shown findings.now) dialog.old.stand }
    ensures turn { IfOk result (λ text. IsTurn (session_told (F.shown findings.now) setting.entry.skipped (F.reasons findings.now)) setting.entry dialog.old (packet carried.now) text dialog.new) }
    ensures within { IsStandLawful (F.shown findings.now) dialog.new.stand }
{
    let request = parse(carried);
    let reply = answer_packet(alloc, findings, setting, &mut dialog.stand, carried)?;
    let written = written_to(alloc, request, &reply)?;
    let text = replied(alloc, dialog.acknowledges, written.bytes())?;
    dialog.acknowledges = acknowledges_after(dialog.acknowledges, request);
    dialog.is_over = is_last(request);
    dialog.last = written;
    Ok(text)
}

/// What is written in reply to a packet, after a line for gdb's console; nothing to `k`.
fn written_to(alloc: Global, request: GdbRequest, reply: &PacketReply) -> Result<Text, OutOfMemory>
    ensures { IfOk result (λ text. text ≡ written_to request reply.now.line reply.now.text) }
{
    match request {
        GdbRequest::Kill => Ok(Text::new(alloc)),
        _ => packets_of(alloc, reply.line.bytes(), reply.text.bytes()),
    }
}

/// The packet of a line for gdb's console, if there is one, and that of a reply.
fn packets_of(alloc: Global, line: &[u8], reply: &[u8]) -> Result<Text, OutOfMemory>
    ensures { IfOk result (λ text. text ≡ console_packet line.now ++ packet_of reply.now) }
{
    let mut text = console_packet(alloc, line)?;
    push_packet(alloc, &mut text, reply)?;
    Ok(text)
}

/// A line for gdb's console; nothing of an empty one.
fn console_packet(alloc: Global, line: &[u8]) -> Result<Text, OutOfMemory>
    ensures { IfOk result (λ text. text ≡ console_packet line.now) }
{
    if line.is_empty() {
        return Ok(Text::new(alloc));
    }
    let mut words = Text::new(alloc);
    words.push(b"O")?;
    push_digits(&mut words, line)?;
    packed(alloc, words.bytes())
}

/// The answer to a packet that is too large.
fn refuse(alloc: Global, dialog: &mut Dialog) -> Result<Text, OutOfMemory>
    ensures text { IfOk result (λ text. text ≡ sign dialog.old (codes "+") ++ packet_of (codes "E01")) }
    ensures dialog { OnOk result (dialog.new ≡ record dialog.old { last = packet_of (codes "E01") }) }
    ensures within { dialog.new.stand ≡ dialog.old.stand }
{
    let written = packed(alloc, b"E01")?;
    let text = replied(alloc, dialog.acknowledges, written.bytes())?;
    dialog.last = written;
    Ok(text)
}

/// A packet that carries these bytes.
pub fn packed(alloc: Global, reply: &[u8]) -> Result<Text, OutOfMemory>
    ensures { IfOk result (λ text. text ≡ packet_of reply.now) }
{
    let mut text = Text::new(alloc);
    push_packet(alloc, &mut text, reply)?;
    Ok(text)
}

pub fn copy_of(alloc: Global, words: &[u8]) -> Result<Text, OutOfMemory>
    ensures { IfOk result (λ text. text ≡ words.now) }
{
    let mut text = Text::new(alloc);
    text.push(words)?;
    Ok(text)
}

/// These words, where packets are acknowledged.
pub fn signed(alloc: Global, acknowledges: bool, words: &[u8]) -> Result<Text, OutOfMemory>
    ensures { IfOk result (λ text. text ≡ (if acknowledges then words.now else [])) }
{
    if acknowledges {
        copy_of(alloc, words)
    } else {
        Ok(Text::new(alloc))
    }
}

/// `+`, where packets are acknowledged, and a packet.
pub fn replied(alloc: Global, acknowledges: bool, written: &[u8]) -> Result<Text, OutOfMemory>
    ensures { IfOk result (λ text. text ≡ (if acknowledges then codes "+" else []) ++ written.now) }
{
    let mut text = signed(alloc, acknowledges, b"+")?;
    text.push(written)?;
    Ok(text)
}

pub fn acknowledges_after(acknowledges: bool, request: GdbRequest) -> bool
    ensures { result ≡ acknowledges_after acknowledges request }
{
    match request {
        GdbRequest::NoAcknowledgments => false,
        _ => acknowledges,
    }
}

fn is_last(request: GdbRequest) -> bool
    ensures { result ≡ is_last request }
{
    matches!(request, GdbRequest::Detach | GdbRequest::Kill)
}
