//! Threads by the names that packets give them, and what is answered about them.

ghost use Rattle.std.specs.Prelude.{◌≡◌, ◌-◌, ◌<◌, ◌∷◌, ◌++◌, codes, IfOk, IfSome, OnOk};
ghost use Rattle.std.specs.List.{flat_map, range_with_len};
ghost use Rattle.std.specs.Option.{unwrap_or};
ghost use Rattle.rept_findings.specs.Shown.{IsThreadPoint};
ghost use Rattle.rept_word.specs.Hex.{hex_byte};
ghost use Rattle.rept_stub.specs.Signals.{debugger_signal};
ghost use Rattle.rept_stub.specs.Standing.{IsStandLawful, is_alone, moving_thread, named_thread, thread_of};
ghost use Rattle.rept_stub.specs.Threads.{about, about_reply, cursor_words, is_crash, number_text, reason_reply, stop_reply, there_reply, thread_part, thread_reply, threads_reply};

use crate::answers::Stand;
use crate::pieces::{push_big, push_digits, push_named, push_signal, push_stop, whole};
use crate::signal::debugger_signal;
use rept_findings::{Findings, ThreadPoint};
use rept_remote::{StopReason, ThreadName};
use rept_word::{OutOfMemory, Text};
use std::alloc::Global;

/// Whether a run has one thread.
fn is_alone<F: Findings>(findings: &F) -> bool
    ensures { result ≡ is_alone (F.shown findings.now) }
{
    findings.threads() <= 1
}

/// The thread that a packet names which is no move. None where no thread has the name.
pub fn named_thread<F: Findings>(findings: &F, stand: &Stand, name: ThreadName) -> Option<u32>
    requires { IsStandLawful (F.shown findings.now) stand.now }
    ensures value { result ≡ named_thread (F.shown findings.now) stand.now name }
    ensures within { IfSome result (λ thread. thread < (F.shown findings.now).threads) }
{
    if is_alone(findings) {
        return Some(stand.thread);
    }
    match name {
        ThreadName::Selected | ThreadName::Any => Some(stand.thread),
        ThreadName::One(process) => thread_of(findings, process),
        ThreadName::Unreadable => None,
    }
}

/// The thread that a move names. None where no thread has the name.
pub fn moving_thread<F: Findings>(findings: &F, stand: &Stand, name: ThreadName) -> Option<u32>
    requires { IsStandLawful (F.shown findings.now) stand.now }
    ensures value { result ≡ moving_thread (F.shown findings.now) stand.now name }
    ensures within { IfSome result (λ thread. thread < (F.shown findings.now).threads) }
{
    if is_alone(findings) {
        return Some(stand.thread);
    }
    match name {
        ThreadName::Selected => Some(mover(stand)),
        ThreadName::Any => Some(stand.stopped),
        ThreadName::One(process) => thread_of(findings, process),
        ThreadName::Unreadable => None,
    }
}

/// The thread that was selected for moves, or else the one that stopped last.
fn mover(stand: &Stand) -> u32
    ensures { result ≡ unwrap_or stand.now.moving stand.now.stopped }
{
    stand.moving.unwrap_or(stand.stopped)
}

/// The first thread of a process.
fn thread_of<F: Findings>(findings: &F, process: u32) -> Option<u32>
    ensures value { result ≡ thread_of (F.shown findings.now) process }
    ensures within { IfSome result (λ thread. thread < (F.shown findings.now).threads) }
{
    for thread in 0..findings.threads() {
        if findings.process(thread) == process {
            return Some(thread);
        }
    }
    None
}

/// The number of a thread.
fn push_number<F: Findings>(text: &mut Text, findings: &F, thread: u32) -> Result<(), OutOfMemory>
    requires { thread < (F.shown findings.now).threads }
    ensures { OnOk result (text.new ≡ text.old ++ number_text (F.shown findings.now) thread) }
{
    if is_alone(findings) {
        text.push(b"1")
    } else {
        push_big(text, findings.process(thread))
    }
}

/// The thread of a stop, in a run of several.
fn push_part<F: Findings>(text: &mut Text, findings: &F, thread: u32) -> Result<(), OutOfMemory>
    requires { thread < (F.shown findings.now).threads }
    ensures { OnOk result (text.new ≡ text.old ++ thread_part (F.shown findings.now) thread) }
{
    if is_alone(findings) {
        return Ok(());
    }
    push_named(text, b"thread:", findings.process(thread))
}

/// Where a line of the debugger's user is asked, in a run of several threads.
pub fn cursor_words<F: Findings>(
    alloc: Global,
    findings: &F,
    at: ThreadPoint,
) -> Result<Text, OutOfMemory>
    ensures { IfOk result (λ text. text ≡ cursor_words (F.shown findings.now) at) }
{
    let mut text = Text::new(alloc);
    if is_alone(findings) {
        return Ok(text);
    }
    text.push(b"thread ")?;
    text.push_decimal(at.thread)?;
    text.push(b" point ")?;
    text.push_decimal(at.point)?;
    text.push(b"\n")?;
    Ok(text)
}

/// Whether a move forward came to the crash: to the last point of thread 0, where there is a
/// signal.
fn is_crash(signal: u16, thread: u32, stop: StopReason) -> bool
    ensures { result ≡ is_crash signal thread stop }
{
    match stop {
        StopReason::End => thread == 0 && signal > 0,
        _ => false,
    }
}

/// Why a move stopped: at the crash by the signal that ended the process.
pub fn stop_text<F: Findings>(
    alloc: Global,
    findings: &F,
    signal: u16,
    thread: u32,
    stop: StopReason,
) -> Result<Text, OutOfMemory>
    requires { thread < (F.shown findings.now).threads }
    ensures { IfOk result (λ text. text ≡ stop_reply (F.shown findings.now) signal thread stop) }
{
    if is_crash(signal, thread, stop) {
        return crash_text(alloc, findings, signal, thread);
    }
    let mut text = Text::new(alloc);
    text.push(b"T05")?;
    push_part(&mut text, findings, thread)?;
    push_stop(&mut text, stop)?;
    Ok(text)
}

/// The signal that ended the process, of a thread.
fn crash_text<F: Findings>(
    alloc: Global,
    findings: &F,
    signal: u16,
    thread: u32,
) -> Result<Text, OutOfMemory>
    requires { thread < (F.shown findings.now).threads }
    ensures { IfOk result (λ text. text ≡ codes "T" ++ hex_byte (debugger_signal signal) ++ thread_part (F.shown findings.now) thread) }
{
    let mut text = Text::new(alloc);
    text.push(b"T")?;
    text.push_byte(debugger_signal(signal))?;
    push_part(&mut text, findings, thread)?;
    Ok(text)
}

/// Why a thread stands where it does.
pub fn reason<F: Findings>(
    alloc: Global,
    findings: &F,
    signal: u16,
    at: ThreadPoint,
) -> Result<Text, OutOfMemory>
    requires { IsThreadPoint (F.shown findings.now) at }
    ensures { IfOk result (λ text. text ≡ reason_reply (F.shown findings.now) signal at) }
{
    let mut text = Text::new(alloc);
    push_signal(&mut text, findings, signal, at)?;
    push_part(&mut text, findings, at.thread)?;
    Ok(text)
}

/// The selected thread.
pub fn thread_text<F: Findings>(
    alloc: Global,
    findings: &F,
    thread: u32,
) -> Result<Text, OutOfMemory>
    requires { thread < (F.shown findings.now).threads }
    ensures { IfOk result (λ text. text ≡ thread_reply (F.shown findings.now) thread) }
{
    let mut text = Text::new(alloc);
    text.push(b"QC")?;
    push_number(&mut text, findings, thread)?;
    Ok(text)
}

/// All threads.
pub fn threads_text<F: Findings>(alloc: Global, findings: &F) -> Result<Text, OutOfMemory>
    ensures { IfOk result (λ text. text ≡ threads_reply (F.shown findings.now)) }
{
    // for the proof alone
    let _threads = findings.threads();
    let mut text = Text::new(alloc);
    text.push(b"m")?;
    push_number(&mut text, findings, 0)?;
    push_others(&mut text, findings)?;
    Ok(text)
}

/// All threads but the first, each after a comma.
fn push_others<F: Findings>(text: &mut Text, findings: &F) -> Result<(), OutOfMemory>
    ensures { OnOk result (text.new ≡ text.old ++ flat_map (λ t. 44 ∷ number_text (F.shown findings.now) t) (range_with_len 1 ((F.shown findings.now).threads - 1))) }
{
    for thread in 1..findings.threads() {
        push_other(text, findings, thread)?;
    }
    Ok(())
}

/// A comma, and a thread.
fn push_other<F: Findings>(text: &mut Text, findings: &F, thread: u32) -> Result<(), OutOfMemory>
    requires { thread < (F.shown findings.now).threads }
    ensures { OnOk result (text.new ≡ text.old ++ (44 ∷ number_text (F.shown findings.now) thread)) }
{
    text.push(b",")?;
    push_number(text, findings, thread)?;
    Ok(())
}

/// A text about a thread.
fn about<F: Findings>(alloc: Global, findings: &F, thread: u32) -> Result<Text, OutOfMemory>
    requires { thread < (F.shown findings.now).threads }
    ensures { IfOk result (λ text. text ≡ about (F.shown findings.now) thread) }
{
    if is_alone(findings) {
        return whole(alloc, b"crashed");
    }
    let mut text = Text::new(alloc);
    text.push(b"thread ")?;
    text.push_decimal(thread)?;
    text.push(b", ")?;
    text.push_decimal(findings.rows(thread).len() as u32)?;
    text.push(b" steps")?;
    Ok(text)
}

/// A text about a thread, as pairs of digits.
pub fn about_text<F: Findings>(
    alloc: Global,
    findings: &F,
    named: Option<u32>,
) -> Result<Text, OutOfMemory>
    requires { IfSome named (λ thread. thread < (F.shown findings.now).threads) }
    ensures { IfOk result (λ text. text ≡ about_reply (F.shown findings.now) named) }
{
    let Some(thread) = named else {
        return whole(alloc, b"E01");
    };
    let words = about(alloc, findings, thread)?;
    let mut text = Text::new(alloc);
    push_digits(&mut text, words.bytes())?;
    Ok(text)
}

/// Whether there is such a thread.
pub fn there_text(alloc: Global, named: Option<u32>) -> Result<Text, OutOfMemory>
    ensures { IfOk result (λ text. text ≡ there_reply named) }
{
    match named {
        Some(_) => whole(alloc, b"OK"),
        None => whole(alloc, b"E01"),
    }
}
