//! The loop over what arrives.

ghost use Rattle.rept_ports.specs.Port.{move};
ghost use Rattle.rept_findings.specs.Shown.{session_told};
ghost use Rattle.rept_stub.specs.Standing.{IsStandLawful};
ghost use Rattle.rept_debug.specs.Dialog.Converse.{Converses, parties_over};
ghost use Rattle.rept_debug.specs.Dialog.Onward.{AnswersOn, GoesOn};

use crate::dialog::greeting::{Greeting, greet};
use crate::dialog::turn::{Dialog, begin, take_turn};
use rept_findings::Findings;
use rept_ports::{Sink, Source, write_all};
use rept_remote::{Arrival, Ending, GdbPackets};
use rept_stub::Setting;
use std::alloc::Global;

/// How a dialog ended.
#[derive(Clone, Copy, Debug, PartialEq, Eq)]
pub enum SessionEnd {
    /// The debugger left.
    Left,
    /// Nothing arrives any more.
    Ended(Ending),
    /// The output failed.
    OutputFault,
    /// There is no memory for an answer.
    OutOfMemory,
}

/// Answers what arrives, each before the next one is read, with each thread's cursor at its last
/// point first.
pub fn converse<F: Findings, S: Source, K: Sink>(
    alloc: Global,
    findings: &F,
    setting: Setting<'_>,
    input: &mut S,
    out: &mut K,
) -> SessionEnd
    ensures talk { Converses (parties_over (session_told (F.shown findings.now) setting.entry.skipped (F.reasons findings.now)) setting.entry) (move (S.port input.old) (S.port input.new)) (move (K.port out.old) (K.port out.new)) result }
{
    let mut greeting = greet(alloc, input, out);
    go_on(alloc, findings, setting, &mut greeting, input, out)
}

/// Goes on with a dialog that began before anything was found: answers the packet that waits, and
/// what arrives after it. The dialog is then one over what was found, from its begin.
pub fn go_on<F: Findings, S: Source, K: Sink>(
    alloc: Global,
    findings: &F,
    setting: Setting<'_>,
    greeting: &mut Greeting,
    input: &mut S,
    out: &mut K,
) -> SessionEnd
    ensures talk { GoesOn (parties_over (session_told (F.shown findings.now) setting.entry.skipped (F.reasons findings.now)) setting.entry) greeting.old (move (S.port input.old) (S.port input.new)) (move (K.port out.old) (K.port out.new)) result }
{
    let arrival = match greeting.next {
        Ok(arrival) => arrival,
        Err(end) => return end,
    };
    let dialog = match begin(alloc, findings, &greeting.dialog) {
        Ok(dialog) => dialog,
        Err(_) => return SessionEnd::OutOfMemory,
    };
    let packets = std::mem::replace(&mut greeting.packets, GdbPackets::new());
    let waiting = WaitingDialog {
        packets,
        dialog,
        arrival,
    };
    answer_on(alloc, findings, setting, waiting, input, out)
}

/// A dialog in which an arrival waits for its answer.
#[derive(Drop)]
struct WaitingDialog {
    packets: GdbPackets,
    dialog: Dialog,
    arrival: Arrival,
}

/// Answers the arrival that waits, and what comes after it.
fn answer_on<F: Findings, S: Source, K: Sink>(
    alloc: Global,
    findings: &F,
    setting: Setting<'_>,
    waiting: WaitingDialog,
    input: &mut S,
    out: &mut K,
) -> SessionEnd
    requires within { IsStandLawful (F.shown findings.now) waiting.dialog.stand }
    ensures talk { AnswersOn (parties_over (session_told (F.shown findings.now) setting.entry.skipped (F.reasons findings.now)) setting.entry) waiting (move (S.port input.old) (S.port input.new)) (move (K.port out.old) (K.port out.new)) result }
{
    let mut packets = waiting.packets;
    let mut dialog = waiting.dialog;
    let mut arrival = waiting.arrival;
    'dialog: loop {
        let text = match take_turn(
            alloc,
            findings,
            setting,
            &mut dialog,
            arrival,
            packets.carried(),
        ) {
            Ok(text) => text,
            Err(_) => return SessionEnd::OutOfMemory,
        };
        match write_all(out, text.bytes()) {
            Ok(()) => {}
            Err(_) => return SessionEnd::OutputFault,
        }
        if dialog.is_over {
            return SessionEnd::Left;
        }
        arrival = match packets.next(input) {
            Ok(arrival) => arrival,
            Err(why) => return SessionEnd::Ended(why),
        };
    }
}
