//! One arrival before anything is found, and what is written then.

ghost use Rattle.std.specs.Prelude.{◌≡◌, ◌++◌, codes, IfOk, MatchOption, OnOk};
ghost use Rattle.rept_remote.specs.Escapes.{packet_of};
ghost use Rattle.rept_remote.specs.Frames.{arrived};
ghost use Rattle.rept_remote.specs.Frames.Arrived.{packet};
ghost use Rattle.rept_stub.specs.Replies.{error};
ghost use Rattle.rept_debug.specs.Dialog.Dialog.{early_start};
ghost use Rattle.rept_debug.specs.Dialog.Greeting.{IsEarlyTurn, WantsReport, early_sign};

use crate::dialog::turn::{acknowledges_after, packed, replied, signed};
use rept_remote::{Arrival, parse};
use rept_stub::early_answer;
use rept_word::{OutOfMemory, Text};
use std::alloc::Global;

/// What is kept of a dialog of which no report was needed yet.
#[derive(Drop)]
pub struct EarlyDialog {
    /// whether packets are acknowledged
    pub acknowledges: bool,
    /// the packet of the last reply, empty where there was none
    pub last: Text,
}

impl EarlyDialog {
    /// Packets are acknowledged, and there was no reply.
    pub fn new(alloc: Global) -> EarlyDialog
        ensures { result ≡ early_start }
    {
        EarlyDialog {
            acknowledges: true,
            last: Text::new(alloc),
        }
    }
}

/// What is written at an arrival; None, and the dialog stays, exactly where the answer needs a
/// report. The only refusal is out of memory.
pub fn early_turn(
    alloc: Global,
    dialog: &mut EarlyDialog,
    arrival: Arrival,
    carried: &[u8],
) -> Result<Option<Text>, OutOfMemory>
    ensures { IfOk result (λ text. MatchOption text (WantsReport (arrived arrival carried.now) × (dialog.new ≡ dialog.old)) (λ text. IsEarlyTurn dialog.old (arrived arrival carried.now) text dialog.new)) }
{
    match arrival {
        Arrival::Packet => answer_early(alloc, dialog, carried),
        Arrival::Broken => Ok(Some(signed(alloc, dialog.acknowledges, b"-")?)),
        Arrival::Large => Ok(Some(refuse_early(alloc, dialog)?)),
        Arrival::Again => Ok(Some(signed(alloc, dialog.acknowledges, dialog.last.bytes())?)),
        Arrival::Interrupt => Ok(Some(Text::new(alloc))),
    }
}

/// The answer to a packet.
fn answer_early(
    alloc: Global,
    dialog: &mut EarlyDialog,
    carried: &[u8],
) -> Result<Option<Text>, OutOfMemory>
    ensures { IfOk result (λ text. MatchOption text (WantsReport (packet carried.now) × (dialog.new ≡ dialog.old)) (λ text. IsEarlyTurn dialog.old (packet carried.now) text dialog.new)) }
{
    let request = parse(carried);
    let Some(reply) = early_answer(alloc, request)? else {
        return Ok(None);
    };
    let written = packed(alloc, reply.bytes())?;
    let text = replied(alloc, dialog.acknowledges, written.bytes())?;
    dialog.acknowledges = acknowledges_after(dialog.acknowledges, request);
    dialog.last = written;
    Ok(Some(text))
}

/// The answer to a packet that is too large.
fn refuse_early(alloc: Global, dialog: &mut EarlyDialog) -> Result<Text, OutOfMemory>
    ensures text { IfOk result (λ text. text ≡ early_sign dialog.old (codes "+") ++ packet_of error) }
    ensures dialog { OnOk result (dialog.new ≡ record dialog.old { last = packet_of error }) }
{
    let written = packed(alloc, b"E01")?;
    let text = replied(alloc, dialog.acknowledges, written.bytes())?;
    dialog.last = written;
    Ok(text)
}
