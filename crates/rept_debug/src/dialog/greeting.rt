//! The part of a dialog that needs no report.

ghost use Rattle.std.specs.Prelude.{◌≡◌, Err};
ghost use Rattle.rept_ports.specs.Port.{move};
ghost use Rattle.rept_debug.specs.Dialog.Greeting.{IsGreeting};

use crate::dialog::conversation::SessionEnd;
use crate::dialog::early::{EarlyDialog, early_turn};
use rept_ports::{Sink, Source, write_all};
use rept_remote::{Arrival, GdbPackets};
use std::alloc::Global;

/// A dialog up to its first packet whose answer needs a report.
#[derive(Drop)]
pub struct Greeting {
    /// what was read
    pub packets: GdbPackets,
    /// what is kept of the dialog
    pub dialog: EarlyDialog,
    /// that packet, which `packets` carries and which isn't answered yet; or how the dialog ended
    /// before one came
    pub next: Result<Arrival, SessionEnd>,
}

/// Answers what arrives, up to the first packet whose answer needs a report.
pub fn greet<S: Source, K: Sink>(alloc: Global, input: &mut S, out: &mut K) -> Greeting
    ensures { IsGreeting (move (S.port input.old) (S.port input.new)) (move (K.port out.old) (K.port out.new)) result }
{
    let mut dialog = EarlyDialog::new(alloc);
    let mut packets = GdbPackets::new();
    'greeting: loop {
        let arrival = match packets.next(input) {
            Ok(arrival) => arrival,
            Err(why) => return ended(packets, dialog, SessionEnd::Ended(why)),
        };
        let text = match early_turn(alloc, &mut dialog, arrival, packets.carried()) {
            Ok(Some(text)) => text,
            Ok(None) => {
                return Greeting {
                    packets,
                    dialog,
                    next: Ok(arrival),
                };
            }
            Err(_) => return ended(packets, dialog, SessionEnd::OutOfMemory),
        };
        match write_all(out, text.bytes()) {
            Ok(()) => {}
            Err(_) => return ended(packets, dialog, SessionEnd::OutputFault),
        }
    }
}

/// A greeting after which nothing is answered.
fn ended(packets: GdbPackets, dialog: EarlyDialog, end: SessionEnd) -> Greeting
    ensures { result ≡ record { packets = packets; dialog = dialog; next = Err end } }
{
    Greeting {
        packets,
        dialog,
        next: Err(end),
    }
}
