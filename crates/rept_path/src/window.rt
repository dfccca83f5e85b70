//! The packet with which a path begins.

ghost use Rattle.std.specs.Prelude.{◌≡◌, ◌⊎◌, ◌<◌, ◌^◌, ◌∷◌, ◌++◌, [], List, ℕ, length, Ok, Some, None, IfOk, IfErr, IfSome, IfNone};
ghost use Rattle.rept_trace.specs.declared.packet.Packet.{Packet};
ghost use Rattle.rept_trace.specs.Packets.{rest_of, number_of};
ghost use Rattle.rept_trace.specs.Stream.{Hold, FailsAfter, AnswersNext};
ghost use Rattle.rept_path.specs.Trace.{IsWindow, starts, loses};
ghost use Rattle.rept_path.specs.Survey.{number_in, Surveys};

use rept_trace::{Packet, Packets, Qual, TraceFault};

/// The first packet of a window, its number, and the packets after it.
#[derive(Clone, Copy)]
pub struct Begin<'a> {
    pub number: u32,
    pub first: Packet,
    pub later: Packets<'a>,
}

/// How many packets there are, and where the window begins.
#[derive(Clone, Copy)]
pub struct WindowSurvey<'a> {
    pub count: u32,
    pub begin: Option<Begin<'a>>,
}

/// Whether a window may begin with the packet.
fn is_start(packet: Packet) -> bool
    ensures { result ≡ starts (Some packet) }
{
    matches!(packet, Packet::Start { .. })
}

/// Whether packets were lost before it.
fn is_loss(packet: Packet) -> bool
    ensures { result ≡ loses packet }
{
    matches!(
        packet,
        Packet::Support {
            status: Qual::TraceLost,
            ..
        }
    )
}

/// Where the window begins after one packet more, with the packets after it.
fn begin_after<'a>(
    packet: Packet,
    number: u32,
    later: Packets<'a>,
    from: u32,
    begin: Option<Begin<'a>>,
) -> Option<Begin<'a>>
    ensures window { (packets : List Packet) → length packets ≡ number → IsWindow packets from (number_in begin.entry) → IsWindow (packets ++ packet ∷ []) from (number_in result) }
    ensures one { IfSome result (λ b. (begin.entry ≡ Some b) ⊎ (b ≡ record { number = number; first = packet; later = later.entry })) }
{
    if is_loss(packet) {
        return None;
    }
    match begin {
        Some(first) => Some(first),
        None => {
            if !is_start(packet) {
                return None;
            }
            if number < from {
                return None;
            }
            Some(Begin {
                number,
                first: packet,
                later,
            })
        }
    }
}

/// The next packet of bytes that hold whole packets alone.
pub fn next_packet(rest: &mut Packets<'_>) -> Option<Packet>
    requires { (more : List Packet) × Hold (rest_of rest.old) more }
    ensures some { IfSome result (λ packet. AnswersNext (number_of rest.old) (rest_of rest.old) (Ok (Some packet)) (number_of rest.new) (rest_of rest.new)) }
    ensures none { IfNone result (AnswersNext (number_of rest.old) (rest_of rest.old) (Ok None) (number_of rest.new) (rest_of rest.new)) }
{
    if let Ok(next) = rest.next() {
        return next;
    }
    None
}

/// Goes through all packets.
pub fn go_through<'a>(packets: Packets<'a>, from: u32) -> Result<WindowSurvey<'a>, TraceFault>
    requires { length (rest_of packets).bytes < 2 ^ 32 }
    ensures ok { IfOk result (λ s. (list : List Packet) × Surveys (rest_of packets.entry) list from s) }
    ensures err { IfErr result (λ fault. (list : List Packet) × FailsAfter (number_of packets.entry) (rest_of packets.entry) list fault) }
{
    let mut rest = packets;
    let mut count = 0u32;
    let mut begin = None;
    while let Some(packet) = rest.next()? {
        begin = begin_after(packet, count, rest, from, begin);
        count += 1;
    }
    Ok(WindowSurvey { count, begin })
}
