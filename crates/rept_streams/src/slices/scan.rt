//! What the packets of a stream tell of the times of a slice.

ghost use Rattle.std.specs.Prelude.{◌≡◌, ◌∷◌, List, drop, not};
ghost use Rattle.std.specs.List.{prefix_len};
ghost use Rattle.rept_trace.specs.declared.packet.Packet.{Packet};
ghost use Rattle.rept_trace.specs.Packets.{rest_of};
ghost use Rattle.rept_trace.specs.Stream.{Hold};
ghost use Rattle.rept_streams.specs.Slices.Stamps.{stamp_of, closes};
ghost use Rattle.rept_streams.specs.Slices.Parts.{first_time};

use rept_path::window::next_packet;
use rept_trace::{Packet, Packets, Qual};

/// The time of a packet.
pub fn time_of(packet: Packet) -> Option<u64>
    ensures { result ≡ stamp_of packet }
{
    match packet {
        Packet::Start { time, .. } => Some(time),
        Packet::Context { time, .. } => Some(time),
        _ => None,
    }
}

/// Whether a slice ends at the packet.
pub fn closes(packet: Packet) -> bool
    ensures { result ≡ closes packet }
{
    match packet {
        Packet::Start { .. } => true,
        Packet::Support { status, .. } => matches!(status, Qual::EndedRep | Qual::EndedNtr),
        _ => false,
    }
}

/// The first time that packets tell.
fn first_time(packets: Packets<'_>) -> Option<u64>
    requires { (list : List Packet) × Hold (rest_of packets) list }
    ensures { (list : List Packet) → Hold (rest_of packets.entry) list → result ≡ first_time list }
{
    let mut rest = packets;
    while let Some(packet) = next_packet(&mut rest) {
        if let Some(time) = time_of(packet) {
            return Some(time);
        }
    }
    None
}

/// The first time that a packet and those after it tell.
fn time_from(packet: Packet, later: Packets<'_>) -> Option<u64>
    requires { (list : List Packet) × Hold (rest_of later) list }
    ensures { (list : List Packet) → Hold (rest_of later.entry) list → result ≡ first_time (packet ∷ list) }
{
    match time_of(packet) {
        Some(time) => Some(time),
        None => first_time(later),
    }
}

/// The first time that a stream tells from the packet on that ends a slice, from those after the
/// slice's start packet.
pub fn time_beyond(later: Packets<'_>) -> Option<u64>
    requires { (list : List Packet) × Hold (rest_of later) list }
    ensures { (list : List Packet) → Hold (rest_of later.entry) list → result ≡ first_time (drop (prefix_len (λ p. not (closes p)) list) list) }
{
    let mut rest = later;
    while let Some(packet) = next_packet(&mut rest) {
        if closes(packet) {
            return time_from(packet, rest);
        }
    }
    None
}
