//! Times that go back.

ghost use Rattle.std.specs.Prelude.{◌≡◌, ◌+◌, ◌<◌, ◌^◌, List, [], length};
ghost use Rattle.rept_trace.specs.declared.packet.Packet.{Packet};
ghost use Rattle.rept_trace.specs.Packets.{rest_of};
ghost use Rattle.rept_trace.specs.Stream.{Hold};
ghost use Rattle.rept_streams.specs.Slices.Stamps.{stamp_of};
ghost use Rattle.rept_streams.specs.Slices.Checks.{back_from};
ghost use Rattle.rept_streams.specs.Slices.Latest.{latest_by};

use crate::slices::scan::time_of;
use rept_path::PathFault;
use rept_path::window::next_packet;
use rept_trace::{Packet, Packets};

/// The latest time after a packet, where it was this one before it. None where the packet is of an
/// earlier time.
fn latest_after(packet: Packet, latest: u64) -> Option<u64>
    ensures { result ≡ latest_by (stamp_of packet) latest }
{
    match time_of(packet) {
        None => Some(latest),
        Some(time) => { if time < latest { None } else { Some(time) } }
    }
}

/// Why the packets of a stream, the first of which has this number, aren't in the order of time, if
/// they aren't.
pub fn time_back(packets: Packets<'_>, number: u32) -> Option<PathFault>
    requires { (list : List Packet) × Hold (rest_of packets) list × (number + length list < 2 ^ 32) }
    ensures { (list : List Packet) → Hold (rest_of packets.entry) list → result ≡ back_from number [] list }
{
    let mut rest = packets;
    let mut k = number;
    let mut latest = 0u64;
    while let Some(packet) = next_packet(&mut rest) {
        match latest_after(packet, latest) {
            None => return Some(PathFault::TimeBack(k)),
            Some(time) => latest = time,
        }
        k += 1;
    }
    None
}
