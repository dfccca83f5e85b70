//! What is left of streams from the time on from which all of them tell.

ghost use Rattle.std.specs.Prelude.{◌≡◌, ◌+◌, ◌<◌, ◌^◌, ◌∷◌, ◌&&◌, nat_le, List, length, map, IfOk, IfErr};
ghost use Rattle.std.specs.List.{sum_by};
ghost use Rattle.rept_trace.specs.declared.packet.Packet.{Packet};
ghost use Rattle.rept_trace.specs.Packets.{rest_of};
ghost use Rattle.rept_trace.specs.Stream.{Hold};
ghost use Rattle.rept_path.specs.declared.fault.PathFault.TheVariants.{OutOfMemory};
ghost use Rattle.rept_streams.specs.Slices.Stamps.{clock_of, is_start};
ghost use Rattle.rept_streams.specs.Slices.Parts.{LeftPackets};
ghost use Rattle.rept_streams.specs.Slices.Skipping.{opening, full_from, from_time};
ghost use Rattle.rept_streams.specs.Slices.Lefts.{IsLeftBy, IsLeft, AreLeft, BeginsFrom, later_by};
ghost use Rattle.rept_streams.specs.declared.slices.reading.StreamWindow.{StreamWindow};

use crate::slices::reading::StreamWindow;
use crate::slices::scan::time_of;
use rept_path::PathFault;
use rept_path::window::{Begin, next_packet};
use rept_trace::Packet;
use std::alloc::Global;

/// The time of a packet, 0 where it has none.
pub fn clock_of(packet: Packet) -> u64
    ensures { result ≡ clock_of packet }
{
    match time_of(packet) {
        Some(time) => time,
        None => 0,
    }
}

/// The later of a time and another one, if there is one.
pub fn later_by(time: u64, other: Option<u64>) -> u64
    ensures { result ≡ later_by time other }
{
    match other {
        None => time,
        Some(other) => { if time <= other { other } else { time } }
    }
}

/// The time of the first packet that is left of a stream.
pub fn opening(window: &StreamWindow<'_>) -> Option<u64>
    ensures { (l : LeftPackets) → IsLeft window.now l → result ≡ opening l }
{
    match window.begin {
        None => None,
        Some(begin) => Some(clock_of(begin.first)),
    }
}

/// The time from which on all streams tell: the greatest of those of the first packets that are
/// left of them.
pub fn full_from(windows: &[StreamWindow<'_>]) -> u64
    ensures { (lefts : List LeftPackets) → AreLeft windows.now lefts → result ≡ full_from lefts }
{
    let mut greatest = 0;
    for window in windows {
        greatest = later_by(greatest, opening(window));
    }
    greatest
}

/// Whether a packet is a start packet of this time or a later one.
fn starts_from(packet: Packet, time: u64) -> bool
    ensures { result ≡ (is_start packet && nat_le time (clock_of packet)) }
{
    match packet {
        Packet::Start { .. } => time <= clock_of(packet),
        _ => false,
    }
}

/// The first start packet of this time or a later one, from a packet of a stream on.
fn begin_from<'a>(begin: Begin<'a>, time: u64) -> Option<Begin<'a>>
    requires { (list : List Packet) × Hold (rest_of begin.later) list × (begin.number + 1 + length list < 2 ^ 32) }
    ensures { (list : List Packet) → Hold (rest_of begin.entry.later) list → BeginsFrom time begin.entry.number (begin.entry.first ∷ list) result }
{
    if starts_from(begin.first, time) {
        return Some(begin);
    }
    let mut rest = begin.later;
    let mut number = begin.number + 1;
    while let Some(packet) = next_packet(&mut rest) {
        if starts_from(packet, time) {
            return Some(Begin {
                number,
                first: packet,
                later: rest,
            });
        }
        number += 1;
    }
    None
}

/// The packet with which what is left of a stream from this time on begins.
fn kept_begin<'a>(window: &StreamWindow<'a>, time: u64) -> Option<Begin<'a>>
    requires { (l : LeftPackets) × IsLeft window.now l }
    ensures { (l : LeftPackets) → IsLeft window.now l → IsLeftBy (from_time time l) window.now.number result }
{
    match window.begin {
        None => None,
        Some(begin) => begin_from(begin, time),
    }
}

/// What is left of a stream from this time on.
fn kept<'a>(window: &StreamWindow<'a>, time: u64) -> StreamWindow<'a>
    requires { (l : LeftPackets) × IsLeft window.now l }
    ensures left { (l : LeftPackets) → IsLeft window.now l → IsLeft result (from_time time l) }
    ensures count { result.count ≡ window.now.count }
{
    let begin = kept_begin(window, time);
    StreamWindow {
        stream: window.stream,
        number: window.number,
        packets: window.packets,
        count: window.count,
        begin,
    }
}

/// What is left of several streams from this time on.
pub fn keep_from<'a>(
    alloc: Global,
    windows: &[StreamWindow<'a>],
    time: u64,
) -> Result<Vec<StreamWindow<'a>>, PathFault>
    requires { (lefts : List LeftPackets) × AreLeft windows.now lefts }
    ensures ok { (lefts : List LeftPackets) → AreLeft windows.now lefts → IfOk result (λ left. AreLeft left.items (map (from_time time) lefts)) }

    // What is left is of as many packets as before.
    ensures counts { IfOk result (λ left. sum_by (λ (w : StreamWindow). w.count) left.items ≡ sum_by (λ (w : StreamWindow). w.count) windows.now) }
    ensures err { IfErr result (λ e. e ≡ OutOfMemory) }
{
    let mut left = Vec::new(alloc);
    for window in windows {
        let window = kept(window, time);
        if let Err(_) = left.push(window) {
            return Err(PathFault::OutOfMemory);
        }
    }
    Ok(left)
}
