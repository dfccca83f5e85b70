//! All packets of several streams, gone through once.

ghost use Rattle.std.specs.Prelude.{◌≡◌, ◌⊎◌, ◌+◌, ◌<◌, ◌^◌, ℕ, List, length, slice_get, Some, IfOk, IfErr};
ghost use Rattle.std.specs.List.{sum_by};
ghost use Rattle.rept_trace.specs.declared.packet.Packet.{Packet};
ghost use Rattle.rept_trace.specs.declared.fault.TraceFault.{TraceFault};
ghost use Rattle.rept_trace.specs.Stream.{Stream, FailsAfter};
ghost use Rattle.rept_path.specs.declared.fault.PathFault.TheVariants.{OutOfMemory, Packet as PacketFault};
ghost use Rattle.rept_streams.specs.Slices.Raw.{streams_of, FailsIn};
ghost use Rattle.rept_streams.specs.Slices.Windows.{IsStreamWindow, AreWindows, number_told, numbered_after};

use rept_path::PathFault;
use rept_path::window::{Begin, go_through};
use rept_trace::{Packets, Streams, TraceFault};
use std::alloc::Global;

/// A stream of packets, all of which are whole.
#[derive(Clone, Copy)]
pub struct StreamWindow<'a> {
    /// The number of the stream.
    pub stream: u32,
    /// The number of its first packet among those of all streams.
    pub number: u32,
    /// Its packets.
    pub packets: Packets<'a>,
    /// How many they are.
    pub count: u32,
    /// The packet with which its window begins, by its number in the stream.
    pub begin: Option<Begin<'a>>,
}

/// The fault where so many packets more stand before.
fn numbered_after(fault: TraceFault, before: u32) -> TraceFault
    requires { number_told fault + before < 2 ^ 64 }
    ensures { result ≡ numbered_after before fault }
{
    let before = u64::from(before);
    match fault {
        TraceFault::Truncated(k) => TraceFault::Truncated(before + k),
        TraceFault::Optional(k) => TraceFault::Optional(before + k),
        TraceFault::Trap(k) => TraceFault::Trap(before + k),
        TraceFault::BadSupport(k) => TraceFault::BadSupport(before + k),
        TraceFault::BadMagic => TraceFault::BadMagic,
        TraceFault::BadHeader(i) => TraceFault::BadHeader(i),
        TraceFault::StreamPastEnd(s) => TraceFault::StreamPastEnd(s),
        TraceFault::Rest(offset) => TraceFault::Rest(offset),
    }
}

/// The stream of this number, where so many packets stand in those before it.
fn read_stream<'a>(
    streams: &Streams<'a>,
    s: u32,
    number: u32,
    from: u32,
) -> Result<StreamWindow<'a>, TraceFault>
    requires there { s < length streams.now.streams }
    requires few { (stream : Stream) → slice_get (streams_of streams.now) s ≡ Some stream → number + length stream.bytes < 2 ^ 32 }
    ensures ok { IfOk result (λ w. (stream : Stream) × (packets : List Packet) × (slice_get (streams_of streams.now) s ≡ Some stream) × IsStreamWindow s number from stream packets w) }
    ensures err { IfErr result (λ fault. (stream : Stream) × (packets : List Packet) × (slice_get (streams_of streams.now) s ≡ Some stream) × FailsAfter number stream packets fault) }
{
    let packets = streams.packets(s);
    match go_through(packets, from) {
        Err(fault) => Err(numbered_after(fault, number)),
        Ok(survey) => Ok(StreamWindow {
            stream: s,
            number,
            packets,
            count: survey.count,
            begin: survey.begin,
        }),
    }
}

/// All streams, in their order. A packet that is refused is told by its number among those of all
/// streams.
pub fn read_all<'a>(
    alloc: Global,
    streams: &Streams<'a>,
    from: u32,
) -> Result<Vec<StreamWindow<'a>>, PathFault>
    requires { sum_by (λ bytes. length bytes) streams.now.streams < 2 ^ 32 }
    ensures ok { IfOk result (λ ws. (lists : List (List Packet)) × AreWindows 0 0 from (streams_of streams.now) lists ws.items) }
    ensures err { IfErr result (λ e. (e ≡ OutOfMemory) ⊎ ((refused : TraceFault) × FailsIn 0 (streams_of streams.now) refused × (e ≡ PacketFault refused))) }
{
    let mut windows = Vec::new(alloc);
    let mut number = 0u32;
    for s in 0..streams.count() {
        let window = match read_stream(streams, s, number, from) {
            Ok(window) => window,
            Err(fault) => return Err(PathFault::Packet(fault)),
        };
        number += window.count;
        if let Err(_) = windows.push(window) {
            return Err(PathFault::OutOfMemory);
        }
    }
    Ok(windows)
}
