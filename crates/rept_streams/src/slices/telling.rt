//! The slices that a stream tells, before a row is walked.

ghost use Rattle.std.specs.Prelude.{◌≡◌, ◌++◌, ◌+◌, ◌<◌, ◌^◌, ◌∷◌, [], List, ℕ, length, map, None, OnOk, IfOk, IfErr, if◌then◌else◌};
ghost use Rattle.rept_trace.specs.declared.packet.Packet.{Packet};
ghost use Rattle.rept_trace.specs.Packets.{rest_of};
ghost use Rattle.rept_trace.specs.Stream.{Hold};
ghost use Rattle.rept_path.specs.declared.fault.PathFault.TheVariants.{OutOfMemory};
ghost use Rattle.rept_streams.specs.Slices.Stamps.{is_start, running_after};
ghost use Rattle.rept_streams.specs.Slices.Lefts.{IsLeft, AreLeft};
ghost use Rattle.rept_streams.specs.Slices.Parts.{LeftPackets, told_from, told_in, slices_told};
ghost use Rattle.rept_streams.specs.Slices.Entries.{AreEntriesOf, with_head, entries_from};
ghost use Rattle.rept_streams.specs.Slices.Skipping.{from_time};
ghost use Rattle.rept_streams.specs.declared.slices.telling.StreamSlice.{StreamSlice};

use crate::slices::keeping::clock_of;
use crate::slices::reading::StreamWindow;
use rept_path::PathFault;
use rept_path::window::next_packet;
use rept_trace::{Packet, Packets, Qual};
use std::alloc::Global;

/// A slice as its stream tells it.
#[derive(Clone, Copy)]
pub struct StreamSlice<'a> {
    /// The number of its stream.
    pub stream: u32,
    /// The number of its start packet among the packets of all streams.
    pub number: u32,
    /// Its start packet.
    pub start: Packet,
    /// The packets of its stream after that.
    pub later: Packets<'a>,
    /// The process of the thread that runs as the start packet comes, if the trace runs there.
    pub inside: Option<u32>,
}

/// Whether a packet is a start packet.
pub fn is_start(packet: Packet) -> bool
    ensures { result ≡ is_start packet }
{
    matches!(packet, Packet::Start { .. })
}

/// The process of the thread that runs after a packet.
fn running_after(packet: Packet, before: Option<u32>) -> Option<u32>
    ensures { result ≡ running_after packet before }
{
    match packet {
        Packet::Start { context, .. } => Some(context),
        Packet::Support { status, .. } => match status {
            Qual::EndedRep | Qual::EndedNtr => None,
            Qual::NoChange | Qual::TraceLost => before,
        },
        Packet::Context { .. }
        | Packet::Address { .. }
        | Packet::Map { .. }
        | Packet::MapAddress { .. } => before,
    }
}

/// Adds a slice, if the packet that it begins with is a start packet.
fn add_start<'a>(
    entries: &mut Vec<StreamSlice<'a>>,
    slice: StreamSlice<'a>,
) -> Result<(), PathFault>
    ensures ok { OnOk result (entries.new.items ≡ entries.old.items ++ (if is_start slice.entry.start then slice.entry ∷ [] else [])) }
    ensures err { IfErr result (λ e. e ≡ OutOfMemory) }
{
    if !is_start(slice.start) {
        return Ok(());
    }
    if let Err(_) = entries.push(slice) {
        return Err(PathFault::OutOfMemory);
    }
    Ok(())
}

/// Adds the slices of a stream from this packet on, which has this number among the packets of all
/// streams and before which the trace doesn't run.
pub fn tell<'a>(
    entries: &mut Vec<StreamSlice<'a>>,
    stream: u32,
    number: u32,
    start: Packet,
    later: Packets<'a>,
) -> Result<(), PathFault>
    requires { (list : List Packet) × Hold (rest_of later) list × (number + 1 + length list < 2 ^ 32) }
    ensures ok { (list : List Packet) → Hold (rest_of later.entry) list → OnOk result ((more : List StreamSlice) × (entries.new.items ≡ entries.old.items ++ more) × AreEntriesOf more (told_from stream number None (start ∷ list))) }
    ensures err { IfErr result (λ e. e ≡ OutOfMemory) }
{
    let first = StreamSlice {
        stream,
        number,
        start,
        later,
        inside: None,
    };
    add_start(entries, first)?;
    let mut inside = running_after(start, None);
    let mut rest = later;
    let mut k = number + 1;
    while let Some(packet) = next_packet(&mut rest) {
        let entry = StreamSlice {
            stream,
            number: k,
            start: packet,
            later: rest,
            inside,
        };
        add_start(entries, entry)?;
        inside = running_after(packet, inside);
        k += 1;
    }
    Ok(())
}

/// Adds the slices of what is left of a stream.
fn tell_window<'a>(
    entries: &mut Vec<StreamSlice<'a>>,
    window: &StreamWindow<'a>,
) -> Result<(), PathFault>
    requires { (l : LeftPackets) × IsLeft window.now l }
    ensures ok { (l : LeftPackets) → IsLeft window.now l → OnOk result ((more : List StreamSlice) × (entries.new.items ≡ entries.old.items ++ more) × AreEntriesOf more (told_in l)) }
    ensures err { IfErr result (λ e. e ≡ OutOfMemory) }
{
    match window.begin {
        None => Ok(()),
        Some(begin) => {
            let number = window.number + begin.number;
            tell(entries, window.stream, number, begin.first, begin.later)
        }
    }
}

/// Adds slices of a stream, the first one as it is where nothing before it is known.
fn add_left<'a>(
    entries: &mut Vec<StreamSlice<'a>>,
    slices: &[StreamSlice<'a>],
) -> Result<(), PathFault>
    ensures ok { OnOk result (entries.new.items ≡ entries.old.items ++ with_head slices.now) }
    ensures err { IfErr result (λ e. e ≡ OutOfMemory) }
{
    let Some((first, later)) = slices.split_first() else {
        return Ok(());
    };
    let first = StreamSlice {
        stream: first.stream,
        number: first.number,
        start: first.start,
        later: first.later,
        inside: None,
    };
    if let Err(_) = entries.push(first) {
        return Err(PathFault::OutOfMemory);
    }
    if let Err(_) = entries.extend_from_slice(later) {
        return Err(PathFault::OutOfMemory);
    }
    Ok(())
}

/// Adds the slices of a stream from the first one on that begins at this time or a later one.
fn add_from<'a>(
    entries: &mut Vec<StreamSlice<'a>>,
    slices: &[StreamSlice<'a>],
    time: u64,
) -> Result<(), PathFault>
    ensures ok { OnOk result (entries.new.items ≡ entries.old.items ++ entries_from time slices.now) }
    ensures err { IfErr result (λ e. e ≡ OutOfMemory) }
{
    for i in 0..slices.len() {
        if time <= clock_of(slices[i].start) {
            return add_left(entries, &slices[i..]);
        }
    }
    Ok(())
}

/// The slices of streams.
#[derive(Drop)]
pub struct Tellings<'a> {
    /// Those of the windows of all streams.
    pub windows: Vec<StreamSlice<'a>>,
    /// Those that are left from a time on.
    pub slices: Vec<StreamSlice<'a>>,
}

/// Adds the slices of what is left of a stream, and those that are left of them from this time on.
fn tell_both<'a>(
    both: &mut Tellings<'a>,
    alloc: Global,
    window: &StreamWindow<'a>,
    time: u64,
) -> Result<(), PathFault>
    requires { (l : LeftPackets) × IsLeft window.now l }
    ensures ok { (l : LeftPackets) → IsLeft window.now l → OnOk result ((more : List StreamSlice) × (both.new.windows.items ≡ both.old.windows.items ++ more) × (both.new.slices.items ≡ both.old.slices.items ++ entries_from time more) × AreEntriesOf more (told_in l)) }
    ensures err { IfErr result (λ e. e ≡ OutOfMemory) }
{
    let mut own = Vec::new(alloc);
    tell_window(&mut own, window)?;
    if let Err(_) = both.windows.extend_from_slice(own.as_slice()) {
        return Err(PathFault::OutOfMemory);
    }
    add_from(&mut both.slices, own.as_slice(), time)?;
    Ok(())
}

/// The slices of what is left of several streams, and those that are left of them from this time
/// on: stream by stream, in the order of their start packets. Each packet is read once.
pub fn tell_all<'a>(
    alloc: Global,
    windows: &[StreamWindow<'a>],
    time: u64,
) -> Result<Tellings<'a>, PathFault>
    requires { (lefts : List LeftPackets) × AreLeft windows.now lefts }
    ensures ok { (lefts : List LeftPackets) → AreLeft windows.now lefts → IfOk result (λ both. AreEntriesOf both.windows.items (slices_told lefts)) }
    ensures left { (lefts : List LeftPackets) → AreLeft windows.now lefts → IfOk result (λ both. AreEntriesOf both.slices.items (slices_told (map (from_time time) lefts))) }
    ensures err { IfErr result (λ e. e ≡ OutOfMemory) }
{
    let mut both = Tellings {
        windows: Vec::new(alloc),
        slices: Vec::new(alloc),
    };
    for window in windows {
        tell_both(&mut both, alloc, window, time)?;
    }
    Ok(both)
}
