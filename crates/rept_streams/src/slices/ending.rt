//! The last time of the untraced prefix.

ghost use Rattle.std.specs.Prelude.{◌≡◌, ◌<◌, ◌^◌, ◌==◌, ◌++◌, ℕ, List, length, Option, OnOk, IfOk, IfErr};
ghost use Rattle.std.specs.List.{sum_by};
ghost use Rattle.rept_trace.specs.declared.packet.Packet.{Packet};
ghost use Rattle.rept_trace.specs.Packets.{rest_of};
ghost use Rattle.rept_trace.specs.Stream.{Hold};
ghost use Rattle.rept_path.specs.declared.fault.PathFault.TheVariants.{OutOfMemory};
ghost use Rattle.rept_streams.specs.Slices.Parts.{ToldSlice};
ghost use Rattle.rept_streams.specs.Slices.Entries.{IsEntryOf, AreEntriesOf};
ghost use Rattle.rept_streams.specs.Slices.Lefts.{AreLeft};
ghost use Rattle.rept_streams.specs.Slices.Raw.{streams_of, HoldEach};
ghost use Rattle.rept_streams.specs.Slices.Ending.{begun, is_time, last_time};
ghost use Rattle.rept_streams.specs.Slices.Free.{opens_by, are_shut, are_by, meets_by, met_by, are_free, ends_kept, alone_kept};

use crate::slices::keeping::{clock_of, full_from};
use crate::slices::order::{begin_of, put_in_order};
use crate::slices::reading::{StreamWindow, read_all};
use crate::slices::telling::{StreamSlice, tell_all};
use crate::slices::untraced::{end_early, past_begin};
use rept_path::PathFault;
use rept_trace::Streams;
use std::alloc::Global;

/// Where the untraced prefix ends.
#[derive(Clone, Copy)]
pub struct PrefixEnd {
    /// The time from which on all streams tell.
    pub full: u64,
    /// The time at which the prefix ends: that one or a later one.
    pub end: u64,
}

/// Whether there is a time, and it is this one.
fn is_time(end: u64, time: Option<u64>) -> bool
    ensures { result ≡ is_time end time }
{
    match time {
        None => false,
        Some(time) => time == end,
    }
}

/// Whether the window of a stream opens at a time.
fn opens_at(window: &StreamWindow<'_>, end: u64) -> bool
    ensures { result ≡ opens_by end window.now.begin }
{
    match window.begin {
        None => false,
        Some(begin) => clock_of(begin.first) == end,
    }
}

/// Whether no window of another stream than this one opens at a time.
fn are_shut(windows: &[StreamWindow<'_>], stream: u32, end: u64) -> bool
    ensures { result ≡ are_shut end stream windows.now }
{
    windows
        .iter()
        .all(|window| window.stream == stream || !opens_at(window, end))
}

/// Whether a slice begins at the end of the prefix, or is skipped and ends there. `past` is the
/// next begin of its thread that is greater.
fn meets_end(slice: &StreamSlice<'_>, past: Option<u64>, prefix: PrefixEnd) -> bool
    requires { (list : List Packet) × Hold (rest_of slice.now.later) list }
    ensures { (t : ToldSlice) → IsEntryOf slice.now t → result ≡ meets_by prefix t past }
{
    if begin_of(slice) == prefix.end {
        return true;
    }
    is_time(prefix.end, end_early(slice, prefix.full, past))
}

/// Adds the number of a slice's stream, if the slice begins at the end of the prefix, or is skipped
/// and ends there.
fn add_met(
    met: &mut Vec<u32>,
    slice: &StreamSlice<'_>,
    past: Option<u64>,
    prefix: PrefixEnd,
) -> Result<(), PathFault>
    requires { (list : List Packet) × Hold (rest_of slice.now.later) list }
    ensures ok { (t : ToldSlice) → IsEntryOf slice.now t → OnOk result (met.new.items ≡ met.old.items ++ met_by prefix t past) }
    ensures err { IfErr result (λ e. e ≡ OutOfMemory) }
{
    if !meets_end(slice, past, prefix) {
        return Ok(());
    }
    match met.push(slice.stream) {
        Ok(()) => Ok(()),
        Err(_) => Err(PathFault::OutOfMemory),
    }
}

/// The numbers of the streams of the slices that begin at the end of the prefix, or are skipped and
/// end there: one for each such slice, of slices that stand in order.
fn streams_met(
    alloc: Global,
    slices: &[StreamSlice<'_>],
    prefix: PrefixEnd,
) -> Result<Vec<u32>, PathFault>
    requires { (ts : List ToldSlice) × AreEntriesOf slices.now ts }
    ensures ok { (ts : List ToldSlice) → AreEntriesOf slices.now ts → IfOk result (λ met. (s : ℕ) → are_by s met.items ≡ are_free prefix s ts) }
    ensures err { IfErr result (λ e. e ≡ OutOfMemory) }
{
    let mut met = Vec::new(alloc);
    let mut past = None;
    for i in (0..slices.len()).rev() {
        past = past_begin(&slices[i..], past);
        add_met(&mut met, &slices[i], past, prefix)?;
    }
    Ok(met)
}

/// Whether numbers of streams are all that of this one.
fn are_by(met: &[u32], stream: u32) -> bool
    ensures { result ≡ are_by stream met.now }
{
    met.iter().all(|other| *other == stream)
}

/// Whether no other stream than this one has anything at the end of the prefix: no window of
/// another one opens then, and `met`, the streams that have such slices, are this one.
fn ends_by(windows: &[StreamWindow<'_>], met: &[u32], end: u64, stream: u32) -> bool
    ensures { result ≡ ends_kept end windows.now met.now stream }
{
    if !are_shut(windows, stream, end) {
        return false;
    }
    are_by(met, stream)
}

/// Whether one stream alone has anything at the end of the prefix.
fn ends_alone(windows: &[StreamWindow<'_>], met: &[u32], end: u64) -> bool
    ensures { result ≡ alone_kept end windows.now met.now }
{
    windows
        .iter()
        .any(|window| ends_by(windows, met, end, window.stream))
}

/// The windows of streams that hold whole packets alone.
fn read_whole<'a>(
    alloc: Global,
    streams: &Streams<'a>,
    from: u32,
) -> Result<Vec<StreamWindow<'a>>, PathFault>
    requires few { sum_by (λ bytes. length bytes) streams.now.streams < 2 ^ 32 }
    requires packets { (lists : List (List Packet)) × HoldEach (streams_of streams.now) lists }
    ensures ok { (lists : List (List Packet)) → HoldEach (streams_of streams.now) lists → IfOk result (λ windows. AreLeft windows.items (begun from lists)) }
    ensures err { IfErr result (λ e. e ≡ OutOfMemory) }
{
    match read_all(alloc, streams, from) {
        Ok(windows) => Ok(windows),
        Err(fault) => Err(fault),
    }
}

/// The last time of the untraced prefix that ends at this time: one tick less where one stream
/// alone has anything then (`specs/Slices/Ending.antt`). Windows begin at start packets of the
/// number `from` in their stream or a later one. The one refusal is `OutOfMemory`.
pub fn last_time(
    alloc: Global,
    streams: &Streams<'_>,
    from: u32,
    end: u64,
) -> Result<u64, PathFault>
    requires few { sum_by (λ bytes. length bytes) streams.now.streams < 2 ^ 32 }
    requires packets { (lists : List (List Packet)) × HoldEach (streams_of streams.now) lists }
    ensures ok { (lists : List (List Packet)) → HoldEach (streams_of streams.now) lists → IfOk result (λ time. time ≡ last_time from lists end) }
    ensures err { IfErr result (λ e. e ≡ OutOfMemory) }
{
    let windows = read_whole(alloc, streams, from)?;
    let full = full_from(&windows);
    let told = tell_all(alloc, &windows, full)?;
    let mut slices = told.windows;
    put_in_order(&mut slices)?;
    let met = streams_met(alloc, &slices, PrefixEnd { full, end })?;
    if ends_alone(&windows, &met, end) {
        return Ok(end.saturating_sub(1));
    }
    Ok(end)
}
