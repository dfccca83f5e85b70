//! Until when streams don't tell what happened, and how many packets are skipped.

ghost use Rattle.std.specs.Prelude.{◌≡◌, ◌∷◌, ◌==◌, ◌+◌, ◌<◌, ◌≤◌, ◌^◌, nat_lt, [], ℕ, List, length, slice_get, Some, None, if◌then◌else◌, IfOk, IfErr};
ghost use Rattle.std.specs.List.{cons_option, filter_map, list_any, sum_by};
ghost use Rattle.rept_trace.specs.declared.packet.Packet.{Packet};
ghost use Rattle.rept_trace.specs.Packets.{rest_of};
ghost use Rattle.rept_trace.specs.Stream.{Hold};
ghost use Rattle.rept_path.specs.declared.fault.PathFault.TheVariants.{OutOfMemory};
ghost use Rattle.rept_streams.specs.Slices.Stamps.{clock_of, context_of};
ghost use Rattle.rept_streams.specs.Slices.Parts.{LeftPackets, ToldSlice, slices_told, begin_of, thread_of, end_before, lesser};
ghost use Rattle.rept_streams.specs.Slices.Entries.{IsEntryOf, AreEntriesOf};
ghost use Rattle.rept_streams.specs.Slices.Lefts.{IsLeft, AreLeft};
ghost use Rattle.rept_streams.specs.Slices.Ends.{past_of, early, ends_in};
ghost use Rattle.rept_streams.specs.Slices.Windows.{skipped_of};
ghost use Rattle.rept_streams.specs.Slices.Skipping.{windows as all_windows, opening, greatest, ends_of};
ghost use Rattle.rept_streams.specs.declared.slices.telling.StreamSlice.{StreamSlice};
ghost use Rattle.rept_streams.specs.declared.slices.reading.StreamWindow.{StreamWindow};

use crate::slices::keeping::{later_by, opening};
use crate::slices::order::{begin_of, process_of, put_in_order};
use crate::slices::reading::StreamWindow;
use crate::slices::scan::time_beyond;
use crate::slices::telling::StreamSlice;
use rept_path::PathFault;

/// The lesser of a time and another one, if there is one.
fn lesser(time: u64, other: Option<u64>) -> u64
    ensures { result ≡ lesser time other }
{
    match other {
        None => time,
        Some(other) => { if time <= other { time } else { other } }
    }
}

/// The time at which a slice has ended, where a later one of its thread begins at this time, if
/// there is one.
pub fn end_before(slice: &StreamSlice<'_>, next: Option<u64>) -> u64
    requires { (list : List Packet) × Hold (rest_of slice.now.later) list }
    ensures { (t : ToldSlice) → IsEntryOf slice.now t → result ≡ end_before t next }
{
    let own = lesser(u64::MAX, time_beyond(slice.later));
    lesser(own, next)
}

/// The least begin of a slice of the thread of the first one of these that is greater than its own,
/// of slices that stand in order. `past` is that of the second one.
pub fn past_begin(slices: &[StreamSlice<'_>], past: Option<u64>) -> Option<u64>
    ensures { (t : ToldSlice) (ts : List ToldSlice) → AreEntriesOf slices.now (t ∷ ts) → past ≡ past_of ts → result ≡ past_of (t ∷ ts) }
{
    let (slice, later) = slices.split_first()?;
    let next = later.first()?;
    if process_of(next) != process_of(slice) {
        None
    } else if begin_of(slice) < begin_of(next) {
        Some(begin_of(next))
    } else {
        past
    }
}

/// The end of a slice, if it begins before a time, where its thread's next greater begin is this
/// one.
pub fn end_early(slice: &StreamSlice<'_>, time: u64, past: Option<u64>) -> Option<u64>
    requires { (list : List Packet) × Hold (rest_of slice.now.later) list }
    ensures { (t : ToldSlice) → IsEntryOf slice.now t → result ≡ early time t past }
{
    if begin_of(slice) < time {
        Some(end_before(slice, past))
    } else {
        None
    }
}

/// Whether a slice begins before a time.
fn any_early(slices: &[StreamSlice<'_>], time: u64) -> bool
    ensures { result ≡ list_any (λ (e : StreamSlice). nat_lt (clock_of e.start) time) slices.now }
{
    slices.iter().any(|slice| begin_of(slice) < time)
}

/// The greatest of a time and of the ends of the slices that begin before it, of slices that stand
/// in order.
fn last_end(slices: &[StreamSlice<'_>], time: u64) -> u64
    requires { (ts : List ToldSlice) × AreEntriesOf slices.now ts }
    ensures { (ts : List ToldSlice) → AreEntriesOf slices.now ts → result ≡ greatest (time ∷ ends_in time ts) }
{
    let mut last = time;
    let mut past = None;
    for i in (0..slices.len()).rev() {
        past = past_begin(&slices[i..], past);
        last = later_by(last, end_early(&slices[i], time, past));
    }
    last
}

/// 1 of a stream of which a packet is left, 0 of another one.
fn opens(window: &StreamWindow<'_>) -> usize
    ensures opening { (l : LeftPackets) → IsLeft window.now l → result ≡ length (cons_option (opening l) []) }
    ensures few { result ≤ 1 }
{
    match opening(window) {
        None => 0,
        Some(_) => 1,
    }
}

/// Whether two or more streams have a window.
pub fn several(windows: &[StreamWindow<'_>]) -> bool
    ensures { (lefts : List LeftPackets) → AreLeft windows.now lefts → result ≡ nat_lt 1 (length (filter_map opening lefts)) }
{
    let mut count = 0usize;
    for window in windows {
        count += opens(window);
    }
    count > 1
}

/// How many packets streams have.
pub fn packets(windows: &[StreamWindow<'_>]) -> u32
    requires { sum_by (λ (w : StreamWindow). w.count) windows.now < 2 ^ 32 }
    ensures { result ≡ sum_by (λ (w : StreamWindow). w.count) windows.now }
{
    let mut count = 0u32;
    for window in windows {
        count += window.count;
    }
    count
}

/// How many packets of a stream are skipped.
fn skipped_in(window: &StreamWindow<'_>) -> u32
    ensures { result ≡ skipped_of window.now }
{
    match window.begin {
        None => window.count,
        Some(begin) => begin.number,
    }
}

/// How many packets of streams are skipped.
pub fn skipped(windows: &[StreamWindow<'_>]) -> u32
    requires { sum_by skipped_of windows.now < 2 ^ 32 }
    ensures { result ≡ sum_by skipped_of windows.now }
{
    let mut count = 0u32;
    for window in windows {
        count += skipped_in(window);
    }
    count
}

/// The time until which anything may have happened, of the slices of all windows, of the time from
/// which on all streams tell, and of whether they are several. The slices are put in order.
pub fn untraced(
    slices: &mut Vec<StreamSlice<'_>>,
    time: u64,
    several: bool,
) -> Result<Option<u64>, PathFault>
    requires { (ts : List ToldSlice) × AreEntriesOf slices.old.items ts }
    ensures ok { (from : ℕ) (lists : List (List Packet)) → AreEntriesOf slices.old.items (slices_told (all_windows from lists)) →
        IfOk result (λ untraced. untraced ≡ (if several then Some (greatest (time ∷ ends_of time (slices_told (all_windows from lists)))) else None)) }
    ensures err { IfErr result (λ e. e ≡ OutOfMemory) }
{
    if !several {
        return Ok(None);
    }
    if !any_early(slices, time) {
        return Ok(Some(time));
    }
    put_in_order(slices)?;
    Ok(Some(last_end(slices, time)))
}
