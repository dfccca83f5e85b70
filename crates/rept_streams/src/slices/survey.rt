//! What several streams tell before a row is walked.

ghost use Rattle.std.specs.Prelude.{◌≡◌, ◌⊎◌, ◌+◌, ◌<◌, ◌^◌, nat_lt, ℕ, List, length, map, IfOk, IfErr, MatchResult};
ghost use Rattle.std.specs.List.{sum_by, filter_map};
ghost use Rattle.rept_trace.specs.declared.packet.Packet.{Packet};
ghost use Rattle.rept_path.specs.declared.fault.PathFault.{PathFault};
ghost use Rattle.rept_path.specs.declared.fault.PathFault.TheVariants.{OutOfMemory};
ghost use Rattle.rept_streams.specs.Slices.Entries.{AreEntriesOf};
ghost use Rattle.rept_streams.specs.Slices.Lefts.{AreLeft};
ghost use Rattle.rept_streams.specs.Slices.Parts.{LeftPackets, slices_told};
ghost use Rattle.rept_streams.specs.Slices.Raw.{IsRefusedBefore, PassBefore};
ghost use Rattle.rept_streams.specs.Slices.Skipping.{windows as all_windows, opening, full_from, from_time, kept};
ghost use Rattle.rept_streams.specs.Slices.Surveyed.{IsSurvey};
ghost use Rattle.rept_streams.specs.declared.slices.reading.StreamWindow.{StreamWindow};

use crate::slices::checks::refused_before;
use crate::slices::keeping::{full_from, keep_from};
use crate::slices::reading::{StreamWindow, read_all};
use crate::slices::strangers::refused_by_threads;
use crate::slices::telling::{StreamSlice, tell_all};
use crate::slices::untraced::{packets, several, skipped};
use rept_path::PathFault;
use rept_trace::Streams;
use std::alloc::Global;

/// What several streams tell before a row is walked.
#[derive(Drop)]
pub struct StreamSurvey<'a> {
    /// The slices of the windows of all streams.
    pub windows: Vec<StreamSlice<'a>>,
    /// The time from which on all streams tell.
    pub time: u64,
    /// Whether two or more streams have a window.
    pub several: bool,
    /// The slices that are left from that time on.
    pub slices: Vec<StreamSlice<'a>>,
    /// How many packets all streams have, and how many of them are skipped.
    pub packets: u32,
    pub skipped: u32,
}

/// The slices of what is left of streams, and those that are left from the time on from which all
/// of them tell.
fn tell_slices<'a>(
    alloc: Global,
    windows: &[StreamWindow<'a>],
) -> Result<StreamSurvey<'a>, PathFault>
    requires left { (lefts : List LeftPackets) × AreLeft windows.now lefts }
    requires few { sum_by (λ (w : StreamWindow). w.count) windows.now < 2 ^ 32 }
    ensures ok { (lefts : List LeftPackets) → AreLeft windows.now lefts →
        IfOk result (λ s. AreEntriesOf s.windows.items (slices_told lefts) × (s.time ≡ full_from lefts) × (s.several ≡ nat_lt 1 (length (filter_map opening lefts))) × AreEntriesOf s.slices.items (slices_told (map (from_time (full_from lefts)) lefts))) }
    ensures packets { IfOk result (λ s. s.packets ≡ sum_by (λ (w : StreamWindow). w.count) windows.now) }
    ensures skipped { (lefts : List LeftPackets) → AreLeft windows.now lefts → IfOk result (λ s. s.skipped + sum_by (λ (l : LeftPackets). length l.packets) (map (from_time (full_from lefts)) lefts) ≡ sum_by (λ (w : StreamWindow). w.count) windows.now) }
    ensures err { IfErr result (λ e. e ≡ OutOfMemory) }
{
    let time = full_from(windows);
    let told = tell_all(alloc, windows, time)?;
    let left = keep_from(alloc, windows, time)?;
    Ok(StreamSurvey {
        windows: told.windows,
        time,
        several: several(windows),
        slices: told.slices,
        packets: packets(windows),
        skipped: skipped(&left),
    })
}

/// The slices of all streams by one way over the packets.
fn survey_once<'a>(
    alloc: Global,
    streams: &Streams<'a>,
    processes: &[u32],
    from: u32,
) -> Result<StreamSurvey<'a>, PathFault>
    requires { sum_by (λ bytes. length bytes) streams.now.streams < 2 ^ 32 }
    ensures ok { IfOk result (λ s. (lists : List (List Packet)) × PassBefore (record { file = streams.now; processes = processes.now; from = from }) lists × IsSurvey from lists s) }
    ensures err { IfErr result (λ e. (e ≡ OutOfMemory) ⊎ IsRefusedBefore (record { file = streams.now; processes = processes.now; from = from }) e) }
{
    let windows = read_all(alloc, streams, from)?;
    if let Some(fault) = refused_before(&windows) {
        return Err(fault);
    }
    let told = tell_slices(alloc, &windows)?;
    if let Some(fault) = refused_by_threads(&told.slices, processes) {
        return Err(fault);
    }
    Ok(told)
}

/// What several streams tell of threads that run as these processes, before a row is walked.
/// Windows begin at start packets of the number `from` in their stream or a later one. The refusals
/// are, in this order: a packet that isn't whole or that the format refuses (`Packet`, numbered
/// through all streams), a packet of an earlier time than one before it in its stream (`TimeBack`),
/// a stream with packets and no window (`NoStart`, with its count of packets), no packets at all
/// (`NoStart(0)`), and then, slice by slice, one of a process that isn't given (`UnknownThread`)
/// and one that begins while another thread runs (`OtherThread`).
pub fn survey_all<'a>(
    alloc: Global,
    streams: &Streams<'a>,
    processes: &[u32],
    from: u32,
) -> Result<StreamSurvey<'a>, PathFault>
    requires { sum_by (λ bytes. length bytes) streams.now.streams < 2 ^ 32 }
    ensures ok { IfOk result (λ s. (lists : List (List Packet)) × PassBefore (record { file = streams.now; processes = processes.now; from = from }) lists × IsSurvey from lists s) }
    ensures err { IfErr result (λ e. (e ≡ OutOfMemory) ⊎ IsRefusedBefore (record { file = streams.now; processes = processes.now; from = from }) e) }

    // They tell nothing else, and are refused for nothing else.
    ensures only_ok { (lists : List (List Packet)) → PassBefore (record { file = streams.now; processes = processes.now; from = from }) lists → IfErr result (λ e. e ≡ OutOfMemory) }
    ensures only_refusal { (fault : PathFault) → IsRefusedBefore (record { file = streams.now; processes = processes.now; from = from }) fault → MatchResult result (λ _. ⊥) (λ e. (e ≡ OutOfMemory) ⊎ (e ≡ fault)) }
{
    survey_once(alloc, streams, processes, from)
}
