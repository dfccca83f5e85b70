//! Two streams that tell of one thread at a time.

ghost use Rattle.std.specs.Prelude.{◌≡◌, ◌==◌, ◌≤◌, ◌∷◌, ℕ, List, map};
ghost use Rattle.std.specs.List.{filter};
ghost use Rattle.std.specs.List.Sorted.{IsNonDecreasingBy};
ghost use Rattle.rept_trace.specs.declared.packet.Packet.{Packet};
ghost use Rattle.rept_trace.specs.Packets.{rest_of};
ghost use Rattle.rept_trace.specs.Stream.{Hold};
ghost use Rattle.rept_streams.specs.Slices.Stamps.{stamp_of, is_past, context_of};
ghost use Rattle.rept_streams.specs.Slices.Parts.{ToldSlice, thread_of, begin_of};
ghost use Rattle.rept_streams.specs.Slices.Entries.{IsEntryOf, AreEntriesOf};
ghost use Rattle.rept_streams.specs.Slices.Order.{head_of, starts_past, lasts_past, meets, slices_of};
ghost use Rattle.rept_streams.specs.Slices.Checks.{first_fault};
ghost use Rattle.rept_streams.specs.Slices.Many.{overlap_fault};
ghost use Rattle.rept_streams.specs.Slices.Ends.{IsInTurn, InTurn, KeepTurn, met_next, first_met};
ghost use Rattle.rept_streams.specs.declared.threads.walks.Walked.{Walked};

use crate::slices::order::{begin_of, process_of};
use crate::slices::scan::{closes, time_of};
use crate::slices::telling::{StreamSlice, is_start};
use crate::threads::walks::{Walked, of_thread};
use rept_path::PathFault;
use rept_path::window::next_packet;
use rept_trace::{Packet, Packets};

/// Whether a packet has a time, which is later than this one.
fn is_past(packet: Packet, time: u64) -> bool
    ensures { result ≡ is_past time (stamp_of packet) }
{
    match time_of(packet) {
        None => false,
        Some(other) => time < other,
    }
}

/// Whether a packet is a start packet of a later time than this one.
fn starts_past(packet: Packet, time: u64) -> bool
    ensures { result ≡ starts_past time packet }
{
    is_start(packet) && is_past(packet, time)
}

/// Whether a slice lasts past a time, by the packets after its start packet: one of them, or the
/// start packet that ends it, is of a later time.
fn lasts_past(later: Packets<'_>, time: u64) -> bool
    requires { (list : List Packet) × Hold (rest_of later) list }
    ensures { (t : ToldSlice) → Hold (rest_of later.entry) t.later → result ≡ lasts_past time t }
{
    let mut rest = later;
    while let Some(packet) = next_packet(&mut rest) {
        if closes(packet) {
            return starts_past(packet, time);
        }
        if is_past(packet, time) {
            return true;
        }
    }
    false
}

/// Whether a slice meets one that stands after it among those of their thread, in order: they are
/// of different streams, and begin at one time, or the former one lasts past the begin of the
/// latter.
fn meets(former: &StreamSlice<'_>, latter: &StreamSlice<'_>) -> bool
    requires { (t : ToldSlice) × IsEntryOf former.now t }
    ensures { (t u : ToldSlice) → IsEntryOf former.now t → IsEntryOf latter.now u → thread_of t ≡ thread_of u → begin_of t ≤ begin_of u → result ≡ meets t u }
{
    if former.stream == latter.stream {
        return false;
    }
    let begin = begin_of(latter);
    begin_of(former) == begin || lasts_past(former.later, begin)
}

/// The begin of the second one of slices of a thread, which stand in order, if the first one meets
/// it.
fn next_met(slices: &[Walked<'_>]) -> Option<u64>
    requires { (ts : List ToldSlice) × AreEntriesOf (map (λ (w : Walked). w.slice) slices.now) ts }
    ensures { (t : ToldSlice) (later : List ToldSlice) → AreEntriesOf (map (λ (w : Walked). w.slice) slices.now) (t ∷ later) → IsInTurn t (head_of later) → result ≡ met_next t (head_of later) }
{
    let (walked, later) = slices.split_first()?;
    let next = later.first()?;
    if meets(&walked.slice, &next.slice) {
        Some(begin_of(&next.slice))
    } else {
        None
    }
}

/// The first time at which a slice of a thread is met by the one right before it, of slices that
/// stand in order.
fn first_met(slices: &[Walked<'_>]) -> Option<u64>
    requires { (ts : List ToldSlice) × AreEntriesOf (map (λ (w : Walked). w.slice) slices.now) ts }
    ensures { (ts : List ToldSlice) → AreEntriesOf (map (λ (w : Walked). w.slice) slices.now) ts → InTurn ts → result ≡ first_met ts }
{
    for i in 0..slices.len() {
        if let Some(time) = next_met(&slices[i..]) {
            return Some(time);
        }
    }
    None
}

/// The first thread, of those that run as these processes, of which two streams tell at one time,
/// with the least such time: the refusal, if there is one.
pub fn overlap_fault(slices: &[Walked<'_>], processes: &[u32]) -> Option<PathFault>
    requires order { IsNonDecreasingBy (λ (w : Walked). context_of w.slice.start) slices.now }
    requires told { (ts : List ToldSlice) × AreEntriesOf (map (λ (w : Walked). w.slice) slices.now) ts }
    ensures { (ts : List ToldSlice) → ((process : ℕ) → AreEntriesOf (map (λ (w : Walked). w.slice) (filter (λ (w : Walked). context_of w.slice.start == process) slices.now)) (slices_of process ts)) → KeepTurn ts → result ≡ first_fault (overlap_fault ts) processes.now }
{
    for process in processes {
        if let Some(time) = first_met(of_thread(slices, *process)) {
            return Some(PathFault::SliceOverlap(*process, time));
        }
    }
    None
}
