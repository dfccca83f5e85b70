//! Slices of threads that aren't known.

ghost use Rattle.std.specs.Prelude.{◌≡◌, ◌==◌, List};
ghost use Rattle.std.specs.List.{list_any};
ghost use Rattle.rept_streams.specs.Slices.Stamps.{context_of};
ghost use Rattle.rept_streams.specs.Slices.Parts.{ToldSlice};
ghost use Rattle.rept_streams.specs.Slices.Checks.{first_fault, stranger};
ghost use Rattle.rept_streams.specs.Slices.Entries.{AreEntriesOf, judged, judged_inside};

use crate::slices::telling::StreamSlice;
use rept_path::PathFault;
use rept_trace::Packet;

/// The process of a start packet's thread, 0 of another packet.
pub fn context_of(packet: Packet) -> u32
    ensures { result ≡ context_of packet }
{
    match packet {
        Packet::Start { context, .. } => context,
        Packet::Context { .. }
        | Packet::Support { .. }
        | Packet::Address { .. }
        | Packet::Map { .. }
        | Packet::MapAddress { .. } => 0,
    }
}

/// Whether a process is one of these.
fn is_known(process: u32, processes: &[u32]) -> bool
    ensures { result ≡ list_any (λ known. known == process) processes.now }
{
    processes.iter().any(|known| *known == process)
}

/// Why a slice that begins while a thread runs is refused, if it is.
fn other_thread(number: u32, process: u32, inside: Option<u32>) -> Option<PathFault>
    ensures { result ≡ judged_inside number process inside }
{
    match inside {
        None => None,
        Some(inside) => {
            if inside == process {
                None
            } else {
                Some(PathFault::OtherThread(number, process))
            }
        }
    }
}

/// Why a slice is refused for its thread, if it is.
fn stranger(slice: &StreamSlice<'_>, processes: &[u32]) -> Option<PathFault>
    ensures { result ≡ judged processes.now slice.now.number (context_of slice.now.start) slice.now.inside }
{
    let process = context_of(slice.start);
    if !is_known(process, processes) {
        return Some(PathFault::UnknownThread(slice.number, process));
    }
    other_thread(slice.number, process, slice.inside)
}

/// The first slice of a thread that isn't one of these processes, or that begins while another
/// thread runs: the refusal, if there is one.
pub fn refused_by_threads(slices: &[StreamSlice<'_>], processes: &[u32]) -> Option<PathFault>
    ensures { (ts : List ToldSlice) → AreEntriesOf slices.now ts → result ≡ first_fault (stranger processes.now) ts }
{
    for slice in slices {
        if let Some(fault) = stranger(slice, processes) {
            return Some(fault);
        }
    }
    None
}
