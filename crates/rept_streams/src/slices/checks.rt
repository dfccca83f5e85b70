//! Why several streams are refused before their slices are looked at.

ghost use Rattle.std.specs.Prelude.{◌≡◌, ℕ, List, [], ◌∷◌, None};
ghost use Rattle.rept_trace.specs.declared.packet.Packet.{Packet};
ghost use Rattle.rept_trace.specs.Stream.{Stream};
ghost use Rattle.rept_streams.specs.Slices.Checks.{first_fault, startless, time_back, all_idle};
ghost use Rattle.rept_streams.specs.Slices.Lefts.{AreLeft};
ghost use Rattle.rept_streams.specs.Slices.Skipping.{whole, windows as all_windows};
ghost use Rattle.rept_streams.specs.Slices.Windows.{IsStreamWindow, AreAll};

use crate::slices::back::time_back;
use crate::slices::reading::StreamWindow;
use rept_path::PathFault;

/// Why a stream has packets and no window, if it is so.
fn startless(window: &StreamWindow<'_>) -> Option<PathFault>
    ensures { (s k from : ℕ) (stream : Stream) (packets : List Packet) → IsStreamWindow s k from stream packets window.now → result ≡ startless from (record { stream = s; number = k; packets = packets }) }
{
    if window.count == 0 {
        return None;
    }
    match window.begin {
        Some(_) => None,
        None => Some(PathFault::NoStart(window.count)),
    }
}

/// The first packet of a stream that is of an earlier time than one before it.
fn first_back(windows: &[StreamWindow<'_>]) -> Option<PathFault>
    requires { (from : ℕ) × (streams : List Stream) × (lists : List (List Packet)) × AreAll from streams lists windows.now }
    ensures { (from : ℕ) (streams : List Stream) (lists : List (List Packet)) → AreAll from streams lists windows.now → result ≡ first_fault time_back (whole lists) }
{
    for window in windows {
        if let Some(fault) = time_back(window.packets, window.number) {
            return Some(fault);
        }
    }
    None
}

/// The first stream that has packets and no window.
fn first_startless(windows: &[StreamWindow<'_>]) -> Option<PathFault>
    ensures { (from : ℕ) (streams : List Stream) (lists : List (List Packet)) → AreAll from streams lists windows.now → result ≡ first_fault (startless from) (whole lists) }
{
    for window in windows {
        if let Some(fault) = startless(window) {
            return Some(fault);
        }
    }
    None
}

/// Whether no stream has a packet.
fn all_idle(windows: &[StreamWindow<'_>]) -> Option<PathFault>
    ensures { (from : ℕ) (streams : List Stream) (lists : List (List Packet)) → AreAll from streams lists windows.now → result ≡ all_idle lists }
{
    for window in windows {
        if window.count > 0 {
            return None;
        }
    }
    Some(PathFault::NoStart(0))
}

/// Why the packets of several streams are refused before their slices are looked at, if they are: a
/// packet is of an earlier time than one before it in its stream, a stream has packets and no
/// window, or no stream has packets. The first of these, and of each the first stream.
pub fn refused_before(windows: &[StreamWindow<'_>]) -> Option<PathFault>
    requires { (from : ℕ) × (streams : List Stream) × (lists : List (List Packet)) × AreAll from streams lists windows.now }
    ensures refusal { (from : ℕ) (streams : List Stream) (lists : List (List Packet)) → AreAll from streams lists windows.now →
        result ≡ first_fault (λ found. found) (first_fault time_back (whole lists) ∷ first_fault (startless from) (whole lists) ∷ all_idle lists ∷ []) }

    // Where they aren't, what is left of them is that from their windows on.
    ensures left { (from : ℕ) (streams : List Stream) (lists : List (List Packet)) → AreAll from streams lists windows.now → result ≡ None → AreLeft windows.now (all_windows from lists) }
{
    if let Some(fault) = first_back(windows) {
        return Some(fault);
    }
    if let Some(fault) = first_startless(windows) {
        return Some(fault);
    }
    all_idle(windows)
}
