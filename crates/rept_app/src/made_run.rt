//! The summary of a made run.

ghost use Rattle.std.specs.Prelude.{◌<◌, ◌≤◌, ◌^◌, ℕ, length};
ghost use Rattle.rept_make.specs.Made.{IsMade};
ghost use Rattle.rept_ports.specs.Port.{Port, move};
ghost use Rattle.rept_opening.specs.Delivered.{Delivers};
ghost use Rattle.rept_app.specs.Ends.{Yields, PortsEnd};
ghost use Rattle.rept_app.specs.MadeRun.{Sums};

use crate::examine::examine;
use rept_amo::Atomic;
use rept_make::{Made, make};
use rept_opening::{Domain, ExitStatus, OpenOptions, tell_no_memory};
use rept_partial::Range;
use rept_ports::{InfallibleSource, Sink};
use rept_report::reports_are_sound;
use std::alloc::Global;

/// Makes the crash of a seed after so many steps, and writes the summary of its analysis. No file
/// is loaded, and no input is read.
pub fn tell_made_run<K: Sink>(alloc: Global, seed: u32, steps: u32, out: &mut K) -> ExitStatus
    requires some { 1 ≤ steps }
    requires few { steps ≤ 20000 }
    ensures text { Delivers (Sums seed steps) (move (K.port out.old) (K.port out.new)) result }
    ensures yields { Yields ExitStatus.Ok result }
    ensures ports { (source : Port) → PortsEnd (move source source) (move (K.port out.old) (K.port out.new)) result }
{
    match make(alloc, seed, steps) {
        Ok(made) => answer_summary(alloc, &made, out),
        Err(_) => tell_no_memory(out),
    }
}

/// Examines the files of a made crash, and answers `summary`.
fn answer_summary<K: Sink>(alloc: Global, made: &Made, out: &mut K) -> ExitStatus
    requires few { length made.now.trace < 2 ^ 32 }
    ensures text { (seed steps : ℕ) → IsMade seed steps made.now → Delivers (Sums seed steps) (move (K.port out.old) (K.port out.new)) result }
    ensures yields { (seed steps : ℕ) → IsMade seed steps made.now → Yields ExitStatus.Ok result }
    ensures ports { (seed steps : ℕ) → IsMade seed steps made.now → (source : Port) → PortsEnd (move source source) (move (K.port out.old) (K.port out.new)) result }
{
    reports_are_sound::<Range, Atomic>();
    let exe = made.exe.bytes();
    let core = made.core.bytes();
    let trace = made.trace.bytes();
    let mut input = InfallibleSource::new(b"summary\n");
    let manner = OpenOptions {
        from: 0,
        domain: Domain::Ranges,
    };
    examine(alloc, exe, core, trace, manner, &mut input, out)
}
