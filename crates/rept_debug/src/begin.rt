//! The packet from which a run is rebuilt, and the run that is analysed for it.

ghost use Rattle.std.specs.Prelude.{◌≡◌, ◌≢◌, ◌<◌, ◌^◌, ℕ, List, length, true, false, IfOk};
ghost use Rattle.rept_path.specs.declared.fault.PathFault.TheVariants as faults;
ghost use Rattle.rept_streams.specs.Runs.Kind.{is_several};
ghost use Rattle.rept_found.specs.Crash.{crash_of};
ghost use Rattle.rept_opening.specs.Opened.{crash_trace};
ghost use Rattle.rept_opening.specs.Reading.{AreNotesOf, HasNotes};
ghost use Rattle.rept_opening.specs.TraceRun.{FitsDump};
ghost use Rattle.rept_debug.specs.Begin.{AreBegun, IsAnalysisBegun, IsKind, IsRefusedAt, IsTooLong};

use rept_dump::Dump;
use rept_opening::{OpenOptions, analysed_run, trace_run};
use rept_path::PathFault;
use rept_steps::Run;
use std::alloc::Global;

/// A run, and the packet from which it was rebuilt.
#[derive(Drop)]
pub struct RunFrom {
    /// the number of the packet
    pub from: u32,
    /// the run
    pub run: Run,
}

/// The run that is analysed for a debugger, and the packet from which it was rebuilt: that of
/// number `manner.from`, or the later one that `begin_run` takes. By `infer` the untraced prefix of
/// that run may end earlier (`analysed_run`). It refuses where `begin_run` does, and for want of
/// memory.
pub fn begin_analysis(
    alloc: Global,
    trace: &[u8],
    dump: &Dump<'_>,
    manner: OpenOptions,
) -> Result<RunFrom, PathFault>
    requires small { length trace.now < 2 ^ 32 }
    requires noted { HasNotes (is_several trace.now) dump.now }
    ensures begun { (notes : List (List ℕ)) → AreNotesOf dump.now notes → IsAnalysisBegun (crash_trace (crash_of dump.now notes) trace.now manner) result }
    ensures fits { IfOk result (λ begun. FitsDump dump.now begun.run) }
{
    let told = match begin_run(alloc, trace, dump, manner.from) {
        Ok(told) => told,
        Err(fault) => return Err(fault),
    };
    let from = told.from;
    let beginning = OpenOptions {
        from,
        domain: manner.domain,
    };
    match analysed_run(alloc, told.run, trace, beginning) {
        Ok(run) => Ok(RunFrom { from, run }),
        Err(fault) => Err(fault),
    }
}

/// The run of a trace from the packet of this number on. From packet 0 on, where that run has more
/// than 65,536 steps, the run from a later packet: nobody should find it by trial. The run from the
/// packet before that one is refused, and not for want of a start. It refuses only where the run
/// from some packet has the fault that is given, and from the next packet on there is no start
/// (`NoStart`).
pub fn begin_run(
    alloc: Global,
    trace: &[u8],
    dump: &Dump<'_>,
    from: u32,
) -> Result<RunFrom, PathFault>
    requires small { length trace.now < 2 ^ 32 }
    requires noted { HasNotes (is_several trace.now) dump.now }
    ensures begun { (notes : List (List ℕ)) → AreNotesOf dump.now notes → AreBegun (crash_of dump.now notes) trace.now from result }
    ensures fits { IfOk result (λ begun. FitsDump dump.now begun.run) }
{
    let fault = match trace_run(alloc, trace, dump, from) {
        Ok(run) => return Ok(RunFrom { from, run }),
        Err(fault) => fault,
    };
    if from > 0 {
        return Err(fault);
    }
    if is_too_long(fault) {
        return later_run(alloc, trace, dump, fault);
    }
    Err(fault)
}

/// Whether a run has too many steps.
fn is_too_long(fault: PathFault) -> bool
    ensures yes { result ≡ true → (packet : ℕ) × (fault ≡ faults.TooLong packet) }
    ensures no { result ≡ false → (packet : ℕ) → fault ≢ faults.TooLong packet }
{
    match fault {
        PathFault::TooLong(_) => true,
        _ => false,
    }
}

/// What the search for a later packet tells apart in a refusal.
enum RefusalKind {
    /// no start
    NoStart,
    /// no memory
    OutOfMemory,
    /// every other one
    Other,
}

/// The kind of a refusal.
fn kind_of(fault: PathFault) -> RefusalKind
    ensures { IsKind fault result }
{
    match fault {
        PathFault::NoStart(_) => RefusalKind::NoStart,
        PathFault::OutOfMemory => RefusalKind::OutOfMemory,
        _ => RefusalKind::Other,
    }
}

/// The run from a later packet than the first one, from which it is too long, sought by halves:
/// from `low` on there is no run, and from `high` on there is one or no start. `first` is the fault
/// of the run from the first packet on.
fn later_run(
    alloc: Global,
    trace: &[u8],
    dump: &Dump<'_>,
    first: PathFault,
) -> Result<RunFrom, PathFault>
    requires small { length trace.now < 2 ^ 32 }
    requires noted { HasNotes (is_several trace.now) dump.now }
    requires long { (notes : List (List ℕ)) → AreNotesOf dump.now notes → IsTooLong (crash_of dump.now notes) trace.now 0 }
    requires refused { (notes : List (List ℕ)) → AreNotesOf dump.now notes → IsRefusedAt (crash_of dump.now notes) trace.now 0 first }
    ensures begun { (notes : List (List ℕ)) → AreNotesOf dump.now notes → AreBegun (crash_of dump.now notes) trace.now 0 result }
    ensures fits { IfOk result (λ begun. FitsDump dump.now begun.run) }
{
    let mut low = 0;
    let mut high = (trace.len() as u32).max(1);
    let mut fault = first;
    let mut found = None;
    while high - low > 1 {
        let middle = low + (high - low) / 2;
        match trace_run(alloc, trace, dump, middle) {
            Ok(run) => {
                high = middle;
                found = Some(run);
            }
            Err(other) => match kind_of(other) {
                RefusalKind::NoStart => {
                    high = middle;
                    found = None;
                }
                RefusalKind::OutOfMemory => return Err(other),
                RefusalKind::Other => {
                    low = middle;
                    fault = other;
                }
            },
        }
    }
    match found {
        Some(run) => Ok(RunFrom { from: high, run }),
        None => Err(fault),
    }
}
