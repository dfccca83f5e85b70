//! The run that a trace file tells, and the one that is analysed for it.

ghost use Rattle.std.specs.Prelude.{◌≡◌, ◌<◌, ◌≤◌, ◌^◌, ℕ, List, [], ◌∷◌, length, false, IfOk, IfErr};
ghost use Rattle.rept_dump.specs.Dump.{registers_of};
ghost use Rattle.rept_dump.specs.declared.dump.Dump.{Dump};
ghost use Rattle.rept_path.specs.declared.fault.PathFault.TheVariants.{OutOfMemory};
ghost use Rattle.rept_steps.specs.declared.run.Run.{Run};
ghost use Rattle.rept_streams.specs.Runs.Kind.{is_several};
ghost use Rattle.rept_found.specs.Crash.{Crash, crash_of};
ghost use Rattle.rept_opening.specs.Reading.{AreNotesOf, HasNotes};
ghost use Rattle.rept_opening.specs.TraceRun.{FitsDump, IsRunBy, IsRunFound, IsRunOf, IsRunRead, ends_early};

use crate::load::OpenOptions;
use crate::path::trace_path;
use crate::words::Domain;
use rept_dump::Dump;
use rept_path::PathFault;
use rept_steps::{Run, Steps};
use rept_streams::{end_untraced, is_several, read_run};
use std::alloc::Global;

/// The run that a trace file tells of the program and the threads of a dump, from the packet of
/// this number on: of several streams, or of one, which tells the path of one thread. A trace of
/// several streams wants the registers of each thread. The refusal says why it tells none.
pub fn trace_run(alloc: Global, trace: &[u8], dump: &Dump<'_>, from: u32) -> Result<Run, PathFault>
    requires few { length trace.now < 2 ^ 32 }
    requires noted { HasNotes (is_several trace.now) dump.now }
    ensures read { (notes : List (List ℕ)) → AreNotesOf dump.now notes → IsRunRead (crash_of dump.now notes) trace.now from result }
    ensures fits { IfOk result (FitsDump dump.now) }
{
    if is_several(trace) {
        return read_run(alloc, trace, dump, from);
    }
    stream_run(alloc, trace, dump, from)
}

/// Whether the untraced prefix of the run that is analysed ends as early as its streams allow: by
/// `infer`, of a trace of several streams.
fn ends_early(domain: Domain, trace: &[u8]) -> bool
    ensures { result ≡ ends_early domain trace.now }
{
    match domain {
        Domain::Ranges | Domain::KnownBits => false,
        Domain::Inferred => is_several(trace),
    }
}

/// The run that is analysed for one that the trace tells: the told one. By `infer`, of a trace of
/// several streams, it has an untraced prefix that ends as early as its streams allow. The only
/// refusal is want of memory.
pub fn analysed_run(
    alloc: Global,
    told: Run,
    trace: &[u8],
    manner: OpenOptions,
) -> Result<Run, PathFault>
    requires few { length trace.now < 2 ^ 32 }
    requires told { (crash : Crash) × IsRunOf crash trace.now manner.from told }
    ensures by { IfOk result (IsRunBy manner trace.now told) }
    ensures only { (other : Run) → IsRunBy manner trace.now told other → IfOk result (λ run. run ≡ other) }
    ensures fits { (dump : Dump) → FitsDump dump told → IfOk result (FitsDump dump) }
    ensures err { IfErr result (λ e. e ≡ OutOfMemory) }
{
    if ends_early(manner.domain, trace) {
        return end_untraced(alloc, told, trace, manner.from);
    }
    Ok(told)
}

/// The run that is analysed of a trace file, over the program and the threads of a dump: for the
/// run that the trace tells from the packet `manner.from` on. A trace of several streams wants the
/// registers of each thread. The refusal says why the trace tells no run.
pub fn run_for(
    alloc: Global,
    trace: &[u8],
    dump: &Dump<'_>,
    manner: OpenOptions,
) -> Result<Run, PathFault>
    requires few { length trace.now < 2 ^ 32 }
    requires noted { HasNotes (is_several trace.now) dump.now }
    ensures found { (notes : List (List ℕ)) → AreNotesOf dump.now notes → IsRunFound (crash_of dump.now notes) trace.now manner result }
    ensures fits { IfOk result (FitsDump dump.now) }
{
    match trace_run(alloc, trace, dump, manner.from) {
        Ok(told) => analysed_run(alloc, told, trace, manner),
        Err(fault) => Err(fault),
    }
}

/// The run that a trace of one stream tells: the path of one thread.
fn stream_run(alloc: Global, trace: &[u8], dump: &Dump<'_>, from: u32) -> Result<Run, PathFault>
    requires few { length trace.now < 2 ^ 32 }
    requires one { is_several trace.now ≡ false }
    requires noted { HasNotes (is_several trace.now) dump.now }
    ensures read { IsRunRead (crash_of dump.now (registers_of dump.now ∷ [])) trace.now from result }
    ensures fits { IfOk result (FitsDump dump.now) }
{
    let path = match trace_path(alloc, trace, dump, from) {
        Ok(path) => path,
        Err(fault) => return Err(fault),
    };
    has_few_rows(&path.steps);
    match Run::one(alloc, path.steps, path.skipped) {
        Ok(run) => Ok(run),
        Err(_) => Err(PathFault::OutOfMemory),
    }
}

/// For callers whose contracts speak of how many steps there are. The call does nothing.
fn has_few_rows(steps: &Steps)
    ensures { length steps.now ≤ 65536 }
{
    // for the proof alone
    let _count = steps.len();
}
