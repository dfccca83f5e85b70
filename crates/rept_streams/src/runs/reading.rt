//! The run that a trace of several streams tells.

ghost use Rattle.std.specs.Prelude.{◌≡◌, ◌⊎◌, ◌<◌, ◌^◌, ℕ, List, length, map, IfOk, IfErr, MatchResult};
ghost use Rattle.rept_dump.specs.Dump.{HasThreads, threads_of};
ghost use Rattle.rept_steps.specs.Course.{IsSoundCourse};
ghost use Rattle.rept_steps.specs.Runs.{course_of};
ghost use Rattle.rept_steps.specs.declared.run.Run.{Run};
ghost use Rattle.rept_path.specs.declared.fault.PathFault.{PathFault};
ghost use Rattle.rept_path.specs.declared.fault.PathFault.TheVariants.{OutOfMemory};
ghost use Rattle.rept_dump.specs.Registers.{saved_pc};
ghost use Rattle.rept_streams.specs.Slices.Raw.{files_of, code_in, IsRunOfFiles, HasNoRun};
ghost use Rattle.std.specs.List.{sum_by};
ghost use Rattle.rept_streams.specs.Runs.Calls.{entered};
ghost use Rattle.rept_timeline.specs.Small.{IsSmall};
ghost use Rattle.rept_streams.specs.Runs.Told.{traced, AreNotesApart, IsEnteredRun, IsTracedRun, HasNoTracedRun};

use crate::runs::calls::entered;
use crate::threads::notes::notes_of;
use crate::threads::rebuilding::rebuild_many;
use rept_dump::Dump;
use rept_path::PathFault;
use rept_path::program::Program;
use rept_steps::Run;
use rept_trace::Streams;
use std::alloc::Global;

/// Whether code may be compressed, as the file says. No stream, no code.
fn halves_of(streams: &Streams<'_>) -> bool
    ensures { 0 < length streams.now.streams → result ≡ streams.now.halves }
{
    if streams.count() == 0 {
        return false;
    }
    streams.packets(0).halves()
}

/// The run that streams tell, with the calls in which threads stood as what is told of them begins.
fn read_streams(
    alloc: Global,
    streams: Streams<'_>,
    dump: &Dump<'_>,
    from: u32,
) -> Result<Run, PathFault>
    requires { sum_by (λ bytes. length bytes) streams.streams < 2 ^ 32 }
    ensures ok { (descs : List (List ℕ)) → HasThreads dump.now descs → threads_of dump.now ≡ length descs → IfOk result (IsEnteredRun (files_of dump.now streams.entry descs from) (map saved_pc descs)) }
    ensures err { (descs : List (List ℕ)) → HasThreads dump.now descs → threads_of dump.now ≡ length descs → IfErr result (λ e. (e ≡ OutOfMemory) ⊎ HasNoRun (files_of dump.now streams.entry descs from) e) }
    ensures only_run { (descs : List (List ℕ)) (told : Run) → HasThreads dump.now descs → threads_of dump.now ≡ length descs → IsRunOfFiles (files_of dump.now streams.entry descs from) told →
        MatchResult result (λ run. run ≡ entered (code_in (files_of dump.now streams.entry descs from)) (map saved_pc descs) told) (λ e. e ≡ OutOfMemory) }
    ensures only_refusal { (descs : List (List ℕ)) (fault : PathFault) → HasThreads dump.now descs → threads_of dump.now ≡ length descs → HasNoRun (files_of dump.now streams.entry descs from) fault → MatchResult result (λ _. ⊥) (λ e. (e ≡ OutOfMemory) ⊎ (e ≡ fault)) }
    ensures sound { (descs : List (List ℕ)) → HasThreads dump.now descs → threads_of dump.now ≡ length descs → IfOk result (λ run. IsSoundCourse (course_of run)) }
{
    let program = Program::new(dump, halves_of(&streams));
    let notes = notes_of(alloc, dump)?;
    match rebuild_many(alloc, streams, dump, from) {
        Ok(told) => entered(alloc, &program, notes.as_slice(), told),
        Err(fault) => Err(fault),
    }
}

/// The run that the bytes of a trace of several streams tell of the program of a dump and of its
/// threads, those of its notes in their order. Windows of streams begin at start packets of the
/// number `from` in their stream or a later one. The refusals come in this order: bytes that are no
/// such trace, as `Packet` with the fault of `Streams::open`; then those of `rebuild_many`.
/// `OutOfMemory` alone may come at any time.
///
/// A run is sound. Where there are at most 1,024 notes, no two of one process, it is as small as an
/// analysis wants it.
pub fn read_run(alloc: Global, trace: &[u8], dump: &Dump<'_>, from: u32) -> Result<Run, PathFault>
    requires { length trace.now < 2 ^ 32 }
    ensures ok { (descs : List (List ℕ)) → HasThreads dump.now descs → threads_of dump.now ≡ length descs → IfOk result (IsTracedRun (traced dump.now descs trace.now from)) }
    ensures err { (descs : List (List ℕ)) → HasThreads dump.now descs → threads_of dump.now ≡ length descs → IfErr result (λ e. (e ≡ OutOfMemory) ⊎ HasNoTracedRun (traced dump.now descs trace.now from) e) }

    // There is no other run, and no other refusal.
    ensures only_run { (descs : List (List ℕ)) (other : Run) → HasThreads dump.now descs → threads_of dump.now ≡ length descs → IsTracedRun (traced dump.now descs trace.now from) other → MatchResult result (λ run. run ≡ other) (λ e. e ≡ OutOfMemory) }
    ensures only_refusal { (descs : List (List ℕ)) (fault : PathFault) → HasThreads dump.now descs → threads_of dump.now ≡ length descs → HasNoTracedRun (traced dump.now descs trace.now from) fault → MatchResult result (λ _. ⊥) (λ e. (e ≡ OutOfMemory) ⊎ (e ≡ fault)) }
    ensures sound { (descs : List (List ℕ)) → HasThreads dump.now descs → threads_of dump.now ≡ length descs → IfOk result (λ run. IsSoundCourse (course_of run)) }
    ensures small { (descs : List (List ℕ)) → HasThreads dump.now descs → threads_of dump.now ≡ length descs → AreNotesApart descs → IfOk result (λ run. IsSmall (course_of run)) }
{
    match Streams::open(trace) {
        Ok(streams) => read_streams(alloc, streams, dump, from),
        Err(fault) => Err(PathFault::Packet(fault)),
    }
}
