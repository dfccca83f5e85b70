//! From the traces of several harts and a dump to the run.

ghost use Rattle.std.specs.Prelude.{◌≡◌, ◌⊎◌, ◌<◌, ◌^◌, ℕ, List, length, IfOk, IfErr, MatchResult};
ghost use Rattle.rept_dump.specs.Dump.{HasThreads, threads_of};
ghost use Rattle.rept_steps.specs.Course.{IsSoundCourse};
ghost use Rattle.rept_steps.specs.declared.run.Run.{Run};
ghost use Rattle.rept_path.specs.declared.fault.PathFault.{PathFault};
ghost use Rattle.rept_path.specs.declared.fault.PathFault.TheVariants.{OutOfMemory};
ghost use Rattle.rept_streams.specs.Slices.Raw.{files_of, IsRunOfFiles, HasNoRun};
ghost use Rattle.std.specs.List.{sum_by};

use crate::slices::survey::survey_all;
use crate::slices::untraced::untraced;
use crate::threads::joins::Joins;
use crate::threads::meeting::overlap_fault;
use crate::threads::notes::{notes_of, processes_of};
use crate::threads::walks::{put_in_order, walk_all};
use rept_dump::Dump;
use rept_path::PathFault;
use rept_path::program::Program;
use rept_steps::Run;
use rept_trace::Streams;
use std::alloc::Global;

/// Whether code may be compressed, as the file says. No stream, no code.
fn halves_of(streams: &Streams<'_>) -> bool
    ensures { 0 < length streams.now.streams → result ≡ streams.now.halves }
{
    if streams.count() == 0 {
        return false;
    }
    streams.packets(0).halves()
}

/// The run that streams tell, where code is or isn't compressed.
fn rebuild_once(
    alloc: Global,
    streams: Streams<'_>,
    dump: &Dump<'_>,
    from: u32,
) -> Result<Run, PathFault>
    requires { sum_by (λ bytes. length bytes) streams.streams < 2 ^ 32 }
    ensures ok { (descs : List (List ℕ)) → HasThreads dump.now descs → threads_of dump.now ≡ length descs → IfOk result (λ run. IsRunOfFiles (files_of dump.now streams.entry descs from) run) }
    ensures err { (descs : List (List ℕ)) → HasThreads dump.now descs → threads_of dump.now ≡ length descs → IfErr result (λ e. (e ≡ OutOfMemory) ⊎ HasNoRun (files_of dump.now streams.entry descs from) e) }
{
    let notes = notes_of(alloc, dump)?;
    let processes = processes_of(alloc, &notes)?;
    let mut survey = match survey_all(alloc, &streams, &processes, from) {
        Ok(survey) => survey,
        Err(fault) => return Err(fault),
    };
    let (time, several) = (survey.time, survey.several);
    let untraced = untraced(&mut survey.windows, time, several)?;
    let program = Program::new(dump, halves_of(&streams));
    let mut walks = match walk_all(alloc, &program, &survey.slices) {
        Ok(walks) => walks,
        Err(fault) => return Err(fault),
    };
    put_in_order(&mut walks.slices)?;
    if let Some(fault) = overlap_fault(&walks.slices, &processes) {
        return Err(fault);
    }
    let mut joins = Joins {
        program,
        packets: survey.packets,
        stretches: walks.stretches,
        count: walks.rows,
    };
    match joins.threads(alloc, &walks.slices, &notes) {
        Ok(threads) => Ok(Run {
            threads,
            untraced,
            skipped: survey.skipped,
        }),
        Err(fault) => Err(fault),
    }
}

/// The run that several streams of packets mean for a dump's program and its threads, those of the
/// notes in their order (`docs/DESIGN.md` explains the rules). `streams` is as `Streams::open` gave
/// it, of fewer than 2^32 bytes; windows begin at start packets of the number `from` in their
/// stream or a later one. A slice begins at a start packet, and has the steps up to the next one of
/// its stream or to the end of the trace there.
///
/// The refusals come in this order: those of `survey_all`; those of the walks, stream by stream, as
/// `rebuild` has them but for gaps and the end; `SliceOverlap`, of the first thread of which two
/// streams tell at one time, with the least such time; and those of the joins, thread by thread: of
/// a slice with the next one of its thread (`Gap`), and of the last one with the thread's program
/// counter (`End`). More than 65,536 steps in all threads are `TooLong`. `OutOfMemory` alone may
/// come at any time.
pub fn rebuild_many(
    alloc: Global,
    streams: Streams<'_>,
    dump: &Dump<'_>,
    from: u32,
) -> Result<Run, PathFault>
    requires { sum_by (λ bytes. length bytes) streams.streams < 2 ^ 32 }
    ensures ok { (descs : List (List ℕ)) → HasThreads dump.now descs → threads_of dump.now ≡ length descs → IfOk result (λ run. IsRunOfFiles (files_of dump.now streams.entry descs from) run) }
    ensures err { (descs : List (List ℕ)) → HasThreads dump.now descs → threads_of dump.now ≡ length descs → IfErr result (λ e. (e ≡ OutOfMemory) ⊎ HasNoRun (files_of dump.now streams.entry descs from) e) }

    // There is no other run, and no other refusal. Want of memory is none of the definition's.
    ensures only_run { (descs : List (List ℕ)) (found : Run) → HasThreads dump.now descs → threads_of dump.now ≡ length descs → IsRunOfFiles (files_of dump.now streams.entry descs from) found → MatchResult result (λ run. run ≡ found) (λ e. e ≡ OutOfMemory) }
    ensures only_refusal { (descs : List (List ℕ)) (fault : PathFault) → HasThreads dump.now descs → threads_of dump.now ≡ length descs → HasNoRun (files_of dump.now streams.entry descs from) fault → MatchResult result (λ _. ⊥) (λ e. (e ≡ OutOfMemory) ⊎ (e ≡ fault)) }

    // Runs are sound.
    ensures sound { (descs : List (List ℕ)) → HasThreads dump.now descs → threads_of dump.now ≡ length descs → IfOk result (λ run. IsSoundCourse (record { threads = run.threads; untraced = run.untraced })) }
{
    rebuild_once(alloc, streams, dump, from)
}
