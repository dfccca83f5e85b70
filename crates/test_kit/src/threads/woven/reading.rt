//! What is rebuilt of a written trace.

ghost use Rattle.std.specs.Prelude.{◌≡◌, ◌⊎◌, ◌<◌, ◌^◌, ℕ, Bool, List, length, map, Err, MatchResult};
ghost use Rattle.rept_dump.specs.Dump.{HasThreads, threads_of, exe_of};
ghost use Rattle.rept_dump.specs.Program.{contents};
ghost use Rattle.rept_trace.specs.Streams.{StreamFile, AreStreams, AreNoStreams};
ghost use Rattle.rept_trace.specs.declared.fault.TraceFault.{TraceFault};
ghost use Rattle.rept_path.specs.declared.fault.PathFault.TheVariants.{Packet, OutOfMemory};
ghost use Rattle.rept_encode.specs.Encoded.{coded};
ghost use Rattle.rept_encode.specs.declared.weaving.stretch.HartStretch.{HartStretch};
ghost use Rattle.rept_encode.specs.Weaving.Woven.{IsWoven};
ghost use Rattle.rept_streams.specs.Slices.Raw.{files_of, note_in, IsRunOfFiles, HasNoRun};
ghost use Rattle.test_kit.specs.Threads.Woven.Ordered.{run_of_harts, AreOrdered, HasStretches};

use rept_dump::Dump;
use rept_path::PathFault;
use rept_steps::Run;
use rept_streams::threads::rebuilding::rebuild_many;
use rept_trace::Streams;
use std::alloc::Global;

/// The run that the bytes of a file of several streams tell of the program of a dump and its
/// threads, as `rebuild_many` rebuilds it from the first packets on, or its refusal. Bytes that are
/// no such file are refused as `Packet`, with the fault of `Streams::open`.
///
/// Of a trace that `weave` wrote this is the run of its harts, unless memory runs out: where the
/// program has the instructions of their stretches, and the stretches and the notes of the threads
/// are in order.
pub fn rebuild_trace(alloc: Global, trace: &[u8], dump: &Dump<'_>) -> Result<Run, PathFault>
    requires { length trace.now < 2 ^ 32 }
    ensures woven { (halves : Bool) (harts : List (List HartStretch)) (descs : List (List ℕ)) → IsWoven halves harts trace.now → HasThreads dump.now descs → threads_of dump.now ≡ length descs → HasStretches (coded halves (contents (exe_of dump.now))) harts → AreOrdered harts (map note_in descs) → MatchResult result (λ run. run ≡ run_of_harts harts (map note_in descs)) (λ e. e ≡ OutOfMemory) }
    ensures read { (file : StreamFile) (descs : List (List ℕ)) → AreStreams trace.now file → HasThreads dump.now descs → threads_of dump.now ≡ length descs → MatchResult result (λ run. IsRunOfFiles (files_of dump.now file descs 0) run) (λ e. (e ≡ OutOfMemory) ⊎ HasNoRun (files_of dump.now file descs 0) e) }
    ensures refused { (fault : TraceFault) → AreNoStreams trace.now fault → result ≡ Err (Packet fault) }
{
    match Streams::open(trace) {
        Ok(streams) => rebuild_many(alloc, streams, dump, 0),
        Err(fault) => Err(PathFault::Packet(fault)),
    }
}
