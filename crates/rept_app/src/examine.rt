//! From the bytes of the files to the study of their run.

ghost use Rattle.std.specs.Prelude.{◌≡◌, ◌⊎◌, ◌<◌, ◌^◌, ℕ, List, length, IfSome};
ghost use Rattle.std.specs.Option.{option_map};
ghost use Rattle.rept_elf.specs.Image.{file_of, segments_of};
ghost use Rattle.rept_dump.specs.Dump.{core_of, exe_of};
ghost use Rattle.rept_ports.specs.Port.{move};
ghost use Rattle.rept_found.specs.Crash.{crash_of};
ghost use Rattle.rept_streams.specs.Runs.Kind.{is_several};
ghost use Rattle.rept_opening.specs.Delivered.{Delivers};
ghost use Rattle.rept_app.specs.Examine.{Examines, IsExamined, FilesExclude, FilesHold, WalksTrace, IsWalked, TraceExcludes, WalkHolds};
ghost use Rattle.rept_opening.specs.Beyond.{executable_of};
ghost use Rattle.rept_opening.specs.Loading.{crash_bytes};
ghost use Rattle.rept_opening.specs.Reading.{AreNotesOf, HasNotes};
ghost use Rattle.rept_opening.specs.Opened.{crash_trace};

use crate::study::study;
use rept_dump::Dump;
use rept_opening::{
    CrashImages, ExitStatus, OpenOptions, Refusal, crash_images, read_dump, run_for, tell,
};
use rept_ports::{Sink, Source};
use rept_streams::is_several;
use std::alloc::Global;

/// Reads the files, rebuilds the run from a packet on, and studies it in a domain.
pub fn examine<S: Source, K: Sink>(
    alloc: Global,
    exe: &[u8],
    core: &[u8],
    trace: &[u8],
    manner: OpenOptions,
    input: &mut S,
    out: &mut K,
) -> ExitStatus
    requires { length trace.now < 2 ^ 32 }
    ensures text { IfSome (S.port input.old).bytes (λ bytes. Delivers (Examines (crash_bytes exe.now core.now trace.now manner) (record { input = bytes; left = (S.port input.new).bytes })) (move (K.port out.old) (K.port out.new)) result) }
    ensures causes { IsExamined (crash_bytes exe.now core.now trace.now manner) (move (S.port input.old) (S.port input.new)) (move (K.port out.old) (K.port out.new)) result }
    ensures stays { (input.new ≡ input.old) ⊎ FilesHold (crash_bytes exe.now core.now trace.now manner) result }
    ensures impossible { result ≡ ExitStatus.Inconsistent → FilesExclude (crash_bytes exe.now core.now trace.now manner) }
{
    match read_dump(exe, core, is_several(trace)) {
        Ok(dump) => {
            let images = crash_images(exe, core);
            walk(alloc, &dump, images, trace, manner, input, out)
        }
        Err(refusal) => tell(alloc, out, &refusal),
    }
}

/// Rebuilds the run of the dump's threads and studies it; `images` are the files of the dump.
/// A trace of several streams wants the registers of each thread.
pub fn walk<S: Source, K: Sink>(
    alloc: Global,
    dump: &Dump<'_>,
    images: CrashImages<'_>,
    trace: &[u8],
    manner: OpenOptions,
    input: &mut S,
    out: &mut K,
) -> ExitStatus
    requires few { length trace.now < 2 ^ 32 }
    requires noted { HasNotes (is_several trace.now) dump.now }
    requires core { segments_of images.core ≡ core_of dump.now }
    requires exe { option_map file_of images.executable ≡ executable_of (exe_of dump.now) }
    ensures text { (notes : List (List ℕ)) → AreNotesOf dump.now notes → IfSome (S.port input.old).bytes (λ bytes. Delivers (WalksTrace (crash_trace (crash_of dump.now notes) trace.now manner) (record { input = bytes; left = (S.port input.new).bytes })) (move (K.port out.old) (K.port out.new)) result) }
    ensures causes { (notes : List (List ℕ)) → AreNotesOf dump.now notes → IsWalked (crash_trace (crash_of dump.now notes) trace.now manner) (move (S.port input.old) (S.port input.new)) (move (K.port out.old) (K.port out.new)) result }
    ensures stays { (notes : List (List ℕ)) → AreNotesOf dump.now notes → (input.new ≡ input.old) ⊎ WalkHolds (crash_trace (crash_of dump.now notes) trace.now manner) result }
    ensures impossible { (notes : List (List ℕ)) → AreNotesOf dump.now notes → result ≡ ExitStatus.Inconsistent → TraceExcludes (crash_trace (crash_of dump.now notes) trace.now manner) }
{
    match run_for(alloc, trace, dump, manner) {
        Ok(run) => study(alloc, manner.domain, &run, dump, images, input, out),
        Err(fault) => tell(alloc, out, &Refusal::Path(fault)),
    }
}
