//! The top call.

ghost use Rattle.std.specs.Prelude.{◌≡◌, ◌⊎◌, ◌↔◌, map, string_bytes, Contains, IfSome, None};
ghost use Rattle.rept_isa.specs.declared.row.StepRow.{StepRow};
ghost use Rattle.rept_reason.specs.declared.view.inferred.Conclusion.{Conclusion};
ghost use Rattle.rept_reason.specs.View.Seen.{Seen};
ghost use Rattle.rept_amo.specs.Atomic.{atomic_rules};
ghost use Rattle.rept_amo.specs.Rows.{RowConcludes};
ghost use Rattle.rept_ports.specs.Port.{move};
ghost use Rattle.rept_opening.specs.Delivered.{Delivers};
ghost use Rattle.rept_app.specs.Ends.{EndsSession};
ghost use Rattle.rept_opening.specs.Loading.{NamesNone, FaultsEnd};
ghost use Rattle.rept_app.specs.Promise.{Promise};
ghost use Rattle.rept_app.specs.Claims.{AskedHolds, BitsKnowMore, ComeToReport, InferKnowsMore, ReportHolds, NoExecution};
ghost use Rattle.rept_app.specs.Told.{CallWrites, call_input};
ghost use Rattle.rept_app.specs.Top.{AskedEnds, FileStoreCauses, TopCauses, LoadsOf, EndsByFiles, NoneFails, Completes};
ghost use Rattle.rept_opening.specs.Words.Words.{meaning_of};

use crate::examine::examine;
use crate::made_run::tell_made_run;
use crate::mapped::examine_mapped;
use rept_amo::{Atomic, conclusions_are_listed};
use rept_found::{reports_are_true, trips_are_true};
use rept_known::{Both, bits_are_finer};
use rept_opening::{ExitStatus, LoadedRequest, load_files, tell};
use rept_partial::Range;
use rept_ports::{FileStore, Sink, Source};
use rept_report::finer_sets_know_more;
use std::alloc::Global;

/// Opens the crash that the words name, and answers the commands of the input; or sums up a made
/// run.
///
/// The words are `open EXE CORE TRACE`, or `bits` or `infer` in the place of `open`, and maybe the
/// number of the packet to begin from. The executable, the core file and the instruction trace are
/// loaded from the file store. The run of the threads that the trace tells is rebuilt. What
/// registers and memory held along it is inferred from what the core file has of them: values are
/// followed as ranges by `open`, as ranges with known bits by `bits`, and by `infer` more is
/// inferred of a run that is one path. Each command is answered on the output. Where the files
/// contradict each other, or something is refused, one line is written before the status.
///
/// Or they are `maps CORE TRACE`: the files of the program are those that the core file lists as
/// mapped, which are loaded by their names. The first 64 that differ are, one after the other. One
/// is passed over that is missing, over 64 MiB or over what is left of 512 MiB for all of them, or
/// no image.
///
/// Or they are `self SEED STEPS`: the three files of a made crash take the place of files, and the
/// command `summary` that of the input.
pub fn rept<H: FileStore, S: Source, K: Sink>(
    alloc: Global,
    words: &[String],
    file_store: &mut H,
    input: &mut S,
    out: &mut K,
) -> ExitStatus
    // Where the files and the input are told: at status 0 what was written is the answers of a
    // session over the report of the files, and each register, byte, range, known bit and writer of
    // that report holds in every execution of the run that ends in the crash, whatever the order in
    // which its threads took turns; at status 1 there is none.
    ensures promise { IfSome (H.port file_store.old).files (λ files. IfSome (S.port input.old).bytes (λ left.
        Promise (call_input (map string_bytes words.now) files (move (H.port file_store.old) (H.port file_store.new)) (record { input = left; left = (S.port input.new).bytes })) (move (K.port out.old) (K.port out.new)) result)) }

    // Each fault has its cause, for ports that tell their bytes and for ports that don't, and one
    // of the input or the output ends the call. The files stay.
    ensures causes { TopCauses (move (H.port file_store.old) (H.port file_store.new)) (move (S.port input.old) (S.port input.new)) (move (K.port out.old) (K.port out.new)) result }

    // A fault of the file store ends the call too, unless it is that of a mapped file that is
    // passed over.
    ensures once { FaultsEnd (meaning_of (map string_bytes words.now)) (H.port file_store.old).files → FileStoreCauses (move (H.port file_store.old) (H.port file_store.new)) result }

    // The words alone decide on the usage line.
    ensures usage { result ≡ ExitStatus.Usage → meaning_of (map string_bytes words.now) ≡ None }
    ensures no_meaning { meaning_of (map string_bytes words.now) ≡ None → (result ≡ ExitStatus.Usage) ⊎ (result ≡ ExitStatus.OutputFault) ⊎ (result ≡ ExitStatus.OutOfMemory) }

    // Words that name no files leave the file store as it was. Else the files before the last load
    // are there, and within their limits.
    ensures idle { NamesNone (meaning_of (map string_bytes words.now)) → file_store.new ≡ file_store.old }
    ensures loads { LoadsOf (meaning_of (map string_bytes words.now)) (move (H.port file_store.old) (H.port file_store.new)) result }

    // The input is as it was, unless a session was held; and that is only where the files come to a
    // report.
    ensures stays { (input.new ≡ input.old) ⊎ (EndsSession result × IfSome (H.port file_store.old).files (ComeToReport (map string_bytes words.now))) }

    // Where the files are told, they decide on each other status, unless a port fails or memory
    // runs out.
    ensures files { IfSome (H.port file_store.old).files (λ files. EndsByFiles (map string_bytes words.now) files result) }

    // What is written, where files and input tell their bytes.
    ensures text { IfSome (H.port file_store.old).files (λ files. IfSome (S.port input.old).bytes (λ left.
        Delivers (CallWrites (call_input (map string_bytes words.now) files (move (H.port file_store.old) (H.port file_store.new)) (record { input = left; left = (S.port input.new).bytes }))) (move (K.port out.old) (K.port out.new)) result)) }

    // Where no count rose, all of it is written, or memory ran out.
    ensures complete { IfSome (H.port file_store.old).files (λ files. IfSome (S.port input.old).bytes (λ left.
        NoneFails (move (H.port file_store.old) (H.port file_store.new)) (move (S.port input.old) (S.port input.new)) (move (K.port out.old) (K.port out.new)) → Completes (call_input (map string_bytes words.now) files (move (H.port file_store.old) (H.port file_store.new)) (record { input = left; left = (S.port input.new).bytes })) (move (K.port out.old) (K.port out.new)) result)) }

    // A made run: nothing is loaded or read, and the status is `Ok` unless the output fails or
    // memory runs out. An execution of its path ends in the dump, and what is told holds in it.
    ensures unread { NamesNone (meaning_of (map string_bytes words.now)) → input.new ≡ input.old }
    ensures made { AskedEnds (meaning_of (map string_bytes words.now)) result }
    ensures executed { AskedHolds (meaning_of (map string_bytes words.now)) }

    // What is told of values, bytes, ranges and writers holds in every execution of the run that
    // ends in the dump, and reasons rest on it; a conflict is told only where there is no such
    // execution.
    ensures sound { IfSome (H.port file_store.old).files (λ files. ReportHolds (map string_bytes words.now) files) }
    ensures impossible { IfSome (H.port file_store.old).files (λ files. result ≡ ExitStatus.Inconsistent → NoExecution (map string_bytes words.now) files) }

    // The report is what follows by the rules of rows, which are the cases of a relation: each
    // conclusion by one of them, and no other.
    ensures rules { (row : StepRow) (s : Seen) (d : Conclusion) → Contains (atomic_rules.infer row s) d ↔ RowConcludes row s d }

    // Each fact of the report of `open` is told by `bits` of the same files, and no range is wider.
    ensures bits { IfSome (H.port file_store.old).files (λ files. BitsKnowMore (map string_bytes words.now) files) }

    // All that `bits` tells of registers and bytes is told by `infer` of the same files, and no set
    // is wider. So it is where `infer` analyses a run whose untraced prefix ends earlier.
    ensures infer { IfSome (H.port file_store.old).files (λ files. InferKnowsMore (map string_bytes words.now) files) }
{
    conclusions_are_listed();
    reports_are_true::<Range, Atomic>();
    reports_are_true::<Both, Atomic>();
    trips_are_true::<Range, Atomic>();
    trips_are_true::<Both, Atomic>();
    bits_are_finer();
    finer_sets_know_more::<Both, Range, Atomic>();
    match load_files(alloc, words, file_store) {
        Ok(LoadedRequest::Files(files)) => {
            let exe = files.exe.as_slice();
            let core = files.core.as_slice();
            let trace = files.trace.as_slice();
            examine(alloc, exe, core, trace, files.manner, input, out)
        }
        Ok(LoadedRequest::Maps(files)) => examine_mapped(alloc, file_store, &files, input, out),
        Ok(LoadedRequest::Made { seed, steps }) => tell_made_run(alloc, seed, steps, out),
        Err(refusal) => tell(alloc, out, &refusal),
    }
}
