//! From the words to the end of the dialog.

ghost use Rattle.std.specs.Prelude.{◌≡◌, ◌≤◌, ◌<◌, ◌^◌, map, length, string_bytes, IfOk, IfErr, IfSome};
ghost use Rattle.rept_ports.specs.Port.{move};
ghost use Rattle.rept_opening.specs.Loading.{FileStoreMoves, crash_bytes, FaultsEnd};
ghost use Rattle.rept_opening.specs.Words.Words.{meaning_of};
ghost use Rattle.rept_debug.specs.Debugged.{HasNoTalk, IsDebugged, IsHeld, IsRefusedCrash, MayGreet, Notices, streams};

use crate::files::process_files;
use crate::mapped::debug_mapped;
use crate::no_talk::GdbError;
use crate::talk::{GdbSession, debug_trace};
use rept_amo::Atomic;
use rept_found::{reports_are_true, trips_are_true};
use rept_known::Both;
use rept_opening::{CrashFiles, LoadedRequest, Refusal, load_files, read_dump};
use rept_partial::Range;
use rept_ports::{FileStore, Sink, Source};
use rept_streams::is_several;
use std::alloc::Global;

/// Opens the crash that the words name, as a session does, and answers a debugger over its report:
/// `open EXE CORE TRACE` (or `bits`), or `maps CORE TRACE`, and maybe the number of a packet. From
/// the first packet, where that run has too many steps, it begins from a later one. The refusals
/// are those of a session, in its order, and words that ask for a made run are refused as usage.
/// The first packets of the debugger are answered before the crash is analysed; at a refusal these
/// answers stand.
pub fn debug<H: FileStore, S: Source, K: Sink, E: Sink>(
    alloc: Global,
    words: &[String],
    file_store: &mut H,
    input: &mut S,
    out: &mut K,
    errors: &mut E,
) -> Result<GdbSession, GdbError>
    // What arrived was answered over the report of the files, and all that the report tells holds
    // in every execution of all threads that ends in the crash.
    ensures debugged { IfOk result (λ talk. IfSome (H.port file_store.old).files (λ files. IsDebugged (map string_bytes words.now) files (streams (move (S.port input.old) (S.port input.new)) (move (K.port out.old) (K.port out.new)) (move (E.port errors.old) (E.port errors.new))) talk)) }

    // Why not, where the files are told; the ports are as they were.
    ensures refused { IfErr result (λ why. IfSome (H.port file_store.old).files (λ files. HasNoTalk (map string_bytes words.now) files (move (H.port file_store.old) (H.port file_store.new)) why)) }
    ensures greeted { IfErr result (λ _. MayGreet (move (S.port input.old) (S.port input.new)) (move (K.port out.old) (K.port out.new))) }
    ensures noticed { IfErr result (λ _. Notices (move (E.port errors.old) (E.port errors.new))) }

    // The files stay. At most one fault is counted, and none before a dialog, unless a mapped file
    // that is passed over counts one.
    ensures files { (H.port file_store.new).files ≡ (H.port file_store.old).files }
    ensures later { (H.port file_store.old).faults ≤ (H.port file_store.new).faults }
    ensures file_store { FaultsEnd (meaning_of (map string_bytes words.now)) (H.port file_store.old).files → FileStoreMoves (move (H.port file_store.old) (H.port file_store.new)) result }
{
    reports_are_true::<Range, Atomic>();
    reports_are_true::<Both, Atomic>();
    trips_are_true::<Range, Atomic>();
    trips_are_true::<Both, Atomic>();
    match load_files(alloc, words, file_store) {
        Ok(LoadedRequest::Files(files)) => match debug_files(alloc, &files, input, out, errors) {
            Ok(talk) => Ok(talk),
            Err(refusal) => Err(GdbError::Refused(refusal)),
        },
        Ok(LoadedRequest::Maps(files)) => debug_mapped(
            alloc, file_store, &files, input, out, errors,
        ),
        Ok(LoadedRequest::Made { .. }) => Err(GdbError::Refused(Refusal::Usage)),
        Err(refusal) => Err(GdbError::Refused(refusal)),
    }
}

/// Answers a debugger over the report of a crash whose files are these bytes.
fn debug_files<S: Source, K: Sink, E: Sink>(
    alloc: Global,
    files: &CrashFiles,
    input: &mut S,
    out: &mut K,
    errors: &mut E,
) -> Result<GdbSession, Refusal>
    requires { length files.now.trace.items < 2 ^ 32 }
    ensures held { IfOk result (IsHeld (crash_bytes files.now.exe.items files.now.core.items files.now.trace.items files.now.manner) (streams (move (S.port input.old) (S.port input.new)) (move (K.port out.old) (K.port out.new)) (move (E.port errors.old) (E.port errors.new)))) }
    ensures refused { IfErr result (IsRefusedCrash (crash_bytes files.now.exe.items files.now.core.items files.now.trace.items files.now.manner)) }
    ensures greeted { IfErr result (λ _. MayGreet (move (S.port input.old) (S.port input.new)) (move (K.port out.old) (K.port out.new))) }
    ensures noticed { IfErr result (λ _. Notices (move (E.port errors.old) (E.port errors.new))) }
{
    let exe = files.exe.as_slice();
    let core = files.core.as_slice();
    let trace = files.trace.as_slice();
    let dump = match read_dump(exe, core, is_several(trace)) {
        Ok(dump) => dump,
        Err(refusal) => return Err(refusal),
    };
    let process = process_files(exe, core);
    debug_trace(
        alloc,
        trace,
        &dump,
        process,
        files.manner,
        input,
        out,
        errors,
    )
}
