//! The words of the process, its streams, and the number that it ends with.

ghost use Rattle.std.specs.Prelude.{◌≡◌, map, string_bytes, IfOk};
ghost use Rattle.std.specs.Process.{exit_status};
ghost use Rattle.std.specs.Result.{result_map_both};
ghost use Rattle.rept_ports.specs.Port.{move};
ghost use Rattle.rept_debug.specs.Process.{AnswersDebugging, OpensTalk, names_way, process, session_words, status_of_end};

use crate::debugging::debug;
use crate::dialog::SessionEnd;
use crate::no_talk::GdbError;
use crate::talk::GdbSession;
use crate::telling::tell_no_talk;
use rept_opening::{ExitStatus, Refusal};
use rept_ports::{
    DiskFileStore, FileStore, Sink, Source, StdSink, StdSource, Unreadable, words_of,
};
use rept_remote::Ending;
use rept_word::OutOfMemory;
use std::alloc::Global;
use std::process::ExitCode;
use std::{env, io};

/// Whether the first word is `open`, `bits` or `infer`.
fn names_way(words: &[String]) -> bool
    ensures { result ≡ names_way (map string_bytes words.now) }
{
    match words {
        [] => false,
        [first, ..] => {
            first.as_str() == "open" || first.as_str() == "bits" || first.as_str() == "infer"
        }
    }
}

/// The words of a session over the crash that these words name: these, where the first is `open`,
/// `bits` or `infer`, and else `infer` and these.
fn session_words(alloc: Global, words: Vec<String>) -> Result<Vec<String>, OutOfMemory>
    ensures { IfOk result (λ all. map string_bytes all.items ≡ session_words (map string_bytes words.items)) }
{
    if names_way(words.as_slice()) {
        return Ok(words);
    }
    let infer = String::from_str(alloc, "infer")?;
    let mut all = words;
    all.insert(0, infer)?;
    Ok(all)
}

/// The status of a dialog that was held. A debugger that is gone is no fault.
fn end_status(end: SessionEnd) -> ExitStatus
    ensures { result ≡ status_of_end end }
{
    match end {
        SessionEnd::Left => ExitStatus::Ok,
        SessionEnd::Ended(Ending::AtEnd) => ExitStatus::Ok,
        SessionEnd::Ended(Ending::InPacket) => ExitStatus::Ok,
        SessionEnd::Ended(Ending::ReadFault) => ExitStatus::InputFault,
        SessionEnd::Ended(Ending::TooMuchInput) => ExitStatus::TooMuchInput,
        SessionEnd::OutputFault => ExitStatus::OutputFault,
        SessionEnd::OutOfMemory => ExitStatus::OutOfMemory,
    }
}

/// Opens the crash that the words name for a debugger.
fn open<H: FileStore, S: Source, K: Sink, E: Sink>(
    alloc: Global,
    words: Result<Vec<String>, Unreadable>,
    file_store: &mut H,
    input: &mut S,
    out: &mut K,
    errors: &mut E,
) -> Result<GdbSession, GdbError>
    ensures { OpensTalk (process (result_map_both (λ v. map string_bytes v.items) (λ e. e) words) (move (H.port file_store.old) (H.port file_store.new)) (move (S.port input.old) (S.port input.new)) (move (K.port out.old) (K.port out.new)) (move (E.port errors.old) (E.port errors.new))) result }
{
    let words = match words {
        Ok(words) => words,
        Err(Unreadable::NotText) => return Err(GdbError::Refused(Refusal::Usage)),
        Err(Unreadable::OutOfMemory) => return Err(GdbError::Refused(Refusal::OutOfMemory)),
    };
    match session_words(alloc, words) {
        Ok(all) => debug(alloc, all.as_slice(), file_store, input, out, errors),
        Err(_) => Err(GdbError::Refused(Refusal::OutOfMemory)),
    }
}

/// Answers a debugger over the crash that the words name, and answers the number of the status:
/// that of the dialog's end, or that of the refusal, of which a line is written to `errors`.
pub fn answer<H: FileStore, S: Source, K: Sink, E: Sink>(
    alloc: Global,
    words: Result<Vec<String>, Unreadable>,
    file_store: &mut H,
    input: &mut S,
    out: &mut K,
    errors: &mut E,
) -> ExitCode
    ensures { AnswersDebugging (process (result_map_both (λ v. map string_bytes v.items) (λ e. e) words) (move (H.port file_store.old) (H.port file_store.new)) (move (S.port input.old) (S.port input.new)) (move (K.port out.old) (K.port out.new)) (move (E.port errors.old) (E.port errors.new))) (exit_status result) }
{
    match open(alloc, words, file_store, input, out, errors) {
        Ok(talk) => ExitCode::from(end_status(talk.end).number()),
        Err(why) => {
            tell_no_talk(alloc, errors, &why);
            ExitCode::from(why.status().number())
        }
    }
}

/// Answers a debugger over the system's files and streams, on the words after the program's name.
pub fn run(rt: HostRuntime) -> ExitCode {
    let words = words_of(rt.alloc(), env::args(&rt));
    let mut file_store = DiskFileStore::new(&rt);
    let mut source = StdSource::new(rt.reader());
    let mut sink = StdSink::new(io::writer(&rt));
    let mut errors = StdSink::new(rt.stderr());
    answer(
        rt.alloc(),
        words,
        &mut file_store,
        &mut source,
        &mut sink,
        &mut errors,
    )
}
