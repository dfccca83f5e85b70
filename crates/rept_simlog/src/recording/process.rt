//! The words of the process, its streams, and the number that it ends with.

ghost use Rattle.std.specs.Prelude.{◌≡◌, map, string_bytes, MatchResult, Err};
ghost use Rattle.std.specs.Process.{exit_status};
ghost use Rattle.std.specs.Result.{result_map_both};
ghost use Rattle.rept_ports.specs.Port.{move};
ghost use Rattle.rept_simlog.specs.Recording.Process.{IsTraceWritten, asked, number_of_end};
ghost use Rattle.rept_simlog.specs.Recording.Worked.{inputs_of};

use crate::recording::stop::RecordError;
use crate::recording::work::run;
use rept_ports::{
    DiskFileStore, FileStore, Sink, Source, StdSink, StdSource, Unreadable, words_of,
};
use std::alloc::Global;
use std::process::ExitCode;
use std::{env, io};

/// The only word.
fn name_of(words: &Result<Vec<String>, Unreadable>) -> Result<&str, RecordError>
    ensures { result_map_both (λ name. name.now) (λ e. e) result ≡ asked (result_map_both (λ v. map string_bytes v.items) (λ e. e) words.now) }
{
    let words = match words {
        Ok(words) => words,
        Err(Unreadable::NotText) => return Err(RecordError::Usage),
        Err(Unreadable::OutOfMemory) => return Err(RecordError::OutOfMemory),
    };
    match words.as_slice() {
        [name] => Ok(name.as_str()),
        _ => Err(RecordError::Usage),
    }
}

/// Writes the trace of the log that comes in, over the executable that the only word names. Words
/// that aren't one, or aren't text, are `Usage`, and words for which there is no memory
/// `OutOfMemory`; nothing is loaded, read or written then.
pub fn answer<H: FileStore, S: Source, K: Sink>(
    alloc: Global,
    words: &Result<Vec<String>, Unreadable>,
    file_store: &mut H,
    input: &mut S,
    out: &mut K,
) -> Result<(), RecordError>
    ensures { MatchResult (asked (result_map_both (λ v. map string_bytes v.items) (λ e. e) words.now))
        (λ name. IsTraceWritten (inputs_of name (move (H.port file_store.old) (H.port file_store.new)) (move (S.port input.old) (S.port input.new))) (move (K.port out.old) (K.port out.new)) result)
        (λ stop. (result ≡ Err stop) × (file_store.new ≡ file_store.old) × (input.new ≡ input.old) × (out.new ≡ out.old)) }
{
    let name = match name_of(words) {
        Ok(name) => name,
        Err(stop) => return Err(stop),
    };
    run(alloc, name, file_store, input, out)
}

/// The number that the process ends with.
fn exit_code(end: &Result<(), RecordError>) -> ExitCode
    ensures { exit_status result ≡ number_of_end end.now }
{
    match end {
        Ok(()) => ExitCode::from(0),
        Err(stop) => ExitCode::from(stop.number()),
    }
}

/// Runs over the system's files and streams, on the words after the program's name. Why no trace is
/// written is told on standard error.
pub fn record_input<R: AllocGlobal + env::Env + std::fs::Files + Input + Print + Eprint>(
    rt: &R,
) -> ExitCode {
    let words = words_of(rt.alloc(), env::args(rt));
    let mut file_store = DiskFileStore::new(rt);
    let mut source = StdSource::new(rt.reader());
    let mut sink = StdSink::new(io::writer(rt));
    let end = answer(rt.alloc(), &words, &mut file_store, &mut source, &mut sink);
    if let Err(stop) = &end {
        let _ = eprintln!(rt; "{stop}");
    }
    exit_code(&end)
}
