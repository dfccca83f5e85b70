//! A process that runs the top call: its words, its ports, and the number that it ends with.

ghost use Rattle.std.specs.Prelude.{◌≡◌, map, string_bytes, IfSome, None, Err};
ghost use Rattle.std.specs.Process.{exit_status};
ghost use Rattle.std.specs.Result.{result_map_both};
ghost use Rattle.rept_ports.specs.Port.{move};
ghost use Rattle.rept_opening.specs.Delivered.{Delivers, SaysRefusal};
ghost use Rattle.rept_app.specs.Promise.{Promise};
ghost use Rattle.rept_opening.specs.Status.{number_of_status};
ghost use Rattle.rept_app.specs.Told.{CallWrites, call_input};
ghost use Rattle.rept_opening.specs.Loading.{FaultsEnd};
ghost use Rattle.rept_app.specs.Top.{FileStoreCauses, TopCauses, EndsByFiles};
ghost use Rattle.rept_opening.specs.Words.Words.{meaning_of};
ghost use Rattle.rept_opening.specs.declared.refusal.Refusal.TheVariants as refusal;
ghost use Rattle.rept_app.specs.Process.Process.{Answers, AreWordsRead, process, words_read};

use crate::rept;
use crate::terminal::{ExplainingSink, PromptingSource, Terminals};
use rept_opening::{ExitStatus, tell_no_memory};
use rept_ports::{
    DiskFileStore, FileStore, Sink, Source, StdSink, StdSource, Unreadable, words_of,
};
use std::alloc::Global;
use std::io::IsTerminal;
use std::process::ExitCode;
use std::{env, io};

/// The status of the top call on the words.
fn status_on<H: FileStore, S: Source, K: Sink>(
    alloc: Global,
    words: Result<Vec<String>, Unreadable>,
    file_store: &mut H,
    input: &mut S,
    out: &mut K,
) -> ExitStatus
    ensures promise { let read = result_map_both (λ v. map string_bytes v.items) (λ e. e) words in AreWordsRead read → IfSome (H.port file_store.old).files (λ files. IfSome (S.port input.old).bytes (λ left.
        Promise (call_input (words_read read) files (move (H.port file_store.old) (H.port file_store.new)) (record { input = left; left = (S.port input.new).bytes })) (move (K.port out.old) (K.port out.new)) result)) }
    ensures causes { TopCauses (move (H.port file_store.old) (H.port file_store.new)) (move (S.port input.old) (S.port input.new)) (move (K.port out.old) (K.port out.new)) result }
    ensures once { FaultsEnd (meaning_of (words_read (result_map_both (λ v. map string_bytes v.items) (λ e. e) words))) (H.port file_store.old).files → FileStoreCauses (move (H.port file_store.old) (H.port file_store.new)) result }
    ensures usage { result ≡ ExitStatus.Usage → meaning_of (words_read (result_map_both (λ v. map string_bytes v.items) (λ e. e) words)) ≡ None }
    ensures files { let read = result_map_both (λ v. map string_bytes v.items) (λ e. e) words in AreWordsRead read → IfSome (H.port file_store.old).files (λ files. EndsByFiles (words_read read) files result) }
    ensures text { let read = result_map_both (λ v. map string_bytes v.items) (λ e. e) words in AreWordsRead read → IfSome (H.port file_store.old).files (λ files. IfSome (S.port input.old).bytes (λ left.
        Delivers (CallWrites (call_input (words_read read) files (move (H.port file_store.old) (H.port file_store.new)) (record { input = left; left = (S.port input.new).bytes }))) (move (K.port out.old) (K.port out.new)) result)) }
    ensures memory { words ≡ Err Unreadable.OutOfMemory → Delivers (SaysRefusal refusal.OutOfMemory) (move (K.port out.old) (K.port out.new)) result }
{
    match words {
        Ok(words) => rept(alloc, words.as_slice(), file_store, input, out),
        Err(Unreadable::NotText) => rept(alloc, &[], file_store, input, out),
        Err(Unreadable::OutOfMemory) => tell_no_memory(out),
    }
}

/// The number of a status.
fn exit_code(status: ExitStatus) -> ExitCode
    ensures { exit_status result ≡ number_of_status status }
{
    ExitCode::from(status.number())
}

/// Runs the top call on the words, or says why they can't be read, and answers the number of the
/// status. Words that aren't text have no meaning, as no words have none; where there is no memory
/// for the words, a line says so.
pub fn answer<H: FileStore, S: Source, K: Sink>(
    alloc: Global,
    words: Result<Vec<String>, Unreadable>,
    file_store: &mut H,
    input: &mut S,
    out: &mut K,
) -> ExitCode
    ensures { (status : ExitStatus) × (exit_status result ≡ number_of_status status)
        × Answers (process (result_map_both (λ v. map string_bytes v.items) (λ e. e) words) (move (H.port file_store.old) (H.port file_store.new)) (move (S.port input.old) (S.port input.new)) (move (K.port out.old) (K.port out.new))) status }
{
    exit_code(status_on(alloc, words, file_store, input, out))
}

/// Runs the top call over the system's files and streams, on the words after the program's name.
/// At a terminal it asks for each line on standard error, and explains each refusal there.
pub fn run(rt: &HostRuntime) -> ExitCode {
    let words = words_of(rt.alloc(), env::args(rt));
    let terminals = Terminals {
        input: rt.stdin().is_terminal(),
        output: rt.stdout().is_terminal(),
    };
    let mut file_store = DiskFileStore::new(rt);
    let mut source = PromptingSource::new(
        StdSource::new(rt.reader()),
        StdSink::new(rt.stderr()),
        terminals.input,
    );
    let mut sink = ExplainingSink::new(
        StdSink::new(io::writer(rt)),
        StdSink::new(rt.stderr()),
        terminals,
    );
    answer(rt.alloc(), words, &mut file_store, &mut source, &mut sink)
}
