//! From the words and the input to the trace that is written.

ghost use Rattle.std.specs.Prelude.{◌≡◌, ◌≤◌, length, IfOk, IfErr, OnOk};
ghost use Rattle.std.specs.Io.KnownBytes.{Consumes, IsAtEnd};
ghost use Rattle.rept_ports.specs.Port.{move};
ghost use Rattle.rept_ports.specs.Shelves.{Loads};
ghost use Rattle.rept_simlog.specs.Recording.Worked.{Ends, Makes, ReadStops, Stops, WritesTrace, inputs_of};

use crate::recording::logs::record;
use crate::recording::stop::RecordError;
use rept_ports::{FileStore, LoadFault, Sink, Source, write_all};
use rept_word::Text;
use std::alloc::Global;

/// The most bytes of an executable.
const EXE_LIMIT: usize = 64 * 1024 * 1024;

/// The most bytes of a log.
const LOG_LIMIT: usize = 256 * 1024 * 1024;

/// Why the input isn't read.
enum InputStop {
    Failed,
    TooMuch,
    OutOfMemory,
}

/// All bytes of the input.
fn read_all<S: Source>(alloc: Global, input: &mut S) -> Result<Vec<u8>, InputStop>
    ensures bytes { IfOk result (λ log. Consumes (S.port input.old).bytes (S.port input.new).bytes log.items) }
    ensures all { OnOk result (IsAtEnd (S.port input.new).bytes) }
    ensures within { IfOk result (λ log. length log.items ≤ LOG_LIMIT) }
    ensures calm { OnOk result ((S.port input.new).faults ≡ (S.port input.old).faults) }
    ensures err { IfErr result (ReadStops (move (S.port input.old) (S.port input.new))) }
{
    let mut log = Vec::new(alloc);
    let mut buffer = [0u8; 4096];
    loop {
        let count = match input.read(&mut buffer) {
            Ok(count) => count,
            Err(_) => return Err(InputStop::Failed),
        };
        if count == 0 {
            return Ok(log);
        }
        if count > LOG_LIMIT - log.len() {
            return Err(InputStop::TooMuch);
        }
        if let Err(_) = log.extend_from_slice(&buffer[..count]) {
            return Err(InputStop::OutOfMemory);
        }
    }
}

/// The trace of the log that comes in, over the executable of a name.
fn trace_of<H: FileStore, S: Source>(
    alloc: Global,
    name: &str,
    file_store: &mut H,
    input: &mut S,
) -> Result<Text, RecordError>
    ensures ok { IfOk result (λ trace. Makes (inputs_of name.now (move (H.port file_store.old) (H.port file_store.new)) (move (S.port input.old) (S.port input.new))) trace) }
    ensures err { IfErr result (Stops (inputs_of name.now (move (H.port file_store.old) (H.port file_store.new)) (move (S.port input.old) (S.port input.new)))) }
    ensures loads { Loads (H.port file_store.old) (H.port file_store.new) result }
{
    let exe = match file_store.load(alloc, name, EXE_LIMIT) {
        Ok(exe) => exe,
        Err(fault) => match fault {
            LoadFault::Failed => return Err(RecordError::LoadFault),
            LoadFault::Missing => return Err(RecordError::NoFile),
            LoadFault::TooLarge => return Err(RecordError::TooLarge),
            LoadFault::OutOfMemory => return Err(RecordError::OutOfMemory),
        },
    };
    let log = match read_all(alloc, input) {
        Ok(log) => log,
        Err(fault) => match fault {
            InputStop::Failed => return Err(RecordError::InputFault),
            InputStop::TooMuch => return Err(RecordError::TooMuchInput),
            InputStop::OutOfMemory => return Err(RecordError::OutOfMemory),
        },
    };
    match record(alloc, exe.as_slice(), log.as_slice()) {
        Ok(trace) => Ok(trace),
        Err(refusal) => Err(RecordError::Refused(refusal)),
    }
}

/// Writes the trace of the log that comes in, over the executable of a name. Nothing is written
/// before all of it was made, and nothing where no trace is made.
///
/// Each `Err` has its cause: `LoadFault` where the file store counted a fault; `NoFile` and
/// `TooLarge` where the file store's files say so, or, of a file store that doesn't tell them,
/// where it counted a fault; `InputFault` and `OutputFault` where that port counted one;
/// `TooMuchInput` where the log has more than 256 MiB; `Refused` where the log isn't that of a run
/// of the executable. `OutOfMemory` may come at any time but after a failed read or write. No other
/// fault is counted.
pub fn run<H: FileStore, S: Source, K: Sink>(
    alloc: Global,
    name: &str,
    file_store: &mut H,
    input: &mut S,
    out: &mut K,
) -> Result<(), RecordError>
    ensures ok { OnOk result (WritesTrace (inputs_of name.now (move (H.port file_store.old) (H.port file_store.new)) (move (S.port input.old) (S.port input.new))) (move (K.port out.old) (K.port out.new))) }
    ensures err { IfErr result (Ends (inputs_of name.now (move (H.port file_store.old) (H.port file_store.new)) (move (S.port input.old) (S.port input.new))) (move (K.port out.old) (K.port out.new))) }
    ensures loads { Loads (H.port file_store.old) (H.port file_store.new) result }
{
    let trace = trace_of(alloc, name, file_store, input)?;
    match write_all(out, trace.bytes()) {
        Ok(()) => Ok(()),
        Err(_) => Err(RecordError::OutputFault),
    }
}
