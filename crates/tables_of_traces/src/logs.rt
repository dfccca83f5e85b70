//! Logs that are recorded.

ghost use Rattle.std.specs.Prelude.{◌<◌, ◌^◌, length};

use rept_ports::{MemSink, MemSource, MemoryFileStore};
use rept_simlog::run;
use std::alloc::{AllocError, Global};
use test_kit::Numbers;

/// The bytes of the trace of a log of one hart, or the refusal and its text.
pub fn record_one(alloc: Global, exe: &[u8], log: &[u8]) -> Result<String, AllocError>
    requires { length log.now < 2 ^ 32 }
{
    match rept_simlog::record(alloc, exe, log) {
        Err(refusal) => format!(in alloc; "{refusal:?}: {refusal}"),
        Ok(trace) => format!(in alloc; "{:?}", trace.bytes()),
    }
}

/// Whether a log names harts, and the bytes of the trace of a log of several harts, or the refusal
/// and its text.
pub fn record_several(alloc: Global, exe: &[u8], log: &[u8]) -> Result<String, AllocError>
    requires { length log.now < 2 ^ 32 }
{
    let names = rept_simlog::names_harts(log);
    match rept_simlog::hartlog::record(alloc, exe, log) {
        Err(refusal) => format!(in alloc; "{names} {refusal:?}: {refusal}"),
        Ok(trace) => format!(in alloc; "{names} {:?}", trace.bytes()),
    }
}

/// How the program ends that writes the trace of a log, and what it wrote to a sink with room for
/// 100 bytes. The executable is missing where the first number is 0; a load, a read and a write
/// fail, which the other numbers tell. No call has the number 0.
pub fn recorded(alloc: Global, exe: &[u8], log: &[u8], n: &Numbers) -> Result<String, AllocError> {
    let mut file_store = MemoryFileStore::new(alloc, &[u64::from(n.word(1))])?;
    if n.word(0) != 0 {
        file_store.put("e", exe)?;
    }
    let mut source = MemSource::new(alloc, log, &[u64::from(n.word(2))])?;
    let mut sink = MemSink::new(alloc, 100, &[u64::from(n.word(3))])?;
    let outcome = run(alloc, "e", &mut file_store, &mut source, &mut sink);
    format!(in alloc; "{outcome:?} {:?}", sink.bytes())
}
