//! Dialogs with a debugger over the files of the folder.

use crate::crash::{Crash, word_list};
use rept_debug::answer;
use rept_ports::{DiskFileStore, InfallibleSource, MemSink};
use std::alloc::AllocError;

/// The number of the process and what was written, where the program for a debugger is given these
/// words and the input.
pub fn told<R: AllocGlobal + std::fs::Files>(
    rt: &R,
    crash: &Crash,
    line: &str,
) -> Result<String, AllocError> {
    let alloc = rt.alloc();
    let words = word_list(alloc, line)?;
    let mut file_store = DiskFileStore::new(rt);
    let mut source = InfallibleSource::new(crash.input());
    let mut sink = MemSink::new(alloc, 20000, &[])?;
    let mut errors = MemSink::new(alloc, 100, &[])?;
    let code = answer(
        alloc,
        Ok(words),
        &mut file_store,
        &mut source,
        &mut sink,
        &mut errors,
    );
    let text = String::from_utf8_lossy(alloc, sink.bytes())?;
    format!(in alloc; "{code:?}\n{text}")
}
