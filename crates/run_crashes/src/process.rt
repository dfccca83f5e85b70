//! Words that can't be read.

use rept_app::answer;
use rept_ports::{InfallibleFileStore, InfallibleSource, MemSink, Unreadable};
use std::alloc::{AllocError, Global};

/// The words that a line stands for: none, words that aren't text, or no memory for them.
fn words_of(alloc: Global, line: &str) -> Result<Vec<String>, Unreadable> {
    match line.trim() {
        "none" => Ok(Vec::new(alloc)),
        "text" => Err(Unreadable::NotText),
        _ => Err(Unreadable::OutOfMemory),
    }
}

/// The number of the process and what was written, where the process is given these words, no file
/// and an input of one line.
pub fn told(alloc: Global, line: &str) -> Result<String, AllocError> {
    let words = words_of(alloc, line);
    let mut file_store = InfallibleFileStore::new(alloc);
    let mut source = InfallibleSource::new(b"regs\n");
    let mut sink = MemSink::new(alloc, 200, &[])?;
    let code = answer(alloc, words, &mut file_store, &mut source, &mut sink);
    let text = String::from_utf8_lossy(alloc, sink.bytes())?;
    format!(in alloc; "{code:?}\n{text}")
}
