//! What the executable and the core file tell.

use crate::files::Files;
use rept_dump::Dump;
use std::alloc::{AllocError, Global};
use test_kit::Numbers;

/// The first number of a line is 1 where the core file is read as that of several threads.
pub fn answer(
    alloc: Global,
    asked: &str,
    files: &Files,
    n: &Numbers,
) -> Result<String, AllocError> {
    match files.dump(n.word(0) == 1) {
        Some(Ok(dump)) => seen(alloc, asked, &dump, n),
        _ => String::from_str(alloc, "no dump"),
    }
}

/// The word of code or the byte at an address, or what is told of a thread.
fn seen(alloc: Global, asked: &str, dump: &Dump<'_>, n: &Numbers) -> Result<String, AllocError> {
    match asked {
        "word" => format!(in alloc; "{:?}", dump.word_of_code(n.word(1))),
        "byte" => format!(in alloc; "{:?}", dump.byte(n.word(1))),
        "status" => status(alloc, dump, n),
        _ => String::from_str(alloc, "no case"),
    }
}

/// How many threads there are; of one of them the pc, the signal, the process, and the registers
/// from a number on up to before another one.
fn status(alloc: Global, dump: &Dump<'_>, n: &Numbers) -> Result<String, AllocError> {
    let thread = n.word(1);
    if thread >= dump.threads() {
        return String::from_str(alloc, "no thread");
    }
    let status = dump.status_of(thread);
    format!(in alloc;
        "{} threads, {:#x} {} {} {:?}",
        dump.threads(),
        status.pc,
        status.signal,
        status.pid,
        status.regs.get(n.word(2) as usize..n.word(3) as usize)
    )
}
