//! Core files beside their executables.

use rept_dump::{CoreFault, Dump};
use rept_elf::{Image, Want};
use std::alloc::{AllocError, Global};

pub fn answer(
    alloc: Global,
    asked: &str,
    at: u32,
    exe: &[u8],
    core: &[u8],
) -> Result<String, AllocError> {
    match read(exe, core, asked == "dumps") {
        None => String::from_str(alloc, "no files"),
        Some(Err(fault)) => format!(in alloc; "{fault:?}"),
        Some(Ok(dump)) => seen(alloc, asked, &dump, at),
    }
}

/// The dump of an executable and a core file, of one thread or of several. None where one of the
/// files isn't whole.
fn read<'a>(exe: &'a [u8], core: &'a [u8], many: bool) -> Option<Result<Dump<'a>, CoreFault>> {
    match (Image::read(exe, Want::Exec), Image::read(core, Want::Core)) {
        (Ok(exe), Ok(core)) if many => Some(Dump::read_many(exe, core)),
        (Ok(exe), Ok(core)) => Some(Dump::read(exe, core)),
        _ => None,
    }
}

/// The process of a thread, if there is one.
fn process(dump: &Dump<'_>, t: u32) -> Option<u32> {
    if t < dump.threads() {
        Some(dump.status_of(t).pid)
    } else {
        None
    }
}

/// How many threads there are, and the processes of the first three.
fn threads(alloc: Global, dump: &Dump<'_>) -> Result<String, AllocError> {
    let processes = [process(dump, 0), process(dump, 1), process(dump, 2)];
    format!(in alloc; "{} of {processes:?}", dump.threads())
}

/// What a dump has at an address, and what it tells of its first thread.
fn seen(alloc: Global, asked: &str, dump: &Dump<'_>, a: u32) -> Result<String, AllocError> {
    match asked {
        "byte" => format!(in alloc; "{:?}", dump.byte(a)),
        "code" => format!(in alloc; "{:?}", dump.word_of_code(a)),
        "half-of-code" => format!(in alloc; "{:?}", dump.half_of_code(a)),
        "status" => status(alloc, dump),
        _ => threads(alloc, dump),
    }
}

/// The end of the image, the process, the signal, the pc, and x0, x2, x14, x15 and x31.
fn status(alloc: Global, dump: &Dump<'_>) -> Result<String, AllocError> {
    let status = dump.status();
    let [x0, x2, x14] = [status.regs[0], status.regs[2], status.regs[14]];
    let registers = [x0, x2, x14, status.regs[15], status.regs[31]];
    let (pid, signal) = (status.pid, status.signal);
    format!(in alloc;
        "{:#x} {pid} {signal} {:#x} {registers:?}",
        dump.image_end(),
        status.pc
    )
}
