//! A log over the code of an executable.

ghost use Rattle.std.specs.Prelude.{◌≡◌, ◌<◌, ◌≤◌, ◌^◌, length, None, IfOk, IfErr};
ghost use Rattle.rept_elf.specs.Checks.{checks, first_failure};
ghost use Rattle.rept_elf.specs.declared.fault.Want.TheVariants.{Exec};
ghost use Rattle.rept_simlog.specs.Lines.{AreEntries, IsLogFault, last_entries};
ghost use Rattle.rept_simlog.specs.Program.{program_of, built};

use crate::lines::{LogEntry, entries_of};
use crate::program::LoggedProgram;
use rept_elf::{ElfFault, Image, Want};
use std::alloc::Global;

/// Why an executable and a log over it aren't read. Lines are numbered from 1.
#[derive(Clone, Copy)]
pub enum LogFault {
    /// The executable is refused.
    Executable(ElfFault),
    /// The line of this number tells nothing.
    NoEntry(u32),
    /// No memory was left.
    OutOfMemory,
}

/// The code of an executable, and what the lines of a log over it tell.
#[derive(Drop)]
pub struct Log<'a, E: LogEntry> {
    pub program: LoggedProgram<'a>,
    /// What each line tells, in order.
    pub entries: Vec<E>,
}

/// The most entries that are recorded: one more than the steps of the longest path.
const MOST: usize = 65537;

/// The last entries, as many as are recorded: 65,537 at most, one more than the steps of the
/// longest path.
pub fn last_entries<E: LogEntry>(entries: &[E]) -> &[E]
    ensures last { result.now ≡ last_entries entries.now }
    ensures few { length result.now ≤ 65537 }
{
    if entries.len() > MOST {
        return &entries[entries.len() - MOST..];
    }
    entries
}

/// An executable, and all entries of a log over it. A refusal is that of the executable, or it
/// names the first line that tells nothing; or it is a want of memory and no other fault.
pub fn read_log<'a, E: LogEntry>(
    alloc: Global,
    exe: &'a [u8],
    log: &[u8],
) -> Result<Log<'a, E>, LogFault>
    requires { length log.now < 2 ^ 32 }
    ensures read { IfOk result (λ read. first_failure (checks Exec exe.now) ≡ None) }
    ensures code { IfOk result (λ read. program_of read.program ≡ built exe.now) }
    ensures entries { IfOk result (λ read. AreEntries E.tells log.now read.entries.items) }
    ensures err { IfErr result (λ fault. IsLogFault E.tells exe.now log.now fault) }
{
    let image = match Image::read(exe, Want::Exec) {
        Ok(image) => image,
        Err(fault) => return Err(LogFault::Executable(fault)),
    };
    match entries_of(alloc, log) {
        Ok(entries) => Ok(Log {
            program: LoggedProgram::new(&image),
            entries,
        }),
        Err(fault) => Err(fault),
    }
}
