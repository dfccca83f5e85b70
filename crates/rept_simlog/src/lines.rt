//! The lines of a log, and what they tell.

ghost use Rattle.std.specs.Prelude.{◌<◌, ◌^◌, ℕ, List, length, IfOk, IfErr, IfSome, IfNone};
ghost use Rattle.rept_simlog.specs.Lines.{IsLineEnd, IsFirstLine, AreEntries, IsLogFault};

use crate::log::LogFault;
use std::alloc::Global;

/// What a line of a log tells. `tells` says of a line, its number and an entry that the line tells
/// this entry.
pub trait LogEntry: Copy {
    ghost tells: { ℕ → List ℕ → Self → Type 0 };

    /// What the line of this number tells. None of a line that tells nothing.
    fn of_line(line: &[u8], number: u32) -> Option<Self>
        ensures some { IfSome result (λ entry. tells number line.now entry) }
        ensures none { IfNone result ((entry : Self) → tells number line.now entry → ⊥) };
}

/// The length of the first line.
fn line_length(bytes: &[u8]) -> usize
    ensures { IsLineEnd bytes.now result }
{
    for i in 0..bytes.len() {
        if bytes[i] == b'\n' {
            return i;
        }
    }
    bytes.len()
}

/// The first line, and what follows its newline.
fn first_line(bytes: &[u8]) -> (&[u8], &[u8])
    ensures line { IsFirstLine bytes.now result.0.now result.1.now }
    ensures fewer { 0 < length bytes.now → length result.1.now < length bytes.now }
{
    let size = line_length(bytes);
    let line = &bytes[..size];
    if size == bytes.len() {
        return (line, &bytes[size..]);
    }
    (line, &bytes[size + 1..])
}

/// The entries of a log, of which there are fewer than 2^32 bytes.
pub fn entries_of<E: LogEntry>(alloc: Global, log: &[u8]) -> Result<Vec<E>, LogFault>
    requires { length log.now < 2 ^ 32 }
    ensures ok { IfOk result (λ entries. AreEntries E.tells log.now entries.items) }
    ensures err { IfErr result (λ fault. (exe : List ℕ) → IsLogFault E.tells exe log.now fault) }
{
    let mut entries = Vec::new(alloc);
    let mut rest = log;
    let mut number = 0u32;
    while rest.len() > 0 {
        let (line, after) = first_line(rest);
        number += 1;
        let Some(entry) = E::of_line(line, number) else {
            return Err(LogFault::NoEntry(number));
        };
        if let Err(_) = entries.push(entry) {
            return Err(LogFault::OutOfMemory);
        }
        rest = after;
    }
    Ok(entries)
}
