//! The lines of a log of several harts: a hart, a thread and an address each.

ghost use Rattle.std.specs.Prelude.{◌≡◌, ℕ, List, true, IfSome, IfNone};
ghost use Rattle.rept_simlog.specs.declared.hartlog.log.HartLogLine.{HartLogLine};
ghost use Rattle.rept_simlog.specs.Hartlog.Log.{IsFirstSpace, IsLogWord, AreNumbers, IsHartEntry, NamesHarts};

use crate::{LogEntry, address_of};

/// A line of a log: its number, from 1 on, and what it gives.
#[derive(Clone, Copy)]
pub struct HartLogLine {
    pub line: u32,
    pub hart: u32,
    /// The number of the thread's process.
    pub thread: u32,
    pub address: u32,
}

/// Whether the log is one of several harts: its first line has a space.
pub fn names_harts(log: &[u8]) -> bool
    ensures yes { result ≡ true → NamesHarts log.now }
    ensures no { NamesHarts log.now → result ≡ true }
{
    for i in 0..log.len() {
        if log[i] == b' ' {
            return true;
        }
        if log[i] == b'\n' {
            return false;
        }
    }
    false
}

/// The length of what stands before the first space.
fn word_length(text: &[u8]) -> Option<usize>
    ensures some { IfSome result (λ size. IsFirstSpace text.now size) }
    ensures none { IfNone result ((size : ℕ) → IsFirstSpace text.now size → ⊥) }
{
    for i in 0..text.len() {
        if text[i] == b' ' {
            return Some(i);
        }
    }
    None
}

/// What stands before the first space, and what after it.
fn cut_word(text: &[u8]) -> Option<(&[u8], &[u8])>
    ensures some { IfSome result (λ parts. IsLogWord text.now parts.0.now parts.1.now) }
    ensures none { IfNone result ((word rest : List ℕ) → IsLogWord text.now word rest → ⊥) }
{
    match word_length(text) {
        Some(size) => Some((&text[..size], &text[size + 1..])),
        None => None,
    }
}

/// The entry of three numbers.
fn entry_by(hart: &[u8], thread: &[u8], address: &[u8], line: u32) -> Option<HartLogLine>
    ensures some { IfSome result (λ entry. AreNumbers hart.now thread.now address.now entry) }
    ensures line { IfSome result (λ entry. entry.line ≡ line) }
    ensures none { IfNone result ((entry : HartLogLine) → AreNumbers hart.now thread.now address.now entry → ⊥) }
{
    Some(HartLogLine {
        line,
        hart: address_of(hart)?,
        thread: address_of(thread)?,
        address: address_of(address)?,
    })
}

impl LogEntry for HartLogLine {
    ghost tells = { IsHartEntry };

    fn of_line(line: &[u8], number: u32) -> Option<HartLogLine> {
        let Some((hart, rest)) = cut_word(line) else {
            return None;
        };
        let Some((thread, address)) = cut_word(rest) else {
            return None;
        };
        entry_by(hart, thread, address, number)
    }
}
