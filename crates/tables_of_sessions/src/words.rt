//! What words of a command line mean, which numbers words spell, and a text with the printed forms
//! of numbers.

use crate::bits;
use rept_opening::meaning;
use rept_word::{Text, cover, decimal, number_in};
use std::alloc::{AllocError, Global};
use test_kit::Numbers;

/// What the words ask for, which numbers one spells, or what is asked of numbers.
pub fn answer(alloc: Global, asked: &str, said: &str, n: &Numbers) -> Result<String, AllocError> {
    match asked {
        "asks" => asked_for(alloc, said),
        "spells" => spelled(alloc, said),
        "bits" => bits::taken(alloc, n),
        "sign" => format!(in alloc; "{:#x}", bits::extended(n)),
        "inverse" => format!(in alloc; "{:#x}", bits::inverse(n.word(0))),
        "cover" => format!(in alloc; "{:#x}", cover(n.word(0))),
        _ => String::from_str(alloc, "no case"),
    }
}

/// Begins a text, or appends a piece or the printed form of a number, and answers whether it was
/// asked to.
pub fn append(
    text: &mut Text,
    alloc: Global,
    asked: &str,
    said: &str,
    n: &Numbers,
) -> Result<bool, AllocError> {
    match asked {
        "text" => *text = Text::new(alloc),
        "piece" => text.push(said.as_bytes())?,
        "decimal" => text.push_decimal(n.word(0))?,
        "hexadecimal" => text.push_word(n.word(0))?,
        "byte" => text.push_byte(n.byte(0))?,
        "count" => text.push_count(u64::from(n.word(0)) << 32 | u64::from(n.word(1)))?,
        _ => return Ok(false),
    }
    Ok(true)
}

/// What the words of a line, parted by single spaces, ask for.
fn asked_for(alloc: Global, line: &str) -> Result<String, AllocError> {
    let mut words = Vec::new(alloc);
    for word in line.split(' ') {
        words.push(String::from_str(alloc, word)?)?;
    }
    format!(in alloc; "{:?}", meaning(alloc, &words)?)
}

/// The number that the word between quotes spells in decimal digits, and the one that it spells in
/// any form.
fn spelled(alloc: Global, word: &str) -> Result<String, AllocError> {
    let word = word.trim_matches('\'').as_bytes();
    format!(in alloc; "{:?}, {:?}", decimal(word), number_in(word))
}
