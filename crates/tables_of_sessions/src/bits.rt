//! Bits of a payload, and numbers of 32 bits.

ghost use Rattle.std.specs.Prelude.{◌<◌, ◌≤◌};

use rept_word::{BitCursor, inverse_odd, sext};
use std::alloc::{AllocError, Global};
use std::fmt::Write;
use test_kit::Numbers;

/// How many bytes a payload has: three, or one where the second number of the line is none.
fn size(n: &Numbers) -> usize
    ensures some { 0 < result }
    ensures within { result ≤ 3 }
{
    if n.known(1).is_some() { 3 } else { 1 }
}

/// The numbers that bits of a payload spell: its bytes are the first numbers, and each number after
/// the third is how many bits are taken next, at most 64.
pub fn taken(alloc: Global, n: &Numbers) -> Result<String, AllocError> {
    let bytes = [n.byte(0), n.byte(1), n.byte(2)];
    let mut cursor = BitCursor::new(&bytes[..size(n)]);
    let mut text = String::new(alloc);
    for k in 3..n.count() {
        write!(text, "{:#x} ", cursor.take(n.word(k).min(64)))?;
    }
    Ok(text)
}

/// The number whose sign is at a bit, 0 where there is no such bit.
pub fn extended(n: &Numbers) -> u32 {
    let bits = n.word(1);
    if bits >= 1 && bits <= 32 {
        sext(n.word(0), bits)
    } else {
        0
    }
}

/// The inverse of an odd number, 0 for an even one.
pub fn inverse(v: u32) -> u32 {
    if v % 2 == 1 { inverse_odd(v) } else { 0 }
}
