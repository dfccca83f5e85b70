//! What sets of values have in common: ranges, one value or any, known bits, and these with a
//! range.

use crate::shown::{Value, range_at, set};
use rept_known::{Bits, Both, least_from};
use rept_partial::{Flat, Partial};
use std::alloc::{AllocError, Global};
use test_kit::Numbers;

pub fn answer(alloc: Global, asked: &str, n: &Numbers) -> Result<String, AllocError> {
    match asked {
        "set-range" => set(alloc, range_at(n, 0).meet(range_at(n, 2))),
        "set-value" => set(alloc, Flat::of(n.known(0)).meet(Flat::of(n.known(1)))),
        "set-bits" => show_bits(alloc, bits_at(n, 0).meet(bits_at(n, 2))),
        "set-least" => format!(in alloc; "{}", Value(least_from(bits_at(n, 0), n.word(2)))),
        "set-reduced" => show_both(alloc, Both::new(range_at(n, 0), bits_at(n, 2))),
        _ => show_both(alloc, word_or_any(n.known(0)).meet(word_or_any(n.known(1)))),
    }
}

/// The set of two numbers of a line: the bits that are set, and the open ones. Without open ones it
/// is that word, and without both any.
pub fn bits_at(n: &Numbers, k: usize) -> Bits {
    match (n.known(k), n.known(k.wrapping_add(1))) {
        (Some(value), Some(loose)) if value & loose == 0 => Bits::new(value, loose),
        (Some(value), None) => Bits::exact(value),
        _ => Bits::unknown(),
    }
}

/// One word, or any.
fn word_or_any(value: Option<u32>) -> Both {
    match value {
        None => Both::unknown(),
        Some(v) => Both::exact(v),
    }
}

/// The bits that are set and those that are open, the bounds and the only value.
pub fn show_bits(alloc: Global, found: Option<Bits>) -> Result<String, AllocError> {
    match found {
        None => String::from_str(alloc, "none"),
        Some(bits) => format!(in alloc;
            "{bits:?} {:#x} to {:#x}, {:?}",
            bits.lo(),
            bits.hi(),
            bits.as_exact()
        ),
    }
}

/// A range and bits, and the only value.
pub fn show_both(alloc: Global, found: Option<Both>) -> Result<String, AllocError> {
    let exact = match found {
        None => None,
        Some(both) => both.as_exact(),
    };
    format!(in alloc; "{found:?} {exact:?}")
}
