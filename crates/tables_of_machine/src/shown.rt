//! How values and sets are read and shown.

use rept_partial::{Partial, Range};
use std::alloc::{AllocError, Global};
use std::fmt;
use test_kit::Numbers;

/// A value, or that none is known.
#[derive(Clone, Copy)]
pub struct Value(pub Option<u32>);

impl fmt::Display for Value {
    fn fmt<W: fmt::Write>(&self, f: &mut fmt::Formatter<W>) -> fmt::Result {
        match self.0 {
            None => write!(f, "unknown"),
            Some(n) => write!(f, "{n:#x}"),
        }
    }
}

/// The bounds of a set and its only value, or that there is none in it.
pub fn set<P: Partial>(alloc: Global, found: Option<P>) -> Result<String, AllocError> {
    match found {
        None => String::from_str(alloc, "none"),
        Some(set) => format!(in alloc;
            "{:#x} to {:#x}, {}",
            set.lo(),
            set.hi(),
            Value(set.as_exact())
        ),
    }
}

/// Whether something is so.
pub fn yes(is_so: bool) -> &'static str {
    if is_so { "yes" } else { "no" }
}

/// The words from one to another; of bounds that aren't in order, all words.
pub fn range(lo: u32, hi: u32) -> Range {
    if lo <= hi {
        Range::new(lo, hi)
    } else {
        Range::unknown()
    }
}

/// The words from a number of a line to the next one.
pub fn range_at(n: &Numbers, k: usize) -> Range {
    range(n.word(k), n.word(k.wrapping_add(1)))
}
