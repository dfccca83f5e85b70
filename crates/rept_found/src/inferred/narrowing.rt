//! What is shown of one register, narrowed by a set.

ghost use Rattle.std.specs.Prelude.{◌≡◌, Some};
ghost use Rattle.rept_found.specs.Inferred.Added.{is_added, value_by};
ghost use Rattle.rept_found.specs.Inferred.Narrowed.{joined, note_by, range_by};

use rept_known::Both;
use rept_partial::{Partial, Range};
use rept_span::Transfer;

/// The known value, or else the only one of the set.
pub fn value_by(known: Option<u32>, set: Both) -> Option<u32>
    ensures { result ≡ value_by known (Some set) }
{
    match known {
        Some(value) => Some(value),
        None => set.as_exact(),
    }
}

/// Whether a value that wasn't known is the only one of the set.
pub fn is_added(known: Option<u32>, set: Both) -> bool
    ensures { result ≡ is_added known (Some set) }
{
    known.is_none() && set.as_exact().is_some()
}

/// The words of the range that lie between the bounds of the set.
pub fn range_by(range: Range, set: Both) -> Range
    ensures { result ≡ range_by range (Some set) }
{
    match range.meet(set.range()) {
        Some(common) => common,
        None => range,
    }
}

/// The bits that are known or that the set knows.
pub fn note_by(known: Option<(u32, u32)>, set: Both) -> Option<(u32, u32)>
    ensures { result ≡ note_by known (Some set) }
{
    match known {
        Some(note) => Some(joined(note, set.note())),
        None => set.note(),
    }
}

/// The bits of both.
fn joined(note: (u32, u32), other: Option<(u32, u32)>) -> (u32, u32)
    ensures { result ≡ joined note other }
{
    match other {
        Some((mask, value)) => (note.0 | mask, note.1 | value),
        None => note,
    }
}
