//! Which rows may act between two moments, and which aren't out of the way of one or of another
//! row.

use rept_timeline::RunPaths;
use std::alloc::{AllocError, Global};
use test_kit::Numbers;

/// The first row from one on that may act between two moments.
pub fn acting(alloc: Global, paths: &RunPaths<'_>, n: &Numbers) -> Result<String, AllocError> {
    let (m, w) = (n.word(0), n.word(1));
    match paths.ways().next_from(m, w) {
        Some(next) if next == w => format!(in alloc; "{:?}", paths.acting_from(m, w, n.word(2))),
        _ => String::from_str(alloc, "not next"),
    }
}

/// The first row from one on that may not be over at a moment.
pub fn open(alloc: Global, paths: &RunPaths<'_>, m: u32, least: u32) -> Result<String, AllocError> {
    if m > paths.ways().course().end() {
        return String::from_str(alloc, "past the end");
    }
    format!(in alloc; "{:?}", paths.open_from(m, least))
}

/// The first row from one on that neither comes before a row nor after it.
pub fn close(
    alloc: Global,
    paths: &RunPaths<'_>,
    row: u32,
    least: u32,
) -> Result<String, AllocError> {
    if paths.row(row).is_none() {
        return String::from_str(alloc, "no row");
    }
    format!(in alloc; "{:?}", paths.close_from(row, least))
}

/// The numbers around one between which the same may act, and the number at which it does.
pub fn strip(alloc: Global, paths: &RunPaths<'_>, m: u32) -> Result<String, AllocError> {
    if m > paths.ways().course().end() {
        return String::from_str(alloc, "past the end");
    }
    let strip = paths.strip_of(m);
    format!(in alloc; "{} to {}, {:?}", strip.first, strip.last, strip.pause)
}

/// The least number of a last point from a number on, the row that a number comes before, and the
/// line of a number.
pub fn around(alloc: Global, paths: &RunPaths<'_>, m: u32) -> Result<String, AllocError> {
    if m > paths.ways().course().end() {
        return String::from_str(alloc, "past the end");
    }
    let line = paths.line_of(m);
    format!(in alloc;
        "{:?} {:?} {} to {}",
        paths.next_last(m),
        paths.row_at(m),
        line.first,
        line.last
    )
}
