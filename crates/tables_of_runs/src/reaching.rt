//! Between which moments a row may act, and how far a byte's value goes at once.

use rept_report::NumberWindow;
use rept_timeline::RunPaths;
use std::alloc::{AllocError, Global};
use test_kit::Numbers;

/// An answer on the rows of a run.
pub fn reaching(
    alloc: Global,
    paths: &RunPaths<'_>,
    asked: &str,
    n: &Numbers,
) -> Result<String, AllocError> {
    match asked {
        "falls" => may_act(alloc, paths, n),
        "bars" => surely_blocks(alloc, paths, n.word(0), n.word(1)),
        "extent" => extent(alloc, paths, n.word(0)),
        "leaving" => leaving(alloc, paths, n),
        _ => reached(alloc, paths, n.word(0), n.word(1)),
    }
}

/// Whether a row may act between two moments.
fn may_act(alloc: Global, rows: &RunPaths<'_>, n: &Numbers) -> Result<String, AllocError> {
    let (row, m, w) = (n.word(0), n.word(1), n.word(2));
    if rows.row(row).is_none() || m > rows.end() {
        return String::from_str(alloc, "no such row or moment");
    }
    match rows.next_from(m, w) {
        Some(next) => format!(in alloc; "{next} {}", rows.may_act(row, m, next)),
        None => String::from_str(alloc, "not next"),
    }
}

/// Whether it is sure that a row may act after a moment, whatever comes next.
fn surely_blocks(
    alloc: Global,
    rows: &RunPaths<'_>,
    row: u32,
    m: u32,
) -> Result<String, AllocError> {
    if rows.row(row).is_none() {
        return String::from_str(alloc, "no row");
    }
    format!(in alloc; "{}", rows.surely_blocks(row, m))
}

/// The numbers between which a row may act.
fn extent(alloc: Global, rows: &RunPaths<'_>, row: u32) -> Result<String, AllocError> {
    if rows.row(row).is_none() {
        return String::from_str(alloc, "no row");
    }
    let window = rows.extent(row);
    format!(in alloc; "{} to {}", window.from, window.to)
}

/// Of the numbers of a window from one on the first from which a value may go out of the window, or
/// the last.
fn leaving(alloc: Global, rows: &RunPaths<'_>, n: &Numbers) -> Result<String, AllocError> {
    let (least, last, from) = (n.word(0), n.word(1), n.word(2));
    if from > least || least > last || last > rows.end() {
        return String::from_str(alloc, "no such moments");
    }
    let known = NumberWindow { from, to: last + 1 };
    format!(in alloc; "{}", rows.leaving_from(least, known))
}

/// Up and down to which numbers a value goes from the one to the other.
fn reached(alloc: Global, rows: &RunPaths<'_>, from: u32, last: u32) -> Result<String, AllocError> {
    let end = rows.end();
    if from > last || last > end {
        return String::from_str(alloc, "no such moments");
    }
    let known = NumberWindow { from, to: last + 1 };
    let up = rows.reached_up(known, end);
    let down = rows.reached_down(known, 0);
    format!(in alloc; "{down} to {up}")
}
