//! Rows of several threads that don't lie wholly before a moment, and those that may act between
//! two.

ghost use Rattle.std.specs.Prelude.{◌≡◌, ◌≤◌, ◌<◌, ℕ, true, false, IsSome, None, slice_index_or};
ghost use Rattle.rept_report.specs.Timeline.{IsActingFrom};
ghost use Rattle.rept_moments.specs.Several.{seen_of};
ghost use Rattle.rept_moments.specs.Between.{IsOwnBetween};
ghost use Rattle.rept_extents.specs.Timelines.{as_timeline, IsOpenFrom};
ghost use Rattle.rept_timeline.specs.Listed.{AreStoring, ArePastFirst};

use crate::storing::{ListPart, Storing};
use rept_moments::Many;

/// The last point of a row's thread.
pub fn last_of(many: &Many<'_>, row: u32) -> u32
    requires { IsSome ((seen_of many.now).legs.row row) }
    ensures up { row < result }
    ensures inside { result ≤ (seen_of many.now).legs.count }
    ensures rows { (q : ℕ) → row ≤ q → q < result → IsSome ((seen_of many.now).legs.row q) }
{
    match many.next_last(row) {
        Some(last) => last,
        None => row,
    }
}

/// The place of the first row of a part of the list that doesn't lie wholly before a moment, or the
/// part's end, found by halves.
fn first_open(storing: &Storing, many: &Many<'_>, m: u32, part: ListPart) -> usize
    requires { ArePastFirst (as_timeline (seen_of many.now)) storing.now part m }
    ensures low { part.low ≤ result }
    ensures high { result ≤ part.high }
    ensures before { (k : ℕ) → part.low ≤ k → k < result → (seen_of many.now).moments.past (slice_index_or storing.now k 0) m ≡ true }
    ensures after { (k : ℕ) → result ≤ k → k < part.high → (seen_of many.now).moments.past (slice_index_or storing.now k 0) m ≡ false }
{
    let mut low = part.low;
    let mut high = part.high;
    while low < high {
        let middle = low + (high - low) / 2;
        if many.is_past(storing.at(middle), m) {
            low = middle + 1;
        } else {
            high = middle;
        }
    }
    low
}

/// A number up to which on from a row all rows of its thread lie wholly before a moment, as this
/// row does: the first one of the list that doesn't, or the thread's last point.
fn past_end(storing: &Storing, many: &Many<'_>, m: u32, row: u32) -> u32
    requires listed { ∥ AreStoring many.now storing.now ∥₁ }
    requires moment { m ≤ (seen_of many.now).moments.end }
    requires row { IsSome ((seen_of many.now).legs.row row) }
    requires past { (seen_of many.now).moments.past row m ≡ true }
    ensures up { row < result }
    ensures inside { result ≤ (seen_of many.now).legs.count }
    ensures past { (i : ℕ) → row ≤ i → i < result → (seen_of many.now).moments.past i m ≡ true }
{
    let last = last_of(many, row);
    let low = storing.begin(row);
    let high = storing.begin(last);
    let place = first_open(storing, many, m, ListPart { low, high });
    if place < high {
        storing.at(place)
    } else {
        last
    }
}

/// The least row from one on that doesn't lie wholly before a moment.
pub fn open_from(storing: &Storing, many: &Many<'_>, m: u32, least: u32) -> Option<u32>
    requires listed { ∥ AreStoring many.now storing.now ∥₁ }
    requires moment { m ≤ (seen_of many.now).moments.end }
    ensures { IsOpenFrom (as_timeline (seen_of many.now)) m least result }
{
    let mut from = least;
    loop {
        let row = match storing.first_from(from) {
            Some(row) => row,
            None => return None,
        };
        if !many.is_past(row, m) {
            return Some(row);
        }
        from = past_end(storing, many, m, row);
    }
}

/// The least row from one on that may act between a number and one that is next to it, where these
/// aren't the moments of one row.
pub fn rest_from(storing: &Storing, many: &Many<'_>, m: u32, w: u32, least: u32) -> Option<u32>
    requires listed { ∥ AreStoring many.now storing.now ∥₁ }
    requires next { (seen_of many.now).moments.next m w ≡ true }
    requires apart { IsOwnBetween many.now m w None }
    ensures { IsActingFrom (as_timeline (seen_of many.now)) m w least result }
{
    let mut from = least;
    loop {
        let row = match open_from(storing, many, m, from) {
            Some(row) => row,
            None => return None,
        };
        if !many.is_ahead(row, w) {
            return Some(row);
        }
        from = last_of(many, row);
    }
}

/// The least row from one on that may act between a number and one that is next to it.
pub fn acting_from(storing: &Storing, many: &Many<'_>, m: u32, w: u32, least: u32) -> Option<u32>
    requires listed { ∥ AreStoring many.now storing.now ∥₁ }
    requires next { (seen_of many.now).moments.next m w ≡ true }
    ensures { IsActingFrom (as_timeline (seen_of many.now)) m w least result }
{
    match many.row_between(m, w) {
        Some(own) => {
            if own < least {
                return None;
            }
            if many.stores(own) { Some(own) } else { None }
        }
        None => rest_from(storing, many, m, w, least),
    }
}
