//! Rows of several threads than which another row isn't later.

ghost use Rattle.std.specs.Prelude.{◌≡◌, ◌≤◌, ◌<◌, ℕ, true, false, IsSome};
ghost use Rattle.rept_steps.specs.Course.{IsSoundCourse};
ghost use Rattle.rept_moments.specs.Several.{seen_of};
ghost use Rattle.rept_report.specs.Timeline.{IsLeastFrom};
ghost use Rattle.rept_extents.specs.Timelines.{as_timeline, IsCloseFrom};

use crate::opening::last_of;
use rept_moments::Many;

/// The least row from one on.
fn row_from(many: &Many<'_>, least: u32) -> Option<u32>
    ensures { IsLeastFrom (λ i. IsSome ((seen_of many.now).legs.row i)) least result }
{
    let last = many.last_point();
    let mut at = least;
    while at < last {
        if many.row(at).is_some() {
            return Some(at);
        }
        at += 1;
    }
    None
}

/// The first of the rows of a thread from one on to before another point than which a row isn't
/// later, or that point, found by halves.
fn first_close(many: &Many<'_>, row: u32, first: u32, last: u32) -> u32
    requires sound { ∥ IsSoundCourse many.now ∥₁ }
    requires row { IsSome ((seen_of many.now).legs.row row) }
    requires order { first ≤ last }
    requires rows { (q : ℕ) → first ≤ q → q < last → IsSome ((seen_of many.now).legs.row q) }
    ensures low { first ≤ result }
    ensures high { result ≤ last }
    ensures before { (i : ℕ) → first ≤ i → i < result → (seen_of many.now).moments.later row i ≡ true }
    ensures after { (i : ℕ) → result ≤ i → i < last → (seen_of many.now).moments.later row i ≡ false }
{
    let mut low = first;
    let mut high = last;
    while low < high {
        let middle = low + (high - low) / 2;
        if many.is_later(row, middle) {
            low = middle + 1;
        } else {
            high = middle;
        }
    }
    low
}

/// The least row from one on than which a row isn't later.
pub fn close_from(many: &Many<'_>, row: u32, least: u32) -> Option<u32>
    requires sound { ∥ IsSoundCourse many.now ∥₁ }
    requires row { IsSome ((seen_of many.now).legs.row row) }
    ensures { IsCloseFrom (as_timeline (seen_of many.now)) row least result }
{
    let mut from = least;
    loop {
        let first = match row_from(many, from) {
            Some(first) => first,
            None => return None,
        };
        let last = last_of(many, first);
        let found = first_close(many, row, first, last);
        if found < last {
            return Some(found);
        }
        from = last;
    }
}
