//! Rows of several threads that don't lie wholly after a moment.

ghost use Rattle.std.specs.Prelude.{◌≡◌, ◌↔◌, ◌≤◌, ◌+◌, ℕ, true, IsSome};
ghost use Rattle.rept_moments.specs.Several.{seen_of};
ghost use Rattle.rept_report.specs.Timeline.{IsBegun};
ghost use Rattle.rept_extents.specs.Timelines.{as_timeline, IsBegunTo};

use rept_moments::Many;

/// Whether a row that is there doesn't lie wholly after a moment.
fn is_begun(many: &Many<'_>, row: u32, number: u32) -> bool
    ensures { (result ≡ true) ↔ IsBegun (as_timeline (seen_of many.now)) number row }
{
    match many.row(row) {
        None => false,
        Some(_) => !many.is_ahead(row, number),
    }
}

/// A number from which on no row up to another number is there.
fn rows_end(many: &Many<'_>, most: u32) -> u32
    ensures few { result ≤ most + 1 }
    ensures none { (k : ℕ) → result ≤ k → k ≤ most → IsSome ((seen_of many.now).legs.row k) → ⊥ }
{
    let last = many.last_point();
    if most < last { most + 1 } else { last }
}

/// The greatest row up to a number that doesn't lie wholly after a moment, by a look at each.
pub fn begun_to(many: &Many<'_>, number: u32, most: u32) -> Option<u32>
    ensures { IsBegunTo (as_timeline (seen_of many.now)) number most result }
{
    let end = rows_end(many, most);
    for row in (0..end).rev() {
        if is_begun(many, row, number) {
            return Some(row);
        }
    }
    None
}
