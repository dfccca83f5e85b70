//! Which rows may act after a moment, whatever comes next, and whether rows have the numbers of
//! moments.

ghost use Rattle.std.specs.Prelude.{◌≡◌, true, IsSome};
ghost use Rattle.rept_steps.specs.Course.{IsSoundCourse};
ghost use Rattle.rept_moments.specs.Courses.{seen_in};
ghost use Rattle.rept_moments.specs.Several.{seen_of};
ghost use Rattle.rept_report.specs.Reach.Reaching.{IsBar};
ghost use Rattle.rept_report.specs.Timeline.{HasEqualNumbers};
ghost use Rattle.rept_extents.specs.Timelines.{IsSoundIn};
ghost use Rattle.rept_extents.specs.Timelines.{time_of};

use rept_moments::{Many, NumberedRun};

/// Whether a row of several threads that may write is neither wholly before a moment nor wholly
/// after it, and the moment is before no row: then the row may act between it and each one that is
/// next to it.
fn is_crossing(many: &Many<'_>, row: u32, number: u32) -> bool
    requires sound { ∥ IsSoundCourse many.now ∥₁ }
    requires row { IsSome ((seen_of many.now).legs.row row) }
    ensures { result ≡ true → IsBar (seen_of many.now).moments row number }
{
    if many.row_at(number).is_some() || !many.stores(row) {
        return false;
    }
    !many.is_past(row, number) && !many.is_ahead(row, number)
}

/// Whether it is sure that a row may act between a number and each one that is next to it.
pub fn surely_blocks(course: &NumberedRun<'_>, row: u32, number: u32) -> bool
    requires sound { ∥ IsSoundIn course.now ∥₁ }
    requires row { IsSome ((seen_in course.now).legs.row row) }
    ensures { result ≡ true → IsBar (seen_in course.now).moments row number }
{
    match course {
        NumberedRun::One { .. } => row == number,
        NumberedRun::Many(many) => is_crossing(many, row, number),
    }
}

/// Whether the moment before each row has the row's number: of one thread in one slice it has.
pub fn has_equal_numbers(course: &NumberedRun<'_>) -> bool
    ensures { result ≡ true → HasEqualNumbers (time_of course.now) }
{
    match course {
        NumberedRun::One { .. } => true,
        NumberedRun::Many(_many) => false,
    }
}
