//! Rows after which a moment lies.

ghost use Rattle.std.specs.Prelude.{◌≡◌, ◌↔◌, true};
ghost use Rattle.rept_span.specs.Ranges.{AreLegs};
ghost use Rattle.rept_report.specs.Timeline.{IsLeastFrom, IsRowTo};
ghost use Rattle.rept_extents.specs.Timelines.{time_of};

use rept_moments::NumberedRun;

/// Whether the row that leads from a point, if one does, has a moment after it.
fn leads_to(course: &NumberedRun<'_>, row: u32, number: u32) -> bool
    ensures { (result ≡ true) ↔ IsRowTo (time_of course.now) number row }
{
    match course.row(row) {
        None => false,
        Some(_) => course.after(row) == number,
    }
}

/// The least row from one on after which a moment lies, by a look at each.
pub fn row_to(course: &NumberedRun<'_>, number: u32, least: u32) -> Option<u32>
    requires { AreLegs (time_of course.now).legs }
    ensures { IsLeastFrom (IsRowTo (time_of course.now) number) least result }
{
    let last = course.last_point();
    let mut row = least;
    while row < last {
        if leads_to(course, row, number) {
            return Some(row);
        }
        row += 1;
    }
    None
}
