//! Which row has moments on both sides of it.

ghost use Rattle.rept_report.specs.Timeline.{IsRowBetween};
ghost use Rattle.rept_timeline.specs.Paths.{timeline};

use crate::RunPaths;

/// The row that one moment lies before and another one after, if there is one. There is no second
/// one.
pub fn row_between(paths: &RunPaths<'_>, number: u32, next: u32) -> Option<u32>
    ensures { IsRowBetween (timeline paths.now) number next result }
{
    let row = paths.row_at(number)?;
    if paths.after(row) == next {
        Some(row)
    } else {
        None
    }
}
