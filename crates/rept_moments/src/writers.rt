//! The rows that may write, with their times.

ghost use Rattle.std.specs.Prelude.{◌≡◌, ◌<◌, IfOk};
ghost use Rattle.std.specs.List.Sorted.{IsPermutation};
ghost use Rattle.rept_moments.specs.Naming.Numbered.{row_on};
ghost use Rattle.rept_moments.specs.Points.{points_in};
ghost use Rattle.rept_moments.specs.Writers.{writer_of, writers_to};

use crate::points::Points;
use crate::side::PointSide;
use rept_order::TimedWriter;
use rept_order::crossing::Writers;
use std::alloc::{AllocError as OutOfMemory, Global};

/// The row with its times.
fn with_times(points: &Points<'_>, point: u32) -> TimedWriter
    requires { point < points_in points.now }
    ensures { result ≡ writer_of points.now (row_on points.now point) }
{
    let end = points.end(PointSide {
        point,
        is_after: true,
    });
    TimedWriter {
        thread: points.thread(point),
        begin: points.begin(PointSide {
            point,
            is_after: false,
        }),
        end: match end {
            Some(end) => end,
            None => u64::MAX,
        },
    }
}

/// All rows that may write, thread by thread.
fn listed(alloc: Global, points: &Points<'_>) -> Result<Vec<TimedWriter>, OutOfMemory>
    ensures { IfOk result (λ v. v.items ≡ writers_to points.now (points_in points.now)) }
{
    let mut list = Vec::new(alloc);
    for point in 0..points.count() {
        if points.stores(point) {
            list.push(with_times(points, point))?;
        }
    }
    Ok(list)
}

/// The rows of the run that may write. It takes memory for two entries each.
pub fn writers_of(alloc: Global, points: &Points<'_>) -> Result<Writers, OutOfMemory>
    ensures { IfOk result (λ w. IsPermutation (writers_to points.now (points_in points.now)) w) }
{
    Writers::new(alloc, listed(alloc, points)?)
}
