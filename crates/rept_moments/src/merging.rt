//! Which moments are one with the thread's next one.

ghost use Rattle.std.specs.Prelude.{◌≡◌, ◌+◌, ◌<◌, IfOk};
ghost use Rattle.std.specs.List.Sorted.{IsPermutation};
ghost use Rattle.rept_steps.specs.Course.{IsRow};
ghost use Rattle.rept_order.specs.Moments.{stretch};
ghost use Rattle.rept_order.specs.Moments.Moment.{after};
ghost use Rattle.rept_moments.specs.Naming.Making.{is_still, next_point};
ghost use Rattle.rept_moments.specs.Naming.Numbered.{row_on};
ghost use Rattle.rept_moments.specs.Points.{by_point, points_in};
ghost use Rattle.rept_moments.specs.Writers.{writers_to};
ghost use Rattle.rept_moments.specs.Merging.{rest_from, merged_at};

use crate::points::Points;
use crate::side::PointSide;
use crate::writing::neither;
use rept_order::Rest;
use rept_order::crossing::Writers;
use std::alloc::{AllocError as OutOfMemory, Global};

/// The end of the slice of the row that leads from the point, where one does and its end is known.
fn rest_end(points: &Points<'_>, point: u32) -> Option<u64>
    requires { point < points_in points.now }
    ensures { result ≡ rest_from points.now (row_on points.now point) }
{
    if points.leads(point) {
        points.end(PointSide {
            point,
            is_after: false,
        })
    } else {
        None
    }
}

/// Whether the moment after a row is one with the thread's next one: nothing that may write may act
/// between.
fn is_merged(points: &Points<'_>, writers: &Writers, point: u32, thread: u32) -> bool
    requires row { IsRow points.now (row_on points.now point) }
    requires inside { point + 1 < points_in points.now }
    requires small { point < 66560 }
    requires thread { thread ≡ (row_on points.now point).thread }
    requires writers { IsPermutation (writers_to points.now (points_in points.now)) writers.now }
    ensures { result ≡ is_still points.now (stretch (after (row_on points.now point)) (next_point points.now (row_on points.now point))) }
{
    let from = points.begin(PointSide {
        point,
        is_after: true,
    });
    let to = rest_end(points, point + 1);
    let untraced = points.is_untraced_from(from);
    let crossed = writers.is_crossed(Rest { thread, from, to });
    neither(untraced, crossed)
}

/// By each point, whether the moment after its row is one with the thread's next one.
pub fn merged(
    alloc: Global,
    points: &Points<'_>,
    writers: &Writers,
) -> Result<Vec<bool>, OutOfMemory>
    requires { IsPermutation (writers_to points.now (points_in points.now)) writers.now }
    ensures { IfOk result (λ v. v.items ≡ by_point (merged_at points.now) (points_in points.now)) }
{
    let mut merged = Vec::new(alloc);
    for point in 0..points.count() {
        let is = is_merged_at(points, writers, point);
        merged.push(is)?;
    }
    Ok(merged)
}

/// Whether the moment after the row of one point is one with the thread's next one.
fn is_merged_at(points: &Points<'_>, writers: &Writers, point: u32) -> bool
    requires inside { point < points_in points.now }
    requires small { point < 66560 }
    requires writers { IsPermutation (writers_to points.now (points_in points.now)) writers.now }
    ensures { result ≡ merged_at points.now point }
{
    points.leads(point) && is_merged(points, writers, point, points.thread(point))
}
