//! The moments of rows in the order of their times.

ghost use Rattle.std.specs.Prelude.{◌≡◌, ◌++◌, ◌∷◌, [], ◌<◌, true, false, IfOk, OnOk};
ghost use Rattle.rept_moments.specs.Points.{points_in};
ghost use Rattle.rept_moments.specs.Ordering.{side, timed, timed_to, by_time, in_time};

use crate::points::Points;
use crate::side::{PointSide, Timed};
use std::alloc::{AllocError as OutOfMemory, Global};

/// A moment of a row, with its time.
fn with_time(points: &Points<'_>, side: PointSide) -> Timed
    requires { side.point < points_in points.now }
    ensures { result ≡ timed points.now side }
{
    Timed {
        time: points.begin(side),
        side,
    }
}

/// Adds the two moments of a row.
fn add_row(list: &mut Vec<Timed>, points: &Points<'_>, point: u32) -> Result<(), OutOfMemory>
    requires { point < points_in points.now }
    ensures { OnOk result (list.new.items ≡ list.old.items ++ timed points.now (side point false) ∷ timed points.now (side point true) ∷ []) }
{
    list.push(with_time(
        points,
        PointSide {
            point,
            is_after: false,
        },
    ))?;
    list.push(with_time(
        points,
        PointSide {
            point,
            is_after: true,
        },
    ))?;
    Ok(())
}

/// The moments of all rows, thread by thread.
fn listed(alloc: Global, points: &Points<'_>) -> Result<Vec<Timed>, OutOfMemory>
    ensures { IfOk result (λ v. v.items ≡ timed_to points.now (points_in points.now)) }
{
    let mut list = Vec::new(alloc);
    for point in 0..points.count() {
        if points.leads(point) {
            add_row(&mut list, points, point)?;
        }
    }
    Ok(list)
}

/// Puts them into the order of their times.
fn sort(list: &mut Vec<Timed>) -> Result<(), OutOfMemory>
    ensures { OnOk result (list.new.items ≡ by_time list.old.items) }
{
    list.sort_by_key(|timed| timed.time)?;
    Ok(())
}

/// The moments of all rows in the order of their times. It takes memory for two entries a row.
pub fn in_time(alloc: Global, points: &Points<'_>) -> Result<Vec<Timed>, OutOfMemory>
    ensures { IfOk result (λ v. v.items ≡ in_time points.now) }
{
    let mut list = listed(alloc, points)?;
    sort(&mut list)?;
    Ok(list)
}
