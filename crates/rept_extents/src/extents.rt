//! Between which numbers each row may act.

ghost use Rattle.std.specs.Prelude.{◌≡◌, ◌≤◌, ◌<◌, ℕ, true, length, IfOk, IsOk, IsSome};
ghost use Rattle.rept_steps.specs.Course.{IsSoundCourse};
ghost use Rattle.rept_steps.specs.Runs.{course_of};
ghost use Rattle.rept_order.specs.Ordered.{course_in};
ghost use Rattle.rept_moments.specs.Courses.{IsCourseOf, is_one};
ghost use Rattle.rept_moments.specs.Several.{seen_of};
ghost use Rattle.rept_report.specs.Timeline.{IsTimeline};
ghost use Rattle.rept_report.specs.Reach.Reaching.{IsExtent};
ghost use Rattle.rept_extents.specs.Timelines.{as_timeline, time_of};
ghost use Rattle.rept_extents.specs.Times.{AreBegins, AreEndTimes};
ghost use Rattle.rept_extents.specs.Extents.{AreExtents};

use crate::times::{begins, ends, first_after, first_reaching, slice_end};
use rept_moments::{Many, NumberedRun, PointOfThread};
use rept_order::{Edge, Order};
use rept_report::NumberWindow;
use rept_steps::Run;
use std::alloc::{AllocError as OutOfMemory, Global};
use std::marker::Model;

/// The numbers between which each row of several threads may act, by the points that rows lead
/// from; of one thread alone none are kept.
#[derive(Drop)]
pub struct Extents {
    windows: Vec<NumberWindow>,
}

impl Model for Extents {
    ghost use Rattle.std.specs.Prelude.{List};
    ghost use Rattle.rept_report.specs.declared.paths.NumberWindow.{NumberWindow};

    ghost Value = { List NumberWindow };

    ghost view = { λ e. e.windows.items };
}

/// A number before which all are ahead of a row.
fn from(order: Order<'_>, many: &Many<'_>, ends: &[u64], row: u32) -> u32
    requires sound { IsSoundCourse (course_in order) }
    requires course { many.now ≡ course_in order }
    requires row { IsSome ((seen_of many.now).legs.row row) }
    requires ends { AreEndTimes many.now ends.now }
    requires few { length ends.now ≤ (seen_of many.now).moments.end }
    ensures { (j : ℕ) → j < result → (seen_of many.now).moments.ahead row j ≡ true }
{
    let PointOfThread { thread, step } = many.place(row);
    let begin = order.begin(Edge {
        thread,
        step,
        last: false,
    });
    first_reaching(ends, many, begin)
}

/// A number from which on a row is past all.
fn to(order: Order<'_>, many: &Many<'_>, begins: &[u64], row: u32) -> u32
    requires sound { IsSoundCourse (course_in order) }
    requires course { many.now ≡ course_in order }
    requires row { IsSome ((seen_of many.now).legs.row row) }
    requires begins { AreBegins many.now (seen_of many.now).moments.end begins.now }
    requires few { length begins.now ≤ (seen_of many.now).moments.end }
    ensures { (j : ℕ) → result ≤ j → j ≤ (seen_of many.now).moments.end → (seen_of many.now).moments.past row j ≡ true }
{
    let PointOfThread { thread, step } = many.place(row);
    let last = Edge {
        thread,
        step,
        last: true,
    };
    match slice_end(order, last) {
        Some(end) => first_after(begins, many, end),
        None => many.end(),
    }
}

/// The numbers between which a row may act, if one leads from the point.
fn window(order: Order<'_>, many: &Many<'_>, begins: &[u64], ends: &[u64], row: u32) -> NumberWindow
    requires sound { IsSoundCourse (course_in order) }
    requires course { many.now ≡ course_in order }
    requires begins { AreBegins many.now (seen_of many.now).moments.end begins.now }
    requires few { length begins.now ≤ (seen_of many.now).moments.end }
    requires ends { AreEndTimes many.now ends.now }
    requires some { length ends.now ≤ (seen_of many.now).moments.end }
    ensures { IsSome ((seen_of many.now).legs.row row) → IsExtent (seen_of many.now).moments row result }
{
    if many.stores(row) {
        let from = from(order, many, ends, row);
        let to = to(order, many, begins, row);
        NumberWindow { from, to }
    } else {
        NumberWindow { from: 0, to: 0 }
    }
}

/// Those of all rows of several threads.
fn windows(
    alloc: Global,
    order: Order<'_>,
    many: &Many<'_>,
) -> Result<Vec<NumberWindow>, OutOfMemory>
    requires sound { IsSoundCourse (course_in order) }
    requires course { many.now ≡ course_in order }
    ensures { IfOk result (λ v. AreExtents (as_timeline (seen_of many.now)) v.items) }
{
    let begins = begins(alloc, order, many)?;
    let ends = ends(alloc, order, many)?;
    let mut windows = Vec::new(alloc);
    for row in 0..many.last_point() {
        windows.push(window(order, many, begins.as_slice(), ends.as_slice(), row))?;
    }
    Ok(windows)
}

impl Extents {
    /// Those of a course, which must be that of a sound run. It takes memory for one entry a point,
    /// and while they are made for two a number; of one thread alone none.
    pub fn new(alloc: Global, run: &Run, course: &NumberedRun<'_>) -> Result<Extents, OutOfMemory>
        requires sound { IsSoundCourse (course_of run.now) }
        requires course { IsCourseOf (course_of run.now) course.now }
        ensures extents { IfOk result (λ e. AreExtents (time_of course.now) e) }
        ensures alone { is_one course.now ≡ true → IsOk result }
    {
        match course {
            NumberedRun::One { .. } => Ok(Extents {
                windows: Vec::new(alloc),
            }),
            NumberedRun::Many(many) => Ok(Extents {
                windows: windows(alloc, Order::new(run), many)?,
            }),
        }
    }

    /// The numbers between which a row may act.
    pub fn of(&self, course: &NumberedRun<'_>, row: u32) -> NumberWindow
        requires extents { ∥ AreExtents (time_of course.now) self.now ∥₁ }
        requires laws { IsTimeline (time_of course.now) }
        requires row { IsSome ((time_of course.now).legs.row row) }
        ensures { IsExtent (time_of course.now).moments row result }
    {
        match course {
            NumberedRun::One { .. } => NumberWindow {
                from: row + 1,
                to: row + 1,
            },
            NumberedRun::Many(many) => self.among(many, row),
        }
    }

    /// Those between which a row of several threads may act.
    fn among(&self, many: &Many<'_>, row: u32) -> NumberWindow
        requires extents { ∥ AreExtents (as_timeline (seen_of many.now)) self.now ∥₁ }
        requires laws { IsTimeline (as_timeline (seen_of many.now)) }
        requires row { IsSome ((seen_of many.now).legs.row row) }
        ensures { IsExtent (seen_of many.now).moments row result }
    {
        match self.windows.get(row as usize) {
            Some(window) => *window,
            None => NumberWindow {
                from: 0,
                to: many.end() + 1,
            },
        }
    }
}
