//! What numbers stand for.

ghost use Rattle.std.specs.Prelude.{◌≡◌};
ghost use Rattle.rept_steps.specs.Course as runs;
ghost use Rattle.rept_moments.specs.Courses.{IsCourseOf};
ghost use Rattle.rept_found.specs.Places.Places.{end_on, point_on, place_on};

use rept_findings::{Place, ThreadPlace, ThreadPoint};
use rept_moments::NumberedRun;
use rept_order::Moment;

/// The thread and the point that a number stands for. A number past that of the last point stands
/// for no point; it is told as if one more thread followed.
pub fn point_of(course: &NumberedRun<'_>, number: u32) -> ThreadPoint
    ensures { (C : runs.Course) → IsCourseOf C course.now → result ≡ point_on C number }
{
    let threads = course.threads();
    let last = course.last_point();
    if threads == 0 {
        return ThreadPoint {
            thread: 0,
            point: number,
        };
    }
    if number <= last {
        let place = course.place(number);
        ThreadPoint {
            thread: place.thread,
            point: place.step,
        }
    } else {
        ThreadPoint {
            thread: threads,
            point: number - last - 1,
        }
    }
}

/// The place of the end: of one thread its last point.
fn end_place(course: &NumberedRun<'_>) -> ThreadPlace
    ensures { (C : runs.Course) → IsCourseOf C course.now → result ≡ end_on C }
{
    if course.threads() == 1 {
        ThreadPlace {
            thread: 0,
            place: Place::Point(course.last_point()),
        }
    } else {
        ThreadPlace {
            thread: 0,
            place: Place::End,
        }
    }
}

/// The thread and the place that a moment's number stands for: the point before a row or the end
/// where that has the number, else the moment after a row.
pub fn place_of(course: &NumberedRun<'_>, number: u32) -> ThreadPlace
    ensures { (C : runs.Course) → IsCourseOf C course.now → result ≡ place_on C number }
{
    match course.last(number) {
        Moment::Before { thread, step } => ThreadPlace {
            thread,
            place: Place::Point(step),
        },
        Moment::After { thread, step } => ThreadPlace {
            thread,
            place: Place::After(step),
        },
        Moment::End => end_place(course),
    }
}
