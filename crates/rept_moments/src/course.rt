//! The rows and moments of any run, by numbers.

ghost use Rattle.std.specs.Prelude.{◌≡◌, ◌≤◌, ◌<◌, ℕ, length, true, Some, None, IfOk, IsOk, OnOk, IsSome, MatchOption};
ghost use Rattle.rept_steps.specs.Course.{IsSoundCourse};
ghost use Rattle.rept_steps.specs.Runs.{course_of};
ghost use Rattle.rept_order.specs.Legs.{points_before};
ghost use Rattle.rept_order.specs.Runs.{moment_named};
ghost use Rattle.rept_report.specs.Moments.{points_of};
ghost use Rattle.rept_moments.specs.Points.{points_in};
ghost use Rattle.rept_moments.specs.Seen.{seen, alone_by, moment_in, AddsNexts, IsRowAt, IsLastFrom};

use crate::many::Many;
use crate::side::PointOfThread;
use rept_isa::StepRow;
use rept_order::Moment;
use rept_steps::{Run, Steps};
use std::alloc::{AllocError as OutOfMemory, Global};

/// The rows and moments of a run, by numbers. Rows are numbered by the points that they lead from,
/// thread by thread, and no row leads from the last point of a thread. Of one thread in one slice,
/// all of which is told, the moments are the points; else they go slice by slice, in the order in
/// which slices begin.
#[derive(Drop)]
pub enum NumberedRun<'a> {
    /// One thread in one slice, all of which is told.
    One {
        /// Its rows.
        steps: &'a Steps,
    },
    /// Any other run.
    Many(Many<'a>),
}

/// The rows of a run that is one path: of one thread in one slice, all of which is told. None of
/// any other run.
pub fn one_path<'a>(run: &'a Run) -> Option<&'a Steps>
    ensures { MatchOption result (alone_by run.now.threads run.now.untraced ≡ None) (λ steps. alone_by run.now.threads run.now.untraced ≡ Some steps.now) }
{
    let threads = run.threads.all();
    if run.untraced.is_some() || threads.len() != 1 {
        return None;
    }
    let slices = threads[0].slices.all();
    if slices.len() != 1 {
        return None;
    }
    Some(&threads[0].steps)
}

/// Adds the number after one, where the numbers are the points of one thread.
fn add_following(list: &mut Vec<u32>, last: u32, number: u32) -> Result<(), OutOfMemory>
    ensures { OnOk result (AddsNexts (points_of last) number list.old.items list.new.items) }
{
    if number < last {
        list.push(number + 1)?;
    }
    Ok(())
}

impl<'a> NumberedRun<'a> {
    ghost use Rattle.rept_moments.specs.Courses.{seen_in, threads_in, first_in, place_in, count_in, is_one, last_in, IsCourseOf};

    /// The rows and moments of this run, which must be sound and have at most 66,560 points: those
    /// of 65,536 rows and 1,024 threads. Of one thread in one slice, all of which is told, it takes
    /// no memory; else memory for a few entries a point.
    pub fn new(alloc: Global, run: &'a Run) -> Result<NumberedRun<'a>, OutOfMemory>
        requires sound { IsSoundCourse (course_of run.now) }
        requires few { points_in (course_of run.now) ≤ 66560 }
        ensures ok { IfOk result (λ c. seen_in c ≡ seen (course_of run.now)) }
        ensures threads { IfOk result (λ c. threads_in c ≡ length run.now.threads) }
        ensures firsts { IfOk result (λ c. (t : ℕ) → t < length run.now.threads → first_in c t ≡ points_before run.now.threads t) }
        ensures alone { IsSome (alone_by run.now.threads run.now.untraced) → IsOk result }
        ensures one { IsSome (alone_by run.now.threads run.now.untraced) → IfOk result (λ c. is_one c ≡ true) }
        ensures course { IfOk result (IsCourseOf (course_of run.now)) }
    {
        match one_path(run) {
            Some(steps) => Ok(NumberedRun::One { steps }),
            None => Ok(NumberedRun::Many(Many::new(alloc, run)?)),
        }
    }

    /// The last point.
    pub fn last_point(&self) -> u32
        ensures { result ≡ (seen_in self.now).legs.count }
    {
        match self {
            NumberedRun::One { steps } => steps.len(),
            NumberedRun::Many(many) => many.last_point(),
        }
    }

    /// How many threads there are.
    pub fn threads(&self) -> u32
        ensures { result ≡ threads_in self.now }
    {
        match self {
            NumberedRun::One { .. } => 1,
            NumberedRun::Many(many) => many.threads(),
        }
    }

    /// The first point of a thread.
    pub fn first(&self, thread: u32) -> u32
        requires { thread < threads_in self.now }
        ensures { result ≡ first_in self.now thread }
    {
        match self {
            NumberedRun::One { .. } => 0,
            NumberedRun::Many(many) => many.first(thread),
        }
    }

    /// The thread of a point, and its number there.
    pub fn place(&self, point: u32) -> PointOfThread
        requires { point < count_in self.now }
        ensures { result ≡ place_in self.now point }
    {
        match self {
            NumberedRun::One { .. } => PointOfThread {
                thread: 0,
                step: point,
            },
            NumberedRun::Many(many) => many.place(point),
        }
    }

    /// The row that leads from a point. None does from the last point of a thread, nor past the
    /// last one of all.
    pub fn row(&self, point: u32) -> Option<StepRow>
        ensures { result ≡ (seen_in self.now).legs.row point }
    {
        match self {
            NumberedRun::One { steps } => match steps.rows().get(point as usize) {
                Some(row) => Some(*row),
                None => None,
            },
            NumberedRun::Many(many) => many.row(point),
        }
    }

    /// The number of the end: the greatest one.
    pub fn end(&self) -> u32
        ensures { result ≡ (seen_in self.now).moments.end }
    {
        match self {
            NumberedRun::One { steps } => steps.len(),
            NumberedRun::Many(many) => many.end(),
        }
    }

    /// The number of the moment before a row.
    pub fn before(&self, row: u32) -> u32
        requires { IsSome ((seen_in self.now).legs.row row) }
        ensures { result ≡ (seen_in self.now).moments.before row }
    {
        match self {
            NumberedRun::One { .. } => row,
            NumberedRun::Many(many) => many.before(row),
        }
    }

    /// The number of the moment after a row.
    pub fn after(&self, row: u32) -> u32
        requires { IsSome ((seen_in self.now).legs.row row) }
        ensures { result ≡ (seen_in self.now).moments.after row }
    {
        match self {
            NumberedRun::One { steps } => steps.len().min(row + 1),
            NumberedRun::Many(many) => many.after(row),
        }
    }

    /// The number of a point's moment: the one before its row, or the end where no row leads from
    /// it.
    pub fn moment_at(&self, point: u32) -> u32
        requires { point ≤ (seen_in self.now).legs.count }
        ensures { result ≡ moment_in (seen_in self.now) point }
    {
        match self {
            NumberedRun::One { .. } => point,
            NumberedRun::Many(many) => many.moment_at(point),
        }
    }

    /// The last of the moments that have a number. Of one thread alone it is that of the point with
    /// this number.
    pub fn last(&self, number: u32) -> Moment
        ensures { moment_named result ≡ last_in self.now number }
    {
        match self {
            NumberedRun::One { steps } => {
                if number < steps.len() {
                    Moment::Before {
                        thread: 0,
                        step: number,
                    }
                } else {
                    Moment::End
                }
            }
            NumberedRun::Many(many) => many.last(number),
        }
    }

    /// The row before which the moment of a number lies, if it lies before one.
    pub fn row_at(&self, number: u32) -> Option<u32>
        ensures { IsRowAt (seen_in self.now) number result }
    {
        match self {
            NumberedRun::One { steps } => {
                if number < steps.len() {
                    Some(number)
                } else {
                    None
                }
            }
            NumberedRun::Many(many) => many.row_at(number),
        }
    }

    /// The least point from one on that is the last one of its thread, if there is one.
    pub fn next_last(&self, least: u32) -> Option<u32>
        ensures { IsLastFrom (seen_in self.now).legs least result }
    {
        match self {
            NumberedRun::One { steps } => {
                if least <= steps.len() {
                    Some(steps.len())
                } else {
                    None
                }
            }
            NumberedRun::Many(many) => many.next_last(least),
        }
    }

    /// Adds all numbers next to one to a list: those that a later moment has, with none between.
    /// They come in no order, and a number may come more than once.
    pub fn add_nexts(&self, number: u32, list: &mut Vec<u32>) -> Result<(), OutOfMemory>
        requires { number ≤ (seen_in self.now).moments.end }
        ensures { OnOk result (AddsNexts (seen_in self.now).moments number list.old.items list.new.items) }
    {
        match self {
            NumberedRun::One { steps } => add_following(list, steps.len(), number),
            NumberedRun::Many(many) => many.add_nexts(number, list),
        }
    }

    /// Whether the row may act between a number and one that is next to it.
    pub fn may_act(&self, row: u32, m: u32, w: u32) -> bool
        requires row { IsSome ((seen_in self.now).legs.row row) }
        requires next { (seen_in self.now).moments.next m w ≡ true }
        ensures { result ≡ (seen_in self.now).moments.may_act row m w }
    {
        match self {
            NumberedRun::One { .. } => row == m,
            NumberedRun::Many(many) => many.may_act(row, m, w),
        }
    }

    /// Whether writers that aren't told may act between a number and one that is next to it.
    pub fn is_untraced_between(&self, m: u32, w: u32) -> bool
        requires { (seen_in self.now).moments.next m w ≡ true }
        ensures { result ≡ (seen_in self.now).moments.untraced m w }
    {
        match self {
            NumberedRun::One { .. } => false,
            NumberedRun::Many(many) => many.is_untraced_between(m, w),
        }
    }

    /// Whether the row lies wholly before the moment. Of more than one slice this is said of each
    /// row that can't write, too.
    pub fn is_past(&self, row: u32, m: u32) -> bool
        requires { IsSome ((seen_in self.now).legs.row row) }
        ensures { result ≡ (seen_in self.now).moments.past row m }
    {
        match self {
            NumberedRun::One { .. } => row < m,
            NumberedRun::Many(many) => many.is_past(row, m),
        }
    }

    /// Whether the row lies wholly after the moment.
    pub fn is_ahead(&self, row: u32, m: u32) -> bool
        requires { IsSome ((seen_in self.now).legs.row row) }
        ensures { result ≡ (seen_in self.now).moments.ahead row m }
    {
        match self {
            NumberedRun::One { .. } => m <= row,
            NumberedRun::Many(many) => many.is_ahead(row, m),
        }
    }

    /// Whether the first row lies wholly after the second.
    pub fn is_later(&self, i: u32, j: u32) -> bool
        requires first { IsSome ((seen_in self.now).legs.row i) }
        requires second { IsSome ((seen_in self.now).legs.row j) }
        ensures { result ≡ (seen_in self.now).moments.later i j }
    {
        match self {
            NumberedRun::One { .. } => j < i,
            NumberedRun::Many(many) => many.is_later(i, j),
        }
    }

    /// Whether there are writers that aren't told.
    pub fn is_untraced(&self) -> bool
        ensures { result ≡ (seen_in self.now).moments.is_untraced }
    {
        match self {
            NumberedRun::One { .. } => false,
            NumberedRun::Many(many) => many.is_untraced(),
        }
    }

    /// Whether they lie wholly before the moment.
    pub fn is_untraced_past(&self, m: u32) -> bool
        ensures { result ≡ (seen_in self.now).moments.untraced_past m }
    {
        match self {
            NumberedRun::One { .. } => true,
            NumberedRun::Many(many) => many.is_untraced_past(m),
        }
    }

    /// Whether they lie wholly before the row.
    pub fn is_untraced_before(&self, row: u32) -> bool
        requires { IsSome ((seen_in self.now).legs.row row) }
        ensures { result ≡ (seen_in self.now).moments.untraced_before row }
    {
        match self {
            NumberedRun::One { .. } => true,
            NumberedRun::Many(many) => many.is_untraced_before(row),
        }
    }
}
