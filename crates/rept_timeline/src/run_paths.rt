//! The rows and moments of a run.

ghost use Rattle.rept_report.specs.Reach.Reaching.{IsBar, IsExtent, IsLeaving, IsReachedUp, IsReachedDown};
ghost use Rattle.std.specs.Prelude.{◌≡◌, ◌+◌, ◌≤◌, ◌<◌, true, IfOk, IsOk, IsSome};
ghost use Rattle.rept_steps.specs.Course.{IsSoundCourse};
ghost use Rattle.rept_steps.specs.Runs.{course_of};
ghost use Rattle.rept_report.specs.Timeline.{HasEqualNumbers, IsTimeline, moment_in, IsNextFrom, IsFormerFrom, IsActingFrom, IsLeastFrom, IsGreatestTo, IsLastFrom, IsRowAt, IsRowTo, IsOpen, IsBegun, IsClose, IsLine, IsStrip};
ghost use Rattle.rept_moments.specs.Seen.{seen, alone_by};
ghost use Rattle.rept_moments.specs.Courses.{is_one, IsCourseOf};
ghost use Rattle.rept_timeline.specs.Small.{IsSmall};
ghost use Rattle.rept_extents.specs.Timelines.{as_timeline, time_of};
ghost use Rattle.rept_timeline.specs.Listed.{AreListed, AreLinesOf};
ghost use Rattle.rept_extents.specs.Timelines.{IsSoundIn};
ghost use Rattle.rept_timeline.specs.Strips.{AreStripsOf};
ghost use Rattle.rept_extents.specs.Extents.{AreExtents};
ghost use Rattle.rept_extents.specs.Tables.{AreTables};

use crate::storing::Storing;
use crate::strips::Strips;
use crate::{arriving, beginning, closing, opening};
use rept_extents::extents::Extents;
use rept_extents::reaches::NextTables;
use rept_extents::surely_blocks::{has_equal_numbers, surely_blocks};
use rept_extents::{Lines, Ways};
use rept_isa::StepRow;
use rept_moments::NumberedRun;
use rept_report::paths::{NumberChain, Strip};
use rept_report::{NumberWindow, greatest_below, least_below};
use rept_steps::Run;
use std::alloc::{AllocError as OutOfMemory, Global};

/// The rows of all threads of a run, the moments of their memory, and how far a byte's value goes at
/// once along these. This project's own.
#[derive(Drop)]
pub struct RunPaths<'a> {
    ways: Ways<'a>,
    storing: Storing,
    lines: Lines,
    strips: Strips,
    extents: Extents,
    tables: NextTables,
    ghost lined: { ∥ AreLinesOf (time_of ways).moments lines ∥₁ },
    ghost stripped: { ∥ AreStripsOf ways strips ∥₁ },
    ghost listed: { ∥ AreListed ways storing ∥₁ },
    ghost lawful: { ∥ IsTimeline (time_of ways) ∥₁ },
    ghost extended: { ∥ AreExtents (time_of ways) extents ∥₁ },
    ghost tabled: { ∥ AreTables (time_of ways).moments tables ∥₁ },
}

/// The rows of several threads that may write memory; of one thread alone none is kept.
fn storing_of(alloc: Global, course: &NumberedRun<'_>) -> Result<Storing, OutOfMemory>
    requires { IsSoundIn course.now }
    ensures listed { IfOk result (λ s. AreListed course.now s) }
    ensures alone { is_one course.now ≡ true → IsOk result }
{
    match course {
        NumberedRun::One { .. } => Ok(Storing::none(alloc)),
        NumberedRun::Many(many) => Storing::new(alloc, many),
    }
}

/// The lines of the moments of a course.
fn lines_of(alloc: Global, ways: &Ways<'_>) -> Result<Lines, OutOfMemory>
    ensures lines { IfOk result (λ l. AreLinesOf (time_of ways.now).moments l) }
    ensures alone { is_one ways.now ≡ true → IsOk result }
{
    let lines = Lines::new(alloc, ways)?;
    Ok(lines)
}

/// The strips of the moments of several threads; of one thread alone none is kept.
fn strips_of(
    alloc: Global,
    course: &NumberedRun<'_>,
    storing: &Storing,
    lines: &Lines,
) -> Result<Strips, OutOfMemory>
    requires listed { AreListed course.now storing.now }
    requires lined { AreLinesOf (time_of course.now).moments lines.now }
    ensures strips { IfOk result (λ s. AreStripsOf course.now s) }
    ensures alone { is_one course.now ≡ true → IsOk result }
{
    match course {
        NumberedRun::One { .. } => Ok(Strips::none(alloc)),
        NumberedRun::Many(many) => Strips::new(alloc, storing, many, lines),
    }
}

/// Between which numbers each row of a course may act.
fn extents_of(alloc: Global, run: &Run, course: &NumberedRun<'_>) -> Result<Extents, OutOfMemory>
    requires sound { IsSoundCourse (course_of run.now) }
    requires course { IsCourseOf (course_of run.now) course.now }
    ensures extents { IfOk result (λ e. AreExtents (time_of course.now) e) }
    ensures alone { is_one course.now ≡ true → IsOk result }
{
    let extents = Extents::new(alloc, run, course)?;
    Ok(extents)
}

/// How far a byte's value goes at once along the moments of a course.
fn tables_of(alloc: Global, ways: &Ways<'_>) -> Result<NextTables, OutOfMemory>
    ensures tables { IfOk result (λ t. AreTables (time_of ways.now).moments t) }
    ensures alone { is_one ways.now ≡ true → IsOk result }
{
    let tables = NextTables::new(alloc, ways)?;
    Ok(tables)
}

impl<'a> RunPaths<'a> {
    /// The rows and moments of this run, which must be sound and have at most 65,536 rows and 1,024
    /// threads. Of one thread in one slice, all of which is told, it takes no memory; else memory
    /// for a few entries a point, for a few entries and two lists a number, and for two entries a
    /// pair of numbers that are next to one another.
    pub fn new(alloc: Global, run: &'a Run) -> Result<RunPaths<'a>, OutOfMemory>
        requires sound { IsSoundCourse (course_of run.now) }
        requires small { IsSmall (course_of run.now) }
        ensures course { IfOk result (λ p. IsCourseOf (course_of run.now) p.ways) }
        ensures time { IfOk result (λ p. time_of p.ways ≡ as_timeline (seen (course_of run.now))) }
        ensures alone { IsSome (alone_by run.now.threads run.now.untraced) → IsOk result }
    {
        let ways = Ways::new(alloc, run)?;
        let storing = storing_of(alloc, ways.course())?;
        let lines = lines_of(alloc, &ways)?;
        let strips = strips_of(alloc, ways.course(), &storing, &lines)?;
        let extents = extents_of(alloc, run, ways.course())?;
        let tables = tables_of(alloc, &ways)?;
        Ok(RunPaths {
            ways,
            storing,
            lines,
            strips,
            extents,
            tables,
        })
    }

    /// The course, and its moments in both directions.
    pub fn ways(&self) -> &Ways<'a>
        ensures { result.now ≡ self.now.ways }
    {
        &self.ways
    }
}

impl<'a> RunPaths<'a> {
    ghost use Rattle.rept_timeline.specs.Paths.{timeline};

    /// The last point of all.
    pub fn last_point(&self) -> u32
        ensures { result ≡ (timeline self.now).legs.count }
    {
        self.ways.course().last_point()
    }

    /// The row that leads from a point, if one does.
    pub fn row(&self, point: u32) -> Option<StepRow>
        ensures { result ≡ (timeline self.now).legs.row point }
    {
        self.ways.course().row(point)
    }

    /// The number of the end.
    pub fn end(&self) -> u32
        ensures { result ≡ (timeline self.now).moments.end }
    {
        self.ways.course().end()
    }

    /// The number of the moment before a row.
    pub fn before(&self, row: u32) -> u32
        requires { IsSome ((timeline self.now).legs.row row) }
        ensures { result ≡ (timeline self.now).moments.before row }
    {
        self.ways.course().before(row)
    }

    /// The number of the moment after a row.
    pub fn after(&self, row: u32) -> u32
        requires { IsSome ((timeline self.now).legs.row row) }
        ensures { result ≡ (timeline self.now).moments.after row }
    {
        self.ways.course().after(row)
    }

    /// The number of a point's moment: the one before its row, or the end where no row leads from
    /// it.
    pub fn moment_at(&self, point: u32) -> u32
        requires { point ≤ (timeline self.now).legs.count }
        ensures { result ≡ moment_in (timeline self.now) point }
    {
        self.ways.course().moment_at(point)
    }

    /// The least point from `least` on that is the last one of its thread, if there is one: no row
    /// leads from it.
    pub fn next_last(&self, least: u32) -> Option<u32>
        ensures { IsLastFrom (timeline self.now).legs least result }
    {
        self.ways.course().next_last(least)
    }

    /// The row before which a moment lies, if it lies before one. It lies before no other row.
    pub fn row_at(&self, number: u32) -> Option<u32>
        ensures { IsRowAt (timeline self.now) number result }
    {
        self.ways.course().row_at(number)
    }

    /// The least row from `least` on after which a moment lies.
    pub fn row_to(&self, number: u32, least: u32) -> Option<u32>
        ensures { IsLeastFrom (IsRowTo (timeline self.now) number) least result }
    {
        arriving::row_to(self.ways.course(), number, least)
    }

    /// The numbers around one, one after the other, of which each but the last has the one after it
    /// next to it, and no other.
    pub fn line_of(&self, number: u32) -> NumberChain
        requires { number ≤ (timeline self.now).moments.end }
        ensures { IsLine (timeline self.now).moments number result }
    {
        self.lines.line(number)
    }

    /// The numbers around one, one after the other, between which the same may act, as far as they
    /// go on from the first.
    pub fn strip_of(&self, number: u32) -> Strip
        requires { number ≤ (timeline self.now).moments.end }
        ensures { IsStrip (timeline self.now) number result }
    {
        match self.ways.course() {
            NumberedRun::One { steps } => Strip {
                first: 0,
                last: steps.len(),
                pause: None,
            },
            NumberedRun::Many(_many) => self.strips.strip(number),
        }
    }

    /// The least number from `least` on that is next to this one.
    pub fn next_from(&self, number: u32, least: u32) -> Option<u32>
        requires { number ≤ (timeline self.now).moments.end }
        ensures { IsNextFrom (timeline self.now).moments number least result }
    {
        self.ways.next_from(number, least)
    }

    /// The least number from `least` on to which this one is next.
    pub fn former_from(&self, number: u32, least: u32) -> Option<u32>
        requires { number ≤ (timeline self.now).moments.end }
        ensures { IsFormerFrom (timeline self.now).moments number least result }
    {
        self.ways.previous_from(number, least)
    }

    /// The least row from `least` on that may act between a number and one that is next to it.
    pub fn acting_from(&self, number: u32, next: u32, least: u32) -> Option<u32>
        requires { (timeline self.now).moments.next number next ≡ true }
        ensures { IsActingFrom (timeline self.now) number next least result }
    {
        match self.ways.course() {
            NumberedRun::One { .. } => { if number >= least { Some(number) } else { None } }
            NumberedRun::Many(many) => {
                opening::acting_from(&self.storing, many, number, next, least)
            }
        }
    }

    /// Whether writers that aren't told may act between a number and one that is next to it.
    pub fn is_untraced_between(&self, number: u32, next: u32) -> bool
        requires { (timeline self.now).moments.next number next ≡ true }
        ensures { result ≡ (timeline self.now).moments.untraced number next }
    {
        self.ways.course().is_untraced_between(number, next)
    }

    /// The least row from `least` on that doesn't lie wholly before a moment.
    pub fn open_from(&self, number: u32, least: u32) -> Option<u32>
        requires { number ≤ (timeline self.now).moments.end }
        ensures { IsLeastFrom (IsOpen (timeline self.now) number) least result }
    {
        match self.ways.course() {
            NumberedRun::One { steps } => least_below(steps.len(), number, least),
            NumberedRun::Many(many) => opening::open_from(&self.storing, many, number, least),
        }
    }

    /// The least row from `least` on than which this one isn't later.
    pub fn close_from(&self, row: u32, least: u32) -> Option<u32>
        requires { IsSome ((timeline self.now).legs.row row) }
        ensures { IsLeastFrom (IsClose (timeline self.now) row) least result }
    {
        match self.ways.course() {
            NumberedRun::One { steps } => least_below(steps.len(), row, least),
            NumberedRun::Many(many) => closing::close_from(many, row, least),
        }
    }

    /// The greatest row up to `most` that doesn't lie wholly after a moment.
    pub fn begun_to(&self, number: u32, most: u32) -> Option<u32>
        ensures { IsGreatestTo (IsBegun (timeline self.now) number) most result }
    {
        match self.ways.course() {
            NumberedRun::One { steps } => greatest_below(steps.len(), number, most),
            NumberedRun::Many(many) => beginning::begun_to(many, number, most),
        }
    }

    /// Whether the row lies wholly before the moment.
    pub fn is_past(&self, row: u32, number: u32) -> bool
        requires { IsSome ((timeline self.now).legs.row row) }
        ensures { result ≡ (timeline self.now).moments.past row number }
    {
        self.ways.course().is_past(row, number)
    }

    /// Whether the row lies wholly after the moment.
    pub fn is_ahead(&self, row: u32, number: u32) -> bool
        requires { IsSome ((timeline self.now).legs.row row) }
        ensures { result ≡ (timeline self.now).moments.ahead row number }
    {
        self.ways.course().is_ahead(row, number)
    }

    /// Whether the first row lies wholly after the second.
    pub fn is_later(&self, row: u32, other: u32) -> bool
        requires first { IsSome ((timeline self.now).legs.row row) }
        requires second { IsSome ((timeline self.now).legs.row other) }
        ensures { result ≡ (timeline self.now).moments.later row other }
    {
        self.ways.course().is_later(row, other)
    }

    /// Whether there are writers that aren't told.
    pub fn is_untraced(&self) -> bool
        ensures { result ≡ (timeline self.now).moments.is_untraced }
    {
        self.ways.course().is_untraced()
    }

    /// Whether they lie wholly before the moment.
    pub fn is_untraced_past(&self, number: u32) -> bool
        ensures { result ≡ (timeline self.now).moments.untraced_past number }
    {
        self.ways.course().is_untraced_past(number)
    }

    /// Whether they lie wholly before the row.
    pub fn is_untraced_before(&self, row: u32) -> bool
        requires { IsSome ((timeline self.now).legs.row row) }
        ensures { result ≡ (timeline self.now).moments.untraced_before row }
    {
        self.ways.course().is_untraced_before(row)
    }

    /// Whether a row may act between a number and one that is next to it.
    pub fn may_act(&self, row: u32, number: u32, next: u32) -> bool
        requires row { IsSome ((timeline self.now).legs.row row) }
        requires next { (timeline self.now).moments.next number next ≡ true }
        ensures { result ≡ (timeline self.now).moments.may_act row number next }
    {
        self.ways.course().may_act(row, number, next)
    }

    /// Whether it is sure that a row may act between a number and each one that is next to it.
    pub fn surely_blocks(&self, row: u32, number: u32) -> bool
        requires row { IsSome ((timeline self.now).legs.row row) }
        ensures { result ≡ true → IsBar (timeline self.now).moments row number }
    {
        surely_blocks(self.ways.course(), row, number)
    }

    /// Numbers of moments between which alone a row may act: not after the end of the window, nor
    /// before its beginning.
    pub fn extent(&self, row: u32) -> NumberWindow
        requires row { IsSome ((timeline self.now).legs.row row) }
        ensures { IsExtent (timeline self.now).moments row result }
    {
        self.extents.of(self.ways.course(), row)
    }

    /// Whether the moment before each row has the row's number, as in a run of one thread. False
    /// says nothing.
    pub fn has_equal_numbers(&self) -> bool
        ensures { result ≡ true → HasEqualNumbers (timeline self.now) }
    {
        has_equal_numbers(self.ways.course())
    }

    /// A number from one of a window on, before the window's end, before which no number from there
    /// on has a next one outside the window.
    pub fn leaving_from(&self, least: u32, known: NumberWindow) -> u32
        requires since { known.from ≤ least }
        requires order { least < known.to }
        requires inside { known.to ≤ (timeline self.now).moments.end + 1 }
        ensures { IsLeaving (timeline self.now).moments known least result }
    {
        self.tables.leaving_from(least, known)
    }

    /// A number up to which, but no further than another one, each number after those of a window
    /// is next to an earlier one that isn't below the window.
    pub fn reached_up(&self, known: NumberWindow, most: u32) -> u32
        requires order { known.from < known.to }
        requires inside { known.to ≤ (timeline self.now).moments.end + 1 }
        ensures { IsReachedUp (timeline self.now).moments known most result }
    {
        self.tables.up(known, most)
    }

    /// A number down to which, but no further than another one, each number before those of a
    /// window has a next one after it that isn't past the window.
    pub fn reached_down(&self, known: NumberWindow, least: u32) -> u32
        requires order { known.from < known.to }
        requires inside { known.to ≤ (timeline self.now).moments.end + 1 }
        ensures { IsReachedDown (timeline self.now).moments known least result }
    {
        self.tables.down(known, least)
    }
}
