//! The numbers of the moments of several threads.

ghost use Rattle.std.specs.Prelude.{◌≡◌, ◌↔◌, ◌≤◌, ◌<◌, ◌^◌, ◌+◌, Some, true, length, IfOk, IfSome, IsSome, OnOk};
ghost use Rattle.rept_steps.specs.Course.{rows_of, IsSoundCourse};
ghost use Rattle.rept_steps.specs.Runs.{course_of};
ghost use Rattle.rept_order.specs.Legs.{points_before};
ghost use Rattle.rept_order.specs.Moments.{stores};
ghost use Rattle.rept_order.specs.Runs.{moment_named};
ghost use Rattle.rept_order.specs.Times.{begin_of};
ghost use Rattle.rept_moments.specs.Naming.Numbered.{row_on};
ghost use Rattle.rept_moments.specs.Naming.Making.{lasts, rank};
ghost use Rattle.rept_moments.specs.Points.{by_point, place_on, points_in};
ghost use Rattle.rept_moments.specs.Ordering.{in_order, in_time, moment_at_side, event_at};
ghost use Rattle.rept_moments.specs.Merging.{merged_at};
ghost use Rattle.rept_moments.specs.Numbers.{numbers_of};
ghost use Rattle.rept_moments.specs.Numbering.{kept_with};
ghost use Rattle.rept_moments.specs.Between.{own_to, IsOwnBetween};
ghost use Rattle.rept_moments.specs.Seen.{moment_in, AddsNexts, IsRowAt, IsLastFrom};
ghost use Rattle.rept_moments.specs.Begins.{following_at, AreBegins};
ghost use Rattle.rept_moments.specs.Nexts.{is_first_later, none_late, first_offer, offers_at, nexts_of, merged_nexts, point_nexts, side_nexts, last_nexts, ends_to, AddsOthers, Member, IsLaterBy, IsOffer};
ghost use Rattle.rept_moments.specs.Tables.{moments_at, AreTables};
ghost use Rattle.rept_moments.specs.Together.{AreBeside, IsTogether, AreTogether};

use crate::begins::{Begins, following, former, is_alike};
use crate::merging::merged;
use crate::nexts::{Later, add_other, is_not_past, with_end};
use crate::numbers::Numbers;
use crate::ordering::in_time;
use crate::points::Points;
use crate::side::{PointOfThread, PointSide, Timed};
use crate::writers::writers_of;
use crate::writing::{both, neither};
use rept_isa::{StepRow, is_call};
use rept_order::Moment;
use rept_steps::Run;
use std::alloc::{AllocError as OutOfMemory, Global};
use std::marker::Model;

/// The numbers of the moments of several threads, or of one in several slices. Rows are numbered by
/// the points that they lead from, thread by thread, and a thread of n rows has n + 1 points.
/// Moments are numbered in the order of the times before which they don't come: those of a slice
/// from its begin (of one time by threads, and then in the thread's order), the end last. Moments
/// that are one have one number, that of the last of them.
#[derive(Drop)]
pub struct Many<'a> {
    points: Points<'a>,
    begins: Begins,
    /// of the moments that are the last of those that are one with them, but the end
    numbers: Numbers,
    /// by points, whether the moment after the row is one with the thread's next one
    merged: Vec<bool>,
}

impl<'a> Model for Many<'a> {
    ghost use Rattle.rept_steps.specs.Course.{Course};
    ghost use Rattle.rept_moments.specs.Tables.{AreTables};

    ghost Value = { Course };

    ghost view = { λ m. m.points };

    ghost invariant = { λ m. AreTables m.points m.begins m.numbers m.merged.items };
}

/// Gives each moment that is the last of those that are one with it the next number, in this order.
fn number(
    alloc: Global,
    points: &Points<'_>,
    moments: &[Timed],
    merged: &[bool],
) -> Result<Numbers, OutOfMemory>
    requires moments { moments.now ≡ in_time points.now }
    requires merged { merged.now ≡ by_point (merged_at points.now) (points_in points.now) }
    ensures numbered { IfOk result (λ n. moments_at points.now n.list ≡ lasts points.now (in_order points.now)) }
    ensures points { IfOk result (λ n. n.points ≡ points_in points.now) }
    ensures few { IfOk result (λ n. length n.list < 2 ^ 32) }
{
    let mut numbers = Numbers::new(alloc, points.count())?;
    for timed in moments {
        keep(&mut numbers, timed.side, merged)?;
    }
    Ok(numbers)
}

/// Gives the moment the next number, if it is the last of those that are one with it, and has none.
fn keep(numbers: &mut Numbers, side: PointSide, merged: &[bool]) -> Result<(), OutOfMemory>
    requires inside { side.point < numbers.old.points }
    requires merged { length merged.now ≡ numbers.old.points }
    requires few { length numbers.old.list < 2 ^ 32 }
    ensures { OnOk result (numbers.new ≡ kept_with numbers.old side merged.now) }
{
    let is_merged = side.is_after && merged[side.point as usize];
    if !is_merged && numbers.find(side).is_none() {
        numbers.add(side)?;
    }
    Ok(())
}

/// What the numbers of a run are told from.
#[derive(Drop)]
struct NumberTables {
    begins: Begins,
    numbers: Numbers,
    merged: Vec<bool>,
}

/// By each point, whether the moment after its row is one with the thread's next one.
fn merged_of(alloc: Global, points: &Points<'_>) -> Result<Vec<bool>, OutOfMemory>
    ensures { IfOk result (λ v. v.items ≡ by_point (merged_at points.now) (points_in points.now)) }
{
    let writers = writers_of(alloc, points)?;
    merged(alloc, points, &writers)
}

/// Numbers the moments in the order of their times, but those that are one with a later one.
fn numbered(alloc: Global, points: &Points<'_>, merged: &[bool]) -> Result<Numbers, OutOfMemory>
    requires { merged.now ≡ by_point (merged_at points.now) (points_in points.now) }
    ensures numbered { IfOk result (λ n. moments_at points.now n.list ≡ lasts points.now (in_order points.now)) }
    ensures points { IfOk result (λ n. n.points ≡ points_in points.now) }
    ensures few { IfOk result (λ n. length n.list < 2 ^ 32) }
{
    let moments = in_time(alloc, points)?;
    number(alloc, points, moments.as_slice(), merged)
}

/// The tables of a run.
fn tables_of(alloc: Global, points: &Points<'_>) -> Result<NumberTables, OutOfMemory>
    requires sound { IsSoundCourse points.now }
    requires few { points_in points.now ≤ 66560 }
    ensures { IfOk result (λ t. AreTables points.now t.begins t.numbers t.merged.items) }
{
    let merged = merged_of(alloc, points)?;
    let numbers = numbered(alloc, points, merged.as_slice())?;
    let begins = Begins::new(alloc, points)?;
    Ok(NumberTables {
        begins,
        numbers,
        merged,
    })
}

impl<'a> Many<'a> {
    ghost use Rattle.rept_moments.specs.Several.{seen_of};

    /// The numbers of the run's moments. The run must be sound, and have at most 65,536 rows and
    /// 1,024 threads. It takes memory for a few entries a row.
    pub fn new(alloc: Global, run: &'a Run) -> Result<Many<'a>, OutOfMemory>
        requires sound { IsSoundCourse (course_of run.now) }
        requires few { points_in (course_of run.now) ≤ 66560 }
        ensures { IfOk result (λ m. m ≡ course_of run.now) }
    {
        let points = Points::new(alloc, run)?;
        let NumberTables {
            begins,
            numbers,
            merged,
        } = tables_of(alloc, &points)?;
        Ok(Many {
            points,
            begins,
            numbers,
            merged,
        })
    }

    /// The last point.
    pub fn last_point(&self) -> u32
        ensures { result ≡ (seen_of self.now).legs.count }
    {
        self.points.count().saturating_sub(1)
    }

    /// How many threads there are.
    pub fn threads(&self) -> u32
        ensures { result ≡ length self.now.threads }
    {
        self.points.threads()
    }

    /// The first point of a thread.
    pub fn first(&self, thread: u32) -> u32
        requires { thread < length self.now.threads }
        ensures { result ≡ points_before self.now.threads thread }
    {
        self.points.first(thread)
    }

    /// How many rows a thread has.
    fn rows(&self, thread: u32) -> u32
        requires { thread < length self.now.threads }
        ensures value { result ≡ length (rows_of self.now thread) }
        ensures inside { points_before self.now.threads thread + result < points_in self.now }
        ensures few { points_in self.now ≤ 66560 }
    {
        self.points.rows(thread)
    }

    /// The thread of a point, and its number there.
    pub fn place(&self, point: u32) -> PointOfThread
        requires { point < points_in self.now }
        ensures { result ≡ place_on self.now point }
    {
        self.points.place(point)
    }

    /// The row that leads from a point, if one does.
    pub fn row(&self, point: u32) -> Option<StepRow>
        ensures { result ≡ (seen_of self.now).legs.row point }
    {
        self.points.row(point)
    }

    /// The number of the end: the greatest one.
    pub fn end(&self) -> u32
        ensures { result ≡ (seen_of self.now).moments.end }
    {
        self.numbers.len()
    }

    /// The number of a moment of a row that is the last of those that are one with it.
    fn number(&self, side: PointSide) -> u32
        requires { side.point < points_in self.now }
        ensures { result ≡ rank (lasts self.now (in_order self.now)) (moment_at_side self.now side) }
    {
        match self.numbers.find(side) {
            Some(number) => number,
            None => 0,
        }
    }

    /// The number of the moment before a row.
    pub fn before(&self, row: u32) -> u32
        requires { IsSome ((seen_of self.now).legs.row row) }
        ensures { result ≡ (seen_of self.now).moments.before row }
    {
        self.number(PointSide {
            point: row,
            is_after: false,
        })
    }

    /// The number of the moment after a row.
    pub fn after(&self, row: u32) -> u32
        requires { IsSome ((seen_of self.now).legs.row row) }
        ensures { result ≡ (seen_of self.now).moments.after row }
    {
        if self.is_merged(row) {
            self.moment_at(row + 1)
        } else {
            self.number(PointSide {
                point: row,
                is_after: true,
            })
        }
    }

    /// Whether the moment after a row is one with the thread's next one.
    fn is_merged(&self, row: u32) -> bool
        requires { row < points_in self.now }
        ensures value { result ≡ merged_at self.now row }
        ensures few { points_in self.now ≤ 66560 }
    {
        let merged = self.merged.as_slice();
        merged[row as usize]
    }

    /// The number of a point's moment: the one before its row, or the end where no row leads from
    /// it.
    pub fn moment_at(&self, point: u32) -> u32
        requires { point ≤ (seen_of self.now).legs.count }
        ensures { result ≡ moment_in (seen_of self.now) point }
    {
        match self.row(point) {
            Some(_) => self.number(PointSide {
                point,
                is_after: false,
            }),
            None => self.end(),
        }
    }

    /// The last of the moments that have a number.
    pub fn last(&self, number: u32) -> Moment
        ensures { moment_named result ≡ (numbers_of self.now).last number }
    {
        match self.numbers.at(number) {
            Some(side) => self.points.moment(side),
            None => Moment::End,
        }
    }

    /// The row before which the moment of a number lies, if it lies before one.
    pub fn row_at(&self, number: u32) -> Option<u32>
        ensures { IsRowAt (seen_of self.now) number result }
    {
        match self.numbers.at(number) {
            Some(side) if !side.is_after => Some(side.point),
            _ => None,
        }
    }

    /// The last point of the thread that a point is of.
    fn last_of(&self, point: u32) -> u32
        requires { point < points_in self.now }
        ensures { IsLastFrom (seen_of self.now).legs point (Some result) }
    {
        let thread = self.place(point).thread;
        self.first(thread) + self.rows(thread)
    }

    /// The least point from one on that is the last one of its thread, if there is one.
    pub fn next_last(&self, least: u32) -> Option<u32>
        ensures { IsLastFrom (seen_of self.now).legs least result }
    {
        let count = self.points.count();
        if least < count {
            return Some(self.last_of(least));
        }
        // of no thread there is one point, from which no row leads
        if least > self.last_point() {
            None
        } else {
            Some(least)
        }
    }

    /// Whether the row that leads from a point, if one does, writes memory by the form of its
    /// instruction, whatever is known of it.
    pub fn stores(&self, point: u32) -> bool
        ensures { result ≡ stores self.now (row_on self.now point) }
    {
        self.points.stores(point)
    }

    /// Whether the row lies wholly before the moment. This is said of each row that can't write.
    pub fn is_past(&self, row: u32, m: u32) -> bool
        requires { IsSome ((seen_of self.now).legs.row row) }
        ensures { result ≡ (seen_of self.now).moments.past row m }
    {
        if !self.points.stores(row) {
            return true;
        }
        match self.numbers.at(m) {
            Some(side) => self.points.is_not_later(
                PointSide {
                    point: row,
                    is_after: true,
                },
                side,
            ),
            None => true,
        }
    }

    /// Whether the row lies wholly after the moment.
    pub fn is_ahead(&self, row: u32, m: u32) -> bool
        requires { IsSome ((seen_of self.now).legs.row row) }
        ensures { result ≡ (seen_of self.now).moments.ahead row m }
    {
        match self.numbers.at(m) {
            Some(side) => self.points.is_not_later(
                side,
                PointSide {
                    point: row,
                    is_after: false,
                },
            ),
            None => false,
        }
    }

    /// Whether two numbers are of one thread and have the same times: a row of another thread then
    /// lies before both or neither, and after both or neither. The end is together with none.
    pub fn are_together(&self, m: u32, k: u32) -> bool
        ensures { result ≡ true ↔ AreTogether self.now m k }
    {
        match self.numbers.at(m) {
            Some(side) => self.is_together(side, k),
            None => false,
        }
    }

    /// Whether a moment of a row and a number are of one thread and have the same times.
    fn is_together(&self, side: PointSide, k: u32) -> bool
        requires { IsSome ((seen_of self.now).legs.row side.point) }
        ensures { result ≡ true ↔ IsTogether self.now side k }
    {
        match self.numbers.at(k) {
            Some(other) => self.are_beside(side, other),
            None => false,
        }
    }

    /// Whether two moments of rows are of one thread, and have the same times.
    fn are_beside(&self, one: PointSide, other: PointSide) -> bool
        requires one { IsSome ((seen_of self.now).legs.row one.point) }
        requires other { IsSome ((seen_of self.now).legs.row other.point) }
        ensures { result ≡ true ↔ AreBeside self.now one other }
    {
        if self.points.thread(one.point) == self.points.thread(other.point) {
            is_alike(&self.points, one, other)
        } else {
            false
        }
    }

    /// Whether the first row lies wholly after the second.
    pub fn is_later(&self, i: u32, j: u32) -> bool
        requires first { IsSome ((seen_of self.now).legs.row i) }
        requires second { IsSome ((seen_of self.now).legs.row j) }
        ensures { result ≡ (seen_of self.now).moments.later i j }
    {
        let after = PointSide {
            point: j,
            is_after: true,
        };
        let before = PointSide {
            point: i,
            is_after: false,
        };
        self.points.is_not_later(after, before)
    }

    /// Whether there are writers that aren't told.
    pub fn is_untraced(&self) -> bool
        ensures { result ≡ (seen_of self.now).moments.is_untraced }
    {
        self.points.is_untraced()
    }

    /// Whether they lie wholly before the moment.
    pub fn is_untraced_past(&self, m: u32) -> bool
        ensures { result ≡ (seen_of self.now).moments.untraced_past m }
    {
        if !self.is_untraced() {
            return true;
        }
        match self.numbers.at(m) {
            Some(side) => self.points.is_untraced_past(side),
            None => true,
        }
    }

    /// Whether they lie wholly before the row.
    pub fn is_untraced_before(&self, row: u32) -> bool
        requires { IsSome ((seen_of self.now).legs.row row) }
        ensures { result ≡ (seen_of self.now).moments.untraced_before row }
    {
        self.points.is_untraced_past(PointSide {
            point: row,
            is_after: false,
        })
    }

    /// The row that is no call and has these moments before and after it.
    pub fn row_between(&self, m: u32, w: u32) -> Option<u32>
        ensures { IsOwnBetween self.now m w result }
    {
        match self.numbers.at(m) {
            Some(side) if !side.is_after => self.own_between(side.point, w),
            _ => None,
        }
    }

    /// The row, if it is no call and this is the moment after it.
    fn own_between(&self, row: u32, w: u32) -> Option<u32>
        requires { IsSome ((seen_of self.now).legs.row row) }
        ensures { result ≡ own_to self.now row w }
    {
        if self.after(row) != w {
            return None;
        }
        match self.row(row) {
            Some(its_row) => {
                if is_call(&its_row.instr) {
                    None
                } else {
                    Some(row)
                }
            }
            None => None,
        }
    }

    /// The number of a moment of a row.
    fn name(&self, side: PointSide) -> u32
        requires { IsSome ((seen_of self.now).legs.row side.point) }
        ensures { result ≡ (numbers_of self.now).name (moment_at_side self.now side) }
    {
        if side.is_after {
            self.after(side.point)
        } else {
            let number = self.before(side.point);
            number
        }
    }

    /// Whether slices begin after that of a moment of a row ends, and the least end of those.
    fn later_of_others(&self, side: PointSide) -> Later
        requires { IsSome ((seen_of self.now).legs.row side.point) }
        ensures { IsLaterBy self.now side None result }
    {
        self.begins.from(self.begins.after(self.points.end(side)))
    }

    /// Whether a moment is later than one of a row, and by which time one must be able to come to
    /// be next to it.
    fn later(&self, side: PointSide) -> Later
        requires { IsSome ((seen_of self.now).legs.row side.point) }
        ensures { IsLaterBy self.now side (following_at self.now side) result }
    {
        let own = following(&self.points, side);
        with_end(&self.points, own, self.later_of_others(side))
    }

    /// The time before which a moment of a row doesn't come.
    fn begin(&self, side: PointSide) -> u64
        requires { IsSome ((seen_of self.now).legs.row side.point) }
        ensures { result ≡ begin_of self.now (event_at self.now side) }
    {
        self.points.begin(side)
    }

    /// Adds the number of a moment that is the first later one of its thread, if it may come by a
    /// time, but not the number that is left out.
    fn add_first(
        &self,
        list: &mut Vec<u32>,
        own: u32,
        last: Option<u64>,
        first: Option<PointSide>,
    ) -> Result<(), OutOfMemory>
        requires { IfSome first (λ s. IsSome ((seen_of self.now).legs.row s.point)) }
        ensures { OnOk result (AddsOthers own (Member (offers_at self.now last first)) list.old.items list.new.items) }
    {
        match first {
            Some(side) => self.add_in_time(list, own, last, side),
            None => Ok(()),
        }
    }

    /// Adds the number of a moment, if it may come by a time, but not the number that is left out.
    fn add_in_time(
        &self,
        list: &mut Vec<u32>,
        own: u32,
        last: Option<u64>,
        side: PointSide,
    ) -> Result<(), OutOfMemory>
        requires { IsSome ((seen_of self.now).legs.row side.point) }
        ensures { OnOk result (AddsOthers own (Member (offers_at self.now last (Some side))) list.old.items list.new.items) }
    {
        let begin = self.begin(side);
        if is_not_past(last, begin) {
            add_other(list, own, self.name(side))
        } else {
            Ok(())
        }
    }

    /// Adds the numbers of the moments that are next to one of a row.
    fn add_after(&self, list: &mut Vec<u32>, own: u32, side: PointSide) -> Result<(), OutOfMemory>
        requires { IsSome ((seen_of self.now).legs.row side.point) }
        ensures { OnOk result (AddsOthers own (Member (nexts_of self.now (moment_at_side self.now side))) list.old.items list.new.items) }
    {
        let _ = &self.points;
        let later = self.later(side);
        if !later.some {
            return add_other(list, own, self.end());
        }
        self.add_first(list, own, later.last, following(&self.points, side))?;
        self.add_begun(&self.begins, list, own, side, later.last)?;
        Ok(())
    }

    /// Whether a moment of another thread that is later than one of a row is the first such one of
    /// its thread.
    fn is_first_later(&self, side: PointSide, first: PointSide) -> bool
        requires side { IsSome ((seen_of self.now).legs.row side.point) }
        requires first { IsSome ((seen_of self.now).legs.row first.point) }
        ensures { result ≡ is_first_later self.now side first }
    {
        let own = self.points.thread(side.point) == self.points.thread(first.point);
        let early = self.is_none_late(side, former(&self.points, first));
        !own && early
    }

    /// Whether a moment of another thread, if there is one, isn't later than one of a row: its
    /// slice doesn't begin after the other one's ends.
    fn is_none_late(&self, side: PointSide, before: Option<PointSide>) -> bool
        requires side { IsSome ((seen_of self.now).legs.row side.point) }
        requires before { IfSome before (λ s. IsSome ((seen_of self.now).legs.row s.point)) }
        ensures { result ≡ none_late self.now side before }
    {
        match before {
            Some(before) => is_not_past(self.points.end(side), self.begin(before)),
            None => true,
        }
    }

    /// Adds the number of a moment that is later than one of a row, if it is the first such one of
    /// another thread.
    fn add_later(
        &self,
        list: &mut Vec<u32>,
        own: u32,
        side: PointSide,
        first: PointSide,
    ) -> Result<(), OutOfMemory>
        requires side { IsSome ((seen_of self.now).legs.row side.point) }
        requires first { IsSome ((seen_of self.now).legs.row first.point) }
        ensures { OnOk result (AddsOthers own (Member (first_offer self.now side first)) list.old.items list.new.items) }
    {
        if self.is_first_later(side, first) {
            add_other(list, own, self.name(first))
        } else {
            Ok(())
        }
    }

    /// Adds the numbers of the first moments of other threads that are later than one of a row, of
    /// those that may come by a time.
    fn add_begun(
        &self,
        begins: &Begins,
        list: &mut Vec<u32>,
        own: u32,
        side: PointSide,
        last: Option<u64>,
    ) -> Result<(), OutOfMemory>
        requires row { IsSome ((seen_of self.now).legs.row side.point) }
        requires begins { AreBegins self.now begins.now }
        ensures { OnOk result (AddsOthers own (IsOffer self.now side last) list.old.items list.new.items) }
    {
        let start = begins.after(self.points.end(side));
        let end = begins.after(last);
        for place in start..end {
            self.add_later(list, own, side, begins.first(place))?;
        }
        Ok(())
    }

    /// Adds the numbers of the first later moments of other threads, for the moment after the row
    /// that leads from a point, if that is one with the thread's next moment.
    fn add_merged(&self, list: &mut Vec<u32>, own: u32, point: u32) -> Result<(), OutOfMemory>
        requires { point < points_in self.now }
        ensures { OnOk result (AddsOthers own (Member (merged_nexts self.now point)) list.old.items list.new.items) }
    {
        if self.is_merged(point) {
            self.add_after(
                list,
                own,
                PointSide {
                    point,
                    is_after: true,
                },
            )
        } else {
            Ok(())
        }
    }

    /// Adds the numbers of the first later moments of other threads, for the moment after the row
    /// that leads to a point, if that is one with the thread's next moment.
    fn add_point(&self, list: &mut Vec<u32>, own: u32, point: u32) -> Result<(), OutOfMemory>
        requires { point < points_in self.now }
        ensures { OnOk result (AddsOthers own (Member (point_nexts self.now point)) list.old.items list.new.items) }
    {
        if point == 0 {
            Ok(())
        } else {
            self.add_merged(list, own, point - 1)
        }
    }

    /// Adds the numbers of the first later moments of other threads, for all moments that go by the
    /// number of a row's moment.
    fn add_side(&self, list: &mut Vec<u32>, own: u32, side: PointSide) -> Result<(), OutOfMemory>
        requires { IsSome ((seen_of self.now).legs.row side.point) }
        ensures { OnOk result (AddsOthers own (Member (side_nexts self.now side)) list.old.items list.new.items) }
    {
        self.add_after(list, own, side)?;
        if !side.is_after {
            self.add_point(list, own, side.point)?;
        }
        Ok(())
    }

    /// Adds the numbers of the first later moments of other threads, for all moments that are one
    /// with the end.
    fn add_ends(&self, list: &mut Vec<u32>, own: u32) -> Result<(), OutOfMemory>
        ensures { OnOk result (AddsOthers own (Member (ends_to self.now (length self.now.threads))) list.old.items list.new.items) }
    {
        for thread in 0..self.threads() {
            self.add_last(list, own, thread)?;
        }
        Ok(())
    }

    /// Adds the numbers of the first later moments of other threads, for the moment after a
    /// thread's last row.
    fn add_last(&self, list: &mut Vec<u32>, own: u32, thread: u32) -> Result<(), OutOfMemory>
        requires { thread < length self.now.threads }
        ensures { OnOk result (AddsOthers own (Member (last_nexts self.now thread (length (rows_of self.now thread)))) list.old.items list.new.items) }
    {
        let first = self.first(thread);
        let rows = self.rows(thread);
        if rows == 0 {
            Ok(())
        } else {
            self.add_merged(list, own, first + (rows - 1))
        }
    }

    /// Adds all numbers next to one to a list: those that a later moment has, with none between.
    /// They come in no order, and a number may come more than once.
    pub fn add_nexts(&self, number: u32, list: &mut Vec<u32>) -> Result<(), OutOfMemory>
        requires { number ≤ (seen_of self.now).moments.end }
        ensures { OnOk result (AddsNexts (seen_of self.now).moments number list.old.items list.new.items) }
    {
        match self.numbers.at(number) {
            Some(side) => self.add_side(list, number, side),
            None => self.add_ends(list, number),
        }
    }

    /// Whether the row may act between a number and one that is next to it. Between the moments of
    /// a row that is no call only that row may act, and no row that can't write may act anywhere.
    pub fn may_act(&self, row: u32, m: u32, w: u32) -> bool
        requires row { IsSome ((seen_of self.now).legs.row row) }
        requires next { (seen_of self.now).moments.next m w ≡ true }
        ensures { result ≡ (seen_of self.now).moments.may_act row m w }
    {
        let stores = self.points.stores(row);
        let past = self.is_past(row, m);
        let ahead = self.is_ahead(row, w);
        match self.row_between(m, w) {
            Some(own) => both(stores, own == row),
            None => both(stores, neither(past, ahead)),
        }
    }

    /// Whether the untraced prefix may act between a number and one that is next to it.
    pub fn is_untraced_between(&self, m: u32, w: u32) -> bool
        requires { (seen_of self.now).moments.next m w ≡ true }
        ensures { result ≡ (seen_of self.now).moments.untraced m w }
    {
        let _ = &self.points;
        let past = self.is_untraced_past(m);
        let own = self.row_between(m, w).is_some();
        neither(own, past)
    }
}
