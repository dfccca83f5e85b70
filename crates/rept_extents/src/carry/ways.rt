//! A course whose moments are gone through in both directions.

ghost use Rattle.std.specs.Prelude.{◌≡◌, ◌≤◌, ◌<◌, ◌↔◌, ℕ, Some, true, length, IfOk, IsOk, IsSome};
ghost use Rattle.rept_steps.specs.Course.{IsSoundCourse};
ghost use Rattle.rept_steps.specs.Runs.{course_of};
ghost use Rattle.rept_order.specs.Legs.{points_before};
ghost use Rattle.rept_report.specs.Moments.{AreMoments, points_of};
ghost use Rattle.rept_moments.specs.Points.{points_in};
ghost use Rattle.rept_moments.specs.Seen.{seen, alone_by};
ghost use Rattle.rept_moments.specs.Courses.{seen_in, threads_in, first_in, is_one, IsCourseOf};
ghost use Rattle.rept_report.specs.Timeline.{IsLeastFrom, IsGreatestTo};
ghost use Rattle.rept_extents.specs.Carry.Links.{IsNextFrom, IsNextTo, IsPreviousFrom, IsPreviousTo};
ghost use Rattle.rept_extents.specs.Carry.Course.{AreWays};

use crate::carry::links::Links;
use rept_moments::{NumberedRun, numbers_are_names};
use rept_steps::Run;
use std::alloc::{AllocError as OutOfMemory, Global};
use std::marker::Model;

/// A course with what leads onward and back from each of its numbers. Contracts see the course.
#[derive(Drop)]
pub struct Ways<'a> {
    course: NumberedRun<'a>,
    /// of one thread alone none is kept
    links: Links,
}

impl<'a> Model for Ways<'a> {
    ghost use Rattle.rept_moments.specs.declared.course.NumberedRun.{NumberedRun};
    ghost use Rattle.rept_report.specs.Moments.{AreMoments};
    ghost use Rattle.rept_moments.specs.Courses.{seen_in};
    ghost use Rattle.rept_extents.specs.Carry.Course.{AreWays};

    ghost Value = { NumberedRun };

    ghost view = { λ w. w.course };

    ghost invariant = { λ w. record { laws : AreMoments (seen_in w.course).legs (seen_in w.course).moments; ways : AreWays w.course w.links } };
}

/// The pairs that are kept beside a course.
fn links_of(alloc: Global, course: &NumberedRun<'_>) -> Result<Links, OutOfMemory>
    requires { AreMoments (seen_in course.now).legs (seen_in course.now).moments }
    ensures ways { IfOk result (λ l. AreWays course.now l) }
    ensures alone { is_one course.now ≡ true → IsOk result }
{
    match course {
        NumberedRun::One { .. } => Ok(Links::none(alloc)),
        NumberedRun::Many(_) => Links::new(alloc, course),
    }
}

/// A course with its pairs.
fn with_links<'a>(alloc: Global, course: NumberedRun<'a>) -> Result<Ways<'a>, OutOfMemory>
    requires { AreMoments (seen_in course).legs (seen_in course).moments }
    ensures ok { IfOk result (λ w. w ≡ course.entry) }
    ensures alone { is_one course.entry ≡ true → IsOk result }
{
    let links = links_of(alloc, &course)?;
    Ok(Ways { course, links })
}

/// The number after one, where the numbers are the points of one thread.
fn one_after(last: u32, number: u32) -> Option<u32>
    ensures { (w : ℕ) → ((points_of last).next number w ≡ true) ↔ (result ≡ Some w) }
{
    if number < last {
        Some(number + 1)
    } else {
        None
    }
}

/// The number before one, where the numbers are the points of one thread.
fn one_before(last: u32, number: u32) -> Option<u32>
    ensures { (m : ℕ) → ((points_of last).next m number ≡ true) ↔ (result ≡ Some m) }
{
    if number == 0 || number > last {
        None
    } else {
        Some(number - 1)
    }
}

/// A number, if there is one and it isn't below another one.
fn not_below(number: Option<u32>, least: u32) -> Option<u32>
    ensures { IsLeastFrom (λ w. number ≡ Some w) least result }
{
    match number {
        Some(number) if number >= least => Some(number),
        _ => None,
    }
}

/// A number, if there is one and it isn't above another one.
fn not_above(number: Option<u32>, most: u32) -> Option<u32>
    ensures { IsGreatestTo (λ w. number ≡ Some w) most result }
{
    match number {
        Some(number) if number <= most => Some(number),
        _ => None,
    }
}

impl<'a> Ways<'a> {
    /// The course of this run, which must be sound and have at most 66,560 points: those of 65,536
    /// rows and 1,024 threads. Of one thread in one slice, all of which is told, it takes no
    /// memory; else memory for a few entries a point, for two lists a number, and for two entries a
    /// pair of numbers that are next to one another.
    pub fn new(alloc: Global, run: &'a Run) -> Result<Ways<'a>, OutOfMemory>
        requires sound { IsSoundCourse (course_of run.now) }
        requires few { points_in (course_of run.now) ≤ 66560 }
        ensures ok { IfOk result (λ w. seen_in w ≡ seen (course_of run.now)) }
        ensures threads { IfOk result (λ w. threads_in w ≡ length run.now.threads) }
        ensures firsts { IfOk result (λ w. (t : ℕ) → t < length run.now.threads → first_in w t ≡ points_before run.now.threads t) }
        ensures alone { IsSome (alone_by run.now.threads run.now.untraced) → IsOk result }
        ensures course { IfOk result (IsCourseOf (course_of run.now)) }
    {
        numbers_are_names();
        let course = NumberedRun::new(alloc, run)?;
        with_links(alloc, course)
    }

    /// The course. Its rows and moments keep the laws that the report asks for.
    pub fn course(&self) -> &NumberedRun<'a>
        ensures value { result.now ≡ self.now }
        ensures laws { AreMoments (seen_in self.now).legs (seen_in self.now).moments }
    {
        &self.course
    }

    /// The least of the numbers next to one, from a number on: those of later moments, with none
    /// between.
    pub fn next_from(&self, number: u32, least: u32) -> Option<u32>
        ensures { IsNextFrom (seen_in self.now).moments number least result }
    {
        match &self.course {
            NumberedRun::One { steps } => not_below(one_after(steps.len(), number), least),
            NumberedRun::Many(_) => self.links.next_from(number, least),
        }
    }

    /// The greatest of the numbers next to one, up to a number.
    pub fn next_to(&self, number: u32, most: u32) -> Option<u32>
        ensures { IsNextTo (seen_in self.now).moments number most result }
    {
        match &self.course {
            NumberedRun::One { steps } => not_above(one_after(steps.len(), number), most),
            NumberedRun::Many(_) => self.links.next_to(number, most),
        }
    }

    /// The least of the numbers to which one is next, from a number on: those of earlier moments,
    /// with none between.
    pub fn previous_from(&self, number: u32, least: u32) -> Option<u32>
        ensures { IsPreviousFrom (seen_in self.now).moments number least result }
    {
        match &self.course {
            NumberedRun::One { steps } => not_below(one_before(steps.len(), number), least),
            NumberedRun::Many(_) => self.links.previous_from(number, least),
        }
    }

    /// The greatest of the numbers to which one is next, up to a number.
    pub fn previous_to(&self, number: u32, most: u32) -> Option<u32>
        ensures { IsPreviousTo (seen_in self.now).moments number most result }
    {
        match &self.course {
            NumberedRun::One { steps } => not_above(one_before(steps.len(), number), most),
            NumberedRun::Many(_) => self.links.previous_to(number, most),
        }
    }
}
