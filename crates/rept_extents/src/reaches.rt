//! How far a byte's value goes at once from the numbers at which it is known.

ghost use Rattle.std.specs.Prelude.{◌≡◌, ◌≤◌, ◌<◌, ◌+◌, ℕ, true, IfOk, IfSome, IsOk};
ghost use Rattle.rept_report.specs.Moments.{Moments, AreMoments};
ghost use Rattle.rept_moments.specs.Courses.{seen_in, is_one};
ghost use Rattle.rept_report.specs.Reach.Reaching.{IsLeaving, IsReachedUp, IsReachedDown};
ghost use Rattle.rept_extents.specs.Tables.{AreEach, AreTables, NextsLieIn, IsUp, IsDown};

use crate::Ways;
use crate::hulls::{Bounds, BoundsTree};
use rept_moments::NumberedRun;
use rept_report::NumberWindow;
use std::alloc::{AllocError as OutOfMemory, Global};

/// Which numbers are next to each, and by which ones each is reached.
#[derive(Drop)]
pub enum NextTables {
    /// Of one thread alone none are kept: no number but the one after it is next to a number.
    One,
    /// Of several threads they are listed by the numbers before the end.
    Many {
        /// Bounds of the numbers that are next to each.
        nexts: BoundsTree,
        /// The greatest earlier number that the one after each is next to, if there is one and
        /// nothing that isn't told may act between. It stands as the least of bounds.
        ups: BoundsTree,
        /// The least number after each that is next to it, if there is one and nothing that isn't
        /// told may act between. It stands as the greatest of bounds.
        downs: BoundsTree,
    },
}

/// Bounds of the numbers that are next to one, if there are some.
fn nexts_of(ways: &Ways<'_>, number: u32) -> Option<Bounds>
    ensures { IfSome result (NextsLieIn (seen_in ways.now).moments number) }
{
    let course = ways.course();
    let end = course.end();
    let Some(least) = ways.next_from(number, 0) else {
        return None;
    };
    let Some(most) = ways.next_to(number, end) else {
        return None;
    };
    Some(Bounds { least, most })
}

/// The greatest earlier number that the one after a number is next to, if there is one and nothing
/// that isn't told may act between.
fn up_of(ways: &Ways<'_>, number: u32) -> Option<Bounds>
    requires { number < (seen_in ways.now).moments.end }
    ensures { IfSome result (IsUp (seen_in ways.now).moments number) }
{
    let course = ways.course();
    // for the proof alone
    let _end = course.end();
    let Some(former) = ways.previous_to(number + 1, number) else {
        return None;
    };
    if course.is_untraced_between(former, number + 1) {
        return None;
    }
    Some(Bounds {
        least: former,
        most: 0,
    })
}

/// The least number after one that is next to it, if there is one and nothing that isn't told may
/// act between.
fn down_of(ways: &Ways<'_>, number: u32) -> Option<Bounds>
    requires { number < (seen_in ways.now).moments.end }
    ensures { IfSome result (IsDown (seen_in ways.now).moments number) }
{
    let course = ways.course();
    // for the proof alone
    let _end = course.end();
    let Some(next) = ways.next_from(number, number + 1) else {
        return None;
    };
    if course.is_untraced_between(number, next) {
        return None;
    }
    Some(Bounds {
        least: u32::MAX,
        most: next,
    })
}

/// Bounds of the numbers that are next to each.
fn all_nexts(alloc: Global, ways: &Ways<'_>) -> Result<Vec<Option<Bounds>>, OutOfMemory>
    ensures { IfOk result (λ v. AreEach (NextsLieIn (seen_in ways.now).moments) v.items) }
{
    let mut list = Vec::new(alloc);
    for number in 0..ways.course().end() {
        list.push(nexts_of(ways, number))?;
    }
    Ok(list)
}

/// By which number the one after each is reached.
fn all_ups(alloc: Global, ways: &Ways<'_>) -> Result<Vec<Option<Bounds>>, OutOfMemory>
    ensures { IfOk result (λ v. AreEach (IsUp (seen_in ways.now).moments) v.items) }
{
    let mut list = Vec::new(alloc);
    for number in 0..ways.course().end() {
        list.push(up_of(ways, number))?;
    }
    Ok(list)
}

/// Which number each reaches.
fn all_downs(alloc: Global, ways: &Ways<'_>) -> Result<Vec<Option<Bounds>>, OutOfMemory>
    ensures { IfOk result (λ v. AreEach (IsDown (seen_in ways.now).moments) v.items) }
{
    let mut list = Vec::new(alloc);
    for number in 0..ways.course().end() {
        list.push(down_of(ways, number))?;
    }
    Ok(list)
}

/// The tables of several threads.
fn many(alloc: Global, ways: &Ways<'_>) -> Result<NextTables, OutOfMemory>
    ensures { IfOk result (λ t. AreTables (seen_in ways.now).moments t) }
{
    let nexts = BoundsTree::new(alloc, all_nexts(alloc, ways)?)?;
    let ups = BoundsTree::new(alloc, all_ups(alloc, ways)?)?;
    let downs = BoundsTree::new(alloc, all_downs(alloc, ways)?)?;
    Ok(NextTables::Many { nexts, ups, downs })
}

impl NextTables {
    /// Those of a course. Of one thread alone it takes no memory, else memory for some three
    /// entries a number.
    pub fn new(alloc: Global, ways: &Ways<'_>) -> Result<NextTables, OutOfMemory>
        ensures tables { IfOk result (λ t. AreTables (seen_in ways.now).moments t) }
        ensures alone { is_one ways.now ≡ true → IsOk result }
    {
        match ways.course() {
            NumberedRun::One { .. } => Ok(NextTables::One),
            NumberedRun::Many(_) => many(alloc, ways),
        }
    }

    /// A number from one of a window on, before the window's end, before which no number from there
    /// on has a next one outside the window.
    pub fn leaving_from(&self, least: u32, known: NumberWindow) -> u32
        requires since { known.from ≤ least }
        requires order { least < known.to }
        ensures { (M : Moments) → ∥ AreTables M self.now ∥₁ → IsLeaving M known least result }
    {
        let (from, most) = (known.from, known.to - 1);
        match self {
            NextTables::One => most,
            NextTables::Many { nexts, .. } => nexts.up_to(
                least,
                most,
                Bounds { least: from, most },
            ),
        }
    }

    /// A number up to which, but no further than another one, each number after those of a window
    /// is next to an earlier one that isn't below the window.
    pub fn up(&self, known: NumberWindow, most: u32) -> u32
        requires { known.from < known.to }
        ensures { (M : Moments) → ∥ AreTables M self.now ∥₁ → known.to ≤ M.end + 1 → IsReachedUp M known most result }
    {
        let last = known.to - 1;
        if most <= last {
            return last;
        }
        match self {
            NextTables::One => last,
            NextTables::Many { ups, .. } => ups.up_to(
                last,
                most,
                Bounds {
                    least: known.from,
                    most: u32::MAX,
                },
            ),
        }
    }

    /// A number down to which, but no further than another one, each number before those of a
    /// window has a next one after it that isn't past the window.
    pub fn down(&self, known: NumberWindow, least: u32) -> u32
        requires { known.from < known.to }
        ensures { (M : Moments) → ∥ AreTables M self.now ∥₁ → IsReachedDown M known least result }
    {
        if known.from <= least {
            return known.from;
        }
        match self {
            NextTables::One => known.from,
            NextTables::Many { downs, .. } => downs.down_to(
                least,
                known.from,
                Bounds {
                    least: 0,
                    most: known.to - 1,
                },
            ),
        }
    }
}
