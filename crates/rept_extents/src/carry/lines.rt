//! Lines: numbers one after the other, of which each but the last has the one after it next to it,
//! and no other.

ghost use Rattle.std.specs.Prelude.{◌≡◌, ◌≤◌, ◌<◌, ◌+◌, ℕ, true, false, IfOk, IsOk};
ghost use Rattle.rept_report.specs.Moments.{Moments, AreMoments};
ghost use Rattle.rept_report.specs.Timeline.{IsJoined, IsLine};
ghost use Rattle.rept_moments.specs.Courses.{seen_in, is_one};
ghost use Rattle.rept_extents.specs.Carry.Lines.{IsLineFrom, AreLinesBelow, AreLines, IsIn};

use crate::carry::ways::Ways;
use rept_moments::NumberedRun;
use rept_report::paths::NumberChain;
use std::alloc::{AllocError as OutOfMemory, Global};

/// The line of each number.
#[derive(Drop)]
pub enum Lines {
    /// Of one thread alone all numbers are one line.
    One {
        /// The last number.
        end: u32,
    },
    /// Of several threads they are listed by numbers.
    Many {
        /// The line of each number.
        list: Vec<NumberChain>,
    },
}

/// Whether no number after another one is next to a number.
fn none_after(ways: &Ways<'_>, number: u32, next: u32) -> bool
    requires number { number ≤ (seen_in ways.now).moments.end }
    requires next { next ≤ (seen_in ways.now).moments.end }
    requires laws { AreMoments (seen_in ways.now).legs (seen_in ways.now).moments }
    ensures yes { result ≡ true → (w : ℕ) → next < w → (seen_in ways.now).moments.next number w ≡ false }
    ensures no { result ≡ false → (w : ℕ) × (next < w) × ((seen_in ways.now).moments.next number w ≡ true) }
{
    let end = ways.course().end();
    if next >= end {
        return true;
    }
    match ways.next_from(number, next + 1) {
        None => true,
        Some(_) => false,
    }
}

/// Whether the number after one is next to it, and no other.
fn is_joined(ways: &Ways<'_>, number: u32) -> bool
    requires inside { number < (seen_in ways.now).moments.end }
    requires laws { AreMoments (seen_in ways.now).legs (seen_in ways.now).moments }
    ensures yes { result ≡ true → IsJoined (seen_in ways.now).moments number }
    ensures no { result ≡ false → IsJoined (seen_in ways.now).moments number → ⊥ }
{
    // for the proof alone
    let _end = ways.course().end();
    match ways.next_from(number, 0) {
        None => false,
        Some(next) => {
            if next > number + 1 {
                return false;
            }
            if next < number + 1 {
                return false;
            }
            none_after(ways, number, next)
        }
    }
}

/// The last number to which a line leads from one on.
fn last_from(ways: &Ways<'_>, first: u32) -> u32
    requires inside { first ≤ (seen_in ways.now).moments.end }
    requires laws { AreMoments (seen_in ways.now).legs (seen_in ways.now).moments }
    ensures { IsLineFrom (seen_in ways.now).moments first result }
{
    let end = ways.course().end();
    let mut last = first;
    while last < end {
        if !is_joined(ways, last) {
            return last;
        }
        last += 1;
    }
    last
}

/// The line of a number, from that of the number before it.
fn line_after(ways: &Ways<'_>, line: NumberChain, number: u32) -> NumberChain
    requires inside { number < (seen_in ways.now).moments.end }
    requires laws { AreMoments (seen_in ways.now).legs (seen_in ways.now).moments }
    requires line { IsLine (seen_in ways.now).moments number line }
    ensures { IsLine (seen_in ways.now).moments (number + 1) result }
{
    // for the proof alone
    let _end = ways.course().end();
    if number < line.last {
        line
    } else {
        NumberChain {
            first: number + 1,
            last: last_from(ways, number + 1),
        }
    }
}

/// The line of each number.
fn all_lines(alloc: Global, ways: &Ways<'_>) -> Result<Vec<NumberChain>, OutOfMemory>
    requires { AreMoments (seen_in ways.now).legs (seen_in ways.now).moments }
    ensures { IfOk result (λ v. AreLinesBelow (seen_in ways.now).moments ((seen_in ways.now).moments.end + 1) v.items) }
{
    let mut list = Vec::new(alloc);
    let mut line = NumberChain {
        first: 0,
        last: last_from(ways, 0),
    };
    let course = ways.course();
    for number in 0..course.end() {
        list.push(line)?;
        line = line_after(ways, line, number);
    }
    list.push(line)?;
    Ok(list)
}

impl Lines {
    /// The lines of a course. Of one thread alone it takes no memory, else memory for one entry a
    /// number.
    pub fn new(alloc: Global, ways: &Ways<'_>) -> Result<Lines, OutOfMemory>
        ensures lines { IfOk result (λ l. AreLines (seen_in ways.now).moments l) }
        ensures inside { IfOk result (λ l. (m : ℕ) → m ≤ (seen_in ways.now).moments.end → IsIn l m) }
        ensures alone { is_one ways.now ≡ true → IsOk result }
    {
        match ways.course() {
            NumberedRun::One { steps } => Ok(Lines::One { end: steps.len() }),
            NumberedRun::Many(_) => {
                let list = all_lines(alloc, ways)?;
                Ok(Lines::Many { list })
            }
        }
    }

    /// The line of a number of the course whose lines these are.
    pub fn line(&self, number: u32) -> NumberChain
        requires { IsIn self.now number }
        ensures { (moments : Moments) → AreLines moments self.now → number ≤ moments.end → IsLine moments number result }
    {
        match self {
            Lines::One { end } => NumberChain {
                first: 0,
                last: *end,
            },
            Lines::Many { list } => list[number as usize],
        }
    }
}
