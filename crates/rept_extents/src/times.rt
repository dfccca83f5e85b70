//! Times between which the moments of numbers come.

ghost use Rattle.std.specs.Prelude.{◌≡◌, ◌≤◌, ◌<◌, ℕ, suc, length, IfOk, IfSome, Some, slice_get};
ghost use Rattle.std.specs.Ordering.{MatchOrdering};
ghost use Rattle.rept_steps.specs.Course.{IsSoundCourse};
ghost use Rattle.rept_order.specs.Events.{event_slice};
ghost use Rattle.rept_order.specs.Ordered.{course_in};
ghost use Rattle.rept_order.specs.Runs.{edge_event, moment_named};
ghost use Rattle.rept_moments.specs.Several.{seen_of};
ghost use Rattle.rept_extents.specs.Times.{ComesFrom, ComesBefore, EndsBefore, AllFrom, AllBefore, AreBegins, AreEndTimes};

use rept_moments::Many;
use rept_order::{Edge, Moment, Order};
use std::alloc::{AllocError as OutOfMemory, Global};
use std::cmp::Ordering;

/// A time before which a moment doesn't come; the end comes after all times.
fn begin_at(order: Order<'_>, moment: Moment) -> u64
    requires { IsSoundCourse (course_in order) }
    ensures { ComesFrom (course_in order.entry) (moment_named moment) result }
{
    match moment {
        Moment::Before { thread, step } => order.begin(Edge {
            thread,
            step,
            last: false,
        }),
        Moment::After { thread, step } => order.begin(Edge {
            thread,
            step,
            last: true,
        }),
        Moment::End => u64::MAX,
    }
}

/// The end of the slice in which a row's first event happens, or its last one, if it happens in
/// one.
pub fn slice_end(order: Order<'_>, edge: Edge) -> Option<u64>
    requires { IsSoundCourse (course_in order) }
    ensures { IfSome result (λ time. EndsBefore (event_slice (course_in order.entry) (edge_event (course_in order.entry) edge)) (suc time)) }
{
    match order.slice(edge) {
        Some(slice) => Some(slice.end),
        None => None,
    }
}

/// The end of the slice that a moment is in, if it is in one.
fn end_at(order: Order<'_>, moment: Moment) -> Option<u64>
    requires { IsSoundCourse (course_in order) }
    ensures { IfSome result (λ time. ComesBefore (course_in order.entry) (moment_named moment) (suc time)) }
{
    match moment {
        Moment::Before { thread, step } => slice_end(
            order,
            Edge {
                thread,
                step,
                last: false,
            },
        ),
        Moment::After { thread, step } => slice_end(
            order,
            Edge {
                thread,
                step,
                last: true,
            },
        ),
        Moment::End => None,
    }
}

/// For the last number before the end, the last two, and so on, a time before which none of their
/// moments comes: the least of their begins.
pub fn begins(alloc: Global, order: Order<'_>, many: &Many<'_>) -> Result<Vec<u64>, OutOfMemory>
    requires sound { IsSoundCourse (course_in order) }
    requires course { many.now ≡ course_in order }
    ensures times { IfOk result (λ v. AreBegins many.now (seen_of many.now).moments.end v.items) }
    ensures few { IfOk result (λ v. length v.items ≤ (seen_of many.now).moments.end) }
{
    let mut list = Vec::new(alloc);
    let mut least = u64::MAX;
    let mut number = many.end();
    while number > 0 {
        number -= 1;
        least = begin_at(order, many.last(number)).min(least);
        list.push(least)?;
    }
    Ok(list)
}

/// For the first number, the first two, and so on, a time up to which all their moments come: the
/// greatest of the ends of their slices, as far as each is in one.
pub fn ends(alloc: Global, order: Order<'_>, many: &Many<'_>) -> Result<Vec<u64>, OutOfMemory>
    requires sound { IsSoundCourse (course_in order) }
    requires course { many.now ≡ course_in order }
    ensures times { IfOk result (λ v. AreEndTimes many.now v.items) }
    ensures few { IfOk result (λ v. length v.items ≤ (seen_of many.now).moments.end) }
{
    let mut list = Vec::new(alloc);
    let mut most = 0;
    for number in 0..many.end() {
        match end_at(order, many.last(number)) {
            Some(end) => most = end.max(most),
            None => return Ok(list),
        }
        list.push(most)?;
    }
    Ok(list)
}

/// How many of the first of a list whose last one lies on a side of a time, found by halves: less
/// than it, it, or greater.
fn count_to(times: &[u64], time: u64, side: Ordering) -> usize
    ensures few { result ≤ length times.now }
    ensures last { (k t : ℕ) → result ≡ suc k → slice_get times.now k ≡ Some t → MatchOrdering side (t < time) (t ≡ time) (time < t) }
{
    let mut low = 0;
    let mut high = times.len();
    while low < high {
        let middle = low + (high - low) / 2;
        if times[middle].cmp(&time) == side {
            low = middle + 1;
        } else {
            high = middle;
        }
    }
    low
}

/// A number from which on all moments come after a time.
pub fn first_after(begins: &[u64], many: &Many<'_>, time: u64) -> u32
    requires times { AreBegins many.now (seen_of many.now).moments.end begins.now }
    requires few { length begins.now ≤ (seen_of many.now).moments.end }
    ensures { AllFrom many.now result (seen_of many.now).moments.end (suc time) }
{
    let count = many.end();
    count - count_to(begins, time, Ordering::Greater) as u32
}

/// A number below which all moments come before a time.
pub fn first_reaching(ends: &[u64], many: &Many<'_>, time: u64) -> u32
    requires times { AreEndTimes many.now ends.now }
    requires few { length ends.now ≤ (seen_of many.now).moments.end }
    ensures { AllBefore many.now result time }
{
    // for the proof alone
    let _count = many.end();
    count_to(ends, time, Ordering::Less) as u32
}
