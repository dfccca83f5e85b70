//! Where numbers that rise pass one. A search that says where it ended last looks there first; that
//! only saves work, and no clause rests on it.

ghost use Rattle.std.specs.Prelude.{◌≡◌, ◌+◌, ◌≤◌, true, length};
ghost use Rattle.std.specs.List.Sorted.{IsNonDecreasing};
ghost use Rattle.rept_writing.specs.Hits.{AreInOrder, IsSplitAt};
ghost use Rattle.rept_writing.specs.Acting.{IsSplitByActing};

use crate::list::Writing;
use std::cell::Cell;

/// How many of these indices are below one.
pub fn below(indices: &[usize], k: usize) -> usize
    requires { IsNonDecreasing indices.now }
    ensures { IsSplitByActing indices.now k result }
{
    indices.partition_point(|j| *j < k)
}

/// Whether so many of these indices are below one.
fn are_below(indices: &[usize], k: usize, at: usize) -> bool
    requires { IsNonDecreasing indices.now }
    ensures { result ≡ true → IsSplitByActing indices.now k at }
{
    if at > indices.len() {
        return false;
    }
    (at == 0 || indices[at - 1] < k) && (at == indices.len() || k <= indices[at])
}

/// How many of these indices are below one, with a look first at where the last search ended.
pub fn below_near(indices: &[usize], k: usize, near: &Cell<usize>) -> usize
    requires { IsNonDecreasing indices.now }
    ensures { IsSplitByActing indices.now k result }
{
    let last = near.get();
    if are_below(indices, k, last) {
        return last;
    }
    let at = below(indices, k);
    near.set(at);
    at
}

/// Whether so many of these numbers are no greater than one.
fn are_up_to(numbers: &[u32], bound: u32, at: usize) -> bool
    requires { IsNonDecreasing numbers.now }
    ensures { result ≡ true → IsSplitByActing numbers.now (bound + 1) at }
{
    if at > numbers.len() {
        return false;
    }
    (at == 0 || numbers[at - 1] <= bound) && (at == numbers.len() || bound < numbers[at])
}

/// How many of these numbers are no greater than one, with a look first at where the last search
/// ended.
pub fn up_to_near(numbers: &[u32], bound: u32, near: &Cell<usize>) -> usize
    requires { IsNonDecreasing numbers.now }
    ensures { IsSplitByActing numbers.now (bound + 1) result }
{
    let last = near.get();
    if are_up_to(numbers, bound, last) {
        return last;
    }
    let at = numbers.partition_point(|number| *number <= bound);
    near.set(at);
    at
}

/// Whether so many rows stand at lower numbers than this one.
fn are_before(list: &[Writing], number: u32, at: usize) -> bool
    ensures bound { result ≡ true → at ≤ length list.now }
    ensures split { result ≡ true → AreInOrder list.now → IsSplitAt list.now number at }
{
    if at > list.len() {
        return false;
    }
    (at == 0 || list[at - 1].at < number) && (at == list.len() || number <= list[at].at)
}

/// How many rows stand at lower numbers, with a look first at where the last search ended and at
/// the place after it. The rows must stand in the order of these; where they don't, it is some
/// index, up to the number of rows.
pub fn before_near(list: &[Writing], number: u32, near: &Cell<usize>) -> usize
    ensures bound { result ≤ length list.now }
    ensures split { AreInOrder list.now → IsSplitAt list.now number result }
{
    let last = near.get();
    if are_before(list, number, last) {
        return last;
    }
    if last < list.len() && are_before(list, number, last + 1) {
        near.set(last + 1);
        return last + 1;
    }
    let at = list.partition_point(|w| w.at < number);
    near.set(at);
    at
}
