//! The rows of many addresses, and the search through all.

ghost use Rattle.std.specs.Prelude.{◌≡◌, ◌<◌, ◌≤◌, IfSome, true, get_or, length};
ghost use Rattle.std.specs.List.{All, Contains};
ghost use Rattle.std.specs.List.Sorted.{IsNonDecreasing};
ghost use Rattle.rept_writing.specs.Hits.{hits_at};
ghost use Rattle.rept_writing.specs.Filed.{IsFirst, IsPast};
ghost use Rattle.rept_writing.specs.Bounded.{AreBounded};
ghost use Rattle.rept_writing.specs.Acting.{MayActBefore, MayActFrom};

use crate::bounds::{StoreBounds, block_end, block_has, block_start};
use crate::columns::{earlier, later};
use crate::cuts::below;
use crate::list::Writing;

/// The first row from index k to before another one that may write the address, by a look at each.
pub fn scan(list: &[Writing], k: usize, end: usize, a: u32) -> Option<usize>
    ensures { IsFirst (λ j. hits_at list.now j a ≡ true) k end result }
{
    let last = end.min(list.len());
    for j in k..last {
        if list[j].access.may_hit(a) {
            return Some(j);
        }
    }
    None
}

/// The number after the last row from an index on and before index k that may write the address, or
/// the former index, by a look at each.
pub fn scan_back(list: &[Writing], low: usize, k: usize, a: u32) -> usize
    requires { k ≤ length list.now }
    ensures { IsPast (λ j. hits_at list.now j a ≡ true) low k result }
{
    for j in (low..k).rev() {
        if list[j].access.may_hit(a) {
            return j + 1;
        }
    }
    low
}

/// A number at which and after which no row that may write the address may act, by a look at each.
pub fn scan_since(list: &[Writing], a: u32) -> u32
    ensures { MayActBefore list.now a (length list.now) result }
{
    let mut found = 0;
    for k in 0..list.len() {
        found = later(found, &list[k], a);
    }
    found
}

/// A number before which no row that may write the address may act, by a look at each.
pub fn scan_until(list: &[Writing], a: u32) -> u32
    ensures { MayActFrom list.now a (length list.now) result }
{
    let mut found = u32::MAX;
    for k in 0..list.len() {
        found = earlier(found, &list[k], a);
    }
    found
}

/// Whether the row at a place of these indices may write the address.
fn writes(list: &[Writing], wide: &[usize], place: usize, a: u32) -> bool
    requires inside { All (λ j. j < length list.now) wide.now }
    requires place { place < length wide.now }
    ensures { result ≡ hits_at list.now (get_or wide.now place 0) a }
{
    list[wide[place]].access.may_hit(a)
}

/// The first one of these indices, from k to before another one, whose row may write the address. A
/// block whose bounds don't have it is passed over.
pub fn next_wide(
    list: &[Writing],
    wide: &[usize],
    blocks: &[StoreBounds],
    k: usize,
    end: usize,
    a: u32,
) -> Option<usize>
    requires rising { IsNonDecreasing wide.now }
    requires inside { All (λ j. j < length list.now) wide.now }
    requires bounded { AreBounded list.now wide.now blocks.now }
    ensures { IsFirst (λ j. Contains wide.now j × (hits_at list.now j a ≡ true)) k end result }
{
    let start = below(wide, k);
    let stop = below(wide, end);
    let mut i = start;
    while i < stop {
        if !block_has(blocks, i, a) {
            i = block_end(i, stop);
        } else if writes(list, wide, i, a) {
            return Some(wide[i]);
        } else {
            i += 1;
        }
    }
    None
}

/// The number after the last one of these indices from one on and below k whose row may write the
/// address, or the former index. A block whose bounds don't have the address is passed over.
pub fn past_wide(
    list: &[Writing],
    wide: &[usize],
    blocks: &[StoreBounds],
    low: usize,
    k: usize,
    a: u32,
) -> usize
    requires rising { IsNonDecreasing wide.now }
    requires inside { All (λ j. j < length list.now) wide.now }
    requires bounded { AreBounded list.now wide.now blocks.now }
    ensures { IsPast (λ j. Contains wide.now j × (hits_at list.now j a ≡ true)) low k result }
{
    let start = below(wide, low);
    let stop = below(wide, k);
    let mut i = stop;
    while start < i {
        let last = i - 1;
        if !block_has(blocks, last, a) {
            i = block_start(last);
        } else if writes(list, wide, last, a) {
            return wide[last] + 1;
        } else {
            i = last;
        }
    }
    low
}

/// The place of an index among these. Where they aren't in order there may be none.
pub fn place_of(wide: &[usize], k: usize) -> Option<usize>
    ensures { IfSome result (λ p. (p < length wide.now) × (get_or wide.now p 0 ≡ k)) }
{
    let at = wide.partition_point(|j| *j < k);
    if at < wide.len() && wide[at] == k {
        Some(at)
    } else {
        None
    }
}
