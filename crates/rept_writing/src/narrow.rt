//! The addresses of rows that may write few, each by itself.

ghost use Rattle.std.specs.Prelude.{◌≡◌, ◌⊎◌, ◌+◌, ◌<◌, ◌≤◌, true, [], ◌∷◌, ◌++◌, length};
ghost use Rattle.std.specs.Vec.{vec_len, vec_capacity};
ghost use Rattle.std.specs.List.{Contains};
ghost use Rattle.std.specs.List.Sorted.{IsSearchInRange, IsSorted};
ghost use Rattle.std.specs.Ordering.{is_lt};
ghost use Rattle.rept_writing.specs.Filed.{IsFirst, IsFound, IsLeast, IsPast, IsPlaceOf, IsKeptByAddress, StartsAtWord, hit, hit_cmp, hits_from, hits_of_part, size_of_part};

use rept_alias::{Access, CallAccess};
use std::cell::Cell;

/// A row whose addresses are at most so many has each of them kept by itself.
const FEW: u64 = 8;

/// That the row at an index of the list may write an address. In order by address, and at one
/// address by index.
#[derive(Clone, Copy, PartialEq, Eq, PartialOrd, Ord, Debug)]
pub struct Hit {
    /// the address
    pub address: u32,
    /// the index
    pub index: usize,
}

/// How many addresses there are.
fn size_of_part(part: Option<Access>) -> u64
    ensures value { result ≡ size_of_part part }
    ensures bound { result ≤ 4294967296 }
{
    match part {
        None => 0,
        Some(access) => {
            if access.all {
                0x1_0000_0000
            } else {
                u64::from(access.hi.wrapping_sub(access.lo)) + 1
            }
        }
    }
}

/// Keeps so many addresses from one on, modulo 2^32.
fn push_from(narrow: &mut Vec<Hit>, first: u32, count: u32, index: usize)
    requires { vec_len narrow.old + count ≤ vec_capacity narrow.old }
    ensures items { narrow.new.items ≡ narrow.old.items ++ hits_from first count index }
    ensures len { vec_len narrow.new ≡ vec_len narrow.old + count }
    ensures capacity { vec_capacity narrow.new ≡ vec_capacity narrow.old }
{
    for step in 0..count {
        let address = first.wrapping_add(step);
        narrow.push_reserved(Hit { address, index });
    }
}

/// Keeps the addresses of a part.
fn push_part(narrow: &mut Vec<Hit>, part: Option<Access>, index: usize)
    requires few { size_of_part part ≤ 8 }
    requires room { vec_len narrow.old + size_of_part part ≤ vec_capacity narrow.old }
    ensures items { narrow.new.items ≡ narrow.old.items ++ hits_of_part part index }
    ensures start { StartsAtWord part }
    ensures len { vec_len narrow.new ≡ vec_len narrow.old + size_of_part part }
    ensures capacity { vec_capacity narrow.new ≡ vec_capacity narrow.old }
{
    match part {
        None => {}
        Some(access) => {
            let last = access.hi.wrapping_sub(access.lo);
            push_from(narrow, access.lo, last + 1, index);
        }
    }
}

/// Keeps each address of the row at an index, where these are few and there is room, and else the
/// index.
pub fn file(narrow: &mut Vec<Hit>, wide: &mut Vec<usize>, index: usize, access: &CallAccess)
    requires { vec_len wide.old < vec_capacity wide.old }
    ensures filed { (IsKeptByAddress access.now index narrow.old.items narrow.new.items × (wide.new.items ≡ wide.old.items)) ⊎ ((narrow.new.items ≡ narrow.old.items) × (wide.new.items ≡ wide.old.items ++ index ∷ [])) }
    ensures capacity { vec_capacity wide.new ≡ vec_capacity wide.old }
{
    let size = size_of_part(access.first) + size_of_part(access.second);
    let room = narrow.capacity().saturating_sub(narrow.len());
    if size <= FEW && size <= room as u64 {
        push_part(narrow, access.first, index);
        push_part(narrow, access.second, index);
    } else {
        wide.push_reserved(index);
    }
}

/// Whether a hit comes before another one.
fn is_less(x: Hit, y: Hit) -> bool
    ensures { result ≡ is_lt (hit_cmp x y) }
{
    if x.address == y.address {
        return x.index < y.index;
    }
    x.address < y.address
}

/// Whether a hit would stand at a place: the one before the place is less, and the one at it is
/// greater.
fn is_between(narrow: &[Hit], at: usize, sought: Hit) -> bool
    requires { IsSorted hit_cmp narrow.now }
    ensures { result ≡ true → (at ≤ length narrow.now) × IsPlaceOf narrow.now sought at }
{
    if at > narrow.len() {
        return false;
    }
    if at > 0 && !is_less(narrow[at - 1], sought) {
        return false;
    }
    at == narrow.len() || is_less(sought, narrow[at])
}

/// Where a hit stands, or would stand: at the place that was found last or the one after it, or
/// else by halves.
fn seek(narrow: &[Hit], sought: Hit, near: &Cell<usize>) -> Result<usize, usize>
    requires { IsSorted hit_cmp narrow.now }
    ensures bound { IsSearchInRange result (length narrow.now) }
    ensures found { IsFound narrow.now sought result }
{
    let last = near.get();
    if is_between(narrow, last, sought) {
        return Err(last);
    }
    if last < narrow.len() && is_between(narrow, last + 1, sought) {
        near.set(last + 1);
        return Err(last + 1);
    }
    match narrow.binary_search(&sought) {
        Ok(at) => {
            near.set(at);
            Ok(at)
        }
        Err(at) => {
            near.set(at);
            Err(at)
        }
    }
}

/// The least index from k on and before another one that is kept with the address.
pub fn next_narrow(
    narrow: &[Hit],
    k: usize,
    end: usize,
    a: u32,
    near: &Cell<usize>,
) -> Option<usize>
    requires { IsSorted hit_cmp narrow.now }
    ensures { IsFirst (λ j. Contains narrow.now (hit a j)) k end result }
{
    match least_narrow(narrow, k, a, near) {
        None => None,
        Some(found) => { if found < end { Some(found) } else { None } }
    }
}

/// The least index from k on that is kept with the address.
fn least_narrow(narrow: &[Hit], k: usize, a: u32, near: &Cell<usize>) -> Option<usize>
    requires { IsSorted hit_cmp narrow.now }
    ensures { IsLeast (λ j. Contains narrow.now (hit a j)) k result }
{
    match seek(
        narrow,
        Hit {
            address: a,
            index: k,
        },
        near,
    ) {
        Ok(_) => Some(k),
        Err(at) => {
            if at < narrow.len() && narrow[at].address == a {
                Some(narrow[at].index)
            } else {
                None
            }
        }
    }
}

/// The number after the greatest index below k that is kept with the address, or 0.
pub fn past_narrow(narrow: &[Hit], k: usize, a: u32, near: &Cell<usize>) -> usize
    requires { IsSorted hit_cmp narrow.now }
    ensures { IsPast (λ j. Contains narrow.now (hit a j)) 0 k result }
{
    if k == 0 {
        return 0;
    }
    match seek(
        narrow,
        Hit {
            address: a,
            index: k - 1,
        },
        near,
    ) {
        Ok(_) => k,
        Err(at) => {
            if 0 < at && narrow[at - 1].address == a {
                narrow[at - 1].index + 1
            } else {
                0
            }
        }
    }
}
