//! The rows of one kind, calls or the others, and when they may act.

ghost use Rattle.std.specs.Prelude.{◌≡◌, ◌↔◌, ℕ, ◌+◌, ◌-◌, ◌<◌, ◌≤◌, [], ◌∷◌, ◌++◌, IfOk, Some, true, get_or, length, max, slice_get};
ghost use Rattle.std.specs.List.{Contains};
ghost use Rattle.std.specs.Vec.{vec_capacity};
ghost use Rattle.rept_alias.specs.Accesses.{call_hits};
ghost use Rattle.rept_writing.specs.Hits.{IsMeeting};
ghost use Rattle.rept_writing.specs.Bounded.{AreOfKindWithin};
ghost use Rattle.rept_writing.specs.Filed.{IsFirst};
ghost use Rattle.rept_writing.specs.Acting.{AreColumns, AreLeastOnward, AreTaken, IsAround, IsUntil, IsSince, room_of};

use crate::bounds::{StoreBounds, bounds_of_all};
use crate::cuts::{below_near, up_to_near};
use crate::list::Writing;
use std::alloc::{AllocError as OutOfMemory, Global};
use std::cell::Cell;

/// The indices of the rows of one kind, with what tells fast which of them may act between two
/// numbers.
#[derive(Drop)]
pub struct Columns {
    /// whether they are calls
    is_call: bool,
    /// their indices
    places: Vec<usize>,
    /// the least `from` of each one and those after it
    firsts: Vec<u32>,
    /// the greatest `to` of each one and those before it
    lasts: Vec<u32>,
    /// where the searches of `lasts`, of `firsts` and of `places` ended last. It only saves work:
    /// no clause rests on it.
    near_last: Cell<usize>,
    near_first: Cell<usize>,
    near_place: Cell<usize>,
}

impl Columns {
    /// No row, with room for so many.
    pub fn new(alloc: Global, is_call: bool, rows: usize) -> Result<Columns, OutOfMemory>
        ensures kind { IfOk result (λ c. c.is_call ≡ is_call) }
        ensures room { IfOk result (λ c. rows ≤ room_of c) }
    {
        let places = Vec::with_capacity(alloc, rows)?;
        let firsts = Vec::with_capacity(alloc, rows)?;
        let lasts = Vec::with_capacity(alloc, rows)?;
        Ok(Columns {
            is_call,
            places,
            firsts,
            lasts,
            near_last: Cell::new(0),
            near_first: Cell::new(0),
            near_place: Cell::new(0),
        })
    }

    /// Finds the rows of the kind in a list.
    pub fn fill(&mut self, list: &[Writing])
        requires { length list.now ≤ room_of self.old }
        ensures columns { AreColumns list.now self.new }
        ensures kind { self.new.is_call ≡ self.old.is_call }
        ensures room { room_of self.new ≡ room_of self.old }
    {
        self.places.clear();
        self.firsts.clear();
        self.lasts.clear();
        self.take_all(list);
        settle(&mut self.firsts);
    }

    /// Takes each row of the kind, where none is there yet. What is kept as `firsts` is the `from`
    /// of each.
    fn take_all(&mut self, list: &[Writing])
        requires places { self.old.places.items ≡ [] }
        requires firsts { self.old.firsts.items ≡ [] }
        requires lasts { self.old.lasts.items ≡ [] }
        requires room { length list.now ≤ room_of self.old }
        ensures taken { AreTaken list.now (length list.now) self.new }
        ensures kind { self.new.is_call ≡ self.old.is_call }
        ensures room { room_of self.new ≡ room_of self.old }
    {
        for k in 0..list.len() {
            self.take(list, k);
        }
    }

    /// Takes the row at an index, if it is of the kind.
    fn take(&mut self, list: &[Writing], k: usize)
        requires inside { k < length list.now }
        requires room { length list.now ≤ room_of self.old }
        requires taken { AreTaken list.now k self.old }
        ensures taken { AreTaken list.now (k + 1) self.new }
        ensures kind { self.new.is_call ≡ self.old.is_call }
        ensures room { room_of self.new ≡ room_of self.old }
    {
        let row = list[k];
        if row.is_call == self.is_call {
            self.push(k, row.from, row.to);
        }
    }

    /// Adds a row at the end.
    fn push(&mut self, k: usize, from: u32, to: u32)
        requires places { length self.old.places.items < room_of self.old }
        requires firsts { length self.old.firsts.items < room_of self.old }
        requires lasts { length self.old.lasts.items < room_of self.old }
        ensures places { self.new.places.items ≡ self.old.places.items ++ k ∷ [] }
        ensures firsts { self.new.firsts.items ≡ self.old.firsts.items ++ from ∷ [] }
        ensures lasts { self.new.lasts.items ≡ self.old.lasts.items ++ max to (get_or self.old.lasts.items (length self.old.lasts.items - 1) 0) ∷ [] }
        ensures kind { self.new.is_call ≡ self.old.is_call }
        ensures room { room_of self.new ≡ room_of self.old }
    {
        let last = last_of(self.lasts.as_slice());
        self.places.push_reserved(k);
        self.firsts.push_reserved(from);
        self.lasts.push_reserved(to.max(last));
    }

    /// Between which indices the rows of the kind stand that may act between two numbers.
    pub fn around(&self, list: &[Writing], m: u32, w: u32) -> (usize, usize)
        requires { AreColumns list.now self.now }
        ensures { IsAround list.now self.now.is_call (record { from = m; to = w; address = 0 }) result.0 result.1 }
    {
        let low = up_to_near(self.lasts.as_slice(), m, &self.near_last);
        let high = up_to_near(self.firsts.as_slice(), w, &self.near_first);
        let places = self.places.as_slice();
        (
            index_at(places, low, list.len()),
            index_at(places, high, list.len()),
        )
    }

    /// The first row of the kind from an index on that may write the address and may act between
    /// two numbers.
    pub fn next_meeting(&self, list: &[Writing], k: usize, m: u32, w: u32, a: u32) -> Option<usize>
        requires { AreColumns list.now self.now }
        ensures { IsFirst (λ j. Contains self.now.places.items j × IsMeeting list.now (record { from = m; to = w; address = a }) j) k (length list.now) result }
    {
        let late = up_to_near(self.lasts.as_slice(), m, &self.near_last);
        let end = up_to_near(self.firsts.as_slice(), w, &self.near_first);
        if late >= end {
            return None;
        }
        let start = below_near(self.places.as_slice(), k, &self.near_place);
        for p in late.max(start)..end {
            let j = self.places[p];
            if meets(&list[j], m, w, a) {
                return Some(j);
            }
        }
        None
    }

    /// The bounds of what the rows of the kind may write.
    pub fn bounds(&self, list: &[Writing]) -> StoreBounds
        requires { AreColumns list.now self.now }
        ensures { AreOfKindWithin list.now self.now.is_call result }
    {
        bounds_of_all(list, self.places.as_slice())
    }

    /// A number that is no less than those after which the rows of the kind before an index may
    /// act.
    pub fn last_before(&self, list: &[Writing], k: usize) -> u32
        requires { AreColumns list.now self.now }
        ensures { IsSince list.now self.now.is_call (λ j w. j < k) result }
    {
        let p = below_near(self.places.as_slice(), k, &self.near_place);
        if p == 0 { 0 } else { self.lasts[p - 1] }
    }

    /// A number that is no greater than those to which the rows of the kind from an index on may
    /// act.
    pub fn first_from(&self, list: &[Writing], k: usize) -> u32
        requires { AreColumns list.now self.now }
        ensures { IsUntil list.now self.now.is_call (λ j w. k ≤ j) result }
    {
        let p = below_near(self.places.as_slice(), k, &self.near_place);
        if p < self.firsts.len() {
            self.firsts[p]
        } else {
            u32::MAX
        }
    }

    /// A number that is no less than a given one and than those after which the rows of the kind
    /// before an index may act that may write the address.
    pub fn since(&self, list: &[Writing], k: usize, a: u32, least: u32) -> u32
        requires { AreColumns list.now self.now }
        ensures least { least ≤ result }
        ensures since { IsSince list.now self.now.is_call (λ j w. (j < k) × (call_hits w.access a ≡ true)) result }
    {
        let mut found = least;
        let end = below_near(self.places.as_slice(), k, &self.near_place);
        for p in (0..end).rev() {
            if self.lasts[p] <= found {
                return found;
            }
            found = later(found, &list[self.places[p]], a);
        }
        found
    }

    /// A number that is no greater than a given one and than those to which the rows of the kind
    /// from an index on may act that may write the address.
    pub fn until(&self, list: &[Writing], k: usize, a: u32, most: u32) -> u32
        requires { AreColumns list.now self.now }
        ensures most { result ≤ most }
        ensures until { IsUntil list.now self.now.is_call (λ j w. (k ≤ j) × (call_hits w.access a ≡ true)) result }
    {
        let mut found = most;
        let start = below_near(self.places.as_slice(), k, &self.near_place);
        for p in start..self.places.len() {
            if found <= self.firsts[p] {
                return found;
            }
            found = earlier(found, &list[self.places[p]], a);
        }
        found
    }
}

/// Makes each number the least of it and those after it.
fn settle(numbers: &mut Vec<u32>)
    ensures least { AreLeastOnward numbers.old.items numbers.new.items }
    ensures capacity { vec_capacity numbers.new ≡ vec_capacity numbers.old }
{
    let mut least = u32::MAX;
    for p in (0..numbers.len()).rev() {
        least = numbers[p].min(least);
        numbers[p] = least;
    }
}

/// The last number, or 0.
fn last_of(numbers: &[u32]) -> u32
    ensures { result ≡ get_or numbers.now (length numbers.now - 1) 0 }
{
    if numbers.len() == 0 {
        0
    } else {
        numbers[numbers.len() - 1]
    }
}

/// The index at a place, or another one where there is none.
fn index_at(places: &[usize], p: usize, end: usize) -> usize
    ensures { result ≡ get_or places.now p end }
{
    if p < places.len() { places[p] } else { end }
}

/// Whether a row may write the address and may act between two numbers.
pub fn meets(row: &Writing, m: u32, w: u32, a: u32) -> bool
    ensures { (result ≡ true) ↔ ((call_hits row.now.access a ≡ true) × (m < row.now.to) × (row.now.from ≤ w)) }
{
    m < row.to && row.from <= w && row.access.may_hit(a)
}

/// The greater one of a number and that after which a row may act, if it may write the address.
pub fn later(found: u32, row: &Writing, a: u32) -> u32
    ensures found { found ≤ result }
    ensures to { call_hits row.now.access a ≡ true → row.now.to ≤ result }
{
    if row.access.may_hit(a) {
        found.max(row.to)
    } else {
        found
    }
}

/// The lesser one of a number and that to which a row may act, if it may write the address.
pub fn earlier(found: u32, row: &Writing, a: u32) -> u32
    ensures found { result ≤ found }
    ensures from { call_hits row.now.access a ≡ true → result ≤ row.now.from }
{
    if row.access.may_hit(a) {
        found.min(row.from)
    } else {
        found
    }
}
