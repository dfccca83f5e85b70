//! The list of rows that may write, with what finds them by address.

ghost use Rattle.std.specs.Prelude.{◌≡◌, ℕ, ◌+◌, ◌<◌, ◌≤◌, [], ◌∷◌, ◌++◌, IfOk, Some, true, false, length, set, slice_get};
ghost use Rattle.std.specs.Vec.{vec_len, vec_capacity};
ghost use Rattle.rept_writing.specs.Hits.{IsMeeting, IsNextHitBelow, IsNextMeeting, IsPastHitFrom, IsSplitAt, IsFreeSince, IsFreeUntil, AreInOrder, hits_at};
ghost use Rattle.rept_writing.specs.Acting.{MayActAs};
ghost use Rattle.rept_writing.specs.Filed.{IsFiled, IsFirst, sooner};

use crate::bounds::{StoreBounds, blocks_of, bound_all, bounds_of_all, widen, with_call, with_row};
use crate::columns::{Columns, meets};
use crate::cuts::before_near;
use crate::narrow::{Hit, file, next_narrow, past_narrow};
use crate::wide::{next_wide, past_wide, place_of, scan, scan_back, scan_since, scan_until};
use rept_alias::CallAccess;
use std::alloc::{AllocError as OutOfMemory, Global};
use std::cell::Cell;
use std::marker::Model;

/// How many rows are replaced at least before it is worth the time to find them by address again.
const WORN: usize = 64;

/// And one in so many rows.
const SHARE: usize = 8;

/// Over so many rows at most one is looked for that may write an address, to tell since or until
/// when none may act.
const NEAR: usize = 4096;

/// A row that may write, where it stands in time, and the bytes that it may write.
#[derive(Clone, Copy, PartialEq, Eq, Debug)]
pub struct Writing {
    /// the row's number
    pub row: u32,
    /// the number of the moment before it
    pub at: u32,
    /// the least number to which it may act before it
    pub from: u32,
    /// the number after the greatest one after which it may act
    pub to: u32,
    /// whether it may go on for long, as a call of the system may. It only saves work: no clause
    /// rests on it.
    pub is_call: bool,
    /// the bytes
    pub access: CallAccess,
}

/// Rows that may write, in the order in which they were added, with room for so many as were asked
/// for. The next row that may write an address, and the last one before a moment, are found fast
/// once `index` was called, and by a search through the list before.
#[derive(Drop)]
pub struct StoreIndex {
    list: Vec<Writing>,
    /// each address of the rows that may write few
    narrow: Vec<Hit>,
    /// the indices of the others
    wide: Vec<usize>,
    /// the bounds of what these may write, for each block of them
    blocks: Vec<StoreBounds>,
    /// the bounds of what all of them may write
    wide_bounds: StoreBounds,
    /// the bounds of what the calls may write
    call_bounds: StoreBounds,
    /// the calls, and when they may act
    calls: Columns,
    /// the same of the others
    others: Columns,
    /// whether `narrow` is in order, and the bounds, `calls` and `others` are those of the list
    is_indexed: bool,
    /// how many of the others were replaced since then
    replaced: usize,
    /// where an address was found last in `narrow`, for each of the four bytes of a word. It only
    /// saves work: no clause rests on it.
    near: [Cell<usize>; 4],
    /// where numbers were found last in the list, to save work too
    near_number: [Cell<usize>; 4],
}

impl Model for StoreIndex {
    ghost use Rattle.std.specs.Prelude.{◌≡◌, ◌<◌, ◌≤◌, true, false, length};
    ghost use Rattle.std.specs.Vec.{vec_capacity};
    ghost use Rattle.std.specs.List.Sorted.{IsSorted};
    ghost use Rattle.rept_writing.specs.Hits.{Listed};
    ghost use Rattle.rept_writing.specs.Bounded.{AreBounded, AreInBounds, AreOfKindWithin};
    ghost use Rattle.rept_writing.specs.Filed.{IsFiled, hit_cmp};
    ghost use Rattle.rept_writing.specs.Acting.{AreColumns, room_of};

    ghost Value = { Listed };

    ghost view = { λ w. record { list = w.list.items; room = vec_capacity w.list } };

    ghost invariant = { λ w. record { filed : IsFiled w.list.items w.narrow.items w.wide.items; sorted : w.is_indexed ≡ true → IsSorted hit_cmp w.narrow.items; room : vec_capacity w.list ≤ vec_capacity w.wide; calls : w.is_indexed ≡ true → AreColumns w.list.items w.calls; others : w.is_indexed ≡ true → AreColumns w.list.items w.others; bounded : w.is_indexed ≡ true → AreBounded w.list.items w.wide.items w.blocks.items; wide_within : w.is_indexed ≡ true → AreInBounds w.list.items w.wide.items (λ m. m < length w.wide.items) w.wide_bounds; calls_within : w.is_indexed ≡ true → AreOfKindWithin w.list.items true w.call_bounds; are_calls : w.calls.is_call ≡ true; are_others : w.others.is_call ≡ false; calls_room : vec_capacity w.list ≤ room_of w.calls; others_room : vec_capacity w.list ≤ room_of w.others } };
}

impl StoreIndex {
    /// No row, with room for so many rows, and for so many bytes of rows that may write few.
    pub fn new(alloc: Global, rows: usize, bytes: usize) -> Result<StoreIndex, OutOfMemory>
        ensures none { IfOk result (λ w. w.list ≡ []) }
        ensures room { IfOk result (λ w. rows ≤ w.room) }
    {
        let list = Vec::with_capacity(alloc, rows)?;
        let narrow = Vec::with_capacity(alloc, bytes)?;
        let wide = Vec::with_capacity(alloc, rows)?;
        let blocks = Vec::with_capacity(alloc, blocks_of(rows))?;
        let room = list.capacity();
        let calls = Columns::new(alloc, true, room)?;
        let others = Columns::new(alloc, false, room)?;
        Ok(StoreIndex {
            list,
            narrow,
            wide,
            blocks,
            wide_bounds: StoreBounds::none(),
            call_bounds: StoreBounds::none(),
            calls,
            others,
            is_indexed: false,
            replaced: 0,
            near: [Cell::new(0), Cell::new(0), Cell::new(0), Cell::new(0)],
            near_number: [Cell::new(0), Cell::new(0), Cell::new(0), Cell::new(0)],
        })
    }

    /// Takes all rows out.
    pub fn clear(&mut self)
        ensures none { self.new.list ≡ [] }
        ensures room { self.new.room ≡ self.old.room }
    {
        self.list.clear();
        self.narrow.clear();
        self.wide.clear();
        self.is_indexed = false;
    }

    /// Adds a row.
    pub fn add(&mut self, writing: Writing)
        requires { length self.old.list < self.old.room }
        ensures list { self.new.list ≡ self.old.list ++ writing ∷ [] }
        ensures room { self.new.room ≡ self.old.room }
    {
        let index = self.list.len();
        let access = writing.access;
        file(&mut self.narrow, &mut self.wide, index, &access);
        self.list.push_reserved(writing);
        self.is_indexed = false;
    }

    /// How many rows there are.
    pub fn len(&self) -> usize
        ensures { result ≡ length self.now.list }
    {
        self.list.len()
    }

    /// The row at an index.
    pub fn at(&self, k: usize) -> Writing
        requires { k < length self.now.list }
        ensures { slice_get self.now.list k ≡ Some result }
    {
        let list = self.list.as_slice();
        list[k]
    }

    /// Puts a row in the place of the one at an index, if that one may write many addresses and
    /// this one may act between the same numbers and is a call where that one is, and answers
    /// whether it is so. Of a row of few each address is kept by itself, so that it stays.
    pub fn replace(&mut self, k: usize, writing: Writing) -> bool
        requires { k < length self.old.list }
        ensures replaced { result ≡ true → self.new.list ≡ set self.old.list k writing }
        ensures same { result ≡ false → self.new ≡ self.old }
        ensures room { self.new.room ≡ self.old.room }
    {
        let Some(place) = place_of(self.wide.as_slice(), k) else {
            return false;
        };
        if !may_act_as(&self.list[k], &writing) {
            return false;
        }
        let access = writing.access;
        widen(&mut self.blocks, place, &access);
        self.wide_bounds = with_row(self.wide_bounds, &access);
        self.call_bounds = with_call(self.call_bounds, &writing);
        self.list[k] = writing;
        self.replaced = self.replaced.wrapping_add(1);
        true
    }

    /// Whether so many rows were replaced since `index` that a search may go past many that don't
    /// write the address, and it is worth the time to call `index` again.
    pub fn is_worn(&self) -> bool {
        self.replaced >= WORN && self.replaced >= self.list.len() / SHARE
    }

    /// Makes the rows found fast by address, up to the next row that is added. The list stays as it
    /// is; no memory is taken.
    pub fn index(&mut self)
        ensures { self.new ≡ self.old }
    {
        self.narrow.clear();
        self.wide.clear();
        file_all(self.list.as_slice(), &mut self.narrow, &mut self.wide);
        self.blocks.clear();
        bound_all(self.list.as_slice(), self.wide.as_slice(), &mut self.blocks);
        self.wide_bounds = bounds_of_all(self.list.as_slice(), self.wide.as_slice());
        self.narrow.sort_unstable();
        self.calls.fill(self.list.as_slice());
        self.call_bounds = self.calls.bounds(self.list.as_slice());
        self.others.fill(self.list.as_slice());
        self.is_indexed = true;
        self.replaced = 0;
    }

    /// The index of the first row from index k to before another one that may write the address.
    /// None is said exactly where there is none.
    pub fn next_hit(&self, k: usize, end: usize, a: u32) -> Option<usize>
        ensures { IsNextHitBelow self.now.list k end a result }
    {
        let list = self.list.as_slice();
        if self.is_indexed {
            let narrow = next_narrow(
                self.narrow.as_slice(),
                k,
                end,
                a,
                &self.near[a as usize % 4],
            );
            if !self.wide_bounds.has(a) {
                return narrow;
            }
            let wide = next_wide(
                list,
                self.wide.as_slice(),
                self.blocks.as_slice(),
                k,
                narrow.unwrap_or(end),
                a,
            );
            sooner(narrow, wide)
        } else {
            scan(list, k, end, a)
        }
    }

    /// The index of the first row from index k on that may write the address and may act between
    /// two numbers.
    pub fn next_meeting(&self, k: usize, m: u32, w: u32, a: u32) -> Option<usize>
        ensures { IsNextMeeting self.now.list k (record { from = m; to = w; address = a }) result }
    {
        let list = self.list.as_slice();
        if self.is_indexed {
            let (low, high) = self.others.around(list, m, w);
            let other = self.meeting_below(k.max(low), high, m, w, a);
            if !self.call_bounds.has(a) {
                return other;
            }
            let call = self.calls.next_meeting(list, k, m, w, a);
            sooner(other, call)
        } else {
            self.meeting_below(k, list.len(), m, w, a)
        }
    }

    /// The first such row before an index.
    fn meeting_below(&self, k: usize, end: usize, m: u32, w: u32, a: u32) -> Option<usize>
        ensures { IsFirst (λ j. IsMeeting self.now.list (record { from = m; to = w; address = a }) j) k end result }
    {
        let mut from = k;
        while from < end {
            match self.next_hit(from, end, a) {
                None => return None,
                Some(j) => {
                    if meets(&self.list[j], m, w, a) {
                        return Some(j);
                    }
                    from = j + 1;
                }
            }
        }
        None
    }

    /// A number at which and after which no row that stands at a lower number and may write the
    /// address may act. Not each row is looked at, so it may be greater than it needs to be.
    pub fn free_since(&self, number: u32, a: u32) -> u32
        ensures { AreInOrder self.now.list → IsFreeSince self.now.list number a result }
    {
        if !self.is_indexed {
            return scan_since(self.list.as_slice(), a);
        }
        let k = self.before(number);
        let past = self.past_hit(k.saturating_sub(NEAR), number, a);
        let list = self.list.as_slice();
        let since = self.others.last_before(list, past);
        if !self.call_bounds.has(a) {
            return since;
        }
        self.calls.since(list, k, a, since)
    }

    /// A number before which no row that stands at this one or a higher one and may write the
    /// address may act. Not each row is looked at, so it may be less than it needs to be.
    pub fn free_until(&self, number: u32, a: u32) -> u32
        ensures { AreInOrder self.now.list → IsFreeUntil self.now.list number a result }
    {
        if !self.is_indexed {
            return scan_until(self.list.as_slice(), a);
        }
        let k = self.before(number);
        let next = self.hit_near(k, a);
        let list = self.list.as_slice();
        let until = self.others.first_from(list, next);
        if !self.call_bounds.has(a) {
            return until;
        }
        self.calls.until(list, k, a, until)
    }

    /// The first row from an index on that may write the address, or an index before which there is
    /// none from that index on.
    fn hit_near(&self, k: usize, a: u32) -> usize
        ensures { (j : ℕ) → k ≤ j → hits_at self.now.list j a ≡ true → result ≤ j }
    {
        let end = k.saturating_add(NEAR);
        match self.next_hit(k, end, a) {
            None => end,
            Some(j) => j,
        }
    }

    /// How many rows stand at lower numbers. The rows must stand in the order of these; where they
    /// don't, it is some index, up to the number of rows.
    pub fn before(&self, number: u32) -> usize
        ensures bound { result ≤ length self.now.list }
        ensures split { AreInOrder self.now.list → IsSplitAt self.now.list number result }
    {
        before_near(
            self.list.as_slice(),
            number,
            &self.near_number[number as usize % 4],
        )
    }

    /// The index after the last row from an index on at a lower number that may write the address,
    /// or that index where there is none. The rows must stand in the order of these numbers; where
    /// they don't, it is some index, up to the number of rows.
    pub fn past_hit(&self, low: usize, number: u32, a: u32) -> usize
        requires { low ≤ length self.now.list }
        ensures bound { result ≤ length self.now.list }
        ensures past { AreInOrder self.now.list → IsPastHitFrom self.now.list low number a result }
    {
        let list = self.list.as_slice();
        let k = self.before(number);
        if self.is_indexed {
            let narrow = past_narrow(self.narrow.as_slice(), k, a, &self.near[a as usize % 4]);
            if !self.wide_bounds.has(a) {
                return narrow.max(low);
            }
            let wide = past_wide(
                list,
                self.wide.as_slice(),
                self.blocks.as_slice(),
                low,
                k,
                a,
            );
            narrow.max(low).max(wide)
        } else {
            scan_back(list, low, k, a)
        }
    }
}

/// Whether a row may act between the same numbers as another one, and is a call where that one is.
fn may_act_as(old: &Writing, new: &Writing) -> bool
    ensures { result ≡ true → MayActAs old.now new.now }
{
    old.from == new.from && old.to == new.to && old.is_call == new.is_call
}

/// Keeps the addresses of all rows, or their indices, where nothing is kept yet.
fn file_all(list: &[Writing], narrow: &mut Vec<Hit>, wide: &mut Vec<usize>)
    requires none { narrow.old.items ≡ [] }
    requires clear { wide.old.items ≡ [] }
    requires room { length list.now ≤ vec_capacity wide.old }
    ensures filed { IsFiled list.now narrow.new.items wide.new.items }
    ensures capacity { vec_capacity wide.new ≡ vec_capacity wide.old }
{
    for k in 0..list.len() {
        let access = list[k].access;
        file(narrow, wide, k, &access);
    }
}

/// The lesser of two indices, where there are two.
fn sooner(first: Option<usize>, second: Option<usize>) -> Option<usize>
    ensures { result ≡ sooner first second }
{
    match (first, second) {
        (None, _) => second,
        (Some(_), None) => first,
        (Some(p), Some(q)) => Some(p.min(q)),
    }
}
