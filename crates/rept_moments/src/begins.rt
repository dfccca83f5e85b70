//! The slices of all threads in the order of their begins.

ghost use Rattle.std.specs.Prelude.{◌≡◌, ◌≤◌, ◌<◌, ◌++◌, ℕ, true, false, length, IfOk, IfSome, IsSome, OnOk, Some, slice_get};
ghost use Rattle.std.specs.List.Sorted.{IsPermutation, IsNonDecreasingBy};
ghost use Rattle.rept_order.specs.Legs.{leg_row};
ghost use Rattle.rept_moments.specs.Begins.{entry, first_of, firsts_at, firsts_to, following_at, former_at, is_alike, is_first_at, later_from, lowered, same_end, AreBegins};
ghost use Rattle.rept_moments.specs.Ordering.{side};
ghost use Rattle.rept_moments.specs.Points.{points_in};
ghost use Rattle.rept_order.specs.Crossing.Writers.{not_past};
ghost use Rattle.rept_moments.specs.declared.begins.SliceStart.{SliceStart};

use crate::nexts::{Later, sooner};
use crate::points::Points;
use crate::side::PointSide;
use std::alloc::{AllocError as OutOfMemory, Global};
use std::marker::Model;

/// The first moment of a slice, its begin, and the least end of this slice and those after it in
/// the list.
#[derive(Clone, Copy)]
pub struct SliceStart {
    /// The begin.
    pub begin: u64,
    /// The first moment that is in it.
    pub side: PointSide,
    /// The least end, where one is known.
    pub least: Option<u64>,
}

/// The slices of all threads, in the order of their begins.
#[derive(Drop)]
pub struct Begins {
    list: Vec<SliceStart>,
}

impl Model for Begins {
    ghost use Rattle.std.specs.Prelude.{List};
    ghost use Rattle.std.specs.List.Sorted.{IsNonDecreasingBy};
    ghost use Rattle.rept_moments.specs.declared.begins.SliceStart.{SliceStart};

    ghost Value = { List SliceStart };

    ghost view = { λ b. b.list.items };

    ghost invariant = { λ b. IsNonDecreasingBy (λ x. x.begin) b.list.items };
}

/// The moment of a row before one of its thread, if there is one.
pub fn former(points: &Points<'_>, side: PointSide) -> Option<PointSide>
    requires { IsSome (leg_row points.now side.point) }
    ensures value { result ≡ former_at points.now side }
    ensures row { IfSome result (λ s. IsSome (leg_row points.now s.point)) }
{
    if side.is_after {
        return Some(PointSide {
            point: side.point,
            is_after: false,
        });
    }
    if side.point == 0 {
        return None;
    }
    if !points.leads(side.point - 1) {
        return None;
    }
    Some(PointSide {
        point: side.point - 1,
        is_after: true,
    })
}

/// The moment of a row after one of its thread, if there is one.
pub fn following(points: &Points<'_>, side: PointSide) -> Option<PointSide>
    requires { IsSome (leg_row points.now side.point) }
    ensures value { result ≡ following_at points.now side }
    ensures row { IfSome result (λ s. IsSome (leg_row points.now s.point)) }
{
    if !side.is_after {
        return Some(PointSide {
            point: side.point,
            is_after: true,
        });
    }
    let next = points.next(side.point);
    if !points.leads(next) {
        return None;
    }
    Some(PointSide {
        point: next,
        is_after: false,
    })
}

/// Whether two ends are the same, or neither is known.
fn same_end(one: Option<u64>, other: Option<u64>) -> bool
    ensures { result ≡ same_end one other }
{
    match one {
        Some(end) => match other {
            Some(time) => end == time,
            None => false,
        },
        None => other.is_none(),
    }
}

/// Whether the slices of two moments begin and end at the same times.
pub fn is_alike(points: &Points<'_>, one: PointSide, other: PointSide) -> bool
    requires one { one.point < points_in points.now }
    requires other { other.point < points_in points.now }
    ensures { result ≡ is_alike points.now one other }
{
    let ends = same_end(points.end(one), points.end(other));
    points.begin(one) == points.begin(other) && ends
}

/// Whether a moment is the first one of a slice.
fn is_first(points: &Points<'_>, side: PointSide) -> bool
    requires { IsSome (leg_row points.now side.point) }
    ensures { result ≡ is_first_at points.now side }
{
    match former(points, side) {
        None => true,
        Some(before) => !is_alike(points, before, side),
    }
}

/// A moment, as the first one of a slice of which no later ones are known.
fn with_times(points: &Points<'_>, side: PointSide) -> SliceStart
    requires { side.point < points_in points.now }
    ensures { result ≡ entry points.now side }
{
    SliceStart {
        begin: points.begin(side),
        side,
        least: points.end(side),
    }
}

/// Adds a moment, if it is the first one of a slice.
fn add(list: &mut Vec<SliceStart>, points: &Points<'_>, side: PointSide) -> Result<(), OutOfMemory>
    requires { IsSome (leg_row points.now side.point) }
    ensures { OnOk result (list.new.items ≡ list.old.items ++ first_of points.now side) }
{
    if is_first(points, side) {
        list.push(with_times(points, side))?;
    }
    Ok(())
}

/// Adds the moments of the row that leads from a point, if one does, that are the first ones of
/// slices.
fn add_row(list: &mut Vec<SliceStart>, points: &Points<'_>, point: u32) -> Result<(), OutOfMemory>
    ensures { OnOk result (list.new.items ≡ list.old.items ++ firsts_at points.now point) }
{
    if points.leads(point) {
        add(
            list,
            points,
            PointSide {
                point,
                is_after: false,
            },
        )?;
        add(
            list,
            points,
            PointSide {
                point,
                is_after: true,
            },
        )?;
    }
    Ok(())
}

/// The first moments of all slices, thread by thread.
fn listed(alloc: Global, points: &Points<'_>) -> Result<Vec<SliceStart>, OutOfMemory>
    ensures { IfOk result (λ v. v.items ≡ firsts_to points.now (points_in points.now)) }
{
    let mut list = Vec::new(alloc);
    for point in 0..points.count() {
        add_row(&mut list, points, point)?;
    }
    Ok(list)
}

/// Puts them into the order of their begins.
fn sort(list: &mut Vec<SliceStart>) -> Result<(), OutOfMemory>
    ensures same { IsPermutation list.old.items list.new.items }
    ensures sorted { OnOk result (IsNonDecreasingBy (λ b. b.begin) list.new.items) }
{
    list.sort_by_key(|begun| begun.begin)?;
    Ok(())
}

/// Sets each least end to that of all from it on.
fn lower(list: &mut Vec<SliceStart>)
    ensures { list.new.items ≡ lowered list.old.items }
{
    let mut least = None;
    let mut place = list.len();
    while place > 0 {
        place -= 1;
        let begun = list[place];
        least = sooner(least, begun.least);
        list[place] = SliceStart {
            begin: begun.begin,
            side: begun.side,
            least,
        };
    }
}

impl Begins {
    /// Those of a run. It takes memory for one entry a slice.
    pub fn new(alloc: Global, points: &Points<'_>) -> Result<Begins, OutOfMemory>
        ensures { IfOk result (λ b. AreBegins points.now b) }
    {
        let mut list = listed(alloc, points)?;
        sort(&mut list)?;
        lower(&mut list);
        Ok(Begins { list })
    }

    /// How many begin at this time or before.
    fn begun_by(&self, time: u64) -> usize
        ensures few { result ≤ length self.now }
        ensures before { (k : ℕ) (b : SliceStart) → k < result → slice_get self.now k ≡ Some b → b.begin ≤ time }
        ensures after { (k : ℕ) (b : SliceStart) → result ≤ k → slice_get self.now k ≡ Some b → time < b.begin }
    {
        let list = self.list.as_slice();
        list.partition_point(|begun| begun.begin <= time)
    }

    /// The place of the first slice that begins after an end; where that isn't known none does.
    pub fn after(&self, end: Option<u64>) -> usize
        ensures few { result ≤ length self.now }
        ensures before { (k : ℕ) (b : SliceStart) → k < result → slice_get self.now k ≡ Some b → not_past end b.begin ≡ true }
        ensures after { (k : ℕ) (b : SliceStart) → result ≤ k → slice_get self.now k ≡ Some b → not_past end b.begin ≡ false }
    {
        match end {
            Some(end) => self.begun_by(end),
            None => self.list.len(),
        }
    }

    /// The least end of the slices from a place on, if there are any.
    pub fn from(&self, place: usize) -> Later
        ensures { result ≡ later_from (slice_get self.now place) }
    {
        match self.list.get(place) {
            Some(begun) => Later {
                some: true,
                last: begun.least,
            },
            None => Later {
                some: false,
                last: None,
            },
        }
    }

    /// The first moment of the slice at a place.
    pub fn first(&self, place: usize) -> PointSide
        requires { place < length self.now }
        ensures { (b : SliceStart) → slice_get self.now place ≡ Some b → result ≡ b.side }
    {
        self.list[place].side
    }
}
