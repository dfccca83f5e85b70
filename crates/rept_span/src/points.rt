//! Some of the points of a path.

ghost use Rattle.std.specs.Prelude.{◌≡◌, ◌≢◌, ◌<◌, ◌≤◌, ◌^◌, ◌+◌, ℕ, length, IfOk, IfSome, true};
ghost use Rattle.rept_span.specs.Points.{HasPoint, HasAllPoints, HasNoneIn, IsNextPoint, IsNextPointBelow, KeepsPoints};

use std::alloc::{AllocError as OutOfMemory, Global};
use std::marker::Model;

/// No point from one up to before another one is marked.
fn unmark(marks: &mut [bool], from: usize, to: usize)
    requires { to ≤ length marks.old }
    ensures length { length marks.new ≡ length marks.old }
    ensures fewer { KeepsPoints marks.new marks.old }
    ensures none { HasNoneIn marks.new from to }
{
    for k in from..to {
        marks[k] = false;
    }
}

/// All points are marked.
fn mark_all(marks: &mut [bool])
    ensures length { length marks.new ≡ length marks.old }
    ensures all { HasAllPoints marks.new }
{
    for k in 0..marks.len() {
        marks[k] = true;
    }
}

/// The first marked point from one on up to before another one, if there is one.
fn next_marked(marks: &[bool], from: usize, end: usize) -> Option<usize>
    requires { end ≤ length marks.now }
    ensures { IsNextPointBelow marks.now from end result }
{
    for k in from..end {
        if marks[k] {
            return Some(k);
        }
    }
    None
}

/// Some of the points of a path, by a mark for each point.
#[derive(Drop)]
pub struct PointSet {
    marks: Vec<bool>,
    /// no point before this one is marked
    first: usize,
    /// nor is this one or a later one
    end: usize,
}

impl Model for PointSet {
    ghost use Rattle.std.specs.Prelude.{◌≤◌, ◌<◌, ◌^◌, length, List, Bool};
    ghost use Rattle.rept_span.specs.Points.{AreWithin};

    ghost Value = { List Bool };

    ghost view = { λ s. s.marks.items };

    ghost invariant = { λ s. record { within : AreWithin s.marks.items s.first s.end; inside : s.end ≤ length s.marks.items; few : length s.marks.items < 2 ^ 32 } };
}

impl PointSet {
    /// None of so many points. `OutOfMemory` says that the room for a mark of each can't be had.
    pub fn new(alloc: Global, points: u32) -> Result<PointSet, OutOfMemory>
        ensures count { IfOk result (λ s. length s ≡ points) }
    {
        let mut marks = vec![in alloc; false; points as usize]?;
        unmark(&mut marks, 0, points as usize);
        Ok(PointSet {
            marks,
            first: 0,
            end: 0,
        })
    }

    /// Takes all points out.
    pub fn clear(&mut self)
        ensures count { length self.new ≡ length self.old }
        ensures none { (p : ℕ) → HasPoint self.new p → ⊥ }
    {
        unmark(&mut self.marks, self.first, self.end);
        self.first = 0;
        self.end = 0;
    }

    /// Puts all points in.
    pub fn add_all(&mut self)
        ensures count { length self.new ≡ length self.old }
        ensures all { HasAllPoints self.new }
    {
        mark_all(&mut self.marks);
        self.first = 0;
        self.end = self.marks.len();
    }

    /// Puts a point in.
    pub fn add(&mut self, point: u32)
        requires { point < length self.old }
        ensures count { length self.new ≡ length self.old }
        ensures here { HasPoint self.new point }
        ensures kept { KeepsPoints self.old self.new }
    {
        let k = point as usize;
        self.first = if self.end == 0 { k } else { self.first.min(k) };
        self.end = self.end.max(k + 1);
        self.marks[k] = true;
    }

    /// The first point of the set from one on, if there is one.
    pub fn next(&self, from: u32) -> Option<u32>
        ensures next { IsNextPoint self.now from result }
        ensures few { IfSome result (λ p. p + 1 < 2 ^ 32) }
    {
        let from = self.first.max(from as usize);
        match next_marked(&self.marks, from, self.end) {
            None => None,
            Some(k) => Some(k as u32),
        }
    }
}
