//! Numbers for moments of rows, in the order in which they are added.

ghost use Rattle.std.specs.Prelude.{◌≡◌, ◌∷◌, [], None, Some, ◌<◌, ◌^◌, length, set, IfOk, IfSome, OnOk};
ghost use Rattle.rept_moments.specs.Points.{by_point};
ghost use Rattle.rept_moments.specs.Numbering.{find, at_place, Numbered};

use crate::side::PointSide;
use std::alloc::{AllocError as OutOfMemory, Global};
use std::marker::Model;

/// Numbers for moments of rows, from 0 on. Contracts see the moments that have one, the last one
/// first, and how many points there are.
#[derive(Drop)]
pub struct Numbers {
    /// by points
    before: Vec<Option<u32>>,
    after: Vec<Option<u32>>,
    /// by numbers
    list: Vec<PointSide>,
}

impl Model for Numbers {
    ghost use Rattle.std.specs.Prelude.{length, reverse};
    ghost use Rattle.rept_moments.specs.Numbering.{Numbered, AreNumbered};

    ghost Value = { Numbered };

    ghost view = { λ n. record { points = length n.before.items; list = reverse n.list.items } };

    ghost invariant = { λ n. AreNumbered n.before.items n.after.items (reverse n.list.items) };
}

/// No numbers, for so many points.
fn blank(alloc: Global, points: u32) -> Result<Vec<Option<u32>>, OutOfMemory>
    ensures { IfOk result (λ v. v.items ≡ by_point (λ g. None) points) }
{
    let mut list = Vec::new(alloc);
    for _point in 0..points {
        list.push(None)?;
    }
    Ok(list)
}

/// Sets the number of a point.
fn put(table: &mut Vec<Option<u32>>, point: u32, number: u32)
    requires { point < length table.old.items }
    ensures { table.new.items ≡ set table.old.items point (Some number) }
{
    table[point as usize] = Some(number);
}

impl Numbers {
    /// No numbers yet, for moments of so many points. It takes memory for two entries a point.
    pub fn new(alloc: Global, points: u32) -> Result<Numbers, OutOfMemory>
        ensures { IfOk result (λ n. n ≡ record { points = points; list = [] }) }
    {
        Ok(Numbers {
            before: blank(alloc, points)?,
            after: blank(alloc, points)?,
            list: Vec::new(alloc),
        })
    }

    /// How many moments have one.
    pub fn len(&self) -> u32
        requires { length self.now.list < 2 ^ 32 }
        ensures { result ≡ length self.now.list }
    {
        self.list.as_slice().len() as u32
    }

    /// The number of the moment, if it has one.
    pub fn find(&self, side: PointSide) -> Option<u32>
        requires { side.point < self.now.points }
        ensures { result ≡ find self.now.list side }
    {
        if side.is_after {
            self.after.as_slice()[side.point as usize]
        } else {
            self.before.as_slice()[side.point as usize]
        }
    }

    /// The moment of the number, if there is one.
    pub fn at(&self, number: u32) -> Option<PointSide>
        ensures is { result ≡ at_place self.now.list number }
        ensures inside { IfSome result (λ s. s.point < self.now.points) }
    {
        match self.list.get(number as usize) {
            Some(side) => Some(*side),
            None => None,
        }
    }

    /// Gives the moment the next number.
    pub fn add(&mut self, side: PointSide) -> Result<(), OutOfMemory>
        requires inside { side.point < self.old.points }
        requires few { length self.old.list < 2 ^ 32 }
        ensures { OnOk result (self.new ≡ record { points = self.old.points; list = side ∷ self.old.list }) }
    {
        let number = self.list.as_slice().len() as u32;
        self.list.push(side)?;
        if side.is_after {
            put(&mut self.after, side.point, number);
        } else {
            put(&mut self.before, side.point, number);
        }
        Ok(())
    }
}
