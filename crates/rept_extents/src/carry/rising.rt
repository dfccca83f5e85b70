//! Numbers that rise.

ghost use Rattle.std.specs.Prelude.{◌≡◌, ◌+◌, [], true, OnOk};
ghost use Rattle.std.specs.List.{Contains};
ghost use Rattle.std.specs.List.Sorted.{IsNonDecreasing};
ghost use Rattle.rept_report.specs.Timeline.{IsLeastFrom, IsGreatestTo};
ghost use Rattle.rept_extents.specs.Carry.Rising.{IsSplit, AddsOne};

use smallvec::SmallVec;
use std::alloc::{AllocError as OutOfMemory, Global};
use std::marker::Model;

/// Numbers that rise. Contracts see a list.
#[derive(Drop)]
pub struct Rising {
    list: SmallVec<u32, 2>,
}

impl Model for Rising {
    ghost use Rattle.std.specs.Prelude.{List, ℕ};
    ghost use Rattle.std.specs.List.Sorted.{IsNonDecreasing};

    ghost Value = { List ℕ };

    ghost view = { λ r. r.list.items };

    ghost invariant = { λ r. IsNonDecreasing r.list.items };
}

/// How many of them are below one.
fn below(list: &[u32], number: u32) -> usize
    requires { IsNonDecreasing list.now }
    ensures { IsSplit list.now number result }
{
    list.partition_point(|known| *known < number)
}

/// How many of them are no greater than one.
fn up_to(list: &[u32], number: u32) -> usize
    requires { IsNonDecreasing list.now }
    ensures { IsSplit list.now (number + 1) result }
{
    list.partition_point(|known| *known <= number)
}

/// Whether a number stands at a place.
fn is_at(list: &[u32], place: usize, number: u32) -> bool
    ensures { result ≡ true → Contains list.now number }
{
    match list.get(place) {
        Some(known) => *known == number,
        None => false,
    }
}

/// Adds a number in its place, if it isn't there.
fn insert(list: &mut SmallVec<u32, 2>, number: u32) -> Result<(), OutOfMemory>
    requires { IsNonDecreasing list.old.items }
    ensures sorted { IsNonDecreasing list.new.items }
    ensures adds { OnOk result (AddsOne number list.old.items list.new.items) }
{
    let place = below(list.as_slice(), number);
    if !is_at(list.as_slice(), place, number) {
        list.insert(place, number)?;
    }
    Ok(())
}

impl Rising {
    /// No numbers. It takes no memory.
    pub fn none(alloc: Global) -> Rising
        ensures { result ≡ [] }
    {
        Rising {
            list: SmallVec::new(alloc),
        }
    }

    /// Adds a number, if it isn't there.
    pub fn add(&mut self, number: u32) -> Result<(), OutOfMemory>
        ensures { OnOk result (AddsOne number self.old self.new) }
    {
        insert(&mut self.list, number)?;
        Ok(())
    }

    /// The least of them from one on.
    pub fn from(&self, least: u32) -> Option<u32>
        ensures { IsLeastFrom (Contains self.now) least result }
    {
        let place = below(self.list.as_slice(), least);
        match self.list.as_slice().get(place) {
            Some(number) => Some(*number),
            None => None,
        }
    }

    /// The greatest of them up to one.
    pub fn to(&self, most: u32) -> Option<u32>
        ensures { IsGreatestTo (Contains self.now) most result }
    {
        let place = up_to(self.list.as_slice(), most);
        if place == 0 {
            None
        } else {
            Some(self.list.as_slice()[place - 1])
        }
    }
}
