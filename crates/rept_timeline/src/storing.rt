//! The rows of several threads that may write memory, by their numbers.

ghost use Rattle.std.specs.Prelude.{◌≡◌, ◌≤◌, ◌<◌, ◌+◌, ℕ, [], length, IfOk, OnOk, slice_index_or};
ghost use Rattle.std.specs.List.Sorted.{IsNonDecreasingBy};
ghost use Rattle.rept_timeline.specs.Listed.{storing_to, storing_in, IsFirstFrom};

use rept_moments::Many;
use std::alloc::{AllocError as OutOfMemory, Global};
use std::marker::Model;

/// The rows that may write memory by the form of their instructions, in the order of their numbers.
/// Contracts see the list.
#[derive(Drop)]
pub struct Storing {
    list: Vec<u32>,
}

impl Model for Storing {
    ghost use Rattle.std.specs.Prelude.{ℕ, List};
    ghost use Rattle.std.specs.List.Sorted.{IsNonDecreasingBy};

    ghost Value = { List ℕ };

    ghost view = { λ s. s.list.items };

    ghost invariant = { λ s. IsNonDecreasingBy (λ i. i) s.list.items };
}

/// Places of the list, from one on to before another.
#[derive(Clone, Copy)]
pub struct ListPart {
    /// The first place.
    pub low: usize,
    /// The place after the last one.
    pub high: usize,
}

/// Adds a row, if it may write.
fn add(list: &mut Vec<u32>, many: &Many<'_>, row: u32) -> Result<(), OutOfMemory>
    requires { list.old.items ≡ storing_to many.now row }
    ensures { OnOk result (list.new.items ≡ storing_to many.now (row + 1)) }
{
    if many.stores(row) {
        list.push(row)?;
        Ok(())
    } else {
        Ok(())
    }
}

impl Storing {
    /// No rows. It takes no memory.
    pub fn none(alloc: Global) -> Storing
        ensures { result ≡ [] }
    {
        Storing {
            list: Vec::new(alloc),
        }
    }

    /// Those of several threads. It takes memory for one entry each.
    pub fn new(alloc: Global, many: &Many<'_>) -> Result<Storing, OutOfMemory>
        ensures { IfOk result (λ s. s ≡ storing_in many.now) }
    {
        let mut list = Vec::new(alloc);
        for row in 0..many.last_point() {
            add(&mut list, many, row)?;
        }
        Ok(Storing { list })
    }

    /// How many there are.
    pub fn count(&self) -> usize
        ensures { result ≡ length self.now }
    {
        self.list.as_slice().len()
    }

    /// The row at a place.
    pub fn at(&self, place: usize) -> u32
        requires { place < length self.now }
        ensures { result ≡ slice_index_or self.now place 0 }
    {
        self.list.as_slice()[place]
    }

    /// The place of the first row from one on, found by halves.
    pub fn begin(&self, row: u32) -> usize
        ensures few { result ≤ length self.now }
        ensures before { (k : ℕ) → k < result → slice_index_or self.now k 0 < row }
        ensures after { (k : ℕ) → result ≤ k → k < length self.now → row ≤ slice_index_or self.now k 0 }
        ensures up { IsNonDecreasingBy (λ i. i) self.now }
    {
        let mut low = 0;
        let mut high = self.list.len();
        while low < high {
            let middle = low + (high - low) / 2;
            if self.list[middle] >= row {
                high = middle;
            } else {
                low = middle + 1;
            }
        }
        low
    }

    /// The first row from one on.
    pub fn first_from(&self, row: u32) -> Option<u32>
        ensures { IsFirstFrom self.now row result }
    {
        let place = self.begin(row);
        if place < self.count() {
            Some(self.at(place))
        } else {
            None
        }
    }
}
