//! The numbers that a search has reached.

ghost use Rattle.std.specs.Prelude.{◌≡◌, [], ◌+◌, ◌<◌, ◌≤◌, IfOk, Some, length, slice_get};
ghost use Rattle.rept_report.specs.Nearest.Reached.{AddsNumber, AreClear};

use std::alloc::{AllocError as OutOfMemory, Global};
use std::marker::Model;

/// Numbers below a bound, each once, in the order in which they were reached.
#[derive(Drop)]
pub struct Reach {
    marks: Vec<bool>,
    list: Vec<u32>,
}

impl Model for Reach {
    ghost use Rattle.std.specs.Prelude.{length};
    ghost use Rattle.std.specs.Vec.{vec_capacity};
    ghost use Rattle.rept_report.specs.Nearest.Reached.{Reached, AreMarked};

    ghost Value = { Reached };

    ghost view = { λ r. record { bound = length r.marks.items; list = r.list.items } };

    ghost invariant = { λ r. AreMarked r.marks.items r.list.items (vec_capacity r.list) };
}

/// A list of this many marks that aren't set.
fn no_marks(alloc: Global, count: usize) -> Result<Vec<bool>, OutOfMemory>
    ensures { IfOk result (λ v. AreClear count v.items) }
{
    vec![in alloc; false; count]
}

impl Reach {
    /// None yet, of the numbers up to a last one. It takes the room for all of them.
    pub fn new(alloc: Global, last: u32) -> Result<Reach, OutOfMemory>
        ensures bound { IfOk result (λ r. r.bound ≡ last + 1) }
        ensures none { IfOk result (λ r. r.list ≡ []) }
    {
        let count = last as usize + 1;
        let marks = no_marks(alloc, count)?;
        let list = Vec::with_capacity(alloc, count)?;
        Ok(Reach { marks, list })
    }

    /// How many were reached.
    pub fn len(&self) -> usize
        ensures value { result ≡ length self.now.list }
        ensures few { result ≤ self.now.bound }
    {
        self.list.len()
    }

    /// The one at an index.
    pub fn at(&self, k: usize) -> u32
        requires { k < length self.now.list }
        ensures { slice_get self.now.list k ≡ Some result }
    {
        self.list[k]
    }

    /// Adds a number, unless it was reached already. It takes no memory.
    pub fn add(&mut self, number: u32)
        requires { number < self.old.bound }
        ensures { AddsNumber self.old self.new number }
    {
        let index = number as usize;
        if self.marks[index] {
            return;
        }
        self.marks[index] = true;
        self.list.push_reserved(number);
    }
}
