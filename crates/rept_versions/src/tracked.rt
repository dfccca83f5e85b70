//! The tracked addresses, each once, in the order of their first use.

ghost use Rattle.std.specs.Prelude.{◌≡◌, ◌<◌, length, Some, [], IfOk, slice_get};
ghost use Rattle.rept_versions.specs.Row.{AddsTo};

use indexmap::IndexSet;
use std::alloc::{AllocError as OutOfMemory, Global};
use std::marker::Model;

/// Numbers, each once, in the order in which they came.
#[derive(Drop)]
pub struct Tracked {
    set: IndexSet<u32>,
    room: usize,
}

impl Model for Tracked {
    ghost use Rattle.std.specs.Prelude.{◌+◌, ◌≤◌};
    ghost use Rattle.indexmap.specs.IndexSet.{index_set_len, spare};
    ghost use Rattle.rept_versions.specs.Row.{VersionRow};

    ghost Value = { VersionRow };

    ghost view = { λ s. record { items = s.set.keys; room = s.room } };

    ghost invariant = { λ s. s.room ≤ index_set_len s.set + spare s.set };
}

impl Tracked {
    /// No number yet, with room for so many.
    pub fn new(alloc: Global, room: usize) -> Result<Self, OutOfMemory>
        ensures { IfOk result (λ s. s ≡ record { items = []; room = room }) }
    {
        let set = IndexSet::with_capacity(alloc, room)?;
        Ok(Tracked { set, room })
    }

    /// How many there are.
    pub fn count(&self) -> usize
        ensures { result ≡ length self.now.items }
    {
        self.set.len()
    }

    /// The number at an index.
    pub fn at(&self, k: usize) -> u32
        requires { k < length self.now.items }
        ensures { slice_get self.now.items k ≡ Some result }
    {
        self.set.as_slice()[k]
    }

    /// Adds a number. It fails only where the number isn't there and the room is used up.
    pub fn add(&mut self, a: u32) -> Result<(), OutOfMemory>
        ensures { AddsTo self.old self.new a result }
    {
        if self.set.contains(&a) {
            return Ok(());
        }
        let _added = self.set.insert(a)?;
        Ok(())
    }
}
