//! Bytes that are known at one point, each with how far it has been known.

ghost use Rattle.std.specs.Prelude.{◌≡◌, ◌==◌, ◌<◌, ℕ, length, Some, None, IfOk, OnOk, IfSome, [], slice_get, if◌then◌else◌};
ghost use Rattle.rept_narrow.specs.Lanes.{held_at};

use indexmap::IndexMap;
use std::alloc::{AllocError as OutOfMemory, Global};
use std::marker::Model;

/// A value, and the farthest point, on or back, up to which the byte has it.
#[derive(Clone, Copy)]
pub struct Held {
    /// the point
    pub far: u32,
    /// the value
    pub value: u8,
}

/// What is held of bytes, by their addresses.
#[derive(Drop)]
pub struct HeldBytes {
    map: IndexMap<u32, Held>,
}

impl Model for HeldBytes {
    ghost use Rattle.std.specs.Prelude.{List, ℕ};
    ghost use Rattle.rept_narrow.specs.declared.lanes.held.Held.{Held};

    ghost Value = { List (ℕ × Held) };

    ghost view = { λ h. h.map.entries };
}

impl HeldBytes {
    /// Nothing.
    pub fn new(alloc: Global) -> HeldBytes
        ensures { result ≡ [] }
    {
        HeldBytes {
            map: IndexMap::new(alloc),
        }
    }

    /// How many bytes there are.
    pub fn len(&self) -> usize
        ensures { result ≡ length self.now }
    {
        self.map.len()
    }

    /// One of them, with its address, by number.
    pub fn entry(&self, index: usize) -> Option<(u32, Held)>
        ensures entry { result ≡ slice_get self.now index }
        ensures value { IfSome result (λ x. held_at self.now x.0 ≡ Some x.1) }
    {
        match self.map.get_index(index) {
            None => None,
            Some((address, held)) => Some((*address, *held)),
        }
    }

    /// What is held of the byte at an address.
    pub fn get(&self, address: u32) -> Option<Held>
        ensures { result ≡ held_at self.now address }
    {
        match self.map.get(&address) {
            None => None,
            Some(held) => Some(*held),
        }
    }

    /// Holds a value at an address, in place of what was held there.
    pub fn put(&mut self, address: u32, held: Held) -> Result<(), OutOfMemory>
        ensures { OnOk result ((a : ℕ) → held_at self.new a ≡ (if a == address then Some held else held_at self.old a)) }
    {
        match self.map.insert(address, held) {
            Err(_) => Err(OutOfMemory),
            Ok(_) => Ok(()),
        }
    }

    /// Lets go what is held at an address.
    pub fn take(&mut self, address: u32) -> Option<Held>
        ensures held { result ≡ held_at self.old address }
        ensures rest { (a : ℕ) → held_at self.new a ≡ (if a == address then None else held_at self.old a) }
    {
        self.map.swap_remove(&address)
    }
}
