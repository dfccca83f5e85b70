//! The store of byte facts as a trait: what is known, what is learnt, what is tracked.

ghost use Rattle.std.specs.Prelude.{◌≡◌, ℕ, ◌+◌, ◌*◌, ◌<◌, Bool, true, IfOk, IsSome, Some, length, slice_get};
ghost use Rattle.rept_versions.specs.Facts.{Store, Made, change, Learns, CarriesOr, TracksOr, Nexts};

use std::alloc::{AllocError as OutOfMemory, Global};

/// What `learn` did.
#[derive(Clone, Copy, PartialEq, Eq, Debug)]
pub enum Learnt {
    /// The value was known already.
    Old,
    /// Nothing was known, and now the value is.
    New,
    /// Another value is known: that one, and then the one that was to be learnt. Nothing changed.
    Clash(u8, u8),
}

/// What `carry` did.
#[derive(Clone, Copy, PartialEq, Eq, Debug)]
pub enum Carried {
    /// The value was known at each of the points already.
    Same,
    /// It is known at each of them now, and at one of them nothing was.
    More,
    /// The first of the points at which another value is known, the value that was carried as far
    /// as the point before it, and that other value.
    Stop(u32, u8, u8),
}

/// Points of one address that stand side by side and have one value.
#[derive(Clone, Copy, PartialEq, Eq, Debug)]
pub struct ValueStretch {
    /// The least point.
    pub first: u32,
    /// The greatest point.
    pub last: u32,
    /// The value of the byte at each of them.
    pub value: u8,
}

/// Facts on the bytes of memory: each says which value the byte at an address has at a point of a
/// path. A point and an address have at most one. Beside the facts stand the addresses that are
/// tracked, each once, in the order of their first use.
///
/// Points count from 0. Any 32-bit number is a point and an address here, tracked or not.
pub trait ByteFacts: Drop {
    /// Whether points of one value that stand side by side take one place together, in room that
    /// `make` takes.
    const JOINS: bool;

    /// Whether they do.
    ghost JOINS: { Bool };

    /// What the store holds.
    ghost store: { Self → Store };

    /// A store with no fact and no tracked address, for a path with so many points and at most
    /// `access_bytes` tracked addresses. Where `JOINS`, its room for facts is
    /// `2 * access_bytes + 1` places or more, and `OutOfMemory` says that this room can't be had.
    fn make(alloc: Global, points: u32, access_bytes: u32) -> Result<Self, OutOfMemory>
        requires { JOINS ≡ true → 2 * access_bytes + 1 < 4294967296 }
        ensures { IfOk result (λ made. Made JOINS (store made) access_bytes) };

    /// The value that is known of the byte at an address, at a point.
    fn known(&self, point: u32, a: u32) -> Option<u8>
        ensures { result ≡ (store self.now).fact point a };

    /// Learns a fact, unless another value is known there. `OutOfMemory` comes only where nothing
    /// is known there and `spare` is 0. Where it doesn't answer `New`, nothing changes. It lowers
    /// `spare` by at most one, and not at all where `JOINS` and the same value is known at the
    /// point before or after.
    fn learn(&mut self, point: u32, a: u32, value: u8) -> Result<Learnt, OutOfMemory>
        ensures { Learns (change JOINS (store self.old) (store self.new)) (record { point = point; address = a; value = value }) result };

    /// Learns the value at `from` at each point up or down to `to`, one after another, and stops at
    /// the first point where another value is known. Where `JOINS`, it doesn't lower `spare` and
    /// never answers `OutOfMemory`. Else `OutOfMemory` comes at a point at which nothing is known,
    /// and what was learnt before it stays.
    fn carry(&mut self, a: u32, from: u32, to: u32) -> Result<Carried, OutOfMemory>
        requires { IsSome ((store self.old).fact from a) }
        ensures { (v : ℕ) → (store self.old).fact from a ≡ Some v → CarriesOr (change JOINS (store self.old) (store self.new)) (record { address = a; from = from; to = to; value = v }) result };

    /// How many facts can be learnt without memory.
    fn spare(&self) -> u32
        ensures { result ≡ (store self.now).spare };

    /// Makes an address one of those that are tracked. It goes last, unless it is one of them.
    /// Facts and room stay. `OutOfMemory` changes nothing. Where `JOINS`, it comes neither for an
    /// address that is tracked nor while fewer than `access_bytes` are.
    fn track(&mut self, a: u32) -> Result<(), OutOfMemory>
        ensures { TracksOr (change JOINS (store self.old) (store self.new)) a result };

    /// How many addresses are tracked.
    fn count(&self) -> usize
        ensures { result ≡ length (store self.now).tracked };

    /// The tracked address at an index, which is below `count`.
    fn address(&self, k: usize) -> u32
        requires { k < length (store self.now).tracked }
        ensures { slice_get (store self.now).tracked k ≡ Some result };

    /// Of the stretches of an address, each as long as can be, the first that ends at a point or
    /// later. It may begin before that point. `None`: from that point on nothing is known.
    fn next_stretch(&self, a: u32, point: u32) -> Option<ValueStretch>
        ensures { Nexts (store self.now).fact a point result };
}
