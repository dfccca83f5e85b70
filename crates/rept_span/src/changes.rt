//! Which sets change where more becomes known.

ghost use Rattle.std.specs.Prelude.{◌≡◌, ◌≢◌, ◌<◌, ℕ, length, IfOk, Some, slice_get};

use crate::points::PointSet;
use crate::spans::unknowns;
use crate::transfer::Transfer;
use rept_isa::Reg;
use rept_partial::Partial;
use std::alloc::{AllocError as OutOfMemory, Global};
use std::marker::Model;

/// The sets of all registers at one point, as they were.
#[derive(Drop)]
pub struct KeptSets<W: Transfer> {
    items: Vec<W>,
}

impl<W: Transfer> Model for KeptSets<W> {
    ghost use Rattle.std.specs.Prelude.{◌≡◌, List, length};

    ghost Value = { List W };

    ghost view = { λ k. k.items.items };

    ghost invariant = { λ k. length k.items.items ≡ 32 };
}

impl<W: Transfer> KeptSets<W> {
    fn new(alloc: Global) -> Result<KeptSets<W>, OutOfMemory> {
        let items = unknowns(alloc, 32)?;
        Ok(KeptSets { items })
    }

    /// Keeps the set of a register.
    pub(crate) fn put(&mut self, r: Reg, w: W)
        ensures here { slice_get self.new r ≡ Some w }
        ensures others { (s : ℕ) → s ≢ r → slice_get self.new s ≡ slice_get self.old s }
    {
        self.items[usize::from(r.number())] = w;
    }

    /// The set of a register that was kept.
    pub(crate) fn at(&self, r: Reg) -> W
        ensures { slice_get self.now r ≡ Some result }
    {
        self.items[usize::from(r.number())]
    }
}

/// The points whose sets may change where more becomes known.
#[derive(Drop)]
pub struct SetChanges<W: Transfer> {
    /// the points
    pub points: PointSet,
    /// the sets at one of them before
    pub kept: KeptSets<W>,
}

impl<W: Transfer> SetChanges<W> {
    /// None of so many points. `OutOfMemory` says that the room can't be had.
    pub fn new(alloc: Global, points: u32) -> Result<SetChanges<W>, OutOfMemory>
        ensures count { IfOk result (λ c. length c.points ≡ points) }
    {
        let marks = PointSet::new(alloc, points)?;
        let kept = KeptSets::new(alloc)?;
        Ok(SetChanges {
            points: marks,
            kept,
        })
    }
}
