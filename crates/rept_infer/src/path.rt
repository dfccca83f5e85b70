//! What follows of a path.

ghost use Rattle.std.specs.Prelude.{◌≡◌, ℕ, Some, Option};
ghost use Rattle.rept_infer.specs.Path.{met, path_reader, told_in};

use rept_isa::Reg;
use rept_known::Both;
use rept_narrow::{KnownPath, Lanes, NarrowRule, PathPremises, Table};
use rept_partial::Partial;
use std::marker::Model;

/// What follows of a path: a set for each register at each point, and some bytes at points. It is
/// seen as a `PathView`, of which `told_in` makes a `Holding`.
#[derive(Drop)]
pub struct InferredPath<'a, K: KnownPath, P: PathPremises> {
    pub(crate) last: u32,
    pub(crate) known: &'a K,
    pub(crate) premises: &'a P,
    pub(crate) table: Table,
    pub(crate) on: Lanes,
    pub(crate) back: Lanes,
    pub(crate) settled: u32,
}

impl<'a, K: KnownPath, P: PathPremises> Model for InferredPath<'a, K, P> {
    ghost use Rattle.std.specs.Prelude.{◌≡◌, ◌+◌};
    ghost use Rattle.rept_infer.specs.Path.{PathView};

    ghost Value = { PathView K P };

    ghost view = { λ t. record { known = t.known.now; premises = t.premises.now; table = t.table; on = t.on; back = t.back; settled = t.settled; last = t.last } };

    ghost invariant = { λ t. t.table.points ≡ t.last + 1 };
}

/// The values of the one set that the other has, too.
fn met(a: Both, b: Both) -> Both
    ensures { result ≡ met a (Some b) }
{
    match a.meet(b) {
        None => a,
        Some(both) => both,
    }
}

impl<'a, K: KnownPath, P: PathPremises> InferredPath<'a, K, P> {
    /// The set of a register at a point.
    pub fn set(&self, point: u32, register: Reg) -> Both
        ensures { (told_in (path_reader K.set K.byte P.premises) self.now).set point register ≡ Some result }
    {
        // for the proof alone
        let _number = register.number();
        let known = self.known.set(point, register);
        if point < self.table.points() {
            met(known, self.table.at(point, register))
        } else {
            known
        }
    }

    /// By which rule the set of a register at a point was narrowed last.
    pub fn set_rule(&self, point: u32, register: Reg) -> NarrowRule {
        if point < self.table.points() {
            self.table.rule(point, register)
        } else {
            NarrowRule::Value
        }
    }

    /// By which rule the byte at a point and an address is told beyond what was known before.
    pub fn byte_rule(&self, point: u32, address: u32) -> NarrowRule {
        if self.on.byte(point, address).is_some() {
            return if self.is_first(address) {
                NarrowRule::FirstMemory
            } else {
                NarrowRule::Miss
            };
        }
        if self.back.byte(point, address).is_some() {
            NarrowRule::Miss
        } else {
            NarrowRule::ReadOnly
        }
    }

    /// Whether a byte was told at the first point, by the executable or in the stack's area.
    fn is_first(&self, address: u32) -> bool {
        self.on.byte(0, address).is_some()
            && (self.is_cleared(address) || self.premises.first_byte(address).is_some())
    }

    /// Whether an address isn't below the stack's area, where the path begins with the program.
    fn is_cleared(&self, address: u32) -> bool {
        match self.premises.clear_from() {
            Some(from) => from <= address,
            None => false,
        }
    }

    /// The byte at a point and an address, if it is known.
    pub fn byte(&self, point: u32, address: u32) -> Option<u8>
        ensures { result ≡ (told_in (path_reader K.set K.byte P.premises) self.now).byte point address }
    {
        if let Some(v) = self.known.byte(point, address) {
            return Some(v);
        }
        if let Some(v) = self.on.byte(point, address) {
            return Some(v);
        }
        if let Some(v) = self.back.byte(point, address) {
            return Some(v);
        }
        if self.settled <= point && self.premises.is_read_only(address) {
            self.known.byte(self.last, address)
        } else {
            None
        }
    }
}
