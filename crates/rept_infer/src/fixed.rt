//! Bytes that can't be written, beside what was known before.

use rept_isa::Reg;
use rept_known::Both;
use rept_narrow::{KnownPath, PathPremises};

/// What was known before, and the bytes that can't be written: from a row on they have their last
/// value.
#[derive(Drop)]
pub struct FixedPath<'a, K: KnownPath, P: PathPremises> {
    /// what was known before
    pub known: &'a K,
    /// which bytes can't be written
    pub premises: &'a P,
    /// the row from which on pages keep their protection
    pub settled: u32,
    /// the last point
    pub last: u32,
}

impl<'a, K: KnownPath, P: PathPremises> KnownPath for FixedPath<'a, K, P> {
    ghost use Rattle.std.specs.Prelude.{[]};
    ghost use Rattle.rept_infer.specs.Path.{first_some, fixed_byte};

    ghost set = { λ f. K.set f.known.now };

    ghost byte = { λ f p a. first_some (K.byte f.known.now p a) (fixed_byte (K.byte f.known.now) (record { on = []; back = []; is_read_only = (P.premises f.premises.now).is_read_only; settled = f.settled; last = f.last }) p a) };

    fn set(&self, point: u32, register: Reg) -> Both {
        self.known.set(point, register)
    }

    fn byte(&self, point: u32, address: u32) -> Option<u8> {
        if let Some(v) = self.known.byte(point, address) {
            return Some(v);
        }
        if self.settled <= point && self.premises.is_read_only(address) {
            self.known.byte(self.last, address)
        } else {
            None
        }
    }
}
