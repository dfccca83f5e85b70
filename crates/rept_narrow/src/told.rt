//! What is told while bytes are held from point to point.

ghost use Rattle.std.specs.Prelude.{IfSome};
ghost use Rattle.rept_narrow.specs.Sweeps.{IsHeldByte};

use crate::bytes::ToldBytes;
use crate::known::KnownPath;
use crate::lanes::{Lanes, Sweep};

/// The bytes that are held at the point of a sweep, spans that were found before, and what was known
/// before all.
#[derive(Drop)]
pub struct SweptBytes<'a, K: KnownPath> {
    /// what was known before all
    pub known: &'a K,
    /// the spans
    pub lanes: &'a Lanes,
    /// the sweep
    pub sweep: &'a Sweep,
}

impl<'a, K: KnownPath> SweptBytes<'a, K> {
    /// A byte that is held.
    fn held(&self, point: u32, address: u32) -> Option<u8>
        ensures { IfSome result (λ v. IsHeldByte self.now.sweep.now point address v) }
    {
        if point != self.sweep.point() {
            return None;
        }
        match self.sweep.held().get(address) {
            None => None,
            Some(held) => Some(held.value),
        }
    }
}

impl<'a, K: KnownPath> ToldBytes for SweptBytes<'a, K> {
    ghost use Rattle.rept_narrow.specs.Sweeps.{tells_in};

    ghost tells = { λ b. tells_in (K.byte b.known.now) b.lanes.now b.sweep.now };

    fn byte(&self, point: u32, address: u32) -> Option<u8> {
        if let Some(v) = self.held(point, address) {
            return Some(v);
        }
        if let Some(v) = self.lanes.byte(point, address) {
            return Some(v);
        }
        self.known.byte(point, address)
    }
}
