//! Common words of a range and known bits.

ghost use Rattle.std.specs.Prelude.{◌≡◌, ℕ, ◌≤◌, true, IfSome, None};
ghost use Rattle.rept_partial.specs.Ranges.{range_has};
ghost use Rattle.rept_known.specs.Bits.{bits_has, outside};
ghost use Rattle.rept_known.specs.Both.{IsReduced, open_between, reduced, whole};

use crate::bits::Bits;
use crate::both::Both;
use crate::nearest::{filled, greatest_to, least_from};
use crate::outside::outside;
use rept_partial::{Partial, Range};

impl Both {
    /// The words that the range and the known bits have in common. None exactly where there is
    /// none.
    pub fn new(range: Range, bits: Bits) -> Option<Both>
        ensures some { IfSome result (λ a. IsReduced range bits a) }
        ensures none { result ≡ None → (v : ℕ) → range_has range v ≡ true → bits_has bits v ≡ true → ⊥ }
        ensures value { result ≡ reduced range bits }
    {
        common(range, bits)
    }
}

/// The words that a range and known bits have in common, if there are any.
pub(crate) fn common(range: Range, bits: Bits) -> Option<Both>
    ensures { result ≡ reduced range bits }
{
    let lo = match least_from(bits, range.lo()) {
        None => return None,
        Some(lo) => lo,
    };
    let hi = match greatest_to(bits, range.hi()) {
        None => return None,
        Some(hi) => hi,
    };
    if lo <= hi {
        Some(between(bits, lo, hi))
    } else {
        None
    }
}

/// All words of known bits.
pub(crate) fn whole(bits: Bits) -> Both
    ensures { result ≡ whole bits }
{
    between(bits, bits.lo(), bits.hi())
}

/// The words of known bits from one of them to another.
fn between(bits: Bits, lo: u32, hi: u32) -> Both
    requires least { bits_has bits lo ≡ true }
    requires greatest { bits_has bits hi ≡ true }
    requires ordered { lo ≤ hi }
    ensures lowest { result.range.lo ≡ lo }
    ensures highest { result.range.hi ≡ hi }
    ensures bits { result.bits ≡ outside lo (open_between bits lo hi) }
{
    let known = outside(lo, bits.loose() & filled(lo ^ hi));
    Both::of_parts(Range::new(lo, hi), known)
}
