//! The words of a set of known bits that are next to a bound.

ghost use Rattle.std.specs.Prelude.{◌≡◌, ◌≢◌, ℕ, ◌<◌, ◌≤◌, ◌-◌, ◌^◌, true, IfSome, None};
ghost use Rattle.rept_span.specs.Tables.{cover};
ghost use Rattle.rept_known.specs.Bits.{bits_has};
ghost use Rattle.rept_known.specs.Least.{IsLeastFrom, IsGreatestTo, least_word, greatest_word};
ghost use Rattle.rept_known.specs.Parts.{next_part};

use crate::bits::Bits;
use crate::outside::outside;

/// The least word of `b` that is at least `lo`. None exactly where there is none. It takes a dozen
/// operations.
pub fn least_from(b: Bits, lo: u32) -> Option<u32>
    ensures value { result ≡ least_word b lo }
    ensures some { IfSome result (λ v. IsLeastFrom b lo v) }
    ensures none { result ≡ None → (v : ℕ) → bits_has b v ≡ true → v < lo }
{
    let known = lo & !b.loose();
    let upper = b.loose() & !filled(known ^ b.value());
    let taken = lo & upper;
    if known <= b.value() {
        return Some(taken | b.value());
    }
    if taken == upper {
        return None;
    }
    Some(next_part(taken, upper) | b.value())
}

/// The greatest word of `b` that is at most `hi`. None exactly where there is none.
pub(crate) fn greatest_to(b: Bits, hi: u32) -> Option<u32>
    ensures { result ≡ greatest_word b hi }
{
    match least_from(outside(!b.value(), b.loose()), !hi) {
        None => None,
        Some(v) => Some(!v),
    }
}

/// The bits up to the highest one that is set.
pub(crate) fn filled(v: u32) -> u32
    ensures { result ≡ cover v }
{
    if v == 0 {
        0
    } else {
        u32::MAX >> v.leading_zeros()
    }
}

/// Of the numbers whose bits are all in `mask`, the one after `part`.
fn next_part(part: u32, mask: u32) -> u32
    requires { part < mask }
    ensures { result ≡ next_part part mask }
{
    part.wrapping_sub(mask) & mask
}
