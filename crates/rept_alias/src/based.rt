//! The addresses that an access of a known range of its base may touch.

ghost use Rattle.std.specs.Prelude.{◌≡◌, ◌⊎◌, ℕ, ◌<◌, ◌≤◌, ◌^◌, true, pos, ◌+ℤ◌, int_lt, not};
ghost use Rattle.rept_isa.specs.Numbers.{plus, beside};
ghost use Rattle.rept_partial.specs.declared.range.Range.{Range};
ghost use Rattle.rept_alias.specs.Accesses.{hits, stays_inside, access_of, IsRangeWithin};

use crate::addresses::Access;
use rept_isa::number::plus;
use rept_partial::{Partial, Range};

/// The addresses that a load or store of `width` bytes at the offset `imm` from its base may touch,
/// where the base is one of a range. A base of one value gives exactly the bytes of the access.
/// Several give every address from the first byte of the lowest base to the last byte of the
/// highest one, and where that would pass an end of the address space, all addresses.
pub fn access(base: Range, imm: i32, width: u8) -> Access
    requires { (width ≡ 1) ⊎ (width ≡ 2) ⊎ (width ≡ 4) }
    ensures value { result ≡ access_of base imm width }
    ensures covers { (v k : ℕ) → base.lo ≤ v → v ≤ base.hi → k < width → hits result (beside (plus v imm) k) ≡ true }
    ensures exact { base.lo ≡ base.hi → (a : ℕ) → a < 2 ^ 32 → hits result a ≡ true → (k : ℕ) × (k < width) × (a ≡ beside (plus base.lo imm) k) }
    ensures monotone { (wider : Range) (a : ℕ) → IsRangeWithin base wider → hits result a ≡ true → hits (access_of wider imm width) a ≡ true }
{
    let last = u32::from(width) - 1;
    if base.lo() == base.hi() || stays_inside(base, imm, last) {
        Access {
            all: false,
            lo: plus(base.lo(), imm),
            hi: plus(base.hi(), imm).wrapping_add(last),
        }
    } else {
        Access {
            all: true,
            lo: 0,
            hi: u32::MAX,
        }
    }
}

/// Whether no base of the range leads past an end of the address space.
fn stays_inside(base: Range, imm: i32, last: u32) -> bool
    requires { last < 4 }
    ensures { result ≡ stays_inside base imm last }
{
    is_at_start(base.lo(), imm) && is_before_end(base.hi(), imm, last)
}

/// Whether the first byte is at or above 0.
fn is_at_start(base: u32, imm: i32) -> bool
    ensures { result ≡ not (int_lt (pos base +ℤ imm) (pos 0)) }
{
    i64::from(base) + i64::from(imm) >= 0
}

/// Whether the last byte is below 2^32.
fn is_before_end(base: u32, imm: i32, last: u32) -> bool
    requires { last < 4 }
    ensures { result ≡ int_lt (pos base +ℤ imm +ℤ pos last) (pos (2 ^ 32)) }
{
    i64::from(base) + i64::from(imm) + i64::from(last) < 0x1_0000_0000
}
