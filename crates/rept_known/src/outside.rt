//! Known bits by a word and a mask.

ghost use Rattle.std.specs.Prelude.{◌≡◌};
ghost use Rattle.rept_known.specs.Bits.{outside};

use crate::bits::Bits;

/// The words that agree with `v` outside the bits of `loose`.
pub(crate) fn outside(v: u32, loose: u32) -> Bits
    ensures { result ≡ outside v loose }
{
    Bits::new(v & !loose, loose)
}
