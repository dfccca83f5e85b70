//! Words of which some bits are known.

ghost use Rattle.std.specs.Prelude.{◌≡◌, ◌<◌, ◌+◌, ◌^◌, bit_and};

use crate::outside::outside;
use rept_partial::Partial;

/// The words that agree with one word outside some bits, which are called open: each of them may be
/// 0 or 1, whatever the others are. Compilers call this known bits (LLVM's `KnownBits`), and the
/// Linux kernel a tristate number (`tnum`).
#[derive(Clone, Copy, PartialEq, Eq, Debug)]
pub struct Bits {
    value: u32,
    loose: u32,
    pub ghost apart: { bit_and value loose ≡ 0 },
    pub ghost small: { value + loose < 2 ^ 32 },
}

impl Bits {
    /// The words that agree with `value` outside the bits of `loose`.
    pub fn new(value: u32, loose: u32) -> Bits
        requires { bit_and value loose ≡ 0 }
        ensures value { result.value ≡ value }
        ensures loose { result.loose ≡ loose }
    {
        Bits { value, loose }
    }

    /// The known bits that are 1.
    pub fn value(self) -> u32
        ensures { result ≡ self.value }
    {
        self.value
    }

    /// The open bits.
    pub fn loose(self) -> u32
        ensures { result ≡ self.loose }
    {
        self.loose
    }
}

impl Partial for Bits {
    ghost use Rattle.rept_known.specs.Bits.{bits_sets};
    ghost use Rattle.rept_known.specs.Laws.BitsLaws.{bits_lawful};

    ghost sets = { bits_sets };

    ghost lawful = { bits_lawful };

    fn unknown() -> Self {
        outside(0, u32::MAX)
    }

    fn exact(v: u32) -> Self {
        outside(v, 0)
    }

    fn meet(self, other: Self) -> Option<Self> {
        if (self.value ^ other.value) & !(self.loose | other.loose) == 0 {
            Some(outside(self.value | other.value, self.loose & other.loose))
        } else {
            None
        }
    }

    fn as_exact(self) -> Option<u32> {
        if self.loose == 0 {
            Some(self.value)
        } else {
            None
        }
    }

    fn lo(self) -> u32 {
        self.value
    }

    fn hi(self) -> u32 {
        self.value + self.loose
    }
}
