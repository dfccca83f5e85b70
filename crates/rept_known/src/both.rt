//! Words in a range of which some bits are known.

ghost use Rattle.std.specs.Prelude.{◌≡◌, ◌≤◌, true, bit_xor};
ghost use Rattle.rept_span.specs.Tables.{cover};
ghost use Rattle.rept_known.specs.Bits.{bits_has};

use crate::bits::Bits;
use crate::reduce::{common, whole};
use rept_partial::{Partial, Range};

/// The words that a range and known bits have in common. It is kept reduced: the range goes from
/// the least of these words to the greatest one, and a bit is open exactly where two of them
/// differ.
#[derive(Clone, Copy, PartialEq, Eq, Debug)]
pub struct Both {
    range: Range,
    bits: Bits,
    pub ghost least: { bits_has bits range.lo ≡ true },
    pub ghost greatest: { bits_has bits range.hi ≡ true },
    pub ghost tight: { bits.loose ≤ cover (bit_xor range.lo range.hi) },
}

impl Both {
    /// A range and known bits that are reduced.
    pub(crate) fn of_parts(range: Range, bits: Bits) -> Both
        requires least { bits_has bits range.lo ≡ true }
        requires greatest { bits_has bits range.hi ≡ true }
        requires tight { bits.loose ≤ cover (bit_xor range.lo range.hi) }
        ensures range { result.range ≡ range }
        ensures bits { result.bits ≡ bits }
    {
        Both { range, bits }
    }

    /// From the least to the greatest word.
    pub fn range(self) -> Range
        ensures { result ≡ self.range }
    {
        self.range
    }

    /// The bits in which no two of the words differ.
    pub fn bits(self) -> Bits
        ensures { result ≡ self.bits }
    {
        self.bits
    }
}

impl Partial for Both {
    ghost use Rattle.rept_known.specs.Both.{both_sets};
    ghost use Rattle.rept_known.specs.Laws.BothLaws.{both_lawful};

    ghost sets = { both_sets };

    ghost lawful = { both_lawful };

    fn unknown() -> Self {
        whole(Bits::unknown())
    }

    fn exact(v: u32) -> Self {
        whole(Bits::exact(v))
    }

    fn meet(self, other: Self) -> Option<Self> {
        match self.range.meet(other.range) {
            None => None,
            Some(range) => match self.bits.meet(other.bits) {
                None => None,
                Some(bits) => common(range, bits),
            },
        }
    }

    fn as_exact(self) -> Option<u32> {
        self.range.as_exact()
    }

    fn lo(self) -> u32 {
        self.range.lo()
    }

    fn hi(self) -> u32 {
        self.range.hi()
    }
}
