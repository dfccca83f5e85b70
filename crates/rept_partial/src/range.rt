//! The words from one bound to another.

ghost use Rattle.std.specs.Prelude.{◌≡◌, ◌<◌, ◌≤◌, ◌^◌};

use crate::partial::Partial;

/// The words from a lowest to a highest one, both included.
#[derive(Clone, Copy, PartialEq, Eq, Debug)]
pub struct Range {
    lo: u32,
    hi: u32,
    pub ghost ordered: { lo ≤ hi },
    pub ghost small: { hi < 2 ^ 32 },
}

impl Range {
    /// The words from `lo` to `hi`.
    pub fn new(lo: u32, hi: u32) -> Range
        requires { lo ≤ hi }
        ensures lowest { result.lo ≡ lo }
        ensures highest { result.hi ≡ hi }
    {
        Range { lo, hi }
    }
}

impl Partial for Range {
    ghost use Rattle.rept_partial.specs.Ranges.{range_sets, range_lawful};

    ghost sets = { range_sets };

    ghost lawful = { range_lawful };

    fn unknown() -> Self {
        Range {
            lo: 0,
            hi: u32::MAX,
        }
    }

    fn exact(v: u32) -> Self {
        Range { lo: v, hi: v }
    }

    fn meet(self, other: Self) -> Option<Self> {
        let lo = self.lo.max(other.lo);
        let hi = self.hi.min(other.hi);
        if lo <= hi {
            Some(Range { lo, hi })
        } else {
            None
        }
    }

    fn as_exact(self) -> Option<u32> {
        if self.lo == self.hi {
            Some(self.lo)
        } else {
            None
        }
    }

    fn lo(self) -> u32 {
        self.lo
    }

    fn hi(self) -> u32 {
        self.hi
    }
}
