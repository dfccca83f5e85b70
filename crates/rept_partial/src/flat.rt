//! One known value, or nothing known.

ghost use Rattle.std.specs.Prelude.{◌≡◌};
ghost use Rattle.rept_partial.specs.Flats.{flat};

use crate::partial::Partial;

/// One known value, or nothing known.
#[derive(Clone, Copy, PartialEq, Eq, Debug)]
pub enum Flat {
    /// Any word.
    Unknown,
    /// This word alone.
    Known(u32),
}

impl Flat {
    /// What is known where this value is, if one is: that one value, and nothing where none is.
    pub fn of(value: Option<u32>) -> Flat
        ensures { result ≡ flat value }
    {
        match value {
            None => Flat::Unknown,
            Some(v) => Flat::Known(v),
        }
    }
}

impl Partial for Flat {
    ghost use Rattle.rept_partial.specs.Flats.{flat_sets, flat_lawful};

    ghost sets = { flat_sets };

    ghost lawful = { flat_lawful };

    fn unknown() -> Self {
        Flat::Unknown
    }

    fn exact(v: u32) -> Self {
        Flat::Known(v)
    }

    fn meet(self, other: Self) -> Option<Self> {
        match (self, other) {
            (Flat::Unknown, _) => Some(other),
            (Flat::Known(_), Flat::Unknown) => Some(self),
            (Flat::Known(v), Flat::Known(w)) => { if v == w { Some(self) } else { None } }
        }
    }

    fn as_exact(self) -> Option<u32> {
        match self {
            Flat::Unknown => None,
            Flat::Known(v) => Some(v),
        }
    }

    fn lo(self) -> u32 {
        match self {
            Flat::Unknown => 0,
            Flat::Known(v) => v,
        }
    }

    fn hi(self) -> u32 {
        match self {
            Flat::Unknown => u32::MAX,
            Flat::Known(v) => v,
        }
    }
}
