//! What every kind of set of values can do.

ghost use Rattle.std.specs.Prelude.{◌≡◌};
ghost use Rattle.rept_partial.specs.Sets.{Sets, AreLawful};

/// A set of 32-bit words, of which at least one is in it: what is known of one value. The idea and
/// its laws are this project's own. `sets` names the operations as functions, and each
/// implementation proves their laws.
pub trait Partial: Copy {
    ghost sets: { Sets Self };

    /// All words.
    fn unknown() -> Self
        ensures { result ≡ sets.unknown };

    /// One word alone.
    fn exact(v: u32) -> Self
        ensures { result ≡ sets.exact v };

    /// Exactly the common values. None exactly where there is none.
    fn meet(self, other: Self) -> Option<Self>
        ensures { result ≡ sets.meet self other };

    /// The only value. None exactly where there are several.
    fn as_exact(self) -> Option<u32>
        ensures { result ≡ sets.as_exact self };

    /// A bound that no value is below.
    fn lo(self) -> u32
        ensures { result ≡ sets.lo self };

    /// A bound that no value is above.
    fn hi(self) -> u32
        ensures { result ≡ sets.hi self };

    ghost lawful: { AreLawful sets };
}
