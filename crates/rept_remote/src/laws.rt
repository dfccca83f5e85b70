//! Laws of the grammar, for callers. The call does nothing.

ghost use Rattle.std.specs.Prelude.{◌≡◌, ◌++◌, ℕ, List};
ghost use Rattle.rept_remote.specs.Frames.{Arrived, Arrives, HasNoArrival};

/// Of bytes that begin with an arrival, no others begin with another one, and they don't begin with
/// bytes that have none: so what arrives is determined by the input.
pub fn arrivals_are_unique()
    ensures one { (p q x y : List ℕ) (v w : Arrived) → Arrives p v → Arrives q w → p ++ x ≡ q ++ y → (p ≡ q) × (v ≡ w) × (x ≡ y) }
    ensures none { (p q x : List ℕ) (v : Arrived) → Arrives p v → HasNoArrival q → p ++ x ≡ q → ⊥ }
{}
