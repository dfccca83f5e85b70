//! The lesser of two numbers that may be there.

ghost use Rattle.std.specs.Prelude.{ℕ, Bool, ◌||◌};
ghost use Rattle.rept_report.specs.Origin.Bridges.{IsLeastFrom};

/// The lesser of the two, or the only one.
pub fn lesser(a: Option<u32>, b: Option<u32>) -> Option<u32>
    ensures { (f g : ℕ → Bool) (least : ℕ) → IsLeastFrom f least a → IsLeastFrom g least b → IsLeastFrom (λ n. f n || g n) least result }
{
    match (a, b) {
        (None, other) => other,
        (Some(m), None) => Some(m),
        (Some(m), Some(n)) => if m <= n { Some(m) } else { Some(n) },
    }
}
