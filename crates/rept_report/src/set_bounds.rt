//! The bounds of a set of values.

ghost use Rattle.std.specs.Prelude.{◌≡◌, Some};
ghost use Rattle.rept_report.specs.Views.{bounds};

use rept_partial::{Partial, Range};

/// The values from a set's lower to its upper bound, or the only one that it has.
pub fn bounds<W: Partial>(set: W) -> Range
    ensures { result ≡ bounds W.sets (Some set) }
{
    match set.as_exact() {
        Some(v) => Range::exact(v),
        None => Range::new(set.lo(), set.hi()),
    }
}
