//! What is known around a row.

ghost use Rattle.std.specs.Prelude.{◌≡◌};
ghost use Rattle.rept_reason.specs.Facts.{flat};
ghost use Rattle.rept_reason.specs.View.Seen.{Seen, IsLawful};

use crate::view::inferred::When;
use rept_isa::Reg;
use rept_partial::{Flat, Range};

/// What is known of registers and bytes before and after a row, and within which ranges its
/// registers lie. x0 is 0, and a known register's range is its value alone. `seen` names all of it
/// as functions.
pub trait RowView {
    ghost seen: { Self → Seen };

    /// What is known of a register.
    fn reg(&self, when: When, r: Reg) -> Flat
        ensures { result ≡ flat ((seen self.now).register when r) };

    /// The byte at an address. None where it isn't known.
    fn byte(&self, when: When, a: u32) -> Option<u8>
        ensures { result ≡ (seen self.now).byte when a };

    /// The range in which a register lies.
    fn range(&self, when: When, r: Reg) -> Range
        ensures { result ≡ (seen self.now).range when r };

    ghost lawful: { (v : Self) → IsLawful (seen v) };
}
