//! Which rows write which bytes.

ghost use Rattle.std.specs.Prelude.{◌≡◌, ℕ};
ghost use Rattle.rept_report.specs.Last.Latest.{Writes};

/// Rows by their numbers, of which it can be asked which bytes they may write. `writes` names the
/// answers as functions, and `ready` says of which rows it can be asked.
pub trait RowWrites {
    ghost writes: { Self → Writes };

    ghost ready: { Self → ℕ → Type 0 };

    /// Whether a row may write the byte at an address.
    fn may_write(&self, row: u32, a: u32) -> bool
        requires { ready self.now row }
        ensures { result ≡ (writes self.now).may row a };

    /// Whether a row writes each byte that it may write.
    fn is_sure(&self, row: u32) -> bool
        requires { ready self.now row }
        ensures { result ≡ (writes self.now).sure row };
}
