//! One byte of the memory.

ghost use Rattle.std.specs.Prelude.{◌≡◌, ◌<◌};
ghost use Rattle.rept_report.specs.Origin.Bridges.{ByteAlong};

/// A byte of the memory: at which moments it is known by itself, without being carried there, and
/// which rows may write it. `byte` names all of it as functions.
pub trait Sources {
    ghost byte: { Self → ByteAlong };

    /// The byte at the moment of a number, where it is known there by itself.
    fn source(&self, number: u32) -> Option<u8>
        ensures { result ≡ (byte self.now).source number };

    /// Whether a row may write it.
    fn may_write(&self, row: u32) -> bool
        requires { row < (byte self.now).rows }
        ensures { result ≡ (byte self.now).may row (byte self.now).address };
}
