//! The bytes that a row's rules look at.

ghost use Rattle.std.specs.Prelude.{◌≡◌};
ghost use Rattle.rept_log.specs.RowBytes.{on_side, byte_among};

use rept_reason::When;

/// A byte before and after a row, where it is known.
#[derive(Clone, Copy, Default)]
pub struct RowByte {
    /// its address
    pub address: u32,
    /// the byte before the row
    pub before: Option<u8>,
    /// the byte after it
    pub after: Option<u8>,
}

impl RowByte {
    /// The byte before the row, or after it.
    fn on_side(&self, when: When) -> Option<u8>
        ensures { result ≡ on_side self.now when }
    {
        match when {
            When::Before => self.before,
            When::After => self.after,
        }
    }
}

/// What these bytes tell of an address.
pub fn byte_among(bytes: &[RowByte], when: When, a: u32) -> Option<u8>
    ensures { result ≡ byte_among bytes.now when a }
{
    for byte in bytes {
        if byte.address == a {
            return byte.on_side(when);
        }
    }
    None
}
