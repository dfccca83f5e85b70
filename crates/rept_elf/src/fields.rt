//! Little-endian fields of a file.

ghost use Rattle.std.specs.Prelude.{◌≡◌, ◌==◌, ◌≤◌, ◌<◌, ◌+◌, length, drop, IfSome};
ghost use Rattle.std.specs.List.{position};
ghost use Rattle.rept_elf.specs.Header.{half_at, word_at};
ghost use Rattle.rept_elf.specs.Segments.{part_of};

use byteorder::{ByteOrder, LittleEndian};

/// The 16 bits at an offset, the low byte first.
pub fn half(bytes: &[u8], offset: usize) -> u16
    requires { offset + 2 ≤ length bytes.now }
    ensures { result ≡ half_at bytes.now offset }
{
    LittleEndian::read_u16(&bytes[offset..])
}

/// The 32 bits at an offset, the low byte first.
pub fn word(bytes: &[u8], offset: usize) -> u32
    requires { offset + 4 ≤ length bytes.now }
    ensures { result ≡ word_at bytes.now offset }
{
    LittleEndian::read_u32(&bytes[offset..])
}

/// The bytes from an offset on, this many or as far as there are any.
pub fn part(bytes: &[u8], offset: usize, size: usize) -> &[u8]
    ensures { result.now ≡ part_of bytes.now offset size }
{
    let rest = bytes.get(offset..).unwrap_or(&[]);
    rest.get(..size).unwrap_or(rest)
}

/// The bytes from an offset on.
pub fn after(bytes: &[u8], offset: usize) -> &[u8]
    ensures { result.now ≡ drop offset bytes.now }
{
    bytes.get(offset..).unwrap_or(&[])
}

/// Where the first zero byte stands, if there is one.
pub fn first_zero(bytes: &[u8]) -> Option<usize>
    ensures place { result ≡ position (λ b. b == 0) bytes.now }
    ensures within { IfSome result (λ place. place < length bytes.now) }
{
    bytes.iter().position(|b| *b == 0)
}
