//! Numbers in decimal and hexadecimal.

ghost use Rattle.std.specs.Prelude.{◌≡◌, ◌++◌, ◌<◌, ◌/◌, ◌%◌, ◌^◌, OnOk, OnErr};
ghost use Rattle.std.specs.Fmt.{decimal};
ghost use Rattle.rept_word.specs.Hex.{hex_digit, hex_word, hex_byte};

use crate::text::{OutOfMemory, Text};

impl Text {
    /// Appends the number in decimal, with no sign and no leading zero.
    /// A refusal, which comes only where memory runs out, leaves the text as it was.
    pub fn push_decimal(&mut self, n: u32) -> Result<(), OutOfMemory>
        ensures ok { OnOk result (self.new ≡ self.old ++ decimal n) }
        ensures err { OnErr result (self.new ≡ self.old) }
    {
        self.push_count(u64::from(n))
    }

    /// Appends a count of 64 bits in decimal, with no sign and no leading zero. A refusal, which
    /// comes only where memory runs out, leaves the text as it was.
    pub fn push_count(&mut self, n: u64) -> Result<(), OutOfMemory>
        ensures ok { OnOk result (self.new ≡ self.old ++ decimal n) }
        ensures err { OnErr result (self.new ≡ self.old) }
    {
        let mut buffer = itoa::Buffer::new();
        self.push(buffer.format(n).as_bytes())
    }

    /// Appends the number as `0x` and eight lower-case hexadecimal digits.
    /// A refusal, which comes only where memory runs out, leaves the text as it was.
    pub fn push_word(&mut self, n: u32) -> Result<(), OutOfMemory>
        ensures ok { OnOk result (self.new ≡ self.old ++ hex_word n) }
        ensures err { OnErr result (self.new ≡ self.old) }
    {
        self.push(&[
            b'0',
            b'x',
            digit_at(n, 28),
            digit_at(n, 24),
            digit_at(n, 20),
            digit_at(n, 16),
            digit_at(n, 12),
            digit_at(n, 8),
            digit_at(n, 4),
            digit_at(n, 0),
        ])
    }

    /// Appends the byte as two lower-case hexadecimal digits.
    /// A refusal, which comes only where memory runs out, leaves the text as it was.
    pub fn push_byte(&mut self, n: u8) -> Result<(), OutOfMemory>
        ensures ok { OnOk result (self.new ≡ self.old ++ hex_byte n) }
        ensures err { OnErr result (self.new ≡ self.old) }
    {
        self.push(&[digit_at(u32::from(n), 4), digit_at(u32::from(n), 0)])
    }
}

/// The lower-case hexadecimal digit of the four bits from bit number `bit` on.
fn digit_at(n: u32, bit: u32) -> u8
    requires { bit < 32 }
    ensures { result ≡ hex_digit (n / 2 ^ bit % 16) }
{
    let digit = ((n >> bit) % 16) as u8;
    if digit < 10 {
        b'0' + digit
    } else {
        b'a' + (digit - 10)
    }
}
