//! The bits of a payload, in order.

ghost use Rattle.std.specs.Prelude.{◌≡◌, ◌<◌, ◌≤◌, ◌-◌, ◌^◌, length};

/// Takes the bits of a payload in order, the lowest of each byte first, as the packets of Efficient
/// Trace for RISC-V are packed. Past the payload's end its last bit comes again, without end.
#[derive(Clone, Copy)]
pub struct BitCursor<'a> {
    payload: &'a [u8],
    byte: usize,
    bit: u8,
    ghost in_payload: { byte < length payload.now },
    ghost in_byte: { bit < 8 },
}

impl<'a> BitCursor<'a> {
    ghost use Rattle.std.specs.Prelude.{◌≡◌, ◌+◌, ◌*◌, ◌<◌, ◌≤◌, ◌^◌, ℕ, List, length};
    ghost use Rattle.rept_word.specs.Bits.{field, bit_of};
    ghost use Rattle.rept_word.specs.Cursor.{IsAt};

    /// A cursor at the payload's first bit. The payload isn't empty.
    pub fn new(payload: &'a [u8]) -> BitCursor<'a>
        requires { 0 < length payload.now }
        ensures { IsAt result payload.now 0 }
    {
        BitCursor {
            payload,
            byte: 0,
            bit: 0,
        }
    }

    /// The number that the next `n` bits spell, the first of them lowest. Any number of takes may
    /// follow.
    pub fn take(&mut self, n: u32) -> u64
        requires { n ≤ 64 }
        ensures value { (payload : List ℕ) (i : ℕ) →
            IsAt self.old payload i → result ≡ field payload i n }
        ensures at { (payload : List ℕ) (i : ℕ) →
            IsAt self.old payload i → IsAt self.new payload (i + n) }
        ensures small { result < 2 ^ n }
    {
        let mut value = 0u64;
        let mut taken = 0;
        'parts: while taken < n {
            let part = self.part(n - taken);
            value += part.bits << taken;
            taken += part.count;
        }
        value
    }

    /// Some of so many bits that come next, at least one: those that the byte at the cursor has, or
    /// all of them where only the payload's last bit comes.
    fn part(&mut self, most: u32) -> SpelledBits
        requires some { 0 < most }
        requires few { most ≤ 64 }
        ensures value { (payload : List ℕ) (i : ℕ) →
            IsAt self.old payload i → result.bits ≡ field payload i result.count }
        ensures at { (payload : List ℕ) (i : ℕ) →
            IsAt self.old payload i → IsAt self.new payload (i + result.count) }
        ensures small { result.bits < 2 ^ result.count }
        ensures some { 0 < result.count }
        ensures few { result.count ≤ most }
    {
        if self.bit == 7 && self.byte + 1 == self.payload.len() {
            return self.repeated(most);
        }
        let count = most.min(8 - u32::from(self.bit));
        let bits = u64::from(self.payload[self.byte] >> self.bit) % (1 << count);
        self.pass(count as u8);
        SpelledBits { bits, count }
    }

    /// This many bits, all like the payload's last one, at which the cursor is.
    fn repeated(&self, count: u32) -> SpelledBits
        requires few { count ≤ 64 }
        requires last { self.now.bit ≡ 7 }
        requires whole { self.now.byte + 1 ≡ length self.now.payload.now }
        ensures value { (payload : List ℕ) (i : ℕ) →
            IsAt self.now payload i → result.bits ≡ field payload i count }
        ensures small { result.bits < 2 ^ count }
        ensures count { result.count ≡ count }
    {
        let last = (self.payload[self.byte] >> self.bit) % 2 == 1;
        let bits = if last { ones(count) } else { 0 };
        SpelledBits { bits, count }
    }

    /// Goes on by so many bits of the byte at the cursor. At the payload's last bit the cursor
    /// stays there.
    fn pass(&mut self, count: u8)
        requires { self.old.bit + count ≤ 8 }
        ensures at { (payload : List ℕ) (i : ℕ) →
            IsAt self.old payload i → i ≡ 8 * self.old.byte + self.old.bit → IsAt self.new payload (i + count) }
    {
        if self.bit + count < 8 {
            self.bit += count;
        } else if self.byte + 1 < self.payload.len() {
            self.byte += 1;
            self.bit = 0;
        } else {
            self.bit = 7;
        }
    }
}

/// Bits that come one after the other, as the number that they spell.
#[derive(Clone, Copy)]
struct SpelledBits {
    bits: u64,
    count: u32,
}

/// The number of so many bits, at most 64, that are all 1.
fn ones(count: u32) -> u64
    requires { count ≤ 64 }
    ensures { result ≡ 2 ^ count - 1 }
{
    ((1u128 << count) - 1) as u64
}
