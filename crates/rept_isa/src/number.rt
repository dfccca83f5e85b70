//! Sums of words and signed numbers, modulo 2^32.

ghost use Rattle.std.specs.Prelude.{◌≡◌, ◌<◌, ◌≤◌, ◌*◌, ◌-◌, ◌^◌, suc, nat_lt, if◌then◌else◌, pos, negsuc};
ghost use Rattle.rept_isa.specs.Numbers.{word, plus, following};

/// The word of a signed number, in two's complement.
pub fn word(imm: i32) -> u32
    ensures { result ≡ word imm }
{
    imm.cast_unsigned()
}

/// The signed number that `n` is in two's complement, where numbers from `half` on are negative.
pub fn signed(n: u32, half: u32) -> i32
    requires fits { n < 2 * half }
    requires small { half ≤ 2 ^ 20 }
    ensures { result ≡ (if nat_lt n half then pos n else negsuc (2 * half - suc n)) }
{
    if n < half {
        n as i32
    } else {
        n as i32 - 2 * half as i32
    }
}

/// The word that lies `imm` bytes from `base`, modulo 2^32.
pub fn plus(base: u32, imm: i32) -> u32
    ensures { result ≡ plus base imm }
{
    base.wrapping_add(word(imm))
}

/// The address of the instruction that follows one of four bytes at `from`, modulo 2^32.
pub fn following(from: u32) -> u32
    ensures { result ≡ following from }
{
    from.wrapping_add(4)
}
