//! Signs, inverses and covers of words.

ghost use Rattle.std.specs.Prelude.{◌≡◌, ◌+◌, ◌*◌, ◌%◌, ◌^◌, ◌≤◌, ℕ};
ghost use Rattle.rept_word.specs.Number.{sign_extended, IsCover};

/// The low `bits` bits of `v`, with the highest of them repeated above, as the RISC-V unprivileged
/// manual extends immediates and loaded bytes by their sign (chapters 2.3 and 2.6).
pub fn sext(v: u32, bits: u32) -> u32
    requires some { 1 ≤ bits }
    requires in_word { bits ≤ 32 }
    ensures { result ≡ sign_extended v bits }
{
    let size = 1u64 << bits;
    let low = u64::from(v) % size;
    if low < size / 2 {
        low as u32
    } else {
        (low + (1 << 32) - size) as u32
    }
}

/// The number by which an odd `v` is multiplied to give 1 modulo 2^32. Each of five steps of
/// Newton's iteration doubles the count of right bits.
pub fn inverse_odd(v: u32) -> u32
    requires { v % 2 ≡ 1 }
    ensures { v * result % 2 ^ 32 ≡ 1 }
{
    let two = refined(v, 1);
    let four = refined(v, two);
    let eight = refined(v, four);
    let sixteen = refined(v, eight);
    refined(v, sixteen)
}

/// One step of Newton's iteration for the inverse of `v`: it doubles how many low bits are right.
fn refined(v: u32, inverse: u32) -> u32
    ensures { (bits : ℕ) → bits ≤ 16 →
        v * inverse % 2 ^ bits ≡ 1 → v * result % 2 ^ (bits + bits) ≡ 1 }
{
    let product = v.wrapping_mul(inverse);
    inverse.wrapping_mul(2u32.wrapping_sub(product))
}

/// The least number of the form 2^k - 1 that is at least `v`.
pub fn cover(v: u32) -> u32
    ensures { IsCover v result }
{
    let mut ones = 0u32;
    while ones < v {
        ones = 2 * ones + 1;
    }
    ones
}
