//! What the instructions make of the known bits of their operands.

ghost use Rattle.std.specs.Prelude.{◌≡◌, ◌+◌, ◌-◌, ◌%◌, ◌^◌, ◌<◌, ◌≤◌, IfSome};
ghost use Rattle.rept_known.specs.Operations.{all_open, all_known, low_open, sum_bits, difference_bits, and_bits, or_bits, xor_bits, amount, shifted_left, shifted_right, shifted_with_sign, operation_bits, loaded_bits};

use crate::bits::Bits;
use crate::outside::outside;
use rept_isa::{LoadOp, RegOp};
use rept_machine::arithmetic::with_sign;
use rept_partial::Partial;

/// What an operation on two registers makes of their bits.
pub(crate) fn operation_bits(op: RegOp, a: Bits, b: Bits) -> Bits
    ensures { result ≡ operation_bits op a b }
{
    match op {
        RegOp::Add => sum(a, b),
        RegOp::Sub => difference(a, b),
        RegOp::And => conjunction(a, b),
        RegOp::Or => disjunction(a, b),
        RegOp::Xor => outside(a.value() ^ b.value(), a.loose() | b.loose()),
        RegOp::Sll => shifted_left(a, amount(b)),
        RegOp::Srl => shifted_right(a, amount(b)),
        RegOp::Sra => shifted_with_sign(a, amount(b)),
        RegOp::Slt | RegOp::Sltu => low_open(1),
        RegOp::Mul
        | RegOp::Mulh
        | RegOp::Mulhsu
        | RegOp::Mulhu
        | RegOp::Div
        | RegOp::Divu
        | RegOp::Rem
        | RegOp::Remu => all_open(),
    }
}

/// What a load can give.
pub(crate) fn loaded_bits(op: LoadOp) -> Bits
    ensures { result ≡ loaded_bits op }
{
    match op {
        LoadOp::Lbu => low_open(8),
        LoadOp::Lhu => low_open(16),
        LoadOp::Lb | LoadOp::Lh | LoadOp::Lw => all_open(),
    }
}

/// All words.
pub(crate) fn all_open() -> Bits
    ensures { result ≡ all_open }
{
    Bits::unknown()
}

/// One word alone.
pub(crate) fn all_known(v: u32) -> Bits
    ensures { result ≡ all_known v }
{
    Bits::exact(v)
}

/// The words of which so many low bits may be set.
fn low_open(count: u32) -> Bits
    requires { count < 32 }
    ensures { result ≡ low_open count }
{
    outside(0, (1u32 << count) - 1)
}

fn sum(a: Bits, b: Bits) -> Bits
    ensures { result ≡ sum_bits a b }
{
    let least = a.value().wrapping_add(b.value());
    let greatest = raised(least, a.loose(), b.loose());
    outside(least, (greatest ^ least) | (a.loose() | b.loose()))
}

/// The sum of three words, modulo 2^32.
fn raised(v: u32, m: u32, k: u32) -> u32
    ensures { result ≡ (v + m + k) % 2 ^ 32 }
{
    v.wrapping_add(m).wrapping_add(k)
}

fn difference(a: Bits, b: Bits) -> Bits
    ensures { result ≡ difference_bits a b }
{
    let known = a.value().wrapping_sub(b.value());
    let greatest = added(a.value(), b.value(), a.loose());
    let least = taken(a.value(), b.value(), b.loose());
    outside(known, (greatest ^ least) | (a.loose() | b.loose()))
}

/// The difference of two words and a third one, modulo 2^32.
fn added(v: u32, w: u32, m: u32) -> u32
    ensures { result ≡ (v + (2 ^ 32 - w) + m) % 2 ^ 32 }
{
    v.wrapping_sub(w).wrapping_add(m)
}

/// A word less two others, modulo 2^32.
fn taken(v: u32, w: u32, k: u32) -> u32
    ensures { result ≡ (v + (2 ^ 32 - w) + (2 ^ 32 - k)) % 2 ^ 32 }
{
    v.wrapping_sub(w).wrapping_sub(k)
}

fn conjunction(a: Bits, b: Bits) -> Bits
    ensures { result ≡ and_bits a b }
{
    let ones = a.value() & b.value();
    let possible = (a.value() | a.loose()) & (b.value() | b.loose());
    outside(ones, possible & !ones)
}

fn disjunction(a: Bits, b: Bits) -> Bits
    ensures { result ≡ or_bits a b }
{
    let ones = a.value() | b.value();
    outside(ones, (a.loose() | b.loose()) & !ones)
}

/// The amount of a shift, where its operand has one value: its low five bits count.
fn amount(b: Bits) -> Option<u32>
    ensures value { result ≡ amount b }
    ensures small { IfSome result (λ n. n < 32) }
{
    match b.as_exact() {
        None => None,
        Some(v) => Some(v % 32),
    }
}

fn shifted_left(a: Bits, amount: Option<u32>) -> Bits
    requires { IfSome amount (λ n. n < 32) }
    ensures { result ≡ shifted_left a amount }
{
    match amount {
        None => all_open(),
        Some(n) => outside(a.value() << n, a.loose() << n),
    }
}

fn shifted_right(a: Bits, amount: Option<u32>) -> Bits
    requires { IfSome amount (λ n. n < 32) }
    ensures { result ≡ shifted_right a amount }
{
    match amount {
        None => all_open(),
        Some(n) => outside(a.value() >> n, a.loose() >> n),
    }
}

fn shifted_with_sign(a: Bits, amount: Option<u32>) -> Bits
    requires { IfSome amount (λ n. n < 32) }
    ensures { result ≡ shifted_with_sign a amount }
{
    match amount {
        None => all_open(),
        Some(n) => outside(with_sign(a.value(), n), with_sign(a.loose(), n)),
    }
}
