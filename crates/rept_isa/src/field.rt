//! The fields of a word of code.

ghost use Rattle.std.specs.Prelude.{◌≡◌};
ghost use Rattle.rept_isa.specs.Words.{opcode, rd_field, funct3, rs1_field, rs2_field, funct5, funct7, field, i_immediate, s_immediate, b_immediate, u_immediate, j_immediate};

use crate::number::signed;
use crate::reg::Reg;

/// The lowest seven bits.
pub fn opcode(word: u32) -> u32
    ensures { result ≡ opcode word }
{
    word % 128
}

pub fn funct3(word: u32) -> u32
    ensures { result ≡ funct3 word }
{
    (word >> 12) % 8
}

pub fn funct7(word: u32) -> u32
    ensures { result ≡ funct7 word }
{
    word >> 25
}

pub fn funct5(word: u32) -> u32
    ensures { result ≡ funct5 word }
{
    word >> 27
}

pub fn rd(word: u32) -> Reg
    ensures { result ≡ rd_field word }
{
    Reg::from_low_bits(word >> 7)
}

pub fn rs1(word: u32) -> Reg
    ensures { result ≡ rs1_field word }
{
    Reg::from_low_bits(word >> 15)
}

pub fn rs2(word: u32) -> Reg
    ensures { result ≡ rs2_field word }
{
    Reg::from_low_bits(word >> 20)
}

/// The number of a control and status register.
pub fn csr(word: u32) -> u16
    ensures { result ≡ field word 20 12 }
{
    (word >> 20) as u16
}

pub fn i_immediate(word: u32) -> i32
    ensures { result ≡ i_immediate word }
{
    signed(word >> 20, 1 << 11)
}

pub fn s_immediate(word: u32) -> i32
    ensures { result ≡ s_immediate word }
{
    signed((word >> 7) % 32 + 32 * (word >> 25), 1 << 11)
}

pub fn b_immediate(word: u32) -> i32
    ensures { result ≡ b_immediate word }
{
    let low = 2 * ((word >> 8) % 16) + 32 * ((word >> 25) % 64);
    signed(
        low + 2048 * ((word >> 7) % 2) + 4096 * (word >> 31),
        1 << 12,
    )
}

pub fn u_immediate(word: u32) -> u32
    ensures { result ≡ u_immediate word }
{
    (word >> 12) << 12
}

pub fn j_immediate(word: u32) -> i32
    ensures { result ≡ j_immediate word }
{
    let low = 2 * ((word >> 21) % 1024) + 2048 * ((word >> 20) % 2);
    signed(
        low + 4096 * ((word >> 12) % 256) + (1 << 20) * (word >> 31),
        1 << 20,
    )
}
