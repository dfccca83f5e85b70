//! The immediates and offsets of a half.

ghost use Rattle.std.specs.Prelude.{◌≡◌, pos};
ghost use Rattle.rept_isa.specs.Words.{field};
ghost use Rattle.rept_rvc.specs.Halves.{addi4spn_immediate, word_offset, lwsp_offset, swsp_offset, six_bit_immediate, addi16sp_immediate, lui_immediate, jump_offset, branch_offset};
ghost use Rattle.rept_rvc.specs.Reading.{six_bits};

use crate::field::field;
use rept_isa::number::{signed, word};

/// Of C.ADDI4SPN.
pub fn addi4spn_immediate(half: u16) -> u16
    ensures { result ≡ addi4spn_immediate half }
{
    4 * field(half, 6, 1) + 8 * field(half, 5, 1) + 16 * field(half, 11, 2) + 64 * field(half, 7, 4)
}

/// Of C.LW and C.SW.
pub fn word_offset(half: u16) -> i32
    ensures { result ≡ pos (word_offset half) }
{
    i32::from(4 * field(half, 6, 1) + 8 * field(half, 10, 3) + 64 * field(half, 5, 1))
}

pub fn lwsp_offset(half: u16) -> i32
    ensures { result ≡ pos (lwsp_offset half) }
{
    i32::from(4 * field(half, 4, 3) + 32 * field(half, 12, 1) + 64 * field(half, 2, 2))
}

pub fn swsp_offset(half: u16) -> i32
    ensures { result ≡ pos (swsp_offset half) }
{
    i32::from(4 * field(half, 9, 4) + 64 * field(half, 7, 2))
}

/// Bit 12 above bits 2 to 6.
pub fn six_bits(half: u16) -> u16
    ensures { result ≡ six_bits half }
{
    field(half, 2, 5) + 32 * field(half, 12, 1)
}

/// Of C.ADDI, C.LI and C.ANDI.
pub fn six_bit_immediate(half: u16) -> i32
    ensures { result ≡ six_bit_immediate half }
{
    signed(u32::from(six_bits(half)), 1 << 5)
}

pub fn addi16sp_immediate(half: u16) -> i32
    ensures { result ≡ addi16sp_immediate half }
{
    let low = 16 * field(half, 6, 1) + 32 * field(half, 2, 1) + 64 * field(half, 5, 1);
    signed(
        u32::from(low + 128 * field(half, 3, 2) + 512 * field(half, 12, 1)),
        1 << 9,
    )
}

/// The upper bits of C.LUI, with the sign above them.
pub fn lui_immediate(half: u16) -> u32
    ensures { result ≡ lui_immediate half }
{
    word(signed(4096 * u32::from(six_bits(half)), 1 << 17))
}

/// Of C.J and C.JAL.
pub fn jump_offset(half: u16) -> i32
    ensures { result ≡ jump_offset half }
{
    let low = 2 * field(half, 3, 3)
        + 16 * field(half, 11, 1)
        + 32 * field(half, 2, 1)
        + 64 * field(half, 7, 1);
    let high = 128 * field(half, 6, 1)
        + 256 * field(half, 9, 2)
        + 1024 * field(half, 8, 1)
        + 2048 * field(half, 12, 1);
    signed(u32::from(low + high), 1 << 11)
}

/// Of C.BEQZ and C.BNEZ.
pub fn branch_offset(half: u16) -> i32
    ensures { result ≡ branch_offset half }
{
    let low = 2 * field(half, 3, 2) + 8 * field(half, 10, 2) + 32 * field(half, 2, 1);
    signed(
        u32::from(low + 64 * field(half, 5, 2) + 256 * field(half, 12, 1)),
        1 << 8,
    )
}
