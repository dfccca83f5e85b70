//! The fields of a half.

ghost use Rattle.std.specs.Prelude.{◌≡◌, ◌<◌, ◌≤◌, ◌+◌, ◌^◌};
ghost use Rattle.rept_isa.specs.Words.{field};
ghost use Rattle.rept_rvc.specs.Halves.{rd_field, rs2_field, rs1_popular, rs2_popular};

use rept_isa::{Reg, register};

/// The number in so many bits of the half, from bit `low` on.
pub fn field(half: u16, low: u32, width: u32) -> u16
    requires place { low < 16 }
    requires number { width < 16 }
    ensures value { result ≡ field half low width }
{
    (half >> low) % (1 << width)
}

/// The register in bits 7 to 11.
pub fn rd(half: u16) -> Reg
    ensures { result ≡ rd_field half }
{
    register(field(half, 7, 5) as u8)
}

/// The register in bits 2 to 6.
pub fn rs2(half: u16) -> Reg
    ensures { result ≡ rs2_field half }
{
    register(field(half, 2, 5) as u8)
}

/// The popular register in bits 7 to 9.
pub fn rs1_popular(half: u16) -> Reg
    ensures { result ≡ rs1_popular half }
{
    register(8 + field(half, 7, 3) as u8)
}

/// The popular register in bits 2 to 4.
pub fn rs2_popular(half: u16) -> Reg
    ensures { result ≡ rs2_popular half }
{
    register(8 + field(half, 2, 3) as u8)
}
