//! The numbers of registers.

ghost use Rattle.std.specs.Prelude.{◌≡◌, ◌<◌, ◌%◌, ◌^◌, ◌↔◌, IsSome, IfSome};

use std::marker::Model;

/// A register, x0 to x31 (RISC-V unprivileged manual, chapter 2.1). Contracts see its number.
#[derive(Clone, Copy, PartialEq, Eq, Debug)]
pub struct Reg {
    number: u8,
}

impl Model for Reg {
    ghost use Rattle.std.specs.Prelude.{ℕ, ◌<◌};

    ghost Value = { ℕ };

    ghost view = { λ r. r.number };

    ghost invariant = { λ r. r.number < 32 };

    ghost inverse = { λ n. record { number = n } };
}

impl Reg {
    /// The register of this number. None exactly where the number is over 31.
    pub fn new(n: u8) -> Option<Reg>
        ensures found { IsSome result ↔ (n < 32) }
        ensures value { IfSome result (λ r. r ≡ n) }
    {
        if n < 32 {
            Some(Reg { number: n })
        } else {
            None
        }
    }

    /// Its number, 0 to 31.
    pub fn number(self) -> u8
        ensures value { result ≡ self }
        ensures in_file { result < 32 }
    {
        self.number
    }

    /// The register whose number is the lowest five bits.
    pub(crate) fn from_low_bits(bits: u32) -> Reg
        ensures { result ≡ bits % 2 ^ 5 }
    {
        Reg {
            number: (bits % 32) as u8,
        }
    }
}

/// The register of a number below 32.
pub fn register(number: u8) -> Reg
    requires { number < 32 }
    ensures { result ≡ number }
{
    Reg { number }
}
