//! The numbers that a debugger gives to signals.

ghost use Rattle.std.specs.Prelude.{◌≡◌};
ghost use Rattle.rept_stub.specs.Signals.{debugger_signal};

/// The number of a signal in stop replies (GDB's own numbers, `gdb/signals.def`, which its manual's
/// section on stop replies refers to), of the number that Linux gives to it on RISC-V. 143, GDB's
/// "unknown signal", for a number that is none of them.
pub fn debugger_signal(linux: u16) -> u8
    ensures { result ≡ debugger_signal linux }
{
    match linux {
        0..=6 | 8 | 9 | 11 | 13..=15 | 21 | 22 | 24..=28 => linux as u8,
        7 => 10,
        10 => 30,
        12 => 31,
        17 => 20,
        18 => 19,
        19 => 17,
        20 => 18,
        23 => 16,
        29 => 23,
        30 => 32,
        31 => 12,
        _ => 143,
    }
}
