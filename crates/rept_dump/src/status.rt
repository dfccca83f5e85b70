//! The register note of a core file.

ghost use Rattle.std.specs.Prelude.{◌≡◌, ◌≤◌, length};
ghost use Rattle.rept_dump.specs.Registers.{status_size};
ghost use Rattle.rept_dump.specs.Status.{IsStatus};

use rept_elf::{half, word};

/// The process, the signal that ended it, and its registers.
#[derive(Clone, Copy, Debug, PartialEq, Eq)]
pub struct Status {
    /// The number of the process.
    pub pid: u32,
    /// The signal.
    pub signal: u16,
    /// The address of the instruction that faulted, or after the `ecall`.
    pub pc: u32,
    /// x0 to x31, of which x0 is 0.
    pub regs: [u32; 32],
}

/// The registers in the descriptor of a register note.
pub fn read_status(desc: &[u8]) -> Status
    requires { status_size ≤ length desc.now }
    ensures { IsStatus desc.now result }
{
    let mut regs = [0u32; 32];
    for i in 1..32 {
        regs[i] = word(desc, 72 + 4 * i);
    }
    Status {
        pid: word(desc, 24),
        signal: half(desc, 12),
        pc: word(desc, 72),
        regs,
    }
}
