//! The branch bits of a stretch.

ghost use Rattle.std.specs.Prelude.{◌≡◌, ◌++◌, ◌+◌, ◌≤◌, ℕ, length, OnOk};
ghost use Rattle.rept_path.specs.Packets.{low_bits, bits_of};
ghost use Rattle.rept_path.specs.Program.{code_of};

use crate::look::holds_branch;
use crate::program::Program;
use rept_trace::Packet;
use std::alloc::AllocFailed;

/// Adds the lowest bits of a map, the lowest first.
pub fn push_bits(bits: &mut Vec<bool>, count: u8, map: u32) -> Result<(), AllocFailed<bool>>
    ensures bits { OnOk result (bits.new.items ≡ bits.old.items ++ low_bits count map) }
    ensures size { OnOk result (length bits.new.items ≡ length bits.old.items + count) }
{
    let mut rest = map;
    for _ in 0..count {
        bits.push(rest % 2 == 1)?;
        rest /= 2;
    }
    Ok(())
}

/// Adds the bit of a start packet, if its address holds a branch.
pub fn push_branch(
    bits: &mut Vec<bool>,
    program: &Program<'_>,
    address: u32,
    branch: bool,
) -> Result<(), AllocFailed<bool>>
    ensures bits { OnOk result ((privilege time context : ℕ) → bits.new.items ≡ bits.old.items ++ bits_of (code_of program.now) (Packet.Start branch privilege address time context)) }
    ensures size { OnOk result (length bits.new.items ≤ length bits.old.items + 1) }
    ensures grows { OnOk result (length bits.old.items ≤ length bits.new.items) }
{
    if holds_branch(program, address) {
        bits.push(branch)?;
    }
    Ok(())
}
