//! The integer registers, by number.

ghost use Rattle.std.specs.Prelude.{◌≡◌, ◌<◌, ◌^◌, ℕ, slice_index};
ghost use Rattle.rept_machine.specs.Bytes.{written};

use rept_isa::Reg;

pub fn read(registers: &[u32; 32], r: Reg) -> u32
    ensures { result ≡ slice_index registers.now r }
{
    registers[usize::from(r.number())]
}

/// Writes the value, which x0 doesn't take.
pub fn write(registers: &mut [u32; 32], r: Reg, value: u32)
    ensures after { registers.new ≡ written registers.old r value }
    ensures words { (r : ℕ) → slice_index registers.new r < 2 ^ 32 }
    ensures zero { slice_index registers.new 0 ≡ slice_index registers.old 0 }
{
    if r.number() != 0 {
        registers[usize::from(r.number())] = value;
    }
}
