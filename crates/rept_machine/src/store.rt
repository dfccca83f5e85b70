//! Stores into memory.

ghost use Rattle.std.specs.Prelude.{◌≡◌, ◌<◌, ◌≤◌, ◌^◌, OnOk, OnErr};
ghost use Rattle.rept_machine.specs.Arithmetic.{store_width, byte_of};
ghost use Rattle.rept_machine.specs.Bytes.{SameBytes, HaveEntries, BytesWritten};

use crate::memory::Memory;
use rept_isa::StoreOp;
use std::alloc::AllocError;

/// Writes the low bytes of the value from the base on, the lowest first, at addresses modulo 2^32.
/// Where there is no memory for them no byte changes.
pub fn store(memory: &mut Memory, op: StoreOp, base: u32, value: u32) -> Result<(), AllocError>
    ensures ok { OnOk result (BytesWritten memory.old memory.new base value (store_width op)) }
    ensures err { OnErr result (SameBytes memory.old memory.new) }
{
    let width = store_width(op);
    make_entries(memory, base, width)?;
    put_bytes(memory, base, value, width);
    Ok(())
}

/// How many bytes a store writes.
pub fn store_width(op: StoreOp) -> u32
    ensures value { result ≡ store_width op }
    ensures small { result ≤ 4 }
{
    match op {
        StoreOp::Sb => 1,
        StoreOp::Sh => 2,
        StoreOp::Sw => 4,
    }
}

fn make_entries(memory: &mut Memory, base: u32, width: u32) -> Result<(), AllocError>
    ensures same { SameBytes memory.old memory.new }
    ensures made { OnOk result (HaveEntries memory.new base width) }
{
    for k in 0..width {
        memory.make_entry(base.wrapping_add(k))?;
    }
    Ok(())
}

fn put_bytes(memory: &mut Memory, base: u32, value: u32, width: u32)
    requires entries { HaveEntries memory.old base width }
    requires width { width ≤ 4 }
    ensures { BytesWritten memory.old memory.new base value width }
{
    for k in 0..width {
        memory.put(base.wrapping_add(k), byte_of(value, k));
    }
}

fn byte_of(value: u32, k: u32) -> u8
    requires { k < 4 }
    ensures { result ≡ byte_of value k }
{
    ((value >> (8 * k)) % 256) as u8
}
