//! A sparse memory of bytes.

ghost use Rattle.std.specs.Prelude.{◌≡◌, ◌<◌, ◌^◌, ℕ, true, OnOk};
ghost use Rattle.rept_machine.specs.Arithmetic.{loaded, half_at, word_at, extended};
ghost use Rattle.rept_machine.specs.Entries.{AreBytes};

use rept_isa::LoadOp;
use std::alloc::{AllocError, Global};
use std::collections::BTreeMap;

/// Bytes at 32-bit addresses. An address without an entry reads 0.
#[derive(Drop)]
pub struct Memory {
    bytes: BTreeMap<u32, u8>,
    ghost small: { AreBytes bytes },
}

impl Memory {
    ghost use Rattle.rept_machine.specs.Bytes.{byte_at, has_entry, SameBytes, KeepsEntries, ByteWritten};

    pub fn new(alloc: Global) -> Memory
        ensures { (a : ℕ) → byte_at result a ≡ 0 }
    {
        Memory {
            bytes: BTreeMap::new(alloc),
        }
    }

    pub fn byte(&self, address: u32) -> u8
        ensures { result ≡ byte_at self.now address }
    {
        self.bytes.get(&address).copied().unwrap_or(0)
    }

    /// Gives the address an entry, and changes no byte.
    pub fn make_entry(&mut self, address: u32) -> Result<(), AllocError>
        ensures same { SameBytes self.old self.new }
        ensures kept { KeepsEntries self.old self.new }
        ensures made { OnOk result (has_entry self.new address ≡ true) }
    {
        if self.bytes.get(&address).is_none() {
            self.bytes.insert(address, 0)?;
        }
        Ok(())
    }

    /// Writes a byte where there is an entry, which takes no memory.
    pub fn put(&mut self, address: u32, value: u8)
        requires { has_entry self.old address ≡ true }
        ensures written { ByteWritten self.old self.new address value }
        ensures kept { KeepsEntries self.old self.new }
    {
        let _ = self.bytes.insert(address, value);
    }

    fn half(&self, base: u32) -> u32
        ensures value { result ≡ half_at (byte_at self.now) base }
        ensures small { result < 2 ^ 16 }
    {
        u32::from(self.byte(base)) + 256 * u32::from(self.byte(base.wrapping_add(1)))
    }

    /// The word at this address.
    pub fn word(&self, base: u32) -> u32
        ensures { result ≡ word_at (byte_at self.now) base }
    {
        let low = self.half(base);
        let high = self.half(base.wrapping_add(2));
        low + 65536 * high
    }

    /// What a load at this address puts into its register.
    pub fn load(&self, op: LoadOp, base: u32) -> u32
        ensures { result ≡ loaded op (byte_at self.now) base }
    {
        match op {
            LoadOp::Lb => extended_byte(u32::from(self.byte(base))),
            LoadOp::Lh => extended_half(self.half(base)),
            LoadOp::Lw => self.word(base),
            LoadOp::Lbu => u32::from(self.byte(base)),
            LoadOp::Lhu => self.half(base),
        }
    }
}

/// The highest of eight bits, repeated.
fn extended_byte(n: u32) -> u32
    requires { n < 2 ^ 8 }
    ensures { result ≡ extended 8 n }
{
    if n < 128 { n } else { n + 0xffff_ff00 }
}

/// The highest of sixteen bits, repeated.
fn extended_half(n: u32) -> u32
    requires { n < 2 ^ 16 }
    ensures { result ≡ extended 16 n }
{
    if n < 32768 { n } else { n + 0xffff_0000 }
}
