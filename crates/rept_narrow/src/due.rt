//! Which registers a row may tell something new of.

use rept_isa::Reg;
use std::alloc::{AllocError as OutOfMemory, Global};

/// For each row the registers whose sets before or after it changed since its rules were tried, by
/// bits: bit r is that of register r. No promise rests on it, for what isn't tried tells nothing
/// untrue.
#[derive(Drop)]
pub struct DueRows {
    items: Vec<u32>,
}

/// The bit of a register.
pub fn bit_of(r: Reg) -> u32 {
    1u32 << u32::from(r.number() % 32)
}

impl DueRows {
    /// So many rows, at each of which all registers are due. It takes four bytes for each.
    pub fn of(alloc: Global, count: usize) -> Result<DueRows, OutOfMemory> {
        let mut items = Vec::with_capacity(alloc, count)?;
        for _ in 0..count {
            items.push(u32::MAX)?;
        }
        Ok(DueRows { items })
    }

    /// The registers that are due at a row; at one that isn't listed all are.
    pub fn at(&self, row: u32) -> u32 {
        match self.items.get(row as usize) {
            Some(due) => *due,
            None => u32::MAX,
        }
    }

    /// Some more registers are due at a row, if it is listed.
    fn add(&mut self, row: u32, due: u32) {
        let number = row as usize;
        if number < self.items.len() {
            self.items[number] = self.items[number] | due;
        }
    }

    /// The set of a register at a point changed: it is due at the rows before and after the point.
    pub fn touch(&mut self, point: u32, r: Reg) {
        let due = bit_of(r);
        self.add(point, due);
        self.add(point.saturating_sub(1), due);
    }

    /// Of the registers that are due at a row only these are from here on, by bits.
    pub fn keep(&mut self, row: u32, due: u32) {
        let number = row as usize;
        if number < self.items.len() {
            self.items[number] = self.items[number] & due;
        }
    }
}
