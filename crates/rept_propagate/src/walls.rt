//! Which rows bytes met lately.

use std::alloc::{AllocError as OutOfMemory, Global};

/// At which row of the list of those that may write a byte stopped last at each number, and at
/// which it stopped last of all; and the number from which one came back last. It only saves work:
/// no clause says what it keeps.
#[derive(Drop)]
pub struct BlockerCache {
    list: Vec<Option<usize>>,
    stops: Vec<Option<usize>>,
    last: Option<usize>,
    open: Option<u32>,
}

impl BlockerCache {
    /// None yet, for so many numbers.
    pub fn new(alloc: Global, count: usize) -> Result<BlockerCache, OutOfMemory> {
        let list = vec![in alloc; None; count]?;
        let stops = vec![in alloc; None; count]?;
        Ok(BlockerCache {
            list,
            stops,
            last: None,
            open: None,
        })
    }

    /// The index of the row at which a byte stopped last at a number.
    pub fn at(&self, number: u32) -> Option<usize> {
        let list = self.list.as_slice();
        let number = number as usize;
        if number < list.len() {
            list[number]
        } else {
            None
        }
    }

    /// The index of the row at which a byte stopped last of all.
    pub fn last(&self) -> Option<usize> {
        self.last
    }

    /// The number from which a byte came back last.
    pub fn open(&self) -> Option<u32> {
        self.open
    }

    /// Keeps from which number it came.
    pub fn note_open(&mut self, number: u32) {
        self.open = Some(number);
    }

    /// Keeps at which row a byte stopped at a number.
    pub fn note(&mut self, number: u32, index: usize) {
        self.last = Some(index);
        let number = number as usize;
        if number < self.list.len() {
            self.list[number] = Some(index);
        }
    }

    /// The index of the row that last kept a byte from going on from a number to one that is next
    /// to it.
    pub fn stop(&self, number: u32) -> Option<usize> {
        let stops = self.stops.as_slice();
        let number = number as usize;
        if number < stops.len() {
            stops[number]
        } else {
            None
        }
    }

    /// Keeps which row kept a byte from going on from a number.
    pub fn note_stop(&mut self, number: u32, index: usize) {
        self.last = Some(index);
        let number = number as usize;
        if number < self.stops.len() {
            self.stops[number] = Some(index);
        }
    }
}
