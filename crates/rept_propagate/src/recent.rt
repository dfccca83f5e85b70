//! Of which bytes something was learnt lately.

use std::alloc::{AllocError as OutOfMemory, Global};

/// How many marks there are. Bytes whose addresses differ by a multiple of it share one.
const MARKS: usize = 262_144;

/// When something was learnt of each of the tracked bytes last: how many times something had been
/// learnt of any by then. It only saves work: no clause says what it keeps.
#[derive(Drop)]
pub struct DirtyBytes {
    marks: Vec<u32>,
    now: u32,
    begun: u32,
    since: u32,
}

impl DirtyBytes {
    /// Nothing was learnt yet.
    pub fn new(alloc: Global) -> Result<DirtyBytes, OutOfMemory> {
        let marks = vec![in alloc; 0; MARKS]?;
        Ok(DirtyBytes {
            marks,
            now: 1,
            begun: 1,
            since: 1,
        })
    }

    /// Keeps that something was learnt of a byte.
    pub fn note(&mut self, a: u32) {
        self.now = self.now.saturating_add(1);
        let mark = a as usize % MARKS;
        if mark < self.marks.len() {
            self.marks[mark] = self.now;
        }
    }

    /// How many times something was learnt of bytes.
    pub fn now(&self) -> u32 {
        self.now
    }

    /// Whether something was learnt of a byte since so many times something had been learnt of any.
    pub fn has_since(&self, a: u32, time: u32) -> bool {
        let mark = a as usize % MARKS;
        let marks = self.marks.as_slice();
        mark < marks.len() && marks[mark] > time
    }

    /// Whether something was learnt of one of some bytes from an address on, since so many times
    /// something had been learnt of any.
    pub fn has_any_since(&self, start: u32, count: u32, time: u32) -> bool {
        for k in 0..count {
            if self.has_since(start.wrapping_add(k), time) {
                return true;
            }
        }
        false
    }

    /// Whether something was learnt of a byte in the pass over the tracked bytes before this one,
    /// or since.
    pub fn has(&self, a: u32) -> bool {
        self.has_since(a, self.since)
    }

    /// Keeps that a pass over the tracked bytes begins.
    pub fn begin(&mut self) {
        self.since = self.begun;
        self.begun = self.now;
    }
}
