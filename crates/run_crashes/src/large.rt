//! Files at the limits of their sizes, and one byte past them.

use crate::crash::Crash;
use rept_ports::{FileStore, LoadFault};
use std::alloc::{AllocError, Global};
use test_kit::Numbers;

/// A file store of which one file has so many bytes, and the others none. It gives no bytes of that
/// file either, so that a case needs no memory for it.
#[derive(Drop)]
struct OneLarge<'a> {
    name: &'a str,
    size: usize,
    loads: u64,
    faults: u64,
}

impl<'a> FileStore for OneLarge<'a> {
    ghost use Rattle.std.specs.Prelude.{None};

    ghost port = { λ s. record { files = None; loads = s.loads; faults = s.faults } };

    fn load(&mut self, alloc: Global, name: &str, limit: usize) -> Result<Vec<u8>, LoadFault> {
        self.loads = self.loads.saturating_add(1);
        if name == self.name && self.size > limit {
            self.faults = self.faults.saturating_add(1);
            return Err(LoadFault::TooLarge);
        }
        Ok(Vec::new(alloc))
    }
}

/// What comes of files of which the first word of the line names one that has as many bytes as the
/// number after it.
pub fn told(alloc: Global, crash: &Crash, line: &str) -> Result<String, AllocError> {
    let mut words = line.split_whitespace();
    let name = words.next().unwrap_or("");
    let mut numbers = Numbers::new();
    numbers.take(words.next().unwrap_or(""));
    let mut file_store = OneLarge {
        name,
        size: numbers.word(0) as usize,
        loads: 0,
        faults: 0,
    };
    crash.told(alloc, "open e c t", &mut file_store)
}
