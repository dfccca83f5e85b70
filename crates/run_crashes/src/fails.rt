//! The calls of the ports that fail.

use std::alloc::{AllocError, Global};
use test_kit::Numbers;

/// The numbers of the loads, of the reads and of the writes that fail, from 1 on.
#[derive(Drop)]
pub struct Fails {
    pub loads: Vec<u64>,
    pub reads: Vec<u64>,
    pub writes: Vec<u64>,
}

impl Fails {
    /// No call fails.
    pub fn new(alloc: Global) -> Fails {
        Fails {
            loads: Vec::new(alloc),
            reads: Vec::new(alloc),
            writes: Vec::new(alloc),
        }
    }

    /// Lets the call with the number of the line fail, if it asks for that, and answers whether it
    /// does.
    pub fn take(&mut self, asked: &str, n: &Numbers) -> Result<bool, AllocError> {
        let list = match asked {
            "load" => &mut self.loads,
            "read" => &mut self.reads,
            "write" => &mut self.writes,
            _ => return Ok(false),
        };
        list.push(u64::from(n.word(0)))?;
        Ok(true)
    }
}
