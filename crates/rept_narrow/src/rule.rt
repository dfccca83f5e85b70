//! By which rule a set or a byte was told.

use std::alloc::{AllocError as OutOfMemory, Global};

/// By which rule the set of a register was narrowed last, or a byte was told.
#[derive(Clone, Copy, Debug)]
pub enum NarrowRule {
    /// a step's operands and its result, or a byte that it loads or stores
    Value,
    /// what a call answers
    Call,
    /// a value that differs by a constant
    Class,
    /// no step in between writes the byte
    Miss,
    /// the byte can't be written
    ReadOnly,
    /// the byte stood there at the first point
    FirstMemory,
}

/// By which rule each of so many sets was narrowed last, and by which one sets are narrowed now. No
/// promise rests on it.
#[derive(Drop)]
pub struct KeptRules {
    items: Vec<NarrowRule>,
    now: NarrowRule,
}

impl KeptRules {
    /// So many sets, narrowed by none.
    pub fn of(alloc: Global, count: usize) -> Result<KeptRules, OutOfMemory> {
        let mut items = Vec::with_capacity(alloc, count)?;
        for _ in 0..count {
            items.push(NarrowRule::Value)?;
        }
        Ok(KeptRules {
            items,
            now: NarrowRule::Value,
        })
    }

    /// From here on sets are narrowed by this rule.
    pub fn begin(&mut self, rule: NarrowRule) {
        self.now = rule;
    }

    /// The set of a number was narrowed.
    pub fn keep(&mut self, number: usize) {
        if number < self.items.len() {
            self.items[number] = self.now;
        }
    }

    /// By which rule the set of a number was narrowed last.
    pub fn at(&self, number: usize) -> NarrowRule {
        match self.items.get(number) {
            Some(rule) => *rule,
            None => NarrowRule::Value,
        }
    }
}
