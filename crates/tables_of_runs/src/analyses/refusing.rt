//! A store of bytes over which memory seems to run out again and again.

use rept_versions::{ByteFacts, Carried, Learnt, PlainFacts, ValueStretch};
use std::alloc::{AllocError, Global};

/// A plain list that refuses every other fact that it is to learn.
#[derive(Drop)]
pub struct Refusing {
    facts: PlainFacts,
    refuses: bool,
}

impl ByteFacts for Refusing {
    ghost use Rattle.rept_versions.specs.Listed.{store};
    ghost use Rattle.std.specs.Prelude.{false};

    const JOINS: bool = false;

    ghost JOINS = { false };

    ghost store = { λ r. store r.facts };

    fn make(alloc: Global, points: u32, access_bytes: u32) -> Result<Self, AllocError> {
        let facts = PlainFacts::make(alloc, points, access_bytes)?;
        Ok(Refusing {
            facts,
            refuses: true,
        })
    }

    fn known(&self, point: u32, a: u32) -> Option<u8> {
        self.facts.known(point, a)
    }

    fn learn(&mut self, point: u32, a: u32, value: u8) -> Result<Learnt, AllocError> {
        if self.refuses {
            if self.facts.known(point, a) == None {
                self.refuses = false;
                return Err(AllocError);
            }
        }
        self.refuses = true;
        self.facts.learn(point, a, value)
    }

    fn carry(&mut self, a: u32, from: u32, to: u32) -> Result<Carried, AllocError> {
        self.facts.carry(a, from, to)
    }

    fn spare(&self) -> u32 {
        0
    }

    fn track(&mut self, a: u32) -> Result<(), AllocError> {
        self.facts.track(a)
    }

    fn count(&self) -> usize {
        self.facts.count()
    }

    fn address(&self, k: usize) -> u32 {
        self.facts.address(k)
    }

    fn next_stretch(&self, a: u32, point: u32) -> Option<ValueStretch> {
        self.facts.next_stretch(a, point)
    }
}
