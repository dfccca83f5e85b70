//! Takes bytes from moment to moment, and learns what they are there.

ghost use Rattle.std.specs.Prelude.{◌≡◌, ◌+◌, ◌<◌, IfOk, Ok};

mod accessing;
mod carrying;
mod following;
mod leaping;
mod likeness;
mod noting;
mod walling;

use crate::recent::DirtyBytes;
use crate::walls::BlockerCache;
pub use likeness::WORD;
use rept_facts::CrashFacts;
use rept_reason::RowRules;
use rept_span::Transfer;
use rept_versions::ByteFacts;
use std::alloc::{AllocError as OutOfMemory, Global};

/// What is known of a run and the dump in which it ends, and how far bytes were taken from one
/// moment to another. Its clauses speak of `facts` alone: the two tables only save work.
#[derive(Drop)]
pub struct Propagation<'a, B: ByteFacts, W: Transfer, R: RowRules> {
    /// what is known
    pub facts: CrashFacts<'a, B, W, R>,
    /// the bytes of which something was learnt lately
    pub recent: DirtyBytes,
    /// the rows at which bytes stopped
    walls: BlockerCache,
}

impl<'a, B: ByteFacts, W: Transfer, R: RowRules> Propagation<'a, B, W, R> {
    /// Over these facts, no byte of which was taken anywhere yet. `OutOfMemory` says that the room
    /// of its tables can't be had.
    pub fn new(
        alloc: Global,
        facts: CrashFacts<'a, B, W, R>,
    ) -> Result<Propagation<'a, B, W, R>, OutOfMemory>
        ensures { IfOk result (λ a. a.facts ≡ facts.entry) }
    {
        let recent = DirtyBytes::new(alloc)?;
        let walls = BlockerCache::new(alloc, facts.end() as usize + 1)?;
        Ok(Propagation {
            facts,
            recent,
            walls,
        })
    }
}
