//! What an analysis fills as it learns.

ghost use Rattle.std.specs.Prelude.{◌≡◌, ◌+◌, ◌<◌, ◌≤◌, ℕ, IfOk, Some, length, slice_get};
ghost use Rattle.rept_log.specs.Known.{known_of, IsNew};
ghost use Rattle.rept_writing.specs.declared.passes.pass.Pass.{Pass};

use rept_log::FactLog;
use rept_span::{Spans, Transfer};
use rept_versions::ByteFacts;
use rept_writing::{RuleProgress, StoreIndex};
use std::alloc::{AllocError as OutOfMemory, Global};

/// The tables of an analysis: each is told where an analysis has it.
#[derive(Drop)]
pub struct AnalysisTables<B: ByteFacts, W: Transfer> {
    /// the facts
    pub known: FactLog<B>,
    /// the sets of the registers
    pub spans: Spans<W>,
    /// the rows that may write
    pub writing: StoreIndex,
    /// how far the rules of each row were applied
    pub inferred: RuleProgress,
}

impl<B: ByteFacts, W: Transfer> AnalysisTables<B, W> {
    /// Those of a run with so many rows and with moments up to a number, whose rows let one
    /// conclude so many bytes at most. Nothing is known yet. `OutOfMemory` says that their room
    /// can't be had.
    pub fn new(
        alloc: Global,
        count: u32,
        end: u32,
        bytes: u32,
    ) -> Result<AnalysisTables<B, W>, OutOfMemory>
        requires rows { count ≤ 66560 }
        requires bytes { bytes ≤ 532480 }
        ensures known { IfOk result (λ t. IsNew B.JOINS (known_of B.store t.known) count bytes) }
        ensures points { IfOk result (λ t. t.spans.points ≡ count + 1) }
        ensures room { IfOk result (λ t. end < t.writing.room) }
        ensures length { IfOk result (λ t. length t.inferred ≡ count) }
        ensures never { IfOk result (λ t. (i : ℕ) (x : Pass) → slice_get t.inferred i ≡ Some x → x ≡ Pass.Never) }
    {
        let known = FactLog::new(alloc, count, bytes)?;
        let spans = Spans::new(alloc, count + 1)?;
        let writing = StoreIndex::new(alloc, end as usize + 1, bytes as usize)?;
        let inferred = RuleProgress::new(alloc, count as usize)?;
        Ok(AnalysisTables {
            known,
            spans,
            writing,
            inferred,
        })
    }
}
