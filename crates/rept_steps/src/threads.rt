//! What each thread of a program executed.

ghost use Rattle.std.specs.Prelude.{◌≡◌, ◌++◌, ◌∷◌, [], slice_get, OnOk, OnErr};
ghost use Rattle.rept_steps.specs.Course.{is_call_row};

use crate::slice::Slices;
use crate::steps::Steps;
use rept_isa::is_call;
use std::alloc::{AllocError as OutOfMemory, Global};
use std::marker::Model;

/// What one thread executed, and the slices in which it ran.
#[derive(Drop)]
pub struct ThreadRows {
    /// The steps, in the order in which the thread executed them. There may be none.
    pub steps: Steps,
    /// The slices that take these steps, in the order of time.
    pub slices: Slices,
}

impl ThreadRows {
    /// Whether the row of this number is a call. False where there is no such row.
    pub fn is_call(&self, step: u32) -> bool
        ensures { result ≡ is_call_row (slice_get self.now.steps step) }
    {
        match self.steps.rows().get(step as usize) {
            Some(row) => is_call(&row.instr),
            None => false,
        }
    }
}

/// A list of threads. Contracts see it as a list.
#[derive(Drop)]
pub struct Threads {
    items: Vec<ThreadRows>,
}

impl Model for Threads {
    ghost use Rattle.std.specs.Prelude.{List};
    ghost use Rattle.rept_steps.specs.declared.threads.ThreadRows.{ThreadRows};

    ghost Value = { List ThreadRows };

    ghost view = { λ t. t.items.items };
}

impl Threads {
    /// No threads. It takes no memory yet, and keeps the allocator to grow later.
    pub fn new(alloc: Global) -> Threads
        ensures { result ≡ [] }
    {
        Threads {
            items: Vec::new(alloc),
        }
    }

    /// Adds a thread after the others. A refusal, which comes only where memory runs out, leaves
    /// the list as it was and lets go of the thread.
    pub fn push(&mut self, rows: ThreadRows) -> Result<(), OutOfMemory>
        ensures ok { OnOk result (self.new ≡ self.old ++ rows ∷ []) }
        ensures err { OnErr result (self.new ≡ self.old) }
    {
        self.items.push(rows)?;
        Ok(())
    }

    /// The threads, in order.
    pub fn all(&self) -> &[ThreadRows]
        ensures { result.now ≡ self.now }
    {
        self.items.as_slice()
    }
}
