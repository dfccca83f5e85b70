//! Stretches of steps that a hart ran for a thread.

ghost use Rattle.std.specs.Prelude.{◌≡◌, ◌++◌, ◌∷◌, [], OnOk, OnErr};

use std::alloc::{AllocError as OutOfMemory, Global};
use std::marker::Model;

/// Steps of one thread that one hart ran one after the other, and the times between which they
/// happened. All times of a run are of one clock. A call is the last step of its slice: it is
/// entered there, and returns as the thread's next slice begins.
#[derive(Clone, Copy, Debug, PartialEq)]
pub struct Slice {
    /// The stream of packets that told of it, counted from 0; each hart has its own.
    pub stream: u32,
    /// Its steps happened not before this time.
    pub begin: u64,
    /// Its steps happened not after this time. The greatest number where no time is known.
    pub end: u64,
    /// The number of its first step in the thread, counted from 0.
    pub first: u32,
    /// How many steps it has.
    pub count: u32,
}

/// A list of slices. Contracts see it as a list.
#[derive(Drop)]
pub struct Slices {
    items: Vec<Slice>,
}

impl Model for Slices {
    ghost use Rattle.std.specs.Prelude.{List};
    ghost use Rattle.rept_steps.specs.declared.slice.Slice.{Slice};

    ghost Value = { List Slice };

    ghost view = { λ s. s.items.items };
}

impl Slices {
    /// No slices. It takes no memory yet, and keeps the allocator to grow later.
    pub fn new(alloc: Global) -> Slices
        ensures { result ≡ [] }
    {
        Slices {
            items: Vec::new(alloc),
        }
    }

    /// Adds a slice after the others. A refusal, which comes only where memory runs out, leaves the
    /// list as it was.
    pub fn push(&mut self, slice: Slice) -> Result<(), OutOfMemory>
        ensures ok { OnOk result (self.new ≡ self.old ++ slice ∷ []) }
        ensures err { OnErr result (self.new ≡ self.old) }
    {
        self.items.push(slice)?;
        Ok(())
    }

    /// The slices, in order.
    pub fn all(&self) -> &[Slice]
        ensures { result.now ≡ self.now }
    {
        self.items.as_slice()
    }
}
