//! What harts did.

ghost use Rattle.std.specs.Prelude.{◌≡◌, ◌++◌, ◌∷◌, [], OnOk, OnErr};

use rept_steps::Steps;
use std::alloc::{AllocError as OutOfMemory, Global};
use std::marker::Model;

/// Steps of one thread that a hart executed one after another, without leaving the program. A call
/// is the last step of its stretch: there the hart leaves the program. All times of a trace are of
/// one clock.
#[derive(Drop)]
pub struct HartStretch {
    /// The number of the thread's process (`pr_pid`).
    pub process: u32,
    /// The steps happened not before this time.
    pub begin: u64,
    /// They happened not after this time.
    pub end: u64,
    pub steps: Steps,
}

/// The stretches of one hart, in order. Contracts see a list.
#[derive(Drop)]
pub struct Hart {
    items: Vec<HartStretch>,
}

impl Model for Hart {
    ghost use Rattle.std.specs.Prelude.{List};
    ghost use Rattle.rept_encode.specs.declared.weaving.stretch.HartStretch.{HartStretch};

    ghost Value = { List HartStretch };

    ghost view = { λ h. h.items.items };
}

impl Hart {
    /// A hart that did nothing. It takes no memory yet, and keeps the allocator to grow later.
    pub fn new(alloc: Global) -> Hart
        ensures { result ≡ [] }
    {
        Hart {
            items: Vec::new(alloc),
        }
    }

    /// Adds a stretch after the others. A refusal, which comes only where memory runs out, leaves
    /// the hart as it was and lets go of the stretch.
    pub fn push(&mut self, stretch: HartStretch) -> Result<(), OutOfMemory>
        ensures ok { OnOk result (self.new ≡ self.old ++ stretch ∷ []) }
        ensures err { OnErr result (self.new ≡ self.old) }
    {
        self.items.push(stretch)?;
        Ok(())
    }

    /// The stretches, in order.
    pub fn all(&self) -> &[HartStretch]
        ensures { result.now ≡ self.now }
    {
        self.items.as_slice()
    }
}

/// The harts of a trace, in the order of its streams. Contracts see a list.
#[derive(Drop)]
pub struct Harts {
    items: Vec<Hart>,
}

impl Model for Harts {
    ghost use Rattle.std.specs.Prelude.{List};
    ghost use Rattle.rept_encode.specs.declared.weaving.stretch.HartStretch.{HartStretch};

    ghost Value = { List (List HartStretch) };

    ghost view = { λ h. h.items.items };
}

impl Harts {
    /// No harts. It takes no memory yet, and keeps the allocator to grow later.
    pub fn new(alloc: Global) -> Harts
        ensures { result ≡ [] }
    {
        Harts {
            items: Vec::new(alloc),
        }
    }

    /// Adds a hart after the others. A refusal, which comes only where memory runs out, leaves the
    /// list as it was and lets go of the hart.
    pub fn push(&mut self, hart: Hart) -> Result<(), OutOfMemory>
        ensures ok { OnOk result (self.new ≡ self.old ++ hart ∷ []) }
        ensures err { OnErr result (self.new ≡ self.old) }
    {
        self.items.push(hart)?;
        Ok(())
    }

    /// The harts, in order.
    pub fn all(&self) -> &[Hart]
        ensures { result.now ≡ self.now }
    {
        self.items.as_slice()
    }
}
