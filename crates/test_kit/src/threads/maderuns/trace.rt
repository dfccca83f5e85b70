//! The trace.

ghost use Rattle.std.specs.Prelude.{◌≤◌, ◌<◌, false, length, IfOk};
ghost use Rattle.std.specs.List.{All};
ghost use Rattle.rept_encode.specs.Weaving.Woven.{IsWoven};
ghost use Rattle.test_kit.specs.Threads.Maderuns.Harts.{IsSendable};

use rept_encode::{Harts, WeaveFault, weave};
use rept_word::{OutOfMemory, Text};
use std::alloc::{AllocError, Global};

/// The trace of harts. A stream of 2^32 bytes or more is refused as a want of memory.
pub fn trace_of(alloc: Global, harts: &Harts) -> Result<Text, OutOfMemory>
    requires some { 0 < length harts.now }
    requires few { length harts.now ≤ 64 }
    requires sendable { All (All (λ stretch. IsSendable stretch.steps)) harts.now }
    ensures { IfOk result (IsWoven false harts.now) }
{
    match weave(alloc, false, harts) {
        Ok(trace) => Ok(trace),
        Err(fault) => match fault {
            WeaveFault::OutOfMemory | WeaveFault::TooLong(_) => Err(AllocError),
            WeaveFault::HartCount => unreachable!(),
            WeaveFault::InnerCall(_) => unreachable!(),
            WeaveFault::JumpEnds(_) => unreachable!(),
        },
    }
}
