//! Why steps aren't written as a trace.

use thiserror::Error;

/// Why steps aren't written as a trace.
#[derive(Clone, Copy, Debug, PartialEq, Eq, Error)]
pub enum EncodeFault {
    /// The step of this number is a call that directly follows an uninferable jump. Steps are
    /// numbered from 0.
    #[error("step {0} is a call where an uninferable jump led")]
    JumpEnds(u32),
    /// No memory was left.
    #[error("out of memory")]
    OutOfMemory,
}

/// Why a step isn't added to others.
#[derive(Clone, Copy, Debug, PartialEq, Eq, Error)]
pub enum StepFault {
    /// The instruction can't lead to the next address, stands at no multiple of 4 (of 2 where code
    /// may be compressed), or is short where code may not be compressed.
    #[error("no step of this instruction leads there")]
    NoStep,
    /// There are 65,536 steps already.
    #[error("the path has 65536 steps")]
    Full,
    /// No memory was left.
    #[error("out of memory")]
    OutOfMemory,
}
