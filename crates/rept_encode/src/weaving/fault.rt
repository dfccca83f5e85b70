//! Why stretches aren't written as a trace.

use thiserror::Error;

/// A step of a stretch of a hart. All three are counted from 0.
#[derive(Clone, Copy, Debug, PartialEq, Eq, Error)]
#[error("hart {hart}, stretch {stretch}, step {step}")]
pub struct HartPlace {
    pub hart: usize,
    pub stretch: usize,
    pub step: usize,
}

/// Why stretches aren't written as a trace.
#[derive(Clone, Copy, Debug, PartialEq, Eq, Error)]
pub enum WeaveFault {
    /// There is no hart, or there are more than 64.
    #[error("a trace has 1 to 64 harts")]
    HartCount,
    /// The step is a call and not the last one of its stretch.
    #[error("{0}: a call isn't the last step of its stretch")]
    InnerCall(HartPlace),
    /// The step is the first of its stretch that is a call and directly follows an uninferable
    /// jump.
    #[error("{0}: a call directly follows an uninferable jump")]
    JumpEnds(HartPlace),
    /// The packets of the hart of this number take 2^32 bytes or more.
    #[error("hart {0} has too many packets")]
    TooLong(usize),
    /// No memory was left.
    #[error("out of memory")]
    OutOfMemory,
}
