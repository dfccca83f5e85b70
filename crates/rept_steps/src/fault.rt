//! Why a step isn't added.

use thiserror::Error;

/// Why a step isn't added.
#[derive(Clone, Copy, Debug, PartialEq, Eq, Error)]
pub enum PushFault {
    /// There are 65,536 steps already.
    #[error("the path has 65536 steps")]
    Full,
    /// No memory was left.
    #[error("out of memory")]
    OutOfMemory,
}
