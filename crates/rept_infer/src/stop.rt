//! Why nothing is told.

use rept_narrow::Empty;

/// Why nothing is told.
#[derive(Clone, Copy, Debug)]
pub enum InferStop {
    /// No value is left for a register at a point: no admitted execution has what is known.
    Contradiction(Empty),
    /// Memory ran out.
    OutOfMemory,
}
