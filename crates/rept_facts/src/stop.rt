//! Why an analysis has no report.

use rept_report::ConflictKind;

/// Why there is no report.
#[derive(Clone, Copy)]
pub enum Stop {
    /// What follows from the path and the dump contradicts itself, in this way among others.
    Conflict(ConflictKind),
    /// Memory ran out.
    OutOfMemory,
}
