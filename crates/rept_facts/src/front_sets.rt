//! Sets of values as they were filled from a prefix of the log.

use rept_span::{Spans, Transfer};

/// The sets of all registers at all points, filled from the facts at places below a limit.
#[derive(Drop)]
pub struct FrontSets<W: Transfer> {
    /// the sets
    pub spans: Spans<W>,
    /// the limit
    pub limit: u32,
}
