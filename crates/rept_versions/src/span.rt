//! Numbers side by side that have one value.

/// The numbers from `low` to `high` have a value.
#[derive(Clone, Copy, PartialEq, Eq, Debug)]
pub struct Span {
    /// The least number.
    pub low: u64,
    /// The greatest number.
    pub high: u64,
    /// The value of each of them.
    pub value: u8,
}
